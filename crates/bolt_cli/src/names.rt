//! Names of files, as standard error has them. They are gathered in memory: if there is none, the sink
//! has failed.
ghost use Rattle.std.specs.Prelude.{flat_map};
ghost use Rattle.std.specs.Char.{encode_utf8};
ghost use Rattle.std.specs.Char.Escape.{escape_default};
ghost use Rattle.bolt_cli.specs.Names.{shown_char, shown_lines, shown_name, shown_text};
ghost use Rattle.bolt_cli.specs.Gathered.{GathersPiece};

use bolt_format::{MemSink, Sink};

/// Adds a name as the line of a fault has it: each control character is escaped. So the line stays one
/// line, and a terminal shows it as it is.
pub(crate) fn put_escaped_name(name: &str, line: &mut MemSink)
    ensures { GathersPiece ⟦<MemSink as Sink>⟧ line.old line.new (shown_name name.now) }
{
    put_escaped_text(name, false, line);
}

/// Adds a text of several lines that has names: each other control character is escaped.
pub(crate) fn put_escaped_lines(text: &str, lines: &mut MemSink)
    ensures { GathersPiece ⟦<MemSink as Sink>⟧ lines.old lines.new (shown_lines text.now) }
{
    put_escaped_text(text, true, lines);
}

/// Adds a text without control characters, but for line feeds, if it has lines.
fn put_escaped_text(text: &str, has_lines: bool, shown: &mut MemSink)
    ensures { GathersPiece ⟦<MemSink as Sink>⟧ shown.old shown.new (shown_text has_lines text.now) }
{
    for c in text.chars() {
        put_escaped_char(c, has_lines, shown);
    }
}

fn put_escaped_char(c: char, has_lines: bool, shown: &mut MemSink)
    ensures { GathersPiece ⟦<MemSink as Sink>⟧ shown.old shown.new
        (flat_map encode_utf8 (shown_char has_lines c)) }
{
    if c.is_control() && !(has_lines && c == '\n') {
        put_escape(c, shown);
    } else {
        put_plain_char(c, shown);
    }
}

fn put_escape(c: char, shown: &mut MemSink)
    ensures { GathersPiece ⟦<MemSink as Sink>⟧ shown.old shown.new
        (flat_map encode_utf8 (escape_default c)) }
{
    for escaped in c.escape_default() {
        put_plain_char(escaped, shown);
    }
}

fn put_plain_char(c: char, shown: &mut MemSink)
    ensures { GathersPiece ⟦<MemSink as Sink>⟧ shown.old shown.new (encode_utf8 c) }
{
    let mut room = [0; 4];
    put_plain(c.encode_utf8(&mut room).as_bytes(), shown);
}

/// Adds bytes.
pub(crate) fn put_plain(bytes: &[u8], text: &mut MemSink)
    ensures { GathersPiece ⟦<MemSink as Sink>⟧ text.old text.new bytes.now }
{
    let _ = text.put(bytes);
}
