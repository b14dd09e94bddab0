//! Adds a path to what is gathered.
ghost use Rattle.std.specs.Prelude.{◌≡◌, ◌∷◌};
ghost use Rattle.bolt_format.specs.{Endings.ending};
ghost use Rattle.bolt_tree.specs.Paths.{path_of};
ghost use Rattle.bolt_text.specs.Gathers.{Gathers};
ghost use Rattle.bolt_text.specs.NamedPaths.{named_path, text_after};
ghost use Rattle.bolt_text.specs.Pieces.{later_parts, part_text, path_text, separator};

use crate::gathered::{Gathered, put_bytes, put_hex_digits, put_hex_string};
use crate::readable::is_readable_path;
use bolt_format::{Sink, SinkFault};

/// How the parts of a path are written.
#[derive(Clone, Copy)]
pub enum PathForm {
    /// In lower-case hexadecimal, joined by slashes.
    Slashes,
    /// In lower-case hexadecimal as JSON strings, joined by commas.
    Strings,
    /// As they are, joined by slashes.
    Plain,
}

/// Adds a path in hexadecimal, and its text if it can be read.
pub(crate) fn put_named_path<S: Sink>(
    parts: &[&[u8]],
    gathered: &mut Gathered,
    sink: &mut S,
) -> Result<(), SinkFault>
    ensures { Gathers S.Sink sink.old sink.new gathered.old.items gathered.new.items
        (named_path (path_of parts.now)) (ending result) }
{
    put_path(parts, PathForm::Slashes, gathered, sink)?;
    put_text_after(parts, gathered, sink)
}

/// Adds the parts of a path in brackets, if it can be read.
fn put_text_after<S: Sink>(
    parts: &[&[u8]],
    gathered: &mut Gathered,
    sink: &mut S,
) -> Result<(), SinkFault>
    ensures { Gathers S.Sink sink.old sink.new gathered.old.items gathered.new.items
        (text_after (path_of parts.now)) (ending result) }
{
    if !is_readable_path(parts) {
        return Ok(());
    }
    put_bytes(b" (", gathered, sink)?;
    put_path(parts, PathForm::Plain, gathered, sink)?;
    put_bytes(b")", gathered, sink)
}

/// Adds the parts of a path in a form.
pub(crate) fn put_path<S: Sink>(
    parts: &[&[u8]],
    form: PathForm,
    gathered: &mut Gathered,
    sink: &mut S,
) -> Result<(), SinkFault>
    ensures { Gathers S.Sink sink.old sink.new gathered.old.items gathered.new.items
        (path_text form (path_of parts.now)) (ending result) }
{
    let Some((first, rest)) = parts.split_first() else {
        return Ok(());
    };
    put_path_part(first, form, gathered, sink)?;
    put_parts_after(rest, form, gathered, sink)
}

/// Adds a separator and then the part, for each of these parts.
fn put_parts_after<S: Sink>(
    parts: &[&[u8]],
    form: PathForm,
    gathered: &mut Gathered,
    sink: &mut S,
) -> Result<(), SinkFault>
    ensures { Gathers S.Sink sink.old sink.new gathered.old.items gathered.new.items
        (later_parts form parts.now) (ending result) }
{
    for part in parts {
        put_part_after(part, form, gathered, sink)?;
    }
    Ok(())
}

fn put_part_after<S: Sink>(
    part: &[u8],
    form: PathForm,
    gathered: &mut Gathered,
    sink: &mut S,
) -> Result<(), SinkFault>
    ensures { Gathers S.Sink sink.old sink.new gathered.old.items gathered.new.items
        (separator form ∷ part_text form part.now) (ending result) }
{
    put_bytes(&[separator(form)], gathered, sink)?;
    put_path_part(part, form, gathered, sink)
}

fn separator(form: PathForm) -> u8
    ensures { result ≡ separator form }
{
    match form {
        PathForm::Slashes | PathForm::Plain => b'/',
        PathForm::Strings => b',',
    }
}

fn put_path_part<S: Sink>(
    part: &[u8],
    form: PathForm,
    gathered: &mut Gathered,
    sink: &mut S,
) -> Result<(), SinkFault>
    ensures { Gathers S.Sink sink.old sink.new gathered.old.items gathered.new.items
        (part_text form part.now) (ending result) }
{
    match form {
        PathForm::Slashes => put_hex_digits(part, gathered, sink),
        PathForm::Strings => put_hex_string(part, gathered, sink),
        PathForm::Plain => put_bytes(part, gathered, sink),
    }
}
