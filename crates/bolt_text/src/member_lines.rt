//! The lines of members of a listing.
ghost use Rattle.std.specs.Prelude.{◌≡◌, IfErr};
ghost use Rattle.bolt_format.specs.{Wrote.Wrote, Endings.ending};
ghost use Rattle.bolt_text.specs.{ListForms.lines_form, ListForms.list_line, ReportEndings.FailsByWritingIf, ReportEndings.report_ending};
ghost use Rattle.bolt_text.specs.{Forms.digits_json, JsonLines.json_line};
ghost use Rattle.bolt_text.specs.ListLines.{member_line};
ghost use Rattle.bolt_tree.specs.{Paths.path_of, ShownEntries.item_view};

use crate::forms::ListForm;
use crate::gathered::put;
use crate::json_text::JsonText;
use crate::path_pieces::PathForm;
use crate::pieces::{Piece, put_pieces};
use crate::report_fault::ReportFault;
use bolt_format::{Sink, SinkFault};
use bolt_tree::Item;
use std::alloc::Global;

/// Writes lines of members in a form. Only `Json` needs memory, which is kept from line to line.
#[derive(Drop)]
pub struct MemberLines {
    writer: LineWriter,
}

/// What writes a line in each form.
#[derive(Drop)]
enum LineWriter {
    Hex,
    Json(JsonText),
    JsonHex,
}

impl MemberLines {
    /// Lines in this form.
    pub fn new(alloc: Global, form: ListForm) -> MemberLines
        ensures { lines_form result ≡ form }
    {
        let writer = match form {
            ListForm::Hex => LineWriter::Hex,
            ListForm::Json => LineWriter::Json(JsonText::new(alloc)),
            ListForm::JsonHex => LineWriter::JsonHex,
        };
        MemberLines { writer }
    }

    /// Writes the line of a member: its path, and then its value or the sequence of its bucket
    /// (docs/COMMANDS.md, "list"). The form stays.
    ///
    /// # Errors
    ///
    /// As `ReportFault` says. Memory may run out in the form `Json` alone. After an error further lines
    /// can be written.
    pub fn put<S: Sink>(
        &mut self,
        path: &[&[u8]],
        item: &Item<'_>,
        sink: &mut S,
    ) -> Result<(), ReportFault>
        ensures form { lines_form self.new ≡ lines_form self.old }
        ensures written { Wrote S.Sink sink.old sink.new
            (list_line (lines_form self.old) (path_of path.now, item_view item.now))
            (report_ending result) }
        ensures fault { IfErr result (FailsByWritingIf (lines_form self.old ≡ ListForm.Json)) }
    {
        let written = match &mut self.writer {
            LineWriter::Hex => put_member(path, item, sink),
            LineWriter::Json(json) => put(json.line(path, item)?, sink),
            LineWriter::JsonHex => put_hex_json(path, item, sink),
        };
        Ok(written?)
    }
}

/// Writes the line of a member at a path as JSON, with its parts and its value in hexadecimal.
#[tactic(auto, unfolding(crate::specs::JsonLines::json_line))]
fn put_hex_json<'a, S: Sink>(
    path: &'a [&'a [u8]],
    item: &Item<'a>,
    sink: &mut S,
) -> Result<(), SinkFault>
    ensures { Wrote S.Sink sink.old sink.new
        (json_line digits_json (path_of path.now, item_view item.now)) (ending result) }
{
    let path = Piece::JoinedPath(path, PathForm::Strings);
    let begin = Piece::Bytes(b"{\"path\":[");
    match item {
        Item::Value(value) => put_pieces(
            &[
                begin,
                path,
                Piece::Bytes(b"],\"value\":"),
                Piece::HexString(value),
                Piece::Bytes(b"}\n"),
            ],
            sink,
        ),
        Item::Bucket { sequence } => put_pieces(
            &[
                begin,
                path,
                Piece::Field(b"],\"bucket\":", *sequence),
                Piece::Bytes(b"}\n"),
            ],
            sink,
        ),
    }
}

/// Writes the line of a member at a path.
#[tactic(auto, unfolding(crate::specs::ListLines::member_line, crate::specs::ListLines::item_end, crate::specs::ListLines::value_end))]
fn put_member<'a, S: Sink>(
    path: &'a [&'a [u8]],
    item: &Item<'a>,
    sink: &mut S,
) -> Result<(), SinkFault>
    ensures { Wrote S.Sink sink.old sink.new (member_line (path_of path.now, item_view item.now))
        (ending result) }
{
    match item {
        Item::Value(value) => put_pieces(
            &[
                Piece::JoinedPath(path, PathForm::Slashes),
                Piece::Bytes(b" = "),
                Piece::Hex(value),
                Piece::Bytes(b"\n"),
            ],
            sink,
        ),
        Item::Bucket { sequence } => put_pieces(
            &[
                Piece::JoinedPath(path, PathForm::Slashes),
                Piece::Field(b" bucket ", *sequence),
                Piece::Bytes(b"\n"),
            ],
            sink,
        ),
    }
}
