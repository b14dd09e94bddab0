//! Keys and values in a form.
ghost use Rattle.std.specs.Prelude.{◌≡◌, IfErr, if◌then◌else◌};
ghost use Rattle.hex.specs.Hex.{encode_lower};
ghost use Rattle.bolt_format.specs.{Endings.ending, Wrote.Wrote};
ghost use Rattle.bolt_text.specs.Forms.{digits_json, is_text, item_text, json_text, mixed_text, value_text};
ghost use Rattle.bolt_text.specs.{Pieces.piece_text, ReportEndings.HaltsShort, ReportEndings.FailsByWritingJson, ReportEndings.report_ending};

use crate::forms::Form;
use crate::gathered::put;
use crate::hexadecimal::put_hex;
use crate::json_text::JsonText;
use crate::pieces::{Piece, put_pieces};
use crate::readable::can_be_printed;
use crate::report_fault::ReportFault;
use bolt_format::{Sink, SinkFault};
use std::alloc::Global;
use std::str;

/// Writes keys and values in a form. Only `Json` needs memory, which is kept from item to item.
#[derive(Drop)]
pub struct ItemWriter {
    /// The form.
    pub form: Form,
    json: JsonText,
}

impl ItemWriter {
    /// What writes in this form.
    pub fn new(alloc: Global, form: Form) -> ItemWriter
        ensures { result.form ≡ form }
    {
        ItemWriter {
            form,
            json: JsonText::new(alloc),
        }
    }

    /// Writes a key or a value, and a line feed.
    pub fn put_line<S: Sink>(&mut self, bytes: &[u8], sink: &mut S) -> Result<(), ReportFault>
        ensures form { self.new.form ≡ self.old.form }
        ensures written { Wrote S.Sink sink.old sink.new (value_text self.old.form bytes.now)
            (report_ending result) }
        ensures short { HaltsShort S.Sink sink.old sink.new (value_text self.old.form bytes.now)
            (report_ending result) }
        ensures fault { IfErr result (FailsByWritingJson self.old.form) }
    {
        self.put(bytes, sink)?;
        put(b"\n", sink)?;
        Ok(())
    }

    /// Writes a key or a value.
    pub fn put<S: Sink>(&mut self, bytes: &[u8], sink: &mut S) -> Result<(), ReportFault>
        ensures form { self.new.form ≡ self.old.form }
        ensures written { Wrote S.Sink sink.old sink.new (item_text self.old.form bytes.now)
            (report_ending result) }
        ensures short { HaltsShort S.Sink sink.old sink.new (item_text self.old.form bytes.now)
            (report_ending result) }
        ensures fault { IfErr result (FailsByWritingJson self.old.form) }
    {
        let written = match self.form {
            Form::Printable => put_or_hex(bytes, can_be_printed(bytes), sink),
            Form::Hex => put_hex(bytes, sink),
            Form::Bytes => put(bytes, sink),
            Form::Text => put_or_hex(bytes, is_text(bytes), sink),
            Form::Mixed => put_mixed(bytes, sink),
            Form::Json => put(self.json.item(bytes)?, sink),
            Form::JsonHex => put_json_digits(bytes, sink),
        };
        Ok(written?)
    }
}

/// Writes bytes as they are, or in hexadecimal.
fn put_or_hex<S: Sink>(bytes: &[u8], as_it_is: bool, sink: &mut S) -> Result<(), SinkFault>
    ensures { Wrote S.Sink sink.old sink.new
        (if as_it_is then bytes.now else encode_lower bytes.now) (ending result) }
{
    if as_it_is {
        put(bytes, sink)
    } else {
        put_hex(bytes, sink)
    }
}

/// Writes bytes as they are, or in hexadecimal after `0x`.
fn put_mixed<S: Sink>(bytes: &[u8], sink: &mut S) -> Result<(), SinkFault>
    ensures { Wrote S.Sink sink.old sink.new (mixed_text bytes.now) (ending result) }
{
    if can_be_printed(bytes) && !bytes.starts_with(b"0x") {
        put(bytes, sink)
    } else {
        put_pieces(&[Piece::Bytes(b"0x"), Piece::Hex(bytes)], sink)
    }
}

/// Writes a JSON string of bytes in hexadecimal.
#[tactic(auto, unfolding(json::specs::Print::print_from))]
fn put_json_digits<S: Sink>(bytes: &[u8], sink: &mut S) -> Result<(), SinkFault>
    ensures { Wrote S.Sink sink.old sink.new (json_text (digits_json bytes.now)) (ending result) }
{
    put_pieces(&[Piece::HexString(bytes)], sink)
}

/// A name as the form `printable` writes it.
pub fn printable(name: &[u8]) -> Piece<'_>
    ensures { piece_text result ≡ item_text Form.Printable name.now }
{
    if can_be_printed(name) {
        Piece::Bytes(name)
    } else {
        Piece::Hex(name)
    }
}

/// Whether the bytes are UTF-8 without control characters.
fn is_text(bytes: &[u8]) -> bool
    ensures { result ≡ is_text bytes.now }
{
    match str::from_utf8(bytes) {
        Ok(text) => text.chars().all(|c| !c.is_control()),
        Err(_) => false,
    }
}

/// Writes a key or a value in a form, and a line feed (docs/COMMANDS.md, "What is printed").
///
/// # Errors
///
/// As `ReportFault` says. Memory may run out in the form `Json` alone, and then the sink hasn't accepted
/// all of the text.
pub fn value<S: Sink>(
    alloc: Global,
    bytes: &[u8],
    form: Form,
    sink: &mut S,
) -> Result<(), ReportFault>
    ensures written { Wrote S.Sink sink.old sink.new (value_text form bytes.now)
        (report_ending result) }
    ensures short { HaltsShort S.Sink sink.old sink.new (value_text form bytes.now)
        (report_ending result) }
    ensures fault { IfErr result (FailsByWritingJson form) }
{
    let mut items = ItemWriter::new(alloc, form);
    items.put_line(bytes, sink)
}

/// Writes a key or a value in a form, as `value` does and with its errors, but no line feed.
pub fn item<S: Sink>(
    alloc: Global,
    bytes: &[u8],
    form: Form,
    sink: &mut S,
) -> Result<(), ReportFault>
    ensures written { Wrote S.Sink sink.old sink.new (item_text form bytes.now)
        (report_ending result) }
    ensures short { HaltsShort S.Sink sink.old sink.new (item_text form bytes.now)
        (report_ending result) }
    ensures fault { IfErr result (FailsByWritingJson form) }
{
    let mut items = ItemWriter::new(alloc, form);
    items.put(bytes, sink)
}
