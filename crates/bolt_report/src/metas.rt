//! A meta as a text, and a slot without one.
ghost use Rattle.std.specs.Prelude.{◌≡◌, ◌++◌, codes};
ghost use Rattle.bolt_format.specs.{Endings.ending, Wrote.Wrote};
ghost use Rattle.bolt_report.specs.FigureForms.{named_line, number_or};
ghost use Rattle.bolt_report.specs.MetaLines.{freelist_of, info_text, meta_sentence, slot_fault_text, slot_number};
ghost use Rattle.bolt_text.specs.{Lines.line, Pieces.piece_text};

use crate::fault_lines::meta_fault_words;
use bolt_format::{Meta, MetaFault, NO_FREELIST, Sink, SinkFault, Slot};
use bolt_text::{FigureForm, Piece, put_pieces};

/// Writes the seven figures of a meta and its slot in a form (docs/COMMANDS.md, "info").
///
/// # Errors
///
/// `SinkFault` if the sink failed. It has then accepted a prefix of the text.
pub fn info<S: Sink>(
    slot: Slot,
    meta: &Meta,
    form: FigureForm,
    sink: &mut S,
) -> Result<(), SinkFault>
    ensures { Wrote S.Sink sink.old sink.new (info_text form slot meta.now) (ending result) }
{
    match form {
        FigureForm::Lines => put_meta_lines(slot, meta, sink),
        FigureForm::Json => put_meta_json(slot, meta, sink),
    }
}

#[tactic(auto, unfolding(crate::specs::MetaLines::info_text))]
fn put_meta_lines<S: Sink>(slot: Slot, meta: &Meta, sink: &mut S) -> Result<(), SinkFault>
    ensures { Wrote S.Sink sink.old sink.new (info_text FigureForm.Lines slot meta.now)
        (ending result) }
{
    put_pieces(
        &[
            Piece::Figure(b"page size", u64::from(meta.page_size)),
            Piece::Figure(b"meta", slot_number(slot)),
            Piece::Figure(b"txid", meta.txid),
            Piece::Figure(b"root", meta.root),
            Piece::Figure(b"sequence", meta.root_sequence),
            line_or(b"freelist", b"freelist none\n", freelist_of(meta.freelist)),
            Piece::Figure(b"high water", meta.high_water),
        ],
        sink,
    )
}

fn put_meta_json<S: Sink>(slot: Slot, meta: &Meta, sink: &mut S) -> Result<(), SinkFault>
    ensures { Wrote S.Sink sink.old sink.new (info_text FigureForm.Json slot meta.now)
        (ending result) }
{
    put_pieces(
        &[
            Piece::Field(b"{\"page_size\":", u64::from(meta.page_size)),
            Piece::Field(b",\"meta\":", slot_number(slot)),
            Piece::Field(b",\"txid\":", meta.txid),
            Piece::Field(b",\"root\":", meta.root),
            Piece::Field(b",\"sequence\":", meta.root_sequence),
            Piece::Bytes(b",\"freelist\":"),
            number_or(freelist_of(meta.freelist), b"null"),
            Piece::Field(b",\"high_water\":", meta.high_water),
            Piece::Bytes(b"}\n"),
        ],
        sink,
    )
}

/// Writes the line of a slot that holds no valid meta: its number and its fault.
///
/// # Errors
///
/// `SinkFault` if the sink failed. It has then accepted a prefix of the text.
pub fn put_slot_fault<S: Sink>(slot: Slot, fault: MetaFault, sink: &mut S) -> Result<(), SinkFault>
    ensures { Wrote S.Sink sink.old sink.new (slot_fault_text slot fault) (ending result) }
{
    put_of_meta(slot, meta_fault_words(fault), sink)
}

/// Writes the line of the meta in a slot, with these words.
pub(crate) fn put_of_meta<S: Sink>(slot: Slot, words: &[u8], sink: &mut S) -> Result<(), SinkFault>
    ensures { Wrote S.Sink sink.old sink.new (line (meta_sentence slot words.now))
        (ending result) }
{
    put_pieces(
        &[
            Piece::Field(b"meta ", slot_number(slot)),
            Piece::Bytes(b": "),
            Piece::Bytes(words),
            Piece::Bytes(b"\n"),
        ],
        sink,
    )
}

pub(crate) fn slot_number(slot: Slot) -> u64
    ensures { result ≡ slot_number slot }
{
    match slot {
        Slot::Zero => 0,
        Slot::One => 1,
    }
}

/// The number of the freelist's page, if there is one.
fn freelist_of(id: u64) -> Option<u64>
    ensures { result ≡ freelist_of id }
{
    if id == NO_FREELIST { None } else { Some(id) }
}

/// The line of a figure that may have no number; `none` is its line then.
pub(crate) fn line_or(name: &'static [u8], none: &'static [u8], n: Option<u64>) -> Piece<'static>
    requires { none.now ≡ name.now ++ codes " none\n" }
    ensures { piece_text result ≡ named_line name.now n }
{
    match n {
        Some(n) => Piece::Figure(name, n),
        None => Piece::Bytes(none),
    }
}

/// A number, if there is one, or else this text.
pub(crate) fn number_or(n: Option<u64>, none: &'static [u8]) -> Piece<'static>
    ensures { piece_text result ≡ number_or none.now n }
{
    match n {
        Some(n) => Piece::Number(n),
        None => Piece::Bytes(none),
    }
}
