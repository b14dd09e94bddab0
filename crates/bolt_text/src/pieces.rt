//! Writes a line as a list of pieces, which are gathered before they are written.
ghost use Rattle.std.specs.Prelude.{◌++◌, decimal, false, replicate};
ghost use Rattle.std.specs.Fmt.{digits};
ghost use Rattle.bolt_format.specs.{Endings.ending, Wrote.Wrote};
ghost use Rattle.bolt_text.specs.{Gathers.Gathers, Lines.column, Lines.figure_line};
ghost use Rattle.bolt_text.specs.Pieces.{piece_text, pieces_text};

use crate::gathered::{Gathered, put, put_bytes, put_hex_digits, put_hex_string};
use crate::hexadecimal::{NUMBER_LEN, number_digits};
use crate::path_pieces::{PathForm, put_named_path, put_path};
use bolt_format::{Sink, SinkFault};
use itoa::Buffer;

/// A piece of a text.
#[derive(Clone, Copy)]
pub enum Piece<'a> {
    /// Bytes as they are.
    Bytes(&'a [u8]),
    /// A number in decimal.
    Number(u64),
    /// A number in lower-case hexadecimal, without leading zeros.
    HexNumber(u64),
    /// Bytes in lower-case hexadecimal.
    Hex(&'a [u8]),
    /// Bytes in lower-case hexadecimal as a JSON string.
    HexString(&'a [u8]),
    /// The parts of a path, in a form.
    JoinedPath(&'a [&'a [u8]], PathForm),
    /// The parts of a path in lower-case hexadecimal, joined by slashes, and their text if it can be read.
    NamedPath(&'a [&'a [u8]]),
    /// A key in lower-case hexadecimal, and its text if it can be read.
    NamedKey(&'a [u8]),
    /// A name and a number in decimal.
    Field(&'a [u8], u64),
    /// A line of a name, a space and a number in decimal.
    Figure(&'a [u8], u64),
    /// Bytes, and spaces up to a width.
    Column(&'a [u8], usize),
    /// A number in decimal, and spaces up to a width.
    NumberColumn(u64, usize),
}

/// Writes pieces one after another.
pub fn put_pieces<S: Sink>(pieces: &[Piece<'_>], sink: &mut S) -> Result<(), SinkFault>
    ensures { Wrote S.Sink sink.old sink.new (pieces_text pieces.now) (ending result) }
{
    let mut gathered = Gathered::new();
    for piece in pieces {
        put_piece(piece, &mut gathered, sink)?;
    }
    put(gathered.as_slice(), sink)
}

/// Adds a piece to what is gathered.
fn put_piece<S: Sink>(
    piece: &Piece<'_>,
    gathered: &mut Gathered,
    sink: &mut S,
) -> Result<(), SinkFault>
    ensures { Gathers S.Sink sink.old sink.new gathered.old.items gathered.new.items
        (piece_text piece.now) (ending result) }
{
    match piece {
        Piece::Bytes(bytes) => put_bytes(bytes, gathered, sink),
        Piece::Number(n) => put_number(*n, gathered, sink),
        Piece::HexNumber(n) => put_hex_number(*n, gathered, sink),
        Piece::Hex(bytes) => put_hex_digits(bytes, gathered, sink),
        Piece::HexString(bytes) => put_hex_string(bytes, gathered, sink),
        Piece::JoinedPath(parts, form) => put_path(parts, *form, gathered, sink),
        Piece::NamedPath(parts) => put_named_path(parts, gathered, sink),
        Piece::NamedKey(key) => put_named_path(&[key], gathered, sink),
        Piece::Field(name, n) => put_field(name, *n, gathered, sink),
        Piece::Figure(name, n) => put_figure(name, *n, gathered, sink),
        Piece::Column(text, width) => put_column(text, *width, gathered, sink),
        Piece::NumberColumn(n, width) => put_number_column(*n, *width, gathered, sink),
    }
}

fn put_number<S: Sink>(n: u64, gathered: &mut Gathered, sink: &mut S) -> Result<(), SinkFault>
    ensures { Gathers S.Sink sink.old sink.new gathered.old.items gathered.new.items (decimal n)
        (ending result) }
{
    put_bytes(Buffer::new().format(n).as_bytes(), gathered, sink)
}

fn put_hex_number<S: Sink>(n: u64, gathered: &mut Gathered, sink: &mut S) -> Result<(), SinkFault>
    ensures { Gathers S.Sink sink.old sink.new gathered.old.items gathered.new.items
        (digits 16 false n) (ending result) }
{
    put_bytes(number_digits(n, &mut [0; NUMBER_LEN]), gathered, sink)
}

fn put_field<S: Sink>(
    name: &[u8],
    n: u64,
    gathered: &mut Gathered,
    sink: &mut S,
) -> Result<(), SinkFault>
    ensures { Gathers S.Sink sink.old sink.new gathered.old.items gathered.new.items
        (name.now ++ decimal n) (ending result) }
{
    put_bytes(name, gathered, sink)?;
    put_number(n, gathered, sink)
}

fn put_figure<S: Sink>(
    name: &[u8],
    n: u64,
    gathered: &mut Gathered,
    sink: &mut S,
) -> Result<(), SinkFault>
    ensures { Gathers S.Sink sink.old sink.new gathered.old.items gathered.new.items
        (figure_line name.now n) (ending result) }
{
    put_bytes(name, gathered, sink)?;
    put_bytes(b" ", gathered, sink)?;
    put_number(n, gathered, sink)?;
    put_bytes(b"\n", gathered, sink)
}

fn put_column<S: Sink>(
    text: &[u8],
    width: usize,
    gathered: &mut Gathered,
    sink: &mut S,
) -> Result<(), SinkFault>
    ensures { Gathers S.Sink sink.old sink.new gathered.old.items gathered.new.items
        (column width text.now) (ending result) }
{
    put_bytes(text, gathered, sink)?;
    put_spaces(width.saturating_sub(text.len()), gathered, sink)
}

fn put_number_column<S: Sink>(
    n: u64,
    width: usize,
    gathered: &mut Gathered,
    sink: &mut S,
) -> Result<(), SinkFault>
    ensures { Gathers S.Sink sink.old sink.new gathered.old.items gathered.new.items
        (column width (decimal n)) (ending result) }
{
    put_column(Buffer::new().format(n).as_bytes(), width, gathered, sink)
}

fn put_spaces<S: Sink>(count: usize, gathered: &mut Gathered, sink: &mut S) -> Result<(), SinkFault>
    ensures { Gathers S.Sink sink.old sink.new gathered.old.items gathered.new.items
        (replicate count 0x20) (ending result) }
{
    for _i in 0..count {
        put_bytes(b" ", gathered, sink)?;
    }
    Ok(())
}
