//! Bytes that are gathered in a buffer of fixed length before they are written.
ghost use Rattle.std.specs.Prelude.{◌≡◌, [], OnOk};
ghost use Rattle.hex.specs.Hex.{encode_lower};
ghost use Rattle.bolt_format.specs.{Endings.ending, Wrote.Wrote};
ghost use Rattle.bolt_text.specs.{Gathers.Gathers, Pieces.hex_string};

use crate::hexadecimal::{few_digits, put_hex};
use arrayvec::ArrayVec;
use bolt_format::{Sink, SinkFault};

/// The number of bytes that are gathered.
const GATHERED_LEN: usize = 512;

/// The number of bytes up to which hexadecimal is gathered.
const SHORT_LEN: usize = 64;

/// Bytes that are not yet written.
pub(crate) type Gathered = ArrayVec<u8, GATHERED_LEN>;

/// Adds a JSON string of bytes in hexadecimal. Digits need no escapes.
pub(crate) fn put_hex_string<S: Sink>(
    bytes: &[u8],
    gathered: &mut Gathered,
    sink: &mut S,
) -> Result<(), SinkFault>
    ensures { Gathers S.Sink sink.old sink.new gathered.old.items gathered.new.items
        (hex_string bytes.now) (ending result) }
{
    put_bytes(b"\"", gathered, sink)?;
    put_hex_digits(bytes, gathered, sink)?;
    put_bytes(b"\"", gathered, sink)
}

/// Adds bytes in hexadecimal; long ones are written part by part, and not gathered.
pub(crate) fn put_hex_digits<S: Sink>(
    bytes: &[u8],
    gathered: &mut Gathered,
    sink: &mut S,
) -> Result<(), SinkFault>
    ensures { Gathers S.Sink sink.old sink.new gathered.old.items gathered.new.items
        (encode_lower bytes.now) (ending result) }
{
    if bytes.len() <= SHORT_LEN {
        let mut digits = [0; 2 * SHORT_LEN];
        put_bytes(few_digits(bytes, &mut digits), gathered, sink)
    } else {
        put_gathered(gathered, sink)?;
        put_hex(bytes, sink)
    }
}

/// Adds bytes to what is gathered, or writes what is gathered first.
#[inline(always)]
pub(crate) fn put_bytes<S: Sink>(
    bytes: &[u8],
    gathered: &mut Gathered,
    sink: &mut S,
) -> Result<(), SinkFault>
    ensures { Gathers S.Sink sink.old sink.new gathered.old.items gathered.new.items bytes.now
        (ending result) }
{
    match gathered.try_extend_from_slice(bytes) {
        Ok(()) => Ok(()),
        Err(_) => put_after_gathered(bytes, gathered, sink),
    }
}

fn put_after_gathered<S: Sink>(
    bytes: &[u8],
    gathered: &mut Gathered,
    sink: &mut S,
) -> Result<(), SinkFault>
    ensures { Gathers S.Sink sink.old sink.new gathered.old.items gathered.new.items bytes.now
        (ending result) }
{
    put_gathered(gathered, sink)?;
    match gathered.try_extend_from_slice(bytes) {
        Ok(()) => Ok(()),
        Err(_) => put(bytes, sink),
    }
}

fn put_gathered<S: Sink>(gathered: &mut Gathered, sink: &mut S) -> Result<(), SinkFault>
    ensures wrote { Wrote S.Sink sink.old sink.new gathered.old.items (ending result) }
    ensures empty { OnOk result (gathered.new.items ≡ []) }
{
    put(gathered.as_slice(), sink)?;
    gathered.clear();
    Ok(())
}

/// Writes bytes in one piece.
pub fn put<S: Sink>(bytes: &[u8], sink: &mut S) -> Result<(), SinkFault>
    ensures { Wrote S.Sink sink.old sink.new bytes.now (ending result) }
{
    sink.put(bytes)
}
