//! The pieces that a page is written in: bytes, and zeros.
ghost use Rattle.std.specs.Prelude.{replicate};
ghost use Rattle.bolt_bulk.specs.Private.{WritesText};

use bolt_format::{Sink, SinkFault};

/// A block of zeros.
static ZEROS: [u8; 4096] = [0; 4096];

/// Writes bytes in one piece. If there are none, the sink isn't called, so a call that fails leaves
/// something out.
pub(crate) fn put_unless_empty<S: Sink>(bytes: &[u8], sink: &mut S) -> Result<(), SinkFault>
    ensures { WritesText S.Sink sink.old sink.new bytes.now result }
{
    if bytes.is_empty() {
        return Ok(());
    }
    sink.put(bytes)
}

/// Writes `count` zeros.
pub(crate) fn put_zeros<S: Sink>(count: usize, sink: &mut S) -> Result<(), SinkFault>
    ensures { WritesText S.Sink sink.old sink.new (replicate count 0) result }
{
    let mut left = count;
    while left > 0 {
        let size = left.min(ZEROS.len());
        put_unless_empty(&ZEROS[..size], sink)?;
        left -= size;
    }
    Ok(())
}
