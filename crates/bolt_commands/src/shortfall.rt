//! What the output of a recovery may lack.
ghost use Rattle.std.specs.Prelude.{◌≡◌};
ghost use Rattle.bolt_format.specs.{Endings.ending, Wrote.Wrote};
ghost use Rattle.bolt_recover.specs.ShownLosses.{lost_view};
ghost use Rattle.bolt_commands.specs.Shortfalls.{lost_pages_text, shortfall, shortfall_text};

use crate::other_meta::OtherMeta;
use bolt_format::{Sink, SinkFault};
use bolt_recover::Lost;
use bolt_report::{lost_count, put_slot_fault};
use bolt_text::{Piece, put_pieces};

/// What the output of a recovery lacks, or may lack (docs/RECOVERY.md, "The other meta"): what is on lost
/// pages, or the newest state.
#[derive(Clone, Copy)]
pub struct Shortfall {
    /// The number of lost pages.
    pub pages: u64,
    /// The meta in the slot that isn't in use, if it is refused: the newest state may be lost with it.
    pub other: Option<OtherMeta>,
}

impl Shortfall {
    /// What an output lacks if this is lost of the file, and if this is wrong with its other meta:
    /// nothing, if nothing is lost and nothing is wrong.
    pub(crate) fn find(lost: Lost<'_>, other: Option<OtherMeta>) -> Option<Shortfall>
        ensures { result ≡ shortfall (lost_view lost.entry) other }
    {
        let pages = lost_count(lost);
        if pages == 0 && other.is_none() {
            None
        } else {
            Some(Shortfall { pages, other })
        }
    }
}

/// Writes the words for it, and the end of the line.
#[tactic(auto, using(bolt_format::proofs::Exports::wrote))]
pub(crate) fn put_shortfall<E: Sink>(shortfall: Shortfall, err: &mut E) -> Result<(), SinkFault>
    ensures { Wrote E.Sink err.old err.new (shortfall_text shortfall) (ending result) }
{
    match shortfall.other {
        None => put_lost_pages(shortfall.pages, b"\n", err),
        Some(other) if shortfall.pages == 0 => put_slot_fault(other.slot, other.fault, err),
        Some(other) => {
            put_lost_pages(shortfall.pages, b"; ", err)?;
            put_slot_fault(other.slot, other.fault, err)
        }
    }
}

/// Writes how many pages are lost, and this text after that.
#[tactic(auto, using(bolt_format::proofs::Exports::wrote))]
fn put_lost_pages<E: Sink>(pages: u64, end: &[u8], err: &mut E) -> Result<(), SinkFault>
    ensures { Wrote E.Sink err.old err.new (lost_pages_text pages end.now) (ending result) }
{
    put_pieces(
        &[Piece::Field(b"pages lost: ", pages), Piece::Bytes(end)],
        err,
    )
}
