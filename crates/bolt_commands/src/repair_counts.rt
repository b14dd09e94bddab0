//! What is counted of a repair: which revisions the copy may lack, and how many are put back.
ghost use Rattle.std.specs.Prelude.{Some};
ghost use Rattle.bolt_format.specs.{Endings.ending, Wrote.Wrote};
ghost use Rattle.bolt_commands.specs.{Private.Reports.counts_text, RepairAnswers.bound_line, RepairAnswers.counts_line};

use bolt_format::{Sink, SinkFault};
use bolt_repair::Bound;
use bolt_text::{Piece, put, put_pieces};

/// What is counted of a repair.
#[derive(Clone, Copy)]
pub(crate) struct RepairCounts {
    /// Which revisions the copy may lack.
    pub bound: Bound,
    /// The number of revisions that are put back.
    pub back: u64,
    /// The number of those that stay out.
    pub left_out: u64,
}

/// Writes what is counted of a repair, if the copy is one of a repair.
pub(crate) fn put_if_repaired<O: Sink>(
    counts: Option<RepairCounts>,
    out: &mut O,
) -> Result<(), SinkFault>
    ensures { Wrote O.Sink out.old out.new (counts_text counts) (ending result) }
{
    match counts {
        Some(counts) => put_repair_counts(counts, out),
        None => Ok(()),
    }
}

#[tactic(auto, using(bolt_format::proofs::Exports::wrote))]
fn put_repair_counts<O: Sink>(counts: RepairCounts, out: &mut O) -> Result<(), SinkFault>
    ensures { Wrote O.Sink out.old out.new (counts_text (Some counts)) (ending result) }
{
    put_bound(counts.bound, out)?;
    put_back(counts.back, counts.left_out, out)
}

/// Writes which revisions the copy may lack.
fn put_bound<O: Sink>(bound: Bound, out: &mut O) -> Result<(), SinkFault>
    ensures { Wrote O.Sink out.old out.new (bound_line bound) (ending result) }
{
    match bound {
        Bound::Nothing => Ok(()),
        Bound::UpTo(main) => put_pieces(
            &[
                Piece::Field(b"revisions up to ", main),
                Piece::Bytes(b" may be missing\n"),
            ],
            out,
        ),
        Bound::Any => put(b"any revision may be missing\n", out),
    }
}

/// Writes how many revisions are put back, and how many stay out.
#[tactic(auto, using(bolt_format::proofs::Exports::wrote))]
fn put_back<O: Sink>(back: u64, left_out: u64, out: &mut O) -> Result<(), SinkFault>
    ensures { Wrote O.Sink out.old out.new (counts_line back left_out) (ending result) }
{
    put_pieces(
        &[
            Piece::Number(back),
            Piece::Field(b" revisions put back, ", left_out),
            Piece::Bytes(b" left out\n"),
        ],
        out,
    )
}
