//! The lines of gaps, and those of findings with the gaps after them.
ghost use Rattle.std.specs.Prelude.{◌≡◌, ◌≤◌, ◌++◌, codes, decimal, map};
ghost use Rattle.bolt_format.specs.{Endings.ending, Wrote.Wrote};
ghost use Rattle.bolt_recover.specs.PageGaps.{page_gap_view};
ghost use Rattle.bolt_report.specs.GapLines.{findings_text, gap_line, gaps_text};
ghost use Rattle.bolt_text.specs.{Lines.line, NamedPaths.named_key};

use crate::fault_lines::{put_each_finding, put_error_count};
use bolt_check::Finding;
use bolt_format::{Gap, Sink, SinkFault};
use bolt_recover::PageGap;
use bolt_text::{Piece, put_pieces};

/// Writes the line of each gap.
#[tactic(auto, using(bolt_text::proofs::Exports::elements))]
pub(crate) fn put_gaps<S: Sink>(gaps: &[PageGap<'_>], sink: &mut S) -> Result<(), SinkFault>
    ensures { Wrote S.Sink sink.old sink.new (gaps_text (map page_gap_view gaps.now))
        (ending result) }
{
    for gap in gaps {
        put_gap(gap, sink)?;
    }
    Ok(())
}

fn put_gap<S: Sink>(found: &PageGap<'_>, sink: &mut S) -> Result<(), SinkFault>
    ensures { Wrote S.Sink sink.old sink.new (gap_line (page_gap_view found.now)) (ending result) }
{
    match found.gap {
        Gap::Before(key) => put_gap_beside(found.page, b": gap before ", key, sink),
        Gap::After(key) => put_gap_beside(found.page, b": gap after ", key, sink),
    }
}

/// Writes the line of a gap on a page: on which side of the element with this key it is.
fn put_gap_beside<'a, S: Sink>(
    page: u64,
    side: &'a [u8],
    key: &'a [u8],
    sink: &mut S,
) -> Result<(), SinkFault>
    ensures { Wrote S.Sink sink.old sink.new
        (codes "page " ++ (decimal page ++ (side.now ++ line (named_key key.now)))) (ending result) }
{
    put_pieces(
        &[
            Piece::Field(b"page ", page),
            Piece::Bytes(side),
            Piece::NamedKey(key),
            Piece::Bytes(b"\n"),
        ],
        sink,
    )
}

/// Writes the line of each finding and of each gap, and then the line with the number of errors, such
/// as `2 errors found`. The lines of `earlier` errors were written before, two at most.
///
/// # Errors
///
/// `SinkFault` if the sink failed. It has then accepted a prefix of the text.
#[tactic(auto, using(bolt_format::proofs::Exports::wrote))]
pub fn put_findings<S: Sink>(
    findings: &[Finding],
    gaps: &[PageGap<'_>],
    earlier: u64,
    sink: &mut S,
) -> Result<(), SinkFault>
    requires { earlier ≤ 2 }
    ensures { Wrote S.Sink sink.old sink.new
        (findings_text earlier findings.now (map page_gap_view gaps.now)) (ending result) }
{
    put_each_finding(findings, sink)?;
    put_gaps(gaps, sink)?;
    put_error_count(earlier + findings.len() as u64 + gaps.len() as u64, sink)
}
