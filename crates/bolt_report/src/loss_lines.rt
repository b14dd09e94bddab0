//! The lines of what is lost of a damaged file, and of what is found in it though nothing leads to it.
ghost use Rattle.std.specs.Prelude.{◌≡◌, map, ◌≤◌, ◌++◌};
ghost use Rattle.std.specs.List.{All};
ghost use Rattle.bolt_format.specs.{Endings.ending, Wrote.Wrote, TreePages.leaves_on};
ghost use Rattle.bolt_recover.specs.{PageGaps.page_gap_view, ShownLosses.loss_view, ShownLosses.lost_view};
ghost use Rattle.bolt_tree.specs.Paths.{path_of};
ghost use Rattle.bolt_text.specs.Lines.{line};
ghost use Rattle.bolt_report.specs.FaultWords.{count_line};
ghost use Rattle.bolt_report.specs.LossLines.{bounds_line, bucket_words, loss_text, losses_text, lost_count, lost_lines};
ghost use Rattle.bolt_report.specs.FoundLines.{IsFoundLeaf, bucket_count, counted_lost_text, found_line, found_text, found_view, lost_text};

use crate::fault_lines::{put_error_count, put_sentence};
use crate::gap_lines::put_gaps;
use bolt_format::{LeafPage, Sink, SinkFault};
use bolt_recover::{FoundPage, Loss, Lost, PageGap};
use bolt_text::{Piece, put, put_pieces};

/// Writes the line of each loss, or the one that says that everything is lost.
fn put_lost_lines<S: Sink>(lost: Lost<'_>, sink: &mut S) -> Result<(), SinkFault>
    ensures { Wrote S.Sink sink.old sink.new (lost_lines (lost_view lost.entry)) (ending result) }
{
    match lost {
        Lost::Everything(finding) => put_sentence(&finding, b"; lost: everything\n", sink),
        Lost::Parts(losses) => put_losses(losses, sink),
    }
}

/// How many losses there are: one if everything is lost.
pub fn lost_count(lost: Lost<'_>) -> u64
    ensures { result ≡ lost_count (lost_view lost.entry) }
{
    match lost {
        Lost::Everything(_) => 1,
        Lost::Parts(losses) => losses.len() as u64,
    }
}

#[tactic(auto, using(bolt_text::proofs::Exports::elements))]
fn put_losses<S: Sink>(losses: &[Loss<'_>], sink: &mut S) -> Result<(), SinkFault>
    ensures { Wrote S.Sink sink.old sink.new (losses_text (map loss_view losses.now))
        (ending result) }
{
    for loss in losses {
        put_loss(loss, sink)?;
    }
    Ok(())
}

#[tactic(auto, using(bolt_format::proofs::Exports::wrote), unfolding(crate::specs::LossLines::loss_text))]
fn put_loss<S: Sink>(loss: &Loss<'_>, sink: &mut S) -> Result<(), SinkFault>
    ensures { Wrote S.Sink sink.old sink.new (loss_text (loss_view loss.now)) (ending result) }
{
    put_sentence(&loss.finding, b"; lost: ", sink)?;
    put_bucket_words(loss.bucket.as_slice(), sink)?;
    put_bounds(loss.lower, loss.upper, sink)
}

/// Writes which bucket a lost page belongs to.
fn put_bucket_words<S: Sink>(path: &[&[u8]], sink: &mut S) -> Result<(), SinkFault>
    ensures { Wrote S.Sink sink.old sink.new (bucket_words (path_of path.now)) (ending result) }
{
    if path.is_empty() {
        put(b"root bucket", sink)
    } else {
        put_pieces(&[Piece::Bytes(b"bucket "), Piece::NamedPath(path)], sink)
    }
}

/// Writes the bounds of the keys of a lost page, and the end of the line.
fn put_bounds<'a, S: Sink>(
    lower: Option<&'a [u8]>,
    upper: Option<&'a [u8]>,
    sink: &mut S,
) -> Result<(), SinkFault>
    ensures { Wrote S.Sink sink.old sink.new (bounds_line lower.entry upper.entry) (ending result) }
{
    match (lower, upper) {
        (None, _) => put(b"\n", sink),
        (Some(from), None) => put_pieces(
            &[
                Piece::Bytes(b", keys from "),
                Piece::NamedKey(from),
                Piece::Bytes(b"\n"),
            ],
            sink,
        ),
        (Some(from), Some(end)) => put_pieces(
            &[
                Piece::Bytes(b", keys from "),
                Piece::NamedKey(from),
                Piece::Bytes(b" to below "),
                Piece::NamedKey(end),
                Piece::Bytes(b"\n"),
            ],
            sink,
        ),
    }
}

/// Writes the line of each loss, or the one that says that everything is lost, and then the line of
/// each found page.
///
/// # Errors
///
/// `SinkFault` if the sink failed. It has then accepted a prefix of the text.
#[tactic(auto, using(bolt_format::proofs::Exports::wrote))]
pub fn put_lost<S: Sink>(
    lost: Lost<'_>,
    found: &[FoundPage<'_>],
    sink: &mut S,
) -> Result<(), SinkFault>
    requires { All IsFoundLeaf found.now }
    ensures { Wrote S.Sink sink.old sink.new
        (lost_text (lost_view lost.entry) (map found_view found.now)) (ending result) }
{
    put_lost_lines(lost, sink)?;
    put_all_found(found, sink)
}

/// Writes the line of each loss, or the one that says that everything is lost, those of the gaps and of
/// the found pages, and then the line with the number of errors, as `2 errors found`: one for each loss
/// and each gap, and one if everything is lost. The lines of `earlier` errors were written before, two
/// at most.
///
/// # Errors
///
/// `SinkFault` if the sink failed. It has then accepted a prefix of the text.
#[tactic(auto, using(bolt_format::proofs::Exports::wrote))]
pub fn put_counted_lost<S: Sink>(
    lost: Lost<'_>,
    gaps: &[PageGap<'_>],
    found: &[FoundPage<'_>],
    earlier: u64,
    sink: &mut S,
) -> Result<(), SinkFault>
    requires few { earlier ≤ 2 }
    requires leaves { All IsFoundLeaf found.now }
    ensures { Wrote S.Sink sink.old sink.new (counted_lost_text earlier (lost_view lost.entry)
        (map page_gap_view gaps.now) (map found_view found.now)) (ending result) }
{
    put_lost_lines(lost, sink)?;
    put_gaps(gaps, sink)?;
    put_counted_found(found, earlier + lost_count(lost) + gaps.len() as u64, sink)
}

/// Writes the line of each found page, and then the line with the number of errors.
#[tactic(auto, using(bolt_format::proofs::Exports::wrote))]
fn put_counted_found<S: Sink>(
    found: &[FoundPage<'_>],
    errors: u64,
    sink: &mut S,
) -> Result<(), SinkFault>
    requires { All IsFoundLeaf found.now }
    ensures { Wrote S.Sink sink.old sink.new
        (found_text (map found_view found.now) ++ count_line errors) (ending result) }
{
    put_all_found(found, sink)?;
    put_error_count(errors, sink)
}

#[tactic(auto, using(bolt_text::proofs::Exports::elements))]
fn put_all_found<S: Sink>(found: &[FoundPage<'_>], sink: &mut S) -> Result<(), SinkFault>
    requires { All IsFoundLeaf found.now }
    ensures { Wrote S.Sink sink.old sink.new (found_text (map found_view found.now))
        (ending result) }
{
    for page in found {
        put_found(page, sink)?;
    }
    Ok(())
}

fn put_found<S: Sink>(found: &FoundPage<'_>, sink: &mut S) -> Result<(), SinkFault>
    requires { IsFoundLeaf found.now }
    ensures { Wrote S.Sink sink.old sink.new (found_line (found_view found.now)) (ending result) }
{
    let page = &found.page;
    let count = page.count();
    let pieces = [
        Piece::Field(b"page ", found.number),
        Piece::Field(b": nothing leads to it; found: ", u64::from(count)),
        Piece::Bytes(b" entries, "),
        Piece::Number(u64::from(count_buckets(page))),
        Piece::Bytes(b" of them buckets, keys from "),
        Piece::NamedKey(page.element(0).key),
        Piece::Bytes(b" to "),
        Piece::NamedKey(page.element(count - 1).key),
        Piece::Bytes(b"\n"),
    ];
    put_pieces(&pieces, sink)
}

fn count_buckets(page: &LeafPage<'_>) -> u16
    ensures { result ≡ bucket_count (leaves_on page.now) }
{
    let mut count = 0;
    for i in 0..page.count() {
        if page.element(i).is_bucket {
            count += 1;
        }
    }
    count
}
