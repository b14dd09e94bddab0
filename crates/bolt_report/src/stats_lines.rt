//! The figures of a bucket as lines or as an object.
ghost use Rattle.bolt_format.specs.{Endings.ending, Wrote.Wrote};
ghost use Rattle.bolt_report.specs.StatsLines.{stats_text};

use bolt_format::{Sink, SinkFault};
use bolt_stats::Stats;
use bolt_text::{FigureForm, Piece, put_pieces};

/// Writes the thirteen figures in a form (docs/COMMANDS.md, "stats").
///
/// # Errors
///
/// `SinkFault` if the sink failed. It has then accepted a prefix of the text.
pub fn stats_text<S: Sink>(stats: &Stats, form: FigureForm, sink: &mut S) -> Result<(), SinkFault>
    ensures { Wrote S.Sink sink.old sink.new (stats_text form stats.now) (ending result) }
{
    match form {
        FigureForm::Lines => put_stats_lines(stats, sink),
        FigureForm::Json => put_stats_json(stats, sink),
    }
}

#[tactic(auto, unfolding(crate::specs::StatsLines::stats_text))]
fn put_stats_lines<S: Sink>(stats: &Stats, sink: &mut S) -> Result<(), SinkFault>
    ensures { Wrote S.Sink sink.old sink.new (stats_text FigureForm.Lines stats.now)
        (ending result) }
{
    put_pieces(
        &[
            Piece::Figure(b"buckets", stats.buckets),
            Piece::Figure(b"inline buckets", stats.inline_buckets),
            Piece::Figure(b"inline used", stats.inline_used),
            Piece::Figure(b"keys", stats.keys),
            Piece::Figure(b"depth", stats.depth),
            Piece::Figure(b"branch pages", stats.branch_pages),
            Piece::Figure(b"branch overflow", stats.branch_overflow),
            Piece::Figure(b"branch allocated", stats.branch_allocated),
            Piece::Figure(b"branch used", stats.branch_used),
            Piece::Figure(b"leaf pages", stats.leaf_pages),
            Piece::Figure(b"leaf overflow", stats.leaf_overflow),
            Piece::Figure(b"leaf allocated", stats.leaf_allocated),
            Piece::Figure(b"leaf used", stats.leaf_used),
        ],
        sink,
    )
}

fn put_stats_json<S: Sink>(stats: &Stats, sink: &mut S) -> Result<(), SinkFault>
    ensures { Wrote S.Sink sink.old sink.new (stats_text FigureForm.Json stats.now)
        (ending result) }
{
    put_pieces(
        &[
            Piece::Field(b"{\"buckets\":", stats.buckets),
            Piece::Field(b",\"inline_buckets\":", stats.inline_buckets),
            Piece::Field(b",\"inline_used\":", stats.inline_used),
            Piece::Field(b",\"keys\":", stats.keys),
            Piece::Field(b",\"depth\":", stats.depth),
            Piece::Field(b",\"branch_pages\":", stats.branch_pages),
            Piece::Field(b",\"branch_overflow\":", stats.branch_overflow),
            Piece::Field(b",\"branch_allocated\":", stats.branch_allocated),
            Piece::Field(b",\"branch_used\":", stats.branch_used),
            Piece::Field(b",\"leaf_pages\":", stats.leaf_pages),
            Piece::Field(b",\"leaf_overflow\":", stats.leaf_overflow),
            Piece::Field(b",\"leaf_allocated\":", stats.leaf_allocated),
            Piece::Field(b",\"leaf_used\":", stats.leaf_used),
            Piece::Bytes(b"}\n"),
        ],
        sink,
    )
}
