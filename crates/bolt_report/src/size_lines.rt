//! The sizes of the buckets in a bucket as a text.
ghost use Rattle.std.specs.Prelude.{◌≡◌, ◌++◌, IfErr, true};
ghost use Rattle.bolt_format.specs.{Endings.ending, Wrote.Wrote};
ghost use Rattle.bolt_stats.specs.StatsOf.{AreStats};
ghost use Rattle.bolt_text.specs.{Forms.value_text, Forms.is_json, Forms.json_in, Forms.json_text, ReportEndings.HaltsShort};
ghost use Rattle.bolt_text.specs.{ReportEndings.FailsByWriting, ReportEndings.report_ending};
ghost use Rattle.bolt_report.specs.SizeLines.{bytes_allocated, bytes_used, size_columns, size_text, sizes_text, size_json, size_members, ForSized};
ghost use Rattle.bolt_text.specs.Lines.{line};

use bolt_format::{Sink, SinkFault};
use bolt_stats::{Stats, stats};
use bolt_text::{Form, ItemWriter, Piece, ReportFault, put, put_pieces};
use bolt_tree::Bucket;
use std::alloc::Global;

/// Writes the sizes of those entries of a bucket that are buckets, a line for each, in byte order
/// (docs/COMMANDS.md, "buckets"): the number of keys, the bytes used, the bytes allocated,
/// and its name in a form, or all of it as an object if the form is JSON. The figures are those of
/// the bucket with all buckets in it. Inline buckets count as allocated what they use. A sum above
/// 2^64 - 1 saturates there.
///
/// # Errors
///
/// As `ReportFault` says. Memory may run out for the figures of a bucket or for a name in the form
/// `Json`, and then the sink hasn't accepted all of the text.
pub fn put_sizes<S: Sink>(
    alloc: Global,
    bucket: &Bucket<'_>,
    form: Form,
    sink: &mut S,
) -> Result<(), ReportFault>
    ensures written { ForSized bucket.now (λ sized.
        Wrote S.Sink sink.old sink.new (sizes_text form sized) (report_ending result)) }
    ensures short { ForSized bucket.now (λ sized.
        HaltsShort S.Sink sink.old sink.new (sizes_text form sized) (report_ending result)) }
    ensures fault { IfErr result FailsByWriting }
{
    let mut cursor = bucket.cursor();
    let mut items = ItemWriter::new(alloc, form);
    'rest: while let Some(entry) = cursor.next() {
        if let Some(inner) = bucket.bucket_at(&cursor) {
            put_bucket_size(alloc, &inner, entry.key, &mut items, sink)?;
        }
    }
    Ok(())
}

/// Writes the line of a bucket with this name.
fn put_bucket_size<S: Sink>(
    alloc: Global,
    bucket: &Bucket<'_>,
    name: &[u8],
    items: &mut ItemWriter,
    sink: &mut S,
) -> Result<(), ReportFault>
    ensures form { items.new.form ≡ items.old.form }
    ensures written { (own : Stats) → AreStats bucket.now own
        → Wrote S.Sink sink.old sink.new (size_text items.old.form own name.now)
        (report_ending result) }
    ensures short { (own : Stats) → AreStats bucket.now own
        → HaltsShort S.Sink sink.old sink.new (size_text items.old.form own name.now)
        (report_ending result) }
    ensures fault { IfErr result FailsByWriting }
{
    let stats = stats(alloc, bucket)?;
    put_size(&stats, name, items, sink)
}

/// Writes the line of the bucket with these figures and this name.
fn put_size<S: Sink>(
    stats: &Stats,
    name: &[u8],
    items: &mut ItemWriter,
    sink: &mut S,
) -> Result<(), ReportFault>
    ensures form { items.new.form ≡ items.old.form }
    ensures written { Wrote S.Sink sink.old sink.new (size_text items.old.form stats.now name.now)
        (report_ending result) }
    ensures short { HaltsShort S.Sink sink.old sink.new (size_text items.old.form stats.now name.now)
        (report_ending result) }
    ensures fault { IfErr result FailsByWriting }
{
    if items.form.is_json() {
        put_object(stats, name, items, sink)
    } else {
        put_size_row(stats, name, items, sink)
    }
}

/// Writes the figures and the name with spaces between them.
#[tactic(auto, using(bolt_text::proofs::Exports::reports, bolt_text::proofs::Exports::shorts))]
fn put_size_row<S: Sink>(
    stats: &Stats,
    name: &[u8],
    items: &mut ItemWriter,
    sink: &mut S,
) -> Result<(), ReportFault>
    ensures form { items.new.form ≡ items.old.form }
    ensures written { Wrote S.Sink sink.old sink.new
        (size_columns stats.now ++ value_text items.old.form name.now) (report_ending result) }
    ensures short { HaltsShort S.Sink sink.old sink.new
        (size_columns stats.now ++ value_text items.old.form name.now) (report_ending result) }
    ensures fault { IfErr result FailsByWriting }
{
    put_columns(stats, sink)?;
    items.put_line(name, sink)
}

/// Writes the number of keys, the bytes used and the bytes allocated, each followed by a space.
#[tactic(auto, unfolding(crate::specs::SizeLines::size_columns))]
fn put_columns<S: Sink>(stats: &Stats, sink: &mut S) -> Result<(), SinkFault>
    ensures { Wrote S.Sink sink.old sink.new (size_columns stats.now) (ending result) }
{
    put_pieces(
        &[
            Piece::Number(stats.keys),
            Piece::Field(b" ", bytes_used(stats)),
            Piece::Field(b" ", bytes_allocated(stats)),
            Piece::Bytes(b" "),
        ],
        sink,
    )
}

/// The bytes used of pages and of inline buckets.
fn bytes_used(stats: &Stats) -> u64
    ensures { result ≡ bytes_used stats.now }
{
    stats
        .branch_used
        .saturating_add(stats.leaf_used)
        .saturating_add(stats.inline_used)
}

/// The bytes allocated to pages and inline buckets.
fn bytes_allocated(stats: &Stats) -> u64
    ensures { result ≡ bytes_allocated stats.now }
{
    stats
        .branch_allocated
        .saturating_add(stats.leaf_allocated)
        .saturating_add(stats.inline_used)
}

/// Writes a line with the sizes of the bucket with these figures, and with its name, which is JSON, as
/// an object.
fn put_object<S: Sink>(
    stats: &Stats,
    name: &[u8],
    items: &mut ItemWriter,
    sink: &mut S,
) -> Result<(), ReportFault>
    requires { is_json items.old.form ≡ true }
    ensures form { items.new.form ≡ items.old.form }
    ensures written { Wrote S.Sink sink.old sink.new
        (line (json_text (size_json stats.now (json_in items.old.form name.now))))
        (report_ending result) }
    ensures short { HaltsShort S.Sink sink.old sink.new
        (line (json_text (size_json stats.now (json_in items.old.form name.now))))
        (report_ending result) }
    ensures fault { IfErr result FailsByWriting }
{
    put_members(stats, sink)?;
    items.put(name, sink)?;
    put(b"}\n", sink)?;
    Ok(())
}

/// Writes the beginning of the object, up to the name.
fn put_members<S: Sink>(stats: &Stats, sink: &mut S) -> Result<(), SinkFault>
    ensures { Wrote S.Sink sink.old sink.new (size_members stats.now) (ending result) }
{
    put_pieces(
        &[
            Piece::Field(b"{\"keys\":", stats.keys),
            Piece::Field(b",\"used\":", bytes_used(stats)),
            Piece::Field(b",\"allocated\":", bytes_allocated(stats)),
            Piece::Bytes(b",\"name\":"),
        ],
        sink,
    )
}
