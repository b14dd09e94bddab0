//! The keys of a bucket as a text.
ghost use Rattle.std.specs.Prelude.{◌≡◌, IfErr, OnOk};
ghost use Rattle.bolt_format.specs.{Elements.LeafElement, Wrote.Wrote};
ghost use Rattle.bolt_tree.specs.{Entries.entry_view, ShownEntries.shown_entry};
ghost use Rattle.bolt_tree.specs.Cursors.{cursor_bucket, cursor_checked, cursor_opened, cursor_start};
ghost use Rattle.bolt_report.specs.KeyLines.{ForCursor, bucket_name, buckets_text, keys_text};
ghost use Rattle.bolt_tree.specs.EntriesLeft.{ForBucket};
ghost use Rattle.bolt_text.specs.ReportEndings.{FailsByWritingJson, HaltsShort, report_ending};
ghost use Rattle.bolt_report.specs.KeyPrefixes.{OpensPrefix, with_prefix};

use bolt_format::Sink;
use bolt_text::{Form, ItemWriter, ReportFault};
use bolt_tree::{Bucket, Cursor, Entry, Item};
use std::alloc::Global;

/// Writes the keys of all entries of a bucket in a form, a line for each, in byte order.
///
/// # Errors
///
/// As `ReportFault` says. Memory may run out in the form `Json` alone, and then the sink hasn't accepted
/// all of the text.
pub fn keys<S: Sink>(
    alloc: Global,
    bucket: &Bucket<'_>,
    form: Form,
    sink: &mut S,
) -> Result<(), ReportFault>
    ensures written { ForBucket bucket.now (λ entries.
        Wrote S.Sink sink.old sink.new (keys_text form entries) (report_ending result)) }
    ensures short { ForBucket bucket.now (λ entries.
        HaltsShort S.Sink sink.old sink.new (keys_text form entries) (report_ending result)) }
    ensures fault { IfErr result (FailsByWritingJson form) }
{
    put_keys_with_prefix(alloc, &mut bucket.cursor(), &[], form, sink)
}

/// Writes the keys of those entries of a bucket that are buckets. The lines and the errors are as
/// those of `keys`.
pub fn buckets<S: Sink>(
    alloc: Global,
    bucket: &Bucket<'_>,
    form: Form,
    sink: &mut S,
) -> Result<(), ReportFault>
    ensures written { ForBucket bucket.now (λ entries.
        Wrote S.Sink sink.old sink.new (buckets_text form entries) (report_ending result)) }
    ensures short { ForBucket bucket.now (λ entries.
        HaltsShort S.Sink sink.old sink.new (buckets_text form entries) (report_ending result)) }
    ensures fault { IfErr result (FailsByWritingJson form) }
{
    let mut items = ItemWriter::new(alloc, form);
    let mut cursor = bucket.cursor();
    'rest: while let Some(entry) = cursor.next() {
        put_bucket(&entry, &mut items, sink)?;
    }
    Ok(())
}

/// Writes the key of an entry, if it is a bucket.
fn put_bucket<S: Sink>(
    entry: &Entry<'_>,
    items: &mut ItemWriter,
    sink: &mut S,
) -> Result<(), ReportFault>
    ensures form { items.new.form ≡ items.old.form }
    ensures written { (e : LeafElement) → shown_entry entry.now ≡ entry_view e
        → Wrote S.Sink sink.old sink.new (bucket_name items.old.form e) (report_ending result) }
    ensures short { (e : LeafElement) → shown_entry entry.now ≡ entry_view e
        → HaltsShort S.Sink sink.old sink.new (bucket_name items.old.form e)
        (report_ending result) }
    ensures fault { IfErr result (FailsByWritingJson items.old.form) }
{
    match entry.item {
        Item::Value(_) => Ok(()),
        Item::Bucket { .. } => items.put_line(entry.key, sink),
    }
}

/// Writes the keys that begin with `prefix` of the entries of a cursor's bucket in a form, a line
/// for each, in byte order. An empty prefix stands for all keys. Where the cursor is doesn't
/// matter. The first key is found by a seek, and the keys are read up to the first one after it
/// that doesn't begin so. The cursor stays in its bucket.
///
/// # Errors
///
/// As `ReportFault` says. Memory may run out in the form `Json` alone, and then the sink hasn't accepted
/// all of the text.
pub fn put_keys_with_prefix<S: Sink>(
    alloc: Global,
    cursor: &mut Cursor<'_>,
    prefix: &[u8],
    form: Form,
    sink: &mut S,
) -> Result<(), ReportFault>
    ensures written { ForCursor cursor.old (λ all.
        Wrote S.Sink sink.old sink.new (keys_text form (with_prefix prefix.now all))
        (report_ending result)) }
    ensures short { ForCursor cursor.old (λ all.
        HaltsShort S.Sink sink.old sink.new (keys_text form (with_prefix prefix.now all))
        (report_ending result)) }
    ensures opens { OnOk result
        (OpensPrefix (cursor_bucket cursor.old) prefix.now (cursor_opened cursor.old)
        (cursor_opened cursor.new)) }
    ensures checked { cursor_checked cursor.new ≡ cursor_checked cursor.old }
    ensures start { cursor_start cursor.new ≡ cursor_start cursor.old }
    ensures fault { IfErr result (FailsByWritingJson form) }
{
    let mut items = ItemWriter::new(alloc, form);
    let mut found = cursor.seek(prefix);
    'rest: while let Some(entry) = found {
        if !entry.key.starts_with(prefix) {
            return Ok(());
        }
        items.put_line(entry.key, sink)?;
        found = cursor.next();
    }
    Ok(())
}
