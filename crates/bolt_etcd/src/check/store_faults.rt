//! What is wrong with a store, of its root bucket.
ghost use Rattle.std.specs.Prelude.{◌≡◌, ◌↔◌, [], IfErr, IfOk, None, length, map, true};
ghost use Rattle.std.specs.List.{concat};
ghost use Rattle.bolt_check.specs.Counts.{counted};
ghost use Rattle.bolt_format.specs.{Endings.ending, Wrote.Wrote};
ghost use Rattle.bolt_text.specs.ReportEndings.{FailsByWriting, report_ending};
ghost use Rattle.bolt_etcd.specs.{Check.CheckLines.missing_line};
ghost use Rattle.bolt_etcd.specs.{Wire.Numbered.numbered, Store.Stores.unread_elements};
ghost use Rattle.bolt_etcd.specs.Store.StoreBuckets.{ForStore};
ghost use Rattle.bolt_etcd.specs.Check.StoreFaults.{bucket_line, missing_bucket_lines, entry_lines, line_without, missing_if, store_lines};
ghost use Rattle.bolt_etcd.specs.Check.StoreFaults.{unread_entry_lines};
ghost use Rattle.bolt_etcd.specs.{Check.ForNames.ForGranted, Check.ForNames.ForNameLines, Check.NameFaults.name_faults};
ghost use Rattle.bolt_etcd.specs.{Wire.ShownRevisions.shown_revision};
ghost use Rattle.bolt_etcd.specs.Store.Stores.{ForCollected, ForUnread};
ghost use Rattle.bolt_tree.specs.EntriesLeft.{ForBucket};

use crate::check::check_texts::{
    put_all_misplaced, put_all_missing, put_all_unread, put_name_faults,
};
use crate::check::missing::MissingNumbers;
use crate::check::name_faults::NameFaults;
use crate::store::buckets::{BUCKET_NAMES, KEY_BUCKET, LEASE_BUCKET};
use crate::store::compaction::store_compacted;
use crate::store::name_order::{sort_by_sum, sort_roughly};
use crate::store::revision_list::RevisionList;
use crate::store::revisions::Revisions;
use crate::wire::revision::Revision;
use bolt_format::{Sink, SinkFault};
use bolt_text::{Piece, ReportFault, put_pieces};
use bolt_tree::Bucket;
use std::alloc::Global;

/// Writes what is wrong with the store that this is the root bucket of, and returns how many lines
/// these are. In this order:
///
/// - buckets that are missing;
/// - entries of the bucket `key` that are neither revisions nor marks;
/// - records of other revisions;
/// - revisions that are missing by their numbers;
/// - name by name, revisions that don't follow the one before them, and leases that aren't there.
///
/// Without the bucket `key`, only missing buckets have lines. The number saturates at 2^64 - 1. Keeps
/// 56 bytes for each revision.
///
/// # Errors
///
/// As `ReportFault` says. Memory may run out for the revisions.
pub fn put_store_faults<S: Sink>(
    alloc: Global,
    root: &Bucket<'_>,
    sink: &mut S,
) -> Result<u64, ReportFault>
    ensures written { ForStore root.now (λ store.
        Wrote S.Sink sink.old sink.new (concat (store_lines store)) (report_ending result)) }
    ensures number { IfOk result (λ n.
        ForStore root.now (λ store. n ≡ counted 0 (length (store_lines store)))) }
    ensures fault { IfErr result FailsByWriting }
{
    let of_buckets = put_missing_buckets(root, &BUCKET_NAMES, sink)?;
    let Some(keys) = root.bucket(KEY_BUCKET) else {
        return Ok(of_buckets);
    };
    let compacted = store_compacted(root);
    let found = RevisionList::of(alloc, &keys, u64::MAX)?;
    let of_entries = put_entry_faults(&keys, &found, compacted, sink)?;
    let of_names = put_faults_by_name(found, compacted, root.bucket(LEASE_BUCKET), sink)?;
    Ok(
        of_buckets
            .saturating_add(of_entries)
            .saturating_add(of_names),
    )
}

/// Writes a line for each of these names under which there is no bucket, and returns how many these
/// are.
fn put_missing_buckets<S: Sink>(
    root: &Bucket<'_>,
    names: &[&[u8]],
    sink: &mut S,
) -> Result<u64, SinkFault>
    ensures written { ForStore root.now (λ store.
        Wrote S.Sink sink.old sink.new
        (concat (missing_bucket_lines store (map (λ n. n.now) names.now))) (ending result)) }
    ensures number { IfOk result (λ n.
        ForStore root.now (λ store.
        n ≡ counted 0 (length (missing_bucket_lines store (map (λ n. n.now) names.now))))) }
{
    let mut number = 0_u64;
    'rest: for name in names {
        let more = put_missing_bucket(root, name, sink)?;
        number = number.saturating_add(more);
    }
    Ok(number)
}

/// Writes a line if there is no bucket under a name, and returns the number of lines.
fn put_missing_bucket<S: Sink>(
    root: &Bucket<'_>,
    name: &[u8],
    sink: &mut S,
) -> Result<u64, SinkFault>
    ensures written { ForStore root.now (λ store.
        Wrote S.Sink sink.old sink.new (concat (line_without name.now (store.bucket name.now)))
        (ending result)) }
    ensures number { IfOk result (λ n.
        ForStore root.now (λ store. n ≡ length (line_without name.now (store.bucket name.now)))) }
{
    if root.bucket(name).is_some() {
        return Ok(0);
    }
    put_bucket_line(name, sink)?;
    Ok(1)
}

/// Writes that the bucket under a name is missing.
fn put_bucket_line<S: Sink>(name: &[u8], sink: &mut S) -> Result<(), SinkFault>
    ensures { Wrote S.Sink sink.old sink.new (bucket_line name.now) (ending result) }
{
    put_pieces(
        &[
            Piece::Bytes(b"bucket "),
            Piece::Bytes(name),
            Piece::Bytes(b": missing\n"),
        ],
        sink,
    )
}

/// Writes a line for each thing that is wrong with the entries of the bucket `key`, of which these
/// revisions were found, and returns how many lines these are.
fn put_entry_faults<S: Sink>(
    keys: &Bucket<'_>,
    found: &RevisionList<'_>,
    compacted: Option<u64>,
    sink: &mut S,
) -> Result<u64, SinkFault>
    ensures written { ForCollected keys.now found.now (λ entries.
        Wrote S.Sink sink.old sink.new (concat (entry_lines compacted entries)) (ending result)) }
    ensures number { IfOk result (λ n.
        ForCollected keys.now found.now (λ entries.
        n ≡ counted 0 (length (entry_lines compacted entries)))) }
{
    let unread = put_counted_unread(keys, found.unread, sink)?;
    let misplaced = put_all_misplaced(&found.revisions, sink)?;
    let missing = put_missing_numbers(keys, compacted, sink)?;
    Ok(unread.saturating_add(misplaced).saturating_add(missing))
}

/// Writes a line for each entry of the bucket `key` that is neither a revision nor a mark. There are
/// `number` of them. If there are none, it doesn't look for them.
fn put_counted_unread<S: Sink>(
    keys: &Bucket<'_>,
    number: u64,
    sink: &mut S,
) -> Result<u64, SinkFault>
    ensures written { ForUnread keys.now number (λ entries.
        Wrote S.Sink sink.old sink.new (concat (unread_entry_lines entries)) (ending result)) }
    ensures number { IfOk result (λ n.
        ForUnread keys.now number (λ entries. n ≡ counted 0 (length (unread_entry_lines entries)))) }
{
    match number {
        0 => Ok(0),
        _ => put_all_unread(Revisions::of(keys), sink),
    }
}

/// Writes a line for what is missing in the bucket `key` by its number, if the transaction of the last
/// compaction is known.
fn put_missing_numbers<S: Sink>(
    keys: &Bucket<'_>,
    compacted: Option<u64>,
    sink: &mut S,
) -> Result<u64, SinkFault>
    ensures written { ForBucket keys.now (λ entries.
        Wrote S.Sink sink.old sink.new
        (concat (map missing_line (missing_if compacted (numbered entries)))) (ending result)) }
    ensures number { IfOk result (λ n.
        ForBucket keys.now (λ entries.
        n ≡ counted 0 (length (map missing_line (missing_if compacted (numbered entries)))))) }
{
    match compacted {
        Some(compacted) => put_all_missing(MissingNumbers::of(keys, compacted), sink),
        None => Ok(0),
    }
}

/// Writes a line for each thing that is missing of the names of these revisions, and returns how
/// many these are. If nothing is missing, which is seen in any order in which those of one name stand
/// together, they aren't sorted by name.
fn put_faults_by_name<S: Sink>(
    mut found: RevisionList<'_>,
    compacted: Option<u64>,
    leases: Option<Bucket<'_>>,
    sink: &mut S,
) -> Result<u64, SinkFault>
    ensures written { ForNameLines found.entry.revisions.items compacted leases.entry (λ lines.
        Wrote S.Sink sink.old sink.new (concat lines) (ending result)) }
    ensures number { IfOk result (λ n.
        ForNameLines found.entry.revisions.items compacted leases.entry (λ lines.
        n ≡ counted 0 (length lines))) }
{
    sort_by_sum(&mut found.revisions);
    if lacks_nothing(&found.revisions, compacted, leases) {
        return Ok(0);
    }
    sort_roughly(&mut found.revisions);
    found.sort_by_name();
    put_name_faults(NameFaults::of(&found.revisions, compacted, leases), sink)
}

/// Whether nothing is missing of the names of these revisions, of which those of one name stand together.
fn lacks_nothing(
    revisions: &[Revision<'_>],
    compacted: Option<u64>,
    leases: Option<Bucket<'_>>,
) -> bool
    ensures { ForGranted leases.entry (λ granted.
        (result ≡ true) ↔ (name_faults compacted granted None (map shown_revision revisions.now) ≡ [])) }
{
    let mut faults = NameFaults::of(revisions, compacted, leases);
    faults.next().is_none()
}
