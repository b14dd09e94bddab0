//! What etcd would report of a store.
ghost use Rattle.std.specs.Prelude.{◌≡◌, IfOk, if◌then◌else◌, length, option_and_then, option_map};
ghost use Rattle.bolt_check.specs.Counts.{counted};
ghost use Rattle.bolt_etcd.specs.{Store.Compacted.value_under, Store.CurrentKeys.nameless_key, Store.CurrentKeys.nameless_with};
ghost use Rattle.bolt_etcd.specs.{Wire.Numbered.numbered, Wire.Numbered.numbered_of, Wire.RevisionKeys.is_mark, Wire.Revisions.revision_of};
ghost use Rattle.bolt_etcd.specs.{Store.StoreBuckets.ForStore, Store.Stores.revisions};
ghost use Rattle.bolt_etcd.specs.Store.Statuses.{meta_number, newest_main, newest_with, number_of_eight, or_zero, revisions_with};
ghost use Rattle.bolt_etcd.specs.Store.BucketNames.{meta_bucket};
ghost use Rattle.bolt_tree.specs.{EntriesLeft.ForBucket, ShownEntries.shown_entry};

use crate::store::buckets::META_BUCKET;
use crate::store::compaction::store_compacted;
use crate::store::current::current_by_key;
use crate::store::hash_kv::HashBounds;
use crate::store::revisions::Revisions;
use crate::wire::numbered_entry::NumberedEntry;
use bolt_tree::{Bucket, Entry, NoMemory};
use byteorder::{BigEndian, ByteOrder};
use std::alloc::Global;

/// What etcd would report of a store at a transaction (docs/COMMANDS.md, "etcd-status").
#[derive(Clone, Copy, Debug, PartialEq, Eq)]
pub struct StoreStatus {
    /// The store's revision: the greatest of `newest`, `compacted` and 1.
    pub revision: u64,
    /// The greatest number of a transaction that a revision or a mark has, or 0.
    pub newest: u64,
    /// The transaction up to which the store was compacted, or 0.
    pub compacted: u64,
    /// The number of keys that there are.
    pub keys: u64,
    /// The number of revisions. It saturates at 2^64 - 1.
    pub revisions: u64,
    /// The index in etcd's log up to which the store has it.
    pub consistent_index: Option<u64>,
    /// The term of that entry of the log.
    pub term: Option<u64>,
    /// The HashKV of the store, unless it has entries that are neither revisions nor marks.
    pub hash: Option<u32>,
    /// The number of entries that are neither revisions nor marks. It saturates at 2^64 - 1.
    pub unread: u64,
}

impl StoreStatus {
    ghost use Rattle.bolt_etcd.specs.Store.Statuses.{store_status};

    /// Finds what etcd would report of the store with this root bucket and this bucket `key`. Keys and
    /// the hash are those of no later transaction than `up_to`. Goes over the entries of `keys` four times.
    /// Keeps 56 bytes for each revision of no later transaction.
    ///
    /// # Errors
    ///
    /// `NoMemory` if memory runs out for these.
    pub fn find(
        alloc: Global,
        root: &Bucket<'_>,
        keys: &Bucket<'_>,
        up_to: u64,
    ) -> Result<StoreStatus, NoMemory>
        ensures { IfOk result (λ status.
            ForStore root.now (λ store.
            ForBucket keys.now (λ entries. status ≡ store_status up_to store entries))) }
    {
        let compacted = or_zero(store_compacted(root));
        let numbers = Numbers::count(keys, up_to);
        let current = current_by_key(alloc, keys, up_to)?;
        let hashed = HashBounds {
            up_to,
            compacted,
            current: &current.revisions,
            nameless: numbers.nameless,
        };
        Ok(StoreStatus {
            revision: numbers.newest.max(compacted.max(1)),
            newest: numbers.newest,
            compacted,
            keys: current.revisions.len() as u64,
            revisions: numbers.revisions,
            consistent_index: meta_number(root, b"consistent_index"),
            term: meta_number(root, b"term"),
            hash: hashed.sum_unless(current.unread, keys),
            unread: current.unread,
        })
    }
}

/// The transaction of the last compaction, or 0 if nobody knows.
fn or_zero(compacted: Option<u64>) -> u64
    ensures { result ≡ or_zero compacted }
{
    compacted.unwrap_or(0)
}

/// The number under a key in the bucket `meta`, if there is one.
fn meta_number(root: &Bucket<'_>, key: &[u8]) -> Option<u64>
    ensures { ForStore root.now (λ store.
        result ≡ meta_number key.now (store.bucket meta_bucket)) }
{
    let meta = root.bucket(META_BUCKET)?;
    number_under(&meta, key)
}

/// The number in eight bytes, the highest first, under a key in a bucket, if it has such a value.
fn number_under(bucket: &Bucket<'_>, key: &[u8]) -> Option<u64>
    ensures { ForBucket bucket.now (λ entries.
        result ≡ option_and_then number_of_eight (value_under key.now entries)) }
{
    let value = bucket.get(key)?;
    if value.len() != 8 {
        return None;
    }
    Some(BigEndian::read_u64(value))
}

/// What is counted of the revisions and the marks of a bucket.
#[derive(Clone, Copy)]
struct Numbers<'a> {
    newest: u64,
    revisions: u64,
    nameless: Option<&'a [u8]>,
}

impl<'a> Numbers<'a> {
    /// Counts the revisions and the marks of a bucket. The key of the nameless one is that of no later
    /// transaction than `up_to`.
    fn count(bucket: &Bucket<'a>, up_to: u64) -> Numbers<'a>
        ensures newest { ForBucket bucket.now (λ entries.
            result.newest ≡ newest_main (numbered entries)) }
        ensures revisions { ForBucket bucket.now (λ entries.
            result.revisions ≡ counted 0 (length (revisions entries))) }
        ensures nameless { ForBucket bucket.now (λ entries.
            option_map (λ key. key.now) result.nameless ≡ nameless_key up_to (numbered entries)) }
    {
        let mut numbers = Numbers {
            newest: 0,
            revisions: 0,
            nameless: None,
        };
        let mut pass = Revisions::of(bucket);
        'rest: while let Some(entry) = pass.advance() {
            numbers.add(&entry, up_to);
        }
        numbers
    }

    /// Counts one more entry, if it is a revision or a mark.
    fn add(&mut self, entry: &Entry<'a>, up_to: u64)
        ensures newest { self.new.newest
            ≡ newest_with (numbered_of (shown_entry entry.now)) self.old.newest }
        ensures revisions { self.new.revisions
            ≡ revisions_with (revision_of (shown_entry entry.now)) self.old.revisions }
        ensures nameless { option_map (λ key. key.now) self.new.nameless
            ≡ nameless_with up_to (numbered_of (shown_entry entry.now))
            (option_map (λ key. key.now) self.old.nameless) }
    {
        let Some(numbered) = NumberedEntry::of(entry) else {
            return;
        };
        let main = numbered.key.main;
        self.newest = self.newest.max(main);
        self.revisions = with_revision(self.revisions, &numbered);
        if main <= up_to && numbered.name.is_empty() {
            self.nameless = if numbered.key.deleted {
                None
            } else {
                Some(numbered.stored_key)
            };
        }
    }
}

/// The number of revisions with this one, unless it is a mark. It saturates at 2^64 - 1.
fn with_revision(revisions: u64, numbered: &NumberedEntry<'_>) -> u64
    ensures { result ≡ (if is_mark numbered.now.key numbered.now.value.now then revisions
        else counted revisions 1) }
{
    if numbered.is_mark() {
        revisions
    } else {
        revisions.saturating_add(1)
    }
}
