//! etcd's HashKV: the sum of what a store has at a transaction. A member that runs reports it by `etcdctl endpoint hashkv`.
ghost use Rattle.std.specs.Prelude.{◌≡◌, ◌&&◌, List, filter, length, map, nat_lt, not, option_map};
ghost use Rattle.bolt_etcd.specs.Store.CurrentKeys.{any_current_by, begins_with_key, is_current_by, nameless_key, without_first};
ghost use Rattle.bolt_etcd.specs.Store.SumSteps.{KnowsCurrent, sum_with};
ghost use Rattle.bolt_etcd.specs.Store.CrcStates.{crc_state};
ghost use Rattle.bolt_format.specs.Elements.{LeafElement};
ghost use Rattle.bolt_tree.specs.ShownEntries.{shown_entry};
ghost use Rattle.bolt_etcd.specs.Store.HashKv.{hash_kv, hash_unless, is_current_at, is_left_out};
ghost use Rattle.bolt_etcd.specs.{Wire.Numbered.numbered, Wire.ShownRevisions.shown_revision, Store.Stores.unread_elements, Store.Stores.revisions};
ghost use Rattle.bolt_check.specs.Counts.{counted};
ghost use Rattle.bolt_tree.specs.EntriesLeft.{ForBucket};

use crate::store::buckets::KEY_BUCKET;
use crate::store::crc32c::Crc32c;
use crate::store::revisions::Revisions;
use crate::wire::numbered_entry::NumberedEntry;
use crate::wire::revision::Revision;
use bolt_tree::{Bucket, Entry};

/// Which revisions and marks are summed.
#[derive(Clone, Copy)]
pub(crate) struct HashBounds<'s, 'a> {
    /// The transaction up to which revisions and marks are summed.
    pub up_to: u64,
    /// The transaction of the last compaction.
    pub compacted: u64,
    /// The newest revision of each name, if it isn't a deletion, in the order of their keys.
    pub current: &'s [Revision<'a>],
    /// The key of the newest revision or mark with the name without bytes, if it isn't a deletion.
    pub nameless: Option<&'a [u8]>,
}

impl<'s, 'a> HashBounds<'s, 'a> {
    /// The sum of the revisions and the marks in a bucket, after the name `key`. Goes over all entries of
    /// the bucket once, and needs no memory.
    pub(crate) fn sum(self, bucket: &Bucket<'a>) -> u32
        requires current { ForBucket bucket.now (λ entries.
            map shown_revision self.current.now
            ≡ filter (is_current_at self.up_to (revisions entries)) (revisions entries)) }
        requires nameless { ForBucket bucket.now (λ entries.
            option_map (λ key. key.now) self.nameless ≡ nameless_key self.up_to (numbered entries)) }
        ensures { ForBucket bucket.now (λ entries.
            result ≡ hash_kv self.entry.up_to self.entry.compacted entries) }
    {
        let any = self.has_current();
        let mut sum = Crc32c::new();
        sum.update(KEY_BUCKET);
        let mut listed = self.current;
        let mut pass = Revisions::of(bucket);
        'rest: while let Some(entry) = pass.advance() {
            let (is_listed, later) = take_first(listed, entry.key);
            listed = later;
            self.add(&entry, is_listed, any, &mut sum);
        }
        sum.finish()
    }

    /// The sum of a bucket, or `None` if it has entries that are neither revisions nor marks: `number` of
    /// them.
    pub(crate) fn sum_unless(self, number: u64, bucket: &Bucket<'a>) -> Option<u32>
        requires unread { ForBucket bucket.now (λ entries.
            number ≡ counted 0 (length (unread_elements entries))) }
        requires current { ForBucket bucket.now (λ entries.
            map shown_revision self.current.now
            ≡ filter (is_current_at self.up_to (revisions entries)) (revisions entries)) }
        requires nameless { ForBucket bucket.now (λ entries.
            option_map (λ key. key.now) self.nameless ≡ nameless_key self.up_to (numbered entries)) }
        ensures { ForBucket bucket.now (λ entries.
            result ≡ hash_unless (unread_elements entries)
            (hash_kv self.entry.up_to self.entry.compacted entries)) }
    {
        match number {
            0 => Some(self.sum(bucket)),
            _ => None,
        }
    }

    /// Adds an entry to a sum, if it is summed: by whether it is listed among the current revisions, and by
    /// whether any revision or mark is current.
    fn add(&self, entry: &Entry<'_>, is_listed: bool, any_current: bool, sum: &mut Crc32c)
        ensures { (entries : List LeafElement)
            → KnowsCurrent self.now entries (shown_entry entry.now) is_listed any_current
            → crc_state sum.new ≡ sum_with self.now.up_to self.now.compacted (numbered entries)
            (shown_entry entry.now) (crc_state sum.old) }
    {
        let Some(numbered) = NumberedEntry::of(entry) else {
            return;
        };
        let is_current = self.is_current(&numbered, is_listed);
        if self.includes(&numbered, is_current, any_current) {
            sum.update(numbered.stored_key);
            sum.update(numbered.value);
        }
    }

    /// Whether any revision or mark is current.
    fn has_current(&self) -> bool
        ensures { result ≡ any_current_by (option_map (λ key. key.now) self.now.nameless)
            (map shown_revision self.now.current.now) }
    {
        if self.nameless.is_some() {
            return true;
        }
        'rest: for revision in self.current {
            if !revision.name().is_empty() {
                return true;
            }
        }
        false
    }

    /// Whether a revision or a mark is current, by whether it is listed among the current revisions.
    fn is_current(&self, numbered: &NumberedEntry<'_>, is_listed: bool) -> bool
        ensures { result ≡ is_current_by (option_map (λ key. key.now) self.now.nameless) is_listed
            numbered.now.name.now numbered.now.stored_key.now }
    {
        if !numbered.name.is_empty() {
            return is_listed;
        }
        match self.nameless {
            Some(key) => key == numbered.stored_key,
            None => false,
        }
    }

    /// Whether a revision or a mark is summed, by whether it is current, and whether any is.
    fn includes(&self, numbered: &NumberedEntry<'_>, is_current: bool, any_current: bool) -> bool
        ensures { result ≡ (not (nat_lt self.now.up_to numbered.now.key.main)
            && not (is_left_out self.now.compacted numbered.now.key is_current any_current)) }
    {
        let key = numbered.key;
        if key.main > self.up_to || key.deleted && key.main == self.compacted {
            return false;
        }
        key.main > self.compacted || is_current || !any_current
    }
}

/// Whether the first of these revisions has this key, and the list that is left: without it, if it has.
fn take_first<'s, 'a>(listed: &'s [Revision<'a>], key: &[u8]) -> (bool, &'s [Revision<'a>])
    ensures has { result.0 ≡ begins_with_key key.now (map shown_revision listed.now) }
    ensures left { map shown_revision result.1.now
        ≡ without_first key.now (map shown_revision listed.now) }
{
    match listed.split_first() {
        Some((first, later)) if first.stored_key() == key => (true, later),
        _ => (false, listed),
    }
}
