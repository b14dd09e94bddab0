//! Revisions of a bucket, kept in memory.
ghost use Rattle.std.specs.Prelude.{◌≡◌, IfOk, length, map};
ghost use Rattle.bolt_check.specs.Counts.{counted};
ghost use Rattle.bolt_etcd.specs.{Check.NameFaults.AreByName, Check.NameFaults.by_name_cmp, Store.Newest.until};
ghost use Rattle.bolt_etcd.specs.{Wire.ShownRevisions.shown_revision};
ghost use Rattle.bolt_etcd.specs.{Store.Stores.unread_elements, Store.Stores.revisions};
ghost use Rattle.bolt_tree.specs.EntriesLeft.{ForBucket};

use crate::store::revisions::Revisions;
use crate::wire::revision::Revision;
use bolt_tree::{Bucket, NoMemory};
use std::alloc::Global;
use std::cmp::Ordering;

/// Revisions of a bucket.
#[derive(Drop)]
pub struct RevisionList<'a> {
    /// The revisions.
    pub revisions: Vec<Revision<'a>>,
    /// The number of entries that are neither revisions nor marks. It saturates at 2^64 - 1.
    pub unread: u64,
}

impl<'a> RevisionList<'a> {
    /// Collects the revisions of a bucket of no later transaction than `up_to`, in the order of their
    /// keys. Goes over all entries of the bucket twice. Keeps 56 bytes for each of these revisions.
    ///
    /// # Errors
    ///
    /// `NoMemory` if memory runs out for these.
    pub fn of(alloc: Global, bucket: &Bucket<'a>, up_to: u64) -> Result<RevisionList<'a>, NoMemory>
        ensures revisions { IfOk result (λ all. ForBucket bucket.now (λ entries.
            map shown_revision all.revisions.items ≡ until up_to (revisions entries))) }
        ensures unread { IfOk result (λ all.
            ForBucket bucket.now (λ entries. all.unread ≡ counted 0 (length (unread_elements entries)))) }
    {
        let mut collected = Vec::with_capacity(alloc, count_until(bucket, up_to))?;
        let mut revisions = Revisions::of(bucket);
        'rest: while let Some(revision) = revisions.next() {
            if revision.is_until(up_to) && collected.push(revision).is_err() {
                return Err(NoMemory);
            }
        }
        Ok(RevisionList {
            revisions: collected,
            unread: revisions.unread(),
        })
    }

    /// Sorts the revisions by rising name, and those of one name in the order of their keys.
    pub fn sort_by_name(&mut self)
        ensures sorted { AreByName (map shown_revision self.old.revisions.items)
            (map shown_revision self.new.revisions.items) }
        ensures unread { self.new.unread ≡ self.old.unread }
    {
        self.revisions.sort_unstable_by(compare);
    }
}

/// The number of revisions of a bucket of no later transaction than `up_to`.
fn count_until(bucket: &Bucket<'_>, up_to: u64) -> usize
    ensures { ForBucket bucket.now (λ entries.
        result ≡ counted 0 (length (until up_to (revisions entries)))) }
{
    let mut n = 0_usize;
    let mut revisions = Revisions::of(bucket);
    'rest: while let Some(revision) = revisions.next() {
        if revision.is_until(up_to) {
            n = n.saturating_add(1);
        }
    }
    n
}

/// Compares two revisions by name, and those of one name by their keys.
fn compare(a: &Revision<'_>, b: &Revision<'_>) -> Ordering
    ensures { result ≡ by_name_cmp (shown_revision a.now) (shown_revision b.now) }
{
    a.name().cmp(b.name()).then(a.cmp_stored_key(b))
}
