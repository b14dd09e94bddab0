//! Which keys there are at a revision, and what each is.
ghost use Rattle.std.specs.Prelude.{◌≡◌, IfOk, filter, length, map};
ghost use Rattle.bolt_check.specs.Counts.{counted};
ghost use Rattle.std.specs.List.Sorted.{IsPermutation, IsSorted};
ghost use Rattle.bolt_etcd.specs.Store.Current.{AreCurrentBySum, HaveOwnKeys};
ghost use Rattle.bolt_etcd.specs.Store.Orders.{name_cmp, stored_key_cmp};
ghost use Rattle.bolt_etcd.specs.{Store.HashKv.is_current_at, Wire.ShownRevisions.shown_revision, Store.Stores.unread_elements, Store.Stores.revisions};
ghost use Rattle.bolt_tree.specs.EntriesLeft.{ForBucket};
ghost use Rattle.bolt_etcd.specs.Check.ForNames.{AreCurrentAt};

use crate::store::name_order::{sort_newest_by_sum, sort_roughly};
use crate::store::revision_list::RevisionList;
use crate::wire::revision::Revision;
use bolt_tree::{Bucket, NoMemory};
use std::alloc::Global;
use std::cmp::Ordering;

/// The keys that there are at a transaction.
#[derive(Drop)]
pub struct Current<'a> {
    /// The newest revision of each key, by rising name. None is a deletion.
    pub revisions: Vec<Revision<'a>>,
    /// The number of entries that are neither revisions nor marks. One of them may have been newer. It
    /// saturates at 2^64 - 1.
    pub unread: u64,
}

impl<'a> Current<'a> {
    /// Finds the keys that there are in a bucket at a transaction. Goes over all entries of the
    /// bucket twice. Keeps 56 bytes for each revision of no later transaction than `up_to`.
    ///
    /// # Errors
    ///
    /// `NoMemory` if memory runs out for these.
    pub fn find(alloc: Global, bucket: &Bucket<'a>, up_to: u64) -> Result<Current<'a>, NoMemory>
        ensures keys { IfOk result (λ current.
            AreCurrentAt bucket.now up_to (map shown_revision current.revisions.items)) }
        ensures unread { IfOk result (λ current.
            ForBucket bucket.now (λ entries.
            current.unread ≡ counted 0 (length (unread_elements entries)))) }
    {
        let RevisionList {
            mut revisions,
            unread,
        } = RevisionList::of(alloc, bucket, up_to)?;
        keep_newest(&mut revisions);
        sort_by_name(&mut revisions);
        Ok(Current { revisions, unread })
    }
}

/// Keeps the newest revision of each name, if it isn't a deletion, by the sums of names. They may stand in
/// any order, but no two under one key. Needs no memory.
pub fn keep_newest(revisions: &mut Vec<Revision<'_>>)
    ensures { let found = map shown_revision revisions.old.items in
        HaveOwnKeys found → AreCurrentBySum found (map shown_revision revisions.new.items) }
{
    sort_newest_by_sum(revisions);
    revisions.dedup_by(|older, newest| older.name() == newest.name());
    revisions.retain(|newest| !newest.key().deleted);
}

/// Sorts revisions by name.
fn sort_by_name(revisions: &mut Vec<Revision<'_>>)
    ensures same { IsPermutation (map shown_revision revisions.old.items)
        (map shown_revision revisions.new.items) }
    ensures sorted { IsSorted name_cmp (map shown_revision revisions.new.items) }
{
    sort_roughly(revisions);
    revisions.sort_unstable_by(by_name);
}

fn by_name(a: &Revision<'_>, b: &Revision<'_>) -> Ordering
    ensures { result ≡ name_cmp (shown_revision a.now) (shown_revision b.now) }
{
    a.name().cmp(b.name())
}

/// Collects the newest revision of each name at a transaction, if it isn't a deletion, in the order of their keys. Goes over
/// all entries of the bucket twice. Keeps 56 bytes for each revision of no later transaction than `up_to`.
pub(crate) fn current_by_key<'a>(
    alloc: Global,
    bucket: &Bucket<'a>,
    up_to: u64,
) -> Result<RevisionList<'a>, NoMemory>
    ensures current { IfOk result (λ current. ForBucket bucket.now (λ entries.
        map shown_revision current.revisions.items
        ≡ filter (is_current_at up_to (revisions entries)) (revisions entries))) }
    ensures unread { IfOk result (λ current.
        ForBucket bucket.now (λ entries. current.unread ≡ counted 0 (length (unread_elements entries)))) }
{
    let RevisionList {
        mut revisions,
        unread,
    } = RevisionList::of(alloc, bucket, up_to)?;
    keep_newest(&mut revisions);
    sort_by_key(&mut revisions);
    Ok(RevisionList { revisions, unread })
}

/// Sorts revisions by their keys.
fn sort_by_key(revisions: &mut Vec<Revision<'_>>)
    ensures same { IsPermutation (map shown_revision revisions.old.items)
        (map shown_revision revisions.new.items) }
    ensures sorted { IsSorted stored_key_cmp (map shown_revision revisions.new.items) }
{
    sort_roughly(revisions);
    revisions.sort_unstable_by(|a, b| a.cmp_stored_key(b));
}
