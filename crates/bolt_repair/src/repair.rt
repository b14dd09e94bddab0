//! What goes back into the bucket `key` of a damaged file, and the search for it.
ghost use Rattle.std.specs.Prelude.{◌≡◌, ◌↔◌, [], All, IfErr, IfOk, None, OnOk, Some, false, map, not, true};
ghost use Rattle.std.specs.{Bool.OnFalse, List.Contains, List.Sorted.IsSorted, Option.option_map};
ghost use Rattle.bolt_check.specs.Keys.{key_cmp};
ghost use Rattle.bolt_repair.specs.{Candidates.AreSearched, Repaired.IsRepair, RepairRefusals.IsRepairRefusal};
ghost use Rattle.bolt_repair.specs.{Candidates.whole_cmp, Repaired.lacks_bucket, Undisputed.AreUndisputed, Undisputed.HaveKeys};
ghost use Rattle.bolt_repair.specs.{WhatGoesBack.ArePutBack, WhatGoesBack.AreTheNewest, WhatGoesBack.goes_back, WhatGoesBack.old_revisions};
ghost use Rattle.bolt_lemmas.specs.Order.{Rises};
ghost use Rattle.bolt_tree.specs.ShownEntries.{item_view};
ghost use Rattle.bolt_etcd.specs.{Store.Newest.is_until, Wire.ShownRevisions.entry_of};
ghost use Rattle.bolt_repair.specs.Candidates.{among, without};
ghost use Rattle.bolt_etcd.specs.{Wire.ShownRevisions.shown_revision};
ghost use Rattle.bolt_repair.specs.declared.repair_fault.RepairFault.TheVariants.{NotABucket};

use crate::candidates::candidates_of;
use crate::recovered_store::RecoveredStore;
use crate::repair_fault::RepairFault;
use crate::undisputed::keep_undisputed;
use bolt_check::NoMemory;
use bolt_etcd::{Revision, UnreadEntry, compacted_by, keep_newest};
use bolt_recover::LostAndFound;
use bolt_recover::laws::a_loss_is_searched_for_in_any_case;
use bolt_tree::Item;
use std::alloc::Global;

/// What goes back into the bucket `key` of a file that was searched (docs/RECOVERY.md, "The repaired
/// listing").
#[derive(Drop)]
pub struct Repair<'a> {
    pub(crate) searched: &'a LostAndFound<'a>,
    /// Whether pages were looked for though nothing may be lost.
    pub(crate) search: bool,
    /// The revisions that go back, by rising key.
    pub back: Vec<Revision<'a>>,
    /// The number of keys of candidates that don't go back.
    pub left_out: u64,
    /// The entries of the recovered bucket `key` that are neither revisions nor marks, by rising key. They
    /// aren't kept.
    pub unread: Vec<UnreadEntry<'a>>,
    /// Whether the bucket is made for what goes back.
    pub(crate) is_made: bool,
    /// Whether the bucket `meta` is made.
    pub(crate) makes_meta: bool,
    ghost goes_back: { ∥ IsRepair searched.now.file.now searched.now.meta search (map entry_of back.items)
        (record { store = is_made; meta = makes_meta }) ∥₁ },
}

impl<'a> Repair<'a> {
    ghost use Rattle.bolt_repair.specs.RepairedMembers.{IsRepairOf};

    /// Finds what goes back, and what can't be read. With `search` it looks for pages even if nothing is
    /// lost. Goes over what is recovered once, or twice if nothing is lost and there are candidates. If there
    /// are any, it needs 112 bytes for each of them, 56 for each recovered member (if nothing is lost, for
    /// each entry of the bucket `key`), and up to 48 for each candidate whose key is recovered, too. It also
    /// needs up to 96 bytes for each entry that can't be read.
    ///
    /// # Errors
    ///
    /// `NotABucket` if the recovered root bucket has a value `key`. If it has nothing there and nothing
    /// goes back, `Rootless` if the root page is lost, and otherwise `NoBucket`. `Memory` if memory runs
    /// out.
    pub fn find(
        alloc: Global,
        searched: &'a LostAndFound<'_>,
        search: bool,
    ) -> Result<Repair<'a>, RepairFault>
        ensures found { IfOk result (IsRepairOf searched.now.file.now searched.now.meta search) }
        ensures refused { IfErr result (IsRepairRefusal searched.now.file.now searched.now.meta search) }
    {
        let mut back = find_candidates(alloc, searched, search)?;
        let store = RecoveredStore::of(alloc, searched, back.as_slice())?;
        let is_lacking = lacks_bucket(store.bucket)?;
        let compacted = compacted_by(store.compaction);
        let keys = keep_agreed(&mut back, store.met);
        keep_what_goes_back(store.kept, &mut back, compacted)?;
        if has_nothing(is_lacking, back.as_slice()) {
            return Err(RepairFault::of(searched.lost()));
        }
        Ok(Repair {
            searched,
            search,
            left_out: (keys - back.len()) as u64,
            unread: store.unread,
            is_made: is_lacking,
            makes_meta: !store.has_meta,
            back,
        })
    }
}

/// The candidates on the found pages. If nothing is lost, pages are looked for only if that is asked.
fn find_candidates<'a>(
    alloc: Global,
    searched: &LostAndFound<'a>,
    search: bool,
) -> Result<Vec<Revision<'a>>, NoMemory>
    ensures { IfOk result (λ candidates.
        AreSearched searched.now search (map entry_of candidates.items)) }
{
    a_loss_is_searched_for_in_any_case();
    if search && searched.lost().is_nothing() {
        let found = searched.found_in_any_case(alloc)?;
        return candidates_of(alloc, found.as_slice());
    }
    candidates_of(alloc, searched.found.as_slice())
}

/// Whether nothing is under the bucket's name. Returns `NotABucket` if a value is.
fn lacks_bucket(under: Option<Item<'_>>) -> Result<bool, RepairFault>
    ensures lacks { IfOk result (λ lacks.
        lacks_bucket (option_map item_view under.entry) ≡ Some lacks) }
    ensures value { IfErr result (λ fault. (fault ≡ NotABucket)
        × (lacks_bucket (option_map item_view under.entry) ≡ None)) }
{
    match under {
        None => Ok(true),
        Some(Item::Bucket { .. }) => Ok(false),
        Some(Item::Value(_)) => Err(RepairFault::NotABucket),
    }
}

/// Whether the bucket is lacking, and there is nothing to make it for.
fn has_nothing(is_lacking: bool, back: &[Revision<'_>]) -> bool
    ensures { (result ≡ true) ↔ ((is_lacking ≡ true) × (back.now ≡ [])) }
{
    is_lacking && back.is_empty()
}

/// Keeps the candidates that are agreed: the recovered bucket doesn't have their keys (those that it
/// has are met), and no other candidate has the key with another value. They stand by rising key.
/// Returns the number of keys of candidates that aren't met.
fn keep_agreed(candidates: &mut Vec<Revision<'_>>, met: Vec<&[u8]>) -> usize
    requires rises { Rises whole_cmp (map entry_of candidates.old.items) }
    requires sorted { IsSorted key_cmp (map (λ key. key.now) met.items) }
    ensures agreed { AreUndisputed (without (map (λ key. key.now) met.entry.items)
        (map entry_of candidates.old.items)) (map entry_of candidates.new.items) }
    ensures keys { HaveKeys (without (map (λ key. key.now) met.entry.items)
        (map entry_of candidates.old.items)) result }
{
    remove_keys(candidates, met.as_slice());
    keep_undisputed(candidates)
}

/// Keeps of the agreed candidates those that go back: those after the last compaction, and what that
/// keeps of the others and of those that are kept.
fn keep_what_goes_back<'a>(
    kept: Vec<Revision<'a>>,
    agreed: &mut Vec<Revision<'a>>,
    compacted: u64,
) -> Result<(), NoMemory>
    ensures { OnOk result (ArePutBack compacted (map shown_revision kept.entry.items)
        (map entry_of agreed.old.items) (map entry_of agreed.new.items)) }
{
    if !has_old(agreed.as_slice(), compacted) {
        return Ok(());
    }
    let newest = newest_until(kept, agreed.as_slice(), compacted)?;
    let newest = newest.as_slice();
    agreed.retain(|revision| goes_back(revision, newest, compacted));
    Ok(())
}

/// Whether the last compaction may have removed one of these.
fn has_old(revisions: &[Revision<'_>], compacted: u64) -> bool
    ensures { OnFalse result
        (All (λ r. is_until compacted (shown_revision r) ≡ false) revisions.now) }
{
    for revision in revisions {
        if revision.is_until(compacted) {
            return true;
        }
    }
    false
}

/// The newest revision of each name up to the last compaction, if it isn't a deletion, of those that
/// are kept and those that are agreed. They stand by rising key.
fn newest_until<'a>(
    kept: Vec<Revision<'a>>,
    agreed: &[Revision<'a>],
    compacted: u64,
) -> Result<Vec<Revision<'a>>, NoMemory>
    ensures newest { IfOk result (λ newest. AreTheNewest
        (old_revisions compacted (map shown_revision kept.entry.items) (map entry_of agreed.now))
        (map shown_revision newest.items)) }
    ensures sorted { IfOk result (λ newest. IsSorted key_cmp (map (λ r. (entry_of r).key) newest.items)) }
{
    let mut newest = kept;
    newest.extend_from_slice(agreed)?;
    newest.retain(|revision| revision.is_until(compacted));
    keep_newest(&mut newest);
    newest.sort_unstable_by(|a, b| a.cmp_stored_key(b));
    Ok(newest)
}

/// Whether a revision is after the last compaction, or one of the newest ones, which are sorted by key.
fn goes_back(revision: &Revision<'_>, newest: &[Revision<'_>], compacted: u64) -> bool
    requires { IsSorted key_cmp (map (λ r. (entry_of r).key) newest.now) }
    ensures { result ≡ goes_back compacted (map shown_revision newest.now) (entry_of revision.now) }
{
    !revision.is_until(compacted) || has_stored_key(newest, revision)
}

/// Whether one of these, which are sorted by key, has its key.
fn has_stored_key(revisions: &[Revision<'_>], revision: &Revision<'_>) -> bool
    requires { IsSorted key_cmp (map (λ r. (entry_of r).key) revisions.now) }
    ensures { (result ≡ true)
        ↔ Contains (map (λ r. (entry_of r).key) revisions.now) (entry_of revision.now).key }
{
    revisions
        .binary_search_by(|other| other.cmp_stored_key(revision))
        .is_ok()
}

/// Removes those that have one of these keys, which are sorted.
fn remove_keys(revisions: &mut Vec<Revision<'_>>, keys: &[&[u8]])
    requires { IsSorted key_cmp (map (λ key. key.now) keys.now) }
    ensures { map entry_of revisions.new.items
        ≡ without (map (λ key. key.now) keys.now) (map entry_of revisions.old.items) }
{
    revisions.retain(|revision| lacks_key(keys, revision));
}

/// Whether its key isn't among these, which are sorted.
fn lacks_key(keys: &[&[u8]], revision: &Revision<'_>) -> bool
    requires { IsSorted key_cmp (map (λ key. key.now) keys.now) }
    ensures { result ≡ not (among (map (λ key. key.now) keys.now) (entry_of revision.now).key) }
{
    !has_key(keys, revision.stored_key())
}

/// Whether a key is among these, which rise.
fn has_key(keys: &[&[u8]], key: &[u8]) -> bool
    requires { IsSorted key_cmp (map (λ key. key.now) keys.now) }
    ensures { (result ≡ true) ↔ Contains (map (λ key. key.now) keys.now) key.now }
{
    keys.binary_search_by(|other| (*other).cmp(key)).is_ok()
}
