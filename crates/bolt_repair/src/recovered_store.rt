//! What the recovered listing says of a store.
ghost use Rattle.std.specs.Prelude.{◌≡◌, ◌≤◌, ◌++◌, ◌∷◌, [], IfOk, OnOk, length, map, vec_capacity};
ghost use Rattle.bolt_check.specs.Counts.{counted};
ghost use Rattle.bolt_lemmas.specs.Order.{Rises};
ghost use Rattle.bolt_tree.specs.{InBuckets.entry_in, Paths.path_of, ShownEntries.item_view, ShownEntries.shown_entry};
ghost use Rattle.bolt_recover.specs.Recovered.{ForRecovered};
ghost use Rattle.bolt_repair.specs.{Candidates.whole_cmp, RecoveredStores.HasRoomForRecovered, RecoveredStores.KeepsRevision, RecoveredStores.store_entries, Repairs.store_path};
ghost use Rattle.bolt_etcd.specs.{Wire.ShownRevisions.entry_of, Wire.ShownRevisions.shown_revision};

use crate::candidates::has_candidate;
use crate::store_path::{StorePath, is_in_store, store_path_of};
use bolt_etcd::{Revision, UnreadEntry};
use bolt_recover::{LostAndFound, RecoveredListing};
use bolt_tree::{Entry, Item, Members, NoMemory};
use std::alloc::{AllocError, Global};

/// What the recovered listing says of a store.
#[derive(Drop)]
pub(crate) struct RecoveredStore<'a> {
    /// What is under `key` in the root bucket.
    pub bucket: Option<Item<'a>>,
    /// The value that notes the last compaction.
    pub compaction: Option<&'a [u8]>,
    /// The revisions in the bucket `key`, if there are candidates.
    pub kept: Vec<Revision<'a>>,
    /// The keys in the bucket `key` that candidates have too, by rising key.
    pub met: Vec<&'a [u8]>,
    /// The entries of the bucket `key` that are neither revisions nor marks, by rising key.
    pub unread: Vec<UnreadEntry<'a>>,
    /// Whether something is under `meta` in the root bucket.
    pub has_meta: bool,
    /// Where the last key was looked up among the candidates.
    at: usize,
}

impl<'a> RecoveredStore<'a> {
    ghost use Rattle.bolt_repair.specs.RecoveredStores.{IsStoreNoted, NotesMember};

    /// Goes over all that is recovered of a file.
    pub fn of(
        alloc: Global,
        searched: &LostAndFound<'a>,
        candidates: &[Revision<'a>],
    ) -> Result<RecoveredStore<'a>, NoMemory>
        requires { Rises whole_cmp (map entry_of candidates.now) }
        ensures { IfOk result (λ store.
            ForRecovered searched.now.file.now searched.now.meta (λ recovered.
            IsStoreNoted recovered (map entry_of candidates.now) store)) }
    {
        let room = room_for_kept(alloc, searched, candidates)?;
        let mut store = RecoveredStore {
            bucket: None,
            compaction: None,
            kept: room,
            met: Vec::new(alloc),
            unread: Vec::new(alloc),
            has_meta: false,
            at: 0,
        };
        let mut recovered = RecoveredListing::of(alloc, searched)?;
        'members: while let Some(item) = recovered.next()? {
            store.note(recovered.path(), item, candidates)?;
        }
        Ok(store)
    }

    /// Notes a member, which comes after all that are noted.
    fn note(
        &mut self,
        path: &[&'a [u8]],
        item: Item<'a>,
        candidates: &[Revision<'a>],
    ) -> Result<(), NoMemory>
        requires { Rises whole_cmp (map entry_of candidates.now) }
        ensures { OnOk result (NotesMember (map entry_of candidates.now)
            (path_of path.now, item_view item.entry) self.old self.new) }
    {
        match store_path_of(path) {
            StorePath::Store => self.bucket = Some(item),
            StorePath::InStore(key) => self.note_entry(&Entry { key, item }, candidates)?,
            StorePath::Meta => self.has_meta = true,
            StorePath::Compaction => {
                if let Item::Value(value) = item {
                    self.compaction = Some(value);
                }
            }
            StorePath::Below | StorePath::Other => {}
        }
        Ok(())
    }

    /// Notes an entry of the bucket `key`.
    fn note_entry(&mut self, entry: &Entry<'a>, candidates: &[Revision<'a>]) -> Result<(), NoMemory>
        requires { Rises whole_cmp (map entry_of candidates.now) }
        ensures { OnOk result (NotesMember (map entry_of candidates.now)
            (entry_in store_path (shown_entry entry.now)) self.old self.new) }
    {
        if let Some(other) = UnreadEntry::of(entry) {
            return push_to(&mut self.unread, other);
        }
        keep_revision(&mut self.kept, candidates, entry)?;
        if has_candidate(candidates, &mut self.at, entry.key) {
            push_to(&mut self.met, entry.key)?;
        }
        Ok(())
    }
}

/// Room for the entries of the recovered bucket `key` and for the candidates, which come to them later, if
/// there are any: a list that grows needs up to three times as much.
fn room_for_kept<'a>(
    alloc: Global,
    searched: &LostAndFound<'a>,
    candidates: &[Revision<'a>],
) -> Result<Vec<Revision<'a>>, NoMemory>
    ensures items { IfOk result (λ room. room.items ≡ []) }
    ensures room { IfOk result (λ room.
        HasRoomForRecovered searched.now (length candidates.now) (vec_capacity room)) }
{
    if candidates.is_empty() {
        return Ok(Vec::new(alloc));
    }
    let entries = most_entries(alloc, searched)?;
    Ok(Vec::with_capacity(alloc, entries.saturating_add(candidates.len()))?)
}

/// How many entries the recovered bucket `key` has at most. If something is lost, all members were counted
/// as the file was searched, and else its entries are counted now.
#[tactic(auto, using(crate::proofs::NotedMembers::entries_are_members))]
fn most_entries(alloc: Global, searched: &LostAndFound<'_>) -> Result<usize, NoMemory>
    ensures { IfOk result (λ most. ForRecovered searched.now.file.now searched.now.meta (λ recovered.
        counted 0 (length (store_entries recovered)) ≤ most)) }
{
    match searched.recovered() {
        Some(members) => Ok(usize::try_from(members).unwrap_or(usize::MAX)),
        None => count_entries(alloc, searched),
    }
}

/// The number of entries of the recovered bucket `key`. Saturates at 2^64 - 1.
fn count_entries(alloc: Global, searched: &LostAndFound<'_>) -> Result<usize, NoMemory>
    ensures { IfOk result (λ count. ForRecovered searched.now.file.now searched.now.meta (λ recovered.
        count ≡ counted 0 (length (store_entries recovered)))) }
{
    let mut count = 0_usize;
    let mut recovered = RecoveredListing::of(alloc, searched)?;
    'members: while let Some(_) = recovered.next()? {
        if is_in_store(recovered.path()) {
            count = count.saturating_add(1);
        }
    }
    Ok(count)
}

/// Keeps an entry of the bucket `key` if it is a revision, and there are candidates.
fn keep_revision<'a>(
    revisions: &mut Vec<Revision<'a>>,
    candidates: &[Revision<'_>],
    entry: &Entry<'a>,
) -> Result<(), AllocError>
    ensures { OnOk result (KeepsRevision (map entry_of candidates.now) (shown_entry entry.now)
        (map shown_revision revisions.old.items) (map shown_revision revisions.new.items)) }
{
    if candidates.is_empty() {
        return Ok(());
    }
    if let Some(revision) = Revision::of(entry) {
        revisions.push(revision)?;
    }
    Ok(())
}

/// Adds one to a list.
fn push_to<T: Drop>(list: &mut Vec<T>, one: T) -> Result<(), NoMemory>
    ensures { OnOk result (list.new.items ≡ list.old.items ++ one ∷ []) }
{
    match list.push(one) {
        Ok(()) => Ok(()),
        Err(_) => Err(NoMemory),
    }
}
