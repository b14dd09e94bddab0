//! Values on found pages that may go back.
ghost use Rattle.std.specs.Prelude.{◌≡◌, ◌++◌, ◌↔◌, IfOk, IsTrue, OnOk, length, map, true};
ghost use Rattle.std.specs.{Option.option_map, Ordering.is_lt};
ghost use Rattle.bolt_format.specs.{ElementPlaces.leaf_view, Elements.IsBucketValue, ElementsLeft.leaves_left};
ghost use Rattle.bolt_check.specs.{Counts.counted, Keys.key_cmp};
ghost use Rattle.bolt_lemmas.specs.Order.{Rises};
ghost use Rattle.bolt_tree.specs.Entries.{entry_view};
ghost use Rattle.bolt_repair.specs.{Candidates.AreCandidates, Candidates.HasKey, Candidates.candidates_in, Candidates.found_elements};
ghost use Rattle.bolt_repair.specs.{Candidates.candidate_at, Candidates.is_same_entry, Candidates.under_revision_keys, Candidates.whole_cmp};
ghost use Rattle.bolt_repair.specs.{Keyed.HaveLesserKeys};
ghost use Rattle.bolt_etcd.specs.Wire.ShownRevisions.{entry_of};

use bolt_etcd::{Revision, RevisionKey};
use bolt_format::{Leaf, Leaves};
use bolt_recover::FoundPage;
use bolt_tree::{Entry, Item, NoMemory};
use std::alloc::{AllocError, Global};
use std::cmp::Ordering;

/// The values on found pages that are revisions with records of their own transactions, by rising key,
/// and of one key by rising value, each once. Goes over all found elements twice. Needs 56 bytes for
/// each under a revision key.
pub(crate) fn candidates_of<'a>(
    alloc: Global,
    found: &[FoundPage<'a>],
) -> Result<Vec<Revision<'a>>, NoMemory>
    ensures { IfOk result (λ candidates.
        AreCandidates (found_elements found.now) (map entry_of candidates.items)) }
{
    let mut candidates = collect(alloc, found)?;
    candidates.sort_unstable_by(by_key_and_value);
    candidates.dedup_by(|later, first| is_same(later, first));
    Ok(candidates)
}

/// The candidates on all pages, page by page.
fn collect<'a>(alloc: Global, found: &[FoundPage<'a>]) -> Result<Vec<Revision<'a>>, NoMemory>
    ensures { IfOk result (λ all.
        map entry_of all.items ≡ candidates_in (found_elements found.now)) }
{
    let mut candidates = Vec::with_capacity(alloc, count_candidates(found))?;
    'rest: for page in found {
        add_page(&mut candidates, page.page.elements())?;
    }
    Ok(candidates)
}

/// Adds those on one page.
fn add_page<'a>(candidates: &mut Vec<Revision<'a>>, elements: Leaves<'a>) -> Result<(), AllocError>
    ensures { OnOk result (map entry_of candidates.new.items
        ≡ map entry_of candidates.old.items ++ candidates_in (leaves_left elements.entry)) }
{
    for leaf in elements {
        if let Some(candidate) = candidate_at(&leaf) {
            candidates.push(candidate)?;
        }
    }
    Ok(())
}

/// The element of a leaf page as a candidate, if it is one.
fn candidate_at<'a>(leaf: &Leaf<'a>) -> Option<Revision<'a>>
    requires { IsTrue leaf.now.is_bucket → IsBucketValue leaf.now.value.now }
    ensures { option_map entry_of result ≡ candidate_at (entry_view (leaf_view leaf.now)) }
{
    let revision = Revision::of(&Entry {
        key: leaf.key,
        item: Item::of(leaf),
    })?;
    (!revision.is_misplaced()).then_some(revision)
}

/// The number of elements on all pages that are under revision keys, as candidates are.
fn count_candidates(found: &[FoundPage<'_>]) -> usize
    ensures { result ≡ counted 0 (length (under_revision_keys (found_elements found.now))) }
{
    let mut n = 0_usize;
    'rest: for page in found {
        n = n.saturating_add(count_on(page.page.elements()));
    }
    n
}

/// The number of those on one page.
fn count_on(elements: Leaves<'_>) -> usize
    ensures { result ≡ counted 0 (length (under_revision_keys (leaves_left elements.entry))) }
{
    let mut n = 0_usize;
    for leaf in elements {
        if RevisionKey::read(leaf.key).is_some() {
            n = n.saturating_add(1);
        }
    }
    n
}

fn by_key_and_value(a: &Revision<'_>, b: &Revision<'_>) -> Ordering
    ensures { result ≡ whole_cmp (entry_of a.now) (entry_of b.now) }
{
    match a.cmp_stored_key(b) {
        Ordering::Equal => a.value().cmp(b.value()),
        order => order,
    }
}

fn is_same(a: &Revision<'_>, b: &Revision<'_>) -> bool
    ensures { result ≡ is_same_entry (entry_of a.now) (entry_of b.now) }
{
    a.stored_key() == b.stored_key() && a.value() == b.value()
}

/// Whether a candidate with this key is among these, by rising key. Looks on from the place where the
/// last key was looked up, so keys that rise are looked up in one walk over the candidates.
pub(crate) fn has_candidate(candidates: &[Revision<'_>], at: &mut usize, key: &[u8]) -> bool
    requires { Rises whole_cmp (map entry_of candidates.now) }
    ensures { (result ≡ true) ↔ HasKey (map entry_of candidates.now) key.now }
{
    let mut i = start(candidates, *at, key);
    while i < candidates.len() && is_under_lesser_key(&candidates[i], key) {
        i += 1;
    }
    *at = i;
    i < candidates.len() && candidates[i].stored_key() == key
}

/// A place before which all candidates have lesser keys: this one, if it is one.
fn start(candidates: &[Revision<'_>], at: usize, key: &[u8]) -> usize
    requires { Rises whole_cmp (map entry_of candidates.now) }
    ensures { HaveLesserKeys key.now candidates.now result }
{
    if 0 < at && at <= candidates.len() && is_under_lesser_key(&candidates[at - 1], key) {
        at
    } else {
        0
    }
}

fn is_under_lesser_key(candidate: &Revision<'_>, key: &[u8]) -> bool
    ensures { result ≡ is_lt (key_cmp (entry_of candidate.now).key key.now) }
{
    candidate.stored_key().cmp(key).is_lt()
}
