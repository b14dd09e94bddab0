//! What the definitions imply.
ghost use Rattle.std.specs.Prelude.{[], ◌≡◌, ◌≤◌, ◌↔◌, ℕ, Bool, List, Some, ◌⊎◌, false, true};
ghost use Rattle.std.specs.{List.Contains};
ghost use Rattle.bolt_check.specs.{Ones.AtMostOne, Sound.HasSoundTrees};
ghost use Rattle.bolt_format.specs.{Elements.LeafElement, declared.meta.Meta.Meta};
ghost use Rattle.bolt_lemmas.specs.Order.{Rises};
ghost use Rattle.bolt_tree.specs.{Entries.EntryView, Entries.Bucket, InBuckets.entry_in, InBuckets.members_in, Listing.IsListing};
ghost use Rattle.bolt_tree.specs.{Listing.Member, Listing.member_cmp, Merges.merge, Tree.Tree, Tree.listing_of};
ghost use Rattle.bolt_etcd.specs.Wire.Revisions.{RevisionView, name_of, revision_of};
ghost use Rattle.bolt_recover.specs.{Losses.LostView, Losses.is_nothing, Lost.IsAllLost, Recovered.IsRecovered};
ghost use Rattle.bolt_repair.specs.Bounds.{IsLastOfName, IsWithinBound, LosesReported, repair_bound};
ghost use Rattle.bolt_repair.specs.{LostRevisions.LosesRevisions, FullRepairs.IsFullRepair, FullRepairs.LacksStoreValue, Readable.is_readable};
ghost use Rattle.bolt_repair.specs.{Readable.readable, Readable.unread, Repaired.ForRepaired, Repaired.IsRepaired, Repaired.Made, Repaired.MakesMeta};
ghost use Rattle.bolt_repair.specs.{Repairs.GoesBack, Repairs.meta_path, Repairs.store_path};

use bolt_etcd::laws::{
    revision_keys_are_in_the_order_of_their_numbers, revision_keys_have_one_spelling,
};
use bolt_recover::laws::{
    a_loss_is_searched_for_in_any_case, each_file_has_sought_pages, found_pages_are_one,
    recovered_listing_is_of_a_tree, sought_pages_are_one, sound_trees_lose_nothing,
    sound_trees_recover_their_listing,
};
use bolt_tree::laws::listing_is_of_a_tree;

/// A repaired listing is what a tree of buckets lists, in the order of paths.
pub fn repaired_listing_is_of_a_tree()
    ensures rises { (file : List ℕ) (meta : Meta) (search : Bool)
        → ForRepaired file meta search (Rises member_cmp) }
    ensures tree { (file : List ℕ) (meta : Meta) (search : Bool)
        → ForRepaired file meta search (λ listing.
        (tree : Tree) × (listing ≡ listing_of tree)) }
{
    recovered_listing_is_of_a_tree();
}

/// A file has at most one repaired listing.
pub fn repaired_listing_is_one()
    ensures { (file : List ℕ) (meta : Meta) (search : Bool)
        → AtMostOne (IsRepaired file meta search) }
{
    sought_pages_are_one();
}

/// Each file has a repaired listing, if the recovered listing has no value under the name of the bucket
/// `key`. So it also has all that goes back, and the number of the other keys of candidates.
pub fn each_file_has_a_repaired_listing()
    ensures listing { (file : List ℕ) (meta : Meta) (search : Bool) (recovered : List Member)
        → IsRecovered file meta recovered → LacksStoreValue recovered
        → (listing : List Member) × IsRepaired file meta search listing }
    ensures repair { (file : List ℕ) (meta : Meta) (search : Bool) (recovered : List Member)
        → IsRecovered file meta recovered → LacksStoreValue recovered
        → (back : List EntryView) × (made : Made) × (left_out : ℕ)
        × IsFullRepair file meta search back made left_out }
{
    each_file_has_sought_pages();
}

/// The repaired listing of sound trees is what etcd can read of their listing, with an empty bucket
/// `meta` if nothing is under its name.
pub fn sound_trees_put_nothing_back()
    ensures { (file : List ℕ) (meta : Meta) (listing repaired : List Member)
        → HasSoundTrees file meta → IsListing file meta listing
        → IsRepaired file meta false repaired
        → (is_made : Bool) × MakesMeta listing is_made
        × (repaired ≡ merge (readable listing) (members_in is_made meta_path [])) }
{
    sound_trees_lose_nothing();
    sound_trees_recover_their_listing();
}

/// If something is lost, a repair that looks for pages in any case is the same.
pub fn a_search_changes_nothing_if_something_is_lost()
    ensures { (file : List ℕ) (meta : Meta) (lost : LostView) (listing : List Member)
        → IsAllLost file meta lost → is_nothing lost ≡ false
        → IsRepaired file meta false listing ↔ IsRepaired file meta true listing }
{
    a_loss_is_searched_for_in_any_case();
    sought_pages_are_one();
    each_file_has_sought_pages();
}

/// Repairing a copy again changes nothing.
pub fn a_repaired_listing_stays()
    ensures { (file copy : List ℕ) (meta under : Meta) (search : Bool)
        (listing again : List Member)
        → IsRepaired file meta search listing → HasSoundTrees copy under
        → IsListing copy under listing → IsRepaired copy under false again → again ≡ listing }
{
    sound_trees_put_nothing_back();
}

/// Everything that is recovered and that etcd can read is in the repaired listing. Each other member is
/// the bucket `key`, or an entry of it that goes back, or the bucket `meta`.
pub fn repaired_members_are_kept_or_back()
    ensures kept { (file : List ℕ) (meta : Meta) (search : Bool) (listing recovered : List Member)
        (m : Member) → IsRepaired file meta search listing → IsRecovered file meta recovered
        → Contains recovered m → is_readable m.0 m.1 ≡ true → Contains listing m }
    ensures back { (file : List ℕ) (meta : Meta) (search : Bool) (listing recovered : List Member)
        (m : Member) → (is : IsRepaired file meta search listing) → IsRecovered file meta recovered
        → Contains listing m → (Contains recovered m × (is_readable m.0 m.1 ≡ true))
        ⊎ (((m ≡ (store_path, Bucket 0)) ⊎ ((e : EntryView) × Contains is.back e
        × (m ≡ entry_in store_path e))) ⊎ (m ≡ (meta_path, Bucket 0))) }
{}

/// A whole store was in a file, and but for what is reported its entries are recovered. What the repaired
/// listing lacks of its revisions isn't above the bound of what is reported. So if the last revision of a
/// name in the repaired listing is above the bound, the whole store had no later one of that name.
pub fn what_is_lacking_is_within_the_bound()
    ensures lacking { (file : List ℕ) (meta : Meta) (search : Bool) (whole recovered listing : List Member)
        (lost : LostView) (is_older : Bool)
        → IsRecovered file meta recovered → IsRepaired file meta search listing
        → LosesReported whole recovered lost is_older → (e : EntryView) (r : RevisionView)
        → Contains whole (entry_in store_path e) → revision_of e ≡ Some r
        → (Contains listing (entry_in store_path e) → ⊥)
        → IsWithinBound (repair_bound lost (unread recovered) is_older) r.key.main }
    ensures last { (file : List ℕ) (meta : Meta) (search : Bool) (whole recovered listing : List Member)
        (lost : LostView) (is_older : Bool)
        → IsRecovered file meta recovered → IsRepaired file meta search listing
        → LosesReported whole recovered lost is_older
        → (last : RevisionView) → IsLastOfName listing last
        → (IsWithinBound (repair_bound lost (unread recovered) is_older) last.key.main → ⊥)
        → IsLastOfName whole last }
{
    revision_keys_have_one_spelling();
    revision_keys_are_in_the_order_of_their_numbers();
}

/// Of a name at most one revision up to the last compaction goes back.
pub fn at_most_one_of_a_name_goes_back()
    ensures { (compacted : ℕ) (recovered : List Member) (found : List LeafElement)
        (a b : EntryView) → (x : GoesBack compacted recovered found a)
        → (y : GoesBack compacted recovered found b) → name_of x.0 ≡ name_of y.0
        → x.0.key.main ≤ compacted → y.0.key.main ≤ compacted → a ≡ b }
{}

/// If a compacted store, which has something under `meta`, loses revisions alone, and exactly these are
/// found, the repaired listing is the listing before.
pub fn a_compacted_store_comes_back()
    ensures { (file : List ℕ) (meta : Meta) (listing : List Member)
        → LosesRevisions file meta listing
        → ForRepaired file meta false (λ repaired. repaired ≡ listing) }
{
    listing_is_of_a_tree();
    found_pages_are_one();
    repaired_listing_is_of_a_tree();
}
