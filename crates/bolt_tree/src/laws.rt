//! What the definitions of a bucket's entries and of its pages imply.
ghost use Rattle.std.specs.Prelude.{◌≡◌, ◌≢◌, ◌↔◌, ◌⊎◌, ℕ, List, ◌∷◌, []};
ghost use Rattle.std.specs.List.{Contains, take_while};
ghost use Rattle.bolt_format.specs.{Elements.LeafElement, Elements.head_root, Elements.inline_elements, declared.meta.Meta.Meta};
ghost use Rattle.bolt_check.specs.{Ones.AtMostOne, Sound.HasSoundTrees};
ghost use Rattle.bolt_tree.specs.Entries.{AreEntries, Inline_page, IsEntry, IsStart, Item, Root_page, Start};
ghost use Rattle.bolt_tree.specs.Laws.{ForBucketElements, ForBuckets, ForListings, ForBucketEntries, SeeksAreBounded, SeeksAreCounted};
ghost use Rattle.bolt_tree.specs.{Listing.IsListing, Listing.Lists, Listing.Member, Listing.member_cmp, Listing.rest_from};
ghost use Rattle.bolt_tree.specs.{OpeningCounts.GapsCoverAll};
ghost use Rattle.bolt_tree.specs.{Tree.IsTreeOf, Tree.Tree, Tree.listing_of, Tree.tree_of, ListingParts.begins_with, ListingParts.part_below};
ghost use Rattle.bolt_lemmas.specs.Order.{Rises};
ghost use Rattle.bolt_tree.specs.Paths.{Path};
ghost use Rattle.bolt_tree.specs.Merges.{AreApart, HaveParents, merge};

use bolt_check::laws::ways_go_on;

/// The tree of the root bucket begins at the meta's root page. The tree of a bucket on a leaf that
/// a way leads to begins at its own root page or, if it is inline, in its value.
pub fn buckets_begin_on_ways()
    ensures root { (file : List ℕ) (meta : Meta) → IsStart file meta (Root_page meta.root) }
    ensures page { ForBucketElements (λ file meta e. head_root e.value ≢ 0 → IsStart file meta (Root_page (head_root e.value))) }
    ensures inline { ForBucketElements
        (λ file meta e. head_root e.value ≡ 0 → IsStart file meta (Inline_page (inline_elements e.value))) }
{
    ways_go_on();
}

/// Each bucket of a sound tree has its entries in order.
#[tactic(auto, using(crate::proofs::RisingEntries::entries_exist))]
pub fn entries_exist()
    ensures { ForBuckets (λ file meta start. (entries : List LeafElement) × AreEntries (IsEntry file meta) start entries) }
{}

/// There is at most one list of the entries of a bucket in order.
pub fn entries_are_one()
    ensures { (file : List ℕ) (meta : Meta) (start : Start) → AtMostOne (AreEntries (IsEntry file meta) start) }
{}

/// The pages between each entry and the next have a number, and so have those before the first and
/// after the last. These numbers add up to that of all pages of the bucket.
pub fn gaps_cover_all()
    ensures { ForBucketEntries GapsCoverAll }
{}

/// There is a number of pages that a seek of a key opens.
pub fn seeks_are_counted()
    ensures { ForBucketEntries SeeksAreCounted }
{}

/// A seek opens at most the 64 pages of the longest way down, and the pages between the entry that
/// it comes to and the preceding one.
pub fn seeks_are_bounded()
    ensures { ForBucketEntries SeeksAreBounded }
{}

/// A file has at most one listing.
pub fn listing_is_one()
    ensures { (file : List ℕ) (meta : Meta) → AtMostOne (IsListing file meta) }
{}

/// A file with sound trees has a listing.
#[tactic(auto, using(crate::proofs::Existing::has_listing))]
pub fn sound_trees_have_a_listing()
    ensures { (file : List ℕ) (meta : Meta) → HasSoundTrees file meta → (listing : List Member) × IsListing file meta listing }
{}

/// The listing of a file with sound trees is what the tree of its root bucket lists.
#[tactic(auto, using(crate::proofs::Existing::listing_tree))]
pub fn listing_is_of_a_tree()
    ensures { ForListings (λ file meta listing. (tree : Tree) × IsTreeOf (IsEntry file meta) (Root_page meta.root) tree
        × (listing ≡ listing_of tree)) }
{}

/// What a bucket's tree lists is the listing of the bucket.
pub fn a_tree_lists_its_bucket()
    ensures { (file : List ℕ) (meta : Meta) (bucket : Start) (tree : Tree) → IsTreeOf (IsEntry file meta) bucket tree
        → Lists (IsEntry file meta) bucket (listing_of tree) }
{}

/// The tree of a listing can be computed from the listing.
#[tactic(auto, using(crate::proofs::ReadBack::tree_back))]
pub fn a_tree_is_of_its_listing()
    ensures { (tree : Tree) → tree_of (listing_of tree) ≡ tree }
{}

/// A file's listing is that of the tree that is computed from it.
#[tactic(auto, using(crate::proofs::Existing::listing_back))]
pub fn a_listing_is_of_its_tree()
    ensures { ForListings (λ file meta listing. listing_of (tree_of listing) ≡ listing) }
{}

/// The part below the empty path is the whole listing.
#[tactic(auto, using(crate::proofs::PartLemmas::part_of_root))]
pub fn all_is_below_the_root()
    ensures { (listing : List Member) → part_below [] listing ≡ listing }
{}

/// The members of a part stand together: they come first in the rest of the listing from the path.
#[tactic(auto, using(crate::proofs::PartLemmas::part_together))]
pub fn a_part_stands_together()
    ensures { (below : Path) (listing : List Member) → Rises member_cmp listing
        → part_below below listing ≡ take_while (λ m. begins_with below m.0) (rest_from below listing) }
{}

/// The rest of a part is the part of the rest.
#[tactic(auto, using(crate::proofs::PartLemmas::rest_of_part))]
pub fn the_rest_of_a_part_is_a_part()
    ensures { (below from : Path) (listing : List Member) → rest_from from (part_below below listing) ≡ part_below below (rest_from from listing) }
{}

/// The member at a path comes first in the part below that path.
#[tactic(auto, using(crate::proofs::PartLemmas::member_first))]
pub fn the_member_at_a_path_is_first_below_it()
    ensures { (below : Path) (item : Item) (listing : List Member) → Rises member_cmp listing → Contains listing (below, item)
        → (rest : List Member) × (part_below below listing ≡ (below, item) ∷ rest) }
{}

/// A merge has the members of both listings, and no others.
pub fn merged_members_are_of_both()
    ensures { (xs ys : List Member) (m : Member) → Contains (merge xs ys) m ↔ (Contains xs m ⊎ Contains ys m) }
{}

/// A merge of two listings in the order of paths is in that order, if no path is in both.
#[tactic(auto, using(crate::proofs::MergeLemmas::merge_rises))]
pub fn merged_members_rise()
    ensures { (xs ys : List Member) → Rises member_cmp xs → Rises member_cmp ys → AreApart xs ys → Rises member_cmp (merge xs ys) }
{}

/// Each member of a merge has a parent, if those of the first have theirs there, and those of the
/// second have theirs in the merge.
#[tactic(auto, using(crate::proofs::MergeLemmas::merge_parents))]
pub fn merged_members_have_parents()
    ensures { (xs ys : List Member) → HaveParents xs xs → HaveParents (merge xs ys) ys → HaveParents (merge xs ys) (merge xs ys) }
{}

/// What is in the order of paths is what a tree lists, if each member has a parent.
#[tactic(auto, using(crate::proofs::ParentedTrees::parented_tree))]
pub fn members_with_parents_are_of_a_tree()
    ensures { (listing : List Member) → Rises member_cmp listing → HaveParents listing listing → listing_of (tree_of listing) ≡ listing }
{}
