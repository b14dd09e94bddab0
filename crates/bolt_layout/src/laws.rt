//! What holds of the layout of a tree: docs/LAYOUT.md, "What holds of both layouts".
ghost use Rattle.std.specs.Prelude.{◌≡◌, ◌≤◌, ◌<◌, ◌*◌, ◌^◌, ℕ, List, [], None, length};
ghost use Rattle.std.specs.List.{AllByRecursion};
ghost use Rattle.bolt_format.specs.{Elements.IsBucketValue, Elements.head_root, Gaps.inline_gap, Gaps.page_gap};
ghost use Rattle.bolt_format.specs.{Elements.BranchElement, Elements.LeafElement, Bytes.IsBytes, Metas.IsPageSize, declared.meta.Meta.Meta};
ghost use Rattle.bolt_format.specs.{declared.meta.Slot.TheVariants.One};
ghost use Rattle.bolt_check.specs.{BboltFileFindings.file_findings, Sound.HasSoundTrees};
ghost use Rattle.bolt_tree.specs.{Entries.IsEntry, Entries.Item, Entries.Root_page, Listing.IsListing, Listing.Member, Paths.Holds, Paths.Path};
ghost use Rattle.bolt_tree.specs.Tree.{IsTreeOf, Tree, listing_of, tree_of};
ghost use Rattle.bolt_layout.specs.AsWritten.{IsAsWritten, IsInlineAsWritten, IsPageAsWritten};
ghost use Rattle.bolt_layout.specs.{Copies.ForAsked, Copies.ForStorable, Copies.IsAsked, Copies.IsOfOneTree, Copies.IsSoundCopy};
ghost use Rattle.bolt_layout.specs.{Copies.RefusesPrefixes, Copies.layout_of_listing, Cut.CutIsOne};
ghost use Rattle.bolt_layout.specs.{ForBbolt.ForBboltFindings, ForBbolt.ForLayoutFindings, ForBbolt.IsOfLayout, ForBbolt.IsOneChild, Held.most_held};
ghost use Rattle.bolt_layout.specs.{Laid.Laid};
ghost use Rattle.bolt_layout.specs.Layout.{HasTwoIfBranch, layout_held, layout_high_water, layout_meta, layout_of, layout_pages, layout_root};
ghost use Rattle.bolt_layout.specs.{NoGaps.HasNoGaps, Levels.IsOverflow, Levels.TopIsAbove, Levels.overflow_of, Storable.IsFitListing};
ghost use Rattle.bolt_layout.specs.{Storable.IsFitMember, Storable.IsStorable};
ghost use Rattle.bolt_layout.specs.{declared.Layout.Layout, declared.Layout.TheVariants.Balanced};

use bolt_check::laws::sound_trees_pass_the_tests;
use bolt_tree::laws::{a_tree_is_of_its_listing, a_tree_lists_its_bucket, listing_is_of_a_tree};

/// The layout of a tree is a sound file, and its listing is that of the tree, if the layout has
/// fewer than 2^63 bytes.
pub fn layout_is_sound()
    ensures { ForAsked (λ which page_size tree sequence.
        IsSoundCopy which page_size tree sequence (listing_of tree)) }
{
    sound_trees_pass_the_tests();
    a_tree_lists_its_bucket();
}

/// The length of a layout is that of its pages.
pub fn layout_has_length()
    ensures { ForStorable (λ which page_size tree file.
        length file ≡ layout_high_water which page_size tree * page_size) }
{}

/// While the pages of a layout are written, the number of items that are held at one time is at most
/// four times the page size for each part of the listing's longest path, and as much again, if the
/// layout has fewer than 2^63 bytes.
pub fn held_is_bounded()
    ensures { ForStorable (λ which page_size tree file.
        length file < 2 ^ 63
        → layout_held which page_size tree ≤ most_held page_size (listing_of tree)) }
{}

/// At most as many items are held as the layout has bytes.
pub fn held_is_small()
    ensures { ForStorable (λ which page_size tree file.
        length file < 2 ^ 63 → layout_held which page_size tree ≤ length file) }
{}

/// No branch page of a balanced layout has fewer than two elements.
pub fn balanced_branches_have_two()
    ensures { (page_size : ℕ) (tree : Tree)
        → AllByRecursion HasTwoIfBranch (layout_pages Balanced page_size tree) }
{}

/// Under the active meta of a layout nothing is found in the file as a whole that bbolt fails on.
pub fn layouts_are_taken_by_bbolt()
    ensures { ForAsked (λ which page_size tree sequence.
        file_findings (layout_of which page_size tree sequence)
        One (layout_meta which page_size tree sequence 1) ≡ []) }
{}

/// If no value is in the root bucket or under a key of more than 32,768 bytes, the balanced layout of a
/// listing has nothing on its ways that bbolt fails on, and the plain one has branches of one child
/// alone.
pub fn layouts_are_for_bbolt()
    ensures balanced { ForBboltFindings (λ which findings. which ≡ Balanced → findings ≡ []) }
    ensures plain { ForBboltFindings (λ which findings. AllByRecursion IsOneChild findings) }
{
    sound_trees_pass_the_tests();
}

/// What bbolt fails on along the ways of a layout, its listing brings: values in the root bucket, and
/// values under keys of more than 32,768 bytes. The plain layout adds branches of one child.
pub fn layouts_fail_on_what_they_hold()
    ensures { ForLayoutFindings (λ which listing findings. AllByRecursion (IsOfLayout which) findings) }
{
    sound_trees_pass_the_tests();
}

/// No page of a layout has a gap: each is as bbolt writes it.
pub fn layouts_have_no_gaps()
    ensures { ForAsked (λ which page_size tree sequence.
        HasNoGaps (layout_of which page_size tree sequence)
        (layout_meta which page_size tree sequence 1)) }
{
    sound_trees_pass_the_tests();
}

/// A page without a gap is what is written for its elements, whatever follows their data: its header, the
/// headers of its elements, and their data. So is the page of an inline bucket, but for the number and
/// the overflow in its header, which may be any. In a file of sound trees without a gap each page of the
/// trees is so.
pub fn pages_without_gaps_are_as_written()
    ensures page { (file : List ℕ) (meta : Meta) (id : ℕ) → IsBytes file
        → IsPageSize meta.page_size → page_gap file meta id ≡ None
        → IsPageAsWritten file meta id }
    ensures inline { (value : List ℕ) → IsBytes value → IsBucketValue value → head_root value ≡ 0
        → inline_gap value ≡ None → IsInlineAsWritten value }
    ensures file { (file : List ℕ) (meta : Meta) → IsBytes file → IsPageSize meta.page_size
        → HasSoundTrees file meta → HasNoGaps file meta → IsAsWritten file meta }
{}

/// A layout that is cut short anywhere is refused.
pub fn prefixes_are_refused()
    ensures { ForAsked (λ which page_size tree sequence.
        RefusesPrefixes (layout_of which page_size tree sequence)
        (layout_root which page_size tree)) }
{}

/// There is one cut of each row of items.
pub fn cut_is_one()
    ensures leaves { CutIsOne (Laid LeafElement) }
    ensures branches { CutIsOne (Laid BranchElement) }
{}

/// If a level has more than one page, the top page is that of the next level.
pub fn top_is_above()
    ensures { TopIsAbove }
{}

/// A page has as many further pages as it needs, and no more.
pub fn overflow_is_least()
    ensures { (page_size size : ℕ) → 1 ≤ page_size → 1 ≤ size
        → IsOverflow page_size size (overflow_of page_size size) }
{}

/// The tree of a file's root bucket can be stored.
pub fn a_files_tree_can_be_stored()
    ensures { (file : List ℕ) (meta : Meta) (tree : Tree) → IsBytes file
        → IsTreeOf (IsEntry file meta) (Root_page meta.root) tree → IsStorable tree }
{
    a_tree_lists_its_bucket();
}

/// The format can hold each member that a file holds.
pub fn held_members_fit()
    ensures { (file : List ℕ) (meta : Meta) (path : Path) (item : Item) → IsBytes file
        → Holds (IsEntry file meta) (Root_page meta.root) path item → IsFitMember path item }
{}

/// A listing of members that the format can hold is that of one tree, which can be stored. So it has
/// one layout at each page size.
pub fn a_fit_listing_is_of_one_tree()
    ensures { (listing : List Member) → IsFitListing listing → IsOfOneTree listing }
{
    a_tree_is_of_its_listing();
}

/// The listing of a file with sound trees is that of one tree, which can be stored.
pub fn a_files_listing_is_of_one_tree()
    ensures { (file : List ℕ) (meta : Meta) (all : List Member) → IsBytes file
        → HasSoundTrees file meta
        → IsListing file meta all → IsOfOneTree all }
{
    listing_is_of_a_tree();
    a_fit_listing_is_of_one_tree();
}

/// The layout of such a listing is a sound file, and has the same listing, if it has fewer than 2^63
/// bytes.
pub fn a_copy_lists_the_same()
    ensures { (which : Layout) (listing : List Member) (page_size : ℕ) (sequence : ℕ)
        → IsOfOneTree listing
        → IsPageSize page_size → sequence < 2 ^ 64
        → length (layout_of_listing which page_size listing sequence) < 2 ^ 63
        → IsSoundCopy which page_size (tree_of listing) sequence listing }
{
    layout_is_sound();
}
