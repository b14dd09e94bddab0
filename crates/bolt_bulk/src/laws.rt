//! A walk from its start can be copied, since it has all members of one tree. And what holds of every copy.
ghost use Rattle.std.specs.Prelude.{◌≡◌, ◌≤◌, ◌*◌, List, length};
ghost use Rattle.bolt_tree.specs.{FileListings.ForListing, Walks.left_of, Walks.walk_checked, Listing.Member, Tree.tree_of};
ghost use Rattle.bolt_bulk.specs.{WholeListings.IsWholeWalk, Private.ForFitting};
ghost use Rattle.bolt_format.specs.Metas.{IsPageSize};
ghost use Rattle.bolt_layout.specs.{Copies.IsOfOneTree, Copies.IsSoundCopy, Copies.RefusesPrefixes, Copies.layout_of_listing, Held.most_held};
ghost use Rattle.bolt_layout.specs.{Layout.layout_held, Layout.layout_high_water, Layout.layout_root, declared.Layout.Layout};

use bolt_format::laws::fits;
use bolt_layout::laws::{
    a_copy_lists_the_same, a_files_listing_is_of_one_tree, held_is_bounded, held_is_small,
    layout_has_length, prefixes_are_refused,
};
use bolt_tree::Walk;

/// A walk of which nothing was returned yet has all members of a sound file.
pub fn a_walk_is_whole(walk: &Walk<'_>)
    requires { ForListing (walk_checked walk.now) (λ listing. left_of walk.now listing ≡ listing) }
    ensures { IsWholeWalk walk.now }
{
    a_files_listing_is_of_one_tree();
}

/// The layout of a listing that is that of one tree has as many bytes as its pages. If these are fewer
/// than 2^63, it is a sound copy, its proper prefixes are refused, and no more items are held at one
/// time than it has bytes, nor than four times the page size for each part of the longest path, and as
/// much again.
pub(crate) fn a_listing_has_one_layout(page_size: u64, sequence: u64)
    requires { IsPageSize page_size }
    ensures length { (which : Layout) (listing : List Member) → ∥ IsOfOneTree listing ∥₁
        → length (layout_of_listing which page_size listing sequence) ≡ layout_high_water which page_size (tree_of listing) * page_size }
    ensures accepted { ForFitting page_size sequence
        (λ which listing. ∥ IsSoundCopy which page_size (tree_of listing) sequence listing ∥₁) }
    ensures held { ForFitting page_size sequence (λ which listing.
        layout_held which page_size (tree_of listing) ≤ length (layout_of_listing which page_size listing sequence)) }
    ensures bounded { ForFitting page_size sequence
        (λ which listing. layout_held which page_size (tree_of listing)
        ≤ most_held page_size listing) }
    ensures prefixes { ForFitting page_size sequence (λ which listing.
        ∥ RefusesPrefixes (layout_of_listing which page_size listing sequence) (layout_root which page_size (tree_of listing)) ∥₁) }
{
    fits(sequence);
    layout_has_length();
    a_copy_lists_the_same();
    prefixes_are_refused();
    held_is_bounded();
    held_is_small();
}
