//! A walk over everything in a file (docs/LISTING.md, "The walk").
ghost use Rattle.std.specs.Prelude.{◌≡◌, [], IfOk, OnErr};
ghost use Rattle.bolt_tree.specs.{Listing.rest_from, Private.OpenBuckets.IsAhead, Private.OpenBuckets.IsInPlace};

use crate::entry::Item;
use crate::open_buckets::{OpenBuckets, WalkStep};
use bolt_check::{Checked, NoMemory};
use std::alloc::Global;

/// A walk over everything in a file, in the order of paths: each value and each bucket once, a
/// bucket before everything in it. It keeps its position in each open bucket, and isn't recursive.
#[derive(Drop)]
pub struct Walk<'a> {
    buckets: OpenBuckets<'a>,
    ahead: WalkStep<'a>,
    ghost placed: { ∥ IsInPlace buckets × IsAhead buckets ahead ∥₁ },
}

#[tactic(auto, unfolding(crate::specs::Walks::left_of, crate::specs::Walks::walk_checked, crate::specs::Walks::walk_path))]
impl<'a> Walk<'a> {
    ghost use Rattle.bolt_tree.specs.{FileListings.ForListing, Paths.path_of, Walks.GivesItem, Walks.HasSameLeft, Walks.left_of, Walks.walk_checked};
    ghost use Rattle.bolt_tree.specs.{Walks.walk_path};

    /// A walk that has the whole listing ahead of it. Needs no memory.
    pub fn new(alloc: Global, checked: Checked<'a>) -> Walk<'a>
        ensures checked { walk_checked result ≡ checked.entry }
        ensures all { ForListing checked.entry (λ listing. left_of result listing ≡ listing) }
        ensures path { walk_path result ≡ [] }
    {
        Walk {
            buckets: OpenBuckets::new(alloc, checked),
            ahead: WalkStep::Begin,
        }
    }

    /// A walk that has the rest of the listing from a path on ahead of it: everything that doesn't
    /// come before that path. The path may be in the tree or not. From the empty path that is the
    /// whole listing.
    ///
    /// # Errors
    ///
    /// `NoMemory` if memory runs out for the buckets that it opens on the way.
    pub fn from(alloc: Global, checked: Checked<'a>, path: &[&[u8]]) -> Result<Walk<'a>, NoMemory>
        ensures checked { IfOk result (λ walk. walk_checked walk ≡ checked.entry) }
        ensures rest { IfOk result (λ walk. ForListing checked.entry (λ listing. left_of walk listing ≡ rest_from (path_of path.now) listing)) }
        ensures path { IfOk result (λ walk. walk_path walk ≡ []) }
    {
        let mut buckets = OpenBuckets::new(alloc, checked);
        let ahead = buckets.seek(path)?;
        Ok(Walk { buckets, ahead })
    }

    /// Returns the next item, or `None` if nothing is left; so do all later calls.
    ///
    /// # Errors
    ///
    /// `NoMemory` if memory runs out for one more open bucket. The walk then has the same ahead of
    /// it and returns the same path, and `next` may be called again.
    #[inline(always)]
    pub fn next(&mut self) -> Result<Option<Item<'a>>, NoMemory>
        ensures checked { walk_checked self.new ≡ walk_checked self.old }
        ensures given { IfOk result (GivesItem self.old self.new) }
        ensures same { OnErr result (HasSameLeft self.old self.new) }
        ensures same_path { OnErr result (walk_path self.new ≡ walk_path self.old) }
    {
        match self.buckets.advance(self.ahead)? {
            Some(leaf) => {
                self.ahead = self.buckets.after(&leaf);
                Ok(Some(Item::of(&leaf)))
            }
            None => {
                self.ahead = WalkStep::Leave;
                Ok(None)
            }
        }
    }

    /// The file that is walked.
    pub fn checked(&self) -> Checked<'a>
        ensures { result ≡ walk_checked self.now }
    {
        self.buckets.checked
    }

    /// The path of the last item that was returned, from the root bucket down. It is empty before
    /// the first item and after the last.
    pub fn path(&self) -> &[&'a [u8]]
        ensures { path_of result.now ≡ walk_path self.now }
    {
        match self.ahead {
            WalkStep::Give(_) => &[],
            WalkStep::Begin | WalkStep::Enter(_) | WalkStep::Leave => self.buckets.path.as_slice(),
        }
    }
}
