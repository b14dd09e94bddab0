//! A trait for what returns the members of a listing in the order of their paths, so that a sound
//! file and what is kept of a damaged one are read by the same code.
ghost use Rattle.std.specs.Option.{IfNone, option_map};
ghost use Rattle.std.specs.Prelude.{◌≡◌, ◌↔◌, ◌<◌, ℕ, IfOk, IfSome, List, OnErr, OnOk};
ghost use Rattle.bolt_check.specs.CheckedFiles.{bytes_of, meta_of};
ghost use Rattle.bolt_tree.specs.{Listing.IsListing, Listing.Member, Paths.Path, Paths.path_of, ShownEntries.item_view};
ghost use Rattle.bolt_tree.specs.{Walks.GivesNext, Walks.left_of, Walks.walk_checked, Walks.walk_path, WalksLeft.left_number};

use crate::entry::Item;
use crate::walk::Walk;
use bolt_check::NoMemory;
use std::alloc::Global;

/// Returns the members of a listing in the order of their paths, each once. A bucket comes before
/// everything in it.
pub trait Members<'a> {
    /// What its listing depends on.
    ghost Whole: { Type 0 };

    /// Whether it reads this.
    ghost reads: { Self → Whole → Type 0 };

    /// The listing of what it reads: it returns the members of that.
    ghost listing: { Whole → List Member };

    /// The part of the listing that is left.
    ghost left: { Self → Whole → List Member };

    /// A number that falls with each member, so that loops over members end.
    ghost work_left: { Self → ℕ };

    /// The path of the last member that was returned.
    ghost last_path: { Self → Path };

    /// Whether the second can be what the first is once nothing is left.
    ghost ends_as: { Self → Self → Type 0 };

    /// Returns the first member that is left, or `None` if nothing is left; so do all later calls.
    ///
    /// # Errors
    ///
    /// `NoMemory` if memory runs out. Then the same members are left, the path is the same, and
    /// `next` may be called again.
    fn next(&mut self) -> Result<Option<Item<'a>>, NoMemory>
        ensures reads { (whole : Whole) → reads self.new whole ↔ reads self.old whole }
        ensures given { IfOk result (λ given. (whole : Whole) → reads self.old whole
            → GivesNext (left self.old whole) (left self.new whole) (last_path self.new) (option_map item_view given)) }
        ensures fewer { IfOk result (λ given. IfSome given (λ _. work_left self.new < work_left self.old)) }
        ensures ended { IfOk result (λ given. IfNone given (ends_as self.old self.new)) }
        ensures same_end { (end : Self) → ends_as self.new end → ends_as self.old end }
        ensures same { OnErr result ((whole : Whole) → reads self.old whole → left self.new whole ≡ left self.old whole) }
        ensures same_path { OnErr result (last_path self.new ≡ last_path self.old) };

    /// The path of the last member that was returned, from the root bucket down. It is empty before
    /// the first member and after the last.
    fn path(&self) -> &[&'a [u8]]
        ensures { path_of result.now ≡ last_path self.now };

    /// Begins again with the first member.
    ///
    /// # Errors
    ///
    /// `NoMemory` if memory runs out.
    fn restart(&mut self, alloc: Global) -> Result<(), NoMemory>
        ensures reads { (whole : Whole) → reads self.new whole ↔ reads self.old whole }
        ensures all { OnOk result ((whole : Whole) → reads self.old whole → left self.new whole ≡ listing whole) }
        ensures same_end { (end : Self) → ends_as self.new end → ends_as self.old end };
}

impl<'a> Members<'a> for Walk<'a> {
    ghost Whole = { List Member };

    ghost reads = { λ walk listing. IsListing (bytes_of (walk_checked walk)) (meta_of (walk_checked walk)) listing };

    ghost listing = { λ listing. listing };

    ghost left = { λ walk listing. left_of walk listing };

    ghost work_left = { λ walk. left_number walk };

    ghost last_path = { λ walk. walk_path walk };

    ghost ends_as = { λ walk end. Unit {0} };

    #[inline(always)]
    fn next(&mut self) -> Result<Option<Item<'a>>, NoMemory> {
        Walk::next(self)
    }

    fn path(&self) -> &[&'a [u8]] {
        Walk::path(self)
    }

    fn restart(&mut self, alloc: Global) -> Result<(), NoMemory> {
        *self = Walk::new(alloc, self.checked());
        Ok(())
    }
}
