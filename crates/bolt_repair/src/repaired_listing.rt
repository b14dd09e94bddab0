//! The members of the repaired listing: those that are recovered and can be read, merged with what goes
//! back and with the bucket `meta` if it is made.
ghost use Rattle.std.specs.Prelude.{◌≡◌, [], IfOk, List};
ghost use Rattle.bolt_repair.specs.{RepairedMerges.ReadsRepaired, Repaired.IsRepaired};
ghost use Rattle.bolt_tree.specs.Listing.{Member};

use crate::put_back::PutBack;
use crate::readable_members::ReadableMembers;
use crate::repair::Repair;
use bolt_check::NoMemory;
use bolt_etcd::{KEY_BUCKET, META_BUCKET, Revision};
use bolt_recover::laws::{
    recovered_listing_is_of_a_tree, sought_pages_are_one, the_recovered_listing_is_recovered,
};
use bolt_tree::{Item, Members, Merged};
use std::alloc::Global;

/// The members of the repaired listing of a file, in the order of paths (docs/RECOVERY.md, "The
/// repaired listing"): those that are recovered and that etcd can read, in the bucket `key` what goes
/// back, and the bucket `meta` if it is made. A member costs constant work, and no memory beyond that
/// of the recovery.
#[derive(Drop)]
pub struct RepairedListing<'a> {
    members: Merged<'a, Merged<'a, ReadableMembers<'a>, PutBack<'a>>, PutBack<'a>>,
    repair: &'a Repair<'a>,
    ghost reads: { ∥ ReadsRepaired members repair.now ∥₁ },
}

#[tactic(auto, unfolding(crate::specs::RepairedMembers::repaired_viewers))]
impl<'a> RepairedListing<'a> {
    ghost use Rattle.bolt_repair.specs.Repaired.{ForRepaired};
    ghost use Rattle.bolt_repair.specs.RepairedMembers.{repair_file, repair_meta, repair_search, repaired_file, repaired_left, repaired_meta};
    ghost use Rattle.bolt_repair.specs.RepairedMembers.{repaired_path, repaired_search};

    /// The members of the repaired listing of the file that was searched. It needs what `RecoveredListing::of`
    /// needs, and room for two paths.
    ///
    /// # Errors
    ///
    /// `NoMemory` if memory runs out.
    pub fn new(alloc: Global, repair: &'a Repair<'a>) -> Result<RepairedListing<'a>, NoMemory>
        ensures file { IfOk result (λ repaired. repaired_file repaired ≡ repair_file repair.now) }
        ensures meta { IfOk result (λ repaired. repaired_meta repaired ≡ repair_meta repair.now) }
        ensures search { IfOk result (λ repaired. repaired_search repaired ≡ repair_search repair.now) }
        ensures all { IfOk result (λ repaired.
            ForRepaired (repair_file repair.now) (repair_meta repair.now) (repair_search repair.now)
            (λ listing. repaired_left repaired listing ≡ listing)) }
        ensures path { IfOk result (λ repaired. repaired_path repaired ≡ []) }
    {
        sought_pages_are_one();
        recovered_listing_is_of_a_tree();
        the_recovered_listing_is_recovered();
        let readable = ReadableMembers::of(alloc, repair.searched)?;
        let back = PutBack::new(alloc, &[KEY_BUCKET], repair.is_made, repair.back.as_slice())?;
        let nothing: &'a [Revision<'a>] = &[];
        let meta = PutBack::new(alloc, &[META_BUCKET], repair.makes_meta, nothing)?;
        Ok(RepairedListing {
            members: Merged::new(Merged::new(readable, back), meta),
            repair,
        })
    }
}

#[tactic(auto, unfolding(crate::specs::RepairedMembers::repaired_viewers))]
impl<'a> Members<'a> for RepairedListing<'a> {
    ghost use Rattle.bolt_repair.specs.RepairedMembers.{repaired_file, repaired_left, repaired_meta, repaired_path, repaired_search, repaired_work};

    ghost Whole = { List Member };

    ghost reads = { λ repaired listing. IsRepaired (repaired_file repaired) (repaired_meta repaired) (repaired_search repaired) listing };

    ghost listing = { λ listing. listing };

    ghost left = { λ repaired listing. repaired_left repaired listing };

    ghost work_left = { λ repaired. repaired_work repaired };

    ghost last_path = { λ repaired. repaired_path repaired };

    ghost ends_as = { λ repaired end. Unit {0} };

    #[inline(always)]
    fn next(&mut self) -> Result<Option<Item<'a>>, NoMemory> {
        self.members.next()
    }

    #[inline(always)]
    fn path(&self) -> &[&'a [u8]] {
        self.members.path()
    }

    fn restart(&mut self, alloc: Global) -> Result<(), NoMemory> {
        sought_pages_are_one();
        recovered_listing_is_of_a_tree();
        the_recovered_listing_is_recovered();
        self.members.restart(alloc)
    }
}
