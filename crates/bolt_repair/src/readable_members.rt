//! The members that are recovered and that etcd can read.
ghost use Rattle.std.specs.Option.{option_map};
ghost use Rattle.std.specs.Prelude.{◌≡◌, ◌↔◌, ◌<◌, [], IfOk, IfSome, List, OnErr, false};
ghost use Rattle.std.proofs.Props.{props};
ghost use Rattle.bolt_tree.specs.{Listing.Member, ShownEntries.item_view};
ghost use Rattle.bolt_recover.specs.Recovered.{ForRecovered, IsRecovered};
ghost use Rattle.bolt_recover.specs.RecoveredMembers.{recovered_left, recovered_path, recovered_work};
ghost use Rattle.bolt_repair.specs.Stripped.{GivesReadable, KeepsPath, PassesOver, ReadsRecovered, strip};

use crate::store_path::{NearPath, is_readable};
use bolt_recover::{LostAndFound, RecoveredListing};
use bolt_tree::{Item, Members, NoMemory};
use std::alloc::Global;

/// The members that are recovered of a file, without those that etcd can't read: in the bucket `key` what
/// is neither a revision nor a mark. They come after the bucket or an entry in it. The path of that is
/// kept while they are passed over, in which memory may run out.
#[derive(Drop)]
pub(crate) struct ReadableMembers<'a> {
    recovered: RecoveredListing<'a>,
    /// The path of the last member, if it is that of the bucket `key` or of an entry in it.
    near: Option<NearPath<'a>>,
    /// Whether members were passed over since.
    has_passed: bool,
    ghost same: { has_passed ≡ false → KeepsPath near (recovered_path recovered) } by { Prim.hlevel props },
}

#[tactic(auto, unfolding(crate::specs::ReadableLeft::readable_left, crate::specs::ReadableLeft::readable_path))]
impl<'a> ReadableMembers<'a> {
    ghost use Rattle.bolt_repair.specs.ReadableLeft.{readable_file, readable_left, readable_meta, readable_path};

    /// The members of a file that was searched. It needs what `RecoveredListing::of` needs.
    ///
    /// # Errors
    ///
    /// `NoMemory` if memory runs out.
    pub fn of(alloc: Global, searched: &LostAndFound<'a>) -> Result<ReadableMembers<'a>, NoMemory>
        ensures file { IfOk result (λ members. readable_file members ≡ searched.now.file.now) }
        ensures meta { IfOk result (λ members. readable_meta members ≡ searched.now.meta) }
        ensures all { IfOk result (λ members. ForRecovered searched.now.file.now searched.now.meta (λ listing.
            readable_left members listing ≡ strip false listing)) }
        ensures path { IfOk result (λ members. readable_path members ≡ []) }
    {
        let recovered = RecoveredListing::of(alloc, searched)?;
        Ok(ReadableMembers {
            recovered,
            near: None,
            has_passed: false,
        })
    }
}

#[tactic(auto, unfolding(crate::specs::ReadableLeft::readable_left, crate::specs::ReadableLeft::readable_path))]
impl<'a> Members<'a> for ReadableMembers<'a> {
    ghost use Rattle.bolt_repair.specs.ReadableLeft.{readable_file, readable_left, readable_meta, readable_path, readable_work};

    ghost Whole = { List Member };

    ghost reads = { λ members listing. IsRecovered (readable_file members) (readable_meta members) listing };

    ghost listing = { λ listing. strip false listing };

    ghost left = { λ members listing. readable_left members listing };

    ghost work_left = { λ members. readable_work members };

    ghost last_path = { λ members. readable_path members };

    ghost ends_as = { λ members end. Unit {0} };

    fn next(&mut self) -> Result<Option<Item<'a>>, NoMemory> {
        let item = next_readable(
            &mut self.recovered,
            &mut self.has_passed,
            self.near.is_some(),
        )?;
        self.near = NearPath::of(self.recovered.path());
        self.has_passed = false;
        Ok(item)
    }

    fn path(&self) -> &[&'a [u8]] {
        match &self.near {
            Some(near) if self.has_passed => near.parts(),
            _ => self.recovered.path(),
        }
    }

    fn restart(&mut self, alloc: Global) -> Result<(), NoMemory> {
        self.near = None;
        self.has_passed = false;
        self.recovered.restart(alloc)
    }
}

/// Returns the first member that is left, without those that etcd can't read if they come after the bucket
/// `key` or an entry in it. Says whether it passed over one.
fn next_readable<'a>(
    recovered: &mut RecoveredListing<'a>,
    has_passed: &mut bool,
    is_near: bool,
) -> Result<Option<Item<'a>>, NoMemory>
    ensures reads { (whole : List Member) → ReadsRecovered recovered.new whole ↔ ReadsRecovered recovered.old whole }
    ensures given { IfOk result (λ given. (whole : List Member) → ReadsRecovered recovered.old whole
        → GivesReadable is_near (recovered_left recovered.old whole) (recovered_left recovered.new whole)
        (recovered_path recovered.new) (option_map item_view given)) }
    ensures fewer { IfOk result (λ given. IfSome given (λ _. recovered_work recovered.new < recovered_work recovered.old)) }
    ensures same { OnErr result ((whole : List Member) → ReadsRecovered recovered.old whole
        → strip is_near (recovered_left recovered.new whole) ≡ strip is_near (recovered_left recovered.old whole)) }
    ensures passed { OnErr result (PassesOver is_near has_passed.old has_passed.new
        (recovered_path recovered.old) (recovered_path recovered.new)) }
{
    'rest: while let Some(item) = recovered.next()? {
        if !is_near || is_readable(recovered.path(), item) {
            return Ok(Some(item));
        }
        *has_passed = true;
    }
    Ok(None)
}
