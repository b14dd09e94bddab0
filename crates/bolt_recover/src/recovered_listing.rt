//! The members that are recovered of a file that was searched, also if its root page is lost.
ghost use Rattle.std.specs.Prelude.{◌≡◌, ◌<◌, [], IfOk, List};
ghost use Rattle.bolt_format.specs.Bytes.{IsBytes};
ghost use Rattle.bolt_check.specs.declared.finding.Finding.{Finding};
ghost use Rattle.bolt_tree.specs.Listing.{Member};
ghost use Rattle.bolt_recover.specs.{Recovered.ForRecovered, Recovered.IsRecovered, Refusals.LosesRoot};

use crate::lost_and_found::{LostAndFound, Trees};
use crate::recovery::Recovery;
use bolt_check::NoMemory;
use bolt_format::Meta;
use bolt_tree::{Item, Members, Walk};
use std::alloc::Global;

/// A file whose root page is lost: nothing of it is recovered.
#[derive(Clone, Copy)]
pub struct LostRoot<'a> {
    pub(crate) file: &'a [u8],
    pub(crate) meta: Meta,
    ghost bytes: { IsBytes file.now },
    ghost lost: { ∥ ((x : Finding) × LosesRoot file.now meta x) ∥₁ },
}

/// The members that are recovered of a file, in the order of paths.
#[derive(Drop)]
pub enum RecoveredListing<'a> {
    /// The members of a damaged file whose root page is kept.
    Recovery(Recovery<'a>),
    /// The members of a file whose trees are sound, so that nothing is lost. No page is tested again.
    Sound(Walk<'a>),
    /// No members, since the root page is lost.
    Rootless(LostRoot<'a>),
}

impl<'a> RecoveredListing<'a> {
    ghost use Rattle.bolt_recover.specs.RecoveredMembers.{recovered_file, recovered_left, recovered_meta, recovered_path};

    /// What is recovered of a file that was searched. It needs nothing if the trees are sound or the
    /// root page is lost; otherwise a table of pages, room for the losses and for the open pages on
    /// the current way.
    ///
    /// # Errors
    ///
    /// `NoMemory` if memory runs out.
    pub fn of(alloc: Global, searched: &LostAndFound<'a>) -> Result<RecoveredListing<'a>, NoMemory>
        ensures file { IfOk result (λ recovered. recovered_file recovered ≡ searched.now.file.now) }
        ensures meta { IfOk result (λ recovered. recovered_meta recovered ≡ searched.now.meta) }
        ensures all { IfOk result (λ recovered. ForRecovered searched.now.file.now searched.now.meta (λ listing.
            recovered_left recovered listing ≡ listing)) }
        ensures path { IfOk result (λ recovered. recovered_path recovered ≡ []) }
    {
        match &searched.trees {
            Trees::Sound(checked) => Ok(RecoveredListing::Sound(Walk::new(alloc, *checked))),
            // The root page is kept, so only memory can be refused.
            Trees::Damaged(_) => match Recovery::under(alloc, searched.file, searched.meta) {
                Ok(recovery) => Ok(RecoveredListing::Recovery(recovery)),
                Err(_) => Err(NoMemory),
            },
            Trees::Rootless(_) => Ok(RecoveredListing::Rootless(LostRoot {
                file: searched.file,
                meta: searched.meta,
            })),
        }
    }
}

#[tactic(auto, unfolding(crate::specs::Recoveries::recovery_file, crate::specs::Recoveries::recovery_meta, crate::specs::Recoveries::recovery_losses))]
impl<'a> Members<'a> for RecoveredListing<'a> {
    ghost use Rattle.bolt_recover.specs.RecoveredMembers.{recovered_file, recovered_left, recovered_meta, recovered_path, recovered_work};

    ghost Whole = { List Member };

    ghost reads = { λ recovered listing. IsRecovered (recovered_file recovered) (recovered_meta recovered) listing };

    ghost listing = { λ listing. listing };

    ghost left = { λ recovered listing. recovered_left recovered listing };

    ghost work_left = { λ recovered. recovered_work recovered };

    ghost last_path = { λ recovered. recovered_path recovered };

    ghost ends_as = { λ recovered end. Unit {0} };

    #[inline(always)]
    fn next(&mut self) -> Result<Option<Item<'a>>, NoMemory> {
        match self {
            RecoveredListing::Recovery(recovery) => recovery.next(),
            RecoveredListing::Sound(walk) => walk.next(),
            RecoveredListing::Rootless(_) => Ok(None),
        }
    }

    #[inline(always)]
    fn path(&self) -> &[&'a [u8]] {
        match self {
            RecoveredListing::Recovery(recovery) => recovery.path(),
            RecoveredListing::Sound(walk) => walk.path(),
            RecoveredListing::Rootless(_) => &[],
        }
    }

    fn restart(&mut self, alloc: Global) -> Result<(), NoMemory> {
        match self {
            RecoveredListing::Recovery(recovery) => recovery.restart(),
            RecoveredListing::Sound(walk) => {
                *walk = Walk::new(alloc, walk.checked());
                Ok(())
            }
            RecoveredListing::Rootless(_) => Ok(()),
        }
    }
}
