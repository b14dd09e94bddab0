//! The members of the joined listing: those that are recovered, merged with those of what is found.
ghost use Rattle.std.specs.Prelude.{◌≡◌, ◌≢◌, ◌<◌, ◌*◌, ◌^◌, [], IfErr, IfOk, List, OnOk, length};
ghost use Rattle.bolt_check.specs.declared.finding.Finding.{Finding};
ghost use Rattle.bolt_format.specs.Bytes.{IsBytes};
ghost use Rattle.bolt_recover.specs.{Found.found_numbers, Joined.IsJoined, Joined.LacksBucketKey, JoinRefusals.IsJoinRefusal};
ghost use Rattle.bolt_recover.specs.{Losses.everything, LostAndFound.all_lost, Private.Joining.AreJoinable, Private.Merging.ReadsJoined};
ghost use Rattle.bolt_recover.specs.Recovered.{ForRecovered};
ghost use Rattle.bolt_tree.specs.Listing.{Member};

use crate::found_members::FoundMembers;
use crate::found_page::FoundPage;
use crate::join_fault::JoinFault;
use crate::lost_and_found::{LostAndFound, Trees};
use crate::recovered_listing::RecoveredListing;
use bolt_check::NoMemory;
use bolt_format::Meta;
use bolt_tree::{Item, Members, Merged};
use std::alloc::Global;

/// The members of the joined listing of a damaged file, in the order of paths (docs/RECOVERY.md, "The
/// joined listing"): each recovered member once and, before the first one of the root bucket whose
/// key is above `lost+found`, the bucket of what is found, if a page is found. A member costs constant
/// work, and no memory beyond that of the recovery.
#[derive(Drop)]
pub struct JoinedListing<'a> {
    members: Merged<'a, RecoveredListing<'a>, FoundMembers<'a>>,
    file: &'a [u8],
    meta: Meta,
    found: &'a [FoundPage<'a>],
    ghost reads: { ∥ ReadsJoined members file.now meta found.now ∥₁ },
    ghost pages: { ∥ AreJoinable file.now meta found.now ∥₁ },
    ghost bytes: { IsBytes file.now },
}

/// Numbers of sixteen digits name so many pages.
const NAMES: u64 = 10_000_000_000_000_000;

/// Tests whether there is a joined listing of a file that was searched.
fn test_join(searched: &LostAndFound<'_>) -> Result<(), JoinFault>
    ensures apart { OnOk result (searched.now.found.items ≢ []
        → ForRecovered searched.now.file.now searched.now.meta LacksBucketKey) }
    ensures some { OnOk result ((x : Finding) → all_lost searched.now ≡ everything x
        → searched.now.found.items ≢ []) }
    ensures few { OnOk result (length searched.now.file.now < 10 ^ 16 * searched.now.meta.page_size) }
    ensures refused { IfErr result
        (IsJoinRefusal searched.now.file.now searched.now.meta (found_numbers searched.now.found.items)) }
{
    if searched.file.len() as u64 / u64::from(searched.meta.page_size) >= NAMES {
        return Err(JoinFault::TooManyPages);
    }
    let some = !searched.found.is_empty();
    match &searched.trees {
        Trees::Sound(_) => Ok(()),
        Trees::Damaged(damage) => {
            if some && damage.has_bucket_key {
                return Err(JoinFault::Exists);
            }
            Ok(())
        }
        Trees::Rootless(finding) => {
            if !some {
                return Err(JoinFault::Rootless(*finding));
            }
            Ok(())
        }
    }
}

#[tactic(auto, unfolding(crate::specs::JoinedMembers::joined_viewers))]
impl<'a> JoinedListing<'a> {
    ghost use Rattle.bolt_recover.specs.JoinedMembers.{ForJoined, joined_file, joined_left, joined_meta, joined_path};

    /// The members of the joined listing of a file that was searched. If its trees are sound, a plain
    /// walk returns them, and no page is tested again; otherwise a recovery, which needs a table of
    /// pages, room for its losses and for the open pages on its way.
    ///
    /// # Errors
    ///
    /// `Rootless` if the root page is lost and no page is found; `Exists` if a page is found and the
    /// recovered root bucket has an entry `lost+found`; `TooManyPages` if the file has 10^16 pages or more;
    /// `Memory` if memory runs out.
    pub fn new(
        alloc: Global,
        searched: &'a LostAndFound<'_>,
    ) -> Result<JoinedListing<'a>, JoinFault>
        ensures file { IfOk result (λ joined. joined_file joined ≡ searched.now.file.now) }
        ensures meta { IfOk result (λ joined. joined_meta joined ≡ searched.now.meta) }
        ensures all { IfOk result (λ joined.
            ForJoined searched.now.file.now searched.now.meta (λ listing.
            joined_left joined listing ≡ listing)) }
        ensures path { IfOk result (λ joined. joined_path joined ≡ []) }
        ensures apart { OnOk result (searched.now.found.items ≢ []
            → ForRecovered searched.now.file.now searched.now.meta LacksBucketKey) }
        ensures some { OnOk result ((x : Finding) → all_lost searched.now ≡ everything x
            → searched.now.found.items ≢ []) }
        ensures few { OnOk result (length searched.now.file.now < 10 ^ 16 * searched.now.meta.page_size) }
        ensures refused { IfErr result
            (IsJoinRefusal searched.now.file.now searched.now.meta (found_numbers searched.now.found.items)) }
    {
        test_join(searched)?;
        let recovered = RecoveredListing::of(alloc, searched)?;
        let found = searched.found.as_slice();
        Ok(JoinedListing {
            members: Merged::new(recovered, FoundMembers::new(found)),
            file: searched.file,
            meta: searched.meta,
            found,
        })
    }
}

#[tactic(auto, unfolding(crate::specs::JoinedMembers::joined_viewers))]
impl<'a> Members<'a> for JoinedListing<'a> {
    ghost use Rattle.bolt_recover.specs.JoinedMembers.{joined_file, joined_left, joined_meta, joined_path, joined_work};

    ghost Whole = { List Member };

    ghost reads = { λ joined listing. IsJoined (joined_file joined) (joined_meta joined) listing };

    ghost listing = { λ listing. listing };

    ghost left = { λ joined listing. joined_left joined listing };

    ghost work_left = { λ joined. joined_work joined };

    ghost last_path = { λ joined. joined_path joined };

    ghost ends_as = { λ joined end. Unit {0} };

    #[inline(always)]
    fn next(&mut self) -> Result<Option<Item<'a>>, NoMemory> {
        self.members.next()
    }

    #[inline(always)]
    fn path(&self) -> &[&'a [u8]] {
        self.members.path()
    }

    fn restart(&mut self, alloc: Global) -> Result<(), NoMemory> {
        self.members.restart(alloc)
    }
}
