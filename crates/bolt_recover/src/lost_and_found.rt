//! What is lost of a file, and what is found of it though nothing leads to it.
ghost use Rattle.std.specs.List.{All};
ghost use Rattle.std.specs.Option.{IfNone};
ghost use Rattle.std.specs.Prelude.{◌≡◌, ◌<◌, IfOk, IfSome, false, length, map, true};
ghost use Rattle.bolt_check.specs.{Counts.saturated, Sound.HasSoundTrees, declared.finding.Finding.Finding};
ghost use Rattle.bolt_format.specs.Bytes.{IsBytes};
ghost use Rattle.bolt_recover.specs.{Found.AreFound, Found.AreFoundInAnyCase, Found.found_numbers, Lost.IsAllLost, Private.TreesLeft.IsSearched};
ghost use Rattle.bolt_recover.specs.{Recovered.ForRecovered, ShownFound.IsFoundView};
ghost use Rattle.bolt_recover.specs.{PageGaps.ForGaps, PageGaps.page_gap_view, Losses.is_nothing, Refusals.LosesRoot, ShownLosses.lost_view};

use crate::found_leaves::find_leaves;
use crate::found_page::FoundPage;
use crate::losses::{Damage, Lost};
use crate::page_gaps::PageGap;
use crate::recovery::Recovery;
use crate::root_fault::RootFault;
use bolt_check::{CheckFault, Checked, Claims, Finding, Leftovers, NoMemory, check_under};
use bolt_format::Meta;
use std::alloc::Global;

/// What is left of the trees of a file.
#[derive(Drop)]
pub(crate) enum Trees<'a> {
    /// All of them: they are sound.
    Sound(Checked<'a>),
    /// Not all of them.
    Damaged(Damage<'a>),
    /// Nothing: the root page is lost, with this finding.
    Rootless(Finding),
}

/// What is lost of a file under a meta, and the intact leaves that are found of it though nothing
/// leads to them (docs/RECOVERY.md, "Found pages").
#[derive(Drop)]
pub struct LostAndFound<'a> {
    /// The file.
    pub file: &'a [u8],
    /// The meta that it is read under.
    pub meta: Meta,
    /// The found pages, by rising number. If nothing is lost, there are none.
    pub found: Vec<FoundPage<'a>>,
    pub(crate) trees: Trees<'a>,
    ghost sized: { 0 < meta.page_size },
    ghost bytes: { IsBytes file.now },
    ghost searched: { ∥ IsSearched file.now meta trees found.items ∥₁ },
}

#[tactic(auto, unfolding(crate::specs::LostAndFound::all_lost))]
impl<'a> LostAndFound<'a> {
    ghost use Rattle.bolt_recover.specs.LostAndFound.{all_lost};

    /// Searches a file under a meta. What is found is known only when every way was visited, so the
    /// trees are tested first, and if they aren't sound, a recovery runs to its end. It needs what
    /// these need, and room for what is lost and found.
    ///
    /// # Errors
    ///
    /// `NoMemory` if memory runs out.
    pub fn under(alloc: Global, file: &'a [u8], meta: Meta) -> Result<LostAndFound<'a>, NoMemory>
        requires { 0 < meta.page_size }
        ensures file { IfOk result (λ searched. searched.file.now ≡ file.now) }
        ensures meta { IfOk result (λ searched. searched.meta ≡ meta) }
        ensures lost { IfOk result (λ searched. IsAllLost file.now meta (all_lost searched)) }
        ensures found { IfOk result (λ searched. AreFound file.now meta (found_numbers searched.found.items)) }
        ensures views { IfOk result (λ searched. All (IsFoundView file.now meta) searched.found.items) }
    {
        match check_under(alloc, file, meta) {
            Ok(checked) => {
                let found = Vec::new(alloc);
                Ok(LostAndFound {
                    file,
                    meta,
                    found,
                    trees: Trees::Sound(checked),
                })
            }
            Err(CheckFault::Structure(_)) => LostAndFound::of_damaged(alloc, file, meta),
            Err(_) => Err(NoMemory),
        }
    }

    /// Searches a file whose trees aren't sound.
    fn of_damaged(alloc: Global, file: &'a [u8], meta: Meta) -> Result<LostAndFound<'a>, NoMemory>
        requires size { 0 < meta.page_size }
        requires damaged { HasSoundTrees file.now meta → ⊥ }
        ensures file { IfOk result (λ searched. searched.file.now ≡ file.now) }
        ensures meta { IfOk result (λ searched. searched.meta ≡ meta) }
        ensures searched { IfOk result (λ searched.
            IsSearched file.now meta searched.trees searched.found.items) }
    {
        match Recovery::under(alloc, file, meta) {
            Ok(recovery) => {
                let (damage, found) = recovery.found()?;
                Ok(LostAndFound {
                    file,
                    meta,
                    found,
                    trees: Trees::Damaged(damage),
                })
            }
            Err(RootFault::Lost(finding)) => {
                let found = found_without_root(alloc, file, meta)?;
                Ok(LostAndFound {
                    file,
                    meta,
                    found,
                    trees: Trees::Rootless(finding),
                })
            }
            Err(RootFault::Memory) => Err(NoMemory),
        }
    }

    /// Finds the intact leaves that nothing leads to of a file that lost nothing (docs/RECOVERY.md,
    /// "Found pages"). It needs what a recovery needs, and room for what is found.
    ///
    /// # Errors
    ///
    /// `NoMemory` if memory runs out.
    pub fn found_in_any_case(&self, alloc: Global) -> Result<Vec<FoundPage<'a>>, NoMemory>
        requires { is_nothing (all_lost self.now) ≡ true }
        ensures found { IfOk result (λ found.
            AreFoundInAnyCase self.now.file.now self.now.meta (found_numbers found.items)) }
        ensures views { IfOk result (λ found.
            All (IsFoundView self.now.file.now self.now.meta) found.items) }
    {
        // Nothing is lost of the file, so only memory can be refused.
        let Ok(recovery) = Recovery::under(alloc, self.file, self.meta) else {
            return Err(NoMemory);
        };
        recovery.found_in_any_case()
    }

    /// How many members are recovered, if the trees aren't sound. Saturates at 2^64 - 1.
    pub fn recovered(&self) -> Option<u64>
        ensures number { IfSome result (λ members.
            ForRecovered self.now.file.now self.now.meta (λ listing. members ≡ saturated (length listing))) }
        ensures sound { IfNone result (∥ HasSoundTrees self.now.file.now self.now.meta ∥₁) }
        ensures damaged { IfSome result (λ members.
            HasSoundTrees self.now.file.now self.now.meta → ⊥) }
    {
        match &self.trees {
            Trees::Sound(_) => None,
            Trees::Damaged(damage) => Some(damage.members),
            Trees::Rootless(_) => Some(0),
        }
    }

    /// The gaps of the kept pages, if something is lost. Those of sound trees aren't looked for.
    pub fn gaps(&self) -> &[PageGap<'a>]
        ensures { is_nothing (all_lost self.now) ≡ false
            → ForGaps self.now.file.now self.now.meta (λ gaps. map page_gap_view result.now ≡ gaps) }
    {
        match &self.trees {
            Trees::Sound(_) => &[],
            Trees::Damaged(damage) => damage.gaps.as_slice(),
            Trees::Rootless(_) => &[],
        }
    }

    /// All that is lost.
    pub fn lost(&self) -> Lost<'_>
        ensures { lost_view result ≡ all_lost self.now }
    {
        match &self.trees {
            Trees::Sound(_) => Lost::Parts(&[]),
            Trees::Damaged(damage) => Lost::Parts(damage.losses.as_slice()),
            Trees::Rootless(finding) => Lost::Everything(*finding),
        }
    }
}

/// Finds the intact leaves of a file whose root page is lost, by rising number. There is no recovery
/// of it. It needs a table of pages, and room for what is found.
fn found_without_root<'a>(
    alloc: Global,
    file: &'a [u8],
    meta: Meta,
) -> Result<Vec<FoundPage<'a>>, NoMemory>
    requires size { 0 < meta.page_size }
    requires lost { (x : Finding) × LosesRoot file.now meta x }
    ensures found { IfOk result (λ found. AreFound file.now meta (found_numbers found.items)) }
    ensures views { IfOk result (λ found. All (IsFoundView file.now meta) found.items) }
{
    let claims = Claims::new(alloc, file, meta)?;
    find_leaves(alloc, Leftovers::new(claims))
}
