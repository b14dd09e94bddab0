//! A walk over everything that is kept of a damaged file.
ghost use Rattle.std.specs.List.{All};
ghost use Rattle.std.specs.Option.{IfNone};
ghost use Rattle.std.specs.Prelude.{◌≡◌, ◌<◌, ◌≤◌, ◌^◌, [], IfErr, IfOk, IfSome, IsTrue, List, OnErr, OnOk, length, map};
ghost use Rattle.bolt_check.specs.{Claims.claims_file, Claims.claims_meta, Counts.counted, Counts.saturated};
ghost use Rattle.bolt_check.specs.CheckedFiles.{bytes_of, meta_of};
ghost use Rattle.bolt_check.specs.Sound.{HasRightAccounts, HasSoundTrees, IsRefusedFor};
ghost use Rattle.bolt_format.specs.{Metas.IsInSlot, declared.meta.Slot.Slot};
ghost use Rattle.bolt_tree.specs.{Listing.Member, Paths.path_of};
ghost use Rattle.bolt_recover.specs.{KeptPages.AreKeptPages, Private.Frames.StepsAreOn, Private.Frames.AreStepsPlaced, Recovered.ForRecovered};
ghost use Rattle.bolt_recover.specs.{Recovered.IsRecovered};
ghost use Rattle.bolt_recover.specs.Refusals.{IsRefusedRoot, KeepsRoot};
ghost use Rattle.bolt_recover.specs.{Found.AreFoundInAnyCase, Found.found_numbers, PageGaps.page_gap_view, ShownFound.IsFoundView};
ghost use Rattle.bolt_recover.specs.{Losses.AreLosses, ShownLosses.loss_view};

use crate::bucket_key::compare_first;
use crate::found_leaves::find_leaves;
use crate::found_page::FoundPage;
use crate::losses::{Damage, Loss};
use crate::page_gaps::PageGap;
use crate::root_fault::RootFault;
use crate::steps::Steps;
use bolt_check::{CheckFault, Checked, Claims, Leftovers, NoMemory, check_claimed};
use bolt_format::Meta;
use bolt_tree::{Item, Members};
use std::alloc::Global;

/// A walk over everything that is kept of a file, in the order of paths (docs/RECOVERY.md): each
/// value and each bucket once, a bucket before everything in it. It visits each way to a page once,
/// and reports what is lost on its way. It needs a byte for each whole page that lies in the file and
/// below the high-water mark, room for the losses, and room for the open pages on the current way.
#[derive(Drop)]
pub struct Recovery<'a> {
    steps: Steps<'a>,
    meta: Meta,
    /// The visits that were made before it began.
    begun: u64,
    ghost sized: { 0 < meta.page_size },
    ghost placed: { ∥ AreStepsPlaced steps ∥₁ },
    ghost on: { StepsAreOn steps meta begun },
    ghost root: { ∥ KeepsRoot (claims_file steps.claims) meta ∥₁ },
}

#[tactic(auto, unfolding(crate::specs::Recoveries::recovery_viewers))]
impl<'a> Recovery<'a> {
    ghost use Rattle.bolt_recover.specs.{Private.Joining.ReportsBucketKey, Private.TreesLeft.IsSearched};
    ghost use Rattle.bolt_recover.specs.declared.lost_and_found.Trees.TheVariants as Trees;
    ghost use Rattle.bolt_recover.specs.Recoveries.{AreFirst, ForLosses, GivesRecovered, HasReportedAll, HasReportedGaps, HasVisitedAll, LeavesNone};
    ghost use Rattle.bolt_recover.specs.Recoveries.{LeavesRecovered, LeavesRest, recovery_begun, recovery_claimed, recovery_file, recovery_gaps};
    ghost use Rattle.bolt_recover.specs.Recoveries.{recovery_left, recovery_losses, recovery_meta, recovery_path, recovery_visited, recovery_work};

    /// A walk under a meta that is handed in. The metas of the file are ignored.
    ///
    /// # Errors
    ///
    /// `Lost` with the finding of the root page if that is lost, and nothing is recovered; `Memory` if
    /// memory runs out.
    pub fn under(alloc: Global, file: &'a [u8], meta: Meta) -> Result<Recovery<'a>, RootFault>
        requires { 0 < meta.page_size }
        ensures file { IfOk result (λ recovery. recovery_file recovery ≡ file.now) }
        ensures meta { IfOk result (λ recovery. recovery_meta recovery ≡ meta) }
        ensures all { IfOk result (λ recovery.
            ForRecovered file.now meta (λ listing. recovery_left recovery listing ≡ listing)) }
        ensures path { IfOk result (λ recovery. recovery_path recovery ≡ []) }
        ensures losses { IfOk result (λ recovery. recovery_losses recovery ≡ []) }
        ensures begun { IfOk result (λ recovery. recovery_begun recovery ≡ 0) }
        ensures visited { IfOk result (λ recovery. recovery_visited recovery ≡ 1) }
        ensures root { OnOk result (KeepsRoot file.now meta) }
        ensures refused { IfErr result (IsRefusedRoot file.now meta) }
    {
        let claims = Claims::new(alloc, file, meta)?;
        let steps = Steps::new(alloc, claims)?;
        Ok(Recovery {
            steps,
            meta,
            begun: 0,
        })
    }

    /// Begins again before the first item: everything is left, and no loss was reported. The visits
    /// are counted on.
    ///
    /// # Errors
    ///
    /// `NoMemory` if memory runs out. Then nothing has changed.
    pub fn restart(&mut self) -> Result<(), NoMemory>
        ensures file { recovery_file self.new ≡ recovery_file self.old }
        ensures meta { recovery_meta self.new ≡ recovery_meta self.old }
        ensures all { OnOk result
            (ForRecovered (recovery_file self.old) (recovery_meta self.old) (λ listing.
            recovery_left self.new listing ≡ listing)) }
        ensures path { OnOk result (recovery_path self.new ≡ []) }
        ensures losses { OnOk result (recovery_losses self.new ≡ []) }
        ensures begun { OnOk result (recovery_begun self.new ≡ recovery_visited self.old) }
        ensures visited { OnOk result
            (recovery_visited self.new ≡ counted (recovery_visited self.old) 1) }
    {
        let begun = self.steps.claims.visited();
        self.steps.restart()?;
        self.begun = begun;
        Ok(())
    }

    /// The meta that the file is read under.
    pub fn meta(&self) -> Meta
        ensures { result ≡ recovery_meta self.now }
    {
        self.meta
    }

    /// Returns the next item, or `None` if nothing is left; so do all later calls. By then all losses
    /// are reported, and each way to a page number was visited once.
    ///
    /// # Errors
    ///
    /// `NoMemory` if there is no memory for one more open page or one more loss. The same is left
    /// then, the path is the same, and `next` may be called again.
    pub fn next(&mut self) -> Result<Option<Item<'a>>, NoMemory>
        ensures file { recovery_file self.new ≡ recovery_file self.old }
        ensures meta { recovery_meta self.new ≡ recovery_meta self.old }
        ensures given { IfOk result (GivesRecovered self.old self.new) }
        ensures fewer { IfOk result (λ given.
            IfSome given (λ _. recovery_work self.new < recovery_work self.old)) }
        ensures begun { recovery_begun self.new ≡ recovery_begun self.old }
        ensures visited { IfOk result (λ given. IfNone given (HasVisitedAll self.old self.new)) }
        ensures all { IfOk result (λ given. IfNone given (HasReportedAll self.old self.new)) }
        ensures gaps { IfOk result (λ given. IfNone given (HasReportedGaps self.old self.new)) }
        ensures kept { IfOk result (λ given.
            IfNone given (AreKeptPages (recovery_file self.old) (recovery_meta self.old)
            (recovery_claimed self.new))) }
        ensures same { OnErr result (LeavesRecovered self.old self.new) }
        ensures same_path { OnErr result (recovery_path self.new ≡ recovery_path self.old) }
    {
        match self.steps.advance()? {
            Some(leaf) => Ok(Some(Item::of(&leaf))),
            None => Ok(None),
        }
    }

    /// Goes to the end without returning what is left, so that all losses are known. It passes over the
    /// values of a page more quickly than `next`, since they lead nowhere.
    ///
    /// # Errors
    ///
    /// `NoMemory` if there is no memory for one more open page or one more loss. Then some members, or
    /// none, are dropped and the others are left. `path` may be that of a dropped one. `finish` and
    /// `next` may be called again.
    pub fn finish(&mut self) -> Result<(), NoMemory>
        ensures file { recovery_file self.new ≡ recovery_file self.old }
        ensures meta { recovery_meta self.new ≡ recovery_meta self.old }
        ensures begun { recovery_begun self.new ≡ recovery_begun self.old }
        ensures none { OnOk result (LeavesNone self.old self.new) }
        ensures path { OnOk result (recovery_path self.new ≡ []) }
        ensures visited { OnOk result (HasVisitedAll self.old self.new) }
        ensures all { OnOk result (HasReportedAll self.old self.new) }
        ensures gaps { OnOk result (HasReportedGaps self.old self.new) }
        ensures kept { OnOk result
            (AreKeptPages (recovery_file self.old) (recovery_meta self.old)
            (recovery_claimed self.new)) }
        ensures dropped { OnErr result (LeavesRest self.old self.new) }
    {
        while let Some(_) = self.next()? {
            self.skip_values();
        }
        Ok(())
    }

    /// Drops the values that come next on a page, if any.
    fn skip_values(&mut self)
        ensures file { recovery_file self.new ≡ recovery_file self.old }
        ensures meta { recovery_meta self.new ≡ recovery_meta self.old }
        ensures begun { recovery_begun self.new ≡ recovery_begun self.old }
        ensures dropped { LeavesRest self.old self.new }
        ensures fewer { recovery_work self.new ≤ recovery_work self.old }
    {
        self.steps.skip_values();
    }

    /// Reads a file of which nothing is lost, so that its trees are sound: all of it was visited, and no
    /// page is tested again. The accounts are tested if that is asked for. Returns the gaps of its pages
    /// too.
    ///
    /// # Errors
    ///
    /// `Accounts` with all findings of the accounts; `Memory` if memory runs out. Never `Open` or
    /// `Structure`.
    pub fn check(self, accounts: bool) -> (Result<Checked<'a>, CheckFault>, Vec<PageGap<'a>>)
        requires kept { AreKeptPages (recovery_file self) (recovery_meta self) (recovery_claimed self) }
        requires whole { AreLosses (recovery_file self) (recovery_meta self) [] }
        requires valid { IsTrue accounts → (slot : Slot)
            × IsInSlot (recovery_file self) slot (recovery_meta self) }
        ensures bytes { IfOk result.0 (λ checked. bytes_of checked ≡ recovery_file self.entry) }
        ensures meta { IfOk result.0 (λ checked. meta_of checked ≡ recovery_meta self.entry) }
        ensures trees { HasSoundTrees (recovery_file self.entry) (recovery_meta self.entry) }
        ensures right { OnOk result.0 (IsTrue accounts
            → HasRightAccounts (recovery_file self.entry) (recovery_meta self.entry)) }
        ensures refused { IfErr result.0
            (IsRefusedFor (recovery_file self.entry) (recovery_meta self.entry) accounts) }
        ensures gaps { map page_gap_view result.1.items ≡ recovery_gaps self.entry }
    {
        let steps = self.steps;
        let checked = check_claimed(steps.alloc, steps.claims, accounts);
        (checked, steps.gaps)
    }

    /// Drops what is left, and finds the intact leaves that nothing leads to (docs/RECOVERY.md, "Found
    /// pages"). It needs room for what is found, and no second table.
    ///
    /// # Errors
    ///
    /// `NoMemory` if memory runs out.
    pub(crate) fn found(mut self) -> Result<(Damage<'a>, Vec<FoundPage<'a>>), NoMemory>
        requires fresh { ForRecovered (recovery_file self) (recovery_meta self) (λ listing.
            recovery_left self listing ≡ listing) }
        requires root { KeepsRoot (recovery_file self) (recovery_meta self) }
        requires damaged { HasSoundTrees (recovery_file self) (recovery_meta self) → ⊥ }
        ensures { IfOk result (λ (damage, found).
            IsSearched (recovery_file self.entry) (recovery_meta self.entry)
            (Trees.Damaged damage) found.items) }
    {
        let (has_bucket_key, members) = self.run_to_end()?;
        let steps = self.steps;
        let found = find_leaves(steps.alloc, Leftovers::new(steps.claims))?;
        Ok((
            Damage {
                losses: steps.losses,
                gaps: steps.gaps,
                has_bucket_key,
                members,
            },
            found,
        ))
    }

    /// Drops what is left, and finds the intact leaves that nothing leads to, even if nothing is lost. It
    /// needs room for what is found, and no second table.
    ///
    /// # Errors
    ///
    /// `NoMemory` if memory runs out.
    pub(crate) fn found_in_any_case(mut self) -> Result<Vec<FoundPage<'a>>, NoMemory>
        requires { ForRecovered (recovery_file self) (recovery_meta self) (λ listing.
            recovery_left self listing ≡ listing) }
        ensures found { IfOk result (λ found.
            AreFoundInAnyCase (recovery_file self.entry) (recovery_meta self.entry)
            (found_numbers found.items)) }
        ensures views { IfOk result (λ found.
            All (IsFoundView (recovery_file self.entry) (recovery_meta self.entry)) found.items) }
    {
        self.run_to_end()?;
        let steps = self.steps;
        find_leaves(steps.alloc, Leftovers::new(steps.claims))
    }

    /// Goes to the end, and drops the members that are left. Returns whether the root bucket has an entry
    /// with the key of the bucket of what is found, and how many members were left.
    fn run_to_end(&mut self) -> Result<(bool, u64), NoMemory>
        requires { ForRecovered (recovery_file self.old) (recovery_meta self.old) (λ listing.
            recovery_left self.old listing ≡ listing) }
        ensures file { recovery_file self.new ≡ recovery_file self.old }
        ensures meta { recovery_meta self.new ≡ recovery_meta self.old }
        ensures under { claims_meta self.new.steps.claims ≡ self.old.meta }
        ensures has { IfOk result (λ (has, members).
            ForRecovered (recovery_file self.old) (recovery_meta self.old) (λ listing.
            ReportsBucketKey listing has)) }
        ensures number { IfOk result (λ (has, members).
            ForRecovered (recovery_file self.old) (recovery_meta self.old) (λ listing.
            members ≡ saturated (length listing))) }
        ensures all { OnOk result (HasReportedAll self.old self.new) }
        ensures gaps { OnOk result (HasReportedGaps self.old self.new) }
        ensures kept { OnOk result
            (AreKeptPages (recovery_file self.old) (recovery_meta self.old)
            (recovery_claimed self.new)) }
    {
        let mut has_bucket_key = false;
        let mut members = 0_u64;
        while let Some(_) = self.next()? {
            has_bucket_key |= compare_first(self.path()).is_eq();
            members = members.saturating_add(1);
        }
        Ok((has_bucket_key, members))
    }

    /// The path of the last item that was returned, from the root bucket down. It is empty before
    /// the first item and after the last.
    pub fn path(&self) -> &[&'a [u8]]
        ensures { path_of result.now ≡ recovery_path self.now }
    {
        self.steps.path.as_slice()
    }

    /// The losses so far, in the order of ways. Once `next` has returned `None`, these are all
    /// losses.
    pub fn losses(&self) -> &[Loss<'a>]
        ensures losses { map loss_view result.now ≡ recovery_losses self.now }
        ensures first { ForLosses (recovery_file self.now) (recovery_meta self.now)
            (AreFirst (recovery_losses self.now)) }
    {
        self.steps.losses.as_slice()
    }

    /// The gaps of the kept pages so far, in the order of ways. Once `next` has returned `None`, these
    /// are all gaps.
    pub fn gaps(&self) -> &[PageGap<'a>]
        ensures { map page_gap_view result.now ≡ recovery_gaps self.now }
    {
        self.steps.gaps.as_slice()
    }
}

impl<'a> Members<'a> for Recovery<'a> {
    ghost use Rattle.bolt_recover.specs.Recoveries.{ForLosses, recovery_file, recovery_left, recovery_losses, recovery_meta, recovery_path};
    ghost use Rattle.bolt_recover.specs.Recoveries.{recovery_work};

    ghost Whole = { List Member };

    ghost reads = { λ recovery listing. IsRecovered (recovery_file recovery) (recovery_meta recovery) listing };

    ghost listing = { λ listing. listing };

    ghost left = { λ recovery listing. recovery_left recovery listing };

    ghost work_left = { λ recovery. recovery_work recovery };

    ghost last_path = { λ recovery. recovery_path recovery };

    ghost ends_as = { λ recovery end. ForLosses (recovery_file recovery) (recovery_meta recovery) (λ losses. recovery_losses end ≡ losses) };

    fn next(&mut self) -> Result<Option<Item<'a>>, NoMemory> {
        Recovery::next(self)
    }

    fn path(&self) -> &[&'a [u8]] {
        Recovery::path(self)
    }

    fn restart(&mut self, _alloc: Global) -> Result<(), NoMemory> {
        Recovery::restart(self)
    }
}
