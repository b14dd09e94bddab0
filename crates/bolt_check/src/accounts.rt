//! Does the freelist have exactly the free pages? (docs/SOUND.md, "Accounts").
ghost use Rattle.std.specs.Prelude.{◌≡◌, ◌≢◌, ◌≤◌, ◌<◌, ◌+◌, ◌∷◌, ℕ, [], IfOk, IfSome, MatchOption, None, OnOk, length};
ghost use Rattle.bolt_format.specs.{Freelists.freelist_fault_of, declared.meta.TheConstants.NO_FREELIST, ShownIds.shown_ids};
ghost use Rattle.bolt_check.specs.{AccountFindings.AreAccountFindings, Accounts.HasAccounts, Accounts.IsLowestShared, Accounts.times_in};
ghost use Rattle.bolt_check.specs.Private.Freelists.{AreAllFindings, ClaimsFreelist, ClaimsUses, IsUnlisted, KeepsUsed};
ghost use Rattle.bolt_check.specs.Private.Tables.{HasRoom, IsClaimed, use_at};

use crate::finding::Finding;
use crate::freelist_findings::all_findings;
use crate::listed_pages::{Freelist, ids_from, list_ids};
use crate::table::{PageUse, claim, first_claimed};
use bolt_format::{FreeIds, Meta, free_ids, known};
use std::alloc::{AllocError, Global};

/// Tests the accounts of a file. The table has the pages that ways lead to. Returns the findings,
/// of which there are none if the accounts are right. Then the table has the freelist's pages too.
pub(crate) fn test_accounts(
    alloc: Global,
    file: &[u8],
    meta: &Meta,
    table: &mut [PageUse],
) -> Result<Vec<Finding>, AllocError>
    requires unlisted { IsUnlisted table.old }
    requires metas { (n : ℕ) → n < 2 → IsClaimed table.old n }
    requires wide { 2 ≤ length table.old }
    requires below { length table.old ≤ meta.now.high_water }
    requires room { HasRoom file.now meta.now table.old }
    ensures right { IfOk result (λ reported. reported.items ≡ []
        → HasAccounts file.now meta.now (IsClaimed table.old)) }
    ensures wrong { IfOk result (λ reported. reported.items ≢ []
        → HasAccounts file.now meta.now (IsClaimed table.old) → ⊥) }
    ensures reported { IfOk result (λ reported. reported.items ≢ []
        → AreAccountFindings file.now meta.now (IsClaimed table.old) reported.items) }
    ensures uses { IfOk result (λ reported. reported.items ≡ []
        → ClaimsUses file.now meta.now table.old table.new) }
{
    let ids = match free_ids(file, meta) {
        Ok(Some(ids)) => ids,
        Ok(None) => return Ok(Vec::new(alloc)),
        Err(fault) => return one_finding(alloc, Finding::from(fault)),
    };
    match claim_freelist(file, meta, table) {
        Some(page) => one_finding(alloc, Finding::of_page(Finding::TWICE, page)),
        None => test_ids(alloc, ids, meta.high_water, table),
    }
}

/// A list of one finding.
fn one_finding(alloc: Global, finding: Finding) -> Result<Vec<Finding>, AllocError>
    ensures { IfOk result (λ reported. reported.items ≡ finding ∷ []) }
{
    let mut findings = Vec::new(alloc);
    findings.push(finding)?;
    Ok(findings)
}

/// Claims the freelist's span, unless a page of it is claimed. Then it returns the lowest such
/// page.
fn claim_freelist(file: &[u8], meta: &Meta, table: &mut [PageUse]) -> Option<u64>
    requires written { meta.now.freelist ≢ NO_FREELIST }
    requires good { freelist_fault_of file.now meta.now ≡ None }
    requires room { HasRoom file.now meta.now table.old }
    ensures shared { IfSome result (IsLowestShared file.now meta.now (IsClaimed table.old)) }
    ensures claimed { MatchOption result (ClaimsFreelist file.now meta.now table.old table.new)
        (λ _. Unit {0}) }
{
    let overflow = known(file, meta, meta.freelist).overflow();
    let from = meta.freelist as usize;
    let last = from + overflow as usize;
    if let Some(page) = first_claimed(table, from, last) {
        return Some(page as u64);
    }
    claim(table, from, last, PageUse::Used);
    None
}

/// Tests the ids against a table that has all pages in use.
fn test_ids(
    alloc: Global,
    ids: FreeIds<'_>,
    high_water: u64,
    table: &mut [PageUse],
) -> Result<Vec<Finding>, AllocError>
    requires unlisted { IsUnlisted table.old }
    requires metas { (n : ℕ) → n < 2 → IsClaimed table.old n }
    requires wide { 2 ≤ length table.old }
    requires below { length table.old ≤ high_water }
    ensures reported { IfOk result (λ reported. AreAllFindings high_water (IsClaimed table.old)
        (times_in (shown_ids ids.entry)) reported.items) }
    ensures used { OnOk result (KeepsUsed table.old table.new) }
    ensures kept { OnOk result ((n : ℕ) → times_in (shown_ids ids.entry) n ≡ 0
        → use_at table.new n ≡ use_at table.old n) }
{
    list_ids(ids, table);
    let mut past = ids_from(alloc, ids, table.len() as u64)?;
    past.sort_unstable();
    let freelist = Freelist {
        table,
        past: &past,
        high_water,
    };
    all_findings(alloc, &freelist)
}
