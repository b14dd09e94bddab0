//! What is wrong with the pages that the freelist lists, and with those that it lacks, in the order
//! of the pages.
ghost use Rattle.std.specs.Prelude.{◌≡◌, ◌≤◌, ◌<◌, ◌+◌, ◌++◌, ◌↔◌, [], IfOk, IsTrue, OnOk, length};
ghost use Rattle.bolt_check.specs.Private.Freelists.{AreAllFindings, AreFindingsBelow, HasFindingsTo, IsBeyondTo, IsPastTo, IsSettled, is_in_use};
ghost use Rattle.bolt_check.specs.Private.Freelists.{is_repeated, listed_times, meta_findings, page_findings, repeat_findings, interval_findings};
ghost use Rattle.bolt_check.specs.Private.Freelists.{use_findings};

use crate::finding::Finding;
use crate::listed_pages::Freelist;
use crate::table::PageUse;
use std::alloc::{AllocError, Global};

/// Pushes the finding on the lost pages from `from` up to but not including `page`, if there are
/// any.
fn push_interval(findings: &mut Vec<Finding>, from: u64, page: u64) -> Result<(), AllocError>
    ensures { OnOk result (findings.new.items ≡ findings.old.items ++ interval_findings from page) }
{
    if from < page {
        findings.push(Finding {
            number: Finding::UNREACHABLE,
            page: from,
            last: page - 1,
        })?;
    }
    Ok(())
}

/// Pushes the finding on a meta page, if there is one.
fn push_meta(findings: &mut Vec<Finding>, page: u64, page_use: PageUse) -> Result<(), AllocError>
    ensures { OnOk result (findings.new.items ≡ findings.old.items ++ meta_findings page page_use) }
{
    match page_use {
        PageUse::Unused | PageUse::Branch | PageUse::Leaf | PageUse::Used => {}
        PageUse::Free | PageUse::FreeTwice | PageUse::UsedFree | PageUse::UsedFreeTwice => {
            findings.push(Finding::of_page(Finding::FREE_RANGE, page))?;
        }
    }
    Ok(())
}

/// Pushes the findings on a page in range.
fn push_use(findings: &mut Vec<Finding>, page: u64, page_use: PageUse) -> Result<(), AllocError>
    ensures { OnOk result (findings.new.items ≡ findings.old.items ++ use_findings page page_use) }
{
    match page_use {
        PageUse::Unused | PageUse::Branch | PageUse::Leaf | PageUse::Used | PageUse::Free => {}
        PageUse::FreeTwice => findings.push(Finding::of_page(Finding::FREED_TWICE, page))?,
        PageUse::UsedFree => findings.push(Finding::of_page(Finding::REACHED_FREED, page))?,
        PageUse::UsedFreeTwice => {
            findings.push(Finding::of_page(Finding::FREED_TWICE, page))?;
            findings.push(Finding::of_page(Finding::REACHED_FREED, page))?;
        }
    }
    Ok(())
}

/// Pushes the findings on a page below the mark.
fn push_page(findings: &mut Vec<Finding>, page: u64, page_use: PageUse) -> Result<(), AllocError>
    ensures { OnOk result (findings.new.items ≡ findings.old.items ++ page_findings page page_use) }
{
    if page < 2 {
        push_meta(findings, page, page_use)
    } else {
        push_use(findings, page, page_use)
    }
}

/// Whether a page is neither used nor listed.
fn is_unused(page_use: PageUse) -> bool
    ensures { IsTrue result ↔ (page_use ≡ PageUse.Unused) }
{
    matches!(page_use, PageUse::Unused)
}

/// Pushes the findings on one page of the table. If the interval of lost pages from `from` on ends
/// before it, that is pushed first. Returns the page from which on all up to this one are lost and
/// not pushed yet.
fn push_entry(
    freelist: &Freelist<'_>,
    n: usize,
    from: u64,
    findings: &mut Vec<Finding>,
) -> Result<u64, AllocError>
    requires settled { IsSettled freelist.now }
    requires inside { n < length freelist.now.table.now }
    requires order { from ≤ n }
    requires reported { HasFindingsTo freelist.now from n findings.old.items }
    ensures order { IfOk result (λ next. next ≤ n + 1) }
    ensures reported { IfOk result
        (λ next. HasFindingsTo freelist.now next (n + 1) findings.new.items) }
{
    let page_use = freelist.table[n];
    if is_unused(page_use) {
        return Ok(from);
    }
    let page = n as u64;
    push_interval(findings, from, page)?;
    push_page(findings, page, page_use)?;
    Ok(page + 1)
}

/// Pushes the findings on the pages of the table. Returns the page from which on all up to the
/// table's end are lost and not pushed yet.
fn push_table(freelist: &Freelist<'_>, findings: &mut Vec<Finding>) -> Result<u64, AllocError>
    requires settled { IsSettled freelist.now }
    requires none { findings.old.items ≡ [] }
    ensures within { IfOk result (λ from. from ≤ length freelist.now.table.now) }
    ensures reported { IfOk result (λ from. HasFindingsTo freelist.now from
        (length freelist.now.table.now) findings.new.items) }
{
    let mut from = 0;
    for n in 0..freelist.table.len() {
        from = push_entry(freelist, n, from, findings)?;
    }
    Ok(from)
}

/// Whether the next id is the same.
fn is_repeated(ids: &[u64], i: usize) -> bool
    requires { i < length ids.now }
    ensures { result ≡ is_repeated ids.now i }
{
    i + 1 < ids.len() && ids[i + 1] == ids[i]
}

/// Pushes the finding on an id if the next one is the same.
fn push_repeated(findings: &mut Vec<Finding>, ids: &[u64], i: usize) -> Result<(), AllocError>
    requires { i < length ids.now }
    ensures { OnOk result (findings.new.items ≡ findings.old.items ++ repeat_findings ids.now i) }
{
    if is_repeated(ids, i) {
        findings.push(Finding::of_page(Finding::FREED_TWICE, ids[i]))?;
    }
    Ok(())
}

/// Pushes the findings on the id at place `i` if it is below the mark and they aren't pushed yet,
/// and on the lost pages before it.
fn push_id(
    freelist: &Freelist<'_>,
    i: usize,
    from: u64,
    findings: &mut Vec<Finding>,
) -> Result<u64, AllocError>
    requires settled { IsSettled freelist.now }
    requires place { i < length freelist.now.past.now }
    requires within { from ≤ freelist.now.high_water }
    requires reported { IsPastTo freelist.now from i findings.old.items }
    ensures within { IfOk result (λ next. next ≤ freelist.now.high_water) }
    ensures reported { IfOk result (λ next. IsPastTo freelist.now next (i + 1) findings.new.items) }
{
    let id = freelist.past[i];
    if id < from || freelist.high_water <= id {
        return Ok(from);
    }
    push_interval(findings, from, id)?;
    push_repeated(findings, freelist.past, i)?;
    Ok(id + 1)
}

/// Pushes the findings on the pages after the table and below the mark. Those from `start` on aren't
/// pushed yet. Returns the page from which on all up to the mark are lost and not pushed yet.
fn push_past(
    freelist: &Freelist<'_>,
    start: u64,
    findings: &mut Vec<Finding>,
) -> Result<u64, AllocError>
    requires settled { IsSettled freelist.now }
    requires start { start ≤ length freelist.now.table.now }
    requires reported { HasFindingsTo freelist.now start
        (length freelist.now.table.now) findings.old.items }
    ensures within { IfOk result (λ from. from ≤ freelist.now.high_water) }
    ensures reported { IfOk result
        (λ from. HasFindingsTo freelist.now from freelist.now.high_water findings.new.items) }
{
    let mut from = start;
    for i in 0..freelist.past.len() {
        from = push_id(freelist, i, from, findings)?;
    }
    Ok(from)
}

/// Pushes the finding on the id at place `i` if it is at or above the mark, and above `last`, the
/// last one pushed. Returns the last one that is pushed now.
fn push_high_id(
    freelist: &Freelist<'_>,
    i: usize,
    last: u64,
    findings: &mut Vec<Finding>,
) -> Result<u64, AllocError>
    requires settled { IsSettled freelist.now }
    requires place { i < length freelist.now.past.now }
    requires reported { IsBeyondTo freelist.now last i findings.old.items }
    ensures { IfOk result (λ next. IsBeyondTo freelist.now next (i + 1) findings.new.items) }
{
    let id = freelist.past[i];
    if id < freelist.high_water || id <= last {
        return Ok(last);
    }
    findings.push(Finding::of_page(Finding::FREE_RANGE, id))?;
    Ok(id)
}

/// Pushes the findings on the ids from the mark on, each once.
#[tactic(auto, using(crate::proofs::FreelistSteps::beyond_start))]
fn push_beyond(freelist: &Freelist<'_>, findings: &mut Vec<Finding>) -> Result<(), AllocError>
    requires settled { IsSettled freelist.now }
    requires reported { AreFindingsBelow freelist.now.high_water (is_in_use freelist.now)
        (listed_times freelist.now) freelist.now.high_water findings.old.items }
    ensures { OnOk result (AreAllFindings freelist.now.high_water (is_in_use freelist.now)
        (listed_times freelist.now) findings.new.items) }
{
    let mut last = 0;
    for i in 0..freelist.past.len() {
        last = push_high_id(freelist, i, last, findings)?;
    }
    Ok(())
}

/// All findings on the pages that the freelist lists, and on those that it lacks.
pub(crate) fn all_findings(
    alloc: Global,
    freelist: &Freelist<'_>,
) -> Result<Vec<Finding>, AllocError>
    requires { IsSettled freelist.now }
    ensures { IfOk result (λ reported. AreAllFindings freelist.now.high_water (is_in_use freelist.now)
        (listed_times freelist.now) reported.items) }
{
    let mut findings = Vec::new(alloc);
    let past_table = push_table(freelist, &mut findings)?;
    let from = push_past(freelist, past_table, &mut findings)?;
    push_interval(&mut findings, from, freelist.high_water)?;
    push_beyond(freelist, &mut findings)?;
    Ok(findings)
}
