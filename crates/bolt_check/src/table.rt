//! The table of pages: one byte for each whole page that lies in the file and below the high-water
//! mark. So it doesn't grow with the mark, which may be far past the end of the file. The meta pages
//! are claimed, whether the table has them or not.
ghost use Rattle.std.specs.Prelude.{◌≡◌, ◌==◌, ℕ, not, true, ◌<◌, ◌≤◌, ◌+◌, ◌*◌, ◌↔◌, length, IfOk, IfSome, MatchOption};
ghost use Rattle.bolt_check.specs.{Findings.IsMetaPage, Private.Freelists.IsUnlisted};
ghost use Rattle.bolt_check.specs.Private.Tables.{HasRoom, IsClaimed, IsUnclaimed, first_use, is_used, times_of, unclaimed, use_at};
ghost use Rattle.bolt_check.specs.{TableLengths.table_length, Private.Uses.IsMetaUse, Private.Uses.IsNoted};

use bolt_format::Meta;
use std::alloc::{AllocError, Global};

/// What a page is used for, and whether it is listed as free.
#[derive(Clone, Copy)]
#[repr(u8)]
pub(crate) enum PageUse {
    /// A page that is neither used nor listed so far.
    Unused,
    /// A branch that a way leads to.
    Branch,
    /// A leaf that a way leads to.
    Leaf,
    /// A meta page, a later page of a span that a way leads to, or a page of the freelist's span.
    Used,
    /// Listed as free once.
    Free,
    /// Listed as free more than once.
    FreeTwice,
    /// Used, and listed as free once.
    UsedFree,
    /// Used, and listed as free more than once.
    UsedFreeTwice,
}

/// The table at the start, in which the meta pages alone are claimed. It has an entry for each whole
/// page that lies in the file and below the high-water mark.
pub(crate) fn new_table(alloc: Global, file: &[u8], meta: &Meta) -> Result<Vec<PageUse>, AllocError>
    requires { 0 < meta.now.page_size }
    ensures metas { IfOk result (λ table. (n : ℕ) → IsClaimed table.items n ↔ IsMetaPage n) }
    ensures uses { IfOk result (λ table. (n : ℕ) (u : PageUse) → IsNoted table.items n u
        → IsMetaUse n u) }
    ensures room { IfOk result (λ table. HasRoom file.now meta.now table.items) }
    ensures unlisted { IfOk result (λ table. IsUnlisted table.items) }
    ensures length { IfOk result (λ table. length table.items ≡ table_length file.now meta.now) }
    ensures begin { IfOk result (λ table. (n : ℕ) → n < length table.items
        → n * meta.now.page_size < length file.now) }
{
    let pages = (file.len() / meta.page_size as usize) as u64;
    let mut table = vec![in alloc; PageUse::Unused; pages.min(meta.high_water) as usize]?;
    for n in 0..table.len().min(2) {
        table[n] = PageUse::Used;
    }
    Ok(table)
}

/// Sets each entry to what its page is used for from the start.
pub(crate) fn reset(table: &mut [PageUse])
    ensures { (n : ℕ) → use_at table.new n ≡ first_use n }
{
    for n in 0..table.len() {
        table[n] = use_at_first(n);
    }
}

/// What a page is used for from the start.
pub(crate) fn use_at_first(n: usize) -> PageUse
    ensures { result ≡ first_use n }
{
    if n < 2 {
        PageUse::Used
    } else {
        PageUse::Unused
    }
}

/// The lowest claimed page of a span.
pub(crate) fn first_claimed(table: &[PageUse], from: usize, last: usize) -> Option<usize>
    requires order { from ≤ last }
    requires within { last < length table.now }
    ensures lowest { IfSome result (λ n. (from ≤ n) × (n ≤ last) × IsClaimed table.now n
        × ((k : ℕ) → from ≤ k → k < n → IsUnclaimed table.now k)) }
    ensures none { MatchOption result ((k : ℕ) → from ≤ k → k ≤ last
        → IsUnclaimed table.now k) (λ _. Unit {0}) }
{
    for n in from..last + 1 {
        if is_used(table[n]) {
            return Some(n);
        }
    }
    None
}

fn is_used(page_use: PageUse) -> bool
    ensures { result ≡ is_used page_use }
{
    match page_use {
        PageUse::Branch
        | PageUse::Leaf
        | PageUse::Used
        | PageUse::UsedFree
        | PageUse::UsedFreeTwice => true,
        PageUse::Unused | PageUse::Free | PageUse::FreeTwice => false,
    }
}

/// Whether a page is listed as free.
pub(crate) fn is_listed(page_use: PageUse) -> bool
    ensures { result ≡ not (times_of page_use == 0) }
{
    match page_use {
        PageUse::Free | PageUse::FreeTwice | PageUse::UsedFree | PageUse::UsedFreeTwice => true,
        PageUse::Unused | PageUse::Branch | PageUse::Leaf | PageUse::Used => false,
    }
}

/// Claims the pages of a span, none of which is claimed. The first one gets this use.
#[tactic(auto, using(crate::proofs::TableLemmas::unclaimed_fewer, crate::proofs::TableLemmas::unclaimed_set))]
pub(crate) fn claim(table: &mut [PageUse], from: usize, last: usize, first: PageUse)
    requires order { from ≤ last }
    requires within { last < length table.old }
    requires free { IsUnclaimed table.old from }
    requires used { is_used first ≡ true }
    requires unlisted { times_of first ≡ 0 }
    ensures span { (k : ℕ) → from ≤ k → k ≤ last → IsClaimed table.new k }
    ensures unlisted { (k : ℕ) → from ≤ k → k ≤ last → times_of (use_at table.new k) ≡ 0 }
    ensures first { use_at table.new from ≡ first }
    ensures later { (k : ℕ) → from < k → k ≤ last → use_at table.new k ≡ PageUse.Used }
    ensures below { (k : ℕ) → k < from → use_at table.new k ≡ use_at table.old k }
    ensures above { (k : ℕ) → last < k → use_at table.new k ≡ use_at table.old k }
    ensures fewer { unclaimed table.new < unclaimed table.old }
{
    table[from] = first;
    for n in from + 1..last + 1 {
        table[n] = PageUse::Used;
    }
}
