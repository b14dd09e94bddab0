//! What the freelist lists: the table of pages, and the ids after it.
ghost use Rattle.std.specs.Prelude.{◌≡◌, ◌≢◌, ◌<◌, ◌+◌, ℕ, IfOk, filter, length, min, nat_le};
ghost use Rattle.bolt_format.specs.ShownIds.{shown_ids};
ghost use Rattle.bolt_check.specs.{Accounts.times_in, Private.Tables.is_used, Private.Tables.times_of, Private.Tables.use_at};
ghost use Rattle.bolt_check.specs.Private.Freelists.{IsUnlisted, KeepsUsed, ListsId, ListsIds};

use crate::table::PageUse;
use bolt_format::FreeIds;
use std::alloc::{AllocError, Global};

/// What each page is for. The table says so of the first pages. No page after the table is used;
/// the sorted ids say which of these are listed.
#[derive(Clone, Copy)]
pub(crate) struct Freelist<'a> {
    pub table: &'a [PageUse],
    pub past: &'a [u64],
    /// The high-water mark.
    pub high_water: u64,
}

/// The use of a page that is listed once more.
fn listed(page_use: PageUse) -> PageUse
    ensures used { is_used result ≡ is_used page_use }
    ensures times { times_of result ≡ min 2 (times_of page_use + 1) }
{
    match page_use {
        PageUse::Unused => PageUse::Free,
        PageUse::Free | PageUse::FreeTwice => PageUse::FreeTwice,
        PageUse::Branch | PageUse::Leaf | PageUse::Used => PageUse::UsedFree,
        PageUse::UsedFree | PageUse::UsedFreeTwice => PageUse::UsedFreeTwice,
    }
}

/// Lists one id in the table, if it isn't past it.
#[tactic(auto, using(crate::proofs::TableLemmas::used_kept))]
fn list_id(id: u64, table: &mut [PageUse])
    ensures used { KeepsUsed table.old table.new }
    ensures times { ListsId id table.old table.new }
    ensures kept { (n : ℕ) → n ≢ id → use_at table.new n ≡ use_at table.old n }
{
    if table.len() as u64 <= id {
        return;
    }
    let n = id as usize;
    table[n] = listed(table[n]);
}

/// Lists the ids in the table. Those past it are ignored. Needs no memory.
pub(crate) fn list_ids(ids: FreeIds<'_>, table: &mut [PageUse])
    requires { IsUnlisted table.old }
    ensures used { KeepsUsed table.old table.new }
    ensures times { ListsIds (shown_ids ids.entry) table.old table.new }
    ensures kept { (n : ℕ) → times_in (shown_ids ids.entry) n ≡ 0
        → use_at table.new n ≡ use_at table.old n }
{
    for i in 0..ids.len() {
        list_id(ids.get(i), table);
    }
}

/// The ids that aren't below a number, in their order.
pub(crate) fn ids_from(alloc: Global, ids: FreeIds<'_>, first: u64) -> Result<Vec<u64>, AllocError>
    ensures { IfOk result (λ past. past.items
        ≡ filter (λ id. nat_le first id) (shown_ids ids.entry)) }
{
    let mut past = Vec::new(alloc);
    for i in 0..ids.len() {
        let id = ids.get(i);
        if first <= id {
            past.push(id)?;
        }
    }
    Ok(past)
}
