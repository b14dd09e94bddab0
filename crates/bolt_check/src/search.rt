//! The search of all ways, in order, for the first finding. It isn't recursive: what is nested deep
//! needs memory for the spots that are pending, but no stack.
ghost use Rattle.std.specs.Prelude.{◌≡◌, ◌<◌, ◌≤◌, ◌+◌, ◌*◌, ◌++◌, ◌∷◌, [], IfErr, IfOk, OnOk, Ok, length, vec_len};
ghost use Rattle.bolt_check.specs.{Findings.IsMetaPage, Nodes.node_at, OnWays.reach_of, Private.Freelists.IsUnlisted, Sound.PassesTests};
ghost use Rattle.bolt_check.specs.{Private.Pending.CarriesPending, Private.Pending.kids, Private.Pending.spots_of};
ghost use Rattle.bolt_check.specs.{Private.RoleTables.ClaimsUsed, Private.RoleTables.NotesUses, Private.SearchFaults.IsPendingFault};
ghost use Rattle.bolt_check.specs.{Private.SearchFaults.IsSearchFault};
ghost use Rattle.bolt_check.specs.{Private.Tables.HasRoom, Private.Tables.unclaimed, TableLengths.table_length};
ghost use Rattle.bolt_check.specs.{ShownNodes.shown_node, ShownSpots.page_spot, Ways.At_page, Ways.root_spot};

use crate::check_fault::CheckFault;
use crate::spot::{PageSpot, Spot};
use crate::table::{PageUse, new_table};
use crate::visit::visit;
use bolt_format::{Meta, TreePage};
use std::alloc::{AllocError, Global};

/// Pushes what a page leads to onto the pending spots, in reverse, so that the first is on top.
#[tactic(auto, using(crate::proofs::NodeLemmas::length_entries, crate::proofs::Pendings::kids_none, crate::proofs::Pendings::kids_some, crate::proofs::Pendings::kids_end, crate::proofs::Pendings::kids_all, crate::proofs::Pendings::spots_push))]
fn push_kids<'a>(
    node: &TreePage<'a>,
    spot: &PageSpot<'a>,
    pending: &mut Vec<Spot<'a>>,
) -> Result<(), AllocError>
    requires { spot.now.depth ≤ 64 }
    ensures kids { OnOk result (spots_of pending.new.items
        ≡ kids (shown_node node.now) (page_spot spot.now) ++ spots_of pending.old.items) }
    ensures few { OnOk result (vec_len pending.new < vec_len pending.old + 65536) }
{
    let mut i = node.count();
    while i > 0 {
        i -= 1;
        if let Some(kid) = spot.step(node, i) {
            pending.push(kid)?;
        }
    }
    Ok(())
}

/// The pending spots at the start: the root page alone.
fn new_pending<'a>(alloc: Global, root: u64) -> Result<Vec<Spot<'a>>, AllocError>
    ensures { IfOk result (λ pending. spots_of pending.items ≡ At_page (root_spot root) ∷ []) }
{
    let mut pending = Vec::new(alloc);
    pending.push(Spot::Page(PageSpot::root(root)))?;
    Ok(pending)
}

/// Visits the spot that was popped from the pending spots, and pushes what it leads to.
fn step<'a>(
    file: &'a [u8],
    meta: &Meta,
    spot: Spot<'a>,
    table: &mut [PageUse],
    pending: &mut Vec<Spot<'a>>,
) -> Result<(), CheckFault>
    requires { HasRoom file.now meta.now table.old }
    ensures room { OnOk result (HasRoom file.now meta.now table.new) }
    ensures unlisted { OnOk result (IsUnlisted table.old → IsUnlisted table.new) }
    ensures length { OnOk result (length table.new ≡ length table.old) }
    ensures less { OnOk result (unclaimed table.new * 65536 + vec_len pending.new
        ≤ unclaimed table.old * 65536 + vec_len pending.old) }
    ensures carried { OnOk result (CarriesPending (node_at file.now meta.now)
        spot.entry pending.old.items table.old pending.new.items table.new) }
    ensures reported { IfErr result (IsPendingFault (node_at file.now meta.now)
        spot.entry pending.old.items table.old) }
{
    match spot {
        Spot::Page(spot) => {
            let node = visit(file, meta, &spot, table)?;
            push_kids(&node, &spot, pending)?;
            Ok(())
        }
        Spot::Bucket(spot) => {
            spot.test()?;
            Ok(())
        }
    }
}

/// Searches all ways from the root page, in order, for a finding. Returns a table in which the
/// pages of all spans are claimed.
pub(crate) fn search(alloc: Global, file: &[u8], meta: &Meta) -> Result<Vec<PageUse>, CheckFault>
    requires { 0 < meta.now.page_size }
    ensures clean { OnOk result (PassesTests file.now meta.now) }
    ensures covered { IfOk result (λ table. ClaimsUsed file.now meta.now table.items) }
    ensures uses { IfOk result (λ table. NotesUses file.now meta.now table.items) }
    ensures room { IfOk result (λ table. HasRoom file.now meta.now table.items) }
    ensures unlisted { IfOk result (λ table. IsUnlisted table.items) }
    ensures length { IfOk result (λ table. length table.items ≡ table_length file.now meta.now) }
    ensures first { IfErr result (IsSearchFault (node_at file.now meta.now)
        (reach_of file.now meta.now) IsMetaPage) }
{
    let mut table = new_table(alloc, file, meta)?;
    let mut pending = new_pending(alloc, meta.root)?;
    while let Some(spot) = pending.pop() {
        step(file, meta, spot, &mut table, &mut pending)?;
    }
    Ok(table)
}
