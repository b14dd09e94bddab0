//! The copy of all members that are given one after another, in a few passes over them.
ghost use Rattle.std.specs.Prelude.{◌≡◌, ◌≤◌, IfOk, List, OnOk, length, ◌↔◌, None};
ghost use Rattle.bolt_tree.specs.Listing.{Member};
ghost use Rattle.bolt_bulk.specs.{Compacting.CopiesEach, Compacting.PlansEach, WholeListings.IsAgain, WholeListings.IsWholeListing};
ghost use Rattle.bolt_bulk.specs.Private.{FindsLimits, first_pages, FitAll, FitOne, IsSameWriter, PassesOverMembers, PutsMembers, WritesText};
ghost use Rattle.bolt_layout.specs.{Layout.first_page, PageBytes.copy_meta, PageBytes.filled, declared.Layout.TheVariants.Balanced};

use crate::blueprint::Blueprint;
use crate::bulk_fault::{BulkFault, PlanFault};
use crate::laws::a_listing_has_one_layout;
use crate::limits::Limits;
use crate::page_pieces::{put_unless_empty, put_zeros};
use crate::page_setup::{PageSetup, noting_setup_of, setup_of};
use crate::page_writer::PageWriter;
use crate::pass::{Pass, PassEnd};
use bolt_format::{Kind, Meta, Sink, SinkFault, meta_page, page_header};
use bolt_layout::Layout;
use bolt_tree::Members;
use std::alloc::Global;

/// The page number of the freelist.
const FREELIST: u64 = 2;

/// Where a copy will have its root page, and its high-water mark (docs/LAYOUT.md, "Numbers").
#[derive(Clone, Copy, Debug, PartialEq, Eq)]
pub struct Plan {
    /// The page number of the root bucket's root page.
    pub root: u64,
    /// The high-water mark: the number after the last page.
    pub high_water: u64,
}

/// The size of a copy that was written whole, and how much of it was held at one time.
#[derive(Clone, Copy, Debug, PartialEq, Eq)]
pub struct Done {
    /// How many bytes it has.
    pub bytes: u64,
    /// The greatest number of items that the open runs held at one time (docs/LAYOUT.md, "Held
    /// items").
    pub held: u64,
}

/// The limits of rows that yield the balanced layout, which a pass over the plain one notes.
/// `TooLarge` only if the balanced layout has 2^63 bytes or more.
fn balanced_limits<'a, M: Members<'a>>(
    alloc: Global,
    members: &mut M,
    blueprint: &Blueprint,
) -> Result<Limits, PlanFault>
    requires { IsWholeListing M.reads M.listing M.left members.old }
    ensures { FindsLimits M.reads M.listing M.left M.ends_as members.old members.new Balanced
        blueprint.now.page_size blueprint.now.sequence result }
{
    a_listing_has_one_layout(blueprint.page_size, blueprint.sequence);
    let none = Limits::none(alloc);
    let setup = noting_setup_of(alloc, blueprint.page_size);
    let ended = pass_over(setup, &none, true, members)?;
    Ok(ended.noted)
}

/// The limits of rows that yield the layout.
fn limits_of<'a, M: Members<'a>>(
    alloc: Global,
    members: &mut M,
    blueprint: &Blueprint,
) -> Result<Limits, PlanFault>
    requires { IsWholeListing M.reads M.listing M.left members.old }
    ensures { FindsLimits M.reads M.listing M.left M.ends_as members.old members.new blueprint.now.layout
        blueprint.now.page_size blueprint.now.sequence result }
{
    match blueprint.layout {
        Layout::Plain => Ok(Limits::none(alloc)),
        Layout::Balanced => balanced_limits(alloc, members, blueprint),
    }
}

/// The plan of the layout whose rows have these limits.
fn plan_within<'a, M: Members<'a>>(
    alloc: Global,
    members: &mut M,
    limits: &Limits,
    blueprint: &Blueprint,
) -> Result<Plan, PlanFault>
    requires whole { IsWholeListing M.reads M.listing M.left members.old }
    requires fit { FitAll M.reads M.listing members.old blueprint.now.layout blueprint.now.page_size
        limits.now }
    ensures plans { PlansEach (M.reads members.old) M.listing blueprint.now.layout blueprint.now.page_size
        blueprint.now.sequence result }
    ensures again { IfOk result (λ plan. IsAgain M.reads M.listing M.left M.ends_as members.old members.new) }
{
    a_listing_has_one_layout(blueprint.page_size, blueprint.sequence);
    let setup = setup_of(alloc, blueprint.page_size);
    let ended = pass_over(setup, limits, false, members)?;
    Ok(Plan {
        root: ended.root,
        high_water: ended.high_water,
    })
}

/// Returns where a copy of all members of a listing that is of one tree will have its root page and its
/// high-water mark (docs/LAYOUT.md). Nothing is written. No member may have been taken before. It needs
/// memory only for what `compact_members` needs it for too.
///
/// # Errors
///
/// `TooLarge` if the layout has 2^63 bytes or more; `Memory` if memory runs out. A layout of that
/// size has no plan: the error is one of these two.
pub fn plan_members<'a, M: Members<'a>>(
    alloc: Global,
    members: &mut M,
    blueprint: &Blueprint,
) -> Result<Plan, PlanFault>
    requires { IsWholeListing M.reads M.listing M.left members.old }
    ensures { PlansEach (M.reads members.old) M.listing blueprint.now.layout blueprint.now.page_size
        blueprint.now.sequence result }
{
    let limits = limits_of(alloc, members, blueprint)?;
    plan_within(alloc, members, &limits, blueprint)
}

/// Writes the copy of all members of a listing that is of one tree, from its first byte to its last: its
/// one plain or balanced layout (docs/LAYOUT.md). No member may have been taken before. They come twice,
/// for the plan and for the pages, and begin again in between. For a balanced copy they come once more
/// before that, for the limits of the rows; one number is kept for each row that would end in a page with
/// one child. If the result isn't `Ok`, the sink has accepted a proper prefix of the layout, which
/// `check` refuses.
///
/// # Errors
///
/// `TooLarge` if the layout has 2^63 bytes or more, and then no byte was written; `Memory` if
/// memory runs out; `Sink` if the sink fails.
pub fn compact_members<'a, M: Members<'a>, S: Sink>(
    alloc: Global,
    members: &mut M,
    blueprint: &Blueprint,
    sink: &mut S,
) -> Result<Done, BulkFault>
    requires { IsWholeListing M.reads M.listing M.left members.old }
    ensures copies { CopiesEach S.taken S.failed sink.old sink.new (M.reads members.old) M.listing
        blueprint.now.layout blueprint.now.page_size blueprint.now.sequence result }
    ensures end { OnOk result (M.ends_as members.old members.new) }
{
    a_listing_has_one_layout(blueprint.page_size, blueprint.sequence);
    let limits = limits_of(alloc, members, blueprint)?;
    let plan = plan_within(alloc, members, &limits, blueprint)?;
    put_first_pages(blueprint, &plan, sink)?;
    let setup = setup_of(alloc, blueprint.page_size);
    let ended = put_pages(setup, &limits, false, members, sink)?;
    Ok(Done {
        bytes: ended.high_water * blueprint.page_size,
        held: ended.held,
    })
}

/// The meta of a copy with this transaction id.
fn meta(blueprint: &Blueprint, plan: &Plan, txid: u64) -> Meta
    ensures { result ≡ copy_meta blueprint.now.page_size plan.now.root blueprint.now.sequence
        plan.now.high_water txid }
{
    Meta {
        page_size: blueprint.page_size as u32,
        root: plan.root,
        root_sequence: blueprint.sequence,
        freelist: FREELIST,
        high_water: plan.high_water,
        txid,
    }
}

/// Writes bytes, and zeros up to the end of a page.
fn put_filled<S: Sink>(bytes: &[u8], page_size: usize, sink: &mut S) -> Result<(), SinkFault>
    requires { length bytes.now ≤ page_size }
    ensures { WritesText S.Sink sink.old sink.new (filled page_size bytes.now) result }
{
    put_unless_empty(bytes, sink)?;
    put_zeros(page_size - bytes.len(), sink)
}

/// Writes both metas, and a freelist without ids.
fn put_first_pages<S: Sink>(
    blueprint: &Blueprint,
    plan: &Plan,
    sink: &mut S,
) -> Result<(), SinkFault>
    ensures { WritesText S.Sink sink.old sink.new
        (first_pages blueprint.now.page_size plan.now.root blueprint.now.sequence
        plan.now.high_water) result }
{
    let page_size = blueprint.page_size as usize;
    put_filled(&meta_page(0, &meta(blueprint, plan, 0)), page_size, sink)?;
    put_filled(&meta_page(1, &meta(blueprint, plan, 1)), page_size, sink)?;
    let freelist = page_header(FREELIST, Kind::Freelist, 0, 0);
    put_filled(&freelist, page_size, sink)
}

/// Passes over all members as `put_pages` does, but writes nothing. The members begin again.
fn pass_over<'a, M: Members<'a>>(
    setup: PageSetup,
    limits: &Limits,
    notes: bool,
    members: &mut M,
) -> Result<PassEnd, PlanFault>
    requires room { 3 ≤ setup.greatest_high_water }
    requires whole { IsWholeListing M.reads M.listing M.left members.old }
    requires fit { FitOne M.reads M.listing members.old setup.page_size limits.now }
    ensures ends { PassesOverMembers M.reads M.listing members.old setup limits.now notes result }
    ensures again { OnOk result (IsAgain M.reads M.listing M.left M.ends_as members.old members.new) }
{
    match put_pages(setup, limits, notes, members, &mut NoSink) {
        Ok(ended) => {
            members.restart(setup.alloc)?;
            Ok(ended)
        }
        Err(BulkFault::TooLarge) => Err(PlanFault::TooLarge),
        Err(BulkFault::Memory) => Err(PlanFault::Memory),
        Err(BulkFault::Sink) => unreachable!(),
    }
}

/// Writes the pages of all members, in the layout whose rows have these limits. If `notes` is set
/// and this is the plain layout, it returns the limits of the balanced one.
fn put_pages<'a, M: Members<'a>, S: Sink>(
    setup: PageSetup,
    limits: &Limits,
    notes: bool,
    members: &mut M,
    sink: &mut S,
) -> Result<PassEnd, BulkFault>
    requires room { 3 ≤ setup.greatest_high_water }
    requires whole { IsWholeListing M.reads M.listing M.left members.old }
    ensures pages { PutsMembers S.Sink sink.old sink.new M.reads M.listing members.old setup limits.now notes
        result }
    ensures end { OnOk result (M.ends_as members.old members.new) }
    ensures reads { (whole : M.Whole) → M.reads members.new whole ↔ M.reads members.old whole }
    ensures same_end { (end : M) → M.ends_as members.new end → M.ends_as members.old end }
{
    let mut writer = PageWriter {
        setup,
        next: 3,
        sink,
    };
    put_members(limits, notes, members, &mut writer)
}

/// Writes the pages of all members, as `put_pages` does, with a writer that has written none.
fn put_members<'a, M: Members<'a>, S: Sink>(
    limits: &Limits,
    notes: bool,
    members: &mut M,
    writer: &mut PageWriter<'_, S>,
) -> Result<PassEnd, BulkFault>
    requires first { writer.old.next ≡ first_page }
    requires whole { IsWholeListing M.reads M.listing M.left members.old }
    ensures same { IsSameWriter writer.old writer.new }
    ensures pages { PutsMembers S.Sink writer.old.sink.now writer.new.sink.now M.reads M.listing members.old
        writer.old.setup limits.now notes result }
    ensures end { OnOk result (M.ends_as members.old members.new) }
    ensures reads { (whole : M.Whole) → M.reads members.new whole ↔ M.reads members.old whole }
    ensures same_end { (end : M) → M.ends_as members.new end → M.ends_as members.old end }
{
    let mut pass = Pass::new(writer.setup, limits, notes);
    'members: while let Some(item) = members.next()? {
        pass.take_member(members.path(), item, writer)?;
    }
    pass.end_all(writer)
}

/// Accepts all bytes, and keeps none.
#[derive(Drop)]
pub(crate) struct NoSink;

impl Sink for NoSink {
    ghost taken = { λ _. None };

    ghost failed = { λ _. 0 };

    fn put(&mut self, _bytes: &[u8]) -> Result<(), SinkFault> {
        Ok(())
    }

    fn failures(&self) -> u64 {
        0
    }

    fn keeps_nothing(&self) -> bool {
        true
    }
}
