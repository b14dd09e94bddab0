//! The compact copy of a sound file in the plain layout, and its plan.
ghost use Rattle.std.specs.Prelude.{◌≡◌};
ghost use Rattle.bolt_check.specs.CheckedFiles.{meta_of};
ghost use Rattle.bolt_format.specs.Metas.{IsPageSize};
ghost use Rattle.bolt_tree.specs.FileListings.{ForListing};
ghost use Rattle.bolt_bulk.specs.Compacting.{CopiesFile, Plans};
ghost use Rattle.bolt_layout.specs.declared.Layout.TheVariants.{Plain};

use crate::blueprint::Blueprint;
use crate::bulk_fault::{BulkFault, PlanFault};
use crate::laws::a_walk_is_whole;
use crate::members_copy::{Done, Plan, compact_members, plan_members};
use bolt_check::Checked;
use bolt_format::Sink;
use bolt_layout::Layout;
use bolt_tree::Walk;
use std::alloc::Global;

/// Returns where a copy of a file in the plain layout, at this page size, will have its root page and
/// its high-water mark: `plan_members` for what the file holds.
///
/// # Errors
///
/// Those of `plan_members`.
pub fn plan(alloc: Global, checked: Checked<'_>, page_size: u64) -> Result<Plan, PlanFault>
    requires { IsPageSize page_size }
    ensures { ForListing checked.entry
        (λ listing. Plans Plain page_size (meta_of checked.entry).root_sequence listing result) }
{
    let blueprint = sound_blueprint(&checked, Layout::Plain, page_size);
    let mut walk = Walk::new(alloc, checked);
    a_walk_is_whole(&walk);
    plan_members(alloc, &mut walk, &blueprint)
}

/// Writes the compact copy of a file in the plain layout, at this page size: `compact_members` for what
/// the file holds.
///
/// # Errors
///
/// Those of `compact_members`.
pub fn compact<S: Sink>(
    alloc: Global,
    checked: Checked<'_>,
    page_size: u64,
    sink: &mut S,
) -> Result<Done, BulkFault>
    requires { IsPageSize page_size }
    ensures { CopiesFile S.taken S.failed sink.old sink.new checked.entry Plain page_size result }
{
    let blueprint = sound_blueprint(&checked, Layout::Plain, page_size);
    let mut walk = Walk::new(alloc, checked);
    a_walk_is_whole(&walk);
    compact_members(alloc, &mut walk, &blueprint, sink)
}

/// What the copy of a checked file looks like.
fn sound_blueprint(checked: &Checked<'_>, layout: Layout, page_size: u64) -> Blueprint
    requires { IsPageSize page_size }
    ensures layout { result.layout ≡ layout }
    ensures page_size { result.page_size ≡ page_size }
    ensures sequence { result.sequence ≡ (meta_of checked.now).root_sequence }
{
    Blueprint {
        layout,
        page_size,
        sequence: checked.meta().root_sequence,
    }
}
