//! The command `etcd-repair`: a copy in which the revisions that are found are back in their bucket.
ghost use Rattle.bolt_commands.specs.{JobAnswers.DoesJob, Private.Repairing.CopiesRepaired};
ghost use Rattle.bolt_job.specs.{CopyKinds.is_snapshot, declared.job.Job.TheVariants.EtcdRepair};

use crate::copies::{CopyReport, blueprint_of, copy_members, end_copy};
use crate::failure::{Failure, Outcome};
use crate::file_faults::FileFaults;
use crate::laws::repaired_members_are_whole;
use crate::opening::Input;
use crate::repair_counts::RepairCounts;
use bolt_bulk::Blueprint;
use bolt_format::Sink;
use bolt_job::{CopyKind, EtcdRepairJob, Extent};
use bolt_repair::{Bound, Repair, RepairedListing};
use std::alloc::Global;

/// Writes the copy of a damaged file to `target` in which the revisions that are found are back, and
/// then what is lost, how many are back and the lengths of both files to `out`.
pub(crate) fn do_etcd_repair<O: Sink, T: Sink>(
    input: Input<'_>,
    job: &EtcdRepairJob,
    out: &mut O,
    target: &mut T,
) -> Outcome
    ensures { DoesJob O.Sink out.old out.new T.Sink target.old target.new
        input.entry.file.now (EtcdRepair job.now) result }
{
    let searched = input.search(job.meta)?;
    let repair = Repair::find(input.alloc, &searched, job.search)?;
    let faults = FileFaults::of_copy(input.file, job.kind, Extent::FoundPages, job.meta);
    let blueprint = blueprint_of(job.kind, job.page_size, &searched.meta);
    let copy = copy_repaired(input.alloc, &repair, &blueprint, job.kind, target)?;
    let lost = searched.lost();
    let unread = repair.unread.as_slice();
    let report = CopyReport {
        faults,
        lost,
        found: &[],
        unread,
        counts: Some(RepairCounts {
            bound: Bound::of(lost, unread, faults.other.is_some()),
            back: repair.back.len() as u64,
            left_out: repair.left_out,
        }),
        source: input.file.len() as u64,
    };
    end_copy(copy, &report, out)
}

/// Writes the copy of the repaired listing, and returns its length.
fn copy_repaired<T: Sink>(
    alloc: Global,
    repair: &Repair<'_>,
    blueprint: &Blueprint,
    kind: CopyKind,
    target: &mut T,
) -> Result<u64, Failure>
    ensures { CopiesRepaired T.Sink target.old target.new repair.now blueprint.now
        (is_snapshot kind) result }
{
    let mut repaired = RepairedListing::new(alloc, repair)?;
    repaired_members_are_whole(&repaired);
    let copied = copy_members(alloc, &mut repaired, blueprint, kind, target)?;
    Ok(copied)
}
