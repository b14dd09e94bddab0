//! The command `list`.
ghost use Rattle.std.specs.Prelude.{◌≡◌, IfOk, OnOk};
ghost use Rattle.bolt_format.specs.Wrote.{Wrote};
ghost use Rattle.bolt_report.specs.MembersLeft.{ForLeft, ForRising};
ghost use Rattle.bolt_text.specs.ReportEndings.{report_ending};
ghost use Rattle.bolt_tree.specs.FileListings.{ForListing};
ghost use Rattle.bolt_commands.specs.{ListAnswers.IsListPrint, Private.Endings.MayFail, Private.Contents.IsOpened, Private.Contents.IsSearchOf};
ghost use Rattle.bolt_commands.specs.{Private.Printing.PrintsAnswer, Private.Printing.PutsJoined, Private.Printing.PutsListing};
ghost use Rattle.bolt_commands.specs.{Private.Printing.PutsPart, Private.Printing.finds, Private.Printing.job_part, Private.Printing.sound_part};

use crate::failure::{Failure, Outcome, end_listing};
use crate::file_faults::metas_fault;
use crate::opening::{Contents, Input, join, open_bucket};
use crate::shortfall::Shortfall;
use bolt_check::Checked;
use bolt_format::Sink;
use bolt_job::{ListJob, path_slices};
use bolt_recover::LostAndFound;
use bolt_recover::laws::{
    each_file_has_a_joined_listing, each_file_has_found_pages, joined_members_rise,
};
use bolt_report::{ReportFault, put_list_part, put_member_part};
use bolt_tree::Members;
use std::alloc::Global;

/// Writes a part of the listing: that of a sound file, of what is recovered of a damaged one, or of that
/// joined with what is found of it.
pub(crate) fn do_list<O: Sink>(input: Input<'_>, job: &ListJob, out: &mut O) -> Outcome
    ensures { PrintsAnswer O.Sink out.old out.new
        (IsListPrint job.now input.entry.file.now) result }
{
    each_file_has_found_pages();
    let mut contents = input.open(job.meta, job.extent)?;
    let other = metas_fault(job.extent, input.file, job.meta);
    if put_listed_part(input, job, &mut contents, out)? {
        end_listing(Shortfall::find(contents.lost(), other))
    } else {
        Err(Failure::NoBucket)
    }
}

/// Writes the part that is wanted, and returns whether the listing has the bucket.
fn put_listed_part<O: Sink>(
    input: Input<'_>,
    job: &ListJob,
    contents: &mut Contents<'_>,
    out: &mut O,
) -> Result<bool, Failure>
    requires { IsOpened job.now.extent input.file.now job.now.meta contents.old }
    ensures { PutsPart O.Sink out.old out.new job.now input.entry.file.now contents.new result }
{
    match contents {
        Contents::Sound(checked) => put_sound_part(input.alloc, *checked, job, out),
        Contents::Recovered(recovery) => Ok(put_members_part(input.alloc, recovery, job, out)?),
        Contents::Searched(searched) => put_joined_part(input, searched, job, out),
    }
}

/// Writes the part that is wanted of a sound file, and returns whether it has the bucket.
fn put_sound_part<O: Sink>(
    alloc: Global,
    checked: Checked<'_>,
    job: &ListJob,
    out: &mut O,
) -> Result<bool, Failure>
    ensures { ForListing checked.entry (PutsListing O.Sink out.old out.new job.now result) }
{
    let Ok(_) = open_bucket(checked, job.path.as_slice()) else {
        return Ok(false);
    };
    put_whole_part(alloc, checked, job, out)?;
    Ok(true)
}

/// Writes the part that is wanted of what is recovered of a file and what is found of it, and returns
/// whether it has the bucket.
fn put_joined_part<O: Sink>(
    input: Input<'_>,
    searched: &LostAndFound<'_>,
    job: &ListJob,
    out: &mut O,
) -> Result<bool, Failure>
    requires { IsSearchOf input.file.now job.now.meta searched.now }
    ensures { PutsJoined O.Sink out.old out.new job.now input.entry.file.now searched.now result }
{
    each_file_has_a_joined_listing();
    let mut joined = join(input, job.meta, searched)?;
    joined_members_rise(&joined);
    Ok(put_members_part(input.alloc, &mut joined, job, out)?)
}

/// Writes the part that is wanted of a sound file that has the bucket.
fn put_whole_part<O: Sink>(
    alloc: Global,
    checked: Checked<'_>,
    job: &ListJob,
    out: &mut O,
) -> Result<(), ReportFault>
    ensures written { ForListing checked.entry (λ listing.
        Wrote O.Sink out.old out.new (sound_part job.now listing) (report_ending result)) }
    ensures fault { MayFail result }
{
    let path = path_slices(alloc, job.path.as_slice())?;
    let from = path_slices(alloc, job.from.as_slice())?;
    put_list_part(
        alloc,
        checked,
        path.as_slice(),
        from.as_slice(),
        job.form,
        out,
    )
}

/// Writes the part that is wanted of what these members list, and returns whether they have the bucket.
fn put_members_part<'a, M: Members<'a>, O: Sink>(
    alloc: Global,
    members: &mut M,
    job: &ListJob,
    out: &mut O,
) -> Result<bool, ReportFault>
    ensures written { ForRising M.reads M.left members.old (λ left.
        Wrote O.Sink out.old out.new (job_part job.now left) (report_ending result)) }
    ensures found { IfOk result (λ found.
        ForLeft M.reads M.left members.old (λ left. found ≡ finds job.now left)) }
    ensures end { OnOk result (M.ends_as members.old members.new) }
    ensures fault { MayFail result }
{
    let path = path_slices(alloc, job.path.as_slice())?;
    let from = path_slices(alloc, job.from.as_slice())?;
    put_member_part(
        alloc,
        members,
        path.as_slice(),
        from.as_slice(),
        job.form,
        out,
    )
}
