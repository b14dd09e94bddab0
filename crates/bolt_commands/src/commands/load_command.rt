//! The command `load`: a database of the listing that lines tell.
ghost use Rattle.bolt_commands.specs.JobAnswers.{DoesJob};
ghost use Rattle.bolt_job.specs.declared.job.Job.TheVariants.{Load};

use crate::copies::{CopyReport, copy_members, end_copy, layout};
use crate::failure::Outcome;
use crate::file_faults::FileFaults;
use crate::opening::Input;
use bolt_bulk::Blueprint;
use bolt_format::Sink;
use bolt_job::LoadJob;
use bolt_load::{ListingText, a_text_is_of_one_tree};
use bolt_recover::Lost;

/// Writes a database of the listing that the lines of a file tell to `target`, and then the lengths
/// of both to `out`.
pub(crate) fn do_load<O: Sink, T: Sink>(
    input: Input<'_>,
    job: &LoadJob,
    out: &mut O,
    target: &mut T,
) -> Outcome
    ensures { DoesJob O.Sink out.old out.new T.Sink target.old target.new
        input.entry.file.now (Load job.now) result }
{
    let listing = ListingText::read(input.alloc, input.file)?;
    let mut members = listing.members(input.alloc);
    a_text_is_of_one_tree();
    let blueprint = Blueprint {
        layout: layout(job.kind),
        page_size: job.page_size.bytes,
        sequence: job.sequence,
    };
    let copy = copy_members(input.alloc, &mut members, &blueprint, job.kind, target)?;
    let report = CopyReport {
        faults: FileFaults::none(),
        lost: Lost::Parts(&[]),
        found: &[],
        unread: &[],
        counts: None,
        source: input.file.len() as u64,
    };
    end_copy(copy, &report, out)
}
