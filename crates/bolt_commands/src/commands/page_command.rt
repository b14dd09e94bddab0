//! The command `page`.
ghost use Rattle.bolt_commands.specs.{PageAnswers.IsPageAnswer, Private.Printing.PrintsAnswer};

use crate::failure::{Outcome, end_report};
use crate::opening::Input;
use bolt_format::Sink;
use bolt_job::PageJob;
use bolt_report::page_text;

/// Writes the text of a page.
pub(crate) fn do_page<O: Sink>(input: Input<'_>, job: &PageJob, out: &mut O) -> Outcome
    ensures { PrintsAnswer O.Sink out.old out.new
        (IsPageAnswer input.entry.file.now job.now.meta job.now.id) result }
{
    let meta = job.meta.find(input.file)?;
    end_report(page_text(input.file, &meta, job.id, out))
}
