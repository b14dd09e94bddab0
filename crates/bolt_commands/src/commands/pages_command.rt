//! The command `pages`.
ghost use Rattle.std.specs.Prelude.{◌≡◌, true};
ghost use Rattle.bolt_check.specs.{CheckedFiles.has_accounts, RoledFiles.roles_checked, CheckedFiles.in_checked};
ghost use Rattle.bolt_format.specs.{Endings.ending, Wrote.Wrote};
ghost use Rattle.bolt_report.specs.PageTables.{ForRoles};
ghost use Rattle.bolt_commands.specs.{FilesRead.IsReadAnswer, PageAnswers.IsPagesAnswer, PageAnswers.pages_shown, Private.Printing.PrintsAnswer};
ghost use Rattle.bolt_job.specs.declared.choices.MetaChoice.TheVariants.{Active};

use crate::failure::{Outcome, end_write};
use crate::opening::Input;
use bolt_check::{Roles, check_roles};
use bolt_format::{Sink, SinkFault};
use bolt_job::PagesJob;
use bolt_report::{put_page_map, put_page_table};

/// Writes the table of all pages or, if it is asked for, a map of them.
pub(crate) fn do_pages<O: Sink>(input: Input<'_>, job: &PagesJob, out: &mut O) -> Outcome
    ensures { PrintsAnswer O.Sink out.old out.new
        (IsReadAnswer input.entry.file.now Active
        (IsPagesAnswer input.entry.file.now job.now.map)) result }
{
    let roles = check_roles(input.alloc, input.file)?;
    end_write(put_pages_asked(&roles, job.map, out))
}

fn put_pages_asked<O: Sink>(roles: &Roles<'_>, map: bool, out: &mut O) -> Result<(), SinkFault>
    requires { has_accounts (roles_checked roles.now) ≡ true }
    ensures { ForRoles (roles_checked roles.now) (λ own.
        Wrote O.Sink out.old out.new (in_checked (pages_shown map) (roles_checked roles.now) own)
        (ending result)) }
{
    if map {
        put_page_map(roles, out)
    } else {
        put_page_table(roles, out)
    }
}
