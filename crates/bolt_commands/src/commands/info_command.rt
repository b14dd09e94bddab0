//! The command `info`.
ghost use Rattle.std.specs.Prelude.{IfErr, IfOk};
ghost use Rattle.bolt_commands.specs.{PageAnswers.HasNoMeta, PageAnswers.IsInfoAnswer, PageAnswers.IsShownMeta, Private.Printing.PrintsAnswer};

use crate::failure::{Outcome, end_write};
use crate::opening::Input;
use bolt_format::{Meta, MetaFault, Sink, Slot, choose, slot_meta};
use bolt_job::InfoJob;
use bolt_report::info;

/// Writes the figures of the meta in a slot or, without one, of the active meta.
pub(crate) fn do_info<O: Sink>(input: Input<'_>, job: &InfoJob, out: &mut O) -> Outcome
    ensures { PrintsAnswer O.Sink out.old out.new
        (IsInfoAnswer input.entry.file.now job.now.slot job.now.form) result }
{
    let (slot, meta) = find_meta(input.file, job.slot)?;
    end_write(info(slot, &meta, job.form, out))
}

fn find_meta(file: &[u8], slot: Option<Slot>) -> Result<(Slot, Meta), MetaFault>
    ensures found { IfOk result (λ found. IsShownMeta file.now slot found.0 found.1) }
    ensures none { IfErr result (HasNoMeta file.now slot) }
{
    match slot {
        None => choose(file),
        Some(slot) => Ok((slot, slot_meta(file, slot)?)),
    }
}
