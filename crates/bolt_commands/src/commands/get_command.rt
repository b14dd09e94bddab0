//! The command `get`: the value at a path of a sound file, or the one that is recovered.
ghost use Rattle.std.specs.Prelude.{◌≡◌, IfErr, IfOk, false};
ghost use Rattle.bolt_check.specs.CheckedFiles.{bytes_of, meta_of};
ghost use Rattle.bolt_tree.specs.{Entries.Value};
ghost use Rattle.bolt_commands.specs.{FilesRead.HoldsIn, KeyAnswers.HoldsNone, KeyAnswers.IsGetPrint, KeyAnswers.IsValueShown};
ghost use Rattle.bolt_commands.specs.{Private.Printing.PrintsAnswer, KeyAnswers.IsRecoveredAnswer, KeyAnswers.IsRecoveredValue, KeyAnswers.no_bucket};
ghost use Rattle.bolt_commands.specs.{KeyAnswers.no_key, Private.Recovered.value_or_why};
ghost use Rattle.bolt_job.specs.PlainWords.{owned_path};

use crate::failure::{Failure, Outcome, end_listing, end_report};
use crate::file_faults::metas_fault;
use crate::opening::{Input, open_bucket};
use crate::recovered_names::no_bucket;
use crate::shortfall::Shortfall;
use crate::value_text::put_value;
use bolt_check::Checked;
use bolt_format::Sink;
use bolt_job::{Extent, GetJob, path_slices};
use bolt_recover::Lost;
use bolt_report::{AtPath, look_up};

/// Writes the value at a path, and a line feed unless none is wanted.
pub(crate) fn do_get<O: Sink>(input: Input<'_>, job: &GetJob, out: &mut O) -> Outcome
    ensures { PrintsAnswer O.Sink out.old out.new (IsGetPrint job.now input.entry.file.now) result }
{
    if job.recover {
        get_recovered(input, job, out)
    } else {
        get_sound(input, job, out)
    }
}

/// Writes the value at a path of a sound file.
fn get_sound<O: Sink>(input: Input<'_>, job: &GetJob, out: &mut O) -> Outcome
    ensures { PrintsAnswer O.Sink out.old out.new
        (IsValueShown false input.entry.file.now job.now.meta job.now) result }
{
    let checked = input.read(job.meta)?;
    let value = find_value(checked, job.path.as_slice())?;
    end_report(put_value(input.alloc, value, job.form, job.no_newline, out))
}

/// The value at a path. The last part is its key.
fn find_value<'a>(checked: Checked<'a>, path: &[Vec<u8>]) -> Result<&'a [u8], Failure>
    ensures holds { IfOk result (λ value.
        ∥ HoldsIn (bytes_of checked.entry) (meta_of checked.entry) (owned_path path.now)
        (Value value.now) ∥₁) }
    ensures refused { IfErr result
        (HoldsNone (bytes_of checked.entry) (owned_path path.now) (meta_of checked.entry)) }
{
    let Some((key, parents)) = path.split_last() else {
        return Err(Failure::NoKey);
    };
    let bucket = open_bucket(checked, parents)?;
    match bucket.get(key.as_slice()) {
        Some(value) => Ok(value),
        None => Err(Failure::NoKey),
    }
}

/// Writes the value at a path, as it is recovered, and a line feed unless none is wanted.
fn get_recovered<O: Sink>(input: Input<'_>, job: &GetJob, out: &mut O) -> Outcome
    ensures { PrintsAnswer O.Sink out.old out.new
        (IsRecoveredAnswer input.entry.file.now job.now.meta (IsRecoveredValue job.now)) result }
{
    let mut recovery = input.recover(job.meta)?;
    let other = metas_fault(Extent::Losses, input.file, job.meta);
    let path = path_slices(input.alloc, job.path.as_slice())?;
    let at = look_up(&mut recovery, path.as_slice())?;
    let shortfall = Shortfall::find(Lost::Parts(recovery.losses()), other);
    let value = value_or_why(at, shortfall)?;
    put_value(input.alloc, value, job.form, job.no_newline, out)?;
    end_listing(shortfall)
}

/// The value that was looked up or, if this is lacking, why there is none.
fn value_or_why<'a>(at: AtPath<'a>, shortfall: Option<Shortfall>) -> Result<&'a [u8], Failure>
    ensures { result ≡ value_or_why at.entry.value at.entry.has_bucket shortfall }
{
    match at.value {
        Some(value) => Ok(value),
        None if at.has_bucket => Err(no_key(shortfall)),
        None => Err(no_bucket(shortfall)),
    }
}

/// Why no value is recovered at a path.
fn no_key(shortfall: Option<Shortfall>) -> Failure
    ensures { result ≡ no_key shortfall }
{
    match shortfall {
        None => Failure::NoKey,
        Some(shortfall) => Failure::KeyMaybeLost(shortfall),
    }
}
