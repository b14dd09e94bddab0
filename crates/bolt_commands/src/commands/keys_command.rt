//! The command `keys`.
ghost use Rattle.std.specs.Prelude.{false};
ghost use Rattle.bolt_commands.specs.{KeyAnswers.IsKeysPrint, KeyAnswers.IsKeysShown, Private.Printing.PrintsAnswer};

use crate::failure::{Outcome, end_report};
use crate::opening::Input;
use crate::recovered_names::{RecoveredNames, name_recovered};
use bolt_format::Sink;
use bolt_job::KeysJob;
use bolt_report::{Names, put_keys_with_prefix};

/// Writes the keys of the bucket at a path that begin with a prefix.
pub(crate) fn do_keys<O: Sink>(input: Input<'_>, job: &KeysJob, out: &mut O) -> Outcome
    ensures { PrintsAnswer O.Sink out.old out.new
        (IsKeysPrint job.now input.entry.file.now) result }
{
    if job.recover {
        let asked = RecoveredNames {
            meta: job.meta,
            path: job.path.as_slice(),
            names: Names::BeginningWith(job.prefix.as_slice()),
            form: job.form,
        };
        name_recovered(input, asked, out)
    } else {
        put_keys_asked(input, job, out)
    }
}

/// Writes the keys of the bucket at a path of a sound file that begin with a prefix.
fn put_keys_asked<O: Sink>(input: Input<'_>, job: &KeysJob, out: &mut O) -> Outcome
    ensures { PrintsAnswer O.Sink out.old out.new
        (IsKeysShown false input.entry.file.now job.now.meta job.now) result }
{
    let bucket = input.bucket(job.meta, job.path.as_slice())?;
    let mut cursor = bucket.cursor();
    let prefix = job.prefix.as_slice();
    end_report(put_keys_with_prefix(input.alloc, &mut cursor, prefix, job.form, out))
}
