//! The command `buckets`: the names of buckets, or also their sizes.
ghost use Rattle.std.specs.Prelude.{false};
ghost use Rattle.bolt_commands.specs.{KeyAnswers.IsBucketsPrint, KeyAnswers.IsBucketsShown, Private.Printing.PrintsAnswer};
ghost use Rattle.bolt_job.specs.declared.choices.BucketsShown.TheVariants as shown;

use crate::failure::{Outcome, end_report};
use crate::opening::Input;
use crate::recovered_names::{RecoveredNames, name_recovered};
use bolt_format::Sink;
use bolt_job::{BucketsJob, BucketsShown};
use bolt_report::{Names, buckets, put_sizes};

/// Writes the names of the buckets in the bucket at a path, or also their sizes.
pub(crate) fn do_buckets<O: Sink>(input: Input<'_>, job: &BucketsJob, out: &mut O) -> Outcome
    ensures { PrintsAnswer O.Sink out.old out.new
        (IsBucketsPrint job.now input.entry.file.now) result }
{
    match job.shown {
        BucketsShown::Names { recover: false } => put_bucket_names(input, job, out),
        BucketsShown::Names { recover: true } => {
            let asked = RecoveredNames {
                meta: job.meta,
                path: job.path.as_slice(),
                names: Names::Buckets,
                form: job.form,
            };
            name_recovered(input, asked, out)
        }
        BucketsShown::Sizes => put_sizes_asked(input, job, out),
    }
}

/// Writes the names of the buckets in the bucket at a path of a sound file.
fn put_bucket_names<O: Sink>(input: Input<'_>, job: &BucketsJob, out: &mut O) -> Outcome
    ensures { PrintsAnswer O.Sink out.old out.new
        (IsBucketsShown (shown.Names false) input.entry.file.now job.now.meta job.now) result }
{
    let bucket = input.bucket(job.meta, job.path.as_slice())?;
    end_report(buckets(input.alloc, &bucket, job.form, out))
}

/// Writes their sizes and names.
fn put_sizes_asked<O: Sink>(input: Input<'_>, job: &BucketsJob, out: &mut O) -> Outcome
    ensures { PrintsAnswer O.Sink out.old out.new
        (IsBucketsShown shown.Sizes input.entry.file.now job.now.meta job.now) result }
{
    let bucket = input.bucket(job.meta, job.path.as_slice())?;
    end_report(put_sizes(input.alloc, &bucket, job.form, out))
}
