//! The command `stats`.
ghost use Rattle.std.specs.Prelude.{◌≡◌, ◌⊎◌, IfErr, IfOk};
ghost use Rattle.bolt_check.specs.{CheckedFiles.bytes_of, CheckedFiles.meta_of, Sound.HasSoundTrees, CheckedFiles.in_checked};
ghost use Rattle.bolt_tree.specs.{EntriesLeft.ForBucket, Buckets.bucket_checked};
ghost use Rattle.bolt_commands.specs.{StatsAnswers.HasStats, FilesRead.LeadsNowhere, StatsAnswers.IsStatsPrint, StatsAnswers.IsTotal};
ghost use Rattle.bolt_commands.specs.{StatsAnswers.no_stats, Private.Printing.PrintsAnswer, declared.failure.Failure.TheVariants.Memory};
ghost use Rattle.bolt_commands.specs.{declared.failure.Failure.TheVariants.NoBucket};
ghost use Rattle.bolt_job.specs.PlainWords.{owned_path};

use crate::failure::{Failure, Outcome, end_write};
use crate::opening::{Input, open_bucket};
use bolt_check::{Checked, NoMemory};
use bolt_format::Sink;
use bolt_job::StatsJob;
use bolt_report::{Stats, add, stats, stats_text};
use bolt_tree::Bucket;
use std::alloc::Global;

/// Writes the figures of the bucket at a path with all in it. At the empty path they are those of
/// the root's buckets, added up.
pub(crate) fn do_stats<O: Sink>(input: Input<'_>, job: &StatsJob, out: &mut O) -> Outcome
    ensures { PrintsAnswer O.Sink out.old out.new
        (IsStatsPrint job.now input.entry.file.now) result }
{
    let checked = input.read(job.meta)?;
    let stats = find_stats(input.alloc, checked, job.path.as_slice())?;
    end_write(stats_text(&stats, job.form, out))
}

/// The figures of the bucket at a path.
fn find_stats(alloc: Global, checked: Checked<'_>, path: &[Vec<u8>]) -> Result<Stats, Failure>
    requires { HasSoundTrees (bytes_of checked) (meta_of checked) }
    ensures found { IfOk result
        (HasStats (bytes_of checked.entry) (owned_path path.now) (meta_of checked.entry)) }
    ensures missing { IfErr result (λ failure. (failure ≡ Memory) ⊎ ((failure ≡ NoBucket)
        × in_checked LeadsNowhere checked.entry (owned_path path.now))) }
{
    if path.is_empty() {
        return Ok(sum_buckets(alloc, &Bucket::root(checked))?);
    }
    let bucket = open_bucket(checked, path)?;
    Ok(stats(alloc, &bucket)?)
}

/// The figures of the buckets in a bucket, added up.
fn sum_buckets(alloc: Global, bucket: &Bucket<'_>) -> Result<Stats, NoMemory>
    ensures { IfOk result (λ total.
        ForBucket bucket.now (λ entries.
        ∥ in_checked IsTotal (bucket_checked bucket.now) entries no_stats total ∥₁)) }
{
    let mut total = Stats::default();
    let mut cursor = bucket.cursor();
    'rest: while cursor.next().is_some() {
        if let Some(inner) = bucket.bucket_at(&cursor) {
            total = add(total, stats(alloc, &inner)?);
        }
    }
    Ok(total)
}
