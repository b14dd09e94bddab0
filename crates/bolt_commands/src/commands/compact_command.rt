//! The command `compact`: a copy of what a file holds, or of what is left of a damaged one.
ghost use Rattle.std.specs.Prelude.{◌≡◌};
ghost use Rattle.bolt_commands.specs.{JobAnswers.DoesJob, Private.Copying.CopiesJoined, Private.Copying.CopiesRead, Private.Contents.IsOpened};
ghost use Rattle.bolt_commands.specs.{Private.Contents.IsSearchOf, Private.Contents.contents_found, CopyAnswers.hash_refusal};
ghost use Rattle.bolt_job.specs.declared.job.Job.TheVariants.{Compact};

use crate::copies::{CopyReport, blueprint_of, copy_members, end_copy};
use crate::failure::{Failure, Outcome};
use crate::file_faults::FileFaults;
use crate::laws::{a_recovery_is_whole, joined_members_are_whole};
use crate::opening::{Contents, Input, join};
use bolt_bulk::Blueprint;
use bolt_bulk::laws::a_walk_is_whole;
use bolt_etcd::SnapshotFault;
use bolt_format::Sink;
use bolt_job::{CompactJob, Extent};
use bolt_recover::LostAndFound;
use bolt_recover::laws::{each_file_has_a_joined_listing, each_file_has_found_pages};
use bolt_tree::Walk;

/// Writes the compact copy that is asked for to `target`, and then what is reported of it to `out`.
pub(crate) fn do_compact<O: Sink, T: Sink>(
    input: Input<'_>,
    job: &CompactJob,
    out: &mut O,
    target: &mut T,
) -> Outcome
    ensures { DoesJob O.Sink out.old out.new T.Sink target.old target.new
        input.entry.file.now (Compact job.now) result }
{
    each_file_has_found_pages();
    let mut contents = input.open(job.meta, job.extent)?;
    let faults = FileFaults::of_copy(input.file, job.kind, job.extent, job.meta);
    if let Some(fault) = hash_refusal(job.extent, faults.hash) {
        return Err(Failure::Hash(fault));
    }
    let copy = copy_contents(input, job, &mut contents, target)?;
    let report = CopyReport {
        faults,
        lost: contents.lost(),
        found: contents.found(),
        unread: &[],
        counts: None,
        source: input.file.len() as u64,
    };
    end_copy(copy, &report, out)
}

/// Why a file isn't copied whose hash is wrong. What is left of a damaged one is copied all the same.
fn hash_refusal(extent: Extent, hash: Option<SnapshotFault>) -> Option<SnapshotFault>
    ensures { result ≡ hash_refusal extent hash }
{
    match extent {
        Extent::Sound => hash,
        _ => None,
    }
}

/// Writes the copy of what is read, and returns its length.
fn copy_contents<T: Sink>(
    input: Input<'_>,
    job: &CompactJob,
    contents: &mut Contents<'_>,
    target: &mut T,
) -> Result<u64, Failure>
    requires { IsOpened job.now.extent input.file.now job.now.meta contents.old }
    ensures read { CopiesRead T.Sink target.old target.new job.now input.entry.file.now contents.old contents.new result }
    ensures found { contents_found contents.new ≡ contents_found contents.old }
{
    let blueprint = blueprint_of(job.kind, job.page_size, &contents.meta());
    match contents {
        Contents::Sound(checked) => {
            let mut walk = Walk::new(input.alloc, *checked);
            a_walk_is_whole(&walk);
            let copied = copy_members(input.alloc, &mut walk, &blueprint, job.kind, target)?;
            Ok(copied)
        }
        Contents::Recovered(recovery) => {
            a_recovery_is_whole(recovery);
            let copied = copy_members(input.alloc, recovery, &blueprint, job.kind, target)?;
            Ok(copied)
        }
        Contents::Searched(searched) => copy_joined(input, job, searched, &blueprint, target),
    }
}

/// Writes the copy of what is recovered of a file and what is found of it, and returns its length.
fn copy_joined<T: Sink>(
    input: Input<'_>,
    job: &CompactJob,
    searched: &LostAndFound<'_>,
    blueprint: &Blueprint,
    target: &mut T,
) -> Result<u64, Failure>
    requires { IsSearchOf input.file.now job.now.meta searched.now }
    ensures { CopiesJoined T.Sink target.old target.new job.now input.entry.file.now searched.now blueprint.now result }
{
    each_file_has_a_joined_listing();
    let mut joined = join(input, job.meta, searched)?;
    joined_members_are_whole(&joined);
    let copied = copy_members(input.alloc, &mut joined, blueprint, job.kind, target)?;
    Ok(copied)
}
