//! The command `check`: the findings, each loss, or also each page that is found.
ghost use Rattle.std.specs.Prelude.{◌≡◌, [], IfOk, true};
ghost use Rattle.bolt_check.specs.CheckedFiles.{in_checked};
ghost use Rattle.bolt_commands.specs.{Answers.WritesAnswer, CheckAnswers.AreFindingsFor, CheckAnswers.AreOfFile, CheckAnswers.IsCheckAnswer};
ghost use Rattle.bolt_commands.specs.{CheckAnswers.IsFindingsAnswer, CheckAnswers.bbolt_answer, FileFaults.is_fine, FileFaults.no_faults};
ghost use Rattle.bolt_commands.specs.{Private.Contents.IsSoundOf, Private.Printing.PrintsAnswer};

use crate::failure::Outcome;
use crate::file_faults::FileFaults;
use crate::opening::Input;
use crate::verdict::{Checking, Verdict, check_to};
use bolt_check::{Checked, FileFinding, Finding, NoMemory, bbolt_file_findings, bbolt_findings};
use bolt_format::Sink;
use bolt_job::{CheckJob, MetaChoice};
use bolt_report::put_bbolt_findings;
use std::alloc::Global;

/// What bbolt fails on when it writes into a sound file.
#[derive(Drop)]
struct ForBbolt {
    /// In the file as a whole.
    of_file: Vec<FileFinding>,
    /// On the ways from its root page.
    on_ways: Vec<Finding>,
}

/// Writes `OK` if nothing is wrong with the file. Otherwise it writes what is wrong, to the extent that
/// is asked for or, if that is nothing, what bbolt fails on.
pub(crate) fn do_check<O: Sink>(input: Input<'_>, job: &CheckJob, out: &mut O) -> Outcome
    ensures { PrintsAnswer O.Sink out.old out.new
        (IsCheckAnswer job.now.extent job.now.snapshot job.now.for_bbolt input.entry.file.now job.now.meta) result }
{
    let checking = Checking {
        input,
        choice: job.meta,
        faults: FileFaults::find(input.file, job.extent, job.snapshot, job.meta),
        for_bbolt: job.for_bbolt,
    };
    match check_to(checking, job.extent, out) {
        Verdict::Right(checked) => put_right(checked, checking, out),
        Verdict::Wrong(ending) => ending,
    }
}

/// Writes `OK` of a file with which nothing is wrong, or what bbolt fails on.
fn put_right<O: Sink>(checked: Checked<'_>, checking: Checking<'_>, out: &mut O) -> Outcome
    requires fine { is_fine checking.faults ≡ true }
    requires sound { IsSoundOf checking.input.file.now checking.choice checked }
    ensures { PrintsAnswer O.Sink out.old out.new (IsFindingsAnswer checking.entry.for_bbolt
        checking.entry.faults checking.entry.input.file.now checking.entry.choice []) result }
{
    let found = find_for_bbolt(checked, checking)?;
    put_all(&found, out)
}

/// What bbolt fails on when it writes into a sound file, if that is looked for.
fn find_for_bbolt(checked: Checked<'_>, checking: Checking<'_>) -> Result<ForBbolt, NoMemory>
    ensures { IfOk result (λ found. in_checked (λ file meta.
        AreFindingsFor checking.entry.for_bbolt
        file checking.entry.choice meta found.of_file.items found.on_ways.items) checked.entry) }
{
    let alloc = checking.input.alloc;
    if checking.for_bbolt {
        return Ok(ForBbolt {
            of_file: find_in_file(alloc, checked.bytes(), checking.choice)?,
            on_ways: bbolt_findings(alloc, checked)?,
        });
    }
    Ok(ForBbolt {
        of_file: Vec::new(alloc),
        on_ways: Vec::new(alloc),
    })
}

/// What bbolt fails on in the file as a whole, which is looked for under the active meta alone.
fn find_in_file(
    alloc: Global,
    file: &[u8],
    choice: MetaChoice,
) -> Result<Vec<FileFinding>, NoMemory>
    ensures { IfOk result (λ findings. AreOfFile choice file.now findings.items) }
{
    match choice {
        MetaChoice::Active => bbolt_file_findings(alloc, file),
        _ => Ok(Vec::new(alloc)),
    }
}

/// Writes `OK`, or what bbolt fails on.
fn put_all<O: Sink>(found: &ForBbolt, out: &mut O) -> Outcome
    ensures { WritesAnswer O.Sink out.old out.new
        (bbolt_answer no_faults [] found.now.of_file.items found.now.on_ways.items) result }
{
    if !found.of_file.is_empty() || !found.on_ways.is_empty() {
        put_bbolt_findings(found.of_file.as_slice(), found.on_ways.as_slice(), out)?;
        return Ok(1);
    }
    out.put(b"OK\n")?;
    Ok(0)
}
