//! The command `etcd-check`.
ghost use Rattle.std.specs.Prelude.{◌≡◌};
ghost use Rattle.bolt_check.specs.{CheckedFiles.bytes_of, CheckedFiles.in_checked, CheckedFiles.meta_of, Sound.HasSoundTrees};
ghost use Rattle.bolt_format.specs.{Endings.ending, Wrote.Wrote};
ghost use Rattle.bolt_commands.specs.{EtcdAnswers.IsEtcdCheckPrint, EtcdAnswers.IsStoreAnswer, EtcdAnswers.IsStoreText, EtcdAnswers.errors_end};
ghost use Rattle.bolt_commands.specs.{EtcdAnswers.errors_status, Private.Printing.PrintsAnswer};

use crate::failure::Outcome;
use crate::file_faults::FileFaults;
use crate::opening::Input;
use crate::verdict::{Checking, Verdict, check_to};
use bolt_check::Checked;
use bolt_etcd::put_store_faults;
use bolt_format::{Sink, SinkFault};
use bolt_job::{EtcdCheckJob, Extent};
use bolt_report::put_error_count;
use bolt_text::put;
use bolt_tree::Bucket;
use std::alloc::Global;

/// Writes what `check --all` finds. If that is nothing, it writes `OK`, or what is wrong with what etcd
/// keeps in the file.
pub(crate) fn do_etcd_check<O: Sink>(input: Input<'_>, job: &EtcdCheckJob, out: &mut O) -> Outcome
    ensures { PrintsAnswer O.Sink out.old out.new
        (IsEtcdCheckPrint job.now input.entry.file.now) result }
{
    let checking = Checking {
        input,
        choice: job.meta,
        faults: FileFaults::find(input.file, Extent::Losses, false, job.meta),
        for_bbolt: false,
    };
    match check_to(checking, Extent::Losses, out) {
        Verdict::Right(checked) => put_store(input.alloc, checked, out),
        Verdict::Wrong(ending) => ending,
    }
}

/// Writes `OK`, or what is wrong with what etcd keeps in a sound file.
fn put_store<O: Sink>(alloc: Global, checked: Checked<'_>, out: &mut O) -> Outcome
    requires { in_checked HasSoundTrees checked }
    ensures { PrintsAnswer O.Sink out.old out.new
        (IsStoreAnswer (bytes_of checked.entry) IsStoreText (meta_of checked.entry)) result }
{
    let errors = put_store_faults(alloc, &Bucket::root(checked), out)?;
    put_end(errors, out)?;
    Ok(status_after(errors))
}

/// The status if so many errors were found.
fn status_after(errors: u64) -> u8
    ensures { result ≡ errors_status errors }
{
    match errors {
        0 => 0,
        _ => 1,
    }
}

/// Writes `OK`, or how many errors were found.
fn put_end<O: Sink>(errors: u64, out: &mut O) -> Result<(), SinkFault>
    ensures { Wrote O.Sink out.old out.new (errors_end errors) (ending result) }
{
    if errors == 0 {
        put(b"OK\n", out)
    } else {
        put_error_count(errors, out)
    }
}
