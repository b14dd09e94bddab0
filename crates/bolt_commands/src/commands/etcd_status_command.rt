//! The command `etcd-status`.
ghost use Rattle.std.specs.Prelude.{◌≡◌};
ghost use Rattle.bolt_commands.specs.{EtcdAnswers.IsEtcdStatusPrint, EtcdAnswers.end_unread, EtcdAnswers.up_to, Private.Endings.end_write};
ghost use Rattle.bolt_commands.specs.{Private.Printing.PrintsAnswer};

use crate::etcd_store::{end_unread, read_store, refuse_compacted, up_to};
use crate::failure::Outcome;
use crate::opening::Input;
use bolt_etcd::StoreStatus;
use bolt_format::{Sink, SinkFault};
use bolt_job::EtcdStatusJob;
use bolt_report::put_status;

/// Writes what etcd would report of the store in a file.
pub(crate) fn do_etcd_status<O: Sink>(input: Input<'_>, job: &EtcdStatusJob, out: &mut O) -> Outcome
    ensures { PrintsAnswer O.Sink out.old out.new
        (IsEtcdStatusPrint job.now input.entry.file.now) result }
{
    let store = read_store(input, job.meta)?;
    refuse_compacted(&store.root, job.at)?;
    let status = StoreStatus::find(input.alloc, &store.root, &store.keys, up_to(job.at))?;
    end_status(put_status(&status, job.form, out), status.unread)
}

/// How a job ends that wrote figures.
fn end_status(put: Result<(), SinkFault>, unread: u64) -> Outcome
    ensures { result ≡ end_write put (end_unread unread) }
{
    put?;
    end_unread(unread)
}
