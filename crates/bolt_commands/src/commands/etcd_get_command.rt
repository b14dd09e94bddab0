//! The command `etcd-get`.
ghost use Rattle.std.specs.Prelude.{◌≡◌};
ghost use Rattle.bolt_commands.specs.{EtcdAnswers.IsEtcdGetPrint, EtcdAnswers.end_unread, EtcdAnswers.up_to, Private.Endings.end_report};
ghost use Rattle.bolt_commands.specs.{Private.Printing.PrintsAnswer};

use crate::etcd_store::{end_unread, read_store, refuse_compacted, up_to};
use crate::failure::{Failure, Outcome};
use crate::opening::Input;
use crate::value_text::put_value;
use bolt_etcd::Newest;
use bolt_format::Sink;
use bolt_job::EtcdGetJob;
use bolt_text::ReportFault;

/// Writes what a key held at a transaction.
pub(crate) fn do_etcd_get<O: Sink>(input: Input<'_>, job: &EtcdGetJob, out: &mut O) -> Outcome
    ensures { PrintsAnswer O.Sink out.old out.new
        (IsEtcdGetPrint job.now input.entry.file.now) result }
{
    let store = read_store(input, job.meta)?;
    refuse_compacted(&store.root, job.at)?;
    let newest = Newest::find(&store.keys, job.name.as_slice(), up_to(job.at));
    let Some(value) = newest.value() else {
        return Err(Failure::NoKey);
    };
    end_value(
        put_value(input.alloc, value, job.form, job.no_newline, out),
        newest.unread,
    )
}

/// How a job ends that wrote a value.
fn end_value(put: Result<(), ReportFault>, unread: u64) -> Outcome
    ensures { result ≡ end_report put (end_unread unread) }
{
    put?;
    end_unread(unread)
}
