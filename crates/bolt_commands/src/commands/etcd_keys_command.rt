//! The command `etcd-keys`.
ghost use Rattle.bolt_commands.specs.{EtcdAnswers.IsEtcdKeysPrint, EtcdAnswers.up_to, Private.Printing.PrintsAnswer};

use crate::etcd_store::{end_revisions, read_store, refuse_compacted, up_to};
use crate::failure::Outcome;
use crate::opening::Input;
use bolt_format::Sink;
use bolt_job::EtcdKeysJob;
use bolt_report::RevisionWriter;

/// Writes the keys that there were at a transaction.
pub(crate) fn do_etcd_keys<O: Sink>(input: Input<'_>, job: &EtcdKeysJob, out: &mut O) -> Outcome
    ensures { PrintsAnswer O.Sink out.old out.new
        (IsEtcdKeysPrint job.now input.entry.file.now) result }
{
    let store = read_store(input, job.meta)?;
    refuse_compacted(&store.root, job.at)?;
    let mut lines = RevisionWriter::new(input.alloc, job.form, job.values);
    let prefix = job.prefix.as_slice();
    end_revisions(lines.put_current(input.alloc, &store.keys, up_to(job.at), prefix, out))
}
