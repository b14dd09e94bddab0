//! The command `etcd-revisions`.
ghost use Rattle.std.specs.Prelude.{◌≡◌};
ghost use Rattle.bolt_etcd.specs.Store.RevisionsLeft.{ForPass, ahead_of, pass_checked, pass_unread, pass_start};
ghost use Rattle.bolt_tree.specs.Buckets.{bucket_checked, bucket_start};
ghost use Rattle.bolt_commands.specs.{EtcdAnswers.IsEtcdRevisionsPrint, EtcdAnswers.entries_asked, Private.Printing.PrintsAnswer};

use crate::etcd_store::{end_revisions, read_store};
use crate::failure::Outcome;
use crate::opening::Input;
use bolt_etcd::Revisions;
use bolt_format::Sink;
use bolt_job::EtcdRevisionsJob;
use bolt_report::RevisionWriter;
use bolt_tree::Bucket;

/// Writes the revisions of names that begin with a prefix, from a transaction on.
pub(crate) fn do_etcd_revisions<O: Sink>(
    input: Input<'_>,
    job: &EtcdRevisionsJob,
    out: &mut O,
) -> Outcome
    ensures { PrintsAnswer O.Sink out.old out.new
        (IsEtcdRevisionsPrint job.now input.entry.file.now) result }
{
    let store = read_store(input, job.meta)?;
    let pass = pass_from(&store.keys, job.from);
    let mut lines = RevisionWriter::new(input.alloc, job.form, job.values);
    end_revisions(lines.put_pass(pass, job.prefix.as_slice(), out))
}

/// The revisions from a transaction on, if one is named.
fn pass_from<'a>(keys: &Bucket<'a>, from: Option<u64>) -> Revisions<'a>
    ensures checked { pass_checked result ≡ bucket_checked keys.now }
    ensures start { pass_start result ≡ bucket_start keys.now }
    ensures asked { ForPass result (λ entries.
        ahead_of result entries ≡ entries_asked from entries) }
    ensures unread { pass_unread result ≡ 0 }
{
    match from {
        Some(main) => Revisions::from(keys, main),
        None => Revisions::of(keys),
    }
}
