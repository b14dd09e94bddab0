//! What etcd keeps in a file, and how a command ends that printed some of it.
ghost use Rattle.std.specs.Prelude.{◌≡◌, IfErr, IfOk, OnOk, false, true};
ghost use Rattle.bolt_etcd.specs.{Store.StoreBuckets.ForStore, Check.StoreFaults.store_compacted};
ghost use Rattle.bolt_commands.specs.{EtcdAnswers.is_compacted, EtcdAnswers.end_unread, EtcdAnswers.up_to, Private.Etcd.IsStoreRead};
ghost use Rattle.bolt_commands.specs.{Private.Etcd.IsUnreadStore, Private.Etcd.end_revisions, declared.failure.Failure.TheVariants.Compacted};

use crate::failure::{Failure, Outcome};
use crate::opening::Input;
use bolt_etcd::{KEY_BUCKET, store_compacted};
use bolt_job::MetaChoice;
use bolt_text::ReportFault;
use bolt_tree::Bucket;

/// What etcd keeps in a file.
#[derive(Clone, Copy)]
pub(crate) struct Store<'f> {
    /// The root bucket.
    pub root: Bucket<'f>,
    /// The bucket `key`, which has the revisions.
    pub keys: Bucket<'f>,
}

/// What etcd keeps in a file, which is checked first.
pub(crate) fn read_store<'f>(input: Input<'f>, choice: MetaChoice) -> Result<Store<'f>, Failure>
    ensures found { IfOk result (IsStoreRead input.entry.file.now choice) }
    ensures refused { IfErr result (IsUnreadStore input.entry.file.now choice) }
{
    let root = Bucket::root(input.read(choice)?);
    match root.bucket(KEY_BUCKET) {
        Some(keys) => Ok(Store { root, keys }),
        None => Err(Failure::NoBucket),
    }
}

/// Refuses a transaction that was compacted away.
pub(crate) fn refuse_compacted(root: &Bucket<'_>, at: Option<u64>) -> Result<(), Failure>
    ensures kept { OnOk result
        (ForStore root.now (λ store. is_compacted at (store_compacted store) ≡ false)) }
    ensures refused { IfErr result (λ why. (why ≡ Compacted)
        × ForStore root.now (λ store. is_compacted at (store_compacted store) ≡ true)) }
{
    match (at, store_compacted(root)) {
        (Some(main), Some(compacted)) if main < compacted => Err(Failure::Compacted),
        _ => Ok(()),
    }
}

/// The last transaction that counts: the one that is named, or any.
pub(crate) fn up_to(at: Option<u64>) -> u64
    ensures { result ≡ up_to at }
{
    at.unwrap_or(u64::MAX)
}

/// How a job ends that wrote revisions.
pub(crate) fn end_revisions(put: Result<u64, ReportFault>) -> Outcome
    ensures { result ≡ end_revisions put }
{
    end_unread(put?)
}

/// How a job ends if so many entries are neither revisions nor marks.
pub(crate) fn end_unread(unread: u64) -> Outcome
    ensures { result ≡ end_unread unread }
{
    match unread {
        0 => Ok(0),
        _ => Err(Failure::NotRevisions(unread)),
    }
}
