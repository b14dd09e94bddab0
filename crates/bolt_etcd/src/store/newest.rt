//! What a key was at a revision: the newest revision of a name.
ghost use Rattle.std.specs.Prelude.{◌≡◌, length};
ghost use Rattle.std.specs.Option.{option_map};
ghost use Rattle.bolt_check.specs.Counts.{counted};
ghost use Rattle.bolt_etcd.specs.{Store.Newest.is_of, Wire.ShownRevisions.shown_revision, Store.Stores.unread_elements, Store.Stores.revisions};
ghost use Rattle.bolt_tree.specs.EntriesLeft.{ForBucket};

use crate::store::revisions::Revisions;
use crate::wire::revision::Revision;
use bolt_tree::Bucket;

/// The newest revision of a name.
#[derive(Clone, Copy)]
pub struct Newest<'a> {
    /// The revision, which may be a deletion, or `None` if there is none.
    pub revision: Option<Revision<'a>>,
    /// The number of entries that are neither revisions nor marks. One of them may have been newer. It
    /// saturates at 2^64 - 1.
    pub unread: u64,
}

impl<'a> Newest<'a> {
    ghost use Rattle.bolt_etcd.specs.Store.Newest.{newest, until, value_if};

    /// Finds the newest revision of a name in a bucket, of those of no later transaction than
    /// `up_to`. Goes over all entries of the bucket once, keeps nothing of the others, and needs no
    /// memory.
    pub fn find(bucket: &Bucket<'a>, name: &[u8], up_to: u64) -> Newest<'a>
        ensures revision { ForBucket bucket.now (λ entries.
            option_map shown_revision result.revision
            ≡ newest name.now (until up_to (revisions entries))) }
        ensures unread { ForBucket bucket.now (λ entries.
            result.unread ≡ counted 0 (length (unread_elements entries))) }
    {
        let mut revisions = Revisions::of(bucket);
        let mut revision = None;
        'rest: while let Some(next) = revisions.next() {
            if is_of(&next, name, up_to) {
                revision = Some(next);
            }
        }
        Newest {
            revision,
            unread: revisions.unread(),
        }
    }

    /// The value of the newest revision, or `None` if there is none, or if it is a deletion.
    pub fn value(&self) -> Option<&'a [u8]>
        ensures { option_map (λ value. value.now) result
            ≡ value_if (option_map shown_revision self.now.revision) }
    {
        let decoded = self.revision.as_ref()?.decode();
        if decoded.key.deleted {
            return None;
        }
        Some(decoded.content.value)
    }
}

/// Whether a revision is one of a name, and of no later transaction than `up_to`.
fn is_of(revision: &Revision<'_>, name: &[u8], up_to: u64) -> bool
    ensures { result ≡ is_of name.now up_to (shown_revision revision.now) }
{
    revision.name() == name && revision.is_until(up_to)
}
