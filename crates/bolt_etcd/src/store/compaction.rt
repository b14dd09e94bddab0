//! Up to which transaction a store was compacted.
ghost use Rattle.std.specs.Prelude.{◌≡◌, Some};
ghost use Rattle.std.specs.Option.{option_map};
ghost use Rattle.bolt_tree.specs.{BucketViews.entries_of, Buckets.bucket_checked, Buckets.bucket_start};
ghost use Rattle.bolt_etcd.specs.Store.Compacted.{IsCompacted, compacted_by};
ghost use Rattle.bolt_etcd.specs.{Store.StoreBuckets.ForStore, Check.StoreFaults.store_compacted};

use crate::store::buckets::{COMPACTION_KEY, META_BUCKET};
use crate::wire::revision_key::{LEN, RevisionKey};
use bolt_tree::Bucket;

/// The number of the transaction up to which a store was compacted, by its bucket `meta`. It is 0
/// if the bucket doesn't say. Needs no memory.
pub fn compacted(meta: &Bucket<'_>) -> u64
    ensures { IsCompacted (entries_of (bucket_checked meta.now)) (bucket_start meta.now) result }
{
    compacted_by(meta.get(COMPACTION_KEY))
}

/// The number of the transaction up to which a store was compacted, by the value under
/// `scheduledCompactRev` in its bucket `meta`, if there is one. It is 0 if that doesn't say.
pub fn compacted_by(value: Option<&[u8]>) -> u64
    ensures { result ≡ compacted_by (option_map (λ value. value.now) value.entry) }
{
    match value {
        Some(value) => main_in(value),
        None => 0,
    }
}

/// The number of the transaction up to which a store was compacted, by its root bucket. Returns
/// `None` if that has no bucket `meta`: then nobody knows. Needs no memory.
pub fn store_compacted(root: &Bucket<'_>) -> Option<u64>
    ensures { ForStore root.now (λ store. result ≡ store_compacted store) }
{
    let meta = root.bucket(META_BUCKET)?;
    Some(compacted(&meta))
}

/// The number of the transaction, if the value is a revision key that isn't a deletion's.
fn main_in(value: &[u8]) -> u64
    ensures { result ≡ compacted_by (Some value.now) }
{
    if value.len() != LEN {
        return 0;
    }
    match RevisionKey::read(value) {
        Some(key) => key.main,
        None => 0,
    }
}
