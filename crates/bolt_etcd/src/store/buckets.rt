//! The names under which etcd keeps what a store has.

/// The bucket of the revisions.
pub const KEY_BUCKET: &[u8] = b"key";

/// The bucket of the leases.
pub(crate) const LEASE_BUCKET: &[u8] = b"lease";

/// The bucket of what is noted of the whole store.
pub const META_BUCKET: &[u8] = b"meta";

/// The key in the bucket `meta` under which the revision of the last compaction is.
pub const COMPACTION_KEY: &[u8] = b"scheduledCompactRev";

/// The buckets that every store has.
pub(crate) const BUCKET_NAMES: [&[u8]; 6] = [
    b"auth",
    b"authRoles",
    b"authUsers",
    KEY_BUCKET,
    LEASE_BUCKET,
    META_BUCKET,
];
