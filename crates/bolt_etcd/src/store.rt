//! What etcd's buckets have: revisions in their order, the current ones, and what etcd reports of them.

pub(crate) mod buckets;
pub(crate) mod compaction;
pub(crate) mod crc32c;
pub(crate) mod current;
pub(crate) mod hash_kv;
pub(crate) mod name_order;
pub(crate) mod newest;
pub(crate) mod revision_list;
pub(crate) mod revisions;
pub(crate) mod status;
