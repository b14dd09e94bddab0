//! What etcd keeps in a database file: the revisions of its keys, each a record under a revision
//! key, in a bucket `key`; what is missing from them; and the hash that etcd writes after a snapshot.
#![tactic(auto)]

mod check;
pub mod laws;
mod store;
mod wire;

pub use crate::check::check_lines::put_unread_entry;
pub use crate::check::missing::{Missing, MissingNumbers};
pub use crate::check::name_faults::{NameFault, NameFaults};
pub use crate::check::snapshot::{HASH_LEN, SnapshotFault, snapshot_fault};
pub use crate::check::store_faults::put_store_faults;
pub use crate::laws::{hashed_blocks_are_a_snapshot, trailing_bytes_change_nothing};
pub use crate::store::buckets::{COMPACTION_KEY, KEY_BUCKET, META_BUCKET};
pub use crate::store::compaction::{compacted, compacted_by, store_compacted};
pub use crate::store::crc32c::Crc32c;
pub use crate::store::current::{Current, keep_newest};
pub use crate::store::newest::Newest;
pub use crate::store::revision_list::RevisionList;
pub use crate::store::revisions::Revisions;
pub use crate::store::status::StoreStatus;
pub use crate::wire::record::Record;
pub use crate::wire::revision::{DecodedRevision, Revision};
pub use crate::wire::revision_key::RevisionKey;
pub use crate::wire::unread_entry::UnreadEntry;
