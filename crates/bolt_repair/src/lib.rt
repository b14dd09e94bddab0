//! What goes back into the bucket `key` of a damaged file of etcd: which of the revisions on found
//! pages, and the listing that is made of them and of what is recovered.
#![tactic(auto)]

mod bound;
mod candidates;
pub mod laws;
mod put_back;
mod readable_members;
mod recovered_store;
mod repair;
mod repair_fault;
mod repaired_listing;
mod store_path;
mod undisputed;

pub use crate::bound::Bound;
pub use crate::repair::Repair;
pub use crate::repair_fault::RepairFault;
pub use crate::repaired_listing::RepairedListing;
