//! Is a database file sound? Exactly one way leads to each page of a tree, keys rise, and the
//! freelist has exactly the free pages (docs/SOUND.md). A file that passed its tests is a `Checked`.
#![tactic(auto)]

mod accounts;
mod bbolt_file;
mod bbolt_pages;
mod check_fault;
mod checked;
mod claims;
mod finding;
mod finding_list;
mod for_bbolt;
mod freelist_findings;
mod keys;
pub mod laws;
mod leaf_depth;
mod leftovers;
mod listed_pages;
mod role_table;
mod search;
mod sound;
mod sound_roles;
mod spot;
mod table;
mod visit;

pub use bbolt_file::{FileFinding, bbolt_file_findings};
pub use check_fault::{CheckFault, NoMemory};
pub use checked::Checked;
pub use claims::Claims;
pub use finding::Finding;
pub use finding_list::Findings;
pub use for_bbolt::bbolt_findings;
pub use leftovers::Leftovers;
pub use role_table::{Role, Roles};
pub use sound::{check, check_claimed, check_roles, check_slot, check_under};
pub use sound_roles::roles;
pub use spot::{BucketSpot, PageSpot, Spot};
pub use visit::{MAX_DEPTH, test_page};
