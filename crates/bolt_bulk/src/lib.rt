//! The compact copy of a sound file, or of any members: the calls that plan it, and those that write
//! it page by page. `bolt_layout` defines its layout.
//!
//! The copy is bulk loaded: its members come once, in order, and each page is filled and written
//! before any page above it. No page is written twice. Of each open bucket only the items of pages
//! that aren't full yet are held.
#![tactic(auto)]

mod blueprint;
mod branch_run;
mod bucket_runs;
mod bulk_fault;
mod copy;
mod held;
pub mod laws;
mod leaf_run;
mod limits;
mod members_copy;
mod noted_limits;
mod page_elements;
mod page_pieces;
mod page_setup;
mod page_writer;
mod pass;
mod pending_bucket;
mod upper_runs;
mod waiting_bucket;

pub use blueprint::Blueprint;
pub use bulk_fault::{BulkFault, PlanFault};
pub use copy::{compact, plan};
pub use members_copy::{Done, Plan, compact_members, plan_members};
