//! What a sound file holds: its buckets and their entries, a cursor over the entries of a bucket, and
//! a walk over everything in the file. A cursor keeps the pages that it has opened on a stack, from the
//! bucket's root page to a leaf; only its pager opens pages. A walk keeps a cursor for the
//! innermost open bucket, and the positions of the cursors of the others.
#![tactic(auto)]

mod ahead;
mod at;
mod bucket;
mod bucket_pages;
mod cursor;
mod entry;
mod key_search;
pub mod laws;
mod members;
mod merged;
mod open_buckets;
mod pager;
mod stack;
mod walk;

pub use at::At;
pub use bolt_check::NoMemory;
pub use bucket::Bucket;
pub use cursor::Cursor;
pub use entry::{Entry, Item};
pub use members::Members;
pub use merged::Merged;
pub use pager::Pager;
pub use walk::Walk;
