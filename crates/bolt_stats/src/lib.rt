//! The figures of buckets and of pages.
#![tactic(auto)]

mod bucket_stats;
mod figures;
pub mod laws;
mod page_stats;

pub use bucket_stats::stats;
pub use figures::{Stats, add};
