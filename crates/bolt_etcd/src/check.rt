//! What is missing from a store, and what is wrong with the hash of a snapshot.

pub(crate) mod check_lines;
pub(crate) mod check_texts;
pub(crate) mod missing;
pub(crate) mod name_faults;
pub(crate) mod snapshot;
pub(crate) mod store_faults;
