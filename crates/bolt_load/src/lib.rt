//! Reads the text of a listing back: each line of it is tested, and what the lines tell is returned
//! member by member, as a walk over a file returns it (docs/LISTING.md, "A listing as text"). Only
//! the bytes that the text has in hexadecimal are kept; nothing is kept for each line.
#![tactic(auto)]

mod decode;
pub mod laws;
mod line_members;
mod listing_text;
mod load_fault;

pub use laws::{
    a_files_listing_is_of_bytes, a_listings_text_is_read_back, a_right_text_has_no_fault,
    a_text_is_of_one_tree, a_text_is_that_of_its_listing,
};
pub use line_members::LineMembers;
pub use listing_text::ListingText;
pub use load_fault::{LineFault, LoadFault};
