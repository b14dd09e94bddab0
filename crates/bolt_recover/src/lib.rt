//! What a damaged file still holds, and what is lost of it (docs/RECOVERY.md): a walk over what is
//! kept, which reports each loss on its way, the pages that are found though nothing leads to them,
//! and the laws that hold of it.
#![tactic(auto)]

mod bucket_key;
mod counting;
mod first_leaf;
mod found_leaves;
mod found_members;
mod found_page;
mod join_fault;
mod joined_listing;
mod kept_page;
pub mod laws;
mod losses;
mod lost_and_found;
mod page_gaps;
mod recovered_listing;
mod recovery;
mod root_fault;
mod state;
mod states;
mod steps;
mod valid_metas;

pub use found_page::FoundPage;
pub use join_fault::JoinFault;
pub use joined_listing::JoinedListing;
pub use losses::{Loss, Lost};
pub use lost_and_found::LostAndFound;
pub use page_gaps::PageGap;
pub use recovered_listing::{LostRoot, RecoveredListing};
pub use recovery::Recovery;
pub use root_fault::RootFault;
pub use state::{Figures, Place, State};
pub use states::{States, find_states};
pub use valid_metas::ValidMetas;
