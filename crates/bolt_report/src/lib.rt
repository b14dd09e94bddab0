//! The texts that are printed of files, buckets, pages and faults. A call with a sink writes its text
//! to it. If it fails, the sink has accepted a prefix of the text. The names of `bolt_text` and of
//! `bolt_stats` that a caller needs are passed on.
#![tactic(auto)]

mod at_path;
mod bbolt_lines;
mod fault_lines;
mod gap_lines;
mod key_lines;
pub mod laws;
mod loss_lines;
mod maps;
mod metas;
mod name_lines;
mod page_lines;
mod page_table;
mod part_lines;
mod revision_lines;
mod size_lines;
mod state_lines;
mod stats_lines;
mod status_lines;
mod unread_lines;

pub use at_path::{AtPath, look_up};
pub use bbolt_lines::put_bbolt_findings;
pub use bolt_stats::{Stats, add, stats};
pub use bolt_text::{FigureForm, Form, ListForm, MemberLines, ReportFault, item, value};
pub use fault_lines::{
    finding_text, put_error_count, put_meta_fault, put_page_fault, put_snapshot_fault,
};
pub use gap_lines::put_findings;
pub use key_lines::{buckets, keys, put_keys_with_prefix};
pub use loss_lines::{lost_count, put_counted_lost, put_lost};
pub use maps::put_page_map;
pub use metas::{info, put_slot_fault};
pub use name_lines::{Names, NamesIn, put_member_names};
pub use page_lines::page_text;
pub use page_table::{pages, put_page_table};
pub use part_lines::{list, put_list_part, put_member_part};
pub use revision_lines::RevisionWriter;
pub use size_lines::put_sizes;
pub use state_lines::put_states;
pub use stats_lines::stats_text;
pub use status_lines::put_status;
pub use unread_lines::put_unread;
