//! The bytes of a bbolt database file, read and written: numbers and checksums, metas, pages and
//! elements; and the sinks that output is written to. The crates above this one see what a page
//! shows, not how it is laid out.
#![tactic(auto)]

mod assumed;
mod bbolt_meta;
mod bucket_value;
mod bytes;
mod content_tests;
mod element;
mod elements;
mod encode;
mod freelist;
mod gaps;
mod good_page;
mod header;
mod ids;
pub mod laws;
mod meta;
mod open_bucket;
mod open_page;
mod page_fault;
mod sink;
mod tree_page;

pub use assumed::assumed_meta;
pub use bbolt_meta::{bbolt_page_size, bbolt_slot, has_meta_header};
pub use bucket_value::{HEAD_LEN, Head, Inline};
pub use bytes::fnv1a;
pub use element::{Branch, ELEMENT_LEN, Leaf, MAX_KEY_LEN, MAX_VALUE_LEN};
pub use elements::{Branches, Leaves};
pub use encode::{branch_header, bucket_head, leaf_header, meta_page, page_header};
pub use freelist::{free_ids, free_ids_at};
pub use gaps::{Gap, page_gap};
pub use good_page::Page;
pub use header::{HEADER_LEN, Kind};
pub use ids::FreeIds;
pub use meta::{
    META_LEN, METAS_END, Meta, MetaFault, NO_FREELIST, Slot, choose, meta_at, metas_end,
    page_size_ok, slot_meta,
};
pub use open_bucket::{head, inline};
pub use open_page::{known, page};
pub use page_fault::PageFault;
pub use sink::{MemSink, Sink, SinkFault, WriteSink};
pub use tree_page::{BranchPage, LeafPage, TreePage};
