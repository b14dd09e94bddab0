//! The meta that is assumed for a file whose own metas are lost.
ghost use Rattle.std.specs.Prelude.{◌≡◌, ◌<◌, ◌*◌, ◌↔◌, ℕ};
ghost use Rattle.bolt_format.specs.Assumed.{assumed_meta};

use crate::meta::{Meta, NO_FREELIST};

/// The meta of a file of this length with this page size and root page (docs/RECOVERY.md, "An
/// assumed meta"). The root bucket has sequence 0, no freelist was written, the transaction id is 0,
/// and all pages that begin in the file are below the high-water mark.
pub fn assumed_meta(file_len: u64, page_size: u32, root: u64) -> Meta
    requires { 0 < page_size }
    ensures meta { result ≡ assumed_meta file_len page_size root }
    ensures high_water { (n : ℕ) → (n < result.high_water) ↔ (n * page_size < file_len) }
{
    Meta {
        page_size,
        root,
        root_sequence: 0,
        freelist: NO_FREELIST,
        high_water: file_len.div_ceil(u64::from(page_size)),
        txid: 0,
    }
}
