//! Which of the two metas bbolt takes when it opens a file, which isn't always the active one; and the
//! headers of their pages, which its check reads.
ghost use Rattle.std.specs.Prelude.{◌≡◌, ◌+◌, ◌≤◌, IsTrue, length};
ghost use Rattle.bolt_format.specs.BboltMetas.{bbolt_page_size, bbolt_slot, bbolt_txid, has_meta_header, is_bbolt_meta, is_meta_header};

use crate::bytes::{fnv1a, u32_at, u64_at};
use crate::header::{HEADER_LEN, Header, Kind};
use crate::meta::{MAGIC, META_LEN, Slot, VERSION};

/// The page size of bbolt's system. It opens no file with fewer bytes, and looks for the second meta
/// there if the first isn't valid to it.
const SYSTEM_PAGE_SIZE: u32 = 4096;

/// The page size that bbolt reads a file with (docs/FORMAT.md, "The meta that bbolt takes").
pub fn bbolt_page_size(file: &[u8]) -> u32
    ensures { result ≡ bbolt_page_size file.now }
{
    if is_bbolt_meta(file, 0) {
        u32_at(file, 24)
    } else {
        SYSTEM_PAGE_SIZE
    }
}

/// The slot of the meta that bbolt takes when it opens a file, or `None` if it doesn't open it
/// (docs/FORMAT.md, "The meta that bbolt takes").
#[tactic(auto, unfolding(crate::specs::BboltMetas::bbolt_slot))]
pub fn bbolt_slot(file: &[u8]) -> Option<Slot>
    ensures { result ≡ bbolt_slot file.now }
{
    if file.len() < SYSTEM_PAGE_SIZE as usize {
        return None;
    }
    let zero = bbolt_txid(file, 0);
    let one = bbolt_txid(file, bbolt_page_size(file) as usize);
    match (zero, one) {
        (None, None) => None,
        (None, Some(_)) => Some(Slot::One),
        (Some(zero), Some(one)) if one > zero => Some(Slot::One),
        (Some(_), _) => Some(Slot::Zero),
    }
}

/// The transaction id of the record at byte `at`, if it is valid to bbolt.
fn bbolt_txid(file: &[u8], at: usize) -> Option<u64>
    ensures { result ≡ bbolt_txid file.now at }
{
    if is_bbolt_meta(file, at) {
        Some(u64_at(file, at + 64))
    } else {
        None
    }
}

/// Whether the record at byte `at` is valid to bbolt. It tests neither the page size nor the place, and
/// a checksum of 0 is right to it.
#[tactic(auto, unfolding(crate::specs::BboltMetas::is_bbolt_meta))]
fn is_bbolt_meta(file: &[u8], at: usize) -> bool
    ensures valid { result ≡ is_bbolt_meta file.now at }
    ensures whole { IsTrue result → at + 80 ≤ length file.now }
{
    if file.len() < META_LEN || at > file.len() - META_LEN {
        return false;
    }
    if u32_at(file, at + 16) != MAGIC || u32_at(file, at + 20) != VERSION {
        return false;
    }
    let sum = u64_at(file, at + 72);
    sum == 0 || sum == fnv1a(&file[at + 16..at + 72])
}

/// Whether the page of a slot's meta has its own number in its header, and the flags of a meta page.
/// bbolt's check panics on another one (docs/SOUND.md, "For bbolt"); no other call reads this header.
/// A header that isn't whole is none.
pub fn has_meta_header(file: &[u8], slot: Slot, page_size: u32) -> bool
    ensures { result ≡ has_meta_header file.now slot page_size }
{
    match slot {
        Slot::Zero => is_meta_header(file, 0, 0),
        Slot::One => is_meta_header(file, page_size as usize, 1),
    }
}

/// Whether the header at byte `at` is that of a meta page with this number.
fn is_meta_header(file: &[u8], at: usize, number: u64) -> bool
    ensures { result ≡ is_meta_header file.now at number }
{
    if file.len() < HEADER_LEN || at > file.len() - HEADER_LEN {
        return false;
    }
    let header = Header::read(&file[at..]);
    header.id == number && header.flags == Kind::Meta.flags()
}
