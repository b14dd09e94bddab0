//! The two meta records of a file, and which of them is active.
ghost use Rattle.std.specs.Prelude.{◌≡◌, ◌↔◌, IfErr, IfNone, IfOk, IfSome, IsTrue, OnErr};
ghost use Rattle.bolt_format.specs.Metas.{HasMetaFault, HasSlotFault, IsActive, IsInSlot, IsLoneMeta, IsMeta, IsMetasEnd, IsOnlyActive, IsPageSize};

use crate::bytes::{fnv1a, u32_at, u64_at};

/// The accepted page sizes, in bytes, in rising order.
const PAGE_SIZES: [u64; 16] = [
    1024, 2048, 4096, 8192, 16_384, 32_768, 65_536, 131_072, 262_144, 524_288, 1_048_576,
    2_097_152, 4_194_304, 8_388_608, 16_777_216, 33_554_432,
];

/// No meta record goes beyond this many bytes: the greatest page size, and 80 bytes for a header
/// and a record.
pub const METAS_END: u64 = 33_554_512;

/// The freelist field of a meta if no freelist was written.
pub const NO_FREELIST: u64 = u64::MAX;

/// The length of a page header and a meta record.
pub const META_LEN: usize = 80;

pub(crate) const MAGIC: u32 = 0xED0C_DAED;

pub(crate) const VERSION: u32 = 2;

/// The fields of a meta record: the state of the database at one commit (docs/FORMAT.md, "Meta
/// pages").
#[derive(Clone, Copy, Debug, PartialEq, Eq)]
pub struct Meta {
    /// The page size in bytes.
    pub page_size: u32,
    /// The page number of the root bucket's root page.
    pub root: u64,
    /// The sequence of the root bucket.
    pub root_sequence: u64,
    /// The page number of the freelist, or `NO_FREELIST` if none was written.
    pub freelist: u64,
    /// The high-water mark: the numbers of all pages in use are below it.
    pub high_water: u64,
    /// The id of the transaction that wrote the record.
    pub txid: u64,
}

/// The place of a meta record in a file.
#[derive(Clone, Copy, Debug, PartialEq, Eq)]
pub enum Slot {
    /// At byte 0 of the file.
    Zero,
    /// At byte `page_size`, the second page.
    One,
}

/// Why there is no valid meta record at a byte: the first test that fails. The tests are in this
/// order.
#[derive(Clone, Copy, Debug, PartialEq, Eq)]
pub enum MetaFault {
    /// The file has fewer than 80 bytes from there on.
    Cut = 1,
    /// The magic number differs.
    Magic = 2,
    /// The version of the format isn't 2.
    Version = 3,
    /// The checksum differs.
    Sum = 4,
    /// The page size isn't accepted, or the record is neither at byte 0 nor at its page size.
    PageSize = 5,
}

/// Whether `n` bytes are an accepted page size: a power of two from 1,024 to 33,554,432.
pub fn page_size_ok(n: u64) -> bool
    ensures { IsTrue result ↔ IsPageSize n }
{
    PAGE_SIZES.contains(&n)
}

/// Reads the meta record of the page at byte `at` (docs/FORMAT.md, "Meta pages"). The page header
/// is ignored.
///
/// # Errors
///
/// The first test that the record fails.
pub fn meta_at(file: &[u8], at: usize) -> Result<Meta, MetaFault>
    ensures valid { IfOk result (IsMeta file.now at) }
    ensures fault { IfErr result (HasMetaFault file.now at) }
    ensures none { OnErr result ((meta : _) → IsMeta file.now at meta → ⊥) }
{
    if file.len() < META_LEN || at > file.len() - META_LEN {
        return Err(MetaFault::Cut);
    }
    if u32_at(file, at + 16) != MAGIC {
        return Err(MetaFault::Magic);
    }
    if u32_at(file, at + 20) != VERSION {
        return Err(MetaFault::Version);
    }
    if u64_at(file, at + 72) != fnv1a(&file[at + 16..at + 72]) {
        return Err(MetaFault::Sum);
    }
    let page_size = u32_at(file, at + 24);
    if !page_size_ok(u64::from(page_size)) || (at != 0 && at != page_size as usize) {
        return Err(MetaFault::PageSize);
    }
    Ok(Meta {
        page_size,
        root: u64_at(file, at + 32),
        root_sequence: u64_at(file, at + 40),
        freelist: u64_at(file, at + 48),
        high_water: u64_at(file, at + 56),
        txid: u64_at(file, at + 64),
    })
}

/// Reads the active meta, and returns it with its slot (docs/FORMAT.md, "The active meta"): of two
/// valid metas the one with the greater transaction id; if these are equal, that of slot zero.
///
/// # Errors
///
/// If neither slot has a valid meta, the fault of byte 0.
pub fn choose(file: &[u8]) -> Result<(Slot, Meta), MetaFault>
    ensures chosen { IfOk result (λ c. IsActive file.now c.0 c.1) }
    ensures only { IfOk result (λ c. IsOnlyActive file.now c.0 c.1) }
    ensures fault { IfErr result (HasMetaFault file.now 0) }
    ensures none { OnErr result ((slot : _) (meta : _) → IsInSlot file.now slot meta → ⊥) }
{
    match slot_meta(file, Slot::Zero) {
        Ok(zero) => match slot_meta(file, Slot::One) {
            Ok(one) if one.txid > zero.txid => Ok((Slot::One, one)),
            _ => Ok((Slot::Zero, zero)),
        },
        Err(fault) => match slot_meta(file, Slot::One) {
            Ok(one) => Ok((Slot::One, one)),
            Err(_) => Err(fault),
        },
    }
}

/// Reads the meta of a slot, active or not (docs/FORMAT.md, "The active meta").
///
/// # Errors
///
/// The fault of the byte at which the slot begins. Without a valid meta in slot zero, slot one is
/// searched for at all accepted page sizes; if none has a valid meta, the fault is that of byte 0.
pub fn slot_meta(file: &[u8], slot: Slot) -> Result<Meta, MetaFault>
    ensures valid { IfOk result (IsInSlot file.now slot) }
    ensures fault { IfErr result (HasSlotFault file.now slot) }
    ensures none { OnErr result ((meta : _) → IsInSlot file.now slot meta → ⊥) }
{
    let zero = meta_at(file, 0);
    match slot {
        Slot::Zero => zero,
        Slot::One => match zero {
            Ok(zero) => meta_at(file, zero.page_size as usize),
            Err(fault) => lone_meta(file).ok_or(fault),
        },
    }
}

/// How many bytes of a file its metas need, by its first 80 bytes or more: if slot zero has a valid
/// meta, its page size and 80 bytes; otherwise `METAS_END`. The metas of these bytes, and the faults
/// of their slots, are those of the file (`laws::metas_lie_in_a_prefix`).
pub fn metas_end(first: &[u8]) -> u64
    ensures { IsMetasEnd first.now result }
{
    match meta_at(first, 0) {
        Ok(zero) => u64::from(zero.page_size) + META_LEN as u64,
        Err(_) => METAS_END,
    }
}

/// The first valid record at an accepted page size, for a file without one at byte 0.
fn lone_meta(file: &[u8]) -> Option<Meta>
    ensures found { IfSome result (IsLoneMeta file.now) }
    ensures none { IfNone result ((meta : _) → IsLoneMeta file.now meta → ⊥) }
{
    for at in PAGE_SIZES {
        if let Ok(meta) = meta_at(file, at as usize) {
            return Some(meta);
        }
    }
    None
}
