//! The bytes of headers, of the heads of buckets and of metas: what `header`, `element`, `bucket`
//! and `meta` read.
#![tactic(auto, unfolding(crate::specs::Encoded::number_bytes, crate::specs::Encoded::header_bytes, crate::specs::Encoded::branch_header, crate::specs::Encoded::leaf_header, crate::specs::Encoded::head_bytes, crate::specs::Encoded::meta_record, crate::specs::Encoded::meta_bytes))]

ghost use Rattle.std.specs.Prelude.{◌≡◌, ◌≤◌, ◌++◌, drop, length};
ghost use Rattle.bolt_format.specs.Encoded.{branch_header, head_bytes, header_bytes, leaf_header, meta_bytes, meta_record};

use crate::bucket_value::HEAD_LEN;
use crate::bytes::fnv1a;
use crate::element::{BUCKET_FLAGS, ELEMENT_LEN};
use crate::header::{HEADER_LEN, Kind};
use crate::meta::{MAGIC, META_LEN, Meta, VERSION};
use byteorder::{ByteOrder, LittleEndian};

/// The length of a meta record without its checksum.
const RECORD_LEN: usize = 56;

/// The header of a page (docs/FORMAT.md, "Page header").
pub fn page_header(number: u64, kind: Kind, count: u16, overflow: u32) -> [u8; HEADER_LEN]
    ensures { result ≡ header_bytes number kind count overflow }
{
    let mut bytes = [0; HEADER_LEN];
    LittleEndian::write_u64(&mut bytes, number);
    LittleEndian::write_u16(&mut bytes[8..], kind.flags());
    LittleEndian::write_u16(&mut bytes[10..], count);
    LittleEndian::write_u32(&mut bytes[12..], overflow);
    bytes
}

/// The header of a branch element (docs/FORMAT.md, "Elements"). Its key has `key` bytes, and begins
/// `pos` bytes after the start of this header.
pub fn branch_header(pos: u32, key: u32, child: u64) -> [u8; ELEMENT_LEN]
    ensures { result ≡ branch_header pos key child }
{
    let mut bytes = [0; ELEMENT_LEN];
    LittleEndian::write_u32(&mut bytes, pos);
    LittleEndian::write_u32(&mut bytes[4..], key);
    LittleEndian::write_u64(&mut bytes[8..], child);
    bytes
}

/// The header of a leaf element (docs/FORMAT.md, "Elements"). Its key has `key` bytes, and begins
/// `pos` bytes after the start of this header. Its value has `value` bytes.
pub fn leaf_header(is_bucket: bool, pos: u32, key: u32, value: u32) -> [u8; ELEMENT_LEN]
    ensures { result ≡ leaf_header is_bucket pos key value }
{
    let flags = if is_bucket { BUCKET_FLAGS } else { 0 };
    let mut bytes = [0; ELEMENT_LEN];
    LittleEndian::write_u32(&mut bytes, flags);
    LittleEndian::write_u32(&mut bytes[4..], pos);
    LittleEndian::write_u32(&mut bytes[8..], key);
    LittleEndian::write_u32(&mut bytes[12..], value);
    bytes
}

/// The first bytes of a bucket's value (docs/FORMAT.md, "Buckets").
pub fn bucket_head(root: u64, sequence: u64) -> [u8; HEAD_LEN]
    ensures { result ≡ head_bytes root sequence }
{
    let mut bytes = [0; HEAD_LEN];
    LittleEndian::write_u64(&mut bytes, root);
    LittleEndian::write_u64(&mut bytes[8..], sequence);
    bytes
}

/// A meta record, up to its checksum.
fn meta_record(meta: &Meta) -> [u8; RECORD_LEN]
    ensures { result ≡ meta_record meta.now }
{
    let mut bytes = [0; RECORD_LEN];
    LittleEndian::write_u32(&mut bytes, MAGIC);
    LittleEndian::write_u32(&mut bytes[4..], VERSION);
    LittleEndian::write_u32(&mut bytes[8..], meta.page_size);
    LittleEndian::write_u64(&mut bytes[16..], meta.root);
    LittleEndian::write_u64(&mut bytes[24..], meta.root_sequence);
    LittleEndian::write_u64(&mut bytes[32..], meta.freelist);
    LittleEndian::write_u64(&mut bytes[40..], meta.high_water);
    LittleEndian::write_u64(&mut bytes[48..], meta.txid);
    bytes
}

/// Writes a part at the start of `bytes`.
fn write_part(bytes: &mut [u8], part: &[u8])
    requires { length part.now ≤ length bytes.old }
    ensures { bytes.new ≡ part.now ++ drop (length part.now) bytes.old }
{
    bytes[..part.len()].copy_from_slice(part);
}

/// The bytes of a meta page before its zeros: its header, its record and the checksum
/// (docs/FORMAT.md, "Meta pages").
pub fn meta_page(number: u64, meta: &Meta) -> [u8; META_LEN]
    ensures { result ≡ meta_bytes number meta.now }
{
    let record = meta_record(meta);
    let mut bytes = [0; META_LEN];
    write_part(&mut bytes, &page_header(number, Kind::Meta, 0, 0));
    write_part(&mut bytes[HEADER_LEN..], &record);
    LittleEndian::write_u64(&mut bytes[HEADER_LEN + RECORD_LEN..], fnv1a(&record));
    bytes
}
