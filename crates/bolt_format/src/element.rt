//! An element of a branch or a leaf page, and its tests. The bytes are those from the page's first
//! byte to the end of its span or, for an inline page, to the end of the bucket's value.
ghost use Rattle.std.specs.Prelude.{◌≡◌, ◌+◌, ◌≤◌, length, IfOk};
ghost use Rattle.std.specs.Result.{result_err};
ghost use Rattle.bolt_format.specs.Elements.{branch_element, branch_end, branch_fault, branch_key_start, data_fault, element_at, is_bucket_element};
ghost use Rattle.bolt_format.specs.Elements.{key_length_fault, leaf_element, leaf_end, leaf_flags, plain_leaf_fault, table_fault};
ghost use Rattle.bolt_format.specs.{ElementPlaces.IsBranchPlace, ElementPlaces.IsLeafPlace, ElementPlaces.branch_view, ElementPlaces.leaf_view};

use crate::bytes::{u32_at, u64_at};
use crate::header::HEADER_LEN;
use crate::page_fault::PageFault;

/// The length of an element's header.
pub const ELEMENT_LEN: usize = 16;
/// The length of the longest key.
pub const MAX_KEY_LEN: usize = 0x4000_0000;
/// The length of the longest value.
pub const MAX_VALUE_LEN: usize = 0x7FFF_FFFE;
/// The flags of a leaf element that is a bucket.
pub(crate) const BUCKET_FLAGS: u32 = 1;

/// An element of a branch page, which leads to a child.
#[derive(Clone, Copy, Debug)]
pub struct Branch<'a> {
    /// No key of the child is below it.
    pub key: &'a [u8],
    /// The page number of the child.
    pub child: u64,
}

/// An element of a leaf page: a value or a bucket under a key.
#[derive(Clone, Copy, Debug)]
pub struct Leaf<'a> {
    /// The key of the value or of the bucket.
    pub key: &'a [u8],
    /// The bytes of the value or, for a bucket, those that `head` and `inline` read.
    pub value: &'a [u8],
    /// Whether it is a bucket.
    pub is_bucket: bool,
}

/// Where a branch element's key begins and ends.
#[derive(Clone, Copy)]
pub(crate) struct BranchPlace {
    pub key: usize,
    pub end: usize,
}

/// Where a leaf element's key and then its value begin, and where that ends.
#[derive(Clone, Copy)]
pub(crate) struct LeafPlace {
    pub key: usize,
    pub value: usize,
    pub end: usize,
}

/// The offset of element `i`, which is also the length of a table of `i` elements with the page
/// header.
pub(crate) fn element_offset(i: u16) -> usize
    ensures { result ≡ element_at i }
{
    HEADER_LEN + ELEMENT_LEN * usize::from(i)
}

/// Tests that a table of elements lies within the bytes, and returns where it ends.
pub(crate) fn test_table(bytes: &[u8], count: u16) -> Result<usize, u8>
    ensures fault { result_err result ≡ table_fault bytes.now count }
    ensures end { IfOk result (λ end. end ≡ element_at count) }
{
    let end = element_offset(count);
    if bytes.len() < end {
        return Err(PageFault::ELEMENT_CUT);
    }
    Ok(end)
}

fn test_key_length(length: usize) -> Result<(), u8>
    ensures { result_err result ≡ key_length_fault length }
{
    if length == 0 || length > MAX_KEY_LEN {
        return Err(PageFault::KEY_LENGTH);
    }
    Ok(())
}

/// Tests data from `start` to `end`. The data of the preceding elements ends at `free`.
fn test_data(bytes: &[u8], free: usize, start: usize, end: usize) -> Result<(), u8>
    ensures { result_err result ≡ data_fault bytes.now free start end }
{
    if start < free {
        return Err(PageFault::DATA_ORDER);
    }
    if end > bytes.len() {
        return Err(PageFault::ELEMENT_CUT);
    }
    Ok(())
}

/// Where the key of branch element `i` is.
#[tactic(auto, unfolding(crate::specs::Elements::branch_key_start, crate::specs::Elements::branch_key_length))]
pub(crate) fn branch_place(bytes: &[u8], i: u16) -> BranchPlace
    requires { element_at (i + 1) ≤ length bytes.now }
    ensures { IsBranchPlace bytes.now i result }
{
    let at = element_offset(i);
    let key = at + u32_at(bytes, at) as usize;
    BranchPlace {
        key,
        end: key + u32_at(bytes, at + 4) as usize,
    }
}

/// Tests branch element `i`, and returns where its data ends.
#[tactic(auto, unfolding(crate::specs::Elements::branch_fault))]
pub(crate) fn test_branch(bytes: &[u8], free: usize, i: u16) -> Result<usize, u8>
    requires { element_at (i + 1) ≤ length bytes.now }
    ensures fault { result_err result ≡ branch_fault bytes.now free i }
    ensures end { IfOk result (λ end. end ≡ branch_end bytes.now i) }
{
    let place = branch_place(bytes, i);
    test_key_length(place.end - place.key)?;
    test_data(bytes, free, place.key, place.end)?;
    Ok(place.end)
}

/// Where the parts of leaf element `i` are.
#[tactic(auto, unfolding(crate::specs::Elements::leaf_key_start, crate::specs::Elements::leaf_key_length, crate::specs::Elements::leaf_value_length))]
pub(crate) fn leaf_place(bytes: &[u8], i: u16) -> LeafPlace
    requires { element_at (i + 1) ≤ length bytes.now }
    ensures { IsLeafPlace bytes.now i result }
{
    let at = element_offset(i);
    let key = at + u32_at(bytes, at + 4) as usize;
    let value = key + u32_at(bytes, at + 8) as usize;
    LeafPlace {
        key,
        value,
        end: value + u32_at(bytes, at + 12) as usize,
    }
}

/// The flags of leaf element `i`.
#[tactic(auto, unfolding(crate::specs::Elements::leaf_flags))]
fn flags_at(bytes: &[u8], i: u16) -> u32
    requires { element_at (i + 1) ≤ length bytes.now }
    ensures { result ≡ leaf_flags bytes.now i }
{
    u32_at(bytes, element_offset(i))
}

/// Whether leaf element `i` is a bucket.
pub(crate) fn is_bucket(bytes: &[u8], i: u16) -> bool
    requires { element_at (i + 1) ≤ length bytes.now }
    ensures { result ≡ is_bucket_element bytes.now i }
{
    flags_at(bytes, i) == BUCKET_FLAGS
}

/// Tests leaf element `i`, but not the value of a bucket, and returns where its parts are.
#[tactic(auto, unfolding(crate::specs::Elements::plain_leaf_fault))]
pub(crate) fn test_leaf(bytes: &[u8], free: usize, i: u16) -> Result<LeafPlace, u8>
    requires { element_at (i + 1) ≤ length bytes.now }
    ensures fault { result_err result ≡ plain_leaf_fault bytes.now free i }
    ensures place { IfOk result (IsLeafPlace bytes.now i) }
    ensures within { IfOk result (λ place. place.end ≤ length bytes.now) }
{
    let flags = flags_at(bytes, i);
    if flags != 0 && flags != BUCKET_FLAGS {
        return Err(PageFault::LEAF_FLAGS);
    }
    let place = leaf_place(bytes, i);
    test_key_length(place.value - place.key)?;
    if place.end - place.value > MAX_VALUE_LEN {
        return Err(PageFault::VALUE_LENGTH);
    }
    test_data(bytes, free, place.key, place.end)?;
    Ok(place)
}

/// Branch element `i`.
#[tactic(auto, unfolding(crate::specs::Elements::branch_child))]
pub(crate) fn branch_at(bytes: &[u8], i: u16) -> Branch<'_>
    requires table { element_at (i + 1) ≤ length bytes.now }
    requires data { branch_end bytes.now i ≤ length bytes.now }
    ensures { branch_view result ≡ branch_element bytes.now i }
{
    let place = branch_place(bytes, i);
    Branch {
        key: &bytes[place.key..place.end],
        child: u64_at(bytes, element_offset(i) + 8),
    }
}

/// Leaf element `i`.
pub(crate) fn leaf_at(bytes: &[u8], i: u16) -> Leaf<'_>
    requires table { element_at (i + 1) ≤ length bytes.now }
    requires data { leaf_end bytes.now i ≤ length bytes.now }
    ensures { leaf_view result ≡ leaf_element bytes.now i }
{
    let place = leaf_place(bytes, i);
    Leaf {
        key: &bytes[place.key..place.value],
        value: &bytes[place.value..place.end],
        is_bucket: is_bucket(bytes, i),
    }
}
