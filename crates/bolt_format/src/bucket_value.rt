//! The value of a bucket's element: its head and, if it is inline, its leaf page; and their tests.
ghost use Rattle.std.specs.Prelude.{◌≡◌, ◌<◌, ◌==◌, ◌≤◌, IfOk, None, OnOk, Some, false, length, slice_get};
ghost use Rattle.std.specs.Result.{result_err};
ghost use Rattle.std.proofs.Props.{props};
ghost use Rattle.bolt_format.specs.Elements.{element_at, page_has_bucket, head_fault, inline_fault, inline_page_fault, leaves_fault, value_fault};
ghost use Rattle.bolt_format.specs.{ElementPlaces.leaf_view, Headers.count_field};

use crate::bytes::u64_at;
use crate::element::{Leaf, is_bucket, test_leaf, test_table};
use crate::header::{HEADER_LEN, Header, Kind};
use crate::page_fault::PageFault;
use crate::tree_page::LeafPage;

/// The length of a bucket's root page and sequence, with which its value begins.
pub const HEAD_LEN: usize = 16;

/// The first 16 bytes of a bucket's value (docs/FORMAT.md, "Buckets").
#[derive(Clone, Copy, Debug, PartialEq, Eq)]
pub struct Head {
    /// The page number of the bucket's root page, or 0 for an inline bucket.
    pub root: u64,
    /// The bucket's sequence.
    pub sequence: u64,
}

impl Head {
    /// Whether the bucket is inline: its page is in its value.
    pub fn is_inline(&self) -> bool
        ensures { result ≡ (self.now.root == 0) }
    {
        self.root == 0
    }
}

/// The page of an inline bucket, which passed all tests. Its elements are values.
#[derive(Clone, Copy)]
pub struct Inline<'a> {
    /// The page number in its header. bbolt writes 0.
    pub number: u64,
    /// The page as a leaf.
    pub page: LeafPage<'a>,
    ghost flat: { page_has_bucket page.bytes.now page.count ≡ false } by { Prim.hlevel props },
}

impl<'a> Inline<'a> {
    ghost use Rattle.bolt_format.specs.ShownInline.{shown_inline};

    /// The number of its elements.
    pub fn count(&self) -> u16
        ensures { result ≡ length (shown_inline self.now) }
    {
        self.page.count()
    }

    /// Element `i`, which is a value. `i` is below `count`.
    pub fn leaf(&self, i: u16) -> Leaf<'a>
        requires { i < length (shown_inline self.now) }
        ensures element { slice_get (shown_inline self.now) i ≡ Some (leaf_view result) }
        ensures flat { result.is_bucket ≡ false }
    {
        self.page.element(i)
    }
}

/// Tests the value of a bucket.
#[tactic(auto, unfolding(crate::specs::Elements::value_fault))]
pub(crate) fn test_bucket_value(value: &[u8]) -> Result<(), u8>
    ensures { result_err result ≡ value_fault value.now }
{
    test_head(value)?;
    if u64_at(value, 0) == 0 {
        test_inline(&value[HEAD_LEN..])?;
    }
    Ok(())
}

/// Tests that a bucket's value has room for its root page and its sequence.
fn test_head(value: &[u8]) -> Result<(), u8>
    ensures { result_err result ≡ head_fault value.now }
{
    if value.len() < HEAD_LEN {
        return Err(PageFault::BUCKET_SHORT);
    }
    Ok(())
}

/// Tests the page in the value of an inline bucket: a leaf page without buckets.
#[tactic(auto, unfolding(crate::specs::Elements::inline_fault))]
fn test_inline(bytes: &[u8]) -> Result<(), u8>
    ensures { result_err result ≡ inline_fault bytes.now }
{
    let count = test_inline_page(bytes)?;
    if has_bucket(bytes, count) {
        return Err(PageFault::INLINE_NESTED);
    }
    Ok(())
}

/// Tests the header of an inline page and its elements, and returns their number.
fn test_inline_page(bytes: &[u8]) -> Result<u16, u8>
    ensures fault { result_err result ≡ inline_page_fault bytes.now }
    ensures count { IfOk result (λ count. (count ≡ count_field bytes.now)
        × (element_at count ≤ length bytes.now)) }
{
    if bytes.len() < HEADER_LEN {
        return Err(PageFault::INLINE_PAGE);
    }
    let header = Header::read(bytes);
    if header.flags != Kind::Leaf.flags() {
        return Err(PageFault::INLINE_PAGE);
    }
    match test_inline_leaves(bytes, header.count) {
        Ok(()) => Ok(header.count),
        Err(_) => Err(PageFault::INLINE_PAGE),
    }
}

/// Tests the leaf elements of an inline page. Of the buckets among them only the first 16 bytes are
/// tested.
#[tactic(auto, using(crate::proofs::FaultLemmas::faults_from_step, crate::proofs::FaultLemmas::faults_from_end), unfolding(crate::specs::Elements::leaves_fault))]
fn test_inline_leaves(bytes: &[u8], count: u16) -> Result<(), u8>
    ensures fault { result_err result ≡ leaves_fault head_fault bytes.now count }
    ensures table { OnOk result (element_at count ≤ length bytes.now) }
{
    let mut free = test_table(bytes, count)?;
    for i in 0..count {
        let place = test_leaf(bytes, free, i)?;
        if is_bucket(bytes, i) {
            test_head(&bytes[place.value..place.end])?;
        }
        free = place.end;
    }
    Ok(())
}

/// Whether one of the leaf elements is a bucket.
#[tactic(auto, using(crate::proofs::FaultLemmas::any_steps))]
fn has_bucket(bytes: &[u8], count: u16) -> bool
    requires { element_at count ≤ length bytes.now }
    ensures { result ≡ page_has_bucket bytes.now count }
{
    for i in 0..count {
        if is_bucket(bytes, i) {
            return true;
        }
    }
    false
}
