//! What is wrong with a page.

/// The first test that a page fails (docs/FORMAT.md, "The tests of a page").
#[derive(Clone, Copy, Debug, PartialEq, Eq)]
pub struct PageFault {
    /// Which test: one of the constants below.
    pub number: u8,
    /// The number of the page that was asked for.
    pub page: u64,
}

impl PageFault {
    /// The page, or the last page of its span, is at or above the high-water mark.
    pub const RANGE: u8 = 6;
    /// The file ends before the header or the span does.
    pub const CUT: u8 = 7;
    /// The header has the number of another page.
    pub const ID: u8 = 8;
    /// The flags are those of no kind of page.
    pub const PAGE_KIND: u8 = 9;
    /// The table or the data of an element ends past the span.
    pub const ELEMENT_CUT: u8 = 10;
    /// The data of an element begins before the end of the table or of the preceding data.
    pub const DATA_ORDER: u8 = 11;
    /// A key has no bytes, or more than 2^30.
    pub const KEY_LENGTH: u8 = 12;
    /// A value has more than 2^31 - 2 bytes.
    pub const VALUE_LENGTH: u8 = 13;
    /// The flags of a leaf element are neither 0 nor 1.
    pub const LEAF_FLAGS: u8 = 14;
    /// The value of a bucket has fewer than 16 bytes.
    pub const BUCKET_SHORT: u8 = 15;
    /// The page in the value of an inline bucket is not a good leaf page.
    pub const INLINE_PAGE: u8 = 16;
    /// An inline bucket contains a bucket.
    pub const INLINE_NESTED: u8 = 17;
}
