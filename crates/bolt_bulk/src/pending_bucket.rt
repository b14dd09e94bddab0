//! A bucket within the open one that may be inline.

/// A bucket that has only values so far, which take at most a quarter of a page. If it ends so, it
/// is inline; if it has more, it has a root page.
#[derive(Clone, Copy)]
pub(crate) struct PendingBucket<'a> {
    pub key: &'a [u8],
    pub sequence: u64,
    /// The size of the leaf page over its entries so far.
    pub size: usize,
}
