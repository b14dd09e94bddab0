//! The figures of a bucket, and the sum of those of two.
ghost use Rattle.std.specs.Prelude.{◌≡◌};
ghost use Rattle.bolt_stats.specs.Figures.{add_stats};

/// The figures of a bucket with all buckets in it, or of a part of one. They are this project's own
/// and may differ from bbolt's. A figure above 2^64 - 1 saturates there.
#[derive(Clone, Copy, Debug, PartialEq, Eq, Default)]
pub struct Stats {
    /// The number of buckets, the outermost included.
    pub buckets: u64,
    /// The number of inline buckets among them.
    pub inline_buckets: u64,
    /// The bytes used of the pages of inline buckets.
    pub inline_used: u64,
    /// The number of elements of leaves and inline pages, buckets included.
    pub keys: u64,
    /// The number of pages on the longest way from the bucket's root page to a leaf, 1 if it is
    /// inline, plus the greatest depth of the buckets in it.
    pub depth: u64,
    /// The number of branches, each with its span.
    pub branch_pages: u64,
    /// The number of further pages of their spans.
    pub branch_overflow: u64,
    /// The bytes of their spans.
    pub branch_allocated: u64,
    /// The bytes used of branches: headers, elements and keys.
    pub branch_used: u64,
    /// The number of leaves, each with its span, without inline pages.
    pub leaf_pages: u64,
    /// The number of further pages of their spans.
    pub leaf_overflow: u64,
    /// The bytes of their spans.
    pub leaf_allocated: u64,
    /// The bytes used of leaves: headers, elements, keys and values.
    pub leaf_used: u64,
}

/// Adds up the figures of two buckets, but takes the greater depth.
pub fn add(a: Stats, b: Stats) -> Stats
    ensures { result ≡ add_stats a b }
{
    Stats {
        buckets: a.buckets.saturating_add(b.buckets),
        inline_buckets: a.inline_buckets.saturating_add(b.inline_buckets),
        inline_used: a.inline_used.saturating_add(b.inline_used),
        keys: a.keys.saturating_add(b.keys),
        depth: a.depth.max(b.depth),
        branch_pages: a.branch_pages.saturating_add(b.branch_pages),
        branch_overflow: a.branch_overflow.saturating_add(b.branch_overflow),
        branch_allocated: a.branch_allocated.saturating_add(b.branch_allocated),
        branch_used: a.branch_used.saturating_add(b.branch_used),
        leaf_pages: a.leaf_pages.saturating_add(b.leaf_pages),
        leaf_overflow: a.leaf_overflow.saturating_add(b.leaf_overflow),
        leaf_allocated: a.leaf_allocated.saturating_add(b.leaf_allocated),
        leaf_used: a.leaf_used.saturating_add(b.leaf_used),
    }
}
