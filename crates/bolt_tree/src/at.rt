//! Where the tree of a bucket begins.
ghost use Rattle.std.specs.Prelude.{◌≡◌};
ghost use Rattle.bolt_format.specs.Elements.{IsBucketValue, head_root};
ghost use Rattle.bolt_tree.specs.{Entries.start_of, Starts.start_at};

use bolt_format::{Head, Inline, inline};

/// Where a bucket's tree begins: at a root page or, if the bucket is inline, in its own value
/// (docs/FORMAT.md, "Buckets").
#[derive(Clone, Copy)]
pub enum At<'a> {
    /// The number of the root page.
    Page(u64),
    /// The page of an inline bucket.
    Inline(Inline<'a>),
}

/// Where the tree of a bucket with this value and this head begins.
pub(crate) fn at_of(value: &[u8], head: Head) -> At<'_>
    requires value { IsBucketValue value.now }
    requires root { head.root ≡ head_root value.now }
    ensures { start_at result ≡ start_of value.now }
{
    if head.is_inline() {
        At::Inline(inline(value))
    } else {
        At::Page(head.root)
    }
}
