//! What a copy looks like: its layout, its page size and its root sequence.
ghost use Rattle.bolt_format.specs.Metas.{IsPageSize};

use bolt_layout::Layout;

/// What a copy looks like, apart from its members.
#[derive(Clone, Copy)]
pub struct Blueprint {
    /// The layout that is asked for.
    pub layout: Layout,
    /// The size of its pages.
    pub page_size: u64,
    /// The sequence of the root bucket.
    pub sequence: u64,
    pub ghost accepted: { IsPageSize page_size },
}
