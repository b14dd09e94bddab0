//! A look at what may be the root page of a state: the way to its first leaf. It needs no memory.
ghost use Rattle.std.specs.Prelude.{◌≡◌, ◌⊎◌, ◌<◌, ◌≤◌, ℕ, List, [], false, length, true};
ghost use Rattle.std.specs.List.{Contains};
ghost use Rattle.bolt_check.specs.ShownSpots.{page_spot};
ghost use Rattle.bolt_format.specs.{Elements.LeafElement, TreePages.leaves_on, TreePages.page_keys};
ghost use Rattle.bolt_recover.specs.{Private.FirstWays.IsFirstChild, Private.FirstWays.IsFirstWay, Private.FirstWays.IsLeafLook};
ghost use Rattle.bolt_recover.specs.{Private.FirstWays.IsInHull, Private.FirstWays.Says, States.HasBucketsAlone};

use crate::kept_page::KeptPage;
use bolt_check::{MAX_DEPTH, PageSpot, Spot, test_page};
use bolt_format::{LeafPage, Meta, TreePage};

/// The lowest and the highest page of some spans; none if the lowest one is the higher.
#[derive(Clone, Copy)]
pub(crate) struct Hull {
    pub from: u64,
    pub last: u64,
}

impl Hull {
    /// The hull of no span.
    fn none() -> Hull
        ensures { (n : ℕ) → IsInHull result n → ⊥ }
    {
        Hull { from: 1, last: 0 }
    }

    /// Whether a span lies apart from it.
    fn is_apart(&self, from: u64, last: u64) -> bool
        ensures { result ≡ true → (n : ℕ) → from ≤ n → n ≤ last → IsInHull self.now n → ⊥ }
    {
        last < self.from || self.last < from
    }

    /// The hull of these spans and one more.
    fn with(&self, from: u64, last: u64) -> Hull
        ensures old { (n : ℕ) → IsInHull self.now n → IsInHull result n }
        ensures new { (n : ℕ) → from ≤ n → n ≤ last → IsInHull result n }
    {
        if self.last < self.from {
            return Hull { from, last };
        }
        Hull {
            from: self.from.min(from),
            last: self.last.max(last),
        }
    }
}

/// What a look at a page on the way to the first leaf says.
#[derive(Clone, Copy)]
pub(crate) enum Look<'a> {
    /// The page is a leaf with a value, and it is kept.
    Value,
    /// The page is a kept branch, and this is its first child.
    Next(FirstWay<'a>),
    /// Nothing is known.
    Unknown,
}

/// Whether the root page can be that of a state: `false` only if it isn't. It isn't if the page is
/// lost, or a leaf that has no element or a value, or if the way to its first leaf shows a value. Ends at the
/// first value.
pub(crate) fn may_be_root(file: &[u8], meta: &Meta) -> bool
    ensures { result ≡ false → HasBucketsAlone file.now meta.now → ⊥ }
{
    match test_page(file, meta, &PageSpot::root(meta.root)) {
        Ok(TreePage::Leaf(leaf)) => has_buckets_alone(&leaf),
        Ok(TreePage::Branch(_)) => !shows_value(file, meta),
        Err(_) => false,
    }
}

/// How far the way to the first leaf was gone.
#[derive(Clone, Copy)]
pub(crate) struct FirstWay<'a> {
    /// The page that it leads to.
    pub spot: PageSpot<'a>,
    /// The hull of the pages before it.
    pub hull: Hull,
}

/// Whether the way to the first leaf shows that the root bucket has a value.
fn shows_value(file: &[u8], meta: &Meta) -> bool
    ensures { result ≡ true → HasBucketsAlone file.now meta.now → ⊥ }
{
    let mut way = FirstWay {
        spot: PageSpot::root(meta.root),
        hull: Hull::none(),
    };
    'pages: for _ in 0..MAX_DEPTH {
        way = match look_at(file, meta, way) {
            Look::Value => return true,
            Look::Unknown => return false,
            Look::Next(next) => next,
        };
    }
    false
}

/// Looks at a page on the way to the first leaf.
fn look_at<'a>(file: &'a [u8], meta: &Meta, way: FirstWay<'a>) -> Look<'a>
    ensures { (ways : List ℕ) → IsFirstWay file.now meta.now ways way.entry
        → Says file.now meta.now ways result }
{
    let FirstWay { spot, hull } = way;
    let Ok(page) = test_page(file, meta, &spot) else {
        return Look::Unknown;
    };
    let Some(last) = spot.number.checked_add(u64::from(page.overflow())) else {
        return Look::Unknown;
    };
    if spot.number < 2 || !hull.is_apart(spot.number, last) || page.count() == 0 {
        return Look::Unknown;
    }
    match page {
        TreePage::Leaf(leaf) => look_in(&leaf),
        TreePage::Branch(_) => first_child(spot, page, hull.with(spot.number, last)),
    }
}

/// Whether a leaf has a value.
fn look_in<'a>(leaf: &LeafPage<'_>) -> Look<'a>
    ensures { IsLeafLook leaf.now result }
{
    for i in 0..leaf.count() {
        if !leaf.element(i).is_bucket {
            return Look::Value;
        }
    }
    Look::Unknown
}

/// Where the first element of a branch leads.
fn first_child<'a>(spot: PageSpot<'a>, page: TreePage<'a>, hull: Hull) -> Look<'a>
    requires shallow { spot.depth ≤ 64 }
    requires some { 0 < length (page_keys page) }
    ensures { IsFirstChild spot.entry page.entry hull result }
{
    let content = KeptPage {
        spot: Spot::Page(spot),
        page,
    };
    match content.spot(0) {
        Some(Spot::Page(spot)) => Look::Next(FirstWay { spot, hull }),
        _ => Look::Unknown,
    }
}

/// Whether a leaf has an element, and no value.
fn has_buckets_alone(leaf: &LeafPage<'_>) -> bool
    ensures { result ≡ false → (leaves_on leaf.now ≡ []) ⊎ ((e : LeafElement)
        × Contains (leaves_on leaf.now) e × (e.is_bucket ≡ false)) }
{
    for i in 0..leaf.count() {
        if !leaf.element(i).is_bucket {
            return false;
        }
    }
    leaf.count() > 0
}
