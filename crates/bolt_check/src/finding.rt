//! A finding: which rule is broken, and on which pages.
ghost use Rattle.std.specs.Prelude.{◌≡◌};
ghost use Rattle.bolt_check.specs.Findings.{finding};

use bolt_format::PageFault;

/// What is wrong with a page, or with an interval of pages (docs/SOUND.md).
#[derive(Clone, Copy, Debug, PartialEq, Eq)]
pub struct Finding {
    /// Which rule is broken: one of the constants below, or one of those of `PageFault`.
    pub number: u8,
    /// The number of the page, or of the first page of the interval.
    pub page: u64,
    /// The number of the last page of the interval. It differs from `page` only for `UNREACHABLE`.
    pub last: u64,
}

impl Finding {
    /// The page is used twice: by two ways, or by two of a way, the freelist and a meta.
    pub const TWICE: u8 = 18;
    /// A key isn't above the preceding key of its page.
    pub const ORDER: u8 = 19;
    /// A key is below the key that leads to its page.
    pub const BELOW_PARENT: u8 = 20;
    /// A key isn't below the key after the one that leads to its page.
    pub const ABOVE_NEXT: u8 = 21;
    /// A branch has no elements.
    pub const EMPTY_BRANCH: u8 = 22;
    /// The page is the 65th on the way from its bucket's root page.
    pub const TOO_DEEP: u8 = 23;
    /// The page is listed as free more than once.
    pub const FREED_TWICE: u8 = 24;
    /// The page is listed as free, but is in use.
    pub const REACHED_FREED: u8 = 25;
    /// The pages are neither in use nor listed as free.
    pub const UNREACHABLE: u8 = 26;
    /// The page is listed as free, but is a meta page, or at or above the high-water mark.
    pub const FREE_RANGE: u8 = 27;
    /// A branch has one element, which bbolt can't delete below.
    pub const ONE_CHILD: u8 = 37;
    /// A leaf of the root bucket has an element that isn't a bucket.
    pub const ROOT_VALUE: u8 = 38;
    /// A value has a longer key than bbolt writes.
    pub const LARGE_KEY: u8 = 39;
    /// The first key of a page isn't that of its entry in the branch above it.
    pub const FIRST_KEY: u8 = 40;
    /// A leaf is at another depth than the first leaf of its bucket.
    pub const LEAF_DEPTH: u8 = 41;
    /// An inline page has a page number.
    pub const INLINE_NUMBER: u8 = 42;

    /// A finding of one page.
    pub(crate) fn of_page(code: u8, page: u64) -> Finding
        ensures { result ≡ record { number = code; page = page; last = page } }
    {
        Finding {
            number: code,
            page,
            last: page,
        }
    }
}

impl From<PageFault> for Finding {
    ghost from_gives = { λ fault gives. gives ≡ finding fault.number fault.page };

    fn from(fault: PageFault) -> Self {
        Finding::of_page(fault.number, fault.page)
    }
}
