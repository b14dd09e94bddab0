//! The gaps of kept pages: where their data isn't where bbolt writes it.
ghost use Rattle.std.specs.Prelude.{◌≡◌};
ghost use Rattle.std.specs.Option.{option_map, option_to_list};
ghost use Rattle.bolt_format.specs.Gaps.{gap_view};
ghost use Rattle.bolt_recover.specs.PageGaps.{gap_on, page_gap_view};

use bolt_format::Gap;

/// The first gap of a kept page (docs/SOUND.md, "Gaps").
#[derive(Clone, Copy, Debug)]
pub struct PageGap<'a> {
    /// The number of the page. For the page of an inline bucket it is that of the page that contains
    /// the bucket.
    pub page: u64,
    /// The gap.
    pub gap: Gap<'a>,
}

impl<'a> PageGap<'a> {
    /// The first gap of a page, if it has one.
    pub(crate) fn of(page: u64, gap: Option<Gap<'a>>) -> Option<PageGap<'a>>
        ensures { option_to_list (option_map page_gap_view result)
            ≡ gap_on page (option_map gap_view gap.entry) }
    {
        match gap {
            Some(gap) => Some(PageGap { page, gap }),
            None => None,
        }
    }
}
