//! What stays the same for all pages of a copy, and the numbers of pages.
ghost use Rattle.std.specs.Prelude.{◌≡◌, ◌*◌, ◌/◌, ◌<◌, ◌≤◌};
ghost use Rattle.bolt_format.specs.Metas.{IsPageSize};
ghost use Rattle.bolt_layout.specs.Levels.{overflow_of};

use std::alloc::Global;

/// The number of items at which a page is full, whatever its size.
pub(crate) const MAX_ITEMS: usize = 65534;

/// The most bytes that a copy may have.
const MAX_LEN: u64 = 0x7FFF_FFFF_FFFF_FFFF;

/// What stays the same for all pages of a copy.
#[derive(Clone, Copy)]
pub(crate) struct PageSetup {
    pub alloc: Global,
    /// The size of a page in bytes.
    pub page_size: usize,
    /// The highest high-water mark that the copy may have.
    pub greatest_high_water: u64,
    ghost low: { 1024 ≤ page_size },
    ghost high: { page_size ≤ 33554432 },
    ghost fits: { greatest_high_water ≤ 18446744073709551615 },
}

/// The setup of a copy at this page size.
pub(crate) fn setup_of(alloc: Global, page_size: u64) -> PageSetup
    requires { IsPageSize page_size }
    ensures page_size { result.page_size ≡ page_size }
    ensures greatest_high_water { result.greatest_high_water ≡ 9223372036854775807 / page_size }
    ensures room { 3 ≤ result.greatest_high_water }
    ensures bytes { result.greatest_high_water * result.page_size < 9223372036854775808 }
{
    PageSetup {
        alloc,
        page_size: page_size as usize,
        greatest_high_water: MAX_LEN / page_size,
    }
}

/// The setup of a pass over the plain layout that notes the limits of the balanced one, which is
/// never 28 times smaller.
pub(crate) fn noting_setup_of(alloc: Global, page_size: u64) -> PageSetup
    requires { IsPageSize page_size }
    ensures page_size { result.page_size ≡ page_size }
    ensures greatest_high_water { result.greatest_high_water ≡ 28 * (9223372036854775807 / page_size) }
    ensures room { 3 ≤ result.greatest_high_water }
{
    PageSetup {
        alloc,
        page_size: page_size as usize,
        greatest_high_water: 28 * (MAX_LEN / page_size),
    }
}

/// How many further pages a page of this size takes.
#[tactic(auto, unfolding(bolt_layout::specs::Levels::overflow_of))]
pub(crate) fn overflow(page_size: usize, size: usize) -> usize
    requires page { 0 < page_size }
    requires size { 0 < size }
    ensures { result ≡ overflow_of page_size size }
{
    (size - 1) / page_size
}
