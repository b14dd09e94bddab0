//! Where the data of a page's elements isn't where bbolt writes it (docs/FORMAT.md, "Gaps").
ghost use Rattle.std.specs.Prelude.{◌≡◌, ◌≤◌, IsSome, None, length};
ghost use Rattle.std.specs.Option.{option_map};
ghost use Rattle.bolt_format.specs.Elements.{branch_end, branch_key_start, branches_fault, element_at, leaf_end, leaf_key_start, leaves_fault};
ghost use Rattle.bolt_format.specs.Elements.{value_fault};
ghost use Rattle.bolt_format.specs.Gaps.{branch_gap, first_elsewhere, gap_view, leaf_gap, page_gap};
ghost use Rattle.bolt_format.specs.Pages.{page_at};

use crate::element::{branch_at, branch_place, element_offset, leaf_at, leaf_place};
use crate::header::Kind;
use crate::meta::Meta;
use crate::open_page::known_span;
use crate::tree_page::LeafPage;

/// Where data of a page isn't where bbolt writes it.
#[derive(Clone, Copy, Debug)]
pub enum Gap<'a> {
    /// Before the data of the first element, which has this key.
    Before(&'a [u8]),
    /// After the data of the element with this key.
    After(&'a [u8]),
}

/// The first of the elements of a branch whose data isn't where bbolt writes it.
#[tactic(auto, using(crate::proofs::GapLemmas::find_steps))]
fn first_branch_gap(bytes: &[u8], count: u16) -> Option<u16>
    requires { element_at count ≤ length bytes.now }
    ensures { result ≡ first_elsewhere (branch_key_start bytes.now) (branch_end bytes.now) count }
{
    let mut written = element_offset(count);
    for i in 0..count {
        let place = branch_place(bytes, i);
        if place.key != written {
            return Some(i);
        }
        written = place.end;
    }
    None
}

/// The first of the elements of a leaf whose data isn't where bbolt writes it.
#[tactic(auto, using(crate::proofs::GapLemmas::find_steps))]
fn first_leaf_gap(bytes: &[u8], count: u16) -> Option<u16>
    requires { element_at count ≤ length bytes.now }
    ensures { result ≡ first_elsewhere (leaf_key_start bytes.now) (leaf_end bytes.now) count }
{
    let mut written = element_offset(count);
    for i in 0..count {
        let place = leaf_place(bytes, i);
        if place.key != written {
            return Some(i);
        }
        written = place.end;
    }
    None
}

/// The first gap of a branch that passed its tests.
#[tactic(auto, using(crate::proofs::GapLemmas::branch_places), unfolding(crate::specs::Gaps::branch_gap))]
fn branch_gap(bytes: &[u8], count: u16) -> Option<Gap<'_>>
    requires { branches_fault bytes.now count ≡ None }
    ensures { option_map gap_view result ≡ branch_gap bytes.now count }
{
    match first_branch_gap(bytes, count) {
        None => None,
        Some(0) => Some(Gap::Before(branch_at(bytes, 0).key)),
        Some(i) => Some(Gap::After(branch_at(bytes, i - 1).key)),
    }
}

/// The first gap of a leaf that passed its tests.
#[tactic(auto, using(crate::proofs::GapLemmas::leaf_places), unfolding(crate::specs::Gaps::leaf_gap))]
fn leaf_gap(bytes: &[u8], count: u16) -> Option<Gap<'_>>
    requires { leaves_fault value_fault bytes.now count ≡ None }
    ensures { option_map gap_view result ≡ leaf_gap bytes.now count }
{
    match first_leaf_gap(bytes, count) {
        None => None,
        Some(0) => Some(Gap::Before(leaf_at(bytes, 0).key)),
        Some(i) => Some(Gap::After(leaf_at(bytes, i - 1).key)),
    }
}

impl<'a> LeafPage<'a> {
    ghost use Rattle.bolt_format.specs.Gaps.{shown_gap};

    /// The page's first gap, if it has one.
    #[tactic(auto, unfolding(crate::specs::Gaps::shown_gap))]
    pub fn gap(&self) -> Option<Gap<'a>>
        ensures { option_map gap_view result ≡ shown_gap self.now }
    {
        leaf_gap(self.bytes, self.count)
    }
}

/// The first gap of page `id`, if it has one. The page is known to be good. A page that is neither a
/// branch nor a leaf has none.
#[tactic(auto, using(crate::proofs::GoodPages::good_within, crate::proofs::GoodPages::good_content_at), unfolding(crate::specs::Gaps::page_gap))]
pub fn page_gap<'a>(file: &'a [u8], meta: &Meta, id: u64) -> Option<Gap<'a>>
    requires { IsSome (page_at file.now meta.now id) }
    ensures { option_map gap_view result ≡ page_gap file.now meta.now id }
{
    let span = known_span(file, meta, id);
    match span.kind {
        Kind::Branch => branch_gap(span.bytes, span.count),
        Kind::Leaf => leaf_gap(span.bytes, span.count),
        Kind::Meta | Kind::Freelist => None,
    }
}
