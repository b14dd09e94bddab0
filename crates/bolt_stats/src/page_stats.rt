//! The figures of one page: its own, and those of the inline buckets in it.
ghost use Rattle.std.specs.Prelude.{◌≡◌, ◌+◌, ◌*◌, IsTrue, length, sum_by};
ghost use Rattle.bolt_format.specs.{Elements.IsBucketValue, ElementPlaces.leaf_view, TreePages.branches_on, TreePages.leaves_on};
ghost use Rattle.bolt_format.specs.{TreePages.shown_page};
ghost use Rattle.bolt_format.specs.declared.tree_page.TreePage.TheVariants as tree;
ghost use Rattle.bolt_stats.specs.Figures.{used_by_branches, branch_figure, element_figure, inline_figure, used_by_leaves, leaf_figure, HasFigures};
ghost use Rattle.bolt_check.specs.Counts.{saturated};

use crate::figures::{Stats, add};
use bolt_format::{BranchPage, ELEMENT_LEN, HEADER_LEN, Leaf, LeafPage, head, inline};

/// The length of a page's header.
const PAGE_HEADER: u64 = HEADER_LEN as u64;

/// The length of an element's header.
const ELEMENT_HEADER: u64 = ELEMENT_LEN as u64;

/// The bytes of a leaf element.
fn leaf_size(leaf: &Leaf<'_>) -> u64
    ensures { result ≡ saturated (16 + length leaf.now.key.now + length leaf.now.value.now) }
{
    ELEMENT_HEADER
        .saturating_add(leaf.key.len() as u64)
        .saturating_add(leaf.value.len() as u64)
}

/// The bytes used of a leaf or of an inline page: its header and its elements.
#[tactic(auto, using(crate::proofs::FigureLemmas::sums))]
fn leaf_used(page: &LeafPage<'_>) -> u64
    ensures { result ≡ saturated (used_by_leaves (leaves_on page.now)) }
{
    let mut used = PAGE_HEADER;
    for leaf in page.elements() {
        used = used.saturating_add(leaf_size(&leaf));
    }
    used
}

/// The figures of an inline bucket.
pub(crate) fn inline_stats(page: &LeafPage<'_>) -> Stats
    ensures { HasFigures result (λ f. inline_figure f (leaves_on page.now)) }
{
    let used = leaf_used(page);
    Stats {
        buckets: 1,
        inline_buckets: 1,
        inline_used: used,
        keys: u64::from(page.count()),
        ..Stats::default()
    }
}

/// What a leaf element adds besides its bytes: the figures of its bucket, if it is one.
fn element_stats(leaf: &Leaf<'_>) -> Stats
    requires { IsTrue leaf.now.is_bucket → IsBucketValue leaf.now.value.now }
    ensures { HasFigures result (λ f. element_figure f (leaf_view leaf.now)) }
{
    if !leaf.is_bucket {
        return Stats::default();
    }
    if head(leaf.value).is_inline() {
        return inline_stats(&inline(leaf.value).page);
    }
    Stats {
        buckets: 1,
        ..Stats::default()
    }
}

/// The bytes of a page's span, which has so many further pages.
fn allocated(overflow: u32, page_size: u32) -> u64
    ensures { result ≡ (1 + overflow) * page_size }
{
    (1 + u64::from(overflow)) * u64::from(page_size)
}

/// The bytes used of a branch: its header and its elements.
#[tactic(auto, using(crate::proofs::FigureLemmas::sums))]
fn branch_used(page: &BranchPage<'_>) -> u64
    ensures { result ≡ saturated (used_by_branches (branches_on page.now)) }
{
    let mut used = PAGE_HEADER;
    for branch in page.elements() {
        used = used
            .saturating_add(ELEMENT_HEADER)
            .saturating_add(branch.key.len() as u64);
    }
    used
}

/// The figures of a branch.
pub(crate) fn branch_stats(page: &BranchPage<'_>, page_size: u32) -> Stats
    ensures { HasFigures result (λ f.
        branch_figure f page_size (shown_page (tree.Branch page.now))) }
{
    let used = branch_used(page);
    Stats {
        branch_pages: 1,
        branch_overflow: u64::from(page.overflow()),
        branch_allocated: allocated(page.overflow(), page_size),
        branch_used: used,
        ..Stats::default()
    }
}

/// The figures of a leaf itself.
fn own_stats(page: &LeafPage<'_>, page_size: u32) -> Stats
    ensures { HasFigures result (λ f. leaf_figure f page_size (shown_page (tree.Leaf page.now))) }
{
    let used = leaf_used(page);
    Stats {
        keys: u64::from(page.count()),
        leaf_pages: 1,
        leaf_overflow: u64::from(page.overflow()),
        leaf_allocated: allocated(page.overflow(), page_size),
        leaf_used: used,
        ..Stats::default()
    }
}

/// What the elements of a leaf add.
#[tactic(auto, using(crate::proofs::FigureLemmas::sums))]
fn inner_stats(page: &LeafPage<'_>) -> Stats
    ensures { HasFigures result (λ f. sum_by (element_figure f) (leaves_on page.now)) }
{
    let mut inner = Stats::default();
    for leaf in page.elements() {
        inner = add(inner, element_stats(&leaf));
    }
    inner
}

/// The figures of a leaf with the inline buckets in it.
pub(crate) fn leaf_stats(page: &LeafPage<'_>, page_size: u32) -> Stats
    ensures { HasFigures result (λ f.
        leaf_figure f page_size (shown_page (tree.Leaf page.now))
        + sum_by (element_figure f) (leaves_on page.now)) }
{
    add(own_stats(page, page_size), inner_stats(page))
}
