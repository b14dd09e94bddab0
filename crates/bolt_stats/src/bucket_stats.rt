//! The figures of a bucket with all buckets in it. Each page is read once, and nothing is
//! recursive: lists have the buckets that are still to be read, and the pages of the one that is
//! being read.
ghost use Rattle.std.specs.Prelude.{◌≡◌, ◌<◌, ◌+◌, ◌∷◌, ◌++◌, ◌⊎◌, ℕ, [], IfOk, IsTrue, Ok, OnOk, flat_map, map, max, sum_by};
ghost use Rattle.bolt_format.specs.{ElementPlaces.leaf_view, Elements.IsBucketValue, TreePages.branches_on, TreePages.leaves_on};
ghost use Rattle.bolt_check.specs.{CheckedFiles.bytes_of, CheckedFiles.meta_of, Nodes.Node, Nodes.leaf_entry, Nodes.node_at, Subtrees.Enough};
ghost use Rattle.bolt_lemmas.specs.Lists.{Has};
ghost use Rattle.bolt_stats.specs.Deepest.{deepest_in, depth_in, depth_of, greatest, height_of, inline_depth, inner_inline, counted_depth};
ghost use Rattle.bolt_stats.specs.Figures.{Figure, bucket_figure, figure, HasFigures};
ghost use Rattle.bolt_check.specs.Counts.{saturated};
ghost use Rattle.bolt_stats.specs.Readings.{AreGood, figure_in, pages_below, inner_pages, inner_roots, one, unread_bucket, unread_page, own_figure};
ghost use Rattle.bolt_stats.specs.Readings.{root_page_of, roots_of};
ghost use Rattle.bolt_stats.specs.{StatsOf.AreStats, declared.bucket_stats.UnreadBucket.UnreadBucket};

use crate::figures::{Stats, add};
use crate::page_stats::{branch_stats, inline_stats, leaf_stats};
use bolt_check::{Checked, NoMemory};
use bolt_format::{BranchPage, Leaf, LeafPage, TreePage, head, known};
use bolt_tree::{At, Bucket};
use std::alloc::{AllocError, Global};

/// The figures of a bucket with all buckets in it (docs/COMMANDS.md, "stats").
///
/// # Errors
///
/// `NoMemory` if memory runs out for the buckets and pages that are still to be read.
pub fn stats(alloc: Global, bucket: &Bucket<'_>) -> Result<Stats, NoMemory>
    ensures { IfOk result (λ stats. ∥ AreStats bucket.now stats ∥₁) }
{
    match bucket.at() {
        At::Page(root) => Ok(paged_stats(alloc, &bucket.checked(), root)?),
        At::Inline(page) => Ok(Stats {
            depth: 1,
            ..inline_stats(&page.page)
        }),
    }
}

/// A bucket that is still to be read.
#[derive(Clone, Copy)]
struct UnreadBucket {
    root: u64,
    /// The heights of the buckets around it, added up.
    above: u64,
}

/// A page that is still to be read.
#[derive(Clone, Copy)]
struct UnreadPage {
    number: u64,
    /// The number of pages from the bucket's root page to this one, both included.
    depth: u64,
}

/// What the pages of one bucket show, without the buckets in it that have a root page.
#[derive(Clone, Copy)]
struct Read {
    stats: Stats,
    /// The greatest depth of a leaf.
    height: u64,
    /// 1 if there are inline buckets in it, otherwise 0: their depth.
    inline_depth: u64,
}

/// The figures of a bucket with this root page.
fn paged_stats(alloc: Global, checked: &Checked<'_>, root: u64) -> Result<Stats, AllocError>
    requires { ∥ AreGood (bytes_of checked.now) (meta_of checked.now) (root ∷ []) ∥₁ }
    ensures stats { IfOk result (λ stats.
        HasFigures stats (λ f. bucket_figure f + figure_in checked.now f (root ∷ []))) }
    ensures depth { IfOk result (λ stats.
        stats.depth ≡ saturated (depth_of (bytes_of checked.now) (meta_of checked.now) root)) }
{
    let mut total = Stats {
        buckets: 1,
        ..Stats::default()
    };
    let mut buckets = Vec::new(alloc);
    let mut pages = Vec::new(alloc);
    let mut roots = Vec::new(alloc);
    buckets.push(UnreadBucket { root, above: 0 })?;
    'buckets: while let Some(bucket) = buckets.pop() {
        let read = read_bucket(checked, bucket.root, &mut pages, &mut roots)?;
        let above = bucket.above.saturating_add(read.height);
        let depth = above.saturating_add(read.inline_depth);
        total = add(
            total,
            Stats {
                depth,
                ..read.stats
            },
        );
        add_buckets(&mut roots, above, &mut buckets)?;
    }
    Ok(total)
}

/// Reads the pages of a bucket, and finds the root pages of the buckets in it.
fn read_bucket(
    checked: &Checked<'_>,
    root: u64,
    pages: &mut Vec<UnreadPage>,
    roots: &mut Vec<u64>,
) -> Result<Read, AllocError>
    requires good { ∥ AreGood (bytes_of checked.now) (meta_of checked.now) (root ∷ []) ∥₁ }
    requires pages { pages.old.items ≡ [] }
    requires roots { roots.old.items ≡ [] }
    ensures good { OnOk result
        (∥ AreGood (bytes_of checked.now) (meta_of checked.now) roots.new.items ∥₁) }
    ensures pages { OnOk result (pages.new.items ≡ []) }
    ensures fewer { OnOk result
        (pages_below checked.now roots.new.items < pages_below checked.now (root ∷ [])) }
    ensures stats { IfOk result (λ read. (f : Figure)
        → saturated (figure f read.stats + figure_in checked.now f roots.new.items)
        ≡ saturated (figure_in checked.now f (root ∷ []))) }
    ensures height { IfOk result (λ read.
        saturated read.height
        ≡ saturated (height_of (bytes_of checked.now) (meta_of checked.now) 1 root)) }
    ensures deepest { IfOk result (λ read.
        max read.inline_depth (greatest (depth_in checked.now) roots.new.items)
        ≡ deepest_in checked.now root) }
{
    let mut whole = Read {
        stats: Stats::default(),
        height: 0,
        inline_depth: 0,
    };
    pages.push(UnreadPage {
        number: root,
        depth: 1,
    })?;
    'pages: while let Some(open) = pages.pop() {
        let read = read_unread_page(checked, open, pages, roots)?;
        whole.stats = add(whole.stats, read.stats);
        whole.height = whole.height.max(read.height);
        whole.inline_depth = whole.inline_depth.max(read.inline_depth);
    }
    Ok(whole)
}

/// Reads a page: opens the children of a branch, and finds the buckets of a leaf.
fn read_unread_page(
    checked: &Checked<'_>,
    next: UnreadPage,
    pages: &mut Vec<UnreadPage>,
    roots: &mut Vec<u64>,
) -> Result<Read, AllocError>
    requires { ∥ Enough (node_at (bytes_of checked.now) (meta_of checked.now))
        (meta_of checked.now).high_water next.number ∥₁ }
    ensures stats { IfOk result (λ read.
        HasFigures read.stats (λ f.
        own_figure (bytes_of checked.now) (meta_of checked.now) f next.number)) }
    ensures kids { IfOk result (λ read. ∥ ((node : Node)
        × (node_at (bytes_of checked.now) (meta_of checked.now) next.number ≡ Ok node)
        × (pages.new.items
        ≡ pages.old.items ++ map (unread_page (saturated (next.depth + 1))) (inner_pages node))
        × (roots.new.items ≡ roots.old.items ++ inner_roots node)
        × (read.height ≡ counted_depth node.is_leaf next.depth)
        × (read.inline_depth ≡ inner_inline node)) ∥₁) }
{
    let meta = checked.meta();
    let page = known(checked.bytes(), &meta, next.number);
    match page.tree_page().unwrap() {
        TreePage::Branch(branch) => {
            add_children(&branch, next.depth, pages)?;
            Ok(Read {
                stats: branch_stats(&branch, meta.page_size),
                height: 0,
                inline_depth: 0,
            })
        }
        TreePage::Leaf(leaf) => {
            let inline_depth = find_buckets(&leaf, roots)?;
            Ok(Read {
                stats: leaf_stats(&leaf, meta.page_size),
                height: next.depth,
                inline_depth,
            })
        }
    }
}

/// Opens the children of a branch.
fn add_children(
    page: &BranchPage<'_>,
    depth: u64,
    pages: &mut Vec<UnreadPage>,
) -> Result<(), AllocError>
    ensures { OnOk result (pages.new.items ≡ pages.old.items
        ++ map (λ e. unread_page (saturated (depth + 1)) e.child) (branches_on page.now)) }
{
    for branch in page.elements() {
        pages.push(UnreadPage {
            number: branch.child,
            depth: depth.saturating_add(1),
        })?;
    }
    Ok(())
}

/// Finds the root pages of the buckets on a leaf. Returns the depth of the inline ones: 1, or 0 if
/// there are none.
fn find_buckets(page: &LeafPage<'_>, roots: &mut Vec<u64>) -> Result<u64, AllocError>
    ensures roots { OnOk result
        (roots.new.items ≡ roots.old.items ++ flat_map root_page_of (leaves_on page.now)) }
    ensures depth { IfOk result (λ depth.
        depth ≡ greatest (λ e. inline_depth (leaf_entry e)) (leaves_on page.now)) }
{
    let mut deepest = 0;
    for leaf in page.elements() {
        deepest = deepest.max(inline_depth(&leaf));
        push_root(&leaf, roots)?;
    }
    Ok(deepest)
}

/// The depth of an element's bucket: 1 if it is an inline bucket, otherwise 0.
fn inline_depth(leaf: &Leaf<'_>) -> u64
    requires { IsTrue leaf.now.is_bucket → IsBucketValue leaf.now.value.now }
    ensures { result ≡ inline_depth (leaf_entry (leaf_view leaf.now)) }
{
    if leaf.is_bucket && head(leaf.value).is_inline() {
        1
    } else {
        0
    }
}

/// Adds the root page of an element's bucket, if it has one.
fn push_root(leaf: &Leaf<'_>, roots: &mut Vec<u64>) -> Result<(), AllocError>
    requires { IsTrue leaf.now.is_bucket → IsBucketValue leaf.now.value.now }
    ensures { OnOk result (roots.new.items ≡ roots.old.items ++ root_page_of (leaf_view leaf.now)) }
{
    if leaf.is_bucket {
        let head = head(leaf.value);
        if !head.is_inline() {
            roots.push(head.root)?;
        }
    }
    Ok(())
}

/// Opens the buckets with these root pages, and empties their list.
fn add_buckets(
    roots: &mut Vec<u64>,
    above: u64,
    buckets: &mut Vec<UnreadBucket>,
) -> Result<(), AllocError>
    ensures none { OnOk result (roots.new.items ≡ []) }
    ensures sums { OnOk result ((w : ℕ → ℕ)
        → sum_by w (roots_of buckets.new.items)
        ≡ sum_by w (roots_of buckets.old.items) + sum_by w roots.old.items) }
    ensures from { OnOk result ((m : ℕ) → Has (roots_of buckets.new.items) m
        → Has (roots_of buckets.old.items) m ⊎ Has roots.old.items m) }
    ensures deepest { OnOk result ((f : UnreadBucket → ℕ) → greatest f buckets.new.items
        ≡ max (greatest f buckets.old.items)
        (greatest (λ root. f (unread_bucket above root)) roots.old.items)) }
{
    'roots: while let Some(root) = roots.pop() {
        buckets.push(UnreadBucket { root, above })?;
    }
    Ok(())
}
