//! What a way leads to and is still to be visited: a page or an inline bucket.
ghost use Rattle.std.specs.Prelude.{◌≡◌, ◌<◌, ◌≤◌, IfSome, IsTrue, suc, None, Some, length, slice_get};
ghost use Rattle.std.specs.{Result.result_err, Option.option_map};
ghost use Rattle.bolt_check.specs.{Findings.inline_finding, ShownSpots.inline_keys, Nodes.leaf_entry, ShownNodes.shown_node, ShownSpots.IsInner};
ghost use Rattle.bolt_check.specs.{ShownSpots.bound_of, ShownSpots.page_spot, ShownSpots.spot_at, Ways.At_page, Ways.bucket_spots, Ways.step_on};
ghost use Rattle.bolt_check.specs.{Ways.upper_from};
ghost use Rattle.bolt_format.specs.{ElementPlaces.leaf_view, Elements.IsBucketValue, Elements.LeafElement, TreePages.branches_on};
ghost use Rattle.bolt_format.specs.{TreePages.page_keys, TreePages.shown_page};
ghost use Rattle.bolt_format.specs.declared.tree_page.TreePage.TheVariants as page;

use crate::finding::Finding;
use crate::keys::test_inline_keys;
use bolt_format::{BranchPage, Inline, Leaf, TreePage, head, inline};

/// A page to be visited.
#[derive(Clone, Copy)]
pub struct PageSpot<'a> {
    /// The number of the page.
    pub number: u64,
    /// The page's depth: 1 for the root page of its bucket.
    pub depth: u8,
    /// No key of the page may be below this one.
    pub lower: Option<&'a [u8]>,
    /// All of its keys must be below this one.
    pub upper: Option<&'a [u8]>,
}

impl<'a> PageSpot<'a> {
    /// The spot at the root page of a bucket: it has depth 1, and no bounds.
    pub fn root(number: u64) -> PageSpot<'a>
        ensures { result ≡ record { number = number; depth = 1; lower = None; upper = None } }
    {
        PageSpot {
            number,
            depth: 1,
            lower: None,
            upper: None,
        }
    }

    /// What element `i` of the page at this spot leads to: a child of a branch, or a bucket on a
    /// leaf. An element that is a value leads nowhere.
    #[tactic(auto, using(crate::proofs::NodeLemmas::entry_rules))]
    pub fn step(&self, page: &TreePage<'a>, i: u16) -> Option<Spot<'a>>
        requires below { i < length (page_keys page.now) }
        requires shallow { self.now.depth ≤ 64 }
        ensures leads { option_map spot_at result
            ≡ step_on (shown_node page.now) (page_spot self.now) i }
        ensures inner { IfSome result (λ spot. (e : LeafElement) → slice_get
            (shown_page page.now).leaves i ≡ Some e → IsInner e.value spot) }
    {
        match page {
            TreePage::Branch(branch) => Some(Spot::Page(self.child(branch, i))),
            TreePage::Leaf(leaf) => self.bucket(leaf.element(i)),
        }
    }

    /// The spot at the child of element `i` of a branch.
    #[tactic(auto, using(crate::proofs::NodeLemmas::entry_rules))]
    fn child(&self, branch: &BranchPage<'a>, i: u16) -> PageSpot<'a>
        requires below { i < length (branches_on branch.now) }
        requires shallow { self.now.depth ≤ 64 }
        ensures { step_on (shown_node (page.Branch branch.now)) (page_spot self.now) i
            ≡ Some (At_page (page_spot result)) }
    {
        let element = branch.element(i);
        PageSpot {
            number: element.child,
            depth: self.depth + 1,
            lower: Some(element.key),
            upper: self.upper(branch, i),
        }
    }

    /// The upper bound of the child of element `i`: the next key, or the page's own bound.
    #[tactic(auto, using(crate::proofs::NodeLemmas::entry_rules))]
    fn upper(&self, branch: &BranchPage<'a>, i: u16) -> Option<&'a [u8]>
        requires { i < length (branches_on branch.now) }
        ensures { bound_of result ≡ upper_from (slice_get
            (shown_node (page.Branch branch.now)).entries (suc i)) (bound_of self.now.upper) }
    {
        if branch.count() - i > 1 {
            Some(branch.element(i + 1).key)
        } else {
            self.upper
        }
    }

    /// The spot at a bucket on the leaf at this spot, or `None` for a value.
    fn bucket(&self, leaf: Leaf<'a>) -> Option<Spot<'a>>
        requires { IsTrue leaf.is_bucket → IsBucketValue leaf.value.now }
        ensures leads { option_map spot_at result
            ≡ bucket_spots self.now.number (leaf_entry (leaf_view leaf.entry)) }
        ensures inner { IfSome result (IsInner leaf.entry.value.now) }
    {
        if !leaf.is_bucket {
            return None;
        }
        let head = head(leaf.value);
        if head.is_inline() {
            return Some(Spot::Bucket(BucketSpot {
                host: self.number,
                page: inline(leaf.value),
            }));
        }
        Some(Spot::Page(PageSpot::root(head.root)))
    }
}

/// The page of an inline bucket to be visited.
#[derive(Clone, Copy)]
pub struct BucketSpot<'a> {
    /// The number of the page that contains the bucket.
    pub host: u64,
    /// The bucket's own page, which is in its value.
    pub page: Inline<'a>,
}

impl<'a> BucketSpot<'a> {
    /// Tests that the keys of the inline page rise.
    ///
    /// # Errors
    ///
    /// The finding of the first key that doesn't, with the number of the page that contains the
    /// bucket.
    pub fn test(&self) -> Result<(), Finding>
        ensures { result_err result ≡ inline_finding self.now.host (inline_keys self.now.page) }
    {
        match test_inline_keys(&self.page) {
            Ok(()) => Ok(()),
            Err(code) => Err(Finding::of_page(code, self.host)),
        }
    }
}

/// What a way leads to: a page, or an inline bucket.
#[derive(Clone, Copy)]
pub enum Spot<'a> {
    /// A page of its own.
    Page(PageSpot<'a>),
    /// An inline bucket.
    Bucket(BucketSpot<'a>),
}
