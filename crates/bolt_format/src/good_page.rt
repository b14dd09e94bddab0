//! A page that passed its tests.
ghost use Rattle.std.specs.Prelude.{◌≡◌, ◌<◌, None, IfSome, Some, IsTrue, false, length, slice_get};
ghost use Rattle.std.specs.Option.{IfNone};
ghost use Rattle.std.proofs.Props.{props};
ghost use Rattle.bolt_format.specs.{ElementPlaces.branch_view, ElementPlaces.leaf_view, Elements.IsBucketValue, Pages.content_fault};
ghost use Rattle.bolt_format.specs.TreePages.{is_tree_kind, shown_page};

use crate::element::{Branch, Leaf, branch_at, leaf_at};
use crate::header::Kind;
use crate::tree_page::{BranchPage, LeafPage, TreePage};

/// A page that passed all tests. Its elements are read in place, each in constant time.
#[derive(Clone, Copy)]
pub struct Page<'a> {
    pub(crate) kind: Kind,
    pub(crate) count: u16,
    pub(crate) overflow: u32,
    pub(crate) span: &'a [u8],
    ghost good: { content_fault kind count span.now ≡ None } by { Prim.hlevel props },
}

#[tactic(auto, unfolding(crate::specs::ShownGoodPages::shown))]
impl<'a> Page<'a> {
    ghost use Rattle.bolt_format.specs.ShownGoodPages.{shown};

    /// The kind of the page.
    pub fn kind(&self) -> Kind
        ensures { result ≡ (shown self.now).kind }
    {
        self.kind
    }

    /// The count in its header: the number of elements of a branch or a leaf.
    pub fn count(&self) -> u16
        ensures count { result ≡ (shown self.now).count }
        ensures branches { (shown self.now).kind ≡ Kind.Branch
            → length (shown self.now).branches ≡ result }
        ensures leaves { (shown self.now).kind ≡ Kind.Leaf
            → length (shown self.now).leaves ≡ result }
    {
        self.count
    }

    /// The page as a branch or a leaf, if it is one.
    pub fn tree_page(&self) -> Option<TreePage<'a>>
        ensures some { IfSome result (λ page. shown_page page ≡ shown self.now) }
        ensures none { IfNone result (is_tree_kind (shown self.now).kind ≡ false) }
    {
        match self.kind {
            Kind::Branch => Some(TreePage::Branch(BranchPage {
                count: self.count,
                overflow: self.overflow,
                bytes: self.span,
            })),
            Kind::Leaf => Some(TreePage::Leaf(LeafPage {
                count: self.count,
                overflow: self.overflow,
                bytes: self.span,
            })),
            Kind::Meta | Kind::Freelist => None,
        }
    }

    /// The number of further pages of its span.
    pub fn overflow(&self) -> u32
        ensures { result ≡ (shown self.now).overflow }
    {
        self.overflow
    }

    /// Element `i` of a branch page. `i` is below `count`.
    pub fn branch(&self, i: u16) -> Branch<'a>
        requires kind { (shown self.now).kind ≡ Kind.Branch }
        requires below { i < (shown self.now).count }
        ensures { slice_get (shown self.now).branches i ≡ Some (branch_view result) }
    {
        branch_at(self.span, i)
    }

    /// Element `i` of a leaf page. `i` is below `count`.
    pub fn leaf(&self, i: u16) -> Leaf<'a>
        requires kind { (shown self.now).kind ≡ Kind.Leaf }
        requires below { i < (shown self.now).count }
        ensures element { slice_get (shown self.now).leaves i ≡ Some (leaf_view result) }
        ensures bucket { IsTrue result.is_bucket → IsBucketValue result.value.now }
    {
        leaf_at(self.span, i)
    }
}
