//! A page of a tree: a branch or a leaf, which passed its tests. Its elements are read in place, each
//! in constant time (docs/FORMAT.md, "Elements").
ghost use Rattle.std.specs.Prelude.{◌≡◌, ◌<◌, None, Some, IsTrue, length, slice_get};
ghost use Rattle.std.proofs.Props.{props};
ghost use Rattle.bolt_format.specs.{ElementPlaces.branch_view, ElementPlaces.leaf_view, Elements.IsBucketValue, Elements.branches_fault};
ghost use Rattle.bolt_format.specs.Elements.{leaves_fault, value_fault};

use crate::element::{Branch, Leaf, branch_at, leaf_at};

/// A branch page, whose elements lead to other pages.
#[derive(Clone, Copy)]
pub struct BranchPage<'a> {
    pub(crate) count: u16,
    pub(crate) overflow: u32,
    pub(crate) bytes: &'a [u8],
    ghost good: { branches_fault bytes.now count ≡ None } by { Prim.hlevel props },
}

/// A leaf page, or the page of an inline bucket. Its elements are values and buckets.
#[derive(Clone, Copy)]
pub struct LeafPage<'a> {
    pub(crate) count: u16,
    pub(crate) overflow: u32,
    pub(crate) bytes: &'a [u8],
    ghost good: { leaves_fault value_fault bytes.now count ≡ None } by { Prim.hlevel props },
}

/// A page of a tree.
#[derive(Clone, Copy)]
pub enum TreePage<'a> {
    /// A page whose elements lead to other pages.
    Branch(BranchPage<'a>),
    /// A page whose elements are values and buckets.
    Leaf(LeafPage<'a>),
}

#[tactic(auto, unfolding(crate::specs::TreePages::branch_overflow, crate::specs::TreePages::branches_on))]
impl<'a> BranchPage<'a> {
    ghost use Rattle.bolt_format.specs.TreePages.{branch_overflow, branches_on};

    /// The number of its elements.
    pub fn count(&self) -> u16
        ensures { result ≡ length (branches_on self.now) }
    {
        self.count
    }

    /// The number of further pages of its span.
    pub fn overflow(&self) -> u32
        ensures { result ≡ branch_overflow self.now }
    {
        self.overflow
    }

    /// Element `i`, which is below `count`.
    pub fn element(&self, i: u16) -> Branch<'a>
        requires { i < length (branches_on self.now) }
        ensures { slice_get (branches_on self.now) i ≡ Some (branch_view result) }
    {
        branch_at(self.bytes, i)
    }
}

#[tactic(auto, unfolding(crate::specs::TreePages::leaf_overflow, crate::specs::TreePages::leaves_on))]
impl<'a> LeafPage<'a> {
    ghost use Rattle.bolt_format.specs.TreePages.{leaf_overflow, leaves_on};

    /// The number of its elements.
    pub fn count(&self) -> u16
        ensures { result ≡ length (leaves_on self.now) }
    {
        self.count
    }

    /// The number of further pages of its span. An inline page has none.
    pub fn overflow(&self) -> u32
        ensures { result ≡ leaf_overflow self.now }
    {
        self.overflow
    }

    /// Element `i`, which is below `count`.
    pub fn element(&self, i: u16) -> Leaf<'a>
        requires { i < length (leaves_on self.now) }
        ensures element { slice_get (leaves_on self.now) i ≡ Some (leaf_view result) }
        ensures bucket { IsTrue result.is_bucket → IsBucketValue result.value.now }
    {
        leaf_at(self.bytes, i)
    }
}

/// The page of an inline bucket without elements.
const NO_ELEMENTS: &[u8] = b"\0\0\0\0\0\0\0\0\0\0\0\0\0\0\0\0";

#[tactic(auto, unfolding(crate::specs::TreePages::leaves_on, crate::specs::Elements::leaf_elements))]
impl<'a> Default for LeafPage<'a> {
    ghost use Rattle.std.specs.Prelude.{[]};
    ghost use Rattle.bolt_format.specs.TreePages.{leaves_on};

    /// A leaf without elements.
    fn default() -> LeafPage<'a>
        ensures { leaves_on result ≡ [] }
    {
        LeafPage {
            count: 0,
            overflow: 0,
            bytes: NO_ELEMENTS,
        }
    }
}

impl<'a> Default for TreePage<'a> {
    /// A leaf without elements.
    fn default() -> TreePage<'a> {
        TreePage::Leaf(LeafPage::default())
    }
}

impl<'a> TreePage<'a> {
    ghost use Rattle.bolt_format.specs.TreePages.{page_keys, shown_page};

    /// The number of its elements.
    pub fn count(&self) -> u16
        ensures { result ≡ length (page_keys self.now) }
    {
        match self {
            TreePage::Branch(page) => page.count(),
            TreePage::Leaf(page) => page.count(),
        }
    }

    /// The number of further pages of its span. An inline page has none.
    pub fn overflow(&self) -> u32
        ensures { result ≡ (shown_page self.now).overflow }
    {
        match self {
            TreePage::Branch(page) => page.overflow(),
            TreePage::Leaf(page) => page.overflow(),
        }
    }

    /// The key of element `i`, which is below `count`.
    pub fn key(&self, i: u16) -> &'a [u8]
        requires { i < length (page_keys self.now) }
        ensures { slice_get (page_keys self.now) i ≡ Some result.now }
    {
        match self {
            TreePage::Branch(page) => page.element(i).key,
            TreePage::Leaf(page) => page.element(i).key,
        }
    }
}
