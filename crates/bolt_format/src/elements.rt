//! The elements of a page, one after another.

use crate::element::{Branch, Leaf};
use crate::tree_page::{BranchPage, LeafPage, TreePage};

/// What is left of the elements of a branch.
#[derive(Clone, Copy)]
pub struct Branches<'a> {
    page: BranchPage<'a>,
    /// The next element.
    next: u16,
}

/// What is left of the elements of a leaf.
#[derive(Clone, Copy)]
pub struct Leaves<'a> {
    page: LeafPage<'a>,
    /// The next element.
    next: u16,
}

#[tactic(auto, unfolding(crate::specs::ElementsLeft::branches_left))]
impl<'a> BranchPage<'a> {
    ghost use Rattle.std.specs.Prelude.{◌≡◌};
    ghost use Rattle.bolt_format.specs.{ElementsLeft.branches_left, TreePages.branches_on};

    /// The branch's elements in order.
    pub fn elements(&self) -> Branches<'a>
        ensures { branches_left result ≡ branches_on self.now }
    {
        Branches {
            page: *self,
            next: 0,
        }
    }
}

#[tactic(auto, unfolding(crate::specs::ElementsLeft::leaves_left))]
impl<'a> LeafPage<'a> {
    ghost use Rattle.std.specs.Prelude.{◌≡◌};
    ghost use Rattle.bolt_format.specs.{ElementsLeft.leaves_left, TreePages.leaves_on};

    /// The leaf's elements in order.
    pub fn elements(&self) -> Leaves<'a>
        ensures { leaves_left result ≡ leaves_on self.now }
    {
        Leaves {
            page: *self,
            next: 0,
        }
    }
}

impl<'a> Default for Leaves<'a> {
    ghost use Rattle.std.specs.Prelude.{◌≡◌, []};
    ghost use Rattle.bolt_format.specs.ElementsLeft.{leaves_left};

    /// No element is left.
    fn default() -> Leaves<'a>
        ensures { leaves_left result ≡ [] }
    {
        LeafPage::default().elements()
    }
}

#[tactic(auto, using(crate::proofs::ListLemmas::drop_next, std::proofs::lemmas::List::drop_all), unfolding(crate::specs::ElementsLeft::branches_left))]
impl<'a> Iterator for Branches<'a> {
    ghost use Rattle.std.specs.Iterator.{item_count};
    ghost use Rattle.bolt_format.specs.ElementsLeft.{GivesBranch, branches_left};

    type Item = Branch<'a>;

    ghost next_gives = { GivesBranch };

    ghost remaining = { item_count branches_left };

    #[inline(always)]
    fn next(&mut self) -> Option<Branch<'a>> {
        if self.next >= self.page.count() {
            return None;
        }
        let branch = self.page.element(self.next);
        self.next += 1;
        Some(branch)
    }
}

#[tactic(auto, using(crate::proofs::ListLemmas::drop_next, std::proofs::lemmas::List::drop_all), unfolding(crate::specs::ElementsLeft::leaves_left))]
impl<'a> Iterator for Leaves<'a> {
    ghost use Rattle.std.specs.Iterator.{item_count};
    ghost use Rattle.bolt_format.specs.ElementsLeft.{GivesLeaf, leaves_left};

    type Item = Leaf<'a>;

    ghost next_gives = { GivesLeaf };

    ghost remaining = { item_count leaves_left };

    #[inline(always)]
    fn next(&mut self) -> Option<Leaf<'a>> {
        if self.next >= self.page.count() {
            return None;
        }
        let leaf = self.page.element(self.next);
        self.next += 1;
        Some(leaf)
    }
}
