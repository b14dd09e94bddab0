//! The pages of a bucket, and the moves of a cursor's stack along them.
ghost use Rattle.std.specs.Prelude.{◌≡◌, [], ◌<◌, ◌≤◌, ◌+◌, ◌-◌, ◌*◌, false, length};
ghost use Rattle.bolt_format.specs.{TreePages.branches_on};
ghost use Rattle.bolt_tree.specs.Private.BucketValues.{HasBucketValue};
ghost use Rattle.bolt_tree.specs.{Pagers.pager_checked, Private.BucketPages.elements_in, Private.BucketPages.root_content};
ghost use Rattle.bolt_tree.specs.{Private.Contents.Of_branch, Private.Seeks.IsNearTop, Private.Seeks.IsSought, Private.ShownPages.opened_content};
ghost use Rattle.bolt_tree.specs.{Private.Stacks.IsAtRest, Private.Stacks.IsLeafTop};

use crate::at::At;
use crate::key_search::keys_before;
use crate::pager::Pager;
use crate::stack::{Position, Stack};
use bolt_format::{BranchPage, Leaf, TreePage};

/// The pages of a bucket: where its tree begins, and the pager that opens them. The moves along
/// them take the stack of a cursor, and not the cursor: in mid-move the stack is on no entry.
#[derive(Drop)]
pub(crate) struct BucketPages<'a> {
    pub pager: Pager<'a>,
    pub at: At<'a>,
}

#[tactic(auto, using(crate::proofs::StackLemmas::retaken, crate::proofs::PagerLemmas::counted_zero, crate::proofs::TrailLemmas::stack_room))]
impl<'a> BucketPages<'a> {
    ghost use Rattle.bolt_tree.specs.Private.Trails.{ComesTo, IsOfSoundTree, HasOpened, HasTrailRoom, HasTrail, IsMoved, LeadsToChild, OpensBetween};
    ghost use Rattle.bolt_tree.specs.Private.Trails.{ahead, trail_entries_left, frames_of};
    ghost use Rattle.bolt_tree.specs.Private.Trails.{pages_bucket, pages_left, trail_on, trail_with};

    /// Opens the root page of the bucket, or its inline page.
    #[tactic(auto, using(crate::proofs::StackLemmas::root_way))]
    pub fn open_root(&mut self) -> TreePage<'a>
        requires { IsOfSoundTree self.old }
        ensures checked { pager_checked self.new.pager ≡ pager_checked self.old.pager }
        ensures at { self.new.at ≡ self.old.at }
        ensures content { opened_content result ≡ root_content (pages_bucket self.old) }
        ensures opened { HasOpened 1 self.old.pager self.new.pager }
    {
        match self.at {
            At::Page(id) => self.pager.open_tree_page(id),
            At::Inline(inline) => {
                self.pager.note();
                TreePage::Leaf(inline.page)
            }
        }
    }

    /// Moves to the next entry or, if `back` is set, to the preceding one. If there is none, the
    /// stack is empty.
    pub fn go(&mut self, stack: &mut Stack<'a>, back: bool) -> Option<Leaf<'a>>
        requires { HasTrail (trail_on self.old stack.old.items) }
        ensures moved { IsMoved (trail_on self.old stack.old.items) (trail_on self.new stack.new.items) }
        ensures rest { IsAtRest (frames_of stack.new.items) }
        ensures found { ComesTo back result (trail_entries_left back (trail_on self.old stack.old.items)) (trail_on self.new stack.new.items) [] }
        ensures bucket { HasBucketValue result }
        ensures less { length (pages_left back (trail_on self.new stack.new.items)) ≤ length (pages_left back (trail_on self.old stack.old.items)) }
        ensures opened { OpensBetween back (trail_on self.old stack.old.items) (trail_on self.new stack.new.items) }
    {
        while let Some(top) = stack.pop() {
            let Some(i) = top.beside(back) else {
                continue;
            };
            match top.page {
                TreePage::Leaf(page) => {
                    stack.push(Position {
                        page: top.page,
                        taken: u32::from(i) + 1,
                    });
                    return Some(page.element(i));
                }
                TreePage::Branch(page) => {
                    let child = self.go_under(stack, page, i);
                    stack.push(Position::at_edge(child, back));
                }
            }
        }
        None
    }

    /// Goes down from the root page to the leaf that is near a key, and stops before its first
    /// entry that isn't below the key. Returns how many keys were compared, at most 16 for each
    /// page.
    #[tactic(auto, using(crate::proofs::StackLemmas::retaken, crate::proofs::StackLemmas::stack_short, crate::proofs::WayPages::length_keys, crate::proofs::TrailLemmas::stack_room))]
    pub fn descend(&mut self, stack: &mut Stack<'a>, root: TreePage<'a>, key: &[u8]) -> u64
        requires bucket { IsOfSoundTree self.old }
        requires empty { frames_of stack.old.items ≡ [] }
        requires root { opened_content root ≡ root_content (pages_bucket self.old) }
        ensures moved { IsMoved (trail_on self.old stack.old.items) (trail_on self.new stack.new.items) }
        ensures near { IsNearTop (pages_bucket self.old) key.now (frames_of stack.new.items) }
        ensures sought { IsSought (elements_in (pages_bucket self.old)) key.now (ahead (trail_on self.new stack.new.items)) }
        ensures compared { result ≤ 16 * length (frames_of stack.new.items) }
        ensures opened { HasOpened (length (frames_of stack.new.items) - 1) self.old.pager self.new.pager }
        ensures leaf { IsLeafTop (frames_of stack.new.items) }
    {
        let mut opened = root;
        let mut compared = 0;
        while let TreePage::Branch(page) = opened {
            let found = keys_before(&opened, key, true);
            compared += found.compared;
            opened = self.go_under(stack, page, found.before.saturating_sub(1));
        }
        let found = keys_before(&opened, key, false);
        stack.push(Position {
            page: opened,
            taken: u32::from(found.before),
        });
        compared + found.compared
    }

    /// Pushes a branch that is on its element `i`, and opens the page under that element.
    fn go_under(&mut self, stack: &mut Stack<'a>, page: BranchPage<'a>, i: u16) -> TreePage<'a>
        requires stack { HasTrailRoom (Of_branch (branches_on page)) 0 (trail_on self.old stack.old.items) }
        requires below { i < length (branches_on page) }
        ensures moved { IsMoved (trail_on self.old stack.old.items) (trail_on self.new stack.new.items) }
        ensures frames { frames_of stack.new.items ≡ trail_with (Of_branch (branches_on page.entry)) (i + 1) (trail_on self.old stack.old.items) }
        ensures child { LeadsToChild self.old (branches_on page.entry) i (opened_content result) }
        ensures stack { HasTrailRoom (opened_content result) 0 (trail_on self.new stack.new.items) }
        ensures opened { HasOpened 1 self.old.pager self.new.pager }
    {
        stack.push(Position {
            page: TreePage::Branch(page),
            taken: u32::from(i) + 1,
        });
        self.pager.open_tree_page(page.element(i).child)
    }
}
