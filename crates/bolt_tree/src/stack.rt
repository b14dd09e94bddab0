//! The stack of a cursor: the pages from the root page to the one that it is on, each with its place
//! in it.
ghost use Rattle.std.specs.Prelude.{◌≡◌, ◌+◌, ◌≤◌, MatchOption, length};
ghost use Rattle.bolt_check.specs.declared.visit.TheConstants.{MAX_DEPTH};

use arrayvec::ArrayVec;
use bolt_check::MAX_DEPTH;
use bolt_format::TreePage;

/// A page on the stack.
#[derive(Clone, Copy, Default)]
pub(crate) struct Position<'a> {
    pub page: TreePage<'a>,
    /// The number of elements up to the current one, which the cursor is on or below. The count of
    /// elements and one means past the end. So one loop serves the end of a leaf, an empty leaf and
    /// a branch.
    pub taken: u32,
}

impl<'a> Position<'a> {
    ghost use Rattle.bolt_tree.specs.{Private.Contents.content_length, Private.ShownPages.opened_content};
    ghost use Rattle.bolt_tree.specs.{Private.Stacks.IsBeside, Private.Stacks.IsLast, Private.Trails.edge_of, Private.Trails.frame_of};

    /// A page before its first element or, if `at_end` is set, past its last.
    pub fn at_edge(page: TreePage<'a>, at_end: bool) -> Position<'a>
        ensures frame { frame_of result ≡ edge_of at_end (opened_content page.entry) }
        ensures fits { result.taken ≤ 65536 }
    {
        let taken = if at_end {
            u32::from(page.count()) + 1
        } else {
            0
        };
        Position { page, taken }
    }

    /// The next element or, if `back` is set, the preceding one.
    #[tactic(auto, using(crate::proofs::WayPages::length_keys))]
    pub fn beside(&self, back: bool) -> Option<u16>
        requires bound { self.now.taken ≤ content_length (opened_content self.now.page) + 1 }
        requires fits { self.now.taken ≤ 65536 }
        ensures { MatchOption result (IsLast back (frame_of self.now)) (IsBeside back (frame_of self.now)) }
    {
        if back {
            if self.taken > 1 {
                Some((self.taken - 2) as u16)
            } else {
                None
            }
        } else if self.taken < u32::from(self.page.count()) {
            Some(self.taken as u16)
        } else {
            None
        }
    }
}

/// The pages from the root page to the one that a cursor is on.
pub(crate) type Stack<'a> = ArrayVec<Position<'a>, MAX_DEPTH>;

/// Replaces the content of a stack by these positions.
pub(crate) fn set_positions<'a>(stack: &mut Stack<'a>, positions: &[Position<'a>])
    requires { length positions.now ≤ MAX_DEPTH }
    ensures { stack.new.items ≡ positions.now }
{
    stack.clear();
    stack.try_extend_from_slice(positions).unwrap();
}
