//! The depth of a bucket's first leaf, which bbolt expects of all its leaves.
ghost use Rattle.std.specs.Prelude.{◌≡◌, ◌+◌, ◌<◌, ◌≤◌};
ghost use Rattle.bolt_check.specs.{BboltFindings.first_leaf_depth, CheckedFiles.checked_nodes, Private.Unread.IsGoodDown, ShownNodes.IsNodeAt};

use crate::checked::Checked;
use bolt_format::{TreePage, known};

/// A page that a way leads to, which is a branch or a leaf.
pub(crate) fn known_page<'a>(checked: &Checked<'a>, number: u64) -> TreePage<'a>
    requires { ∥ IsGoodDown (checked_nodes checked.now) number ∥₁ }
    ensures { IsNodeAt (checked_nodes checked.now) number result }
{
    let page = known(checked.bytes(), &checked.meta(), number);
    page.tree_page().unwrap()
}

/// How many pages are on the way from a page to the first leaf below it, both counted. It ends after
/// so many branches.
#[tactic(auto, unfolding(crate::specs::BboltFindings::first_leaf_depth))]
pub(crate) fn first_leaf_depth(checked: &Checked<'_>, number: u64, branches: u8) -> u8
    requires good { ∥ IsGoodDown (checked_nodes checked.now) number ∥₁ }
    requires few { branches < 255 }
    ensures depth { result ≡ first_leaf_depth (checked_nodes checked.now) branches number }
    ensures small { result ≤ branches + 1 }
{
    if branches == 0 {
        return 1;
    }
    match known_page(checked, number) {
        TreePage::Branch(branch) if branch.count() > 0 => {
            1 + first_leaf_depth(checked, branch.element(0).child, branches - 1)
        }
        _ => 1,
    }
}
