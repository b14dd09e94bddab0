//! What bbolt fails on when it writes into a file, though its trees are sound (docs/SOUND.md, "For
//! bbolt"). All ways are followed once more, in order. The pages are known to be good, so none is
//! tested again. What is nested deep needs memory for the spots that are pending, but no stack.
ghost use Rattle.std.specs.Prelude.{◌≡◌, ◌<◌, ◌≤◌, ◌&&◌, ◌+◌, ◌++◌, ◌∷◌, [], true, IfOk, OnOk, not, vec_len};
ghost use Rattle.bolt_check.specs.{BboltFindings.AreBboltFindings, CheckedFiles.checked_nodes, CheckedFiles.meta_of, ShownNodes.shown_node};
ghost use Rattle.bolt_check.specs.{ShownSpots.page_spot, ShownSpots.spot_at};
ghost use Rattle.bolt_check.specs.Private.Unread.{IsGoodDown, IsReadable, tagged, tagged_kids, most_kids, own_findings, page_leaves, unread_view};
ghost use Rattle.bolt_check.specs.Private.Unread.{unread_kids, unread_of};
ghost use Rattle.bolt_check.specs.Ways.{At_page, root_spot};

use crate::bbolt_pages::{find_at_page, find_in_bucket};
use crate::check_fault::NoMemory;
use crate::checked::Checked;
use crate::finding::Finding;
use crate::leaf_depth::{first_leaf_depth, known_page};
use crate::spot::{PageSpot, Spot};
use bolt_format::TreePage;
use std::alloc::{AllocError, Global};

/// No leaf of a sound tree is below more branches.
const MAX_BRANCHES: u8 = 63;

/// A spot that is still to be read.
#[derive(Clone, Copy)]
struct UnreadSpot<'a> {
    spot: Spot<'a>,
    /// Whether it is a page of the root bucket.
    in_root: bool,
    /// The depth of the first leaf of the bucket that the page above it is in. It isn't used for the
    /// root page of a bucket.
    leaves_above: u8,
}

/// What bbolt fails on when it writes into the trees of this file, in the order of the ways
/// (docs/SOUND.md, "For bbolt").
///
/// # Errors
///
/// `NoMemory` if memory runs out for what is found, or for the ways that are still to be followed.
pub fn bbolt_findings(alloc: Global, checked: Checked<'_>) -> Result<Vec<Finding>, NoMemory>
    ensures { IfOk result (λ findings. ∥ AreBboltFindings (checked_nodes checked.entry)
        (meta_of checked.entry).root findings.items ∥₁) }
{
    let mut findings = Vec::new(alloc);
    let mut unread = new_unread(alloc, checked.meta().root)?;
    while let Some(next) = unread.pop() {
        read(&checked, next, &mut unread, &mut findings)?;
    }
    Ok(findings)
}

/// What is still to be read at the start: the root page of the root bucket alone.
fn new_unread<'a>(alloc: Global, root: u64) -> Result<Vec<UnreadSpot<'a>>, AllocError>
    ensures { IfOk result (λ unread. unread_of unread.items
        ≡ tagged true 0 (At_page (root_spot root)) ∷ []) }
{
    let mut unread = Vec::new(alloc);
    unread.push(UnreadSpot {
        spot: Spot::Page(PageSpot::root(root)),
        in_root: true,
        leaves_above: 0,
    })?;
    Ok(unread)
}

/// Reads the spot that was popped from the unread ones: adds what is found at it, and pushes what it
/// leads to.
fn read<'a>(
    checked: &Checked<'a>,
    next: UnreadSpot<'a>,
    unread: &mut Vec<UnreadSpot<'a>>,
    findings: &mut Vec<Finding>,
) -> Result<(), AllocError>
    requires { ∥ IsReadable (checked_nodes checked.now) (meta_of checked.now).high_water
        (spot_at next.spot) ∥₁ }
    ensures found { OnOk result (findings.new.items
        ≡ findings.old.items ++ own_findings (checked_nodes checked.now) (unread_view next.entry)) }
    ensures kids { OnOk result (unread_of unread.new.items
        ≡ unread_kids (checked_nodes checked.now) (unread_view next.entry) ++ unread_of unread.old.items) }
    ensures few { OnOk result
        (vec_len unread.new ≤ vec_len unread.old + most_kids (spot_at next.entry.spot)) }
{
    match next.spot {
        Spot::Page(spot) => {
            let page = known_page(checked, spot.number);
            let leaves = page_leaves(checked, &spot, next.leaves_above);
            find_at_page(&page, &spot, next.in_root, leaves, findings)?;
            let in_root = leads_on_in_root(&page, next.in_root);
            push_unread(&page, &spot, in_root, leaves, unread)
        }
        Spot::Bucket(spot) => find_in_bucket(&spot, findings),
    }
}

/// The depth of the first leaf of the bucket that a page is in. It is looked for at the root page of
/// the bucket, which has depth 1.
fn page_leaves(checked: &Checked<'_>, spot: &PageSpot<'_>, above: u8) -> u8
    requires { ∥ IsGoodDown (checked_nodes checked.now) spot.now.number ∥₁ }
    ensures { result ≡ page_leaves (checked_nodes checked.now) above (page_spot spot.now) }
{
    if spot.depth == 1 {
        first_leaf_depth(checked, spot.number, MAX_BRANCHES)
    } else {
        above
    }
}

/// Whether what a page leads to is in the root bucket: the children of a branch of it are.
#[tactic(auto, unfolding(crate::specs::ShownNodes::shown_node))]
fn leads_on_in_root(page: &TreePage<'_>, in_root: bool) -> bool
    ensures { result ≡ (in_root && not (shown_node page.now).is_leaf) }
{
    match page {
        TreePage::Branch(_) => in_root,
        TreePage::Leaf(_) => false,
    }
}

/// Pushes what a page leads to onto the unread spots, in reverse, so that the first is on top.
#[tactic(auto, using(crate::proofs::NodeLemmas::length_entries, crate::proofs::Pendings::kids_none, crate::proofs::Pendings::kids_some, crate::proofs::Pendings::kids_end, crate::proofs::Pendings::kids_all, crate::proofs::Pendings::unread_push))]
fn push_unread<'a>(
    page: &TreePage<'a>,
    spot: &PageSpot<'a>,
    in_root: bool,
    leaves: u8,
    unread: &mut Vec<UnreadSpot<'a>>,
) -> Result<(), AllocError>
    requires { spot.now.depth ≤ 64 }
    ensures kids { OnOk result (unread_of unread.new.items
        ≡ tagged_kids in_root leaves (shown_node page.now) (page_spot spot.now)
        ++ unread_of unread.old.items) }
    ensures few { OnOk result (vec_len unread.new < vec_len unread.old + 65536) }
{
    let mut i = page.count();
    while i > 0 {
        i -= 1;
        if let Some(kid) = spot.step(page, i) {
            unread.push(UnreadSpot {
                spot: kid,
                in_root,
                leaves_above: leaves,
            })?;
        }
    }
    Ok(())
}
