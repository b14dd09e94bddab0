//! The visit of a page: it is opened as a node, which is a branch or a leaf; it is tested; and its
//! span is claimed.
ghost use Rattle.std.specs.Prelude.{◌≡◌, ◌==◌, ◌&&◌, not, length, ◌<◌, ◌≤◌, ℕ, IfErr, IfOk, MatchResult, None, OnErr, OnOk};
ghost use Rattle.std.specs.Result.{result_err};
ghost use Rattle.bolt_format.specs.{Pages.IsInFile, TreePages.page_keys, TreePages.shown_page};
ghost use Rattle.bolt_check.specs.{Findings.PagePasses, Findings.PageTests, Findings.node_finding, Keys.keys_order_fault, Nodes.node_at};
ghost use Rattle.bolt_check.specs.{Private.Freelists.IsUnlisted, Private.Pending.ClaimsSpan, Private.Uses.use_of};
ghost use Rattle.bolt_check.specs.Private.Tables.{HasRoom, IsClaimed, IsUnclaimed, unclaimed, use_at};
ghost use Rattle.bolt_check.specs.{ShownNodes.IsFaultAt, ShownNodes.IsNodeAt, ShownNodes.IsPageAt, ShownNodes.shown_node, ShownSpots.bound_of};
ghost use Rattle.bolt_check.specs.{ShownSpots.page_spot, Ways.At_page};

use crate::finding::Finding;
use crate::keys::test_key;
use crate::spot::PageSpot;
use crate::table::{PageUse, claim, first_claimed};
use bolt_format::{Meta, PageFault, TreePage, page};

/// The greatest depth of a page. The root page of a bucket has depth 1.
pub const MAX_DEPTH: usize = 64;

/// Tests a page, and claims its span if the tests find nothing.
pub(crate) fn visit<'a>(
    file: &'a [u8],
    meta: &Meta,
    spot: &PageSpot<'_>,
    table: &mut [PageUse],
) -> Result<TreePage<'a>, Finding>
    requires { HasRoom file.now meta.now table.old }
    ensures found { IfErr result
        (PageTests (node_at file.now meta.now) (IsClaimed table.old) (page_spot spot.now)) }
    ensures same { OnErr result (table.new ≡ table.old) }
    ensures page { IfOk result (IsPageAt file.now meta.now spot.now.number) }
    ensures node { IfOk result (IsNodeAt (node_at file.now meta.now) spot.now.number) }
    ensures passes { OnOk result
        (PagePasses (node_at file.now meta.now) (IsClaimed table.old) (page_spot spot.now)) }
    ensures claims { OnOk result (ClaimsSpan (node_at file.now meta.now)
        (At_page (page_spot spot.now)) table.old table.new) }
    ensures outside { OnOk result ((n : ℕ) → IsUnclaimed table.new n
        → use_at table.new n ≡ use_at table.old n) }
    ensures fewer { OnOk result (unclaimed table.new < unclaimed table.old) }
    ensures unlisted { OnOk result (IsUnlisted table.old → IsUnlisted table.new) }
    ensures shallow { OnOk result (spot.now.depth ≤ 64) }
{
    if usize::from(spot.depth) > MAX_DEPTH {
        return Err(Finding::of_page(Finding::TOO_DEEP, spot.number));
    }
    let node = open(file, meta, spot.number)?;
    let from = spot.number as usize;
    let last = from + node.overflow() as usize;
    if let Some(n) = first_claimed(table, from, last) {
        return Err(Finding::of_page(Finding::TWICE, n as u64));
    }
    test_node(&node, spot)?;
    claim(table, from, last, use_of_first_page(&node));
    Ok(node)
}

/// Tests a page that a way leads to, but not whether its span was claimed before.
///
/// # Errors
///
/// The first finding of the other tests.
#[tactic(auto, using(crate::proofs::Lawful::early_passes))]
pub fn test_page<'a>(
    file: &'a [u8],
    meta: &Meta,
    spot: &PageSpot<'_>,
) -> Result<TreePage<'a>, Finding>
    ensures found { IfErr result
        (PageTests (node_at file.now meta.now) (λ n. ⊥) (page_spot spot.now)) }
    ensures page { IfOk result (IsPageAt file.now meta.now spot.now.number) }
    ensures node { IfOk result (IsNodeAt (node_at file.now meta.now) spot.now.number) }
    ensures passes { OnOk result
        (PagePasses (node_at file.now meta.now) (λ n. ⊥) (page_spot spot.now)) }
    ensures shallow { OnOk result (spot.now.depth ≤ 64) }
{
    if usize::from(spot.depth) > MAX_DEPTH {
        return Err(Finding::of_page(Finding::TOO_DEEP, spot.number));
    }
    let node = open(file, meta, spot.number)?;
    test_node(&node, spot)?;
    Ok(node)
}

/// Opens page `id` as a node.
///
/// # Errors
///
/// The page's first fault, or `PAGE_KIND` if it is neither a branch nor a leaf.
#[tactic(auto, using(crate::proofs::NodeLemmas::node_faulty, crate::proofs::NodeLemmas::node_shown, crate::proofs::NodeLemmas::node_refused))]
pub(crate) fn open<'a>(file: &'a [u8], meta: &Meta, id: u64) -> Result<TreePage<'a>, PageFault>
    ensures node { MatchResult result (IsNodeAt (node_at file.now meta.now) id)
        (IsFaultAt (node_at file.now meta.now) id) }
    ensures page { IfOk result (IsPageAt file.now meta.now id) }
    ensures within { IfOk result (λ node. IsInFile file.now meta.now id (shown_page node)) }
{
    page(file, meta, id)?.tree_page().ok_or(PageFault {
        number: PageFault::PAGE_KIND,
        page: id,
    })
}

/// The use of the first page of a node.
#[tactic(auto, unfolding(crate::specs::ShownNodes::shown_node))]
fn use_of_first_page(node: &TreePage<'_>) -> PageUse
    ensures { result ≡ use_of (shown_node node.now).is_leaf }
{
    match node {
        TreePage::Branch(_) => PageUse::Branch,
        TreePage::Leaf(_) => PageUse::Leaf,
    }
}

/// Whether a page is a branch without elements.
#[tactic(auto, unfolding(crate::specs::ShownNodes::shown_node))]
fn is_empty_branch(node: &TreePage<'_>) -> bool
    ensures { result
        ≡ (not (shown_node node.now).is_leaf && (length (shown_node node.now).entries == 0)) }
{
    match node {
        TreePage::Branch(branch) => branch.count() == 0,
        TreePage::Leaf(_) => false,
    }
}

/// Tests the content of a page: a branch has an element, and then the keys.
#[tactic(auto, using(crate::proofs::NodeLemmas::keys_entries))]
fn test_node(node: &TreePage<'_>, spot: &PageSpot<'_>) -> Result<(), Finding>
    ensures { result_err result ≡ node_finding (shown_node node.now) (page_spot spot.now) }
{
    if is_empty_branch(node) {
        return Err(Finding::of_page(Finding::EMPTY_BRANCH, spot.number));
    }
    match test_keys(node, spot.lower, spot.upper) {
        Ok(()) => Ok(()),
        Err(code) => Err(Finding::of_page(code, spot.number)),
    }
}

/// Tests the keys of a page, one after another, against each other and their bounds.
#[tactic(auto, using(bolt_format::proofs::Exports::drop_next, std::proofs::lemmas::List::drop_all))]
fn test_keys(node: &TreePage<'_>, lower: Option<&[u8]>, upper: Option<&[u8]>) -> Result<(), u8>
    ensures { result_err result
        ≡ keys_order_fault None (bound_of lower.entry) (bound_of upper.entry) (page_keys node.now) }
{
    let mut before: Option<&[u8]> = None;
    let mut from = lower;
    for i in 0..node.count() {
        let key = node.key(i);
        test_key(before, from, upper, key)?;
        before = Some(key);
        // The next ones are above this one, so they aren't below the lower bound.
        from = None;
    }
    Ok(())
}
