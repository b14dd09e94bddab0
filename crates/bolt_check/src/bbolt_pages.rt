//! What bbolt fails on at a page by itself when it writes into a file (docs/SOUND.md, "For bbolt").
//! The page is known to be good.
ghost use Rattle.std.specs.Prelude.{◌≡◌, ◌==◌, ◌&&◌, ◌++◌, OnOk, map, not};
ghost use Rattle.std.specs.List.{list_any};
ghost use Rattle.bolt_check.specs.BboltFindings.{finding_if, has_large_value, has_one_child, has_other_first_key, has_value, inline_findings};
ghost use Rattle.bolt_check.specs.BboltFindings.{is_large_value, is_too_large, is_value, node_findings};
ghost use Rattle.bolt_check.specs.{Nodes.leaf_entry, ShownNodes.shown_node, ShownSpots.bound_of, ShownSpots.inline_keys, ShownSpots.page_spot};
ghost use Rattle.bolt_check.specs.{ShownSpots.shown_inner};
ghost use Rattle.bolt_format.specs.TreePages.{leaves_on};

use crate::finding::Finding;
use crate::keys::inline_key;
use crate::spot::{BucketSpot, PageSpot};
use bolt_format::{Inline, LeafPage, TreePage};
use std::alloc::AllocError;

/// The length of the longest key under which bbolt writes a value.
const LONGEST_KEY: usize = 32_768;

/// Adds what is found at a page, which may be one of the root bucket. The first leaf of its bucket has
/// the depth `leaves`.
pub(crate) fn find_at_page(
    page: &TreePage<'_>,
    spot: &PageSpot<'_>,
    in_root: bool,
    leaves: u8,
    findings: &mut Vec<Finding>,
) -> Result<(), AllocError>
    ensures { OnOk result (findings.new.items ≡ findings.old.items
        ++ node_findings in_root leaves (page_spot spot.now) (shown_node page.now)) }
{
    let number = spot.number;
    add_if(has_one_child(page), Finding::ONE_CHILD, number, findings)?;
    let has_value = has_root_value(page, in_root);
    add_if(has_value, Finding::ROOT_VALUE, number, findings)?;
    // Without a value there is none under a large key.
    let has_large = (!in_root || has_value) && has_large_value(page);
    add_if(has_large, Finding::LARGE_KEY, number, findings)?;
    let begins_otherwise = has_other_first_key(page, spot.lower);
    add_if(begins_otherwise, Finding::FIRST_KEY, number, findings)?;
    let is_elsewhere = is_leaf_elsewhere(page, spot.depth, leaves);
    add_if(is_elsewhere, Finding::LEAF_DEPTH, number, findings)
}

/// Adds what is found at an inline page, with the number of the page that contains it.
pub(crate) fn find_in_bucket(
    spot: &BucketSpot<'_>,
    findings: &mut Vec<Finding>,
) -> Result<(), AllocError>
    ensures { OnOk result (findings.new.items ≡ findings.old.items
        ++ inline_findings spot.now.host (shown_inner spot.now.page)) }
{
    add_if(
        has_large_key(&spot.page),
        Finding::LARGE_KEY,
        spot.host,
        findings,
    )?;
    let has_number = spot.page.number != 0;
    add_if(has_number, Finding::INLINE_NUMBER, spot.host, findings)
}

/// Adds a finding of a page, if there is one.
fn add_if(
    is_wrong: bool,
    code: u8,
    number: u64,
    findings: &mut Vec<Finding>,
) -> Result<(), AllocError>
    ensures { OnOk result (findings.new.items
        ≡ findings.old.items ++ finding_if is_wrong code number) }
{
    if is_wrong {
        findings.push(Finding::of_page(code, number))?;
    }
    Ok(())
}

#[tactic(auto, unfolding(crate::specs::ShownNodes::shown_node))]
fn has_one_child(page: &TreePage<'_>) -> bool
    ensures { result ≡ has_one_child (shown_node page.now) }
{
    match page {
        TreePage::Branch(branch) => branch.count() == 1,
        TreePage::Leaf(_) => false,
    }
}

/// Whether a page is a leaf of the root bucket with an element that isn't a bucket.
fn has_root_value(page: &TreePage<'_>, in_root: bool) -> bool
    ensures { result ≡ (in_root && has_value (shown_node page.now)) }
{
    in_root && has_value(page)
}

/// Whether a page is a leaf with an element that isn't a bucket.
#[tactic(auto, unfolding(crate::specs::ShownNodes::shown_node))]
fn has_value(page: &TreePage<'_>) -> bool
    ensures { result ≡ has_value (shown_node page.now) }
{
    match page {
        TreePage::Branch(_) => false,
        TreePage::Leaf(leaf) => some_value(leaf),
    }
}

/// Whether an element of a leaf is a value.
fn some_value(leaf: &LeafPage<'_>) -> bool
    ensures { result ≡ list_any is_value (map leaf_entry (leaves_on leaf.now)) }
{
    for element in leaf.elements() {
        if !element.is_bucket {
            return true;
        }
    }
    false
}

/// Whether a page is a leaf with a value under a key that is too large.
#[tactic(auto, unfolding(crate::specs::ShownNodes::shown_node))]
fn has_large_value(page: &TreePage<'_>) -> bool
    ensures { result ≡ has_large_value (shown_node page.now) }
{
    match page {
        TreePage::Branch(_) => false,
        TreePage::Leaf(leaf) => some_large_value(leaf),
    }
}

/// Whether an element of a leaf is a value under a key that is too large.
fn some_large_value(leaf: &LeafPage<'_>) -> bool
    ensures { result ≡ list_any is_large_value (map leaf_entry (leaves_on leaf.now)) }
{
    for element in leaf.elements() {
        if !element.is_bucket && element.key.len() > LONGEST_KEY {
            return true;
        }
    }
    false
}

/// Whether the first key of a page isn't this one, which its entry in the branch above it has. A root
/// page has no such entry.
#[tactic(auto, using(crate::proofs::NodeLemmas::keys_entries))]
fn has_other_first_key(page: &TreePage<'_>, lower: Option<&[u8]>) -> bool
    ensures { result ≡ has_other_first_key (bound_of lower.entry) (shown_node page.now) }
{
    match lower {
        Some(key) => page.count() == 0 || page.key(0) != key,
        None => false,
    }
}

/// Whether a page is a leaf at another depth than the first of its bucket.
#[tactic(auto, unfolding(crate::specs::ShownNodes::shown_node))]
fn is_leaf_elsewhere(page: &TreePage<'_>, depth: u8, leaves: u8) -> bool
    ensures { result ≡ ((shown_node page.now).is_leaf && not (depth == leaves)) }
{
    match page {
        TreePage::Branch(_) => false,
        TreePage::Leaf(_) => depth != leaves,
    }
}

/// Whether a key of an inline page is too large.
#[tactic(auto, using(bolt_format::proofs::Exports::drop_next, std::proofs::lemmas::List::drop_all))]
fn has_large_key(page: &Inline<'_>) -> bool
    ensures { result ≡ list_any is_too_large (inline_keys page.now) }
{
    for i in 0..page.count() {
        if inline_key(page, i).len() > LONGEST_KEY {
            return true;
        }
    }
    false
}
