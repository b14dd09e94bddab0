//! What is left over of a file once all ways were followed: pages that no kept way takes in.
ghost use Rattle.std.specs.Option.{IfNone};
ghost use Rattle.std.specs.Prelude.{◌≡◌, ◌↔◌, ◌≤◌, ◌<◌, ℕ, false, true, IfSome, Ok, length};
ghost use Rattle.bolt_format.specs.declared.tree_page.TreePage.TheVariants as page;
ghost use Rattle.bolt_check.specs.{Claims.claims_file, Claims.claims_meta, Claims.is_claimed, LoneLeaves.IsListedFree, LoneLeaves.IsLoneLeaf};
ghost use Rattle.bolt_check.specs.{Nodes.Node, Nodes.node_at, Private.LeafTests.IsFilledLeaf, Private.Freelists.IsUnlisted};
ghost use Rattle.bolt_check.specs.{Private.Freelists.KeepsUsed};
ghost use Rattle.bolt_check.specs.Private.Pending.{ClaimsSpan};
ghost use Rattle.bolt_check.specs.Private.Tables.{HasRoom, IsClaimed, IsUnclaimed, times_of, use_at};
ghost use Rattle.bolt_check.specs.{ShownNodes.IsNodeAt, ShownNodes.IsPageAt, Ways.AddsSpan, Ways.At_page, Ways.root_spot};

use crate::claims::Claims;
use crate::listed_pages::list_ids;
use crate::spot::PageSpot;
use crate::table::{PageUse, is_listed};
use crate::visit::{open, visit};
use bolt_format::{LeafPage, Meta, TreePage, free_ids};

/// The pages of a file that were not claimed, and which of them are listed as free. Intact leaves are
/// taken from them one after another, each with its span (docs/RECOVERY.md, "Found pages"). They are
/// kept in the table of the claims, so no memory is needed.
#[derive(Drop)]
pub struct Leftovers<'a> {
    file: &'a [u8],
    meta: Meta,
    table: Vec<PageUse>,
    ghost room: { HasRoom file.now meta table.items },
}

#[tactic(auto, unfolding(crate::specs::Claims::claims_viewers, crate::specs::Leftovers::leftovers_viewers))]
impl<'a> Leftovers<'a> {
    ghost use Rattle.bolt_check.specs.Leftovers.{HasListed, HasTaken, is_listed, is_taken, leftovers_file, leftovers_length, leftovers_meta};
    ghost use Rattle.bolt_check.specs.Leftovers.{leftovers_nodes};

    /// What was not claimed. Pages that the freelist lists are noted, if one was written and is good.
    pub fn new(claims: Claims<'a>) -> Leftovers<'a>
        ensures file { leftovers_file result ≡ claims_file claims.entry }
        ensures meta { leftovers_meta result ≡ claims_meta claims.entry }
        ensures taken { (n : ℕ) → is_taken result n ≡ is_claimed claims.entry n }
        ensures listed { (n : ℕ) → n < leftovers_length result → HasListed result n
            ↔ IsListedFree (claims_file claims.entry) (claims_meta claims.entry) n }
    {
        let file = claims.file;
        let meta = claims.meta;
        let mut table = claims.table;
        list_free(file, &meta, &mut table);
        Leftovers { file, meta, table }
    }

    /// The number that pages to be taken are below.
    #[tactic(auto, using(crate::proofs::LeafLemmas::node_in_table), unfolding(crate::specs::Leftovers::leftovers_viewers))]
    pub fn end(&self) -> u64
        ensures within { result ≤ leftovers_length self.now }
        ensures below { result ≤ (leftovers_meta self.now).high_water }
        ensures past { (n : ℕ) (node : Node) → result ≤ n → leftovers_nodes self.now n ≡ Ok node
            → n < (leftovers_meta self.now).high_water → ⊥ }
    {
        (self.table.len() as u64).min(self.meta.high_water)
    }

    /// Takes page `number` and its span, if it is an intact leaf, isn't listed as free, and shares no
    /// page with what was claimed or taken before.
    pub fn take(&mut self, number: u64) -> Option<LeafPage<'a>>
        ensures file { leftovers_file self.new ≡ leftovers_file self.old }
        ensures meta { leftovers_meta self.new ≡ leftovers_meta self.old }
        ensures length { leftovers_length self.new ≡ leftovers_length self.old }
        ensures node { IfSome result
            (λ leaf. IsNodeAt (leftovers_nodes self.old) number (page.Leaf leaf)) }
        ensures page { IfSome result (λ leaf. IsPageAt (leftovers_file self.old)
            (leftovers_meta self.old) number (page.Leaf leaf)) }
        ensures leaf { IfSome result
            (λ _. IsLoneLeaf (leftovers_nodes self.old) (HasTaken self.old) number) }
        ensures unlisted { IfSome result (λ _. is_listed self.old number ≡ false) }
        ensures none { IfNone result (IsLoneLeaf (leftovers_nodes self.old)
            (HasTaken self.old) number → is_listed self.old number ≡ false → ⊥) }
        ensures taken { IfSome result (λ _. AddsSpan (leftovers_nodes self.old) (At_page (root_spot number))
            (HasTaken self.old) (HasTaken self.new)) }
        ensures same { IfNone result ((n : ℕ) → is_taken self.new n ≡ is_taken self.old n) }
        ensures noted { (n : ℕ) → is_taken self.new n ≡ false
            → is_listed self.new n ≡ is_listed self.old n }
    {
        take_leaf(self.file, &self.meta, number, &mut self.table)
    }
}

/// Lists what the freelist lists, if one was written and is good.
fn list_free(file: &[u8], meta: &Meta, table: &mut [PageUse])
    requires { IsUnlisted table.old }
    ensures used { KeepsUsed table.old table.new }
    ensures none { (n : ℕ) → n < length table.old → 1 ≤ times_of (use_at table.new n)
        → IsListedFree file.now meta.now n }
    ensures some { (n : ℕ) → n < length table.old → IsListedFree file.now meta.now n
        → 1 ≤ times_of (use_at table.new n) }
{
    match free_ids(file, meta) {
        Ok(Some(ids)) => list_ids(ids, table),
        Ok(None) | Err(_) => {}
    }
}

/// Takes a leaf in a table of pages.
fn take_leaf<'a>(
    file: &'a [u8],
    meta: &Meta,
    number: u64,
    table: &mut [PageUse],
) -> Option<LeafPage<'a>>
    requires { HasRoom file.now meta.now table.old }
    ensures node { IfSome result
        (λ leaf. IsNodeAt (node_at file.now meta.now) number (page.Leaf leaf)) }
    ensures page { IfSome result (λ leaf. IsPageAt file.now meta.now number (page.Leaf leaf)) }
    ensures leaf { IfSome result
        (λ _. IsLoneLeaf (node_at file.now meta.now) (IsClaimed table.old) number) }
    ensures unlisted { IfSome result (λ _. times_of (use_at table.old number) ≡ 0) }
    ensures none { IfNone result (IsLoneLeaf (node_at file.now meta.now)
        (IsClaimed table.old) number → times_of (use_at table.old number) ≡ 0 → ⊥) }
    ensures claims { IfSome result (λ _. ClaimsSpan (node_at file.now meta.now)
        (At_page (root_spot number)) table.old table.new) }
    ensures same { IfNone result (table.new ≡ table.old) }
    ensures outside { (n : ℕ) → IsUnclaimed table.new n → use_at table.new n ≡ use_at table.old n }
{
    if table.len() as u64 <= number || is_listed(table[number as usize]) {
        return None;
    }
    // A visit would claim a branch too, so the page is opened before.
    if !is_filled_leaf(file, meta, number) {
        return None;
    }
    match visit(file, meta, &PageSpot::root(number), table) {
        Ok(TreePage::Leaf(leaf)) => Some(leaf),
        Ok(TreePage::Branch(_)) | Err(_) => None,
    }
}

/// Whether page `number` is a good leaf with an element.
#[tactic(auto, using(crate::proofs::LeafLemmas::leaf_filled, crate::proofs::LeafLemmas::leaf_empty, crate::proofs::LeafLemmas::branch_unfilled))]
fn is_filled_leaf(file: &[u8], meta: &Meta, number: u64) -> bool
    ensures filled { result ≡ true → IsFilledLeaf (node_at file.now meta.now number) }
    ensures other { result ≡ false → IsFilledLeaf (node_at file.now meta.now number) → ⊥ }
{
    match open(file, meta, number) {
        Ok(TreePage::Leaf(leaf)) => leaf.count() > 0,
        Ok(TreePage::Branch(_)) | Err(_) => false,
    }
}
