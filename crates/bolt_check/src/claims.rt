//! The claimed pages of a file, and the tests of one more page.
ghost use Rattle.std.specs.Prelude.{◌≡◌, ◌↔◌, ◌<◌, ◌≤◌, ◌^◌, ℕ, IfErr, IfOk, IsSome, OnErr, OnOk, length};
ghost use Rattle.std.specs.Option.{option_map};
ghost use Rattle.bolt_format.specs.{Bytes.IsBytes, Gaps.gap_view, Gaps.page_gap, Pages.page_at};
ghost use Rattle.bolt_check.specs.{Counts.counted, Findings.IsMetaPage, Findings.PagePasses, Findings.PageTests, Private.Freelists.IsUnlisted};
ghost use Rattle.bolt_check.specs.{Private.Tables.HasRoom, ShownNodes.IsNodeAt, ShownNodes.IsPageAt, ShownSpots.page_spot, TableLengths.table_length};
ghost use Rattle.bolt_check.specs.Ways.{AddsSpan, At_page};

use crate::check_fault::NoMemory;
use crate::finding::Finding;
use crate::spot::PageSpot;
use crate::table::{PageUse, new_table, reset};
use crate::visit::visit;
use bolt_format::{Gap, Meta, TreePage, page_gap};
use std::alloc::Global;

/// The claimed pages of a file: the two meta pages, and the spans of the visited pages that passed
/// their tests (docs/SOUND.md, "Structure"). The table needs a byte for each whole page that lies
/// in the file and below the high-water mark.
///
/// The visits are counted. No call returns the file. So code that has nothing else of the file
/// can't visit a page uncounted, and can't make a second table. `Leftovers` read pages uncounted,
/// but no way can be followed any more once the claims were given to them.
#[derive(Drop)]
pub struct Claims<'a> {
    pub(crate) file: &'a [u8],
    pub(crate) meta: Meta,
    pub(crate) table: Vec<PageUse>,
    visited: u64,
    ghost room: { HasRoom file.now meta table.items },
    ghost unlisted: { IsUnlisted table.items },
    ghost sized: { length table.items ≡ table_length file.now meta },
    ghost bytes: { IsBytes file.now },
    ghost fits: { visited < 2 ^ 64 },
}

#[tactic(auto, unfolding(crate::specs::Claims::claims_viewers))]
impl<'a> Claims<'a> {
    ghost use Rattle.bolt_check.specs.Claims.{HasClaimed, claims_file, claims_length, claims_meta, claims_nodes, claims_visited, is_claimed};
    ghost use Rattle.bolt_check.specs.Claims.{pages_left};

    /// A table in which only the meta pages are claimed. No page was visited.
    ///
    /// # Errors
    ///
    /// `NoMemory` if there is no memory for the table.
    pub fn new(alloc: Global, file: &'a [u8], meta: Meta) -> Result<Claims<'a>, NoMemory>
        requires { 0 < meta.page_size }
        ensures file { IfOk result (λ claims. claims_file claims ≡ file.now) }
        ensures meta { IfOk result (λ claims. claims_meta claims ≡ meta) }
        ensures metas { IfOk result (λ claims. (n : ℕ) → HasClaimed claims n ↔ IsMetaPage n) }
        ensures length { IfOk result (λ claims. claims_length claims ≡ table_length file.now meta) }
        ensures visited { IfOk result (λ claims. claims_visited claims ≡ 0) }
    {
        let table = new_table(alloc, file, &meta)?;
        Ok(Claims {
            file,
            meta,
            table,
            visited: 0,
        })
    }

    /// Begins again: only the meta pages are claimed. The visits are counted on. Needs no memory.
    pub fn restart(&mut self)
        ensures file { claims_file self.new ≡ claims_file self.old }
        ensures meta { claims_meta self.new ≡ claims_meta self.old }
        ensures metas { (n : ℕ) → HasClaimed self.new n ↔ IsMetaPage n }
        ensures length { claims_length self.new ≡ claims_length self.old }
        ensures visited { claims_visited self.new ≡ claims_visited self.old }
    {
        reset(&mut self.table);
    }

    /// The meta that the file is read under.
    pub fn meta(&self) -> Meta
        ensures { result ≡ claims_meta self.now }
    {
        self.meta
    }

    /// The number of visits so far. Saturates at 2^64 - 1.
    pub fn visited(&self) -> u64
        ensures { result ≡ claims_visited self.now }
    {
        self.visited
    }

    /// Tests a page that a way leads to, and claims its span. This is a visit.
    ///
    /// # Errors
    ///
    /// The first finding of the tests. Then no page is claimed.
    pub fn visit(&mut self, spot: &PageSpot<'_>) -> Result<TreePage<'a>, Finding>
        ensures file { claims_file self.new ≡ claims_file self.old }
        ensures meta { claims_meta self.new ≡ claims_meta self.old }
        ensures length { claims_length self.new ≡ claims_length self.old }
        ensures visited { claims_visited self.new ≡ counted (claims_visited self.old) 1 }
        ensures found { IfErr result (PageTests (claims_nodes self.old)
            (HasClaimed self.old) (page_spot spot.now)) }
        ensures same { OnErr result ((n : ℕ) → is_claimed self.new n ≡ is_claimed self.old n) }
        ensures left { OnErr result (pages_left self.new ≡ pages_left self.old) }
        ensures passes { OnOk result (PagePasses (claims_nodes self.old)
            (HasClaimed self.old) (page_spot spot.now)) }
        ensures node { IfOk result (IsNodeAt (claims_nodes self.old) spot.now.number) }
        ensures page { IfOk result (IsPageAt (claims_file self.old) (claims_meta self.old)
            spot.now.number) }
        ensures claims { OnOk result (AddsSpan (claims_nodes self.old) (At_page (page_spot spot.now))
            (HasClaimed self.old) (HasClaimed self.new)) }
        ensures fewer { OnOk result (pages_left self.new < pages_left self.old) }
        ensures shallow { OnOk result (spot.now.depth ≤ 64) }
    {
        self.visited = self.visited.saturating_add(1);
        visit(self.file, &self.meta, spot, &mut self.table)
    }

    /// The first gap of page `number`, if it has one. The page is known to be good, as one that was
    /// visited is.
    pub fn gap(&self, number: u64) -> Option<Gap<'a>>
        requires { IsSome (page_at (claims_file self.now) (claims_meta self.now) number) }
        ensures { option_map gap_view result
            ≡ page_gap (claims_file self.now) (claims_meta self.now) number }
    {
        page_gap(self.file, &self.meta, number)
    }
}
