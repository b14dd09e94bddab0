//! An open run of pages above a bucket's leaves, and the branch page that it becomes.
ghost use Rattle.std.specs.Prelude.{◌≡◌, ◌+◌, ◌<◌, ◌≤◌, true, false, IfErr, OnOk, length};
ghost use Rattle.bolt_format.specs.{ElementPlaces.branch_view};
ghost use Rattle.bolt_layout.specs.Limits.{one_less};
ghost use Rattle.bolt_bulk.specs.Private.{ClosesRun, IsPushed, IsSameWriter, IsSizedRun, IsStanding, key_size, length_end, longest_key, no_run};
ghost use Rattle.bolt_bulk.specs.Private.{one_closed, run_has_room, run_kept, run_page, run_push, run_stays, run_view, TakesPage, WritesPage};
ghost use Rattle.bolt_bulk.specs.declared.bulk_fault.BulkFault.TheVariants as fault;

use crate::bulk_fault::BulkFault;
use crate::page_elements::put_elements;
use crate::page_pieces::put_zeros;
use crate::page_setup::MAX_ITEMS;
use crate::page_writer::PageWriter;
use bolt_format::{Branch, ELEMENT_LEN, HEADER_LEN, Kind, Sink, SinkFault};
use std::alloc::Global;

/// An open run of pages, the size of the page over it, and how many runs may come after it.
#[derive(Drop)]
pub(crate) struct BranchRun<'a> {
    pub elements: Vec<Branch<'a>>,
    pub size: usize,
    /// How many runs may still begin in its row. `None` if any number may.
    pub allowed: Option<u64>,
    /// How many runs of its row have closed. Saturates at 2^64 - 1.
    pub closed: u64,
}

impl<'a> BranchRun<'a> {
    /// A run without pages.
    pub(crate) fn new(alloc: Global, allowed: Option<u64>) -> BranchRun<'a>
        ensures { run_view result ≡ no_run allowed 0 }
    {
        BranchRun {
            elements: Vec::new(alloc),
            size: HEADER_LEN,
            allowed,
            closed: 0,
        }
    }

    /// Adds the element of a page.
    pub(crate) fn push_page(&mut self, page: Branch<'a>) -> Result<(), BulkFault>
        requires size { self.old.size + length page.key.now < 9223372036854775808 }
        ensures run { OnOk result (run_view self.new
            ≡ run_push (run_view self.old) (branch_view page.entry)) }
        ensures fault { IfErr result (λ e. e ≡ fault.Memory) }
    {
        self.elements.push(page)?;
        self.size += ELEMENT_LEN + page.key.len();
        Ok(())
    }

    /// Whether the element of a page with this first key joins the run.
    fn has_room(&self, page_size: usize, key: &[u8]) -> bool
        requires { self.now.size + length key.now < 9223372036854775808 }
        ensures { result ≡ run_has_room page_size (run_view self.now) (key_size key.now) }
    {
        self.elements.len() < 2
            || (self.size + (ELEMENT_LEN + key.len()) <= page_size
                && self.elements.len() < MAX_ITEMS)
    }

    /// Whether the run stays open for the next page, which has this first key: the run has room for
    /// it, or no further run may begin in the row.
    fn stays(&mut self, page_size: usize, key: &[u8]) -> bool
        requires { self.old.size + length key.now < 9223372036854775808 }
        ensures stays { result ≡ run_stays page_size (run_view self.old) (key_size key.now) }
        ensures kept { result ≡ true → run_view self.new
            ≡ run_kept page_size (run_view self.old) (key_size key.now) }
        ensures same { result ≡ false → run_view self.new ≡ run_view self.old }
    {
        if self.has_room(page_size, key) {
            return true;
        }
        if let Some(0) = self.allowed {
            self.allowed = None;
            return true;
        }
        false
    }

    /// Takes the element of a page that has closed. The next page has this first key. If that page
    /// doesn't join the run, the run closes: its page is written, and the element of that page is
    /// returned.
    pub(crate) fn take_page<S: Sink>(
        &mut self,
        key: &[u8],
        closed: Branch<'a>,
        writer: &mut PageWriter<'_, S>,
    ) -> Result<Option<Branch<'a>>, BulkFault>
        requires standing { IsStanding (run_view self.old) }
        requires key { length key.now ≤ longest_key }
        requires closed { length closed.key.now ≤ longest_key }
        ensures same { IsSameWriter writer.old writer.new }
        ensures takes { TakesPage S.Sink writer.old writer.new key.now (branch_view closed.entry)
            self.old self.new result }
        ensures standing { OnOk result (IsStanding (run_view self.new)) }
    {
        self.push_page(closed)?;
        if self.stays(writer.setup.page_size, key) {
            return Ok(None);
        }
        let up = self.close(writer)?;
        Ok(Some(up))
    }

    /// Takes the element of the last page below, and closes the run: its page is written, and the
    /// element of that page is returned.
    pub(crate) fn take_last_page<S: Sink>(
        &mut self,
        closed: Branch<'a>,
        writer: &mut PageWriter<'_, S>,
    ) -> Result<Branch<'a>, BulkFault>
        requires standing { IsStanding (run_view self.old) }
        requires closed { length closed.key.now ≤ longest_key }
        ensures same { IsSameWriter writer.old writer.new }
        ensures closes { ClosesRun S.Sink writer.old writer.new
            (run_push (run_view self.old) (branch_view closed.entry)) result }
        ensures standing { OnOk result (IsStanding (run_view self.new)) }
    {
        self.push_page(closed)?;
        self.close(writer)
    }

    /// Writes the page over the run, and begins the next run. Returns the page's element.
    fn close<S: Sink>(&mut self, writer: &mut PageWriter<'_, S>) -> Result<Branch<'a>, BulkFault>
        requires { IsPushed (run_view self.old) }
        ensures same { IsSameWriter writer.old writer.new }
        ensures closes { ClosesRun S.Sink writer.old writer.new (run_view self.old) result }
        ensures run { OnOk result (run_view self.new
            ≡ no_run (one_less self.old.allowed) (one_closed self.old.closed)) }
    {
        let after = writer.number_after(self.size)?;
        put_branch_page(self, writer)?;
        let up = Branch {
            key: self.elements[0].key,
            child: writer.next,
        };
        self.elements.clear();
        self.size = HEADER_LEN;
        self.allowed = match self.allowed {
            Some(allowed) => Some(allowed.saturating_sub(1)),
            None => None,
        };
        self.closed = self.closed.saturating_add(1);
        writer.next = after;
        Ok(up)
    }
}

/// Writes the branch page over a run.
fn put_branch_page<S: Sink>(
    run: &BranchRun<'_>,
    writer: &mut PageWriter<'_, S>,
) -> Result<(), SinkFault>
    requires sized { IsSizedRun (run_view run.now) }
    requires small { run.now.size < length_end }
    requires few { length run.now.elements.items < 65536 }
    ensures same { IsSameWriter writer.old writer.new }
    ensures next { writer.new.next ≡ writer.old.next }
    ensures page { WritesPage S.Sink writer.old writer.new
        (run_page writer.old.setup.page_size (run_view run.now) writer.old.next) result }
{
    if writer.sink.keeps_nothing() {
        return Ok(());
    }
    let branches = run.elements.as_slice();
    let zeros = writer.put_header(Kind::Branch, branches.len(), run.size)?;
    put_elements(branches, &[], writer.sink)?;
    put_zeros(zeros, writer.sink)
}
