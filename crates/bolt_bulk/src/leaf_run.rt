//! The run of items of a bucket's leaf under way, and the leaf page that it becomes.
ghost use Rattle.std.specs.Prelude.{◌≡◌, ◌+◌, ◌<◌, OnOk};
ghost use Rattle.bolt_bulk.specs.Private.{ClosesLeaf, IsLeafRun, IsSameWriter, leaf_page, leaves_have_room, leaf_run_view, no_leaves, WritesPage};

use crate::bulk_fault::BulkFault;
use crate::held::Held;
use crate::page_elements::put_elements;
use crate::page_pieces::put_zeros;
use crate::page_setup::MAX_ITEMS;
use crate::page_writer::PageWriter;
use bolt_format::{Branch, HEADER_LEN, Kind, Leaf, Sink, SinkFault};

/// An open run of items, the entries of the inline buckets among them, and the size of the page
/// over it.
#[derive(Drop)]
pub(crate) struct LeafRun<'a> {
    pub items: Vec<Held<'a>>,
    pub inlined: Vec<Leaf<'a>>,
    pub size: usize,
}

impl<'a> LeafRun<'a> {
    /// Whether an item of this size joins the run.
    pub(crate) fn has_room(&self, page_size: usize, size: usize) -> bool
        requires { self.now.size + size < 18446744073709551616 }
        ensures { result ≡ leaves_have_room page_size (leaf_run_view self.now) size }
    {
        self.items.len() < 1 || (self.size + size <= page_size && self.items.len() < MAX_ITEMS)
    }

    /// Writes the page over the run, and begins the next run. Returns the page's element.
    #[inline(never)]
    pub(crate) fn close<S: Sink>(
        &mut self,
        writer: &mut PageWriter<'_, S>,
    ) -> Result<Branch<'a>, BulkFault>
        requires run { IsLeafRun self.old }
        ensures same { IsSameWriter writer.old writer.new }
        ensures closes { ClosesLeaf S.Sink writer.old writer.new (leaf_run_view self.old) result }
        ensures leaves { OnOk result (leaf_run_view self.new ≡ no_leaves) }
        ensures run { OnOk result (IsLeafRun self.new) }
    {
        let after = writer.number_after(self.size)?;
        put_leaf_page(self, writer)?;
        let key = match self.items.first() {
            Some(held) => held.key,
            None => &[],
        };
        let child = writer.next;
        self.items.clear();
        self.inlined.clear();
        self.size = HEADER_LEN;
        writer.next = after;
        Ok(Branch { key, child })
    }
}

/// Writes the leaf page over a run.
fn put_leaf_page<S: Sink>(
    run: &LeafRun<'_>,
    writer: &mut PageWriter<'_, S>,
) -> Result<(), SinkFault>
    requires { IsLeafRun run.now }
    ensures same { IsSameWriter writer.old writer.new }
    ensures next { writer.new.next ≡ writer.old.next }
    ensures page { WritesPage S.Sink writer.old writer.new
        (leaf_page writer.old.setup.page_size (leaf_run_view run.now) writer.old.next) result }
{
    if writer.sink.keeps_nothing() {
        return Ok(());
    }
    let items = run.items.as_slice();
    let zeros = writer.put_header(Kind::Leaf, items.len(), run.size)?;
    put_elements(items, run.inlined.as_slice(), writer.sink)?;
    put_zeros(zeros, writer.sink)
}
