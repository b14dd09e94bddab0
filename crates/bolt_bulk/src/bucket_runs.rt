//! The open runs of a bucket: the run of items of its leaf under way, and the runs of pages above.
ghost use Rattle.std.specs.Prelude.{◌≡◌, ◌+◌, ◌<◌, ◌≤◌, true, false, ℕ, IfErr, IfOk, OnOk, length, map, vec_capacity, vec_len};
ghost use Rattle.std.specs.List.{AllByRecursion};
ghost use Rattle.bolt_format.specs.{ElementLengths.IsValueLength, ElementPlaces.leaf_view, declared.element.Leaf.Leaf};
ghost use Rattle.bolt_bulk.specs.Private.{bucket_runs, ClosesBucket, EndsInner, entries_size, first_run, HasRoomFor, held_size, held_view};
ghost use Rattle.bolt_bulk.specs.Private.{inline_element, inline_size, inlined_by, IsHeld, IsOpenBucket, IsSameWriter, items_in, leaves_have_room};
ghost use Rattle.bolt_bulk.specs.Private.{leaf_run_view, length_end, longest_key, MakesRoom, no_leaves, pending_element, Pushes, TakesItem};
ghost use Rattle.bolt_bulk.specs.Private.{value_element, value_item, values_run};
ghost use Rattle.bolt_check.specs.Counts.{saturated};
ghost use Rattle.bolt_bulk.specs.declared.bulk_fault.BulkFault.TheVariants as fault;

use crate::bulk_fault::BulkFault;
use crate::held::{Held, StoredItem};
use crate::leaf_run::LeafRun;
use crate::limits::BucketLimits;
use crate::page_writer::PageWriter;
use crate::pending_bucket::PendingBucket;
use crate::upper_runs::UpperRuns;
use bolt_format::{ELEMENT_LEN, HEAD_LEN, HEADER_LEN, Leaf, Sink};
use std::alloc::Global;

/// How many bytes the item of a bucket with a root page takes, its key left out.
pub(crate) const ROOT_ITEM_LEN: usize = ELEMENT_LEN + HEAD_LEN;

/// The open runs of a bucket.
#[derive(Drop)]
pub(crate) struct BucketRuns<'a> {
    pub leaves: LeafRun<'a>,
    pub uppers: UpperRuns<'a>,
}

/// The items of entries that are values.
fn value_items<'a>(alloc: Global, entries: &[Leaf<'a>]) -> Result<Vec<Held<'a>>, BulkFault>
    ensures items { IfOk result (λ items. items.items ≡ map value_item entries.now) }
    ensures fault { IfErr result (λ e. e ≡ fault.Memory) }
{
    let mut items = Vec::new(alloc);
    for entry in entries {
        let held = Held {
            key: entry.key,
            stored: StoredItem::Value(entry.value),
        };
        items.push(held)?;
    }
    Ok(items)
}

impl<'a> BucketRuns<'a> {
    /// A bucket that has no item yet.
    pub(crate) fn new(alloc: Global, limits: BucketLimits<'a>) -> BucketRuns<'a>
        ensures open { IsOpenBucket result }
        ensures runs { (next : ℕ) → bucket_runs result next
            ≡ first_run no_leaves limits.entry next }
    {
        BucketRuns {
            leaves: LeafRun {
                items: Vec::new(alloc),
                inlined: Vec::new(alloc),
                size: HEADER_LEN,
            },
            uppers: UpperRuns::new(alloc, limits),
        }
    }

    /// A bucket that has these values so far, in its first run. The page over them has `size`
    /// bytes.
    pub(crate) fn of_values(
        alloc: Global,
        entries: &[Leaf<'a>],
        size: usize,
        limits: BucketLimits<'a>,
    ) -> Result<BucketRuns<'a>, BulkFault>
        requires size { size ≡ entries_size (map leaf_view entries.now) }
        requires small { size < length_end }
        requires few { length entries.now < 65535 }
        requires keys { AllByRecursion (λ (entry : Leaf). length entry.key.now ≤ longest_key)
            entries.now }
        requires values { AllByRecursion (λ (entry : Leaf). entry.is_bucket ≡ false) entries.now }
        ensures open { IfOk result (λ bucket. IsOpenBucket bucket) }
        ensures runs { IfOk result (λ bucket. (next : ℕ) → bucket_runs bucket next
            ≡ first_run (values_run entries.now size) limits.entry next) }
        ensures fault { IfErr result (λ e. e ≡ fault.Memory) }
    {
        let items = value_items(alloc, entries)?;
        let leaves = LeafRun {
            items,
            inlined: Vec::new(alloc),
            size,
        };
        Ok(BucketRuns {
            leaves,
            uppers: UpperRuns::new(alloc, limits),
        })
    }

    /// Makes room for the next item, which has this key and size. If there is none, the leaf
    /// closes, before any page of the item is written.
    #[inline(always)]
    pub(crate) fn make_room<S: Sink>(
        &mut self,
        key: &[u8],
        size: usize,
        writer: &mut PageWriter<'_, S>,
    ) -> Result<(), BulkFault>
        requires open { IsOpenBucket self.old }
        requires key { length key.now ≤ longest_key }
        requires size { size < length_end }
        ensures same { IsSameWriter writer.old writer.new }
        ensures makes { MakesRoom S.Sink writer.old writer.new self.old key.now size self.new
            result }
        ensures open { OnOk result (IsOpenBucket self.new) }
        ensures room { OnOk result (leaves_have_room writer.old.setup.page_size
            (leaf_run_view self.new.leaves) size ≡ true) }
    {
        if self.leaves.has_room(writer.setup.page_size, size) {
            return Ok(());
        }
        let closed = self.leaves.close(writer)?;
        self.uppers.climb(key, closed, writer)
    }

    /// Reserves memory for one more item. The open runs stay the same.
    fn reserve(&mut self) -> Result<(), BulkFault>
        requires open { IsOpenBucket self.old }
        ensures runs { (next : ℕ) → bucket_runs self.new next ≡ bucket_runs self.old next }
        ensures open { OnOk result (IsOpenBucket self.new) }
        ensures memory { OnOk result (vec_len self.new.leaves.items
            < vec_capacity self.new.leaves.items) }
        ensures fault { IfErr result (λ e. e ≡ fault.Memory) }
    {
        self.leaves.items.reserve(1)?;
        Ok(())
    }

    /// Adds an item of this size, for which there is room and memory. It isn't an inline bucket.
    fn push_reserved(&mut self, held: Held<'a>, size: usize)
        requires open { IsOpenBucket self.old }
        requires held { IsHeld self.old.leaves.inlined.items held }
        requires apart { inlined_by held.stored ≡ 0 }
        requires size { size ≡ held_size self.old.leaves.inlined.items held }
        requires room { HasRoomFor self.old.leaves size }
        requires memory { vec_len self.old.leaves.items < vec_capacity self.old.leaves.items }
        ensures runs { Pushes self.old self.new (held_view self.old.leaves.inlined.items held.entry)
            size }
        ensures open { IsOpenBucket self.new }
    {
        self.leaves.items.push_reserved(held);
        self.leaves.size += size;
    }

    /// Adds an item of this size, for which there is room. It isn't an inline bucket.
    fn push_item(&mut self, held: Held<'a>, size: usize) -> Result<(), BulkFault>
        requires open { IsOpenBucket self.old }
        requires held { IsHeld self.old.leaves.inlined.items held }
        requires apart { inlined_by held.stored ≡ 0 }
        requires size { size ≡ held_size self.old.leaves.inlined.items held }
        requires room { HasRoomFor self.old.leaves size }
        ensures runs { OnOk result (Pushes self.old self.new
            (held_view self.old.leaves.inlined.items held.entry) size) }
        ensures open { OnOk result (IsOpenBucket self.new) }
        ensures fault { IfErr result (λ e. e ≡ fault.Memory) }
    {
        self.leaves.items.push(held)?;
        self.leaves.size += size;
        Ok(())
    }

    /// Adds an inline bucket with these entries, for which there is room. Its value has `size`
    /// bytes.
    fn push_inline(
        &mut self,
        key: &'a [u8],
        sequence: u64,
        entries: &[Leaf<'a>],
        size: usize,
    ) -> Result<(), BulkFault>
        requires open { IsOpenBucket self.old }
        requires key { length key.now ≤ longest_key }
        requires few { length entries.now < 65535 }
        requires size { size ≡ inline_size (map leaf_view entries.now) }
        requires small { size < length_end }
        requires room { HasRoomFor self.old.leaves (16 + (length key.now + size)) }
        ensures runs { OnOk result (Pushes self.old self.new
            (inline_element key.now sequence (map leaf_view entries.now))
            (16 + (length key.now + size))) }
        ensures open { OnOk result (IsOpenBucket self.new) }
        ensures fault { IfErr result (λ e. e ≡ fault.Memory) }
    {
        let first = self.leaves.inlined.len();
        self.leaves.inlined.extend_from_slice(entries)?;
        let stored = StoredItem::Inline {
            sequence,
            first,
            count: entries.len(),
            size,
        };
        self.leaves.items.push(Held { key, stored })?;
        self.leaves.size += ELEMENT_LEN + (key.len() + size);
        Ok(())
    }

    /// Adds a value, after it made room for it.
    #[inline(always)]
    pub(crate) fn add_value<S: Sink>(
        &mut self,
        key: &'a [u8],
        value: &'a [u8],
        writer: &mut PageWriter<'_, S>,
    ) -> Result<(), BulkFault>
        requires open { IsOpenBucket self.old }
        requires key { length key.now ≤ longest_key }
        requires value { IsValueLength (length value.now) }
        ensures same { IsSameWriter writer.old writer.new }
        ensures takes { TakesItem S.Sink writer.old writer.new self.old
            (value_element key.now value.now) self.new result }
        ensures open { OnOk result (IsOpenBucket self.new) }
    {
        let size = ELEMENT_LEN + (key.len() + value.len());
        let stored = StoredItem::Value(value);
        self.make_room(key, size, writer)?;
        self.push_item(Held { key, stored }, size)
    }

    /// Adds a bucket that is inline, with these entries, after it made room for it.
    pub(crate) fn add_inline<S: Sink>(
        &mut self,
        pending: PendingBucket<'a>,
        entries: &[Leaf<'a>],
        writer: &mut PageWriter<'_, S>,
    ) -> Result<(), BulkFault>
        requires open { IsOpenBucket self.old }
        requires key { length pending.key.now ≤ longest_key }
        requires few { length entries.now < 65535 }
        requires size { pending.size + 16 ≡ inline_size (map leaf_view entries.now) }
        requires small { pending.size < 2147483632 }
        ensures same { IsSameWriter writer.old writer.new }
        ensures takes { TakesItem S.Sink writer.old writer.new self.old
            (pending_element pending.entry entries.now) self.new result }
        ensures open { OnOk result (IsOpenBucket self.new) }
    {
        let key = pending.key;
        let size = pending.size + HEAD_LEN;
        self.make_room(key, ELEMENT_LEN + (key.len() + size), writer)?;
        self.push_inline(key, pending.sequence, entries, size)
    }

    /// Closes all runs, up to the root page, and returns the number of that page.
    pub(crate) fn close_runs<S: Sink>(
        &mut self,
        writer: &mut PageWriter<'_, S>,
    ) -> Result<u64, BulkFault>
        requires open { IsOpenBucket self.old }
        ensures same { IsSameWriter writer.old writer.new }
        ensures closes { ClosesBucket S.Sink writer.old writer.new self.old result }
    {
        let closed = self.leaves.close(writer)?;
        self.uppers.close_all(closed, writer)
    }

    /// Ends the bucket within, which has this key and sequence, and takes its item, for which there
    /// is room. Memory for the item is reserved first, so any failure leaves some page out.
    pub(crate) fn end_inner<S: Sink>(
        &mut self,
        key: &'a [u8],
        sequence: u64,
        inner: &mut BucketRuns<'a>,
        writer: &mut PageWriter<'_, S>,
    ) -> Result<(), BulkFault>
        requires outer { IsOpenBucket self.old }
        requires inner { IsOpenBucket inner.old }
        requires key { length key.now ≤ longest_key }
        requires room { leaves_have_room writer.old.setup.page_size (leaf_run_view self.old.leaves)
            (32 + length key.now) ≡ true }
        ensures same { IsSameWriter writer.old writer.new }
        ensures ends { EndsInner S.Sink writer.old writer.new self.old key.now sequence inner.old
            self.new result }
        ensures open { OnOk result (IsOpenBucket self.new) }
    {
        self.reserve()?;
        let root = inner.close_runs(writer)?;
        let stored = StoredItem::Root {
            page: root,
            sequence,
        };
        self.push_reserved(Held { key, stored }, ROOT_ITEM_LEN + key.len());
        Ok(())
    }

    /// How many items its runs hold. Saturates at 2^64 - 1.
    pub(crate) fn held(&self) -> u64
        ensures { result ≡ saturated (items_in self.now) }
    {
        let mut held = self.leaves.items.len() as u64;
        for run in &self.uppers.runs {
            held = held.saturating_add(run.elements.len() as u64);
        }
        held
    }
}
