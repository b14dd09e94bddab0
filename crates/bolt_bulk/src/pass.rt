//! The pass over everything that a file holds. It follows a walk, and writes each page of the copy
//! as soon as the page is known. At each entry it takes a value, or enters or leaves a bucket.
//!
//! A copy takes up to three passes, with the same code. For a balanced copy the first one, over
//! the plain layout, notes the limits of rows (`bolt_layout`, `specs/Limits`). The next one
//! plans: with a sink that keeps nothing, it counts which numbers the pages will have. Then the
//! metas and the freelist are written, and the last pass writes each page as soon as it is
//! known.
//!
//! Each open bucket has one open run on each level: items of a leaf, and pages above. A run
//! closes before the first page of what no longer joins it is written: a leaf before the pages
//! of a bucket, a branch before the pages of a child. So the pages come in the order of their
//! numbers.
//!
//! A bucket that has only values so far, of at most a quarter of a page, isn't opened yet: its
//! entries wait. If it ends so, it is inline. Otherwise it is opened with the entries that
//! waited.
//!
//! A page number above (2^63 - 1) / page size ends the plan. The pass that notes limits counts
//! up to 28 times as many, since no plain layout has more pages than 28 times those of the
//! balanced one (`proofs/NotMuchLarger`).
ghost use Rattle.std.specs.Prelude.{◌≡◌, ◌+◌, ◌-◌, ◌/◌, ◌<◌, ◌≤◌, Some, None, IfErr, OnOk, length};

use crate::bucket_runs::BucketRuns;
use crate::bulk_fault::BulkFault;
use crate::limits::{BucketLimits, Limits};
use crate::noted_limits::NotedLimits;
use crate::page_setup::{MAX_ITEMS, PageSetup};
use crate::page_writer::PageWriter;
use crate::pending_bucket::PendingBucket;
use crate::waiting_bucket::WaitingBucket;
use bolt_format::{ELEMENT_LEN, HEADER_LEN, Leaf, Sink};
use bolt_tree::Item;
use std::mem;

/// What a pass returns.
#[derive(Drop)]
pub(crate) struct PassEnd {
    /// The page number of the root page.
    pub root: u64,
    /// The number after the last page.
    pub high_water: u64,
    /// The greatest number of items that the open runs held at one time.
    pub held: u64,
    /// The limits of the rows of all buckets, if they were asked for.
    pub noted: Limits,
}

/// The state of a pass.
#[derive(Drop)]
pub(crate) struct Pass<'a> {
    pub setup: PageSetup,
    pub limits: &'a Limits,
    /// The buckets around the one that is open, the innermost last.
    pub waiting: Vec<WaitingBucket<'a>>,
    pub bucket: BucketRuns<'a>,
    /// The bucket within the open one that may be inline, and its entries so far.
    pub pending: Option<PendingBucket<'a>>,
    pub entries: Vec<Leaf<'a>>,
    /// How many buckets were opened, the root bucket included. Saturates at 2^64 - 1.
    pub opened: u64,
    /// How many items the open runs of the waiting buckets hold. Saturates at 2^64 - 1.
    pub around: u64,
    /// The greatest number of items that all open runs held at one time so far.
    /// Saturates at 2^64 - 1.
    pub most: u64,
    /// The limits that a pass over the plain layout notes.
    pub noted: NotedLimits,
}

impl<'a> Pass<'a> {
    ghost use Rattle.bolt_format.specs.ElementLengths.{IsValueLength};
    ghost use Rattle.bolt_tree.specs.{Paths.path_of, ShownEntries.item_view};
    ghost use Rattle.bolt_bulk.specs.Private.{BeginsAll, BeginsBucket, Counts, pass_depth, EndsAll, EntersBucket, GoesOn, HasMemberLengths, IsReady, IsSameWriter};
    ghost use Rattle.bolt_bulk.specs.Private.{items_by, KeepsValue, LeavesBucket, LeavesTo, longest_key, OpensPending, TakesMember, TakesValue};
    ghost use Rattle.bolt_check.specs.Counts.{saturated};

    /// A pass before the first page. If `notes` is set, it notes the limits of the balanced
    /// layout's rows.
    pub(crate) fn new(setup: PageSetup, limits: &'a Limits, notes: bool) -> Pass<'a>
        ensures setup { result.setup ≡ setup }
        ensures ready { IsReady result }
        ensures at { BeginsAll limits.now notes setup.page_size result }
    {
        let alloc = setup.alloc;
        Pass {
            setup,
            limits,
            waiting: Vec::new(alloc),
            bucket: BucketRuns::new(
                alloc,
                BucketLimits {
                    all: limits,
                    bucket: 0,
                },
            ),
            pending: None,
            entries: Vec::new(alloc),
            opened: 1,
            around: 0,
            most: 0,
            noted: NotedLimits::new(alloc, notes),
        }
    }

    /// How many buckets are around the next entry.
    fn depth(&self) -> usize
        ensures { result ≡ pass_depth self.now }
    {
        match self.pending {
            Some(_) => self.waiting.len() + 2,
            None => self.waiting.len() + 1,
        }
    }

    /// Ends buckets until at most `depth` are left.
    fn leave_to<S: Sink>(
        &mut self,
        depth: usize,
        writer: &mut PageWriter<'_, S>,
    ) -> Result<(), BulkFault>
        requires ready { IsReady self.old }
        requires setup { writer.old.setup ≡ self.old.setup }
        requires some { 1 ≤ depth }
        ensures same { IsSameWriter writer.old writer.new }
        ensures on { OnOk result (GoesOn self.old self.new depth) }
        ensures steps { LeavesTo S.Sink writer.old writer.new self.old self.new depth result }
    {
        'buckets: while self.depth() > depth {
            self.leave_bucket(writer)?;
        }
        Ok(())
    }

    /// Takes the next member of a walk, after it ended the buckets that the member isn't in.
    pub(crate) fn take_member<S: Sink>(
        &mut self,
        path: &[&'a [u8]],
        item: Item<'a>,
        writer: &mut PageWriter<'_, S>,
    ) -> Result<(), BulkFault>
        requires ready { IsReady self.old }
        requires setup { writer.old.setup ≡ self.old.setup }
        requires fit { HasMemberLengths (path_of path.now, item_view item) }
        ensures same { IsSameWriter writer.old writer.new }
        ensures on { OnOk result (GoesOn self.old self.new (1 + length path.now)) }
        ensures steps { TakesMember S.Sink writer.old writer.new self.old self.new
            (path_of path.now, item_view item.entry) result }
    {
        let key = path[path.len() - 1];
        self.leave_to(path.len(), writer)?;
        match item {
            Item::Value(value) => self.take_value(key, value, writer),
            Item::Bucket { sequence } => self.take_bucket(key, sequence, writer),
        }
    }

    /// How many items the open runs of all its buckets hold. Saturates at 2^64 - 1.
    fn held(&self) -> u64
        requires { IsReady self.now }
        ensures { result ≡ saturated (items_by self.now) }
    {
        self.around.saturating_add(self.bucket.held())
    }

    /// Counts the items that the open runs hold now. Only an item that joins a leaf can make them
    /// the most so far: a page that closes replaces its items by one item of the run above.
    fn count(&mut self)
        requires { IsReady self.old }
        ensures counts { Counts self.old self.new }
        ensures on { GoesOn self.old self.new (pass_depth self.old) }
    {
        self.most = self.most.max(self.held());
    }

    /// Takes a value of the innermost bucket.
    pub(crate) fn take_value<S: Sink>(
        &mut self,
        key: &'a [u8],
        value: &'a [u8],
        writer: &mut PageWriter<'_, S>,
    ) -> Result<(), BulkFault>
        requires ready { IsReady self.old }
        requires setup { writer.old.setup ≡ self.old.setup }
        requires key { length key.now ≤ longest_key }
        requires value { IsValueLength (length value.now) }
        ensures same { IsSameWriter writer.old writer.new }
        ensures on { OnOk result (GoesOn self.old self.new (pass_depth self.old)) }
        ensures steps { TakesValue S.Sink writer.old writer.new self.old self.new key.now value.now
            result }
    {
        let Some(pending) = self.pending else {
            return self.put_value(key, value, writer);
        };
        let size = pending.size + (ELEMENT_LEN + (key.len() + value.len()));
        if size <= self.setup.page_size / 4 && self.entries.len() < MAX_ITEMS {
            return self.keep_value(pending, key, value, size);
        }
        self.open_pending(writer)?;
        self.put_value(key, value, writer)
    }

    /// Takes a value of the pending bucket, which may still be inline with it.
    fn keep_value(
        &mut self,
        pending: PendingBucket<'a>,
        key: &'a [u8],
        value: &'a [u8],
        size: usize,
    ) -> Result<(), BulkFault>
        requires ready { IsReady self.old }
        requires pending { self.old.pending ≡ Some pending }
        requires key { length key.now ≤ longest_key }
        requires size { size ≡ pending.size + (16 + (length key.now + length value.now)) }
        requires small { size ≤ self.old.setup.page_size / 4 }
        requires few { length self.old.entries.items < MAX_ITEMS }
        ensures on { OnOk result (GoesOn self.old self.new (pass_depth self.old)) }
        ensures keeps { KeepsValue self.old self.new key.now value.now result }
        ensures fault { IfErr result (λ e. e ≡ BulkFault.Memory) }
    {
        let entry = Leaf {
            key,
            value,
            is_bucket: false,
        };
        self.entries.push(entry)?;
        self.pending = Some(PendingBucket { size, ..pending });
        Ok(())
    }

    /// Takes a value of the open bucket.
    #[inline(always)]
    fn put_value<S: Sink>(
        &mut self,
        key: &'a [u8],
        value: &'a [u8],
        writer: &mut PageWriter<'_, S>,
    ) -> Result<(), BulkFault>
        requires ready { IsReady self.old }
        requires setup { writer.old.setup ≡ self.old.setup }
        requires pending { self.old.pending ≡ None }
        requires key { length key.now ≤ longest_key }
        requires value { IsValueLength (length value.now) }
        ensures same { IsSameWriter writer.old writer.new }
        ensures on { OnOk result (GoesOn self.old self.new (pass_depth self.old)) }
        ensures steps { TakesValue S.Sink writer.old writer.new self.old self.new key.now value.now
            result }
    {
        self.bucket.add_value(key, value, writer)?;
        self.count();
        Ok(())
    }

    /// Enters a bucket within the innermost one.
    pub(crate) fn take_bucket<S: Sink>(
        &mut self,
        key: &'a [u8],
        sequence: u64,
        writer: &mut PageWriter<'_, S>,
    ) -> Result<(), BulkFault>
        requires ready { IsReady self.old }
        requires setup { writer.old.setup ≡ self.old.setup }
        requires key { length key.now ≤ longest_key }
        ensures same { IsSameWriter writer.old writer.new }
        ensures on { OnOk result (GoesOn self.old self.new (pass_depth self.old + 1)) }
        ensures steps { EntersBucket S.Sink writer.old writer.new self.old self.new key.now sequence
            result }
    {
        self.open_pending(writer)?;
        self.begin(key, sequence);
        Ok(())
    }

    /// Begins a bucket within the open one. It may be inline.
    fn begin(&mut self, key: &'a [u8], sequence: u64)
        requires ready { IsReady self.old }
        requires pending { self.old.pending ≡ None }
        requires key { length key.now ≤ longest_key }
        ensures on { GoesOn self.old self.new (pass_depth self.old + 1) }
        ensures begins { BeginsBucket self.old self.new key.now sequence }
    {
        self.pending = Some(PendingBucket {
            key,
            sequence,
            size: HEADER_LEN,
        });
    }

    /// Opens the pending bucket, if there is one, with its entries so far, as it turns out to have
    /// a root page. The bucket around it waits.
    fn open_pending<S: Sink>(&mut self, writer: &mut PageWriter<'_, S>) -> Result<(), BulkFault>
        requires ready { IsReady self.old }
        requires setup { writer.old.setup ≡ self.old.setup }
        ensures same { IsSameWriter writer.old writer.new }
        ensures on { OnOk result (GoesOn self.old self.new (pass_depth self.old)) }
        ensures pending { OnOk result (self.new.pending ≡ None) }
        ensures steps { OpensPending S.Sink writer.old writer.new self.old self.new result }
    {
        let Some(pending) = self.pending else {
            return Ok(());
        };
        let limits = BucketLimits {
            all: self.limits,
            bucket: self.opened,
        };
        let inner = BucketRuns::of_values(
            self.setup.alloc,
            self.entries.as_slice(),
            pending.size,
            limits,
        )?;
        let outer = mem::replace(&mut self.bucket, inner);
        let waiting = WaitingBucket::enter(outer, pending, self.around, writer)?;
        let around = self.around.saturating_add(waiting.bucket.held());
        self.waiting.push(waiting)?;
        self.around = around;
        self.opened = self.opened.saturating_add(1);
        self.entries.clear();
        self.pending = None;
        self.count();
        Ok(())
    }

    /// Ends the innermost bucket.
    #[inline(never)]
    pub(crate) fn leave_bucket<S: Sink>(
        &mut self,
        writer: &mut PageWriter<'_, S>,
    ) -> Result<(), BulkFault>
        requires ready { IsReady self.old }
        requires setup { writer.old.setup ≡ self.old.setup }
        requires within { 1 < pass_depth self.old }
        ensures same { IsSameWriter writer.old writer.new }
        ensures on { OnOk result (GoesOn self.old self.new (pass_depth self.old - 1)) }
        ensures steps { LeavesBucket S.Sink writer.old writer.new self.old self.new result }
    {
        match self.pending {
            Some(pending) => self.end_inline(pending, writer),
            None => self.end_open(writer),
        }
    }

    /// Ends the pending bucket, which is inline.
    fn end_inline<S: Sink>(
        &mut self,
        pending: PendingBucket<'a>,
        writer: &mut PageWriter<'_, S>,
    ) -> Result<(), BulkFault>
        requires ready { IsReady self.old }
        requires setup { writer.old.setup ≡ self.old.setup }
        requires pending { self.old.pending ≡ Some pending }
        ensures same { IsSameWriter writer.old writer.new }
        ensures on { OnOk result (GoesOn self.old self.new (pass_depth self.old - 1)) }
        ensures steps { LeavesBucket S.Sink writer.old writer.new self.old self.new result }
    {
        self.bucket
            .add_inline(pending, self.entries.as_slice(), writer)?;
        self.entries.clear();
        self.pending = None;
        self.count();
        Ok(())
    }

    /// Ends the open bucket, and goes on with the one around it.
    fn end_open<S: Sink>(&mut self, writer: &mut PageWriter<'_, S>) -> Result<(), BulkFault>
        requires ready { IsReady self.old }
        requires setup { writer.old.setup ≡ self.old.setup }
        requires pending { self.old.pending ≡ None }
        requires waiting { 0 < length self.old.waiting.items }
        ensures same { IsSameWriter writer.old writer.new }
        ensures on { OnOk result (GoesOn self.old self.new (pass_depth self.old - 1)) }
        ensures steps { LeavesBucket S.Sink writer.old writer.new self.old self.new result }
    {
        self.noted.bucket_ends(&self.bucket.uppers)?;
        let innermost = self.waiting.len() - 1;
        let waiting = self.waiting.remove(innermost);
        self.around = waiting.around;
        let mut inner = mem::replace(&mut self.bucket, waiting.bucket);
        self.bucket
            .end_inner(waiting.key, waiting.sequence, &mut inner, writer)?;
        self.count();
        Ok(())
    }

    /// Ends all buckets, up to the root page of the root bucket.
    pub(crate) fn end_all<S: Sink>(
        &mut self,
        writer: &mut PageWriter<'_, S>,
    ) -> Result<PassEnd, BulkFault>
        requires ready { IsReady self.old }
        requires setup { writer.old.setup ≡ self.old.setup }
        ensures same { IsSameWriter writer.old writer.new }
        ensures ends { EndsAll S.Sink writer.old writer.new self.old result }
    {
        self.leave_to(1, writer)?;
        self.noted.bucket_ends(&self.bucket.uppers)?;
        let root = self.bucket.close_runs(writer)?;
        Ok(PassEnd {
            root,
            high_water: writer.next,
            held: self.most,
            noted: self.noted.take_limits(self.setup.alloc),
        })
    }
}
