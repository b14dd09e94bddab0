//! A bucket that waits while one within it is open.
ghost use Rattle.std.specs.Prelude.{◌≤◌, IfOk, length};
ghost use Rattle.bolt_bulk.specs.Private.{Enters, IsOpenBucket, IsSameWriter, IsWaiting, longest_key};

use crate::bucket_runs::{BucketRuns, ROOT_ITEM_LEN};
use crate::bulk_fault::BulkFault;
use crate::page_writer::PageWriter;
use crate::pending_bucket::PendingBucket;
use bolt_format::Sink;

/// A bucket that waits for a bucket within it, which has this key and sequence.
#[derive(Drop)]
pub(crate) struct WaitingBucket<'a> {
    pub bucket: BucketRuns<'a>,
    pub key: &'a [u8],
    pub sequence: u64,
    /// How many items the buckets around it hold. Saturates at 2^64 - 1.
    pub around: u64,
}

impl<'a> WaitingBucket<'a> {
    /// Makes room in an open bucket for a bucket with a root page within it, and waits for that one.
    /// The buckets around the open one hold `around` items.
    pub(crate) fn enter<S: Sink>(
        outer: BucketRuns<'a>,
        pending: PendingBucket<'a>,
        around: u64,
        writer: &mut PageWriter<'_, S>,
    ) -> Result<WaitingBucket<'a>, BulkFault>
        requires open { IsOpenBucket outer }
        requires key { length pending.key.now ≤ longest_key }
        ensures same { IsSameWriter writer.old writer.new }
        ensures enters { Enters S.Sink writer.old writer.new outer.entry pending.entry around
            result }
        ensures waits { IfOk result (λ waiting. IsWaiting writer.old.setup.page_size waiting) }
    {
        let mut bucket = outer;
        let key = pending.key;
        bucket.make_room(key, ROOT_ITEM_LEN + key.len(), writer)?;
        Ok(WaitingBucket {
            bucket,
            key,
            sequence: pending.sequence,
            around,
        })
    }
}
