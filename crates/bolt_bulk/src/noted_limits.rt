//! The limits of rows that a pass over the plain layout notes as buckets end.
ghost use Rattle.std.specs.Prelude.{◌≡◌, ℕ, IfErr, None, OnOk};
ghost use Rattle.bolt_bulk.specs.Private.{BucketEnds, limit_in};
ghost use Rattle.bolt_bulk.specs.declared.bulk_fault.BulkFault.TheVariants as fault;

use crate::bulk_fault::BulkFault;
use crate::limits::Limits;
use crate::upper_runs::UpperRuns;
use std::alloc::Global;
use std::mem;

/// The limits of the rows of the buckets that have ended, if they are asked for.
#[derive(Drop)]
pub(crate) struct NotedLimits {
    pub notes: bool,
    pub limits: Limits,
}

impl NotedLimits {
    /// No limit is noted yet.
    pub(crate) fn new(alloc: Global, notes: bool) -> NotedLimits
        ensures notes { result.notes ≡ notes }
        ensures none { (bucket level : ℕ) → limit_in result.limits bucket level ≡ None }
    {
        NotedLimits {
            notes,
            limits: Limits::none(alloc),
        }
    }

    /// A bucket ends with these open runs. If limits are asked for, those of its rows are noted.
    pub(crate) fn bucket_ends(&mut self, uppers: &UpperRuns<'_>) -> Result<(), BulkFault>
        ensures ends { OnOk result (BucketEnds self.old self.new uppers.now) }
        ensures fault { IfErr result (λ e. e ≡ fault.Memory) }
    {
        if !self.notes {
            return Ok(());
        }
        self.limits
            .add_bucket(uppers.limits.bucket, uppers.runs.as_slice())
    }

    /// Returns the limits, and leaves none.
    pub(crate) fn take_limits(&mut self, alloc: Global) -> Limits
        ensures { result ≡ self.old.limits }
    {
        mem::replace(&mut self.limits, Limits::none(alloc))
    }
}
