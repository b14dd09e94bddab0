//! The open runs of pages above a bucket's leaves.
ghost use Rattle.std.specs.Prelude.{◌≡◌, ◌≤◌, [], OnOk, length};
ghost use Rattle.std.specs.List.{AllByRecursion};
ghost use Rattle.bolt_format.specs.ElementPlaces.{branch_view};
ghost use Rattle.bolt_bulk.specs.Private.{Climbs, ClosesAbove, IsSameWriter, IsStanding, longest_key, runs_above};

use crate::branch_run::BranchRun;
use crate::bulk_fault::BulkFault;
use crate::limits::BucketLimits;
use crate::page_writer::PageWriter;
use bolt_format::{Branch, Sink};
use std::alloc::Global;

/// The open runs above the leaves of a bucket, the lowest first, and how many runs their rows may
/// have.
#[derive(Drop)]
pub(crate) struct UpperRuns<'a> {
    pub runs: Vec<BranchRun<'a>>,
    pub limits: BucketLimits<'a>,
}

impl<'a> UpperRuns<'a> {
    /// No run yet.
    pub(crate) fn new(alloc: Global, limits: BucketLimits<'a>) -> UpperRuns<'a>
        ensures runs { result.runs.items ≡ [] }
        ensures limits { result.limits ≡ limits.entry }
    {
        UpperRuns {
            runs: Vec::new(alloc),
            limits,
        }
    }

    /// A page has closed, and the next page has this first key. The lowest run takes the page that
    /// has closed. If the next page doesn't join it, it closes too, and the run above it takes its
    /// page; and so on. If all runs close, a run of the next level begins above them.
    pub(crate) fn climb<S: Sink>(
        &mut self,
        key: &[u8],
        closed: Branch<'a>,
        writer: &mut PageWriter<'_, S>,
    ) -> Result<(), BulkFault>
        requires standing { AllByRecursion IsStanding (runs_above self.old.runs.items) }
        requires key { length key.now ≤ longest_key }
        requires closed { length closed.key.now ≤ longest_key }
        ensures same { IsSameWriter writer.old writer.new }
        ensures climbs { Climbs S.Sink writer.old writer.new key.now (branch_view closed.entry)
            self.old self.new result }
        ensures standing { OnOk result (AllByRecursion IsStanding
            (runs_above self.new.runs.items)) }
    {
        let mut closed = closed;
        for i in 0..self.runs.len() {
            match self.runs[i].take_page(key, closed, writer)? {
                None => return Ok(()),
                Some(up) => closed = up,
            }
        }
        let mut run = BranchRun::new(writer.setup.alloc, self.limits.at(self.runs.len()));
        run.push_page(closed)?;
        self.runs.push(run)?;
        Ok(())
    }

    /// Closes each run in turn, up to the root page, and returns the number of that page.
    pub(crate) fn close_all<S: Sink>(
        &mut self,
        closed: Branch<'a>,
        writer: &mut PageWriter<'_, S>,
    ) -> Result<u64, BulkFault>
        requires standing { AllByRecursion IsStanding (runs_above self.old.runs.items) }
        requires closed { length closed.key.now ≤ longest_key }
        ensures same { IsSameWriter writer.old writer.new }
        ensures closes { ClosesAbove S.Sink writer.old writer.new (branch_view closed.entry)
            (runs_above self.old.runs.items) result }
    {
        let mut closed = closed;
        for i in 0..self.runs.len() {
            closed = self.runs[i].take_last_page(closed, writer)?;
        }
        Ok(closed.child)
    }
}
