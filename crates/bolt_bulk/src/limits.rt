//! How many runs the rows of a bucket's branches may have, in the balanced layout.
ghost use Rattle.std.specs.Prelude.{◌≡◌, ◌∷◌, ℕ, List, false, IfErr, None, OnOk, Some};
ghost use Rattle.bolt_layout.specs.Limits.{limits_from_ends};
ghost use Rattle.bolt_bulk.specs.Private.{bucket_limit, IsOtherRow, limit_in, NotesRows, run_end};
ghost use Rattle.bolt_bulk.specs.declared.bulk_fault.BulkFault.TheVariants as fault;

use crate::branch_run::BranchRun;
use crate::bulk_fault::BulkFault;
use std::alloc::Global;
use std::collections::BTreeMap;

/// The rows of branches that have a limit: only so many runs may begin after the first one, and the
/// last page joins the last run even if that has no room for it. A row is named by the number of
/// its bucket and by its level. Buckets are numbered in the order in which a pass opens them. Here only
/// levels of branches are numbered: the branches above the leaves are level 0.
#[derive(Drop)]
pub(crate) struct Limits {
    pub rows: BTreeMap<(u64, usize), u64>,
}

/// The limits of one bucket.
#[derive(Clone, Copy)]
pub(crate) struct BucketLimits<'a> {
    pub all: &'a Limits,
    pub bucket: u64,
}

/// How a row ends in the balanced layout.
#[derive(Clone, Copy)]
struct RowLimit {
    /// How many runs may begin after the first one. `None` if any number may.
    allowed: Option<u64>,
    /// Whether the row above loses its last item, because this row has one page less.
    loses: bool,
}

/// The limit of a row. `run` is the last open run of the row in the plain layout, and the page under
/// way joins it. If `lost` is set, this row itself has lost its last item.
fn row_limit(lost: bool, run: &BranchRun<'_>) -> RowLimit
    ensures { (rows : List (ℕ × ℕ)) → limits_from_ends lost (run_end run.now ∷ rows)
        ≡ result.allowed ∷ limits_from_ends result.loses rows }
{
    let before = run.elements.len();
    let single = if lost { 1 } else { 0 };
    if before == single && run.closed > 0 {
        return RowLimit {
            allowed: Some(run.closed - 1),
            loses: true,
        };
    }
    RowLimit {
        allowed: None,
        loses: lost && before == 0,
    }
}

impl Limits {
    /// No row has a limit.
    pub(crate) fn none(alloc: Global) -> Limits
        ensures { (bucket level : ℕ) → limit_in result bucket level ≡ None }
    {
        Limits {
            rows: BTreeMap::new(alloc),
        }
    }

    /// Limits a row: only `allowed` runs may begin after the first one.
    fn set(&mut self, bucket: u64, level: usize, allowed: u64) -> Result<(), BulkFault>
        ensures row { OnOk result (limit_in self.new bucket level ≡ Some allowed) }
        ensures others { OnOk result ((b l : ℕ) → IsOtherRow bucket level b l
            → limit_in self.new b l ≡ limit_in self.old b l) }
        ensures fault { IfErr result (λ e. e ≡ fault.Memory) }
    {
        self.rows.insert((bucket, level), allowed)?;
        Ok(())
    }

    /// Notes the limits of a bucket that ends, from its open runs in the plain layout. If a row
    /// would end in a run of a single item after another run, it has one run less, and the row
    /// above it loses its last item.
    pub(crate) fn add_bucket(
        &mut self,
        bucket: u64,
        runs: &[BranchRun<'_>],
    ) -> Result<(), BulkFault>
        ensures noted { OnOk result (NotesRows self.old self.new bucket runs.now) }
        ensures others { OnOk result ((b l : ℕ) → (b ≡ bucket → ⊥) → limit_in self.new b l
            ≡ limit_in self.old b l) }
        ensures fault { IfErr result (λ e. e ≡ fault.Memory) }
    {
        let mut lost = false;
        for level in 0..runs.len() {
            let limit = row_limit(lost, &runs[level]);
            if let Some(allowed) = limit.allowed {
                self.set(bucket, level, allowed)?;
            }
            lost = limit.loses;
        }
        Ok(())
    }
}

impl<'a> BucketLimits<'a> {
    /// How many runs may begin after the first one in the row of this level. `None` if any number
    /// may.
    pub(crate) fn at(&self, level: usize) -> Option<u64>
        ensures { result ≡ bucket_limit self.now level }
    {
        match self.all.rows.get(&(self.bucket, level)) {
            Some(allowed) => Some(*allowed),
            None => None,
        }
    }
}
