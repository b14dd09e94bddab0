//! Why a damaged file isn't repaired.
ghost use Rattle.std.specs.Prelude.{◌≡◌};
ghost use Rattle.bolt_recover.specs.ShownLosses.{lost_view};
ghost use Rattle.bolt_repair.specs.RepairRefusals.{no_bucket_fault};
ghost use Rattle.bolt_repair.specs.declared.repair_fault.RepairFault.TheVariants as faults;

use bolt_check::{Finding, NoMemory};
use bolt_recover::Lost;

/// Why there is no repaired listing of a file (docs/RECOVERY.md, "The repaired listing").
#[derive(Clone, Copy, Debug, PartialEq, Eq)]
pub enum RepairFault {
    /// The root page is lost, with this finding, and nothing goes back.
    Rootless(Finding),
    /// The recovered root bucket has nothing under `key`, and nothing goes back.
    NoBucket,
    /// The recovered root bucket has a value `key`.
    NotABucket,
    /// Memory ran out.
    Memory,
}

impl RepairFault {
    /// Why there is no bucket to copy, if nothing goes back into it.
    pub(crate) fn of(lost: Lost<'_>) -> RepairFault
        ensures { result ≡ no_bucket_fault (lost_view lost.entry) }
    {
        match lost {
            Lost::Everything(finding) => RepairFault::Rootless(finding),
            Lost::Parts(_) => RepairFault::NoBucket,
        }
    }
}

impl From<NoMemory> for RepairFault {
    ghost from_gives = { λ _ fault. fault ≡ faults.Memory };

    fn from(_fault: NoMemory) -> Self {
        RepairFault::Memory
    }
}
