//! Why nothing is recovered of a file.
ghost use Rattle.std.specs.Prelude.{◌≡◌};
ghost use Rattle.bolt_recover.specs.Refusals.{root_refusal};
ghost use Rattle.bolt_recover.specs.declared.root_fault.RootFault.TheVariants as faults;

use bolt_check::{CheckFault, Finding, NoMemory};
use std::alloc::AllocError;

/// Why nothing is recovered of a file under a meta (docs/RECOVERY.md, "The recovering walk").
#[derive(Clone, Copy, Debug, PartialEq, Eq)]
pub enum RootFault {
    /// The root page is lost, with this finding.
    Lost(Finding),
    /// Memory ran out.
    Memory,
}

impl From<Finding> for RootFault {
    ghost from_gives = { λ finding fault. fault ≡ faults.Lost finding };

    fn from(finding: Finding) -> Self {
        RootFault::Lost(finding)
    }
}

impl From<AllocError> for RootFault {
    ghost from_gives = { λ _ fault. fault ≡ faults.Memory };

    fn from(_error: AllocError) -> Self {
        RootFault::Memory
    }
}

impl From<NoMemory> for RootFault {
    ghost from_gives = { λ _ fault. fault ≡ faults.Memory };

    fn from(_fault: NoMemory) -> Self {
        RootFault::Memory
    }
}

impl From<RootFault> for CheckFault {
    ghost from_gives = { λ fault refusal. refusal ≡ root_refusal fault };

    fn from(fault: RootFault) -> Self {
        match fault {
            RootFault::Lost(finding) => CheckFault::Structure(finding),
            RootFault::Memory => CheckFault::Memory,
        }
    }
}
