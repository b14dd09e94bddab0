//! Why a file is refused, and that memory ran out.
ghost use Rattle.std.specs.Prelude.{◌≡◌};
ghost use Rattle.bolt_check.specs.declared.check_fault.CheckFault.TheVariants as refused;

use crate::finding::Finding;
use crate::finding_list::Findings;
use bolt_format::MetaFault;
use std::alloc::AllocError;
use std::error::Error;
use std::fmt;
use thiserror::Error;

/// Why a file is refused.
#[derive(Debug, Drop, Error)]
pub enum CheckFault {
    /// There is no valid meta. This is the fault of byte 0 or, for a named slot, the slot's own.
    #[error("no valid meta")]
    Open(MetaFault),
    /// The trees aren't sound: the first finding.
    #[error("structure")]
    Structure(Finding),
    /// The trees are sound, but the accounts are wrong: all findings. Only `check`, `check_roles` and
    /// `check_claimed` return it.
    #[error("accounts")]
    Accounts(Findings),
    /// Memory ran out.
    #[error("out of memory")]
    Memory,
}

impl From<MetaFault> for CheckFault {
    ghost from_gives = { λ fault gives. gives ≡ refused.Open fault };

    fn from(fault: MetaFault) -> Self {
        CheckFault::Open(fault)
    }
}

impl From<Finding> for CheckFault {
    ghost from_gives = { λ finding gives. gives ≡ refused.Structure finding };

    fn from(finding: Finding) -> Self {
        CheckFault::Structure(finding)
    }
}

impl From<AllocError> for CheckFault {
    ghost from_gives = { λ _ fault. fault ≡ refused.Memory };

    fn from(_error: AllocError) -> Self {
        CheckFault::Memory
    }
}

/// Memory ran out.
#[derive(Clone, Copy, Debug, PartialEq, Eq)]
pub struct NoMemory;

impl fmt::Display for NoMemory {
    ghost use Rattle.std.specs.Prelude.{Some, codes};

    ghost output = { λ _. Some (codes "out of memory") };

    fn fmt<W: fmt::Write>(&self, f: &mut fmt::Formatter<W>) -> fmt::Result {
        f.write_str("out of memory")
    }
}

impl Error for NoMemory {}

impl From<AllocError> for NoMemory {
    fn from(_error: AllocError) -> NoMemory {
        NoMemory
    }
}
