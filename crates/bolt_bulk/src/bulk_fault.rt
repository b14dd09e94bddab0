//! Why there is no plan, or no whole copy.
ghost use Rattle.std.specs.Prelude.{◌≡◌};
ghost use Rattle.bolt_bulk.specs.declared.bulk_fault.BulkFault.TheVariants as bulk;
ghost use Rattle.bolt_bulk.specs.Private.{stopped_by};
ghost use Rattle.bolt_bulk.specs.declared.bulk_fault.PlanFault.TheVariants as planned;

use bolt_format::SinkFault;
use bolt_tree::NoMemory;
use std::alloc::{AllocError, AllocFailed};
use thiserror::Error;

/// Why a copy can't be planned.
#[derive(Clone, Copy, Debug, PartialEq, Eq, Error)]
pub enum PlanFault {
    /// Memory ran out.
    #[error("out of memory")]
    Memory,
    /// The layout would have 2^63 bytes or more.
    #[error("layout too large")]
    TooLarge,
}

impl From<NoMemory> for PlanFault {
    ghost from_gives = { λ _ fault. fault ≡ planned.Memory };

    fn from(_fault: NoMemory) -> Self {
        PlanFault::Memory
    }
}

/// Why a copy isn't written whole. The sink has accepted a prefix of it.
#[derive(Clone, Copy, Debug, PartialEq, Eq, Error)]
pub enum BulkFault {
    /// Memory ran out.
    #[error("out of memory")]
    Memory,
    /// The layout would have 2^63 bytes or more.
    #[error("layout too large")]
    TooLarge,
    /// The sink failed.
    #[error("write failed")]
    Sink,
}

impl From<SinkFault> for BulkFault {
    ghost from_gives = { λ _ fault. fault ≡ bulk.Sink };

    fn from(_fault: SinkFault) -> Self {
        BulkFault::Sink
    }
}

impl From<PlanFault> for BulkFault {
    ghost from_gives = { λ plan fault. fault ≡ stopped_by plan };

    fn from(fault: PlanFault) -> Self {
        match fault {
            PlanFault::Memory => BulkFault::Memory,
            PlanFault::TooLarge => BulkFault::TooLarge,
        }
    }
}

impl From<AllocError> for BulkFault {
    ghost from_gives = { λ _ fault. fault ≡ bulk.Memory };

    fn from(_error: AllocError) -> Self {
        BulkFault::Memory
    }
}

impl From<NoMemory> for BulkFault {
    ghost from_gives = { λ _ fault. fault ≡ bulk.Memory };

    fn from(_fault: NoMemory) -> Self {
        BulkFault::Memory
    }
}

impl<T: Drop> From<AllocFailed<T>> for BulkFault {
    ghost from_gives = { λ _ fault. fault ≡ bulk.Memory };

    fn from(_failed: AllocFailed<T>) -> Self {
        BulkFault::Memory
    }
}
