//! Why a call gives no result.

use bolt_check::{CheckFault, NoMemory};
use bolt_report::ReportFault;
use hex::FromHexError;
use std::alloc::{AllocError, AllocFailed};
use std::io;

/// Why a call gives no result, in words.
#[derive(Clone, Copy)]
pub struct Fault {
    pub what: &'static str,
    /// At which byte, call or length something happened that must not happen.
    pub at: Option<usize>,
}

impl Fault {
    pub const MEMORY: Fault = Fault {
        what: "out of memory",
        at: None,
    };

    /// An unknown word, or a file that can't be read or isn't sound.
    pub const UNREAD: Fault = Fault {
        what: "can't be read",
        at: None,
    };

    /// A request for memory was refused, and when.
    pub fn refused(what: &'static str) -> Fault {
        Fault { what, at: None }
    }
}

/// A fault at this byte, call or length, unless what must hold there does.
pub fn require(holds: bool, what: &'static str, at: usize) -> Result<(), Fault> {
    if holds {
        return Ok(());
    }
    Err(Fault { what, at: Some(at) })
}

impl From<AllocError> for Fault {
    fn from(_: AllocError) -> Fault {
        Fault::MEMORY
    }
}

impl<T: Drop> From<AllocFailed<T>> for Fault {
    fn from(_: AllocFailed<T>) -> Fault {
        Fault::MEMORY
    }
}

impl From<NoMemory> for Fault {
    fn from(_: NoMemory) -> Fault {
        Fault::MEMORY
    }
}

impl From<CheckFault> for Fault {
    fn from(fault: CheckFault) -> Fault {
        match fault {
            CheckFault::Memory => Fault::MEMORY,
            _ => Fault::UNREAD,
        }
    }
}

/// The libraries write their texts to memory, which is all that can run out.
impl From<ReportFault> for Fault {
    fn from(_: ReportFault) -> Fault {
        Fault::MEMORY
    }
}

impl From<FromHexError> for Fault {
    fn from(fault: FromHexError) -> Fault {
        match fault {
            FromHexError::OutOfMemory => Fault::MEMORY,
            _ => Fault::UNREAD,
        }
    }
}

impl From<io::Error> for Fault {
    fn from(error: io::Error) -> Fault {
        match error.kind() {
            io::ErrorKind::OutOfMemory => Fault::MEMORY,
            _ => Fault::UNREAD,
        }
    }
}
