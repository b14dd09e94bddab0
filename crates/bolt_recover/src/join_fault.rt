//! Why there is no joined listing of a damaged file.
ghost use Rattle.std.specs.Prelude.{◌≡◌};
ghost use Rattle.bolt_recover.specs.declared.join_fault.JoinFault.TheVariants as faults;

use bolt_check::{Finding, NoMemory};

/// Why there is no joined listing of a damaged file (docs/RECOVERY.md, "The joined listing").
#[derive(Clone, Copy, Debug, PartialEq, Eq)]
pub enum JoinFault {
    /// The root page is lost, with this finding, and no page is found.
    Rootless(Finding),
    /// A page is found, and the recovered root bucket has an entry `lost+found`.
    Exists,
    /// The file has more pages than numbers of sixteen digits can name.
    TooManyPages,
    /// Memory ran out.
    Memory,
}

impl From<NoMemory> for JoinFault {
    ghost from_gives = { λ _ fault. fault ≡ faults.Memory };

    fn from(_fault: NoMemory) -> Self {
        JoinFault::Memory
    }
}
