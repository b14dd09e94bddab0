//! The other meta of a file: the one in the slot that isn't in use.
ghost use Rattle.bolt_commands.specs.FileFaults.{IsOtherFault};

use bolt_format::{MetaFault, Slot, choose, slot_meta};

/// Why the other meta of a file is refused. The newest state may be lost with it (docs/RECOVERY.md, "The
/// other meta").
#[derive(Clone, Copy)]
pub struct OtherMeta {
    /// The slot that isn't in use.
    pub slot: Slot,
    /// Why it has no valid meta.
    pub fault: MetaFault,
}

impl OtherMeta {
    /// The other meta of a file, if the file has an active one and the other is refused.
    pub(crate) fn find(file: &[u8]) -> Option<OtherMeta>
        ensures { IsOtherFault file.now result }
    {
        let Ok((slot, _)) = choose(file) else {
            return None;
        };
        let other = match slot {
            Slot::Zero => Slot::One,
            Slot::One => Slot::Zero,
        };
        match slot_meta(file, other) {
            Ok(_) => None,
            Err(fault) => Some(OtherMeta { slot: other, fault }),
        }
    }
}
