//! The roles of all pages of a sound file: it is tested again, and now nothing is found.
ghost use Rattle.std.specs.Prelude.{◌≡◌, IfOk, true};
ghost use Rattle.bolt_check.specs.{CheckedFiles.has_accounts, Private.SearchFaults.is_memory, RoledFiles.roles_checked};

use crate::check_fault::{CheckFault, NoMemory};
use crate::checked::Checked;
use crate::role_table::Roles;
use crate::sound::test_file;
use std::alloc::Global;

/// The fault of a test that finds nothing: memory ran out.
fn only_memory(_fault: CheckFault) -> NoMemory
    requires { is_memory _fault ≡ true }
{
    NoMemory
}

/// The roles of all pages of a file (docs/SOUND.md, "Roles"). Its accounts were tested too.
///
/// # Errors
///
/// `NoMemory` if memory runs out. It needs memory as `check` does.
#[tactic(auto, using(crate::proofs::RoleFacts::sound_accounts), unfolding(crate::specs::RoledFiles::roles_checked, crate::specs::CheckedFiles::checked_viewers))]
pub fn roles<'a>(alloc: Global, checked: Checked<'a>) -> Result<Roles<'a>, NoMemory>
    requires { has_accounts checked ≡ true }
    ensures { IfOk result (λ roles. roles_checked roles ≡ checked.entry) }
{
    match test_file(alloc, checked.bytes, &checked.meta) {
        Ok(table) => Ok(Roles { checked, table }),
        Err(fault) => Err(only_memory(fault)),
    }
}
