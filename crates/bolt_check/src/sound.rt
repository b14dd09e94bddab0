//! Is a whole file sound, and are the trees of one meta? That may be the active meta, the meta of a
//! slot, or one that is handed in.
ghost use Rattle.std.specs.Prelude.{◌≡◌, ◌↔◌, ◌<◌, ℕ, IfErr, IfOk, IsTrue, OnOk, false, length, true};
ghost use Rattle.bolt_format.specs.{Metas.IsActive, Metas.IsInSlot};
ghost use Rattle.bolt_check.specs.{CheckedFiles.bytes_of, CheckedFiles.has_accounts, CheckedFiles.meta_of, RoledFiles.roles_checked};
ghost use Rattle.bolt_check.specs.{Claims.HasClaimed, Claims.claims_file, Claims.claims_meta, TableLengths.table_length};
ghost use Rattle.bolt_check.specs.{Private.Freelists.ClaimsUses, Private.Freelists.IsUnlisted, Private.Tables.HasRoom};
ghost use Rattle.bolt_check.specs.Private.RoleTables.{AreUses, ClaimsUsed};
ghost use Rattle.bolt_check.specs.Sound.{HasRightAccounts, HasSoundTrees, IsRefused, IsRefusedFor, IsSlotRefused, IsSound, IsUsed};
ghost use Rattle.bolt_format.specs.declared.meta.Slot.{Slot};

use crate::accounts::test_accounts;
use crate::check_fault::CheckFault;
use crate::checked::Checked;
use crate::claims::Claims;
use crate::finding_list::Findings;
use crate::role_table::Roles;
use crate::search::search;
use crate::table::PageUse;
use bolt_format::{Meta, Slot, choose, slot_meta};
use std::alloc::Global;

/// Tests a file under the active meta: its trees, and then its accounts (docs/SOUND.md).
///
/// It needs memory: a byte for each whole page that lies in the file and below the high-water mark,
/// room for the pages that are still to be visited, and room for the ids past the table.
///
/// # Errors
///
/// `Open` with the fault of byte 0 if no meta is valid; `Structure` with the first finding of the
/// trees; `Accounts` with all findings of the accounts, if the trees are sound; `Memory` if memory
/// runs out.
#[tactic(auto, unfolding(crate::specs::CheckedFiles::checked_viewers))]
pub fn check<'a>(alloc: Global, file: &'a [u8]) -> Result<Checked<'a>, CheckFault>
    ensures bytes { IfOk result (λ checked. bytes_of checked ≡ file.now) }
    ensures meta { IfOk result (λ checked. (slot : _) × IsActive file.now slot (meta_of checked)) }
    ensures sound { IfOk result (λ checked. IsSound file.now (meta_of checked) true) }
    ensures accounts { IfOk result (λ checked. has_accounts checked ≡ true) }
    ensures refused { IfErr result (IsRefused file.now) }
{
    let (_, meta) = choose(file)?;
    test_file(alloc, file, &meta)?;
    Ok(Checked {
        bytes: file,
        meta,
        accounts: true,
    })
}

/// Tests a file as `check` does, and returns the roles of its pages, which the tests have found.
///
/// # Errors
///
/// Those of `check`.
#[tactic(auto, unfolding(crate::specs::RoledFiles::roles_checked, crate::specs::CheckedFiles::checked_viewers))]
pub fn check_roles<'a>(alloc: Global, file: &'a [u8]) -> Result<Roles<'a>, CheckFault>
    ensures bytes { IfOk result (λ roles. bytes_of (roles_checked roles) ≡ file.now) }
    ensures meta { IfOk result (λ roles. (slot : _)
        × IsActive file.now slot (meta_of (roles_checked roles))) }
    ensures sound { IfOk result (λ roles. IsSound file.now (meta_of (roles_checked roles)) true) }
    ensures accounts { IfOk result (λ roles. has_accounts (roles_checked roles) ≡ true) }
    ensures refused { IfErr result (IsRefused file.now) }
{
    let (_, meta) = choose(file)?;
    let table = test_file(alloc, file, &meta)?;
    let checked = Checked {
        bytes: file,
        meta,
        accounts: true,
    };
    Ok(Roles { checked, table })
}

/// Tests the trees and the accounts of a file under a meta. Returns what its pages are used for.
pub(crate) fn test_file(alloc: Global, file: &[u8], meta: &Meta) -> Result<Vec<PageUse>, CheckFault>
    requires { 0 < meta.now.page_size }
    ensures trees { OnOk result (HasSoundTrees file.now meta.now) }
    ensures right { OnOk result (HasRightAccounts file.now meta.now) }
    ensures uses { IfOk result (λ table. ∥ AreUses file.now meta.now table.items ∥₁) }
    ensures refused { IfErr result (IsRefusedFor file.now meta.now true) }
{
    let mut table = search(alloc, file, meta)?;
    check_accounts(alloc, file, meta, &mut table)?;
    Ok(table)
}

/// Tests the accounts of a file whose trees are sound. In the table, the pages that ways lead to are
/// claimed. If the accounts are right, the table has the freelist's pages too.
fn check_accounts(
    alloc: Global,
    file: &[u8],
    meta: &Meta,
    table: &mut [PageUse],
) -> Result<(), CheckFault>
    requires trees { HasSoundTrees file.now meta.now }
    requires covered { ClaimsUsed file.now meta.now table.old }
    requires room { HasRoom file.now meta.now table.old }
    requires unlisted { IsUnlisted table.old }
    requires length { length table.old ≡ table_length file.now meta.now }
    ensures right { OnOk result (HasRightAccounts file.now meta.now) }
    ensures uses { OnOk result (ClaimsUses file.now meta.now table.old table.new) }
    ensures refused { IfErr result (IsRefusedFor file.now meta.now true) }
{
    let findings = test_accounts(alloc, file, meta, table)?;
    if let Some(findings) = Findings::of(findings) {
        return Err(CheckFault::Accounts(findings));
    }
    Ok(())
}

/// Reads a file whose trees are sound without a second search of them: exactly the pages that ways lead
/// to are claimed. Its accounts are tested if that is asked for.
///
/// # Errors
///
/// `Accounts` with all findings of the accounts; `Memory` if memory runs out. Never `Open` or
/// `Structure`.
#[tactic(auto, unfolding(crate::specs::CheckedFiles::checked_viewers, crate::specs::Claims::claims_viewers))]
pub fn check_claimed<'a>(
    alloc: Global,
    claims: Claims<'a>,
    accounts: bool,
) -> Result<Checked<'a>, CheckFault>
    requires trees { HasSoundTrees (claims_file claims) (claims_meta claims) }
    requires used { (n : ℕ) → HasClaimed claims n ↔ IsUsed (claims_file claims) (claims_meta claims) n }
    requires valid { IsTrue accounts → (slot : Slot) × IsInSlot (claims_file claims) slot (claims_meta claims) }
    ensures bytes { IfOk result (λ checked. bytes_of checked ≡ claims_file claims.entry) }
    ensures meta { IfOk result (λ checked. meta_of checked ≡ claims_meta claims.entry) }
    ensures accounts { IfOk result (λ checked. has_accounts checked ≡ accounts) }
    ensures right { OnOk result (IsTrue accounts
        → HasRightAccounts (claims_file claims.entry) (claims_meta claims.entry)) }
    ensures refused { IfErr result
        (IsRefusedFor (claims_file claims.entry) (claims_meta claims.entry) accounts) }
{
    let (bytes, meta) = (claims.file, claims.meta);
    if !accounts {
        return Ok(Checked {
            bytes,
            meta,
            accounts,
        });
    }
    let mut table = claims.table;
    check_accounts(alloc, bytes, &meta, &mut table)?;
    Ok(Checked {
        bytes,
        meta,
        accounts,
    })
}

/// Tests the trees of a file under the meta of a slot, active or not (docs/SOUND.md, "One meta
/// alone"). The accounts are ignored. It needs memory as `check` does, except for ids.
///
/// # Errors
///
/// `Open` with the slot's fault if it has no valid meta; `Structure` with the first finding of the
/// trees; `Memory` if memory runs out. Never `Accounts`.
pub fn check_slot<'a>(alloc: Global, file: &'a [u8], slot: Slot) -> Result<Checked<'a>, CheckFault>
    ensures bytes { IfOk result (λ checked. bytes_of checked ≡ file.now) }
    ensures meta { IfOk result (λ checked. IsInSlot file.now slot (meta_of checked)) }
    ensures trees { IfOk result (λ checked. HasSoundTrees file.now (meta_of checked)) }
    ensures accounts { IfOk result (λ checked. has_accounts checked ≡ false) }
    ensures refused { IfErr result (IsSlotRefused file.now slot) }
{
    check_under(alloc, file, slot_meta(file, slot)?)
}

/// Tests the trees of a file under a meta that is handed in (docs/SOUND.md, "One meta alone"). The
/// metas of the file are ignored, and so are its accounts. It needs memory as `check_slot` does.
///
/// # Errors
///
/// `Structure` with the first finding of the trees; `Memory` if memory runs out. Never `Open` or
/// `Accounts`.
#[tactic(auto, using(crate::proofs::Shaping::shape_of), unfolding(crate::specs::CheckedFiles::checked_viewers))]
pub fn check_under<'a>(alloc: Global, file: &'a [u8], meta: Meta) -> Result<Checked<'a>, CheckFault>
    requires { 0 < meta.page_size }
    ensures bytes { IfOk result (λ checked. bytes_of checked ≡ file.now) }
    ensures meta { IfOk result (λ checked. meta_of checked ≡ meta) }
    ensures trees { OnOk result (HasSoundTrees file.now meta) }
    ensures accounts { IfOk result (λ checked. has_accounts checked ≡ false) }
    ensures refused { IfErr result (IsRefusedFor file.now meta false) }
{
    search(alloc, file, &meta)?;
    Ok(Checked {
        bytes: file,
        meta,
        accounts: false,
    })
}
