//! What bbolt fails on in a file as a whole, though the file is sound (docs/SOUND.md, "For bbolt").
ghost use Rattle.std.specs.Prelude.{◌≡◌, ◌<◌, ◌++◌, IfOk, OnOk};
ghost use Rattle.bolt_format.specs.{Metas.IsActive, declared.meta.Meta.Meta, declared.meta.Slot.Slot};
ghost use Rattle.bolt_check.specs.BboltFileFindings.{file_finding_if, file_findings, meta_page_findings, takes};

use crate::check_fault::NoMemory;
use bolt_format::{Meta, Slot, bbolt_page_size, bbolt_slot, choose, has_meta_header};
use std::alloc::{AllocError, Global};

/// What bbolt fails on in a file as a whole.
#[derive(Clone, Copy, Debug, PartialEq, Eq)]
pub enum FileFinding {
    /// The active meta is in this slot. bbolt takes the other one, or none, or another page size.
    NotTaken(Slot),
    /// The active meta is in this slot. Its transaction id is 2^63 or more.
    LargeTxid(Slot),
    /// The page of this slot's meta has another number in its header, or other flags. bbolt's own check
    /// panics.
    NotMetaPage(Slot),
    /// The pages from the first to the last are below the high-water mark, and don't end within the
    /// file.
    PastEnd(u64, u64),
}

/// A transaction id that is as great as this, or greater, begins at 0 again in bbolt.
const LARGE_TXID: u64 = 1 << 63;

/// What bbolt fails on in a file as a whole, if it is sound under its active meta (docs/SOUND.md, "For
/// bbolt").
///
/// # Errors
///
/// `NoMemory` if memory runs out for what is found.
pub fn bbolt_file_findings(alloc: Global, file: &[u8]) -> Result<Vec<FileFinding>, NoMemory>
    ensures { IfOk result (λ findings. (slot : Slot) (meta : Meta) → IsActive file.now slot meta
        → findings.items ≡ file_findings file.now slot meta) }
{
    let mut findings = Vec::new(alloc);
    if let Ok((slot, meta)) = choose(file) {
        find_under(file, slot, &meta, &mut findings)?;
    }
    Ok(findings)
}

/// Adds what is found under the meta of this slot.
fn find_under(
    file: &[u8],
    slot: Slot,
    meta: &Meta,
    findings: &mut Vec<FileFinding>,
) -> Result<(), AllocError>
    requires { 0 < meta.now.page_size }
    ensures { OnOk result (findings.new.items
        ≡ findings.old.items ++ file_findings file.now slot meta.now) }
{
    let is_taken = takes(file, slot, meta.page_size);
    add_file_finding_if(!is_taken, FileFinding::NotTaken(slot), findings)?;
    let is_large = meta.txid >= LARGE_TXID;
    add_file_finding_if(is_large, FileFinding::LargeTxid(slot), findings)?;
    add_meta_page(file, Slot::Zero, meta.page_size, findings)?;
    add_meta_page(file, Slot::One, meta.page_size, findings)?;
    let whole = file.len() as u64 / u64::from(meta.page_size);
    if whole < meta.high_water {
        findings.push(FileFinding::PastEnd(whole, meta.high_water - 1))?;
    }
    Ok(())
}

/// Whether bbolt takes the meta of this slot, at this page size.
fn takes(file: &[u8], slot: Slot, page_size: u32) -> bool
    ensures { result ≡ takes file.now slot page_size }
{
    bbolt_slot(file) == Some(slot) && bbolt_page_size(file) == page_size
}

/// Adds what is found in the header of a slot's page.
fn add_meta_page(
    file: &[u8],
    slot: Slot,
    page_size: u32,
    findings: &mut Vec<FileFinding>,
) -> Result<(), AllocError>
    ensures { OnOk result (findings.new.items
        ≡ findings.old.items ++ meta_page_findings file.now slot page_size) }
{
    let has_header = has_meta_header(file, slot, page_size);
    add_file_finding_if(!has_header, FileFinding::NotMetaPage(slot), findings)
}

/// Adds a finding, if there is one.
fn add_file_finding_if(
    is_wrong: bool,
    finding: FileFinding,
    findings: &mut Vec<FileFinding>,
) -> Result<(), AllocError>
    ensures { OnOk result (findings.new.items
        ≡ findings.old.items ++ file_finding_if is_wrong finding) }
{
    if is_wrong {
        findings.push(finding)?;
    }
    Ok(())
}
