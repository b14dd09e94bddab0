//! What is wrong with a file apart from its pages.
ghost use Rattle.std.specs.Prelude.{◌≡◌, ◌≤◌, IfOk};
ghost use Rattle.bolt_format.specs.{Endings.ending, Wrote.Wrote};
ghost use Rattle.bolt_commands.specs.FileFaults.{AreCopyFaults, AreFileFaults, IsMetasFault, errors_in, fault_lines, hash_lines};
ghost use Rattle.bolt_commands.specs.FileFaults.{is_fine, no_faults, other_meta_lines};
ghost use Rattle.bolt_commands.specs.SnapshotAnswers.{bad_hash, asked_hash_fault};
ghost use Rattle.bolt_job.specs.CopyKinds.{is_snapshot};

use crate::other_meta::OtherMeta;
use bolt_etcd::{SnapshotFault, snapshot_fault};
use bolt_format::{Sink, SinkFault};
use bolt_job::{CopyKind, Extent, MetaChoice};
use bolt_report::{put_slot_fault, put_snapshot_fault};

/// What is wrong with a file apart from its pages.
#[derive(Clone, Copy)]
pub(crate) struct FileFaults {
    /// What is wrong with the hash, if the file is to be a snapshot.
    pub hash: Option<SnapshotFault>,
    /// The meta in the slot that isn't in use, if it is looked at and refused.
    pub other: Option<OtherMeta>,
}

impl FileFaults {
    /// Nothing is wrong.
    pub(crate) fn none() -> FileFaults
        ensures { result ≡ no_faults }
    {
        FileFaults {
            hash: None,
            other: None,
        }
    }

    /// Whether nothing is wrong.
    pub(crate) fn is_fine(self) -> bool
        ensures { result ≡ is_fine self }
    {
        self.hash.is_none() && self.other.is_none()
    }

    /// What a check to this extent looks at before the pages of the file.
    pub(crate) fn find(
        file: &[u8],
        extent: Extent,
        snapshot: bool,
        choice: MetaChoice,
    ) -> FileFaults
        ensures { AreFileFaults extent snapshot file.now choice result }
    {
        FileFaults {
            hash: asked_hash_fault(snapshot, file),
            other: metas_fault(extent, file, choice),
        }
    }

    /// What is reported of a file that is copied to this extent.
    pub(crate) fn of_copy(
        file: &[u8],
        kind: CopyKind,
        extent: Extent,
        choice: MetaChoice,
    ) -> FileFaults
        ensures { AreCopyFaults extent kind file.now choice result }
    {
        FileFaults {
            hash: bad_hash(kind, file),
            other: metas_fault(extent, file, choice),
        }
    }
}

/// What is wrong with the hash that a file has, if a snapshot is to be made of the file. The copy would
/// have a right hash.
fn bad_hash(kind: CopyKind, file: &[u8]) -> Option<SnapshotFault>
    ensures { result ≡ bad_hash (is_snapshot kind) file.now }
{
    if !kind.is_snapshot() {
        return None;
    }
    match snapshot_fault(file) {
        Some(SnapshotFault::HashMissing) => None,
        fault => fault,
    }
}

/// What is wrong with the hash, if the file is to be a snapshot.
fn asked_hash_fault(snapshot: bool, file: &[u8]) -> Option<SnapshotFault>
    ensures { result ≡ asked_hash_fault snapshot file.now }
{
    if snapshot { snapshot_fault(file) } else { None }
}

/// Looks at both metas if all of the file is asked for, under its active meta: if the other one is
/// refused, the newest state may be lost with it.
pub(crate) fn metas_fault(extent: Extent, file: &[u8], choice: MetaChoice) -> Option<OtherMeta>
    ensures { IsMetasFault extent file.now choice result }
{
    match (extent, choice) {
        (Extent::Losses | Extent::FoundPages, MetaChoice::Active) => OtherMeta::find(file),
        _ => None,
    }
}

/// Writes a line for each of these faults, and returns how many they are.
pub(crate) fn put_file_faults<O: Sink>(faults: FileFaults, out: &mut O) -> Result<u64, SinkFault>
    ensures lines { Wrote O.Sink out.old out.new (fault_lines faults) (ending result) }
    ensures errors { IfOk result (λ errors. errors ≡ errors_in faults) }
    ensures few { IfOk result (λ errors. errors ≤ 2) }
{
    put_hash_line(faults.hash, out)?;
    put_other_line(faults.other, out)?;
    Ok(u64::from(faults.hash.is_some()) + u64::from(faults.other.is_some()))
}

/// Writes what is wrong with the hash, if anything is.
fn put_hash_line<O: Sink>(hash: Option<SnapshotFault>, out: &mut O) -> Result<(), SinkFault>
    ensures { Wrote O.Sink out.old out.new (hash_lines hash) (ending result) }
{
    match hash {
        Some(fault) => put_snapshot_fault(fault, out),
        None => Ok(()),
    }
}

fn put_other_line<O: Sink>(other: Option<OtherMeta>, out: &mut O) -> Result<(), SinkFault>
    ensures { Wrote O.Sink out.old out.new (other_meta_lines other) (ending result) }
{
    match other {
        Some(other) => put_slot_fault(other.slot, other.fault, out),
        None => Ok(()),
    }
}
