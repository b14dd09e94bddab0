//! etcd's snapshots: a database file, and then 32 bytes, the SHA-256 of all bytes before them. This file has
//! the check of that hash. The laws of what holds of a snapshot, of the bytes after the database and of
//! their hash, are in `laws.rt`.
ghost use Rattle.std.specs.Prelude.{◌≡◌, ◌↔◌, ◌<◌, ◌%◌, None, Some, length};
ghost use Rattle.bolt_etcd.specs.Check.SnapshotFaults.{IsSnapshot, hash_fault};

use sha2::{Digest, Sha256};

/// The number of bytes in a hash.
pub const HASH_LEN: u64 = 32;
/// A database file has whole blocks of this many bytes.
const BLOCK_LEN: u64 = 512;

/// Why a file is no snapshot (docs/COMMANDS.md, "Snapshots").
#[derive(Clone, Copy, Debug, PartialEq, Eq)]
pub enum SnapshotFault {
    /// The length of the file is a multiple of 512, so nothing comes after the database.
    HashMissing,
    /// The length of the file is neither a multiple of 512 nor 32 more than one.
    HashCutOff,
    /// The last 32 bytes aren't the SHA-256 of all bytes before them.
    HashDiffers,
}

/// Returns what is wrong with the hash at the end of a snapshot, or `None` if it is right. Nothing
/// is said of the database before it.
pub fn snapshot_fault(file: &[u8]) -> Option<SnapshotFault>
    ensures fault { result ≡ hash_fault file.now }
    ensures snapshot { result ≡ None ↔ IsSnapshot file.now }
{
    let length = file.len() as u64;
    let extra = length % BLOCK_LEN;
    if extra == 0 {
        return Some(SnapshotFault::HashMissing);
    }
    if extra != HASH_LEN {
        return Some(SnapshotFault::HashCutOff);
    }
    let (body, hash) = file.split_at((length - HASH_LEN) as usize);
    if Sha256::digest(body).as_slice() != hash {
        return Some(SnapshotFault::HashDiffers);
    }
    None
}
