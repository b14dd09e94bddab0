//! The key of a revision.
ghost use Rattle.std.specs.Prelude.{◌≡◌, IfSome};
ghost use Rattle.bolt_etcd.specs.Wire.RevisionKeys.{IsSpelled, revision_key};

use byteorder::{BigEndian, ByteOrder};

/// The number of bytes in a key that isn't that of a deletion.
pub(crate) const LEN: usize = 17;

/// The greatest number in a key.
const MAX: u64 = i64::MAX as u64;

/// The key of a revision. `main` numbers transactions, `sub` the revisions of one.
#[derive(Clone, Copy, Debug, PartialEq, Eq)]
pub struct RevisionKey {
    /// The transaction's number.
    pub main: u64,
    /// The number within the transaction, from 0.
    pub sub: u64,
    /// Whether the revision is a deletion.
    pub deleted: bool,
}

impl RevisionKey {
    /// Reads the key of a revision, or returns `None` if the bytes aren't one: eight bytes of
    /// `main`, `_`, eight bytes of `sub`, and for a deletion `t`. Both numbers are big-endian and
    /// below 2^63.
    #[tactic(auto, unfolding(crate::specs::Wire::RevisionKeys::revision_key))]
    pub fn read(bytes: &[u8]) -> Option<RevisionKey>
        ensures key { result ≡ revision_key bytes.now }
        ensures numbers { IfSome result IsSpelled }
    {
        let deleted = bytes.len() > LEN;
        if bytes.len() != LEN && (bytes.len() != LEN + 1 || bytes[LEN] != b't') {
            return None;
        }
        let main = BigEndian::read_u64(bytes);
        let sub = BigEndian::read_u64(&bytes[9..]);
        if bytes[8] != b'_' || main > MAX || sub > MAX {
            return None;
        }
        Some(RevisionKey { main, sub, deleted })
    }
}
