//! The numbers that a file contains, and its checksum.
ghost use Rattle.std.specs.Prelude.{◌≡◌, ◌+◌, ◌≤◌, length};
ghost use Rattle.bolt_format.specs.Bytes.{fnv_of, number_at};

use byteorder::{ByteOrder, LittleEndian};

const FNV_BASIS: u64 = 0xcbf2_9ce4_8422_2325;

const FNV_PRIME: u64 = 0x0100_0000_01b3;

/// The number in the 2 bytes from byte `at`.
#[tactic(auto, unfolding(crate::specs::Bytes::number_at))]
pub(crate) fn u16_at(bytes: &[u8], at: usize) -> u16
    requires { at + 2 ≤ length bytes.now }
    ensures { result ≡ number_at bytes.now at 2 }
{
    LittleEndian::read_u16(&bytes[at..])
}

/// The number in the 4 bytes from byte `at`.
#[tactic(auto, unfolding(crate::specs::Bytes::number_at))]
pub(crate) fn u32_at(bytes: &[u8], at: usize) -> u32
    requires { at + 4 ≤ length bytes.now }
    ensures { result ≡ number_at bytes.now at 4 }
{
    LittleEndian::read_u32(&bytes[at..])
}

/// The number in the 8 bytes from byte `at`.
#[tactic(auto, unfolding(crate::specs::Bytes::number_at))]
pub(crate) fn u64_at(bytes: &[u8], at: usize) -> u64
    requires { at + 8 ≤ length bytes.now }
    ensures { result ≡ number_at bytes.now at 8 }
{
    LittleEndian::read_u64(&bytes[at..])
}

/// The 64-bit FNV-1a checksum of the bytes (docs/FORMAT.md, "Checksum").
#[tactic(auto, unfolding(crate::specs::Bytes::fnv_step, crate::specs::Bytes::fnv_of))]
pub fn fnv1a(bytes: &[u8]) -> u64
    ensures { result ≡ fnv_of bytes.now }
{
    let mut hash = FNV_BASIS;
    for byte in bytes {
        hash = (hash ^ u64::from(*byte)).wrapping_mul(FNV_PRIME);
    }
    hash
}
