//! CRC-32C, the checksum of Castagnoli's polynomial.
ghost use Rattle.std.specs.Prelude.{◌≡◌};
ghost use Rattle.bolt_etcd.specs.Store.Crc32c.{IsTable, crc_begin, crc_bit, crc_bits, crc_end, crc_from};

/// The polynomial 0x1EDC6F41 with its bits in reverse order.
const POLYNOMIAL: u32 = 0x82F6_3B78;

/// The state before the first byte; the sum is the last state with its bits flipped.
const ALL_BITS: u32 = 0xFFFF_FFFF;

/// A CRC-32C of bytes that come piece by piece.
#[derive(Clone, Copy)]
pub struct Crc32c {
    /// What eight bits of each number leave.
    table: [u32; 256],
    state: u32,
    ghost right: { IsTable table },
}

#[tactic(auto, unfolding(crate::specs::Store::CrcStates::crc_state))]
impl Crc32c {
    ghost use Rattle.bolt_etcd.specs.Store.CrcStates.{crc_state};

    /// The CRC-32C of no bytes so far.
    pub fn new() -> Crc32c
        ensures { crc_state result ≡ crc_begin }
    {
        Crc32c {
            table: table(),
            state: ALL_BITS,
        }
    }

    /// Takes in more bytes.
    pub fn update(&mut self, bytes: &[u8])
        ensures { crc_state self.new ≡ crc_from (crc_state self.old) bytes.now }
    {
        for byte in bytes {
            let low = (self.state ^ u32::from(*byte)) & 0xFF;
            self.state = self.table[low as usize] ^ (self.state >> 8);
        }
    }

    /// The sum of all bytes so far.
    pub fn finish(&self) -> u32
        ensures { result ≡ crc_end (crc_state self.now) }
    {
        self.state ^ ALL_BITS
    }
}

/// What eight bits leave of each number below 256.
fn table() -> [u32; 256]
    ensures { IsTable result }
{
    let mut table = [0; 256];
    for index in 0..256_usize {
        table[index] = without_eight_bits(index as u32);
    }
    table
}

/// What is left of a number when its lowest eight bits have gone out.
fn without_eight_bits(number: u32) -> u32
    ensures { result ≡ crc_bits 8 number }
{
    let mut left = number;
    for bit in 0..8_u32 {
        left = without_bit(left);
    }
    left
}

/// What is left of a number when its lowest bit has gone out.
fn without_bit(number: u32) -> u32
    ensures { result ≡ crc_bit number }
{
    if number & 1 == 0 {
        number >> 1
    } else {
        (number >> 1) ^ POLYNOMIAL
    }
}
