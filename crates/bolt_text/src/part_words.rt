//! Words that are read: a number in decimal, and a part of a path.
ghost use Rattle.std.specs.Prelude.{◌≡◌, ◌⊎◌, IfErr, IfOk, None, Some};
ghost use Rattle.hex.specs.{declared.error.FromHexError.TheVariants.OutOfMemory};
ghost use Rattle.bolt_text.specs.{Numbers.number_in, PartWords.mixed_in, PartWords.part_by};

use hex::FromHexError;
use std::alloc::Global;
use std::str;

/// The number below 2^64 that these digits stand for.
pub fn read_number(word: &[u8]) -> Option<u64>
    ensures { result ≡ number_in word.now }
{
    // `parse` would accept a plus before the digits.
    if word.first() == Some(&b'+') {
        return None;
    }
    str::from_utf8(word).ok()?.parse().ok()
}

/// How the parts of a path are written in words.
#[derive(Clone, Copy)]
pub enum Parts {
    /// As they are.
    Text,
    /// In hexadecimal.
    Hex,
    /// In hexadecimal after `0x`, and otherwise as they are.
    Mixed,
}

impl Parts {
    /// The part that a word stands for.
    ///
    /// # Errors
    ///
    /// `OutOfMemory` if memory ran out. Any other error says what isn't hexadecimal in the word.
    pub fn read(self, alloc: Global, word: &str) -> Result<Vec<u8>, FromHexError>
        ensures read { IfOk result (λ part. part_by self word.now ≡ Some part.items) }
        ensures refused { IfErr result (λ fault. (fault ≡ OutOfMemory)
            ⊎ (part_by self word.now ≡ None)) }
    {
        match self {
            Parts::Text => Ok(word.as_bytes().to_vec(alloc)?),
            Parts::Hex => hex::decode(alloc, word.as_bytes()),
            Parts::Mixed => read_mixed(alloc, word.as_bytes()),
        }
    }
}

/// A part that is in hexadecimal after `0x`, and otherwise as it is.
fn read_mixed(alloc: Global, word: &[u8]) -> Result<Vec<u8>, FromHexError>
    ensures read { IfOk result (λ part. mixed_in word.now ≡ Some part.items) }
    ensures refused { IfErr result (λ fault. (fault ≡ OutOfMemory) ⊎ (mixed_in word.now ≡ None)) }
{
    match word.strip_prefix(b"0x") {
        Some(digits) => hex::decode(alloc, digits),
        None => Ok(word.to_vec(alloc)?),
    }
}
