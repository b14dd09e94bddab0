//! Reads paths from the words of a command line, and hands them on.
ghost use Rattle.std.specs.Prelude.{◌≡◌, ◌==◌, IfErr, IfOk, length, map, option_map};
ghost use Rattle.bolt_tree.specs.Paths.{path_of};
ghost use Rattle.std.specs.List.{list_any, slice_split};
ghost use Rattle.bolt_job.specs.CommandLine.{ReadsAs};
ghost use Rattle.bolt_job.specs.PathWords.{each_part, hex_path_by, hex_path_of, part_of, prefix_of};
ghost use Rattle.bolt_job.specs.PlainWords.{owned_path};

use crate::refusal::Refusal;
use bolt_text::{Parts, ReportFault};
use hex::FromHexError;
use std::alloc::{AllocError, Global};

/// The path whose parts are these words.
pub(crate) fn read_path(
    alloc: Global,
    parts: Parts,
    words: &[&str],
) -> Result<Vec<Vec<u8>>, Refusal>
    ensures { ReadsAs (λ path. owned_path path.items)
        (each_part (part_of parts) (map (λ word. word.now) words.now)) result }
{
    let mut path = Vec::new(alloc);
    for word in words {
        path.push(read_part(alloc, parts, word)?)?;
    }
    Ok(path)
}

/// The part of a path that a word stands for.
pub(crate) fn read_part(alloc: Global, parts: Parts, word: &str) -> Result<Vec<u8>, Refusal>
    ensures { ReadsAs (λ part. part.items) (part_of parts word.now) result }
{
    match parts.read(alloc, word) {
        Ok(part) => Ok(part),
        Err(FromHexError::OutOfMemory) => Err(Refusal::Memory),
        Err(_) => Err(Refusal::Word("bad hex")),
    }
}

/// The bytes that keys begin with, by the value of `--prefix`.
pub(crate) fn read_prefix(
    alloc: Global,
    parts: Parts,
    word: Option<&str>,
) -> Result<Vec<u8>, Refusal>
    ensures { ReadsAs (λ prefix. prefix.items)
        (prefix_of parts (option_map (λ text. text.now) word.entry)) result }
{
    match word {
        Some(word) => read_part(alloc, parts, word),
        None => Ok(Vec::new(alloc)),
    }
}

/// The path at which a listing begins, by the value of `--from`.
pub(crate) fn read_from(alloc: Global, word: Option<&str>) -> Result<Vec<Vec<u8>>, Refusal>
    ensures { ReadsAs (λ path. owned_path path.items)
        (hex_path_by (option_map (λ text. text.now) word.entry)) result }
{
    match word {
        Some(word) => read_hex_path(alloc, word),
        None => Ok(Vec::new(alloc)),
    }
}

/// The path whose parts are in hexadecimal, between slashes.
fn read_hex_path(alloc: Global, word: &str) -> Result<Vec<Vec<u8>>, Refusal>
    ensures { ReadsAs (λ path. owned_path path.items) (hex_path_of word.now) result }
{
    let parts = cut_at_slashes(alloc, word)?;
    if has_empty(parts.as_slice()) {
        return Err(Refusal::Word("bad hex"));
    }
    read_path(alloc, Parts::Hex, parts.as_slice())
}

fn cut_at_slashes(alloc: Global, word: &str) -> Result<Vec<&str>, AllocError>
    ensures { IfOk result (λ parts.
        map (λ part. part.now) parts.items ≡ slice_split (λ byte. byte == 47) word.now) }
{
    word.split('/').collect(alloc)
}

fn has_empty(parts: &[&str]) -> bool
    ensures { result ≡ list_any (λ part. length part.now == 0) parts.now }
{
    parts.iter().any(|part| part.is_empty())
}

/// The parts of a path as slices.
///
/// # Errors
///
/// `NoMemory` if memory runs out.
pub fn path_slices<'a>(alloc: Global, parts: &'a [Vec<u8>]) -> Result<Vec<&'a [u8]>, ReportFault>
    ensures path { IfOk result (λ path. path_of path.items ≡ owned_path parts.now) }
    ensures memory { IfErr result (λ fault. fault ≡ ReportFault.NoMemory) }
{
    let mut path = Vec::new(alloc);
    for part in parts {
        path.push(part.as_slice())
            .map_err(|_| ReportFault::NoMemory)?;
    }
    Ok(path)
}
