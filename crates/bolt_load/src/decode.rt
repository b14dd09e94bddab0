//! Decodes what a text has in hexadecimal.
ghost use Rattle.std.specs.Prelude.{◌≡◌, ◌++◌, ◌∷◌, All, IfNone, IfOk, IfSome, OnOk, None, Some, is_some, option_map};
ghost use Rattle.std.specs.List.{list_any};
ghost use Rattle.bolt_tree.specs.Paths.{Path};
ghost use Rattle.bolt_text.specs.HexPaths.{hex_bytes_in, hex_path_in, part_in};
ghost use Rattle.bolt_load.specs.LineFaults.{is_long_key, shape_fault};
ghost use Rattle.bolt_text.specs.{LineMembers.line_member, Lines.lines_of};
ghost use Rattle.bolt_load.specs.Private.Decoding.{AddsDecoded, AreDecoded, StopsAt, member_bytes, path_bytes};
ghost use Rattle.bolt_text.specs.LineWords.{word_item, words_member};
ghost use Rattle.bolt_tree.specs.Entries as entries;
ghost use Rattle.bolt_load.specs.LineFaults as faults;

use crate::load_fault::LineFault;
use bolt_format::{MAX_KEY_LEN, MAX_VALUE_LEN};
use bolt_text::{ItemWord, LineWords, cut_at, decode_digits, first_line, words_of};
use bolt_tree::NoMemory;
use std::alloc::Global;

/// The lines of a text before the first that is no line of a listing or has a part that is too long,
/// and bytes that begin with what these lines have in hexadecimal.
#[derive(Drop)]
pub(crate) struct DecodedLines<'a> {
    pub text: &'a [u8],
    pub bytes: Vec<u8>,
    /// The fault of the line after these, if there is one.
    pub fault: Option<LineFault>,
}

/// Adds the bytes of a word in hexadecimal. Returns whether it is one.
fn decode_bytes(digits: &[u8], bytes: &mut Vec<u8>) -> Result<bool, NoMemory>
    ensures good { IfOk result (λ good. good ≡ is_some (hex_bytes_in digits.now)) }
    ensures added { OnOk result (AddsDecoded (hex_bytes_in digits.now) bytes.old.items bytes.new.items) }
{
    if !digits.len().is_multiple_of(2) {
        return Ok(false);
    }
    let start = bytes.len();
    bytes.resize(start + digits.len() / 2, 0)?;
    Ok(decode_digits(digits, &mut bytes[start..]))
}

/// Adds the bytes of a part of a path. Returns whether it is one.
fn decode_part(word: &[u8], bytes: &mut Vec<u8>) -> Result<bool, NoMemory>
    ensures good { IfOk result (λ good. good ≡ is_some (part_in word.now)) }
    ensures added { OnOk result (AddsDecoded (part_in word.now) bytes.old.items bytes.new.items) }
{
    if word.is_empty() {
        return Ok(false);
    }
    decode_bytes(word, bytes)
}

/// Adds the bytes of a path in hexadecimal. Returns whether it is one.
fn decode_path(word: &[u8], bytes: &mut Vec<u8>) -> Result<bool, NoMemory>
    ensures good { IfOk result (λ good.
        good ≡ is_some (option_map path_bytes (hex_path_in word.now))) }
    ensures added { OnOk result
        (AddsDecoded (option_map path_bytes (hex_path_in word.now)) bytes.old.items bytes.new.items) }
{
    let mut rest = word;
    while let Some((part, after)) = cut_at(b'/', rest) {
        if !decode_part(part, bytes)? {
            return Ok(false);
        }
        rest = after;
    }
    decode_part(rest, bytes)
}

/// Adds the bytes of a line. Returns whether all of its hexadecimal is.
fn decode_words(words: &LineWords<'_>, bytes: &mut Vec<u8>) -> Result<bool, NoMemory>
    ensures good { IfOk result (λ good.
        good ≡ is_some (option_map member_bytes (words_member words.now))) }
    ensures added { OnOk result
        (AddsDecoded (option_map member_bytes (words_member words.now)) bytes.old.items bytes.new.items) }
{
    if !decode_path(words.path, bytes)? {
        return Ok(false);
    }
    match words.item {
        ItemWord::Digits(digits) => decode_bytes(digits, bytes),
        ItemWord::Sequence(_) => Ok(true),
    }
}

fn has_long_key(word: &[u8]) -> bool
    ensures { (path : Path) → hex_path_in word.now ≡ Some path
        → result ≡ list_any is_long_key path }
{
    let mut rest = word;
    while let Some((part, after)) = cut_at(b'/', rest) {
        if part.len() / 2 > MAX_KEY_LEN {
            return true;
        }
        rest = after;
    }
    rest.len() / 2 > MAX_KEY_LEN
}

fn is_long_item(item: &ItemWord<'_>) -> bool
    ensures { (said : entries.Item) → word_item item.now ≡ Some said
        → result ≡ faults.is_long_item said }
{
    match item {
        ItemWord::Digits(digits) => digits.len() / 2 > MAX_VALUE_LEN,
        ItemWord::Sequence(_) => false,
    }
}

/// Adds the bytes of a line. Returns what is wrong with it, but for its place among the others.
fn add_line(line: &[u8], bytes: &mut Vec<u8>) -> Result<Option<LineFault>, NoMemory>
    ensures fault { IfOk result (λ fault. fault ≡ shape_fault line.now) }
    ensures added { OnOk result
        (AddsDecoded (option_map member_bytes (line_member line.now)) bytes.old.items bytes.new.items) }
{
    let Some(words) = words_of(line) else {
        return Ok(Some(LineFault::NotALine));
    };
    if !decode_words(&words, bytes)? {
        return Ok(Some(LineFault::NotALine));
    }
    if has_long_key(words.path) {
        return Ok(Some(LineFault::KeyTooLong));
    }
    if is_long_item(&words.item) {
        return Ok(Some(LineFault::ValueTooLong));
    }
    Ok(None)
}

/// Decodes the lines of a text up to the first that is wrong in itself.
pub(crate) fn decode(alloc: Global, text: &[u8]) -> Result<DecodedLines<'_>, NoMemory>
    ensures decoded { IfOk result (λ decoded.
        AreDecoded (lines_of decoded.text.now) decoded.bytes.items) }
    ensures shaped { IfOk result (λ decoded.
        All (λ line. shape_fault line ≡ None) (lines_of decoded.text.now)) }
    ensures all { IfOk result (λ decoded. IfNone decoded.fault (decoded.text.now ≡ text.now)) }
    ensures stopped { IfOk result (λ decoded.
        IfSome decoded.fault (StopsAt text.now decoded.text.now)) }
{
    let mut bytes = Vec::new(alloc);
    let mut rest = text;
    while let Some((line, after)) = first_line(rest) {
        let fault = add_line(line, &mut bytes)?;
        if fault.is_some() {
            return Ok(DecodedLines {
                text: &text[..text.len() - rest.len()],
                bytes,
                fault,
            });
        }
        rest = after;
    }
    Ok(DecodedLines {
        text,
        bytes,
        fault: None,
    })
}
