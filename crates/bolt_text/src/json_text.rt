//! Keys, values and members of a listing as JSON texts.
ghost use Rattle.std.specs.Prelude.{◌≡◌, [], IfOk, ◌++◌, OnOk, flat_map};
ghost use Rattle.bolt_text.specs.Forms.{item_json, json_text};
ghost use Rattle.bolt_text.specs.JsonLines.{digits_tokens, json_line, end_json, member_json, parts_json};
ghost use Rattle.bolt_tree.specs.{Paths.path_of, ShownEntries.item_view};
ghost use Rattle.hex.specs.Hex.{encode_lower};
ghost use Rattle.json.specs.{Json.array, Token.key, Tree.json_tokens, Tree.members_tokens};

use crate::hexadecimal::encode_digits;
use bolt_tree::{Item, NoMemory};
use json::Writer;
use std::alloc::{AllocError, Global};
use std::{mem, str};

/// JSON texts, gathered one at a time in buffers that are kept from text to text.
#[derive(Drop)]
pub(crate) struct JsonText {
    alloc: Global,
    text: Vec<u8>,
    digits: Vec<u8>,
}

impl JsonText {
    /// Empty buffers, which need no memory.
    pub(crate) fn new(alloc: Global) -> JsonText {
        JsonText {
            alloc,
            text: Vec::new(alloc),
            digits: Vec::new(alloc),
        }
    }

    /// The text of a key or a value.
    pub(crate) fn item(&mut self, bytes: &[u8]) -> Result<&[u8], NoMemory>
        ensures { IfOk result (λ text. text.now ≡ json_text (item_json bytes.now)) }
    {
        let mut writer = self.writer();
        write_item(&mut writer, bytes, &mut self.digits)?;
        self.text = writer.into_inner();
        Ok(self.text.as_slice())
    }

    /// The line of a member of a listing.
    #[tactic(auto, unfolding(crate::specs::JsonLines::json_line))]
    pub(crate) fn line(&mut self, path: &[&[u8]], item: &Item<'_>) -> Result<&[u8], NoMemory>
        ensures { IfOk result (λ text.
            text.now ≡ json_line item_json (path_of path.now, item_view item.now)) }
    {
        let mut writer = self.writer();
        write_member(&mut writer, path, item, &mut self.digits)?;
        self.text = writer.into_inner();
        self.text.extend_from_slice(b"\n")?;
        Ok(self.text.as_slice())
    }

    /// A writer into the buffer of the text, which it takes.
    fn writer(&mut self) -> Writer
        ensures before { result.before ≡ [] }
        ensures tokens { result.tokens ≡ [] }
    {
        let mut text = mem::replace(&mut self.text, Vec::new(self.alloc));
        text.clear();
        Writer::new(text)
    }
}

/// Writes a key or a value.
fn write_item(writer: &mut Writer, bytes: &[u8], digits: &mut Vec<u8>) -> Result<(), AllocError>
    ensures before { writer.new.before ≡ writer.old.before }
    ensures tokens { OnOk result
        (writer.new.tokens ≡ writer.old.tokens ++ json_tokens (item_json bytes.now)) }
{
    match str::from_utf8(bytes) {
        Ok(text) => writer.string(text),
        Err(_) => put_digits_object(writer, bytes, digits),
    }
}

/// Writes an object with the hexadecimal digits of a key or a value.
fn put_digits_object(
    writer: &mut Writer,
    bytes: &[u8],
    digits: &mut Vec<u8>,
) -> Result<(), AllocError>
    ensures before { writer.new.before ≡ writer.old.before }
    ensures tokens { OnOk result
        (writer.new.tokens ≡ writer.old.tokens ++ digits_tokens bytes.now) }
{
    writer.begin_object()?;
    writer.key("hex")?;
    writer.string(hex_digits(bytes, digits)?)?;
    writer.end_object()
}

/// The hexadecimal digits of bytes, written into a buffer.
fn hex_digits<'a>(bytes: &[u8], buffer: &'a mut Vec<u8>) -> Result<&'a str, AllocError>
    ensures { IfOk result (λ text. text.now ≡ encode_lower bytes.now) }
{
    buffer.resize(2 * bytes.len(), 0)?;
    let digits = buffer.as_mut_slice();
    encode_digits(bytes, digits);
    Ok(str::from_utf8(digits).unwrap())
}

/// Writes a member of a listing.
fn write_member(
    writer: &mut Writer,
    path: &[&[u8]],
    item: &Item<'_>,
    digits: &mut Vec<u8>,
) -> Result<(), AllocError>
    ensures before { writer.new.before ≡ writer.old.before }
    ensures tokens { OnOk result
        (writer.new.tokens ≡ writer.old.tokens
        ++ json_tokens (member_json item_json (path_of path.now, item_view item.now))) }
{
    writer.begin_object()?;
    writer.key("path")?;
    write_path(writer, path, digits)?;
    write_end(writer, item, digits)
}

/// Writes the parts of a path as an array.
fn write_path(writer: &mut Writer, path: &[&[u8]], digits: &mut Vec<u8>) -> Result<(), AllocError>
    ensures before { writer.new.before ≡ writer.old.before }
    ensures tokens { OnOk result
        (writer.new.tokens ≡ writer.old.tokens
        ++ json_tokens (array (parts_json item_json (path_of path.now)))) }
{
    writer.begin_array()?;
    write_parts(writer, path, digits)?;
    writer.end_array()
}

/// Writes the parts of a path.
fn write_parts(writer: &mut Writer, path: &[&[u8]], digits: &mut Vec<u8>) -> Result<(), AllocError>
    ensures before { writer.new.before ≡ writer.old.before }
    ensures tokens { OnOk result
        (writer.new.tokens ≡ writer.old.tokens
        ++ flat_map (λ part. json_tokens (item_json part.now)) path.now) }
{
    for part in path {
        write_item(writer, part, digits)?;
    }
    Ok(())
}

/// Writes the value of a member, or the sequence of its bucket, and the end of the object.
fn write_end(writer: &mut Writer, item: &Item<'_>, digits: &mut Vec<u8>) -> Result<(), AllocError>
    ensures before { writer.new.before ≡ writer.old.before }
    ensures tokens { OnOk result
        (writer.new.tokens ≡ writer.old.tokens
        ++ members_tokens (end_json item_json (item_view item.now))) }
{
    match item {
        Item::Value(value) => {
            writer.key("value")?;
            write_item(writer, value, digits)?;
        }
        Item::Bucket { sequence } => {
            writer.key("bucket")?;
            writer.u64(*sequence)?;
        }
    }
    writer.end_object()
}
