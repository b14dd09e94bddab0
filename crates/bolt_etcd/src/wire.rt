//! The wire format of protocol buffers: a message is a list of fields, each a tag and a value.
ghost use Rattle.std.specs.Prelude.{◌<◌, ◌≤◌, IfSome, length};
ghost use Rattle.bolt_etcd.specs.{Wire.Records.bytes_in, Wire.Records.varint_in, Private.Returns.Returns, Wire.ShownRecords.before};
ghost use Rattle.bolt_etcd.specs.{Wire.ShownRecords.shown_field, Wire.ShownRecords.shown_value};
ghost use Rattle.bolt_etcd.specs.Wire.Fields.{field, first, value, varint};

pub(crate) mod name_tag;
pub(crate) mod numbered_entry;
pub(crate) mod record;
pub(crate) mod revision;
pub(crate) mod revision_key;
pub(crate) mod unread_entry;

/// The greatest number of bytes in a varint.
const MAX_VARINT_LEN: u32 = 10;

/// What a field holds.
#[derive(Clone, Copy)]
pub(crate) enum Value<'a> {
    /// A number.
    Varint(u64),
    /// As many bytes as a varint before them says.
    LengthDelimited(&'a [u8]),
    /// Four or eight bytes, which no field of a record has.
    Fixed,
}

/// A field of a message.
#[derive(Clone, Copy)]
pub(crate) struct Field<'a> {
    pub number: u64,
    pub value: Value<'a>,
}

impl<'a> Value<'a> {
    /// The number, if it is a varint.
    pub fn number(self) -> Option<u64>
        ensures { Returns (λ n. n) result (varint_in (shown_value self.entry)) }
    {
        match self {
            Value::Varint(n) => Some(n),
            _ => None,
        }
    }

    /// The bytes, if they are length-delimited.
    pub fn bytes(self) -> Option<&'a [u8]>
        ensures { Returns (λ bytes. bytes.now) result (bytes_in (shown_value self.entry)) }
    {
        match self {
            Value::LengthDelimited(bytes) => Some(bytes),
            _ => None,
        }
    }
}

/// Reads the field that the bytes begin with, and returns it with the bytes after it. Returns
/// `None` if they begin with none: if a varint or a value doesn't end in these bytes, or if the
/// field number is 0 or the wire type isn't one of 0, 1, 2 and 5.
#[tactic(auto, unfolding(crate::specs::Wire::Fields::field))]
pub(crate) fn read_field(bytes: &[u8]) -> Option<(Field<'_>, &[u8])>
    ensures read { Returns (before shown_field) result (field bytes.now) }
    ensures shorter { IfSome result (λ x. length x.1.now < length bytes.now) }
{
    let (tag, rest) = read_varint(bytes)?;
    let number = tag >> 3;
    if number == 0 {
        return None;
    }
    let (value, rest) = read_value(tag & 7, rest)?;
    Some((Field { number, value }, rest))
}

/// Reads a value of this wire type.
#[tactic(auto, unfolding(crate::specs::Wire::Fields::value))]
fn read_value(wire_type: u64, bytes: &[u8]) -> Option<(Value<'_>, &[u8])>
    ensures read { Returns (before shown_value) result (value wire_type bytes.now) }
    ensures no_longer { IfSome result (λ x. length x.1.now ≤ length bytes.now) }
{
    match wire_type {
        0 => {
            let (n, rest) = read_varint(bytes)?;
            Some((Value::Varint(n), rest))
        }
        1 => {
            let (_, rest) = read_bytes(8, bytes)?;
            Some((Value::Fixed, rest))
        }
        2 => {
            let (n, rest) = read_varint(bytes)?;
            let (text, rest) = read_bytes(n, rest)?;
            Some((Value::LengthDelimited(text), rest))
        }
        5 => {
            let (_, rest) = read_bytes(4, bytes)?;
            Some((Value::Fixed, rest))
        }
        _ => None,
    }
}

/// Splits the bytes after the n-th, if there are as many.
fn read_bytes(n: u64, bytes: &[u8]) -> Option<(&[u8], &[u8])>
    ensures read { Returns (before (λ front. front.now)) result (first n bytes.now) }
    ensures no_longer { IfSome result (λ x. length x.1.now ≤ length bytes.now) }
{
    bytes.split_at_checked(n as usize)
}

/// Reads a varint. Bits above the 64th are dropped. Most have one byte.
#[tactic(auto, using(crate::proofs::Varints::short))]
#[inline(always)]
fn read_varint(bytes: &[u8]) -> Option<(u64, &[u8])>
    ensures read { Returns (before (λ n. n)) result (varint bytes.now) }
    ensures shorter { IfSome result (λ x. length x.1.now < length bytes.now) }
{
    let (byte, rest) = bytes.split_first()?;
    if *byte < 128 {
        return Some((u64::from(*byte), rest));
    }
    read_bytewise(bytes)
}

/// Reads a varint of any length.
#[tactic(auto, using(crate::proofs::Varints::reading))]
fn read_bytewise(bytes: &[u8]) -> Option<(u64, &[u8])>
    ensures read { Returns (before (λ n. n)) result (varint bytes.now) }
    ensures shorter { IfSome result (λ x. length x.1.now < length bytes.now) }
{
    let mut value = 0;
    let mut rest = bytes;
    for i in 0..MAX_VARINT_LEN {
        let (byte, after) = rest.split_first()?;
        rest = after;
        value |= u64::from(*byte & 0x7F) << (7 * i);
        if *byte < 128 {
            return Some((value, rest));
        }
    }
    None
}
