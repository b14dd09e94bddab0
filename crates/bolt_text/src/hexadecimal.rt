//! Lower-case hexadecimal written without memory for the whole text, and hexadecimal in either case read.
ghost use Rattle.std.specs.Prelude.{◌≡◌, ◌*◌, ◌/◌, ◌%◌, ◌<◌, ◌≤◌, ◌∷◌, [], MatchResult, Some, false, length, slice_index, true};
ghost use Rattle.std.specs.Bool.{OnTrue};
ghost use Rattle.std.specs.Char.{is_ascii_hexdigit};
ghost use Rattle.std.specs.Fmt.{digit_glyph, digits};
ghost use Rattle.hex.specs.Hex.{decode_sized, encode_lower, hex_digit_value, lower_digits};
ghost use Rattle.bolt_format.specs.{Endings.ending, Wrote.Wrote};

use bolt_format::{Sink, SinkFault};

/// The number of bytes that are encoded at a time.
const PART_LEN: usize = 256;

/// The number of bytes of a long text that are encoded at a time. Their digits are as many as the
/// program gathers before it writes them, so they are written at once, and not copied to what is
/// gathered.
const LONG_PART_LEN: usize = 1 << 15;

/// The most digits that a number has.
pub(crate) const NUMBER_LEN: usize = 16;

/// Writes bytes in hexadecimal, part by part.
pub(crate) fn put_hex<S: Sink>(bytes: &[u8], sink: &mut S) -> Result<(), SinkFault>
    ensures { Wrote S.Sink sink.old sink.new (encode_lower bytes.now) (ending result) }
{
    if bytes.len() < LONG_PART_LEN {
        put_hex_parts(bytes, &mut [0; 2 * PART_LEN], sink)
    } else {
        put_long_hex(bytes, sink)
    }
}

/// Writes many bytes in hexadecimal. Only this function's frame has the large buffer.
#[inline(never)]
fn put_long_hex<S: Sink>(bytes: &[u8], sink: &mut S) -> Result<(), SinkFault>
    ensures { Wrote S.Sink sink.old sink.new (encode_lower bytes.now) (ending result) }
{
    put_hex_parts(bytes, &mut [0; 2 * LONG_PART_LEN], sink)
}

/// Writes bytes in hexadecimal, as many at a time as the buffer has room for.
fn put_hex_parts<S: Sink>(bytes: &[u8], buffer: &mut [u8], sink: &mut S) -> Result<(), SinkFault>
    requires { 2 ≤ length buffer.old }
    ensures { Wrote S.Sink sink.old sink.new (encode_lower bytes.now) (ending result) }
{
    let most = buffer.len() / 2;
    let mut rest = bytes;
    while !rest.is_empty() {
        let part_len = rest.len().min(most);
        put_hex_part(&rest[..part_len], buffer, sink)?;
        rest = &rest[part_len..];
    }
    Ok(())
}

/// Writes a few bytes in hexadecimal, through a buffer.
fn put_hex_part<S: Sink>(part: &[u8], buffer: &mut [u8], sink: &mut S) -> Result<(), SinkFault>
    requires { 2 * length part.now ≤ length buffer.old }
    ensures { Wrote S.Sink sink.old sink.new (encode_lower part.now) (ending result) }
{
    sink.put(few_digits(part, buffer))
}

/// The digits of a few bytes, written to the front of a buffer.
pub(crate) fn few_digits<'a>(bytes: &[u8], buffer: &'a mut [u8]) -> &'a [u8]
    requires { 2 * length bytes.now ≤ length buffer.old }
    ensures { result.now ≡ encode_lower bytes.now }
{
    let digits = &mut buffer[..2 * bytes.len()];
    encode_digits(bytes, digits);
    digits
}

/// Writes two digits for each byte.
///
/// The library `hex` looks each digit up in a table. Digits that are computed without a table or a branch take a
/// quarter of the time or less, since the compiler makes sixteen at once.
pub(crate) fn encode_digits(bytes: &[u8], digits: &mut [u8])
    requires { length digits.old ≡ 2 * length bytes.now }
    ensures { digits.new ≡ encode_lower bytes.now }
{
    for i in 0..bytes.len() {
        let pair = byte_digits(bytes[i]);
        digits[2 * i] = pair[0];
        digits[2 * i + 1] = pair[1];
    }
}

/// The two digits of a byte, both computed in one number: its halves are the values of the digits, and those above 9
/// become letters, which come 39 characters after where the digits would go on.
fn byte_digits(byte: u8) -> [u8; 2]
    ensures { result
        ≡ slice_index lower_digits (byte / 16) ∷ slice_index lower_digits (byte % 16) ∷ [] }
{
    let byte = byte as u16;
    let values = byte / 16 + byte % 16 * 256;
    let letters = (values + 0x0606) / 16 & 0x0101;
    (values + 0x3030 + letters * 39).to_le_bytes()
}

/// The digits of a number without leading zeros, written to the end of a buffer.
pub(crate) fn number_digits(n: u64, buffer: &mut [u8; NUMBER_LEN]) -> &[u8]
    ensures { result.now ≡ digits 16 false n }
{
    let (mut rest, mut at) = (n, NUMBER_LEN - 1);
    'digits: while rest >= 16 {
        buffer[at] = digit_glyph(rest % 16);
        at -= 1;
        rest /= 16;
    }
    buffer[at] = digit_glyph(rest);
    &buffer[at..]
}

/// A digit of a number below 16.
fn digit_glyph(digit: u64) -> u8
    requires { digit < 16 }
    ensures { result ≡ digit_glyph false digit }
{
    if digit < 10 {
        b'0' + digit as u8
    } else {
        b'a' - 10 + digit as u8
    }
}

/// The value of a hexadecimal digit in either case. Of other bytes, it is any.
fn digit_value(digit: u8) -> u8
    ensures value { OnTrue (is_ascii_hexdigit digit) (hex_digit_value digit ≡ Some result) }
    ensures small { result < 16 }
{
    (digit % 16 + 9 * (digit / 64)) % 16
}

/// Decodes two digits for each byte of `out`. Returns whether they are all digits.
///
/// Decoding takes much of the time of a load. The library `hex` finds the value of a digit by branches,
/// which numerals and letters take in turns. Here nothing branches on a digit: the bytes of other digits are decoded
/// too, and only the result says that they aren't digits.
pub fn decode_digits(digits: &[u8], out: &mut [u8]) -> bool
    requires { length digits.now ≡ 2 * length out.old }
    ensures { MatchResult (decode_sized digits.now (length out.old)) (λ bytes. (result ≡ true)
        × (out.new ≡ bytes)) (λ _. result ≡ false) }
{
    let mut all = true;
    for i in 0..out.len() {
        let high = digits[2 * i];
        let low = digits[2 * i + 1];
        all = all & high.is_ascii_hexdigit() & low.is_ascii_hexdigit();
        out[i] = digit_value(high) * 16 + digit_value(low);
    }
    all
}
