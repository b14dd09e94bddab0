//! The elements of a page, whatever a run keeps of them: their headers, which are gathered and then
//! written five at a time, and then their data.
ghost use Rattle.std.specs.Prelude.{◌≡◌, ◌+◌, ◌*◌, ◌<◌, ◌≤◌, ◌++◌, ℕ, List, [], length};
ghost use Rattle.std.specs.List.{AllByRecursion};
ghost use Rattle.bolt_format.specs.{Encoded.branch_header, Encoded.leaf_header, declared.element.Leaf.Leaf};
ghost use Rattle.bolt_bulk.specs.Private.{Buffers, data_of, data_size, heads_from, length_end, WritesText};

use crate::page_pieces::put_unless_empty;
use arrayvec::ArrayVec;
use bolt_format::{Branch, ELEMENT_LEN, Leaf, Sink, SinkFault, branch_header, leaf_header};

/// How many bytes the buffer may have: those of five headers.
const BUFFER_LEN: usize = 80;

type Buffer = ArrayVec<u8, BUFFER_LEN>;

/// An element of a page, as a run keeps it. The value of one may depend on a list: the entries of
/// all inline buckets of the run.
pub(crate) trait Element {
    /// An element's header, by the distance from there to its key, and the lengths of its key and value.
    ghost head: { ℕ → ℕ → ℕ → Self → List ℕ };

    /// An element's key.
    ghost key: { Self → List ℕ };

    /// How many bytes its value has.
    ghost value_length: { Self → ℕ };

    /// Whether the list has what it needs.
    ghost is_held: { List Leaf → Self → Type 0 };

    /// An element's value.
    ghost value: { List Leaf → Self → List ℕ };

    /// An element's header.
    fn header(&self, pos: u32, key_len: u32, value_len: u32) -> [u8; ELEMENT_LEN]
        ensures { result ≡ head pos key_len value_len self.now };

    /// An element's key.
    fn key(&self) -> &[u8]
        ensures { result.now ≡ key self.now };

    /// How many bytes its value has.
    fn value_len(&self) -> usize
        ensures { result ≡ value_length self.now };

    /// Writes its value.
    fn put_value<S: Sink>(&self, inlined: &[Leaf<'_>], sink: &mut S) -> Result<(), SinkFault>
        requires { is_held inlined.now self.now }
        ensures { WritesText S.Sink sink.old sink.new (value inlined.now self.now) result };
}

impl Element for Leaf<'_> {
    ghost head = { λ pos key value leaf. leaf_header leaf.is_bucket pos key value };

    ghost key = { λ leaf. leaf.key.now };

    ghost value_length = { λ leaf. length leaf.value.now };

    ghost is_held = { λ inlined leaf. Unit {0} };

    ghost value = { λ inlined leaf. leaf.value.now };

    #[inline(always)]
    fn header(&self, pos: u32, key_len: u32, value_len: u32) -> [u8; ELEMENT_LEN] {
        leaf_header(self.is_bucket, pos, key_len, value_len)
    }

    #[inline(always)]
    fn key(&self) -> &[u8] {
        self.key
    }

    #[inline(always)]
    fn value_len(&self) -> usize {
        self.value.len()
    }

    fn put_value<S: Sink>(&self, _inlined: &[Leaf<'_>], sink: &mut S) -> Result<(), SinkFault> {
        put_unless_empty(self.value, sink)
    }
}

/// The data of a branch's element is its key alone.
impl Element for Branch<'_> {
    ghost head = { λ pos key value branch. branch_header pos key branch.child };

    ghost key = { λ branch. branch.key.now };

    ghost value_length = { λ branch. 0 };

    ghost is_held = { λ inlined branch. Unit {0} };

    ghost value = { λ inlined branch. [] };

    #[inline(always)]
    fn header(&self, pos: u32, key_len: u32, _value_len: u32) -> [u8; ELEMENT_LEN] {
        branch_header(pos, key_len, self.child)
    }

    #[inline(always)]
    fn key(&self) -> &[u8] {
        self.key
    }

    #[inline(always)]
    fn value_len(&self) -> usize {
        0
    }

    fn put_value<S: Sink>(&self, _inlined: &[Leaf<'_>], _sink: &mut S) -> Result<(), SinkFault> {
        Ok(())
    }
}

/// Makes room in the buffer for one more header. If it has none, it is written and emptied.
#[inline(always)]
fn put_full<S: Sink>(buffer: &mut Buffer, sink: &mut S) -> Result<(), SinkFault>
    ensures gathers { Buffers S.Sink sink.old sink.new buffer.old.items buffer.new.items result }
    ensures room { length buffer.new.items + ELEMENT_LEN ≤ BUFFER_LEN }
{
    if buffer.len() + ELEMENT_LEN <= BUFFER_LEN {
        return Ok(());
    }
    let done = put_unless_empty(buffer.as_slice(), sink);
    buffer.clear();
    done
}

/// Writes the headers of elements. All data of the elements is packed after the last header.
fn put_headers<E: Element, S: Sink>(elements: &[E], sink: &mut S) -> Result<(), SinkFault>
    requires { 16 * length elements.now + data_size E.key E.value_length elements.now < length_end }
    ensures { WritesText S.Sink sink.old sink.new
        (heads_from E.head E.key E.value_length 0 elements.now) result }
{
    let mut buffer = Buffer::new();
    let mut pos = ELEMENT_LEN * elements.len();
    for element in elements {
        put_full(&mut buffer, sink)?;
        let key = element.key().len();
        let value = element.value_len();
        let header = element.header(pos as u32, key as u32, value as u32);
        buffer.try_extend_from_slice(&header).unwrap();
        pos = pos - ELEMENT_LEN + key + value;
    }
    put_unless_empty(buffer.as_slice(), sink)
}

/// Writes the data of elements.
fn put_data<E: Element, S: Sink>(
    elements: &[E],
    inlined: &[Leaf<'_>],
    sink: &mut S,
) -> Result<(), SinkFault>
    requires { AllByRecursion (E.is_held inlined.now) elements.now }
    ensures { WritesText S.Sink sink.old sink.new
        (data_of E.key (E.value inlined.now) elements.now) result }
{
    for element in elements {
        put_unless_empty(element.key(), sink)?;
        element.put_value(inlined, sink)?;
    }
    Ok(())
}

/// Writes elements: their headers, and then their data. The list has the entries of inline buckets.
pub(crate) fn put_elements<E: Element, S: Sink>(
    elements: &[E],
    inlined: &[Leaf<'_>],
    sink: &mut S,
) -> Result<(), SinkFault>
    requires held { AllByRecursion (E.is_held inlined.now) elements.now }
    requires size { 16 * length elements.now + data_size E.key E.value_length elements.now
        < length_end }
    ensures { WritesText S.Sink sink.old sink.new
        (heads_from E.head E.key E.value_length 0 elements.now
        ++ data_of E.key (E.value inlined.now) elements.now) result }
{
    put_headers(elements, sink)?;
    put_data(elements, inlined, sink)
}
