//! An item of an open run of a leaf: a key with a value, with an inline bucket, which is packed
//! anew, or with the root page of a bucket.
ghost use Rattle.std.specs.Prelude.{◌≡◌, length, ◌+◌, ◌*◌, ◌<◌, map};
ghost use Rattle.bolt_bulk.specs.Private.{is_stored_bucket, IsHeld, IsStored, length_end, stored_length, stored_value, WritesText};
ghost use Rattle.bolt_format.specs.{ElementPlaces.leaf_view, Encoded.leaf_header};
ghost use Rattle.bolt_layout.specs.PageBytes.{inline_value, leaf_data};

use crate::page_elements::{Element, put_elements};
use crate::page_pieces::put_unless_empty;
use bolt_format::{
    ELEMENT_LEN, HEAD_LEN, Kind, Leaf, Sink, SinkFault, bucket_head, leaf_header, page_header,
};

/// What is under a key in a copy.
#[derive(Clone, Copy)]
pub(crate) enum StoredItem<'a> {
    /// The bytes of a value.
    Value(&'a [u8]),
    /// A bucket with a root page.
    Root {
        page: u64,
        sequence: u64,
    },
    /// An inline bucket, whose value has `size` bytes. The run keeps the entries of all its inline
    /// buckets in one list. Those of this bucket are `count` entries, from entry `first` on.
    Inline {
        sequence: u64,
        first: usize,
        count: usize,
        size: usize,
    },
}

/// An item of a leaf.
#[derive(Clone, Copy)]
pub(crate) struct Held<'a> {
    pub key: &'a [u8],
    pub stored: StoredItem<'a>,
}

impl<'a> StoredItem<'a> {
    /// How many bytes the value has.
    pub(crate) fn len(&self) -> usize
        ensures { result ≡ stored_length self.now }
    {
        match *self {
            StoredItem::Value(value) => value.len(),
            StoredItem::Root { .. } => HEAD_LEN,
            StoredItem::Inline { size, .. } => size,
        }
    }

    /// Whether it is a bucket.
    pub(crate) fn is_bucket(&self) -> bool
        ensures { result ≡ is_stored_bucket self.now }
    {
        match *self {
            StoredItem::Value(_) => false,
            StoredItem::Root { .. } | StoredItem::Inline { .. } => true,
        }
    }

    /// Writes the value. The entries of inline buckets are in the list `inlined`.
    pub(crate) fn put<S: Sink>(&self, inlined: &[Leaf<'_>], sink: &mut S) -> Result<(), SinkFault>
        requires { IsStored inlined.now self.now }
        ensures { WritesText S.Sink sink.old sink.new (stored_value inlined.now self.now) result }
    {
        match *self {
            StoredItem::Value(value) => put_unless_empty(value, sink),
            StoredItem::Root { page, sequence } => put_unless_empty(
                &bucket_head(page, sequence),
                sink,
            ),
            StoredItem::Inline {
                sequence,
                first,
                count,
                ..
            } => put_inline_value(sequence, &inlined[first..first + count], sink),
        }
    }
}

impl Element for Held<'_> {
    ghost head = { λ pos key value held. leaf_header (is_stored_bucket held.stored) pos key value };

    ghost key = { λ held. held.key.now };

    ghost value_length = { λ held. stored_length held.stored };

    ghost is_held = { λ inlined held. IsHeld inlined held };

    ghost value = { λ inlined held. stored_value inlined held.stored };

    #[inline(always)]
    fn header(&self, pos: u32, key_len: u32, value_len: u32) -> [u8; ELEMENT_LEN] {
        leaf_header(self.stored.is_bucket(), pos, key_len, value_len)
    }

    #[inline(always)]
    fn key(&self) -> &[u8] {
        self.key
    }

    #[inline(always)]
    fn value_len(&self) -> usize {
        self.stored.len()
    }

    fn put_value<S: Sink>(&self, inlined: &[Leaf<'_>], sink: &mut S) -> Result<(), SinkFault> {
        self.stored.put(inlined, sink)
    }
}

/// Writes the value of an inline bucket, packed anew.
fn put_inline_value<S: Sink>(
    sequence: u64,
    entries: &[Leaf<'_>],
    sink: &mut S,
) -> Result<(), SinkFault>
    requires count { length entries.now < 65535 }
    requires size { 16 * length entries.now + length (leaf_data (map leaf_view entries.now))
        < length_end }
    ensures { WritesText S.Sink sink.old sink.new
        (inline_value sequence (map leaf_view entries.now)) result }
{
    put_unless_empty(&bucket_head(0, sequence), sink)?;
    let header = page_header(0, Kind::Leaf, entries.len() as u16, 0);
    put_unless_empty(&header, sink)?;
    put_elements(entries, &[], sink)
}
