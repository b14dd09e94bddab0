//! An entry of a bucket, and what is under its key.
ghost use Rattle.std.specs.Prelude.{◌≡◌, IsTrue};
ghost use Rattle.bolt_format.specs.{ElementPlaces.leaf_view, Elements.IsBucketValue};
ghost use Rattle.bolt_tree.specs.Entries.{entry_view, item_of};

use bolt_format::{Leaf, head};

/// What is under a key: a value, or a bucket with its sequence.
#[derive(Clone, Copy, Debug, PartialEq, Eq)]
pub enum Item<'a> {
    /// The bytes of a value.
    Value(&'a [u8]),
    /// A bucket.
    Bucket {
        /// The bucket's sequence.
        sequence: u64,
    },
}

/// An entry of a bucket.
#[derive(Clone, Copy, Debug, PartialEq, Eq)]
pub struct Entry<'a> {
    /// The key, which no other entry of the bucket has.
    pub key: &'a [u8],
    /// What is under the key.
    pub item: Item<'a>,
}

impl<'a> Item<'a> {
    ghost use Rattle.bolt_tree.specs.ShownEntries.{item_view};

    /// The item under the key of a leaf element.
    pub fn of(leaf: &Leaf<'a>) -> Item<'a>
        requires { IsTrue leaf.now.is_bucket → IsBucketValue leaf.now.value.now }
        ensures { item_view result ≡ item_of (leaf_view leaf.now) }
    {
        if leaf.is_bucket {
            let head = head(leaf.value);
            Item::Bucket {
                sequence: head.sequence,
            }
        } else {
            Item::Value(leaf.value)
        }
    }
}

impl<'a> Entry<'a> {
    ghost use Rattle.bolt_tree.specs.ShownEntries.{shown_entry};

    /// The entry of a leaf element.
    pub(crate) fn of(leaf: &Leaf<'a>) -> Entry<'a>
        requires { IsTrue leaf.now.is_bucket → IsBucketValue leaf.now.value.now }
        ensures { shown_entry result ≡ entry_view (leaf_view leaf.now) }
    {
        Entry {
            key: leaf.key,
            item: Item::of(leaf),
        }
    }
}
