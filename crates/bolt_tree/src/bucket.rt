//! A bucket of a file, and what is under a key of it (docs/LISTING.md, "A key in a bucket").
ghost use Rattle.std.specs.Prelude.{◌≡◌, IfSome};
ghost use Rattle.std.specs.Option.{option_map};
ghost use Rattle.std.proofs.Props.{props};
ghost use Rattle.bolt_format.specs.{ElementPlaces.leaf_view, Elements.IsBucketValue, Elements.head_sequence};
ghost use Rattle.bolt_check.specs.CheckedFiles.{meta_of};
ghost use Rattle.bolt_tree.specs.Private.BucketValues.{HasBucketValue};
ghost use Rattle.bolt_tree.specs.BucketViews.{entries_of};
ghost use Rattle.bolt_tree.specs.Cursors.{cursor_checked, cursor_compared, cursor_opened, cursor_place, cursor_start};
ghost use Rattle.bolt_tree.specs.{Entries.Root_page, Entries.start_of, Places.Fresh, Starts.HasStart, Starts.start_at};

use crate::at::{At, at_of};
use crate::cursor::Cursor;
use crate::pager::Pager;
use bolt_check::Checked;
use bolt_format::{Leaf, head};

/// A bucket of a checked file. It is made only if a way of the file leads to it (docs/LISTING.md,
/// "Entries").
#[derive(Clone, Copy)]
pub struct Bucket<'a> {
    checked: Checked<'a>,
    at: At<'a>,
    sequence: u64,
    ghost begins: { HasStart checked (start_at at) } by { Prim.hlevel props },
}

#[tactic(auto, unfolding(crate::specs::Buckets::bucket_checked, crate::specs::Buckets::bucket_sequence, crate::specs::Buckets::bucket_start))]
impl<'a> Bucket<'a> {
    ghost use Rattle.bolt_tree.specs.Buckets.{bucket_checked, bucket_sequence, bucket_start};
    ghost use Rattle.bolt_tree.specs.Lookups.{IsBucketAt, IsBucketOn, IsElementAt, IsValueAt};

    /// The root bucket.
    pub fn root(checked: Checked<'a>) -> Bucket<'a>
        ensures checked { bucket_checked result ≡ checked.entry }
        ensures start { bucket_start result ≡ Root_page (meta_of checked.entry).root }
        ensures sequence { bucket_sequence result ≡ (meta_of checked.entry).root_sequence }
    {
        let meta = checked.meta();
        Bucket {
            checked,
            at: At::Page(meta.root),
            sequence: meta.root_sequence,
        }
    }

    /// The bucket of a leaf element with this value.
    pub(crate) fn of(checked: Checked<'a>, value: &'a [u8]) -> Bucket<'a>
        requires value { IsBucketValue value.now }
        requires begins { HasStart checked (start_of value.now) }
        ensures checked { bucket_checked result ≡ checked.entry }
        ensures start { bucket_start result ≡ start_of value.now }
        ensures sequence { bucket_sequence result ≡ head_sequence value.now }
    {
        let head = head(value);
        Bucket {
            checked,
            at: at_of(value, head),
            sequence: head.sequence,
        }
    }

    /// The bucket's sequence.
    pub fn sequence(&self) -> u64
        ensures { result ≡ bucket_sequence self.now }
    {
        self.sequence
    }

    /// The file that contains the bucket.
    pub fn checked(&self) -> Checked<'a>
        ensures { result ≡ bucket_checked self.now }
    {
        self.checked
    }

    /// Where the bucket's tree begins.
    pub fn at(&self) -> At<'a>
        ensures start { start_at result ≡ bucket_start self.now }
        ensures begins { HasStart (bucket_checked self.now) (start_at result) }
    {
        self.at
    }

    /// A cursor over the bucket's entries, before the first call. Needs no memory.
    pub fn cursor(&self) -> Cursor<'a>
        ensures checked { cursor_checked result ≡ bucket_checked self.now }
        ensures start { cursor_start result ≡ bucket_start self.now }
        ensures place { cursor_place result ≡ Fresh }
        ensures opened { cursor_opened result ≡ 0 }
        ensures compared { cursor_compared result ≡ 0 }
    {
        Cursor::new(Pager::new(self.checked), self.at)
    }

    /// The element with a key, if there is one. Goes down once, as a cursor's `seek` does.
    fn element(&self, key: &[u8]) -> Option<Leaf<'a>>
        ensures element { IsElementAt (entries_of (bucket_checked self.now)) (bucket_start self.now) key.now (option_map leaf_view result) }
        ensures bucket { HasBucketValue result }
    {
        let mut cursor = self.cursor();
        let leaf = cursor.seek_element(key)?;
        if key.cmp(leaf.key).is_lt() {
            return None;
        }
        Some(leaf)
    }

    /// The value under a key, or `None` if no entry has that key, or if it is a bucket. Goes down
    /// once, as a cursor's `seek` does, and needs no memory.
    pub fn get(&self, key: &[u8]) -> Option<&'a [u8]>
        ensures { IsValueAt (entries_of (bucket_checked self.now)) (bucket_start self.now) key.now (option_map (λ value. value.now) result) }
    {
        let leaf = self.element(key)?;
        if leaf.is_bucket {
            return None;
        }
        Some(leaf.value)
    }

    /// The bucket under a key, or `None` if no entry has that key, or if it is a value. Goes down
    /// once, as a cursor's `seek` does, and needs no memory.
    pub fn bucket(&self, key: &[u8]) -> Option<Bucket<'a>>
        ensures checked { IfSome result (λ inner. bucket_checked inner ≡ bucket_checked self.now) }
        ensures bucket { IsBucketAt (entries_of (bucket_checked self.now)) (bucket_start self.now) key.now result }
    {
        let leaf = self.element(key)?;
        if !leaf.is_bucket {
            return None;
        }
        Some(Bucket::of(self.checked, leaf.value))
    }

    /// The bucket of the entry that a cursor of the same file is on, or `None` if it is on no entry,
    /// or if that entry is a value. Compares no keys, opens no page, and needs no memory.
    pub fn bucket_at(&self, cursor: &Cursor<'a>) -> Option<Bucket<'a>>
        requires { cursor_checked cursor.now ≡ bucket_checked self.now }
        ensures checked { IfSome result (λ inner. bucket_checked inner ≡ bucket_checked self.now) }
        ensures bucket { IsBucketOn (entries_of (bucket_checked self.now)) (cursor_start cursor.now) (cursor_place cursor.now) result }
    {
        let leaf = cursor.element()?;
        if !leaf.is_bucket {
            return None;
        }
        Some(Bucket::of(self.checked, leaf.value))
    }
}
