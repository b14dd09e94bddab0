//! Where a path leads, as far as a store is concerned, and which members etcd can read.
ghost use Rattle.std.specs.Prelude.{◌≡◌, ◌≤◌, ◌∷◌, []};
ghost use Rattle.bolt_tree.specs.{Paths.path_of, ShownEntries.item_view};
ghost use Rattle.bolt_repair.specs.{Readable.is_readable, StorePaths.IsStorePath, StorePaths.is_in_store};

use bolt_etcd::{COMPACTION_KEY, KEY_BUCKET, META_BUCKET, UnreadEntry};
use bolt_tree::{Entry, Item};

/// Where a path leads.
#[derive(Clone, Copy)]
pub(crate) enum StorePath<'a> {
    /// To the bucket `key` itself, or what is there in its place.
    Store,
    /// To an entry of the bucket `key`, with this key.
    InStore(&'a [u8]),
    /// Into a bucket in the bucket `key`.
    Below,
    /// To the bucket `meta` itself, or what is there in its place.
    Meta,
    /// To what notes the last compaction.
    Compaction,
    /// Elsewhere.
    Other,
}

/// Where a path leads.
pub(crate) fn store_path_of<'a>(path: &[&'a [u8]]) -> StorePath<'a>
    ensures { IsStorePath (path_of path.now) result }
{
    match path {
        [name] => root_entry(name),
        [bucket, key] => bucket_entry(bucket, key),
        [bucket, ..] if *bucket == KEY_BUCKET => StorePath::Below,
        _ => StorePath::Other,
    }
}

/// Where the path of an entry of the root bucket leads.
fn root_entry<'a>(name: &[u8]) -> StorePath<'a>
    ensures { IsStorePath (name.now ∷ []) result }
{
    if name == KEY_BUCKET {
        StorePath::Store
    } else if name == META_BUCKET {
        StorePath::Meta
    } else {
        StorePath::Other
    }
}

/// Where the path of an entry of a bucket in the root bucket leads.
fn bucket_entry<'a>(bucket: &[u8], key: &'a [u8]) -> StorePath<'a>
    ensures { IsStorePath (bucket.now ∷ key.now ∷ []) result }
{
    if bucket == KEY_BUCKET {
        StorePath::InStore(key)
    } else if bucket == META_BUCKET && key == COMPACTION_KEY {
        StorePath::Compaction
    } else {
        StorePath::Other
    }
}

/// Whether a path is that of an entry of the bucket `key`.
pub(crate) fn is_in_store(path: &[&[u8]]) -> bool
    ensures { result ≡ is_in_store (path_of path.now) }
{
    match path {
        [bucket, _] => *bucket == KEY_BUCKET,
        _ => false,
    }
}

/// Whether etcd can read a member: in the bucket `key` it is a revision or a mark.
pub(crate) fn is_readable<'a>(path: &[&'a [u8]], item: Item<'a>) -> bool
    ensures { result ≡ is_readable (path_of path.now) (item_view item.entry) }
{
    match store_path_of(path) {
        StorePath::InStore(key) => UnreadEntry::of(&Entry { key, item }).is_none(),
        StorePath::Below => false,
        _ => true,
    }
}

/// The path of the bucket `key`, or of an entry in it.
#[derive(Clone, Copy)]
pub(crate) struct NearPath<'a> {
    /// The path has the first of these parts.
    parts: [&'a [u8]; 2],
    length: usize,
    ghost short: { length ≤ 2 },
}

impl<'a> NearPath<'a> {
    ghost use Rattle.bolt_repair.specs.NearPaths.{IsNearPath, near_path};

    /// The path, if it is such a one.
    pub fn of(path: &[&'a [u8]]) -> Option<NearPath<'a>>
        ensures { IsNearPath (path_of path.now) result }
    {
        match store_path_of(path) {
            StorePath::Store => Some(NearPath {
                parts: [KEY_BUCKET; 2],
                length: 1,
            }),
            StorePath::InStore(key) => Some(NearPath {
                parts: [KEY_BUCKET, key],
                length: 2,
            }),
            _ => None,
        }
    }

    /// The parts of the path.
    pub fn parts(&self) -> &[&'a [u8]]
        ensures { path_of result.now ≡ near_path self.now }
    {
        &self.parts[..self.length]
    }
}
