//! What goes back as a listing, also of a bucket that is made for it.
ghost use Rattle.std.specs.Prelude.{length, List, ◌≡◌, ◌≤◌, ◌+◌, ◌∷◌, [], IfOk, MatchOption, map, take, vec_len};
ghost use Rattle.bolt_tree.specs.{InBuckets.members_in, Listing.Member, Paths.path_of};
ghost use Rattle.bolt_etcd.specs.Wire.ShownRevisions.{entry_of};

use bolt_etcd::Revision;
use bolt_tree::{Item, Members, NoMemory};
use std::alloc::{AllocError, Global};

/// Revisions as members of a listing in their bucket and, if the bucket is made for them, before them
/// the bucket itself, with sequence 0. It needs room for one path.
#[derive(Drop)]
pub(crate) struct PutBack<'a> {
    is_made: bool,
    revisions: &'a [Revision<'a>],
    /// Whether the bucket is left.
    has_bucket: bool,
    /// The revisions that are left.
    rest: &'a [Revision<'a>],
    depth: usize,
    /// The path of the bucket, whose length is `depth`, and the key of a revision.
    parts: Vec<&'a [u8]>,
    /// The path of the last member that was returned has so many of them.
    length: usize,
    ghost room: { vec_len parts ≡ depth + 1 },
    ghost within: { length ≤ depth + 1 },
}

/// A path, and room for a key.
fn room_for_key<'a>(alloc: Global, bucket: &[&'a [u8]]) -> Result<Vec<&'a [u8]>, AllocError>
    ensures room { IfOk result (λ parts. vec_len parts ≡ length bucket.now + 1) }
    ensures path { IfOk result (λ parts.
        path_of (take (length bucket.now) parts.items) ≡ path_of bucket.now) }
{
    let mut parts = bucket.to_vec(alloc)?;
    parts.push(&[])?;
    Ok(parts)
}

/// Takes the first one away.
fn pop_first<'a, T: Copy>(items: &mut &'a [T]) -> Option<T>
    ensures { MatchOption result ((items.old.now ≡ []) × (items.new.now ≡ []))
        (λ first. items.old.now ≡ first ∷ items.new.now) }
{
    let (first, rest) = items.split_first()?;
    *items = rest;
    Some(*first)
}

#[tactic(auto, unfolding(crate::specs::PutBackMembers::put_back_left, crate::specs::PutBackMembers::put_back_listing, crate::specs::PutBackMembers::put_back_path))]
impl<'a> PutBack<'a> {
    ghost use Rattle.bolt_repair.specs.PutBackMembers.{put_back_left, put_back_listing, put_back_path};

    /// All these revisions in the bucket at this path, and the bucket itself if `is_made` is set.
    ///
    /// # Errors
    ///
    /// `NoMemory` if memory runs out.
    pub(crate) fn new(
        alloc: Global,
        bucket: &[&'a [u8]],
        is_made: bool,
        revisions: &'a [Revision<'a>],
    ) -> Result<PutBack<'a>, NoMemory>
        ensures listing { IfOk result (λ it. put_back_listing it
            ≡ members_in is_made (path_of bucket.now) (map entry_of revisions.now)) }
        ensures left { IfOk result (λ it. put_back_left it ≡ put_back_listing it) }
        ensures path { IfOk result (λ it. put_back_path it ≡ []) }
    {
        let parts = room_for_key(alloc, bucket)?;
        Ok(PutBack {
            is_made,
            revisions,
            has_bucket: is_made,
            rest: revisions,
            depth: bucket.len(),
            parts,
            length: 0,
        })
    }
}

#[tactic(auto, unfolding(crate::specs::PutBackMembers::put_back_left, crate::specs::PutBackMembers::put_back_listing, crate::specs::PutBackMembers::put_back_path))]
impl<'a> Members<'a> for PutBack<'a> {
    ghost use Rattle.bolt_repair.specs.PutBackMembers.{put_back_left, put_back_listing, put_back_path};

    ghost Whole = { List Member };

    ghost reads = { λ it listing. listing ≡ put_back_listing it };

    ghost listing = { λ listing. listing };

    ghost left = { λ it listing. put_back_left it };

    ghost work_left = { λ it. length (put_back_left it) };

    ghost last_path = { λ it. put_back_path it };

    ghost ends_as = { λ it end. Unit {0} };

    fn next(&mut self) -> Result<Option<Item<'a>>, NoMemory> {
        if self.has_bucket {
            self.has_bucket = false;
            self.length = self.depth;
            return Ok(Some(Item::Bucket { sequence: 0 }));
        }
        let Some(revision) = pop_first(&mut self.rest) else {
            self.length = 0;
            return Ok(None);
        };
        let entry = revision.entry();
        self.parts[self.depth] = entry.key;
        self.length = self.depth + 1;
        Ok(Some(entry.item))
    }

    fn path(&self) -> &[&'a [u8]] {
        &self.parts[..self.length]
    }

    fn restart(&mut self, _alloc: Global) -> Result<(), NoMemory> {
        self.has_bucket = self.is_made;
        self.rest = self.revisions;
        self.length = 0;
        Ok(())
    }
}
