//! The open buckets of a walk, and the path that it has come to. That path alone says what is left
//! of a listing; the cursors say where to go on.
ghost use Rattle.std.specs.Option.{IfNone};
ghost use Rattle.std.specs.Prelude.{◌≡◌, ◌<◌, ◌++◌, ◌∷◌, [], List, IfSome, IfOk, OnOk, OnErr, vec_capacity, vec_len};
ghost use Rattle.bolt_tree.specs.{Buckets.bucket_checked, Listing.rest_from, RestAfter.rest_after, RestAfter.beyond, Paths.path_of};
ghost use Rattle.bolt_tree.specs.{Private.CursorViews.AreCursorsOfFile, Private.CursorViews.fresh_view, Private.Kept.CursorView};

use crate::at::At;
use crate::bucket::Bucket;
use crate::cursor::Cursor;
use crate::stack::Position;
use bolt_check::{Checked, NoMemory};
use bolt_format::Leaf;
use std::alloc::Global;

/// What a walk does next.
#[derive(Clone, Copy)]
pub(crate) enum WalkStep<'a> {
    /// The walk enters the root bucket.
    Begin,
    /// The walk enters the bucket that its path names, whose value this is.
    Enter(&'a [u8]),
    /// The walk returns the element that its path leads to.
    Give(Leaf<'a>),
    /// The walk leaves everything that begins with its path.
    Leave,
}

/// The result of searching for one part of a path.
#[derive(Clone, Copy)]
pub(crate) enum PartResult<'a> {
    /// The part names this bucket, and the path goes on.
    Inside(Bucket<'a>),
    /// The search ends here, and the walk does this next.
    Here(WalkStep<'a>),
}

/// A cursor that waits while a bucket within its own is open: where its bucket's tree begins, and
/// where its positions begin among those of all that wait.
#[derive(Clone, Copy)]
pub(crate) struct WaitingCursor<'a> {
    pub at: At<'a>,
    pub is_past: bool,
    pub begin: usize,
}

/// A cursor for each open bucket, from the root bucket on, and the keys that the cursors are on,
/// which are the path. Both have the same length. A whole cursor has room for the greatest depth, so
/// only the positions of the waiting ones are kept.
#[derive(Drop)]
pub(crate) struct OpenBuckets<'a> {
    pub checked: Checked<'a>,
    waiting: Vec<WaitingCursor<'a>>,
    positions: Vec<Position<'a>>,
    innermost: Option<Cursor<'a>>,
    pub path: Vec<&'a [u8]>,
    ghost kept: { ∥ AreCursorsOfFile checked waiting.items positions.items innermost ∥₁ },
}

impl<'a> OpenBuckets<'a> {
    ghost use Rattle.bolt_tree.specs.Private.OpenBuckets.{ComesNext, EntersFirst, IsAhead, IsAt, IsInPlace, IsLeft, IsNamed, IsPartResult, left_by};
    ghost use Rattle.bolt_tree.specs.Private.OpenBuckets.{open_path};
    ghost use Rattle.bolt_tree.specs.Private.OpenBuckets.{cursors_of, reported_path};

    /// No open bucket.
    pub fn new(alloc: Global, checked: Checked<'a>) -> OpenBuckets<'a>
        ensures checked { result.checked ≡ checked.entry }
        ensures cursors { cursors_of result ≡ [] }
        ensures path { result.path.items ≡ [] }
    {
        OpenBuckets {
            checked,
            waiting: Vec::new(alloc),
            positions: Vec::new(alloc),
            innermost: None,
            path: Vec::new(alloc),
        }
    }

    /// Opens a bucket within the innermost one, with room for a key of it on the path. Its cursor is
    /// before the first call. If memory runs out, nothing has changed.
    fn open(&mut self, bucket: Bucket<'a>) -> Result<(), NoMemory>
        requires { bucket_checked bucket ≡ self.old.checked }
        ensures checked { self.new.checked ≡ self.old.checked }
        ensures cursors { OnOk result (cursors_of self.new ≡ cursors_of self.old ++ fresh_view bucket.entry ∷ []) }
        ensures same { OnErr result (cursors_of self.new ≡ cursors_of self.old) }
        ensures path { self.new.path.items ≡ self.old.path.items }
        ensures room { OnOk result (vec_len self.new.path < vec_capacity self.new.path) }
    {
        self.path.reserve(1)?;
        let Some(cursor) = &mut self.innermost else {
            self.innermost = Some(bucket.cursor());
            return Ok(());
        };
        self.waiting.reserve(1)?;
        let begin = self.positions.len();
        self.positions.extend_from_slice(cursor.positions())?;
        self.waiting.push_reserved(WaitingCursor {
            at: cursor.at(),
            is_past: cursor.is_past(),
            begin,
        });
        cursor.begin(bucket.at());
        Ok(())
    }

    /// Drops the innermost cursor, and restores the one around it.
    #[inline(never)]
    fn close(&mut self)
        ensures checked { self.new.checked ≡ self.old.checked }
        ensures cursors { (outer : List CursorView) (last : CursorView) → cursors_of self.old ≡ outer ++ last ∷ [] → cursors_of self.new ≡ outer }
        ensures path { self.new.path.items ≡ self.old.path.items }
    {
        let Some(outer) = self.waiting.pop() else {
            self.innermost = None;
            return;
        };
        let Some(cursor) = &mut self.innermost else {
            return;
        };
        cursor.resume(outer.at, outer.is_past, &self.positions[outer.begin..]);
        self.positions.truncate(outer.begin);
    }

    /// Opens the bucket that the path names, and goes to its first entry. If it has none, or if
    /// memory runs out, nothing has changed.
    #[inline(never)]
    #[tactic(auto, using(crate::proofs::KeptLemmas::moved_file, crate::proofs::OpenSteps::some_open))]
    fn enter(&mut self, bucket: Bucket<'a>) -> Result<Option<Leaf<'a>>, NoMemory>
        requires placed { IsInPlace self.old }
        requires named { IsNamed self.old bucket }
        ensures checked { self.new.checked ≡ self.old.checked }
        ensures placed { IsInPlace self.new }
        ensures on { IfOk result (λ found. IfSome found (IsAt self.new)) }
        ensures none { IfOk result (λ found. IfNone found (open_path self.new ≡ open_path self.old)) }
        ensures same { OnErr result (open_path self.new ≡ open_path self.old) }
        ensures left { IfOk result (EntersFirst self.old self.new) }
    {
        self.open(bucket)?;
        let Some(cursor) = &mut self.innermost else {
            return Ok(None);
        };
        let Some(leaf) = cursor.next_element() else {
            self.close();
            return Ok(None);
        };
        self.path.push_reserved(leaf.key);
        Ok(Some(leaf))
    }

    /// Goes to the next entry that is to be returned, and closes the buckets that have none. If memory
    /// runs out, nothing has changed.
    #[inline(always)]
    #[tactic(auto, using(crate::proofs::KeptLemmas::moved_file))]
    pub fn advance(&mut self, ahead: WalkStep<'a>) -> Result<Option<Leaf<'a>>, NoMemory>
        requires placed { IsInPlace self.old }
        requires ahead { IsAhead self.old ahead }
        ensures checked { self.new.checked ≡ self.old.checked }
        ensures placed { IsInPlace self.new }
        ensures on { IfOk result (λ found. IfSome found (IsAt self.new)) }
        ensures ended { IfOk result (λ found. IfNone found (open_path self.new ≡ [])) }
        ensures same { OnErr result (open_path self.new ≡ open_path self.old) }
        ensures left { IfOk result (ComesNext (left_by ahead.entry (open_path self.old)) self.old self.new) }
    {
        let inner = match ahead {
            WalkStep::Begin => Some(Bucket::root(self.checked)),
            WalkStep::Enter(value) => Some(Bucket::of(self.checked, value)),
            WalkStep::Give(leaf) => return Ok(Some(leaf)),
            WalkStep::Leave => None,
        };
        if let Some(bucket) = inner {
            if let Some(leaf) = self.enter(bucket)? {
                return Ok(Some(leaf));
            }
        }
        while let Some(cursor) = &mut self.innermost {
            let found = cursor.next_element();
            self.path.pop();
            if let Some(leaf) = found {
                self.path.push_reserved(leaf.key);
                return Ok(Some(leaf));
            }
            self.close();
        }
        Ok(None)
    }

    /// What is next after the element that the path leads to was returned.
    pub fn after(&self, leaf: &Leaf<'a>) -> WalkStep<'a>
        requires placed { IsInPlace self.now }
        requires on { IsAt self.now leaf.now }
        ensures ahead { IsAhead self.now result }
        ensures left { IsLeft (rest_after (open_path self.now)) self.now self.now result }
        ensures reported { reported_path result (open_path self.now) ≡ open_path self.now }
    {
        if leaf.is_bucket {
            WalkStep::Enter(leaf.value)
        } else {
            WalkStep::Leave
        }
    }

    /// Goes to the next entry after everything that begins with the path, to return it.
    fn next_step(&mut self) -> Result<WalkStep<'a>, NoMemory>
        requires { IsInPlace self.old }
        ensures checked { self.new.checked ≡ self.old.checked }
        ensures placed { IsInPlace self.new }
        ensures ahead { IfOk result (IsAhead self.new) }
        ensures unreported { IfOk result (λ ahead. reported_path ahead (open_path self.new) ≡ []) }
        ensures left { IfOk result (IsLeft (beyond (open_path self.old)) self.old self.new) }
    {
        match self.advance(WalkStep::Leave)? {
            Some(leaf) => Ok(WalkStep::Give(leaf)),
            None => Ok(WalkStep::Leave),
        }
    }

    /// Searches for one part of a path in the bucket that the preceding parts name.
    #[tactic(auto, using(crate::proofs::KeptLemmas::moved_file, crate::proofs::OpenSteps::some_open))]
    fn seek_part(
        &mut self,
        within: Bucket<'a>,
        part: &[u8],
        is_last: bool,
    ) -> Result<PartResult<'a>, NoMemory>
        requires placed { IsInPlace self.old }
        requires named { IsNamed self.old within }
        ensures checked { OnOk result (self.new.checked ≡ self.old.checked) }
        ensures placed { OnOk result (IsInPlace self.new) }
        ensures sought { IfOk result (IsPartResult self.old self.new part.now is_last) }
    {
        self.open(within)?;
        let Some(cursor) = &mut self.innermost else {
            return Ok(PartResult::Here(WalkStep::Leave));
        };
        let Some(leaf) = cursor.seek_element(part) else {
            self.close();
            return Ok(PartResult::Here(self.next_step()?));
        };
        self.path.push_reserved(leaf.key);
        if part.cmp(leaf.key).is_lt() || is_last {
            return Ok(PartResult::Here(WalkStep::Give(leaf)));
        }
        if leaf.is_bucket {
            return Ok(PartResult::Inside(Bucket::of(self.checked, leaf.value)));
        }
        Ok(PartResult::Here(self.next_step()?))
    }

    /// Searches for a path, from the root bucket on.
    pub fn seek(&mut self, path: &[&[u8]]) -> Result<WalkStep<'a>, NoMemory>
        requires placed { IsInPlace self.old }
        requires empty { open_path self.old ≡ [] }
        ensures checked { OnOk result (self.new.checked ≡ self.old.checked) }
        ensures placed { OnOk result (IsInPlace self.new) }
        ensures ahead { IfOk result (IsAhead self.new) }
        ensures unreported { IfOk result (λ ahead. reported_path ahead (open_path self.new) ≡ []) }
        ensures left { IfOk result (IsLeft (rest_from (path_of path.now)) self.old self.new) }
    {
        let mut bucket = Bucket::root(self.checked);
        for (i, part) in path.iter().enumerate() {
            match self.seek_part(bucket, part, i + 1 == path.len())? {
                PartResult::Inside(inside) => bucket = inside,
                PartResult::Here(ahead) => return Ok(ahead),
            }
        }
        Ok(WalkStep::Begin)
    }
}
