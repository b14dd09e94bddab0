//! A cursor over the entries of a bucket.
ghost use Rattle.std.specs.Prelude.{◌≡◌, ◌≢◌, [], MatchOption, false};
ghost use Rattle.std.specs.Option.{option_map};
ghost use Rattle.bolt_format.specs.ElementPlaces.{leaf_view};
ghost use Rattle.bolt_tree.specs.{Entries.entry_view, Private.BucketValues.HasBucketValue};
ghost use Rattle.bolt_tree.specs.{Private.Kept.IsKeptStack, Private.Kept.kept_view, Private.Resting.IsResting};
ghost use Rattle.bolt_tree.specs.Pagers.{pager_checked, pager_opened};
ghost use Rattle.bolt_tree.specs.Places.{Fresh, Past, next_move, prev_move, seek_to, to_first, to_last};
ghost use Rattle.bolt_tree.specs.Private.BucketPages.{elements_in};
ghost use Rattle.bolt_tree.specs.Private.Trails.{ComesTo, Goes, IsMoved, OpensInto, frames_of, pages_bucket, trail_on};
ghost use Rattle.bolt_tree.specs.{ShownEntries.shown_entry, Starts.HasStart, Starts.start_at};

use crate::at::At;
use crate::bucket_pages::BucketPages;
use crate::entry::Entry;
use crate::pager::Pager;
use crate::stack::{Position, Stack, set_positions};
use bolt_format::{Leaf, TreePage};

/// A cursor over the entries of a bucket, in byte order of their keys. It is before the first call,
/// on an entry, or past the last one (docs/LISTING.md, "Places"). None of its calls needs memory.
#[derive(Drop)]
pub struct Cursor<'a> {
    pages: BucketPages<'a>,
    stack: Stack<'a>,
    is_past: bool,
    compared: u64,
    /// Room for the positions before a move, which it takes back if there is no entry to move to.
    saved: Stack<'a>,
    ghost resting: { ∥ IsResting (trail_on pages stack.items) is_past ∥₁ },
}

#[tactic(auto, unfolding(crate::specs::Cursors::cursor_viewers), using(crate::proofs::RestingLemmas::fresh_resting, crate::proofs::RestingLemmas::resting_bucket, crate::proofs::RestingLemmas::resting_rest, crate::proofs::RestingLemmas::resting_stack, crate::proofs::KeptLemmas::kept_short, crate::proofs::StackLemmas::sound_bucket))]
impl<'a> Cursor<'a> {
    ghost use Rattle.bolt_tree.specs.Cursors.{FirstOpens, IsElementOf, NextOpens, ReturnsElement, ReturnsEntry, SeekCompares, SeekOpens};
    ghost use Rattle.bolt_tree.specs.Cursors.{cursor_checked, cursor_compared, cursor_opened, cursor_place, cursor_start, cursor_trail};
    ghost use Rattle.bolt_tree.specs.Private.CursorViews.{cursor_view};

    /// A cursor before the first call, over a bucket of the pager's file. Only its pager opens
    /// pages by their numbers.
    pub fn new(pager: Pager<'a>, at: At<'a>) -> Cursor<'a>
        requires { HasStart (pager_checked pager) (start_at at) }
        ensures checked { cursor_checked result ≡ pager_checked pager.entry }
        ensures start { cursor_start result ≡ start_at at.entry }
        ensures place { cursor_place result ≡ Fresh }
        ensures opened { cursor_opened result ≡ pager_opened pager.entry }
        ensures compared { cursor_compared result ≡ 0 }
    {
        Cursor {
            pages: BucketPages { pager, at },
            stack: Stack::new(),
            is_past: false,
            compared: 0,
            saved: Stack::new(),
        }
    }

    /// Starts again in a bucket of the same file, before the first call.
    pub(crate) fn begin(&mut self, at: At<'a>)
        requires { HasStart (cursor_checked self.old) (start_at at) }
        ensures checked { cursor_checked self.new ≡ cursor_checked self.old }
        ensures start { cursor_start self.new ≡ start_at at.entry }
        ensures place { cursor_place self.new ≡ Fresh }
    {
        self.pages.at = at;
        self.stack.clear();
        self.is_past = false;
    }

    /// Takes the place of a cursor of the same file that had these positions.
    pub(crate) fn resume(&mut self, at: At<'a>, is_past: bool, positions: &[Position<'a>])
        requires { ∥ IsKeptStack (cursor_checked self.old) at is_past positions.now ∥₁ }
        ensures { cursor_view self.new ≡ kept_view (cursor_checked self.old) at.entry is_past positions.now }
    {
        set_positions(&mut self.stack, positions);
        self.pages.at = at;
        self.is_past = is_past;
    }

    /// Where its bucket's tree begins.
    pub(crate) fn at(&self) -> At<'a>
        ensures { result ≡ self.now.pages.at }
    {
        self.pages.at
    }

    /// Whether it is past the last entry.
    pub(crate) fn is_past(&self) -> bool
        ensures { result ≡ self.now.is_past }
    {
        self.is_past
    }

    /// The pages from the root page to the one that it is on.
    pub(crate) fn positions(&self) -> &[Position<'a>]
        ensures { result.now ≡ self.now.stack.items }
    {
        self.stack.as_slice()
    }

    /// The number of pages that its pager has opened.
    pub fn opened(&self) -> u64
        ensures { result ≡ cursor_opened self.now }
    {
        self.pages.pager.opened()
    }

    /// The number of keys that were compared since the last `first`, `last` or `seek`, that call
    /// included.
    pub fn compared(&self) -> u64
        ensures { result ≡ cursor_compared self.now }
    {
        self.compared
    }

    /// The element of the entry that it is on, or `None` if it is on none.
    pub(crate) fn element(&self) -> Option<Leaf<'a>>
        ensures entry { IsElementOf self.now result }
        ensures bucket { HasBucketValue result }
    {
        let top = self.stack.last()?;
        let TreePage::Leaf(page) = top.page else {
            return None;
        };
        Some(page.element((top.taken - 1) as u16))
    }

    /// Moves to the first entry, and returns it. If there are no entries, returns `None`.
    pub fn first(&mut self) -> Option<Entry<'a>>
        ensures checked { cursor_checked self.new ≡ cursor_checked self.old }
        ensures start { cursor_start self.new ≡ cursor_start self.old }
        ensures moves { ReturnsEntry to_first self.old self.new result }
        ensures opens { FirstOpens self.old self.new }
        ensures none { result ≡ None → cursor_place self.new ≡ Fresh }
        ensures compared { cursor_compared self.new ≡ 0 }
    {
        self.compared = 0;
        self.is_past = false;
        entry_of(self.start(false))
    }

    /// Moves to the last entry, and returns it. If there are no entries, returns `None`.
    pub fn last(&mut self) -> Option<Entry<'a>>
        ensures checked { cursor_checked self.new ≡ cursor_checked self.old }
        ensures start { cursor_start self.new ≡ cursor_start self.old }
        ensures moves { ReturnsEntry to_last self.old self.new result }
        ensures none { result ≡ None → cursor_place self.new ≡ Fresh }
        ensures compared { cursor_compared self.new ≡ 0 }
    {
        self.compared = 0;
        self.is_past = false;
        entry_of(self.start(true))
    }

    /// Moves to the next entry, and returns it. If there is none, it stays where it is, and returns
    /// `None`.
    pub fn next(&mut self) -> Option<Entry<'a>>
        ensures checked { cursor_checked self.new ≡ cursor_checked self.old }
        ensures start { cursor_start self.new ≡ cursor_start self.old }
        ensures moves { ReturnsEntry next_move self.old self.new result }
        ensures opens { NextOpens self.old self.new }
        ensures none { result ≡ None → cursor_place self.new ≡ cursor_place self.old }
        ensures compared { cursor_compared self.new ≡ cursor_compared self.old }
    {
        entry_of(self.next_element())
    }

    /// Moves to the preceding entry, and returns it. If there is none, it stays where it is, and
    /// returns `None`.
    pub fn prev(&mut self) -> Option<Entry<'a>>
        ensures checked { cursor_checked self.new ≡ cursor_checked self.old }
        ensures start { cursor_start self.new ≡ cursor_start self.old }
        ensures moves { ReturnsEntry prev_move self.old self.new result }
        ensures none { result ≡ None → cursor_place self.new ≡ cursor_place self.old }
        ensures compared { cursor_compared self.new ≡ cursor_compared self.old }
    {
        if self.stack.is_empty() {
            return entry_of(self.start(true));
        }
        entry_of(self.go_further(true))
    }

    /// Moves to the first entry whose key isn't below `key`, and returns it. If there is none,
    /// moves past the last entry, and returns `None`.
    pub fn seek(&mut self, key: &[u8]) -> Option<Entry<'a>>
        ensures checked { cursor_checked self.new ≡ cursor_checked self.old }
        ensures start { cursor_start self.new ≡ cursor_start self.old }
        ensures moves { ReturnsEntry (seek_to key.now) self.old self.new result }
        ensures opens { SeekOpens key.now self.old self.new }
        ensures none { result ≡ None → cursor_place self.new ≡ Past }
        ensures compared { SeekCompares key.now self.old self.new }
    {
        entry_of(self.seek_element(key))
    }

    /// Moves to the next entry, and returns its element. If there is none, it stays where it is.
    #[inline(always)]
    pub(crate) fn next_element(&mut self) -> Option<Leaf<'a>>
        ensures checked { cursor_checked self.new ≡ cursor_checked self.old }
        ensures start { cursor_start self.new ≡ cursor_start self.old }
        ensures moves { ReturnsElement next_move self.old self.new result }
        ensures opens { NextOpens self.old self.new }
        ensures none { result ≡ None → cursor_place self.new ≡ cursor_place self.old }
        ensures compared { cursor_compared self.new ≡ cursor_compared self.old }
        ensures bucket { HasBucketValue result }
    {
        let Some(last) = self.stack.len().checked_sub(1) else {
            // After a `seek` that returned nothing, this opens nothing: only all its pages could tell
            // that the bucket is empty.
            if self.is_past {
                return None;
            }
            return self.start(false);
        };
        let top = &self.stack[last];
        if let TreePage::Leaf(page) = top.page {
            if top.taken < u32::from(page.count()) {
                let leaf = page.element(top.taken as u16);
                self.stack[last].taken += 1;
                return Some(leaf);
            }
            if last == 0 {
                return None;
            }
        }
        self.go_further(false)
    }

    /// Moves to the first entry or, if `back` is set, to the last one. If there is none, its stack is
    /// empty, and it is past the last entry if it was.
    fn start(&mut self, back: bool) -> Option<Leaf<'a>>
        ensures moved { IsMoved (cursor_trail self.old) (cursor_trail self.new) }
        ensures found { ComesTo back result (elements_in (pages_bucket self.old.pages)) (cursor_trail self.new) [] }
        ensures bucket { HasBucketValue result }
        ensures opened { OpensInto back (cursor_trail self.old) (cursor_trail self.new) }
        ensures past { MatchOption result (self.new.is_past ≡ self.old.is_past) (λ leaf. self.new.is_past ≡ false) }
        ensures compared { self.new.compared ≡ self.old.compared }
    {
        self.stack.clear();
        let root = self.pages.open_root();
        self.stack.push(Position::at_edge(root, back));
        let found = self.pages.go(&mut self.stack, back);
        self.is_past &= found.is_none();
        found
    }

    /// Moves from an entry to the next one or, if `back` is set, to the preceding one, past the end
    /// of the leaf too. If there is none, it stays where it is.
    #[inline(never)]
    fn go_further(&mut self, back: bool) -> Option<Leaf<'a>>
        requires { frames_of self.old.stack.items ≢ [] }
        ensures goes { Goes back (cursor_trail self.old) (cursor_trail self.new) result }
        ensures past { self.new.is_past ≡ self.old.is_past }
        ensures compared { self.new.compared ≡ self.old.compared }
    {
        set_positions(&mut self.saved, self.stack.as_slice());
        if let Some(leaf) = self.pages.go(&mut self.stack, back) {
            return Some(leaf);
        }
        set_positions(&mut self.stack, self.saved.as_slice());
        None
    }

    /// Moves to the first entry whose key isn't below `key`, and returns its element. If there is
    /// none, moves past the last entry.
    pub(crate) fn seek_element(&mut self, key: &[u8]) -> Option<Leaf<'a>>
        ensures checked { cursor_checked self.new ≡ cursor_checked self.old }
        ensures start { cursor_start self.new ≡ cursor_start self.old }
        ensures moves { ReturnsElement (seek_to key.now) self.old self.new result }
        ensures opens { SeekOpens key.now self.old self.new }
        ensures none { result ≡ None → cursor_place self.new ≡ Past }
        ensures compared { SeekCompares key.now self.old self.new }
        ensures bucket { HasBucketValue result }
    {
        self.stack.clear();
        let root = self.pages.open_root();
        self.compared = self.pages.descend(&mut self.stack, root, key);
        let found = self.pages.go(&mut self.stack, false);
        self.is_past = found.is_none();
        found
    }
}

/// The entry of an element, if there is one.
fn entry_of(found: Option<Leaf<'_>>) -> Option<Entry<'_>>
    requires { HasBucketValue found }
    ensures entry { option_map shown_entry result ≡ option_map entry_view (option_map leaf_view found.entry) }
    ensures none { result ≡ None → found.entry ≡ None }
{
    match found {
        Some(leaf) => Some(Entry::of(&leaf)),
        None => None,
    }
}
