//! The revisions of a bucket, one after another.
ghost use Rattle.std.specs.Prelude.{◌≡◌, ◌<◌, ℕ, IfSome, None, false};
ghost use Rattle.std.specs.{Int.to_be_bytes, Int.w64, Option.option_map};
ghost use Rattle.bolt_tree.specs.{BucketViews.bucket_in, CursorBounds.OpensGap, CursorBounds.OpensSeek, Buckets.bucket_checked, Buckets.bucket_start};
ghost use Rattle.bolt_tree.specs.{ShownEntries.shown_entry};
ghost use Rattle.bolt_etcd.specs.{Wire.ShownRevisions.shown_revision, Store.Stores.entries_from, Wire.Numbered.numbered_of};
ghost use Rattle.bolt_etcd.specs.{Wire.RevisionKeys.IsSpelled, Wire.UnreadEntries.shown_unread};

use crate::wire::numbered_entry::NumberedEntry;
use crate::wire::revision::Revision;
use crate::wire::revision_key::RevisionKey;
use crate::wire::unread_entry::{UnreadEntry, count_unread};
use bolt_tree::{Bucket, Cursor, Entry};

/// A pass over the revisions of a bucket, in the order of their keys. It keeps nothing of those that
/// it has returned, and needs no memory.
#[derive(Drop)]
pub struct Revisions<'a> {
    cursor: Cursor<'a>,
    /// The key to seek, until it was sought.
    from: Option<[u8; 8]>,
    unread: u64,
}

#[tactic(auto, unfolding(crate::specs::Store::RevisionsLeft::pass_viewers))]
impl<'a> Revisions<'a> {
    ghost use Rattle.bolt_etcd.specs.Private.Passes.{ShowsFirst};
    ghost use Rattle.bolt_etcd.specs.Store.RevisionsLeft.{CountsPassed, ForPass, GivesFirst, OpensOne, ahead_of, begins_with_other, number_ahead};
    ghost use Rattle.bolt_etcd.specs.Store.RevisionsLeft.{pass_checked, pass_opened, pass_unread, pass_start};

    /// All revisions of a bucket.
    pub fn of(bucket: &Bucket<'a>) -> Revisions<'a>
        ensures checked { pass_checked result ≡ bucket_checked bucket.now }
        ensures start { pass_start result ≡ bucket_start bucket.now }
        ensures all { ForPass result (λ entries. ahead_of result entries ≡ entries) }
        ensures unread { pass_unread result ≡ 0 }
        ensures opened { pass_opened result ≡ 0 }
        ensures opens { (n : ℕ) → OpensOne result n
            → OpensGap (bucket_in (bucket_checked bucket.now) (bucket_start bucket.now)) 0 0 n }
    {
        Revisions {
            cursor: bucket.cursor(),
            from: None,
            unread: 0,
        }
    }

    /// The revisions of a bucket from a transaction on: those whose keys aren't below its number in
    /// eight bytes. The first one is found by a seek, and no other entry is looked at.
    pub fn from(bucket: &Bucket<'a>, main: u64) -> Revisions<'a>
        ensures checked { pass_checked result ≡ bucket_checked bucket.now }
        ensures start { pass_start result ≡ bucket_start bucket.now }
        ensures rest { ForPass result (λ entries.
            ahead_of result entries ≡ entries_from (to_be_bytes w64 main) entries) }
        ensures unread { pass_unread result ≡ 0 }
        ensures opened { pass_opened result ≡ 0 }
        ensures opens { (n : ℕ) → OpensOne result n
            → OpensSeek (bucket_in (bucket_checked bucket.now) (bucket_start bucket.now))
            (to_be_bytes w64 main) 0 n }
    {
        Revisions {
            cursor: bucket.cursor(),
            from: Some(main.to_be_bytes()),
            unread: 0,
        }
    }

    /// Returns the next revision, or `None` if there is none. Entries that aren't revisions are
    /// passed over, and counted unless they are marks. If the next entry is a revision, it opens the pages of a seek if it
    /// is the first one of `from`, and otherwise those of the cursor's `next`.
    pub fn next(&mut self) -> Option<Revision<'a>>
        ensures checked { pass_checked self.new ≡ pass_checked self.old }
        ensures start { pass_start self.new ≡ pass_start self.old }
        ensures given { ForPass self.old (λ entries.
            GivesFirst (ahead_of self.old entries) (ahead_of self.new entries)
            (option_map shown_revision result)) }
        ensures counts { CountsPassed self.old self.new }
        ensures fewer { IfSome result (λ _. number_ahead self.new < number_ahead self.old) }
        ensures opens { ForPass self.old (λ entries.
            begins_with_other (ahead_of self.old entries) ≡ false
            → OpensOne self.old (pass_opened self.new)) }
    {
        'rest: while let Some(entry) = self.advance() {
            if let Some(revision) = Revision::of(&entry) {
                return Some(revision);
            }
            self.unread = self.unread.saturating_add(count_unread(&entry));
        }
        None
    }

    /// The number of entries that `next` has passed over and that are neither revisions nor marks. It
    /// saturates at 2^64 - 1.
    pub fn unread(&self) -> u64
        ensures { result ≡ pass_unread self.now }
    {
        self.unread
    }

    /// The number of pages that the pass has opened. It saturates at 2^64 - 1.
    pub fn opened(&self) -> u64
        ensures { result ≡ pass_opened self.now }
    {
        self.cursor.opened()
    }

    /// Goes on to the next entry of the bucket, whatever it is, and counts nothing.
    pub(crate) fn advance(&mut self) -> Option<Entry<'a>>
        ensures checked { pass_checked self.new ≡ pass_checked self.old }
        ensures start { pass_start self.new ≡ pass_start self.old }
        ensures first { ForPass self.old (λ entries.
            ShowsFirst (ahead_of self.old entries) (ahead_of self.new entries)
            (option_map shown_entry result)) }
        ensures unread { pass_unread self.new ≡ pass_unread self.old }
        ensures opens { OpensOne self.old (pass_opened self.new) }
    {
        match self.from.take() {
            Some(key) => self.cursor.seek(&key),
            None => self.cursor.next(),
        }
    }
}

impl<'a> Revisions<'a> {
    ghost use Rattle.bolt_etcd.specs.{Wire.Numbered.GivesNumber, Wire.UnreadEntries.GivesUnread};
    ghost use Rattle.bolt_etcd.specs.Store.RevisionsLeft.{ForPass, ahead_of, number_ahead, pass_checked, pass_unread, pass_start};

    /// Returns the next entry that is neither a revision nor a mark, or `None` if there is none. It
    /// counts nothing.
    pub fn next_unread(&mut self) -> Option<UnreadEntry<'a>>
        ensures checked { pass_checked self.new ≡ pass_checked self.old }
        ensures start { pass_start self.new ≡ pass_start self.old }
        ensures unread { pass_unread self.new ≡ pass_unread self.old }
        ensures given { ForPass self.old (λ entries.
            GivesUnread (ahead_of self.old entries) (ahead_of self.new entries)
            (option_map shown_unread result)) }
        ensures fewer { IfSome result (λ _. number_ahead self.new < number_ahead self.old) }
    {
        'rest: while let Some(entry) = self.advance() {
            let other = UnreadEntry::of(&entry);
            if other.is_some() {
                return other;
            }
        }
        None
    }

    /// Returns the key of the next revision or mark, or `None` if there is none. Others are passed
    /// over, and nothing is counted.
    pub(crate) fn next_number(&mut self) -> Option<RevisionKey>
        ensures checked { pass_checked self.new ≡ pass_checked self.old }
        ensures start { pass_start self.new ≡ pass_start self.old }
        ensures given { ForPass self.old (λ entries.
            GivesNumber (ahead_of self.old entries) (ahead_of self.new entries) result) }
        ensures numbers { IfSome result IsSpelled }
        ensures fewer { IfSome result (λ _. number_ahead self.new < number_ahead self.old) }
    {
        'rest: while let Some(entry) = self.advance() {
            let key = number_of(&entry);
            if key.is_some() {
                return key;
            }
        }
        None
    }
}

/// The key of an entry that is a revision or a mark.
fn number_of(entry: &Entry<'_>) -> Option<RevisionKey>
    ensures key { result ≡ option_map (λ r. r.key) (numbered_of (shown_entry entry.now)) }
    ensures numbers { IfSome result IsSpelled }
{
    let numbered = NumberedEntry::of(entry)?;
    Some(numbered.key)
}
