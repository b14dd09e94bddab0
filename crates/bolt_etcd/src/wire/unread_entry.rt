//! Entries that are neither revisions nor marks.
ghost use Rattle.std.specs.Prelude.{◌≡◌, length};
ghost use Rattle.std.specs.Option.{option_map, option_to_list};
ghost use Rattle.bolt_tree.specs.ShownEntries.{shown_entry};
ghost use Rattle.bolt_etcd.specs.{Wire.UnreadEntries.unread_entry_of, Wire.UnreadEntries.shown_unread};

use crate::wire::record::Record;
use crate::wire::revision_key::RevisionKey;
use bolt_tree::{Entry, Item};

/// An entry of the bucket `key` that is neither a revision nor a mark.
#[derive(Clone, Copy, Debug, PartialEq, Eq)]
pub enum UnreadEntry<'a> {
    /// The entry is a bucket, or its key, which this is, isn't a revision key.
    Key(&'a [u8]),
    /// The entry's value isn't a record. This is its key.
    Record(RevisionKey),
}

impl<'a> UnreadEntry<'a> {
    /// What an entry is, or `None` if it is a revision or a mark. Needs no memory.
    #[tactic(auto, unfolding(crate::specs::Wire::UnreadEntries::unread_entry_of))]
    pub fn of(entry: &Entry<'a>) -> Option<UnreadEntry<'a>>
        ensures { option_map shown_unread result ≡ unread_entry_of (shown_entry entry.now) }
    {
        let Item::Value(value) = entry.item else {
            return Some(UnreadEntry::Key(entry.key));
        };
        let Some(key) = RevisionKey::read(entry.key) else {
            return Some(UnreadEntry::Key(entry.key));
        };
        match Record::decode(value) {
            Some(_) => None,
            None => Some(UnreadEntry::Record(key)),
        }
    }
}

/// 1 if an entry is unread, or 0 if it is a revision or a mark.
pub(crate) fn count_unread(entry: &Entry<'_>) -> u64
    ensures { result ≡ length (option_to_list (unread_entry_of (shown_entry entry.now))) }
{
    match UnreadEntry::of(entry) {
        Some(_) => 1,
        None => 0,
    }
}
