//! Revisions and marks: the entries of the bucket `key` that have a number.
ghost use Rattle.std.specs.Prelude.{◌≡◌, IfSome};
ghost use Rattle.bolt_tree.specs.ShownEntries.{shown_entry};
ghost use Rattle.bolt_etcd.specs.{Wire.RevisionKeys.IsSpelled, Wire.RevisionKeys.is_mark};

use crate::wire::record::Record;
use crate::wire::revision_key::RevisionKey;
use bolt_tree::{Entry, Item};

/// A revision or a mark.
#[derive(Clone, Copy)]
pub(crate) struct NumberedEntry<'a> {
    pub key: RevisionKey,
    pub stored_key: &'a [u8],
    pub value: &'a [u8],
    /// The name of the key that the entry is a revision of. A mark has a name without bytes.
    pub name: &'a [u8],
}

impl<'a> NumberedEntry<'a> {
    ghost use Rattle.bolt_etcd.specs.Wire.ShownNumbered.{IsNumbered};

    /// The revision or the mark that an entry is, or `None` if it is neither. Needs no memory.
    #[tactic(auto, unfolding(crate::specs::Wire::Numbered::numbered_of))]
    pub(crate) fn of(entry: &Entry<'a>) -> Option<NumberedEntry<'a>>
        ensures is { IsNumbered (shown_entry entry.now) result }
        ensures numbers { IfSome result (λ numbered. IsSpelled numbered.key) }
    {
        let Item::Value(value) = entry.item else {
            return None;
        };
        let key = RevisionKey::read(entry.key)?;
        let record = Record::decode(value)?;
        Some(NumberedEntry {
            key,
            stored_key: entry.key,
            value,
            name: record.name,
        })
    }

    /// Whether the entry is a mark.
    pub(crate) fn is_mark(&self) -> bool
        ensures { result ≡ is_mark self.now.key self.now.value.now }
    {
        !self.key.deleted && self.value.is_empty()
    }
}
