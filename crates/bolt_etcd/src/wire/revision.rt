//! A revision of a key, as the bucket `key` keeps it.
ghost use Rattle.std.specs.Prelude.{◌≡◌, ◌/◌, ◌%◌, ◌^◌, IfSome, Some, None};
ghost use Rattle.std.specs.Option.{option_map};
ghost use Rattle.std.proofs.Props.{props};
ghost use Rattle.bolt_format.specs.Bytes.{IsBytes};
ghost use Rattle.bolt_check.specs.Keys.{key_cmp, Key};
ghost use Rattle.bolt_tree.specs.ShownEntries.{shown_entry};
ghost use Rattle.bolt_etcd.specs.{Private.Returns.Returns, Wire.RevisionKeys.IsSpelled, Wire.Revisions.name_of};
ghost use Rattle.bolt_etcd.specs.{Store.Newest.is_until, Store.Orders.name_sum, Store.Orders.stored_key_cmp};
ghost use Rattle.bolt_etcd.specs.{Wire.Revisions.revision_in, Wire.Revisions.revision_of, Check.Misplaced.is_misplaced, Check.Follows.creates};
ghost use Rattle.bolt_etcd.specs.{Check.Follows.follows, Check.Follows.is_next_of};

use crate::wire::name_tag::{MAINS, tag_of};
use crate::wire::record::Record;
use crate::wire::revision_key::RevisionKey;
use bolt_tree::{Entry, Item};
use byteorder::{BigEndian, ByteOrder};
use std::cmp::Ordering;

/// A revision: the key and the value of an entry that is one, and the name of the key that it is a
/// revision of. It takes 56 bytes. What else it says is decoded again when it is asked for.
#[derive(Clone, Copy)]
pub struct Revision<'a> {
    key: &'a [u8],
    value: &'a [u8],
    name: &'a [u8],
    /// The sum of the name and the lower bits of the transaction, by which most revisions are told apart without
    /// a look at their names.
    tag: u64,
    ghost decodes: { option_map name_of (revision_in key.now value.now) ≡ Some name.now },
    ghost bytes: { IsBytes key.now },
    ghost sums: { tag / 2 ^ 24 ≡ name_sum name.now },
}

/// What a revision says: its key, and its record.
#[derive(Clone, Copy, Debug, PartialEq, Eq)]
pub struct DecodedRevision<'a> {
    /// The revision's key.
    pub key: RevisionKey,
    /// The revision's record. Of a deletion it has the name and the revision alone.
    pub content: Record<'a>,
}

#[tactic(auto, unfolding(crate::specs::Wire::ShownRevisions::shown_revision, crate::specs::Wire::Revisions::revision_of))]
impl<'a> Revision<'a> {
    ghost use Rattle.bolt_etcd.specs.Wire.ShownRevisions.{entry_of, shown_decoded, shown_revision, value_bytes};

    /// The revision of a transaction that is under a key, with its value and its name.
    fn new(key: &'a [u8], value: &'a [u8], name: &'a [u8], main: u64) -> Revision<'a>
        requires { option_map name_of (revision_in key.now value.now) ≡ Some name.now }
        ensures key { result.key.now ≡ key.now }
        ensures value { result.value.now ≡ value.now }
    {
        let tag = tag_of(name, main);
        Revision {
            key,
            value,
            name,
            tag,
        }
    }

    /// The entry of the bucket `key` as a revision. Returns `None` if it isn't one: if it is a
    /// bucket or a mark, or its key isn't a revision key, or its value isn't a record. A mark has
    /// the key of a revision that isn't a deletion, and a value without bytes. Needs no memory.
    pub fn of(entry: &Entry<'a>) -> Option<Revision<'a>>
        ensures revision { Returns shown_revision result (revision_of (shown_entry entry.now)) }
        ensures entry { IfSome result (λ revision. entry_of revision ≡ shown_entry entry.now) }
    {
        let Item::Value(value) = entry.item else {
            return None;
        };
        let decoded = DecodedRevision::of(entry.key, value)?;
        Some(Revision::new(entry.key, value, decoded.content.name, decoded.key.main))
    }

    /// The name of the key that the revision is one of.
    pub fn name(&self) -> &'a [u8]
        ensures { result.now ≡ name_of (shown_revision self.now) }
    {
        self.name
    }

    /// The sum of the revision's name.
    pub(crate) fn sum(&self) -> u64
        ensures { result ≡ name_sum (name_of (shown_revision self.now)) }
    {
        self.tag / MAINS
    }

    /// The lower bits of the number of the revision's transaction.
    pub(crate) fn low_main(&self) -> u64
        ensures { result ≡ self.now.tag % 2 ^ 24 }
    {
        self.tag % MAINS
    }

    /// The sum of the revision's name, and the lower bits of the number of its transaction.
    pub(crate) fn tag(&self) -> u64
        ensures { result ≡ self.now.tag }
    {
        self.tag
    }

    /// The revision's key.
    pub fn key(&self) -> RevisionKey
        ensures key { result ≡ (shown_revision self.now).key }
        ensures numbers { IsSpelled result }
    {
        RevisionKey::read(self.key).unwrap()
    }

    /// The revision's key as it is stored. Revisions are ordered by it.
    pub fn stored_key(&self) -> &'a [u8]
        ensures revision { result.now ≡ (shown_revision self.now).stored_key }
        ensures entry { result.now ≡ (entry_of self.now).key }
    {
        self.key
    }

    /// The entry that the revision is.
    pub fn entry(&self) -> Entry<'a>
        ensures { shown_entry result ≡ entry_of self.now }
    {
        Entry {
            key: self.key,
            item: Item::Value(self.value),
        }
    }

    /// The revision's value as it is stored.
    pub fn value(&self) -> &'a [u8]
        ensures { result.now ≡ value_bytes (entry_of self.now) }
    {
        self.value
    }

    /// The number of the revision's transaction.
    pub fn main(&self) -> u64
        ensures { result ≡ (shown_revision self.now).key.main }
    {
        BigEndian::read_u64(self.key)
    }

    /// Whether the revision's transaction isn't later than `up_to`.
    pub fn is_until(&self, up_to: u64) -> bool
        ensures { result ≡ is_until up_to (shown_revision self.now) }
    {
        self.main() <= up_to
    }

    /// Compares two revisions by their stored keys. Mostly their transactions differ, and no key is read whole.
    pub fn cmp_stored_key(&self, other: &Revision<'_>) -> Ordering
        ensures revisions { result ≡ stored_key_cmp (shown_revision self.now) (shown_revision other.now) }
        ensures entries { result ≡ key_cmp (entry_of self.now).key (entry_of other.now).key }
    {
        match self.main().cmp(&other.main()) {
            Ordering::Equal => self.stored_key().cmp(other.stored_key()),
            order => order,
        }
    }

    /// What the revision says: its key and its record.
    pub fn decode(&self) -> DecodedRevision<'a>
        ensures { shown_decoded (shown_revision self.now).stored_key result ≡ shown_revision self.now }
    {
        DecodedRevision::of(self.key, self.value).unwrap()
    }
}

impl<'a> Revision<'a> {
    ghost use Rattle.bolt_etcd.specs.Wire.ShownRevisions.{shown_revision};

    /// Whether the revision's record says that another transaction wrote it. A deletion's doesn't say.
    #[tactic(auto, unfolding(crate::specs::Check::Misplaced::is_misplaced))]
    pub fn is_misplaced(&self) -> bool
        ensures { result ≡ is_misplaced (shown_revision self.now) }
    {
        self.decode().is_misplaced()
    }

    /// Whether the revision can be the first of its name: it creates the key.
    #[tactic(auto, unfolding(crate::specs::Check::Follows::follows))]
    pub fn creates(&self) -> bool
        ensures { result ≡ follows None (shown_revision self.now) }
    {
        self.decode().creates()
    }

    /// Whether the revision can be the one after `before`, which has the same name. After a put that is
    /// a deletion, or the next version of the same key; after a deletion, what creates the key.
    #[tactic(auto, unfolding(crate::specs::Check::Follows::follows))]
    pub fn follows(&self, before: &Revision<'_>) -> bool
        ensures { result ≡ follows (Some (shown_revision before.now)) (shown_revision self.now) }
    {
        let (before, this) = (before.decode(), self.decode());
        if before.key.deleted {
            return this.creates();
        }
        this.key.deleted || this.is_next_of(&before)
    }
}

impl<'a> DecodedRevision<'a> {
    ghost use Rattle.bolt_etcd.specs.Wire.ShownRevisions.{shown_decoded};

    /// Decodes the revision under a key with a value, if it is one.
    fn of(key: &'a [u8], value: &'a [u8]) -> Option<DecodedRevision<'a>>
        ensures { Returns (shown_decoded key.now) result (revision_in key.now value.now) }
    {
        let key = RevisionKey::read(key)?;
        if !key.deleted && value.is_empty() {
            return None;
        }
        let mut content = Record::decode(value)?;
        if key.deleted {
            content.forget_value();
        }
        Some(DecodedRevision { key, content })
    }

    /// Whether the revision's record says that another transaction wrote it. A deletion's doesn't say.
    #[tactic(auto, unfolding(crate::specs::Check::Misplaced::is_misplaced))]
    pub(crate) fn is_misplaced(&self) -> bool
        ensures { (stored_key : Key) → result ≡ is_misplaced (shown_decoded stored_key self.now) }
    {
        !self.key.deleted && self.content.modified != self.key.main
    }

    /// Whether the revision creates its key.
    fn creates(&self) -> bool
        ensures { (stored_key : Key) → result ≡ creates (shown_decoded stored_key self.now) }
    {
        let content = &self.content;
        !self.key.deleted && content.version == 1 && content.created == self.key.main
    }

    /// Whether the revision has the version after that of `before`, of the same key.
    fn is_next_of(&self, before: &DecodedRevision<'_>) -> bool
        ensures { (stored_key other : Key)
            → result ≡ is_next_of (shown_decoded other before.now) (shown_decoded stored_key self.now) }
    {
        let (content, before) = (&self.content, &before.content);
        content.version > before.version
            && content.version - before.version == 1
            && content.created == before.created
    }
}
