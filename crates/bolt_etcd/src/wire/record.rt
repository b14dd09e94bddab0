//! The record of a key: what etcd keeps of it at a revision.
ghost use Rattle.std.specs.Prelude.{◌≡◌};
ghost use Rattle.bolt_etcd.specs.{Wire.Records.record_of, Wire.Records.with, Private.Returns.Returns, Wire.Revisions.without_value};
ghost use Rattle.bolt_etcd.specs.{Wire.ShownRecords.shown_field, Wire.ShownRecords.shown_record};

use crate::wire::{Field, read_field};

/// What etcd keeps of a key at a revision.
#[derive(Clone, Copy, Debug, PartialEq, Eq)]
pub struct Record<'a> {
    /// The key, as etcd's clients name it.
    pub name: &'a [u8],
    /// The revision that created the key.
    pub created: u64,
    /// The revision of this record.
    pub modified: u64,
    /// How often the key was written since it was created.
    pub version: u64,
    /// The value of the key.
    pub value: &'a [u8],
    /// The lease that the key is attached to, or 0.
    pub lease: u64,
}

impl<'a> Record<'a> {
    /// Decodes a record. Returns `None` if the bytes aren't a list of fields up to their end, or if
    /// a field of a record doesn't have its wire type. Of several fields with one number the last
    /// one counts. What isn't there is empty or 0. Needs no memory.
    #[tactic(auto, using(crate::proofs::Fields::decoding))]
    pub fn decode(bytes: &'a [u8]) -> Option<Record<'a>>
        ensures { Returns shown_record result (record_of bytes.now) }
    {
        let mut record = Record {
            name: &[],
            created: 0,
            modified: 0,
            version: 0,
            value: &[],
            lease: 0,
        };
        let mut rest = bytes;
        while !rest.is_empty() {
            let (field, after) = read_field(rest)?;
            record.set(field)?;
            rest = after;
        }
        Some(record)
    }

    /// Keeps the name and the revision of the record.
    pub(crate) fn forget_value(&mut self)
        ensures { shown_record self.new ≡ without_value (shown_record self.old) }
    {
        self.created = 0;
        self.version = 0;
        self.value = &[];
        self.lease = 0;
    }

    /// Takes one more field in, or returns `None` if the field doesn't have its wire type.
    #[tactic(auto, unfolding(crate::specs::Wire::Records::with))]
    #[inline(always)]
    fn set(&mut self, field: Field<'a>) -> Option<()>
        ensures { Returns (λ _. shown_record self.new) result
            (with (shown_record self.old) (shown_field field.entry)) }
    {
        let value = field.value;
        match field.number {
            1 => self.name = value.bytes()?,
            2 => self.created = value.number()?,
            3 => self.modified = value.number()?,
            4 => self.version = value.number()?,
            5 => self.value = value.bytes()?,
            6 => self.lease = value.number()?,
            _ => {}
        }
        Some(())
    }
}
