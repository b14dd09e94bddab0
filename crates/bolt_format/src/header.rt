//! The header at the start of a page, and the kinds of pages.
ghost use Rattle.std.specs.Prelude.{◌≡◌, ◌≤◌, length};
ghost use Rattle.bolt_format.specs.Headers.{count_field, flags_field, flags_of, id_field, kind_of, overflow_field};

use crate::bytes::{u16_at, u32_at, u64_at};

/// The length of a page's header.
pub const HEADER_LEN: usize = 16;

const BRANCH_FLAGS: u16 = 0x01;

const LEAF_FLAGS: u16 = 0x02;

const META_FLAGS: u16 = 0x04;

const FREELIST_FLAGS: u16 = 0x10;

/// The fields of a page's header (docs/FORMAT.md, "Page header").
#[derive(Clone, Copy)]
pub(crate) struct Header {
    /// The page's own number.
    pub id: u64,
    /// The kind of page, one of four numbers.
    pub flags: u16,
    /// The number of its elements or ids.
    pub count: u16,
    /// The number of further pages of its span.
    pub overflow: u32,
}

impl Header {
    /// Reads the header from the first 16 bytes.
    pub fn read(bytes: &[u8]) -> Header
        requires { 16 ≤ length bytes.now }
        ensures id { result.id ≡ id_field bytes.now }
        ensures flags { result.flags ≡ flags_field bytes.now }
        ensures count { result.count ≡ count_field bytes.now }
        ensures overflow { result.overflow ≡ overflow_field bytes.now }
    {
        Header {
            id: u64_at(bytes, 0),
            flags: u16_at(bytes, 8),
            count: u16_at(bytes, 10),
            overflow: u32_at(bytes, 12),
        }
    }

    /// The kind of page that the flags stand for, if any.
    pub fn kind(self) -> Option<Kind>
        ensures { result ≡ kind_of self.flags }
    {
        Kind::from_flags(self.flags)
    }
}

/// The kind of a page, by the flags in its header (docs/FORMAT.md, "Page header").
#[derive(Clone, Copy, Debug, PartialEq, Eq)]
pub enum Kind {
    /// A page whose elements lead to other pages.
    Branch,
    /// A page whose elements are keys with values or buckets.
    Leaf,
    /// Contains a meta record.
    Meta,
    /// Contains the numbers of free pages.
    Freelist,
}

impl Kind {
    /// The kind of page that flags stand for, if any.
    pub(crate) fn from_flags(flags: u16) -> Option<Kind>
        ensures { result ≡ kind_of flags }
    {
        match flags {
            BRANCH_FLAGS => Some(Kind::Branch),
            LEAF_FLAGS => Some(Kind::Leaf),
            META_FLAGS => Some(Kind::Meta),
            FREELIST_FLAGS => Some(Kind::Freelist),
            _ => None,
        }
    }

    /// The flags of pages of this kind.
    pub(crate) fn flags(self) -> u16
        ensures { result ≡ flags_of self }
    {
        match self {
            Kind::Branch => BRANCH_FLAGS,
            Kind::Leaf => LEAF_FLAGS,
            Kind::Meta => META_FLAGS,
            Kind::Freelist => FREELIST_FLAGS,
        }
    }
}
