//! The deeds of an outside in memory.
ghost use Rattle.std.specs.Prelude.{◌≡◌, List, [], ◌∷◌, ◌++◌, OnOk};
ghost use Rattle.bolt_cli.specs.Deeds.{Deed, Adds};
ghost use Rattle.bolt_format.specs.declared.sink.MemSink.{MemSink};
ghost use Rattle.test_calls.specs.Logs.{Holds, Look, look_of, look, Notes, look_at};

use bolt_format::{MemSink, Sink};
use std::alloc::{AllocError, Global};

/// The kind of a deed, and how it went.
#[derive(Clone, Copy, PartialEq, Eq)]
pub enum Kind {
    Read,
    /// FILE was changed while it was read.
    ReadChanged,
    ReadFirst,
    ReadOn,
    Unread,
    NotReadOn,
    Made,
    Unmade,
    Ended,
    Unended,
    Opened,
    Unopened,
    Printed,
    /// The reader of standard output has left.
    Left,
    Unprinted,
    Said,
}

/// A deed. What has no meaning for its kind is empty or 0.
#[derive(Drop)]
pub struct Record {
    pub kind: Kind,
    pub name: Vec<u8>,
    pub bytes: Vec<u8>,
    pub permissions: u32,
}

/// The deeds so far. If there was no memory for one, it may have lost it.
#[derive(Drop)]
pub struct Log {
    alloc: Global,
    pub records: Vec<Record>,
    pub has_lost: bool,
}

impl Log {
    /// No deed.
    pub fn new(alloc: Global) -> Self {
        Log {
            alloc,
            records: Vec::new(alloc),
            has_lost: false,
        }
    }

    /// Adds a deed, which looks like this.
    pub fn note(&mut self, kind: Kind, name: &[u8], bytes: &[u8], permissions: u32)
        ensures { Notes ⟦<MemSink as Sink>⟧.taken self.old self.new
            (look_of kind name.now bytes.now permissions) }
    {
        if push(
            self.alloc,
            &mut self.records,
            kind,
            name,
            bytes,
            permissions,
        )
        .is_err()
        {
            self.has_lost = true;
        }
    }
}

fn push(
    alloc: Global,
    records: &mut Vec<Record>,
    kind: Kind,
    name: &[u8],
    bytes: &[u8],
    permissions: u32,
) -> Result<(), AllocError>
    ensures { OnOk result ((one : Record) × (records.new.items ≡ records.old.items ++ one ∷ [])
        × (look_at one ≡ look_of kind name.now bytes.now permissions)) }
{
    let name = name.to_vec(alloc)?;
    let bytes = bytes.to_vec(alloc)?;
    records.push(Record {
        kind,
        name,
        bytes,
        permissions,
    })?;
    Ok(())
}
