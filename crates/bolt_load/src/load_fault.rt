//! Why a text isn't that of a listing.
ghost use Rattle.std.specs.Prelude.{◌≡◌};
ghost use Rattle.bolt_load.specs.LoadFaultWords.{line_fault_words, load_fault_words};
ghost use Rattle.bolt_load.specs.declared.load_fault.LoadFault.TheVariants as load;

use bolt_tree::NoMemory;
use std::alloc::AllocError;
use std::error::Error;
use std::fmt;

/// What is wrong with a line: the first of these that holds.
#[derive(Clone, Copy, Debug, PartialEq, Eq)]
pub enum LineFault {
    /// The line isn't a path, a mark and a value or a sequence.
    NotALine,
    /// A part of the path has more than 2^30 bytes.
    KeyTooLong,
    /// The value has more than 2^31 - 2 bytes.
    ValueTooLong,
    /// The path isn't above that of the line before.
    PathNotRising,
    /// No line before is that of the bucket that the path is in.
    NoBucketAbove,
    /// The text ends within the line: no line feed ends it. So it ends before line 1 if it is empty.
    CutOff,
}

impl LineFault {
    /// What is reported of it.
    pub fn words(self) -> &'static str
        ensures { result.now ≡ line_fault_words self }
    {
        match self {
            LineFault::NotALine => "not a line of a listing",
            LineFault::KeyTooLong => "key too long",
            LineFault::ValueTooLong => "value too long",
            LineFault::PathNotRising => "path not rising",
            LineFault::NoBucketAbove => "no bucket above",
            LineFault::CutOff => "cut off",
        }
    }
}

impl fmt::Display for LineFault {
    ghost use Rattle.std.specs.Prelude.{Some};

    ghost output = { λ fault. Some (line_fault_words fault) };

    fn fmt<W: fmt::Write>(&self, f: &mut fmt::Formatter<W>) -> fmt::Result {
        f.write_str(self.words())
    }
}

impl Error for LineFault {}

/// Why a text isn't read.
#[derive(Clone, Copy, Debug, PartialEq, Eq)]
pub enum LoadFault {
    /// Memory ran out.
    Memory,
    /// The first line that isn't right.
    Line {
        /// The line's number, from 1.
        line: u64,
        /// What is wrong with it.
        fault: LineFault,
    },
}

impl fmt::Display for LoadFault {
    ghost use Rattle.std.specs.Prelude.{Some};

    ghost output = { λ fault. Some (load_fault_words fault) };

    fn fmt<W: fmt::Write>(&self, f: &mut fmt::Formatter<W>) -> fmt::Result {
        match self {
            LoadFault::Memory => f.write_str("out of memory"),
            LoadFault::Line { line, fault } => write!(f, "line {line}: {fault}"),
        }
    }
}

impl Error for LoadFault {}

impl From<AllocError> for LoadFault {
    ghost from_gives = { λ _ fault. fault ≡ load.Memory };

    fn from(_error: AllocError) -> Self {
        LoadFault::Memory
    }
}

impl From<NoMemory> for LoadFault {
    ghost from_gives = { λ _ fault. fault ≡ load.Memory };

    fn from(_fault: NoMemory) -> Self {
        LoadFault::Memory
    }
}
