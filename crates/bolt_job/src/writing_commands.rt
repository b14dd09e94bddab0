//! The commands that write a database: which arguments each has and their help, its job, and how that is read. A
//! job's names are copied last: until then there is nothing to drop if a word can't be read.
ghost use Rattle.bolt_job.specs.CommandLine.{ReadsAs};
ghost use Rattle.bolt_job.specs.PlainWords.{asks_compact, asks_load, compact_of, load_of};
ghost use Rattle.bolt_job.specs.Private.CommandLines.{values_of};

use crate::bucket_commands::{READ_FOUND_PAGES, RECOVER};
use crate::choices::{CopyKind, Extent, MetaChoice, PageSize};
use crate::command_line::{Argument, Flag, Syntax};
use crate::line::Line;
use crate::page_commands::{ASSUME_META, FILE, META};
use crate::refusal::Refusal;

const LISTING: Argument = Argument {
    name: "FILE",
    flag: Flag::Operand,
    value: Some("FILE"),
    help: "The lines of a listing, as list prints them",
    required: true,
};

pub(crate) const OUTPUT: Argument = Argument {
    name: "output",
    flag: Flag::Short('o'),
    value: Some("OUT"),
    help: "The database file to write; it must not exist",
    required: true,
};

pub(crate) const PAGE_SIZE: Argument = Argument {
    name: "page-size",
    flag: Flag::Long,
    value: Some("N"),
    help: "The copy's page size in bytes, a power of two from 1024 to 33554432 [default: the file's]",
    required: false,
};

const LOAD_PAGE_SIZE: Argument = Argument {
    name: "page-size",
    flag: Flag::Long,
    value: Some("N"),
    help: "The database's page size in bytes, a power of two from 1024 to 33554432 [default: 4096]",
    required: false,
};

const SEQUENCE: Argument = Argument {
    name: "sequence",
    flag: Flag::Long,
    value: Some("S"),
    help: "The sequence of the root bucket, in decimal [default: 0]",
    required: false,
};

const FOR_BBOLT: Argument = Argument {
    name: "for-bbolt",
    flag: Flag::Long,
    value: None,
    help: "Give each branch page at least two children, so that bbolt can write to OUT",
    required: false,
};

const COPY_SNAPSHOT: Argument = Argument {
    name: "etcd-snapshot",
    flag: Flag::Long,
    value: None,
    help: "Write a snapshot that etcd restores: as with --for-bbolt, and then the SHA-256 of that",
    required: false,
};

/// Write a compact copy to another file.
#[derive(Drop)]
pub struct CompactJob {
    pub file: String,
    pub meta: MetaChoice,
    /// The name of OUT.
    pub target: String,
    /// The page size of the copy. Without one it is that of the file.
    pub page_size: Option<PageSize>,
    pub kind: CopyKind,
    pub extent: Extent,
}

pub(crate) static COMPACT: Syntax = Syntax {
    name: "compact",
    about: "Write a compact copy: everything in the file, and no free pages",
    arguments: &[
        FILE,
        OUTPUT,
        PAGE_SIZE,
        FOR_BBOLT,
        COPY_SNAPSHOT,
        RECOVER,
        READ_FOUND_PAGES,
        META,
        ASSUME_META,
    ],
    note: "Use --for-bbolt if bbolt or etcd will write to OUT. bbolt assumes that each branch page has at \
        least two children, and can panic when it deletes below one that has a single child. Without the \
        option OUT may have such pages.\n\n\
        Exit status: 0 if OUT has everything, 1 if something is lost or OUT isn't whole, 2 if the command line is wrong.\n\n\
        Example: luntsegi compact --for-bbolt -o new.db my.db",
};

#[tactic(auto, unfolding(crate::specs::PlainWords::asks_compact))]
pub(crate) fn read_compact(line: &Line<'_, '_>) -> Result<CompactJob, Refusal>
    ensures { ReadsAs compact_of (asks_compact (values_of line.now)) result }
{
    Ok(CompactJob {
        meta: line.meta()?,
        page_size: line.page_size()?,
        kind: line.copy_kind(),
        extent: line.extent("recover"),
        target: line.text("output")?,
        file: line.text("FILE")?,
    })
}

/// Write a database of the lines of a listing to another file.
#[derive(Drop)]
pub struct LoadJob {
    /// The name of the file that has the lines.
    pub file: String,
    /// The name of OUT.
    pub target: String,
    /// The sequence of the root bucket.
    pub sequence: u64,
    pub page_size: PageSize,
    pub kind: CopyKind,
}

pub(crate) static LOAD: Syntax = Syntax {
    name: "load",
    about: "Write a database of a listing: what list printed, or lines that were edited",
    arguments: &[
        LISTING,
        OUTPUT,
        LOAD_PAGE_SIZE,
        FOR_BBOLT,
        COPY_SNAPSHOT,
        SEQUENCE,
    ],
    note: "Use --for-bbolt if bbolt or etcd will write to OUT. bbolt assumes that each branch page has at \
        least two children, and can panic when it deletes below one that has a single child. Without the \
        option OUT may have such pages.\n\n\
        Exit status: 0 if OUT has everything, 1 after an error, 2 if the command line is wrong.\n\n\
        Example: luntsegi load --for-bbolt -o new.db my.list",
};

#[tactic(auto, unfolding(crate::specs::PlainWords::asks_load))]
pub(crate) fn read_load(line: &Line<'_, '_>) -> Result<LoadJob, Refusal>
    ensures { ReadsAs load_of (asks_load (values_of line.now)) result }
{
    Ok(LoadJob {
        sequence: line.sequence()?,
        page_size: line.load_size()?,
        kind: line.copy_kind(),
        target: line.text("output")?,
        file: line.text("FILE")?,
    })
}
