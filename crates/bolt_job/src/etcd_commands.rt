//! The commands that read what etcd keeps in its file, and put back what is found of it: which arguments each has and their help, its job, and how that
//! is read. A job's names are copied last: until then there is nothing to drop if a word can't be read.
ghost use Rattle.bolt_job.specs.CommandLine.{ReadsAs};
ghost use Rattle.bolt_job.specs.PlainWords.{asks_etcd_check, asks_etcd_get, asks_etcd_keys, asks_etcd_repair, asks_etcd_revisions, asks_etcd_status};
ghost use Rattle.bolt_job.specs.PlainWords.{etcd_check_of, etcd_get_of, etcd_keys_of, etcd_repair_of, etcd_revisions_of, etcd_status_of};
ghost use Rattle.bolt_job.specs.Private.CommandLines.{values_of};

use crate::bucket_commands::{FORM, NO_NEWLINE};
use crate::choices::{CopyKind, MetaChoice, PageSize};
use crate::command_line::{Argument, Flag, Syntax};
use crate::line::Line;
use crate::page_commands::{ASSUME_META, FIGURE_FORM, META};
use crate::refusal::Refusal;
use crate::writing_commands::{OUTPUT, PAGE_SIZE};
use bolt_text::{FigureForm, Form};

const ETCD_FILE: Argument = Argument {
    name: "FILE",
    flag: Flag::Operand,
    value: Some("FILE"),
    help: "etcd's file (member/snap/db in its data folder) or a snapshot, which is never written to",
    required: true,
};

const NAME: Argument = Argument {
    name: "NAME",
    flag: Flag::Operand,
    value: Some("NAME"),
    help: "The key in etcd",
    required: true,
};

const FROM_REVISION: Argument = Argument {
    name: "from",
    flag: Flag::Long,
    value: Some("R"),
    help: "The revision to begin at, in decimal, below 2^63 [default: the first]",
    required: false,
};

const AT_REVISION: Argument = Argument {
    name: "at",
    flag: Flag::Long,
    value: Some("R"),
    help: "Read etcd's keys as they were at revision R, in decimal, below 2^63; after the last one, as they are [default: the last]",
    required: false,
};

const NAME_PREFIX: Argument = Argument {
    name: "prefix",
    flag: Flag::Long,
    value: Some("K"),
    help: "Print only the keys that begin with K, which is written as --parts says",
    required: false,
};

const VALUES: Argument = Argument {
    name: "values",
    flag: Flag::Long,
    value: None,
    help: "Also print the values",
    required: false,
};

const PREFIX_PARTS: Argument = Argument {
    name: "parts",
    flag: Flag::Long,
    value: Some("P"),
    help: "How K is written: text, hex or mixed (hex after 0x, otherwise text) [default: text]",
    required: false,
};

const NAME_PARTS: Argument = Argument {
    name: "parts",
    flag: Flag::Long,
    value: Some("P"),
    help: "How NAME is written: text, hex or mixed (hex after 0x, otherwise text) [default: text]",
    required: false,
};

const REPAIRED_SNAPSHOT: Argument = Argument {
    name: "etcd-snapshot",
    flag: Flag::Long,
    value: None,
    help: "Write a snapshot that etcd restores: the copy, and then its SHA-256",
    required: false,
};

const SEARCH: Argument = Argument {
    name: "search",
    flag: Flag::Long,
    value: None,
    help: "Also look for revisions if nothing is lost: for a file that is sound, but leads to only a part of what it had",
    required: false,
};

/// Print the revisions of etcd's keys, those of names that begin with a prefix.
#[derive(Drop)]
pub struct EtcdRevisionsJob {
    pub file: String,
    pub meta: MetaChoice,
    pub form: Form,
    pub prefix: Vec<u8>,
    /// Whether to print the values too.
    pub values: bool,
    /// The first transaction. Without one all are printed.
    pub from: Option<u64>,
}

pub(crate) static ETCD_REVISIONS: Syntax = Syntax {
    name: "etcd-revisions",
    about: "Print the revisions of etcd's keys: each write and each deletion, in order",
    arguments: &[
        ETCD_FILE,
        FROM_REVISION,
        NAME_PREFIX,
        VALUES,
        PREFIX_PARTS,
        FORM,
        META,
        ASSUME_META,
    ],
    note: "Exit status: 0 if all revisions are printed, 1 after an error, 2 if the command line is wrong.\n\n\
        Example: luntsegi etcd-revisions --prefix /registry/pods/ member/snap/db",
};

#[tactic(auto, unfolding(crate::specs::PlainWords::asks_etcd_revisions))]
pub(crate) fn read_etcd_revisions(line: &Line<'_, '_>) -> Result<EtcdRevisionsJob, Refusal>
    ensures { ReadsAs etcd_revisions_of (asks_etcd_revisions (values_of line.now)) result }
{
    Ok(EtcdRevisionsJob {
        meta: line.meta()?,
        form: line.form()?,
        prefix: line.prefix()?,
        values: line.is_given("values"),
        from: line.revision("from")?,
        file: line.text("FILE")?,
    })
}

/// Print etcd's keys as they were at a transaction.
#[derive(Drop)]
pub struct EtcdKeysJob {
    pub file: String,
    pub meta: MetaChoice,
    pub form: Form,
    pub prefix: Vec<u8>,
    /// Whether to print the values too.
    pub values: bool,
    /// The transaction. Without one it is the last.
    pub at: Option<u64>,
}

pub(crate) static ETCD_KEYS: Syntax = Syntax {
    name: "etcd-keys",
    about: "Print etcd's keys, as they are or as they were at a revision",
    arguments: &[
        ETCD_FILE,
        AT_REVISION,
        NAME_PREFIX,
        VALUES,
        PREFIX_PARTS,
        FORM,
        META,
        ASSUME_META,
    ],
    note: "Exit status: 0 if all keys are printed, 1 after an error, 2 if the command line is wrong.\n\n\
        Example: luntsegi etcd-keys --at 1000 member/snap/db",
};

#[tactic(auto, unfolding(crate::specs::PlainWords::asks_etcd_keys))]
pub(crate) fn read_etcd_keys(line: &Line<'_, '_>) -> Result<EtcdKeysJob, Refusal>
    ensures { ReadsAs etcd_keys_of (asks_etcd_keys (values_of line.now)) result }
{
    Ok(EtcdKeysJob {
        meta: line.meta()?,
        form: line.form()?,
        prefix: line.prefix()?,
        values: line.is_given("values"),
        at: line.revision("at")?,
        file: line.text("FILE")?,
    })
}

/// Print what an etcd key held at a transaction.
#[derive(Drop)]
pub struct EtcdGetJob {
    pub file: String,
    pub meta: MetaChoice,
    pub form: Form,
    /// The key.
    pub name: Vec<u8>,
    /// The transaction. Without one it is the last.
    pub at: Option<u64>,
    /// Whether to print no line feed after the value.
    pub no_newline: bool,
}

pub(crate) static ETCD_GET: Syntax = Syntax {
    name: "etcd-get",
    about: "Print the value of one of etcd's keys, as it is or as it was at a revision",
    arguments: &[
        ETCD_FILE,
        NAME,
        AT_REVISION,
        NO_NEWLINE,
        NAME_PARTS,
        FORM,
        META,
        ASSUME_META,
    ],
    note: "Exit status: 0 if the value is printed, 1 after an error or without such a key, 2 if the command line is wrong.\n\n\
        Example: luntsegi etcd-get member/snap/db /registry/pods/default/web",
};

#[tactic(auto, unfolding(crate::specs::PlainWords::asks_etcd_get))]
pub(crate) fn read_etcd_get(line: &Line<'_, '_>) -> Result<EtcdGetJob, Refusal>
    ensures { ReadsAs etcd_get_of (asks_etcd_get (values_of line.now)) result }
{
    Ok(EtcdGetJob {
        meta: line.meta()?,
        form: line.form()?,
        name: line.name()?,
        at: line.revision("at")?,
        no_newline: line.is_given("no-newline"),
        file: line.text("FILE")?,
    })
}

/// Check a file as `check --all` does, and then etcd's records.
#[derive(Drop)]
pub struct EtcdCheckJob {
    pub file: String,
    pub meta: MetaChoice,
}

pub(crate) static ETCD_CHECK: Syntax = Syntax {
    name: "etcd-check",
    about: "Check the file as check --all does, and then whether etcd's records in it are whole",
    arguments: &[ETCD_FILE, META, ASSUME_META],
    note: "Exit status: 0 if nothing is wrong, 1 if something is or FILE can't be read, 2 if the command line is wrong.\n\n\
        Example: luntsegi etcd-check member/snap/db",
};

#[tactic(auto, unfolding(crate::specs::PlainWords::asks_etcd_check))]
pub(crate) fn read_etcd_check(line: &Line<'_, '_>) -> Result<EtcdCheckJob, Refusal>
    ensures { ReadsAs etcd_check_of (asks_etcd_check (values_of line.now)) result }
{
    Ok(EtcdCheckJob {
        meta: line.meta()?,
        file: line.text("FILE")?,
    })
}

/// Print what etcd would report of the store in a file.
#[derive(Drop)]
pub struct EtcdStatusJob {
    pub file: String,
    pub meta: MetaChoice,
    pub form: FigureForm,
    /// The transaction. Without one it is the last.
    pub at: Option<u64>,
}

pub(crate) static ETCD_STATUS: Syntax = Syntax {
    name: "etcd-status",
    about: "Print what etcd would report of the file: its revision, its number of keys and its hash",
    arguments: &[ETCD_FILE, AT_REVISION, FIGURE_FORM, META, ASSUME_META],
    note: "Exit status: 0 if the figures are printed, 1 after an error, 2 if the command line is wrong.\n\n\
        Example: luntsegi etcd-status --at 1000 member/snap/db",
};

#[tactic(auto, unfolding(crate::specs::PlainWords::asks_etcd_status))]
pub(crate) fn read_etcd_status(line: &Line<'_, '_>) -> Result<EtcdStatusJob, Refusal>
    ensures { ReadsAs etcd_status_of (asks_etcd_status (values_of line.now)) result }
{
    Ok(EtcdStatusJob {
        meta: line.meta()?,
        form: line.figure_form()?,
        at: line.revision("at")?,
        file: line.text("FILE")?,
    })
}

/// Write a copy to another file, in which revisions that are found are back in their bucket.
#[derive(Drop)]
pub struct EtcdRepairJob {
    pub file: String,
    pub meta: MetaChoice,
    /// The name of OUT.
    pub target: String,
    /// The page size of the copy. Without one it is that of the file.
    pub page_size: Option<PageSize>,
    /// What the copy is for: etcd writes to it, or restores it. `etcd-repair` asks for `ForBbolt` or `EtcdSnapshot`.
    pub kind: CopyKind,
    /// Whether to look for revisions even if nothing is lost.
    pub search: bool,
}

pub(crate) static ETCD_REPAIR: Syntax = Syntax {
    name: "etcd-repair",
    about: "Write a copy of a damaged file, with the revisions of etcd's keys that are found put back",
    arguments: &[
        ETCD_FILE,
        OUTPUT,
        PAGE_SIZE,
        REPAIRED_SNAPSHOT,
        SEARCH,
        META,
        ASSUME_META,
    ],
    note: "Exit status: 0 if nothing is lost and all can be read, 1 if not or OUT isn't whole, 2 if the command line is wrong.\n\n\
        Example: luntsegi etcd-repair --etcd-snapshot -o repaired.db damaged.db",
};

#[tactic(auto, unfolding(crate::specs::PlainWords::asks_etcd_repair))]
pub(crate) fn read_etcd_repair(line: &Line<'_, '_>) -> Result<EtcdRepairJob, Refusal>
    ensures { ReadsAs etcd_repair_of (asks_etcd_repair (values_of line.now)) result }
{
    Ok(EtcdRepairJob {
        meta: line.meta()?,
        page_size: line.page_size()?,
        kind: line.repair_kind(),
        search: line.is_given("search"),
        target: line.text("output")?,
        file: line.text("FILE")?,
    })
}
