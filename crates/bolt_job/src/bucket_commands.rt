//! The commands that print what buckets hold: which arguments each has and their help, its job, and how that is
//! read. A job's names are copied last: until then there is nothing to drop if a word can't be read.
ghost use Rattle.bolt_job.specs.CommandLine.{ReadsAs};
ghost use Rattle.bolt_job.specs.PlainWords.{asks_buckets, asks_get, asks_keys, asks_list, asks_stats, buckets_of, get_of, keys_asked, list_of};
ghost use Rattle.bolt_job.specs.PlainWords.{stats_of};
ghost use Rattle.bolt_job.specs.Private.CommandLines.{values_of};

use crate::choices::{BucketsShown, Extent, MetaChoice};
use crate::command_line::{Argument, Flag, Syntax};
use crate::line::Line;
use crate::page_commands::{ASSUME_META, FIGURE_FORM, FILE, META};
use crate::refusal::Refusal;
use bolt_text::{FigureForm, Form, ListForm};

const BUCKET_PART: Argument = Argument {
    name: "PART",
    flag: Flag::Operands,
    value: Some("BUCKET"),
    help: "The path to the bucket: a word for each bucket, from the root bucket down",
    required: true,
};

const KEY_PART: Argument = Argument {
    name: "PART",
    flag: Flag::Operands,
    value: Some("KEY"),
    help: "The path to the key: a word for each bucket, from the root bucket down, and then the key",
    required: true,
};

const BUCKET_IN: Argument = Argument {
    name: "PART",
    flag: Flag::Operands,
    value: Some("BUCKET"),
    help: "The path to a bucket: a word for each bucket, from the root bucket down [default: the root bucket]",
    required: false,
};

pub(crate) const FORM: Argument = Argument {
    name: "form",
    flag: Flag::Long,
    value: Some("F"),
    help: "How to print names, keys and values: printable (as they are if plain ASCII, otherwise in hex), hex, bytes, text (as they are if UTF-8 without control characters, otherwise in hex), mixed (as they are if plain ASCII, otherwise in hex after 0x, as --parts mixed reads them), json or json-hex (hex in JSON strings) [default: printable]",
    required: false,
};

const LIST_FORM: Argument = Argument {
    name: "form",
    flag: Flag::Long,
    value: Some("F"),
    help: "How to print each line: hex, json (an object for each line) or json-hex (with hex in its strings) [default: hex]",
    required: false,
};

const SIZES: Argument = Argument {
    name: "sizes",
    flag: Flag::Long,
    value: None,
    help: "Also print each bucket's number of keys, its bytes used and its bytes allocated, with all buckets in it: before the name, or as JSON in an object with it",
    required: false,
};

const PREFIX: Argument = Argument {
    name: "prefix",
    flag: Flag::Long,
    value: Some("K"),
    help: "Print only the keys that begin with K, which is written as the path is",
    required: false,
};

pub(crate) const NO_NEWLINE: Argument = Argument {
    name: "no-newline",
    flag: Flag::Both('n'),
    value: None,
    help: "Print no line feed after the value",
    required: false,
};

const PARTS: Argument = Argument {
    name: "parts",
    flag: Flag::Long,
    value: Some("P"),
    help: "How the path is written: text, hex, or mixed (hex after 0x, otherwise text, as --form mixed prints names) [default: text]",
    required: false,
};

const FROM: Argument = Argument {
    name: "from",
    flag: Flag::Long,
    value: Some("HEXPATH"),
    help: "The path to begin at: names and keys in hex, two digits a byte, joined by slashes, as list prints them",
    required: false,
};

pub(crate) const RECOVER: Argument = Argument {
    name: "recover",
    flag: Flag::Long,
    value: None,
    help: "Read everything that a damaged file still holds, and say what is lost",
    required: false,
};

pub(crate) const READ_FOUND_PAGES: Argument = Argument {
    name: "lost-and-found",
    flag: Flag::Long,
    value: None,
    help: "As with --recover, and read each intact leaf that nothing leads to, in a bucket lost+found",
    required: false,
};

/// Print the buckets in the bucket at a path.
#[derive(Drop)]
pub struct BucketsJob {
    pub file: String,
    pub meta: MetaChoice,
    pub form: Form,
    pub path: Vec<Vec<u8>>,
    pub shown: BucketsShown,
}

pub(crate) static BUCKETS: Syntax = Syntax {
    name: "buckets",
    about: "Print the names of the buckets in a bucket",
    arguments: &[
        FILE,
        BUCKET_IN,
        SIZES,
        FORM,
        PARTS,
        RECOVER,
        META,
        ASSUME_META,
    ],
    note: "Exit status: 0 if all names are printed, 1 after an error or if pages are lost, 2 if the command line is wrong.\n\n\
        Example: luntsegi buckets --sizes my.db",
};

#[tactic(auto, unfolding(crate::specs::PlainWords::asks_buckets))]
pub(crate) fn read_buckets(line: &Line<'_, '_>) -> Result<BucketsJob, Refusal>
    ensures { ReadsAs buckets_of (asks_buckets (values_of line.now)) result }
{
    Ok(BucketsJob {
        meta: line.meta()?,
        form: line.form()?,
        shown: line.buckets_shown()?,
        path: line.path()?,
        file: line.text("FILE")?,
    })
}

/// Print the keys of the bucket at a path that begin with a prefix.
#[derive(Drop)]
pub struct KeysJob {
    pub file: String,
    pub meta: MetaChoice,
    pub form: Form,
    pub path: Vec<Vec<u8>>,
    pub prefix: Vec<u8>,
    /// Whether to print what is recovered.
    pub recover: bool,
}

pub(crate) static KEYS: Syntax = Syntax {
    name: "keys",
    about: "Print the keys of a bucket, and the names of the buckets in it",
    arguments: &[
        FILE,
        BUCKET_PART,
        PREFIX,
        FORM,
        PARTS,
        RECOVER,
        META,
        ASSUME_META,
    ],
    note: "Exit status: 0 if all keys are printed, 1 after an error or if pages are lost, 2 if the command line is wrong.\n\n\
        Example: luntsegi keys my.db users",
};

#[tactic(auto, unfolding(crate::specs::PlainWords::asks_keys))]
pub(crate) fn read_keys(line: &Line<'_, '_>) -> Result<KeysJob, Refusal>
    ensures { ReadsAs keys_asked (asks_keys (values_of line.now)) result }
{
    Ok(KeysJob {
        meta: line.meta()?,
        form: line.form()?,
        path: line.path()?,
        prefix: line.prefix()?,
        recover: line.is_given("recover"),
        file: line.text("FILE")?,
    })
}

/// Print the value at a path.
#[derive(Drop)]
pub struct GetJob {
    pub file: String,
    pub meta: MetaChoice,
    pub form: Form,
    pub path: Vec<Vec<u8>>,
    /// Whether to print no line feed after it.
    pub no_newline: bool,
    /// Whether to print what is recovered.
    pub recover: bool,
}

pub(crate) static GET: Syntax = Syntax {
    name: "get",
    about: "Print the value of a key",
    arguments: &[
        FILE,
        KEY_PART,
        NO_NEWLINE,
        FORM,
        PARTS,
        RECOVER,
        META,
        ASSUME_META,
    ],
    note: "Exit status: 0 if the value is printed, 1 after an error or if pages are lost, 2 if the command line is wrong.\n\n\
        Example: luntsegi get my.db users alice",
};

#[tactic(auto, unfolding(crate::specs::PlainWords::asks_get))]
pub(crate) fn read_get(line: &Line<'_, '_>) -> Result<GetJob, Refusal>
    ensures { ReadsAs get_of (asks_get (values_of line.now)) result }
{
    Ok(GetJob {
        meta: line.meta()?,
        form: line.form()?,
        path: line.path()?,
        no_newline: line.is_given("no-newline"),
        recover: line.is_given("recover"),
        file: line.text("FILE")?,
    })
}

/// Print the figures of the bucket at a path and of all in it. At the empty path they are those of
/// the root's buckets, added up.
#[derive(Drop)]
pub struct StatsJob {
    pub file: String,
    pub meta: MetaChoice,
    pub form: FigureForm,
    pub path: Vec<Vec<u8>>,
}

pub(crate) static STATS: Syntax = Syntax {
    name: "stats",
    about: "Print figures of all buckets, or of one and all in it: their number, keys, depth and pages",
    arguments: &[FILE, BUCKET_IN, FIGURE_FORM, PARTS, META, ASSUME_META],
    note: "Exit status: 0 if the figures are printed, 1 after an error, 2 if the command line is wrong.\n\n\
        Example: luntsegi stats my.db users",
};

#[tactic(auto, unfolding(crate::specs::PlainWords::asks_stats))]
pub(crate) fn read_stats(line: &Line<'_, '_>) -> Result<StatsJob, Refusal>
    ensures { ReadsAs stats_of (asks_stats (values_of line.now)) result }
{
    Ok(StatsJob {
        meta: line.meta()?,
        form: line.figure_form()?,
        path: line.path()?,
        file: line.text("FILE")?,
    })
}

/// Print the part of the listing at and below a path, without what comes before another path. Both
/// are empty if the whole listing is wanted.
#[derive(Drop)]
pub struct ListJob {
    pub file: String,
    pub meta: MetaChoice,
    pub form: ListForm,
    pub path: Vec<Vec<u8>>,
    pub from: Vec<Vec<u8>>,
    pub extent: Extent,
}

pub(crate) static LIST: Syntax = Syntax {
    name: "list",
    about: "Print everything in the file or in a bucket, one line for each path, in hex or as JSON",
    arguments: &[
        FILE,
        BUCKET_IN,
        FROM,
        LIST_FORM,
        PARTS,
        RECOVER,
        READ_FOUND_PAGES,
        META,
        ASSUME_META,
    ],
    note: "Exit status: 0 if all lines are printed, 1 after an error or if pages are lost, 2 if the command line is wrong.\n\n\
        Example: luntsegi list --form json my.db",
};

#[tactic(auto, unfolding(crate::specs::PlainWords::asks_list))]
pub(crate) fn read_list(line: &Line<'_, '_>) -> Result<ListJob, Refusal>
    ensures { ReadsAs list_of (asks_list (values_of line.now)) result }
{
    Ok(ListJob {
        meta: line.meta()?,
        form: line.list_form()?,
        path: line.path()?,
        from: line.from()?,
        extent: line.extent("recover"),
        file: line.text("FILE")?,
    })
}
