//! The commands that print pages and what is wrong with a file: which arguments each has and their help, its job,
//! and how that is read. A job's names are copied last: until then there is nothing to drop if a word can't be read.
ghost use Rattle.bolt_job.specs.CommandLine.{ReadsAs};
ghost use Rattle.bolt_job.specs.PlainWords.{asks_check, asks_info, asks_page, asks_pages, asks_states, check_of, info_of, page_of, pages_asked};
ghost use Rattle.bolt_job.specs.PlainWords.{states_of};
ghost use Rattle.bolt_job.specs.Private.CommandLines.{values_of};

use crate::choices::{Extent, MetaChoice, PageSize};
use crate::command_line::{Argument, Flag, Syntax};
use crate::line::Line;
use crate::refusal::Refusal;
use bolt_format::Slot;
use bolt_text::FigureForm;

pub(crate) const FILE: Argument = Argument {
    name: "FILE",
    flag: Flag::Operand,
    value: Some("FILE"),
    help: "The database file, which is never written to",
    required: true,
};

const ID: Argument = Argument {
    name: "ID",
    flag: Flag::Operand,
    value: Some("ID"),
    help: "The page number, in decimal",
    required: true,
};

pub(crate) const FIGURE_FORM: Argument = Argument {
    name: "form",
    flag: Flag::Long,
    value: Some("F"),
    help: "How to print the figures: lines, or json (an object) [default: lines]",
    required: false,
};

pub(crate) const META: Argument = Argument {
    name: "meta",
    flag: Flag::Long,
    value: Some("M"),
    help: "Read the file under the meta in slot 0 or 1, active or not, and ignore the freelist",
    required: false,
};

pub(crate) const ASSUME_META: Argument = Argument {
    name: "assume-meta",
    flag: Flag::Long,
    value: Some("A"),
    help: "Read the file as under a meta with page size and root page A, such as 4096:3, and ignore its metas and freelist",
    required: false,
};

const INFO_META: Argument = Argument {
    name: "meta",
    flag: Flag::Long,
    value: Some("M"),
    help: "Print the meta in slot 0 or 1, active or not",
    required: false,
};

const CHECK_SNAPSHOT: Argument = Argument {
    name: "etcd-snapshot",
    flag: Flag::Long,
    value: None,
    help: "First check that the file ends with the SHA-256 of what is before it, as an etcd snapshot does",
    required: false,
};

const CHECK_FOR_BBOLT: Argument = Argument {
    name: "for-bbolt",
    flag: Flag::Long,
    value: None,
    help: "Also look for all that bbolt is known to fail on when it writes to the file (man luntsegi, FOR BBOLT, has the list)",
    required: false,
};

const MAP: Argument = Argument {
    name: "map",
    flag: Flag::Long,
    value: None,
    help: "Print a map instead: a character for each page, 64 a line (M meta, F freelist, B branch, L leaf, + a later page of one before it, . free)",
    required: false,
};

const ALL: Argument = Argument {
    name: "all",
    flag: Flag::Long,
    value: None,
    help: "Go on after the first error of the trees, say what is lost with each, and look for gaps in pages and a damaged other meta",
    required: false,
};

const NAME_FOUND_PAGES: Argument = Argument {
    name: "lost-and-found",
    flag: Flag::Long,
    value: None,
    help: "As with --all, and name each intact leaf that nothing leads to, if something is lost",
    required: false,
};

const STATES_PAGE_SIZE: Argument = Argument {
    name: "page-size",
    flag: Flag::Long,
    value: Some("N"),
    help: "The page size of the pages that are tried, in bytes [default: that of the active meta, or 4096]",
    required: false,
};

/// Print the meta in a slot, or the active one.
#[derive(Drop)]
pub struct InfoJob {
    pub file: String,
    pub slot: Option<Slot>,
    pub form: FigureForm,
}

pub(crate) static INFO: Syntax = Syntax {
    name: "info",
    about: "Print the active meta: page size, transaction id, root, freelist, high-water mark",
    arguments: &[FILE, FIGURE_FORM, INFO_META],
    note: "Exit status: 0 if the meta is printed, 1 if no meta is valid or FILE can't be read, 2 if the command line is wrong.\n\n\
        Example: luntsegi info my.db",
};

#[tactic(auto, unfolding(crate::specs::PlainWords::asks_info))]
pub(crate) fn read_info(line: &Line<'_, '_>) -> Result<InfoJob, Refusal>
    ensures { ReadsAs info_of (asks_info (values_of line.now)) result }
{
    Ok(InfoJob {
        slot: line.slot()?,
        form: line.figure_form()?,
        file: line.text("FILE")?,
    })
}

/// Print one page.
#[derive(Drop)]
pub struct PageJob {
    pub file: String,
    pub meta: MetaChoice,
    pub id: u64,
}

pub(crate) static PAGE: Syntax = Syntax {
    name: "page",
    about: "Print one page: its type and its items, keys and values in hex",
    arguments: &[FILE, ID, ASSUME_META],
    note: "Exit status: 0 if the page is printed, 1 if it is refused or FILE can't be read, 2 if the command line is wrong.\n\n\
        Example: luntsegi page my.db 3",
};

#[tactic(auto, unfolding(crate::specs::PlainWords::asks_page))]
pub(crate) fn read_page_job(line: &Line<'_, '_>) -> Result<PageJob, Refusal>
    ensures { ReadsAs page_of (asks_page (values_of line.now)) result }
{
    Ok(PageJob {
        meta: line.meta()?,
        id: line.page_id()?,
        file: line.text("FILE")?,
    })
}

/// Print all pages.
#[derive(Drop)]
pub struct PagesJob {
    pub file: String,
    /// Whether to print a map of them, and not their table.
    pub map: bool,
}

pub(crate) static PAGES: Syntax = Syntax {
    name: "pages",
    about: "Print what each page is for, and count free pages past the end of the file",
    arguments: &[FILE, MAP],
    note: "Exit status: 0 if the pages are printed, 1 if the file isn't sound or can't be read, 2 if the command line is wrong.\n\n\
        Example: luntsegi pages --map my.db",
};

#[tactic(auto, unfolding(crate::specs::PlainWords::asks_pages))]
pub(crate) fn read_pages(line: &Line<'_, '_>) -> Result<PagesJob, Refusal>
    ensures { ReadsAs pages_asked (asks_pages (values_of line.now)) result }
{
    Ok(PagesJob {
        map: line.is_given("map"),
        file: line.text("FILE")?,
    })
}

/// Check whether the file is sound.
#[derive(Drop)]
pub struct CheckJob {
    pub file: String,
    pub meta: MetaChoice,
    pub extent: Extent,
    /// Whether to check first that the file ends with the SHA-256 of what is before it.
    pub snapshot: bool,
    /// Whether to check, of a sound file, that bbolt can write into it.
    pub for_bbolt: bool,
}

pub(crate) static CHECK: Syntax = Syntax {
    name: "check",
    about: "Check whether the file is sound; if it isn't, print what is wrong",
    arguments: &[
        FILE,
        ALL,
        NAME_FOUND_PAGES,
        CHECK_FOR_BBOLT,
        CHECK_SNAPSHOT,
        META,
        ASSUME_META,
    ],
    note: "Exit status: 0 if nothing is wrong, 1 if something is or FILE can't be read, 2 if the command line is wrong.\n\n\
        Example: luntsegi check --all my.db",
};

#[tactic(auto, unfolding(crate::specs::PlainWords::asks_check))]
pub(crate) fn read_check(line: &Line<'_, '_>) -> Result<CheckJob, Refusal>
    ensures { ReadsAs check_of (asks_check (values_of line.now)) result }
{
    Ok(CheckJob {
        meta: line.meta()?,
        extent: line.extent("all"),
        snapshot: line.is_given("etcd-snapshot"),
        for_bbolt: line.is_given("for-bbolt"),
        file: line.text("FILE")?,
    })
}

/// Print what can still be read of a file, under each root page that it may have.
#[derive(Drop)]
pub struct StatesJob {
    pub file: String,
    /// The page size of the pages that are tried. Without one it is that of the active meta.
    pub page_size: Option<PageSize>,
}

pub(crate) static STATES: Syntax = Syntax {
    name: "states",
    about: "Print what can still be read of a damaged file, under each root page that it may have, the likeliest first",
    arguments: &[FILE, STATES_PAGE_SIZE],
    note: "Exit status: 0 if a state is found, 1 if none is or FILE can't be read, 2 if the command line is wrong.\n\n\
        Example: luntsegi states damaged.db",
};

#[tactic(auto, unfolding(crate::specs::PlainWords::asks_states))]
pub(crate) fn read_states(line: &Line<'_, '_>) -> Result<StatesJob, Refusal>
    ensures { ReadsAs states_of (asks_states (values_of line.now)) result }
{
    Ok(StatesJob {
        page_size: line.page_size()?,
        file: line.text("FILE")?,
    })
}
