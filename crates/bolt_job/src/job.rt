//! The commands, each by its name: what help tells of it, and how its job is read. A job is what the words of a
//! command line ask for.
ghost use Rattle.std.specs.Prelude.{◌≡◌, map};
ghost use Rattle.bolt_job.specs.CommandLine.{ReadsAs};
ghost use Rattle.bolt_job.specs.{Jobs.asked_of, PlainWords.asked, PlainWords.asked_among, PlainWords.etcd_commands, PlainWords.later_commands};
ghost use Rattle.bolt_job.specs.{PlainWords.lines};
ghost use Rattle.bolt_job.specs.Private.CommandLines.{values_of};
ghost use Rattle.bolt_job.specs.Syntaxes.{line_of};

use crate::bucket_commands::{
    BUCKETS, BucketsJob, GET, GetJob, KEYS, KeysJob, LIST, ListJob, STATS, StatsJob, read_buckets,
    read_get, read_keys, read_list, read_stats,
};
use crate::command_line::Syntax;
use crate::etcd_commands::{
    ETCD_CHECK, ETCD_GET, ETCD_KEYS, ETCD_REPAIR, ETCD_REVISIONS, ETCD_STATUS, EtcdCheckJob,
    EtcdGetJob, EtcdKeysJob, EtcdRepairJob, EtcdRevisionsJob, EtcdStatusJob, read_etcd_check,
    read_etcd_get, read_etcd_keys, read_etcd_repair, read_etcd_revisions, read_etcd_status,
};
use crate::line::Line;
use crate::page_commands::{
    CHECK, CheckJob, INFO, InfoJob, PAGE, PAGES, PageJob, PagesJob, STATES, StatesJob, read_check,
    read_info, read_page_job, read_pages, read_states,
};
use crate::refusal::Refusal;
use crate::writing_commands::{COMPACT, CompactJob, LOAD, LoadJob, read_compact, read_load};

/// What the words of a command line ask for (docs/COMMANDS.md). Each command has a job of its own.
#[derive(Drop)]
pub enum Job {
    Info(InfoJob),
    Page(PageJob),
    Pages(PagesJob),
    Check(CheckJob),
    States(StatesJob),
    Buckets(BucketsJob),
    Stats(StatsJob),
    Keys(KeysJob),
    Get(GetJob),
    List(ListJob),
    Compact(CompactJob),
    Load(LoadJob),
    EtcdRevisions(EtcdRevisionsJob),
    EtcdKeys(EtcdKeysJob),
    EtcdGet(EtcdGetJob),
    EtcdCheck(EtcdCheckJob),
    EtcdStatus(EtcdStatusJob),
    EtcdRepair(EtcdRepairJob),
}

impl Job {
    ghost use Rattle.std.specs.Prelude.{option_map};
    ghost use Rattle.bolt_job.specs.Jobs.{file_name, needs_metas_alone, target_name};

    /// The name of FILE.
    pub fn file(&self) -> &str
        ensures { result.now ≡ file_name self.now }
    {
        match self {
            Job::Info(job) => job.file.as_str(),
            Job::Page(job) => job.file.as_str(),
            Job::Pages(job) => job.file.as_str(),
            Job::Check(job) => job.file.as_str(),
            Job::States(job) => job.file.as_str(),
            Job::Buckets(job) => job.file.as_str(),
            Job::Stats(job) => job.file.as_str(),
            Job::Keys(job) => job.file.as_str(),
            Job::Get(job) => job.file.as_str(),
            Job::List(job) => job.file.as_str(),
            Job::Compact(job) => job.file.as_str(),
            Job::Load(job) => job.file.as_str(),
            Job::EtcdRevisions(job) => job.file.as_str(),
            Job::EtcdKeys(job) => job.file.as_str(),
            Job::EtcdGet(job) => job.file.as_str(),
            Job::EtcdCheck(job) => job.file.as_str(),
            Job::EtcdStatus(job) => job.file.as_str(),
            Job::EtcdRepair(job) => job.file.as_str(),
        }
    }

    /// Whether the job needs no more of FILE than its metas. On the bytes up to their end
    /// (`bolt_format::metas_end`) it does what it does on the whole file, as a law of
    /// `bolt_commands` says.
    pub fn needs_metas_alone(&self) -> bool
        ensures { result ≡ needs_metas_alone self.now }
    {
        matches!(self, Job::Info(_))
    }

    /// The name of OUT, if the job writes a file.
    pub fn target(&self) -> Option<&str>
        ensures { option_map (λ name. name.now) result ≡ target_name self.now }
    {
        match self {
            Job::Compact(job) => Some(job.target.as_str()),
            Job::Load(job) => Some(job.target.as_str()),
            Job::EtcdRepair(job) => Some(job.target.as_str()),
            _ => None,
        }
    }
}

/// The commands, in the order of help. Each is a `static` of its own, since the check of a table takes the
/// square of its length.
pub(crate) fn commands<'a>() -> [&'a Syntax; 18]
    ensures { map (λ syntax. line_of syntax.now) result ≡ lines }
{
    [
        &INFO,
        &PAGE,
        &PAGES,
        &CHECK,
        &STATES,
        &BUCKETS,
        &KEYS,
        &GET,
        &STATS,
        &LIST,
        &COMPACT,
        &LOAD,
        &ETCD_REVISIONS,
        &ETCD_KEYS,
        &ETCD_GET,
        &ETCD_CHECK,
        &ETCD_STATUS,
        &ETCD_REPAIR,
    ]
}

/// The job of a command by its name, and the words that its operands and options are given.
pub(crate) fn read_command(name: &str, line: &Line<'_, '_>) -> Result<Job, Refusal>
    ensures { ReadsAs asked_of (asked name.now (values_of line.now)) result }
{
    match name {
        "info" => Ok(Job::Info(read_info(line)?)),
        "page" => Ok(Job::Page(read_page_job(line)?)),
        "pages" => Ok(Job::Pages(read_pages(line)?)),
        "check" => Ok(Job::Check(read_check(line)?)),
        "states" => Ok(Job::States(read_states(line)?)),
        _ => read_later_command(name, line),
    }
}

/// The job of a command that prints no pages.
fn read_later_command(name: &str, line: &Line<'_, '_>) -> Result<Job, Refusal>
    ensures { ReadsAs asked_of (asked_among later_commands name.now (values_of line.now)) result }
{
    match name {
        "buckets" => Ok(Job::Buckets(read_buckets(line)?)),
        "keys" => Ok(Job::Keys(read_keys(line)?)),
        "get" => Ok(Job::Get(read_get(line)?)),
        "stats" => Ok(Job::Stats(read_stats(line)?)),
        "list" => Ok(Job::List(read_list(line)?)),
        "compact" => Ok(Job::Compact(read_compact(line)?)),
        "load" => Ok(Job::Load(read_load(line)?)),
        _ => read_etcd_command(name, line),
    }
}

/// The job of a command for etcd's file.
fn read_etcd_command(name: &str, line: &Line<'_, '_>) -> Result<Job, Refusal>
    ensures { ReadsAs asked_of (asked_among etcd_commands name.now (values_of line.now)) result }
{
    match name {
        "etcd-revisions" => Ok(Job::EtcdRevisions(read_etcd_revisions(line)?)),
        "etcd-keys" => Ok(Job::EtcdKeys(read_etcd_keys(line)?)),
        "etcd-get" => Ok(Job::EtcdGet(read_etcd_get(line)?)),
        "etcd-check" => Ok(Job::EtcdCheck(read_etcd_check(line)?)),
        "etcd-status" => Ok(Job::EtcdStatus(read_etcd_status(line)?)),
        "etcd-repair" => Ok(Job::EtcdRepair(read_etcd_repair(line)?)),
        _ => Err(Refusal::Word("command missing")),
    }
}
