//! Why a job isn't done, and how it ends.
ghost use Rattle.std.specs.Prelude.{◌≡◌, Ok};
ghost use Rattle.bolt_commands.specs.{Failures.IsFailureOf, Failures.copy_failure, Failures.report_failure, Failures.join_failure, Failures.load_failure};
ghost use Rattle.bolt_commands.specs.{Failures.repair_failure, FilesRead.end_listing, Private.Endings.end_write, Private.Endings.end_report};
ghost use Rattle.bolt_commands.specs.declared.failure.Failure.TheVariants as failure;

use crate::shortfall::Shortfall;
use bolt_bulk::BulkFault;
use bolt_check::{CheckFault, Finding, NoMemory};
use bolt_etcd::SnapshotFault;
use bolt_format::{MetaFault, PageFault, SinkFault};
use bolt_load::{LineFault, LoadFault};
use bolt_recover::JoinFault;
use bolt_repair::RepairFault;
use bolt_report::ReportFault;
use std::alloc::AllocFailed;

/// Why a job isn't done (docs/COMMANDS.md, "What a run writes").
#[derive(Clone, Copy)]
pub enum Failure {
    /// There is no valid meta. With `--meta`: the slot that is named has none.
    Open(MetaFault),
    /// The file isn't sound: its first finding. Of a damaged file that is recovered: the root page is lost,
    /// with this finding, and there is nothing to print or to copy.
    File(Finding),
    /// The page that was asked for is refused.
    Page(PageFault),
    /// The path that was asked for leads to no bucket. Or a command that reads or repairs what etcd keeps
    /// finds no bucket `key`.
    NoBucket,
    /// The path that was asked for has no value. Or the name that was asked for in etcd has none.
    NoKey,
    /// The file has no state: no meta is valid, and no page can be the root page of one.
    NoState,
    /// The path leads to no bucket that is recovered, but this may be lacking.
    BucketMaybeLost(Shortfall),
    /// No value at the path is recovered, but this may be lacking.
    KeyMaybeLost(Shortfall),
    /// Memory ran out.
    Memory,
    /// The copy would have 2^63 bytes or more.
    TooLarge,
    /// The file has more pages than the names in `lost+found` have digits for.
    TooManyPages,
    /// A snapshot was to be made of a file whose own hash is cut off or differs.
    Hash(SnapshotFault),
    /// The root bucket has a value under the name of the bucket `key`, so what is found of that can't go
    /// back.
    NotABucket,
    /// There is an entry `lost+found`, so what is found can't be put there.
    Exists,
    /// Standard output or the copy couldn't be written.
    Write,
    /// What is recovered was printed, and it lacks this, or may lack it.
    Lacking(Shortfall),
    /// The transaction that was asked for was compacted away.
    Compacted,
    /// What etcd keeps was printed, and this many of the entries that were looked at are neither revisions
    /// nor marks.
    NotRevisions(u64),
    /// The file isn't the text of a listing: the number of its first line that isn't right, and what
    /// is wrong with it.
    Line(u64, LineFault),
}

/// How a job ends: with its status, or with a failure.
pub(crate) type Outcome = Result<u8, Failure>;

/// How a job ends that put a text.
pub(crate) fn end_report(put: Result<(), ReportFault>) -> Outcome
    ensures { result ≡ end_report put (Ok 0) }
{
    put?;
    Ok(0)
}

/// How a job ends that wrote a text.
pub(crate) fn end_write(put: Result<(), SinkFault>) -> Outcome
    ensures { result ≡ end_write put (Ok 0) }
{
    put?;
    Ok(0)
}

/// How a job ends that put what is wanted of a listing, if that lacks this.
pub(crate) fn end_listing(shortfall: Option<Shortfall>) -> Outcome
    ensures { result ≡ end_listing shortfall }
{
    match shortfall {
        None => Ok(0),
        Some(shortfall) => Err(Failure::Lacking(shortfall)),
    }
}

impl<T: Drop> From<AllocFailed<T>> for Failure {
    ghost from_gives = { λ _ result. result ≡ failure.Memory };

    fn from(_error: AllocFailed<T>) -> Failure {
        Failure::Memory
    }
}

impl From<NoMemory> for Failure {
    ghost from_gives = { λ _ result. result ≡ failure.Memory };

    fn from(_error: NoMemory) -> Failure {
        Failure::Memory
    }
}

impl From<MetaFault> for Failure {
    ghost from_gives = { λ fault result. result ≡ failure.Open fault };

    fn from(fault: MetaFault) -> Failure {
        Failure::Open(fault)
    }
}

impl From<CheckFault> for Failure {
    ghost from_gives = { λ fault result. IsFailureOf fault result };

    /// Of the findings only the first is reported.
    fn from(fault: CheckFault) -> Failure {
        match fault {
            CheckFault::Open(fault) => Failure::Open(fault),
            CheckFault::Structure(finding) => Failure::File(finding),
            CheckFault::Accounts(findings) => Failure::File(findings.first()),
            CheckFault::Memory => Failure::Memory,
        }
    }
}

impl From<JoinFault> for Failure {
    ghost from_gives = { λ fault result. result ≡ join_failure fault };

    fn from(fault: JoinFault) -> Failure {
        match fault {
            JoinFault::Rootless(finding) => Failure::File(finding),
            JoinFault::Exists => Failure::Exists,
            JoinFault::TooManyPages => Failure::TooManyPages,
            JoinFault::Memory => Failure::Memory,
        }
    }
}

impl From<RepairFault> for Failure {
    ghost from_gives = { λ fault result. result ≡ repair_failure fault };

    fn from(fault: RepairFault) -> Failure {
        match fault {
            RepairFault::Rootless(finding) => Failure::File(finding),
            RepairFault::NoBucket => Failure::NoBucket,
            RepairFault::NotABucket => Failure::NotABucket,
            RepairFault::Memory => Failure::Memory,
        }
    }
}

impl From<SinkFault> for Failure {
    ghost from_gives = { λ _ result. result ≡ failure.Write };

    fn from(_fault: SinkFault) -> Failure {
        Failure::Write
    }
}

impl From<ReportFault> for Failure {
    ghost from_gives = { λ fault result. result ≡ report_failure fault };

    fn from(fault: ReportFault) -> Failure {
        match fault {
            ReportFault::Sink => Failure::Write,
            ReportFault::NoMemory => Failure::Memory,
            ReportFault::Page(fault) => Failure::Page(fault),
        }
    }
}

impl From<BulkFault> for Failure {
    ghost from_gives = { λ fault result. result ≡ copy_failure fault };

    fn from(fault: BulkFault) -> Failure {
        match fault {
            BulkFault::Memory => Failure::Memory,
            BulkFault::TooLarge => Failure::TooLarge,
            BulkFault::Sink => Failure::Write,
        }
    }
}

impl From<LoadFault> for Failure {
    ghost from_gives = { λ fault result. result ≡ load_failure fault };

    fn from(fault: LoadFault) -> Failure {
        match fault {
            LoadFault::Memory => Failure::Memory,
            LoadFault::Line { line, fault } => Failure::Line(line, fault),
        }
    }
}
