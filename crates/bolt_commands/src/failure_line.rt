//! The line that says why a job isn't done.
ghost use Rattle.std.specs.Prelude.{◌++◌, codes, decimal};
ghost use Rattle.bolt_format.specs.{Endings.ending, Wrote.Wrote};
ghost use Rattle.bolt_report.specs.FaultWords.{finding_text};
ghost use Rattle.bolt_load.specs.LoadFaultWords.{line_fault_words};
ghost use Rattle.bolt_commands.specs.{Failures.failure_line, Failures.failure_text, Shortfalls.shortfall_text};

use crate::failure::Failure;
use crate::shortfall::{Shortfall, put_shortfall};
use bolt_check::Finding;
use bolt_format::{Sink, SinkFault};
use bolt_load::LineFault;
use bolt_report::{finding_text, put_meta_fault, put_page_fault, put_snapshot_fault};
use bolt_text::{Piece, put, put_pieces};

/// Writes the line of a failure: `error: ` and its text.
pub(crate) fn put_failure<E: Sink>(failure: &Failure, err: &mut E) -> Result<(), SinkFault>
    ensures { Wrote E.Sink err.old err.new (failure_line failure.now) (ending result) }
{
    put(b"error: ", err)?;
    put_failure_text(failure, err)
}

fn put_failure_text<E: Sink>(failure: &Failure, err: &mut E) -> Result<(), SinkFault>
    ensures { Wrote E.Sink err.old err.new (failure_text failure.now) (ending result) }
{
    match failure {
        Failure::Open(fault) => put_meta_fault(*fault, err),
        Failure::File(finding) => put_file_refused(finding, err),
        Failure::Page(fault) => put_page_fault(fault, err),
        Failure::NoBucket => put(b"bucket not found\n", err),
        Failure::NoKey => put(b"key not found\n", err),
        Failure::NoState => put(b"no state found\n", err),
        Failure::BucketMaybeLost(shortfall) => {
            put_maybe_lost(b"bucket not found; ", *shortfall, err)
        }
        Failure::KeyMaybeLost(shortfall) => put_maybe_lost(b"key not found; ", *shortfall, err),
        Failure::Memory => put(b"out of memory\n", err),
        Failure::TooLarge => put(b"layout too large\n", err),
        Failure::TooManyPages => put(b"too many pages\n", err),
        Failure::Hash(fault) => put_snapshot_fault(*fault, err),
        Failure::NotABucket => put(b"key is not a bucket\n", err),
        Failure::Exists => put(b"lost+found exists\n", err),
        Failure::Write => put(b"write failed\n", err),
        Failure::Lacking(shortfall) => put_shortfall(*shortfall, err),
        Failure::NotRevisions(count) => put_numbered(b"not revisions: ", *count, err),
        Failure::Compacted => put(b"revision compacted\n", err),
        Failure::Line(line, fault) => put_line_fault(*line, *fault, err),
    }
}

fn put_file_refused<E: Sink>(finding: &Finding, err: &mut E) -> Result<(), SinkFault>
    ensures { Wrote E.Sink err.old err.new (codes "file refused: " ++ finding_text finding.now)
        (ending result) }
{
    put(b"file refused: ", err)?;
    finding_text(finding, err)
}

/// Writes that something wasn't found, and why it may be lost.
fn put_maybe_lost<E: Sink>(
    not_found: &[u8],
    shortfall: Shortfall,
    err: &mut E,
) -> Result<(), SinkFault>
    ensures { Wrote E.Sink err.old err.new (not_found.now ++ shortfall_text shortfall) (ending result) }
{
    put(not_found, err)?;
    put_shortfall(shortfall, err)
}

/// Writes a number after a text.
fn put_numbered<E: Sink>(text: &[u8], number: u64, err: &mut E) -> Result<(), SinkFault>
    ensures { Wrote E.Sink err.old err.new (text.now ++ (decimal number ++ codes "\n"))
        (ending result) }
{
    put_pieces(&[Piece::Field(text, number), Piece::Bytes(b"\n")], err)
}

fn put_line_fault<E: Sink>(line: u64, fault: LineFault, err: &mut E) -> Result<(), SinkFault>
    ensures { Wrote E.Sink err.old err.new
        (codes "line " ++ ((decimal line ++ codes ": ") ++ (line_fault_words fault ++ codes "\n")))
        (ending result) }
{
    put_pieces(
        &[
            Piece::Field(b"line ", line),
            Piece::Bytes(b": "),
            Piece::Bytes(fault.words().as_bytes()),
            Piece::Bytes(b"\n"),
        ],
        err,
    )
}
