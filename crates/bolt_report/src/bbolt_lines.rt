//! The lines of what bbolt fails on.
ghost use Rattle.std.specs.Prelude.{◌≡◌, ◌++◌, flat_map};
ghost use Rattle.bolt_format.specs.{Endings.ending, Wrote.Wrote};
ghost use Rattle.bolt_report.specs.BboltLines.{bbolt_findings_text, file_finding_text};

use crate::fault_lines::{put_each_finding, put_error_count, put_of_pages};
use crate::metas::{put_of_meta, slot_number};
use bolt_check::{FileFinding, Finding};
use bolt_format::{Sink, SinkFault};

/// Writes the line of each finding of the file as a whole, that of each finding on its ways, and then
/// the line with the number of errors, such as `2 errors found`.
///
/// # Errors
///
/// `SinkFault` if the sink failed. It has then accepted a prefix of the text.
pub fn put_bbolt_findings<S: Sink>(
    of_file: &[FileFinding],
    on_ways: &[Finding],
    sink: &mut S,
) -> Result<(), SinkFault>
    ensures { Wrote S.Sink sink.old sink.new (bbolt_findings_text of_file.now on_ways.now)
        (ending result) }
{
    put_file_findings(of_file, sink)?;
    put_each_finding(on_ways, sink)?;
    put_error_count(of_file.len() as u64 + on_ways.len() as u64, sink)
}

#[tactic(auto, using(bolt_text::proofs::Exports::elements))]
fn put_file_findings<S: Sink>(findings: &[FileFinding], sink: &mut S) -> Result<(), SinkFault>
    ensures { Wrote S.Sink sink.old sink.new (flat_map file_finding_text findings.now)
        (ending result) }
{
    for finding in findings {
        put_file_finding(*finding, sink)?;
    }
    Ok(())
}

/// Writes the line of a finding of the file as a whole.
fn put_file_finding<S: Sink>(finding: FileFinding, sink: &mut S) -> Result<(), SinkFault>
    ensures { Wrote S.Sink sink.old sink.new (file_finding_text finding) (ending result) }
{
    match finding {
        FileFinding::NotTaken(slot) => put_of_meta(slot, b"not taken by bbolt", sink),
        FileFinding::LargeTxid(slot) => put_of_meta(slot, b"txid too large for bbolt", sink),
        FileFinding::NotMetaPage(slot) => {
            let page = slot_number(slot);
            put_of_pages(page, page, b"not a meta page for bbolt", b"\n", sink)
        }
        FileFinding::PastEnd(first, last) => {
            put_of_pages(first, last, b"past the end of the file", b"\n", sink)
        }
    }
}
