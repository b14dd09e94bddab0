//! What is wrong with a store as texts, one after another.
ghost use Rattle.std.specs.Prelude.{◌≡◌, IfOk, length, map};
ghost use Rattle.std.specs.List.{concat};
ghost use Rattle.bolt_check.specs.Counts.{counted};
ghost use Rattle.bolt_format.specs.{Endings.ending, Wrote.Wrote};
ghost use Rattle.bolt_etcd.specs.{Check.CheckLines.misplaced_line, Check.CheckLines.missing_line, Check.Misplaced.misplaced};
ghost use Rattle.bolt_etcd.specs.{Wire.ShownRevisions.shown_revision};
ghost use Rattle.bolt_etcd.specs.Check.CheckLines.{name_fault_lines};
ghost use Rattle.bolt_etcd.specs.Private.FaultsLeft.{shown_name_fault, ForFaultLines};
ghost use Rattle.bolt_etcd.specs.{Private.MissingLeft.ForMissing, Private.MissingLeft.missing_left};
ghost use Rattle.bolt_etcd.specs.Check.StoreFaults.{unread_entry_lines};
ghost use Rattle.bolt_etcd.specs.Store.RevisionsLeft.{ForAhead};

use crate::check::check_lines::{put_misplaced, put_missing, put_name_fault, put_unread_entry};
use crate::check::missing::MissingNumbers;
use crate::check::name_faults::{NameFault, NameFaults};
use crate::store::revisions::Revisions;
use crate::wire::revision::Revision;
use bolt_format::{Sink, SinkFault};

/// Writes a line for each entry ahead of a pass that is neither a revision nor a mark, and returns
/// how many these are. The number saturates at 2^64 - 1.
pub(crate) fn put_all_unread<S: Sink>(
    mut pass: Revisions<'_>,
    sink: &mut S,
) -> Result<u64, SinkFault>
    ensures written { ForAhead pass.entry (λ entries.
        Wrote S.Sink sink.old sink.new (concat (unread_entry_lines entries)) (ending result)) }
    ensures number { IfOk result (λ n.
        ForAhead pass.entry (λ entries. n ≡ counted 0 (length (unread_entry_lines entries)))) }
{
    let mut number = 0_u64;
    'rest: while let Some(other) = pass.next_unread() {
        put_unread_entry(&other, b"\n", sink)?;
        number = number.saturating_add(1);
    }
    Ok(number)
}

/// Writes a line for each of these revisions whose record says that another transaction wrote it,
/// and returns how many these are. The number saturates at 2^64 - 1.
pub(crate) fn put_all_misplaced<S: Sink>(
    revisions: &[Revision<'_>],
    sink: &mut S,
) -> Result<u64, SinkFault>
    ensures written { Wrote S.Sink sink.old sink.new
        (concat (map misplaced_line (misplaced (map shown_revision revisions.now))))
        (ending result) }
    ensures number { IfOk result (λ n.
        n ≡ counted 0
        (length (map misplaced_line (misplaced (map shown_revision revisions.now))))) }
{
    let mut number = 0_u64;
    'rest: for revision in revisions {
        if revision.is_misplaced() {
            put_misplaced(revision, sink)?;
            number = number.saturating_add(1);
        }
    }
    Ok(number)
}

/// Writes a line for each thing that a pass has still to return, and returns how many these are.
/// The number saturates at 2^64 - 1.
pub(crate) fn put_all_missing<S: Sink>(
    mut pass: MissingNumbers<'_>,
    sink: &mut S,
) -> Result<u64, SinkFault>
    ensures written { ForMissing pass.entry (λ entries.
        Wrote S.Sink sink.old sink.new
        (concat (map missing_line (missing_left pass.entry entries))) (ending result)) }
    ensures number { IfOk result (λ n.
        ForMissing pass.entry (λ entries.
        n ≡ counted 0 (length (map missing_line (missing_left pass.entry entries))))) }
{
    let mut number = 0_u64;
    'rest: while let Some(missing) = pass.next() {
        put_missing(missing, sink)?;
        number = number.saturating_add(1);
    }
    Ok(number)
}

/// Writes the lines of what is missing of the names ahead of a pass, and returns how many these are.
/// The number saturates at 2^64 - 1.
pub(crate) fn put_name_faults<S: Sink>(
    mut pass: NameFaults<'_>,
    sink: &mut S,
) -> Result<u64, SinkFault>
    ensures written { ForFaultLines pass.entry (λ lines.
        Wrote S.Sink sink.old sink.new (concat lines) (ending result)) }
    ensures number { IfOk result (λ n.
        ForFaultLines pass.entry (λ lines. n ≡ counted 0 (length lines))) }
{
    let mut number = 0_u64;
    'rest: while let Some(fault) = pass.next() {
        put_name_fault(&fault, sink)?;
        number = number.saturating_add(number_of_lines(&fault));
    }
    Ok(number)
}

/// How many lines are written of a revision of which something is missing.
fn number_of_lines(fault: &NameFault<'_>) -> u64
    ensures { result ≡ length (name_fault_lines (shown_name_fault fault.now)) }
{
    u64::from(fault.one_before) + u64::from(fault.lease)
}
