//! Writes what is wrong with a store, line by line (docs/COMMANDS.md, "etcd-check").
ghost use Rattle.std.specs.Prelude.{[], if◌then◌else◌};
ghost use Rattle.std.specs.List.{concat};
ghost use Rattle.bolt_format.specs.{Endings.ending, Wrote.Wrote};
ghost use Rattle.bolt_etcd.specs.Check.CheckLines.{name_fault_lines, lease_line, misplaced_line, missing_line, one_before_line, unread_entry_then};
ghost use Rattle.bolt_etcd.specs.{Private.FaultsLeft.shown_name_fault, Wire.UnreadEntries.No_record, Wire.UnreadEntries.Unread_key, Wire.UnreadEntries.shown_unread};
ghost use Rattle.bolt_etcd.specs.{Wire.ShownRevisions.shown_decoded, Wire.ShownRevisions.shown_revision};
ghost use Rattle.bolt_check.specs.Keys.{Key};

use crate::check::missing::Missing;
use crate::check::name_faults::NameFault;
use crate::wire::revision::{DecodedRevision, Revision};
use crate::wire::revision_key::RevisionKey;
use crate::wire::unread_entry::UnreadEntry;
use bolt_format::{Sink, SinkFault};
use bolt_text::{Piece, printable, put_pieces};

/// Writes which entry isn't a revision, what is wrong with it, and then the end of the line.
///
/// # Errors
///
/// `SinkFault` if the sink failed. It has then accepted a prefix of the text.
pub fn put_unread_entry<S: Sink>(
    other: &UnreadEntry<'_>,
    end: &[u8],
    sink: &mut S,
) -> Result<(), SinkFault>
    ensures { Wrote S.Sink sink.old sink.new (unread_entry_then (shown_unread other.now) end.now)
        (ending result) }
{
    match other {
        UnreadEntry::Key(key) => put_no_revision(key, end, sink),
        UnreadEntry::Record(key) => put_no_record(*key, end, sink),
    }
}

/// Writes that an entry with this key isn't a revision.
fn put_no_revision<'t, S: Sink>(key: &'t [u8], end: &'t [u8], sink: &mut S) -> Result<(), SinkFault>
    ensures { Wrote S.Sink sink.old sink.new (unread_entry_then (Unread_key key.now) end.now)
        (ending result) }
{
    put_pieces(
        &[
            Piece::Bytes(b"key "),
            Piece::Hex(key),
            Piece::Bytes(b": not a revision"),
            Piece::Bytes(end),
        ],
        sink,
    )
}

/// Writes that the value under this key isn't a record.
fn put_no_record<S: Sink>(key: RevisionKey, end: &[u8], sink: &mut S) -> Result<(), SinkFault>
    ensures { Wrote S.Sink sink.old sink.new (unread_entry_then (No_record key) end.now) (ending result) }
{
    put_pieces(
        &[
            Piece::Field(b"revision ", key.main),
            Piece::Field(b".", key.sub),
            Piece::Bytes(b": not a record"),
            Piece::Bytes(end),
        ],
        sink,
    )
}

/// Writes the line of a record of another revision.
pub(crate) fn put_misplaced<S: Sink>(revision: &Revision<'_>, sink: &mut S) -> Result<(), SinkFault>
    ensures { Wrote S.Sink sink.old sink.new (misplaced_line (shown_revision revision.now))
        (ending result) }
{
    put_record(&revision.decode(), sink)
}

/// Writes that a record is that of another revision.
fn put_record<S: Sink>(decoded: &DecodedRevision<'_>, sink: &mut S) -> Result<(), SinkFault>
    ensures { (stored_key : Key) → Wrote S.Sink sink.old sink.new
        (misplaced_line (shown_decoded stored_key decoded.now)) (ending result) }
{
    put_pieces(
        &[
            Piece::Field(b"revision ", decoded.key.main),
            Piece::Field(b".", decoded.key.sub),
            Piece::Field(b": record of revision ", decoded.content.modified),
            Piece::Bytes(b"\n"),
        ],
        sink,
    )
}

/// Writes the line of what is missing by its number.
pub(crate) fn put_missing<S: Sink>(missing: Missing, sink: &mut S) -> Result<(), SinkFault>
    ensures { Wrote S.Sink sink.old sink.new (missing_line missing) (ending result) }
{
    match missing {
        Missing::Transactions { first, last } => put_transactions(first, last, sink),
        Missing::Revisions { main, first, last } => put_revisions(main, first, last, sink),
    }
}

/// Writes the line of the transactions from `first` to `last`.
fn put_transactions<S: Sink>(first: u64, last: u64, sink: &mut S) -> Result<(), SinkFault>
    ensures { Wrote S.Sink sink.old sink.new (missing_line (Missing.Transactions first last))
        (ending result) }
{
    if first == last {
        return put_pieces(
            &[
                Piece::Field(b"revision ", first),
                Piece::Bytes(b": missing\n"),
            ],
            sink,
        );
    }
    put_pieces(
        &[
            Piece::Field(b"revisions ", first),
            Piece::Field(b" to ", last),
            Piece::Bytes(b": missing\n"),
        ],
        sink,
    )
}

/// Writes the line of the revisions of a transaction from `first` to `last`.
fn put_revisions<S: Sink>(main: u64, first: u64, last: u64, sink: &mut S) -> Result<(), SinkFault>
    ensures { Wrote S.Sink sink.old sink.new (missing_line (Missing.Revisions main first last))
        (ending result) }
{
    if first == last {
        return put_pieces(
            &[
                Piece::Field(b"revision ", main),
                Piece::Field(b".", first),
                Piece::Bytes(b": missing\n"),
            ],
            sink,
        );
    }
    put_pieces(
        &[
            Piece::Field(b"revisions ", main),
            Piece::Field(b".", first),
            Piece::Field(b" to ", main),
            Piece::Field(b".", last),
            Piece::Bytes(b": missing\n"),
        ],
        sink,
    )
}

/// Writes a line for each thing that is missing of a revision.
pub(crate) fn put_name_fault<S: Sink>(fault: &NameFault<'_>, sink: &mut S) -> Result<(), SinkFault>
    ensures { Wrote S.Sink sink.old sink.new (concat (name_fault_lines (shown_name_fault fault.now)))
        (ending result) }
{
    let decoded = fault.revision.decode();
    put_one_before(&decoded, fault.one_before, sink)?;
    put_lease(&decoded, fault.lease, sink)
}

/// Writes that the one before a revision is missing, if it is.
fn put_one_before<S: Sink>(
    decoded: &DecodedRevision<'_>,
    is_missing: bool,
    sink: &mut S,
) -> Result<(), SinkFault>
    ensures { (stored_key : Key)
        → Wrote S.Sink sink.old sink.new
        (if is_missing then one_before_line (shown_decoded stored_key decoded.now) else [])
        (ending result) }
{
    if !is_missing {
        return Ok(());
    }
    put_pieces(
        &[
            Piece::Field(b"revision ", decoded.key.main),
            Piece::Field(b".", decoded.key.sub),
            Piece::Bytes(b" of "),
            printable(decoded.content.name),
            Piece::Bytes(b": one before it is missing\n"),
        ],
        sink,
    )
}

/// Writes that the lease of a revision is missing, if it is.
fn put_lease<S: Sink>(
    decoded: &DecodedRevision<'_>,
    is_missing: bool,
    sink: &mut S,
) -> Result<(), SinkFault>
    ensures { (stored_key : Key)
        → Wrote S.Sink sink.old sink.new
        (if is_missing then lease_line (shown_decoded stored_key decoded.now) else []) (ending result) }
{
    if !is_missing {
        return Ok(());
    }
    put_pieces(
        &[
            Piece::Field(b"revision ", decoded.key.main),
            Piece::Field(b".", decoded.key.sub),
            Piece::Bytes(b" of "),
            printable(decoded.content.name),
            Piece::Bytes(b": lease "),
            Piece::HexNumber(decoded.content.lease),
            Piece::Bytes(b" is missing\n"),
        ],
        sink,
    )
}
