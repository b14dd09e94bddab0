//! What etcd would report of a store as a text.
ghost use Rattle.std.specs.Prelude.{◌≡◌};
ghost use Rattle.bolt_format.specs.{Endings.ending, Wrote.Wrote};
ghost use Rattle.bolt_report.specs.StatusLines.{status_text};

use crate::metas::{line_or, number_or};
use bolt_etcd::StoreStatus;
use bolt_format::{Sink, SinkFault};
use bolt_text::{FigureForm, Piece, put_pieces};

/// Writes the eight figures of a store in a form (docs/COMMANDS.md, "etcd-status").
///
/// # Errors
///
/// `SinkFault` if the sink failed. It has then accepted a prefix of the text.
pub fn put_status<S: Sink>(
    status: &StoreStatus,
    form: FigureForm,
    sink: &mut S,
) -> Result<(), SinkFault>
    ensures { Wrote S.Sink sink.old sink.new (status_text form status.now) (ending result) }
{
    match form {
        FigureForm::Lines => put_status_lines(status, sink),
        FigureForm::Json => put_status_json(status, sink),
    }
}

#[tactic(auto, unfolding(crate::specs::StatusLines::status_text))]
fn put_status_lines<S: Sink>(status: &StoreStatus, sink: &mut S) -> Result<(), SinkFault>
    ensures { Wrote S.Sink sink.old sink.new (status_text FigureForm.Lines status.now)
        (ending result) }
{
    put_pieces(
        &[
            Piece::Figure(b"revision", status.revision),
            Piece::Figure(b"newest", status.newest),
            Piece::Figure(b"compacted", status.compacted),
            Piece::Figure(b"keys", status.keys),
            Piece::Figure(b"revisions", status.revisions),
            line_or(
                b"consistent index",
                b"consistent index none\n",
                status.consistent_index,
            ),
            line_or(b"term", b"term none\n", status.term),
            line_or(b"hash", b"hash none\n", hash_number(status)),
        ],
        sink,
    )
}

fn put_status_json<S: Sink>(status: &StoreStatus, sink: &mut S) -> Result<(), SinkFault>
    ensures { Wrote S.Sink sink.old sink.new (status_text FigureForm.Json status.now)
        (ending result) }
{
    put_pieces(
        &[
            Piece::Field(b"{\"revision\":", status.revision),
            Piece::Field(b",\"newest\":", status.newest),
            Piece::Field(b",\"compacted\":", status.compacted),
            Piece::Field(b",\"keys\":", status.keys),
            Piece::Field(b",\"revisions\":", status.revisions),
            Piece::Bytes(b",\"consistent_index\":"),
            number_or(status.consistent_index, b"null"),
            Piece::Bytes(b",\"term\":"),
            number_or(status.term, b"null"),
            Piece::Bytes(b",\"hash\":"),
            number_or(hash_number(status), b"null"),
            Piece::Bytes(b"}\n"),
        ],
        sink,
    )
}

/// The hash, if there is one.
fn hash_number(status: &StoreStatus) -> Option<u64>
    ensures { result ≡ status.now.hash }
{
    Some(u64::from(status.hash?))
}
