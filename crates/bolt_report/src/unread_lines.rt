//! The lines of entries of etcd's bucket `key` that etcd can't read, and that a repair doesn't copy.
ghost use Rattle.std.specs.Prelude.{map};
ghost use Rattle.bolt_format.specs.{Endings.ending, Wrote.Wrote};
ghost use Rattle.bolt_etcd.specs.Wire.UnreadEntries.{shown_unread};
ghost use Rattle.bolt_report.specs.UnreadLines.{unread_text};

use bolt_etcd::{UnreadEntry, put_unread_entry};
use bolt_format::{Sink, SinkFault};

/// Writes a line for each of these entries.
///
/// # Errors
///
/// `SinkFault` if the sink failed. It has then accepted a prefix of the text.
#[tactic(auto, using(bolt_text::proofs::Exports::elements))]
pub fn put_unread<S: Sink>(entries: &[UnreadEntry<'_>], sink: &mut S) -> Result<(), SinkFault>
    ensures { Wrote S.Sink sink.old sink.new (unread_text (map shown_unread entries.now))
        (ending result) }
{
    for entry in entries {
        put_unread_entry(entry, b"; not copied\n", sink)?;
    }
    Ok(())
}
