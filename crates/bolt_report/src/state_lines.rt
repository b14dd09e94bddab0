//! The lines of the states of a file.
ghost use Rattle.std.specs.Prelude.{◌++◌, codes, map};
ghost use Rattle.bolt_format.specs.{Endings.ending, Wrote.Wrote};
ghost use Rattle.bolt_recover.specs.ShownStates.{figures_view, leads_to, place_view, state_view};
ghost use Rattle.bolt_report.specs.StateLines.{counts_words, figures_words, kept_line, keys_words, lost_line, meta_words, metas_line, names_words};
ghost use Rattle.bolt_report.specs.StateLines.{place_words, states_text};
ghost use Rattle.std.specs.List.{flat_map};

use crate::metas::slot_number;
use bolt_format::{Meta, Sink, SinkFault, Slot};
use bolt_recover::{Figures, Place, State, States, ValidMetas};
use bolt_text::{Piece, put, put_pieces};

/// Writes the line of each state of a file (docs/COMMANDS.md, "states").
///
/// # Errors
///
/// `SinkFault` if the sink failed. It has then accepted a prefix of the text.
pub fn put_states<S: Sink>(states: &States<'_>, sink: &mut S) -> Result<(), SinkFault>
    ensures { Wrote S.Sink sink.old sink.new (states_text states.now.metas
        (map state_view states.now.kept.items) (map place_view states.now.lost.items))
        (ending result) }
{
    put_all_kept(states.kept.as_slice(), &states.metas, sink)?;
    put_all_lost(states.lost.as_slice(), &states.metas, sink)
}

#[tactic(auto, using(bolt_text::proofs::Exports::elements))]
fn put_all_kept<S: Sink>(
    states: &[State<'_>],
    metas: &ValidMetas,
    sink: &mut S,
) -> Result<(), SinkFault>
    ensures { Wrote S.Sink sink.old sink.new
        (flat_map (kept_line metas.now) (map state_view states.now)) (ending result) }
{
    for state in states {
        put_kept(state, metas, sink)?;
    }
    Ok(())
}

#[tactic(auto, using(bolt_text::proofs::Exports::elements))]
fn put_all_lost<S: Sink>(
    places: &[Place],
    metas: &ValidMetas,
    sink: &mut S,
) -> Result<(), SinkFault>
    ensures { Wrote S.Sink sink.old sink.new
        (flat_map (lost_line metas.now) (map place_view places.now)) (ending result) }
{
    for place in places {
        put_lost_state(*place, metas, sink)?;
    }
    Ok(())
}

#[tactic(auto, using(bolt_format::proofs::Exports::wrote), unfolding(crate::specs::StateLines::kept_line))]
fn put_kept<S: Sink>(state: &State<'_>, metas: &ValidMetas, sink: &mut S) -> Result<(), SinkFault>
    ensures { Wrote S.Sink sink.old sink.new (kept_line metas.now (state_view state.now))
        (ending result) }
{
    put_place(state.place, sink)?;
    put_figures(state.losses, &state.figures, sink)?;
    put_metas(state.place, metas, sink)
}

#[tactic(auto, using(bolt_format::proofs::Exports::wrote), unfolding(crate::specs::StateLines::lost_line))]
fn put_lost_state<S: Sink>(place: Place, metas: &ValidMetas, sink: &mut S) -> Result<(), SinkFault>
    ensures { Wrote S.Sink sink.old sink.new (lost_line metas.now (place_view place))
        (ending result) }
{
    put_place(place, sink)?;
    put(b"everything lost", sink)?;
    put_metas(place, metas, sink)
}

fn put_place<S: Sink>(place: Place, sink: &mut S) -> Result<(), SinkFault>
    ensures { Wrote S.Sink sink.old sink.new (place_words (place_view place)) (ending result) }
{
    put_pieces(
        &[
            Piece::Number(u64::from(place.page_size)),
            Piece::Field(b":", place.root),
            Piece::Bytes(b" "),
        ],
        sink,
    )
}

#[tactic(auto, using(bolt_format::proofs::Exports::wrote))]
fn put_figures<S: Sink>(losses: u32, figures: &Figures<'_>, sink: &mut S) -> Result<(), SinkFault>
    ensures { Wrote S.Sink sink.old sink.new (figures_words losses (figures_view figures.now))
        (ending result) }
{
    put_counts(losses, figures.buckets, sink)?;
    put_names(figures, sink)?;
    put_pieces(
        &[Piece::Field(b", ", figures.values), Piece::Bytes(b" keys")],
        sink,
    )
}

fn put_counts<S: Sink>(losses: u32, buckets: u32, sink: &mut S) -> Result<(), SinkFault>
    ensures { Wrote S.Sink sink.old sink.new (counts_words losses buckets) (ending result) }
{
    put_pieces(
        &[
            Piece::Number(u64::from(losses)),
            Piece::Field(b" pages lost, ", u64::from(buckets)),
            Piece::Bytes(b" buckets"),
        ],
        sink,
    )
}

/// Writes the first and the last name of the buckets in the root bucket, if there is one.
fn put_names<S: Sink>(figures: &Figures<'_>, sink: &mut S) -> Result<(), SinkFault>
    ensures { Wrote S.Sink sink.old sink.new (names_words figures.now.buckets
        figures.now.first.now figures.now.last.now) (ending result) }
{
    if figures.buckets == 0 {
        return Ok(());
    }
    put_pieces(
        &[
            Piece::Bytes(b" from "),
            Piece::NamedKey(figures.first),
            Piece::Bytes(b" to "),
            Piece::NamedKey(figures.last),
        ],
        sink,
    )
}

/// Writes which metas lead to a place, and the end of the line.
#[tactic(auto, using(bolt_format::proofs::Exports::wrote))]
fn put_metas<S: Sink>(place: Place, metas: &ValidMetas, sink: &mut S) -> Result<(), SinkFault>
    ensures { Wrote S.Sink sink.old sink.new (metas_line metas.now (place_view place))
        (ending result) }
{
    put_meta(Slot::Zero, metas.zero, place, sink)?;
    put_meta(Slot::One, metas.one, place, sink)?;
    put(b"\n", sink)
}

fn put_meta<S: Sink>(
    slot: Slot,
    meta: Option<Meta>,
    place: Place,
    sink: &mut S,
) -> Result<(), SinkFault>
    ensures { Wrote S.Sink sink.old sink.new (meta_words slot meta (place_view place))
        (ending result) }
{
    match meta {
        Some(meta) if meta.page_size == place.page_size && meta.root == place.root => put_pieces(
            &[
                Piece::Field(b"; meta ", slot_number(slot)),
                Piece::Field(b", txid ", meta.txid),
            ],
            sink,
        ),
        _ => Ok(()),
    }
}
