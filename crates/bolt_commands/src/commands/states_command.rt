//! The command `states`.
ghost use Rattle.std.specs.Prelude.{◌<◌, map};
ghost use Rattle.bolt_commands.specs.{Answers.WritesAnswer, Private.Printing.PrintsAnswer, StatesAnswers.IsStatesPrint, StatesAnswers.IsTriedSize};
ghost use Rattle.bolt_commands.specs.{StatesAnswers.states_answer};
ghost use Rattle.bolt_recover.specs.ShownStates.{place_view, state_view};

use crate::failure::{Failure, Outcome, end_write};
use crate::opening::Input;
use bolt_format::{Sink, choose};
use bolt_job::{PageSize, StatesJob};
use bolt_recover::{States, find_states};
use bolt_report::put_states;

/// Writes the line of each state of the file, the likeliest first. The file need not have a valid meta.
pub(crate) fn do_states<O: Sink>(input: Input<'_>, job: &StatesJob, out: &mut O) -> Outcome
    ensures { PrintsAnswer O.Sink out.old out.new
        (IsStatesPrint job.now input.entry.file.now) result }
{
    let page_size = tried_size(input.file, job.page_size);
    let states = find_states(input.alloc, input.file, page_size)?;
    put_found_states(&states, out)
}

/// The page size of the pages that are tried.
fn tried_size(file: &[u8], asked: Option<PageSize>) -> u32
    ensures size { IsTriedSize file.now asked result }
    ensures positive { 0 < result }
{
    match (asked, choose(file)) {
        (Some(size), _) => size.bytes as u32,
        (None, Ok((_, meta))) => meta.page_size,
        (None, Err(_)) => PageSize::USUAL.bytes as u32,
    }
}

fn put_found_states<O: Sink>(states: &States<'_>, out: &mut O) -> Outcome
    ensures { WritesAnswer O.Sink out.old out.new (states_answer states.now.metas
        (map state_view states.now.kept.items) (map place_view states.now.lost.items)) result }
{
    if states.kept.is_empty() && states.lost.is_empty() {
        return Err(Failure::NoState);
    }
    end_write(put_states(states, out))
}
