//! Lines on standard error: why nothing was done, or not all. Each function returns the status.
ghost use Rattle.std.specs.Prelude.{◌≡◌, ◌<◌, ◌++◌, List, ℕ, codes, map};
ghost use Rattle.bolt_commands.specs.Answers.{JobEnding};
ghost use Rattle.bolt_commands.specs.Answers.{status_of};
ghost use Rattle.bolt_cli.specs.{Deeds.Does, Deeds.joined, Gathered.GathersPiece, Names.shown_name};
ghost use Rattle.bolt_cli.specs.Runs.{DoesBuffered, Ends, Fails, FailsGathered, FailsLacking, HoldsUnless, IsBufferedLine, IsReported, RefusesUsage};
ghost use Rattle.bolt_cli.specs.Runs.{error_line};

use crate::names::{put_escaped_lines, put_escaped_name, put_plain};
use crate::outside::Outside;
use bolt_format::{MemSink, Sink};
use std::alloc::Global;

/// The status of a command line that was refused.
const REFUSED: u8 = 2;
/// The status of a job that failed.
pub(crate) const FAILED: u8 = 1;

pub(crate) const NO_MEMORY: &[u8] = b"error: out of memory\n";

pub(crate) const UNWRITTEN: &[u8] = b"error: write failed\n";

/// Prints the line of a fault.
pub(crate) fn fail<O: Outside>(outside: &mut O, pieces: &[&[u8]]) -> u8
    ensures { Does O.done outside.old outside.new result
        (Fails (joined (map (λ piece. piece.now) pieces.now))) }
{
    outside.say(pieces);
    FAILED
}

/// Prints that there was no memory for this text.
pub(crate) fn fail_lacking<O: Outside>(outside: &mut O, text: &MemSink) -> u8
    requires { 0 < ⟦<MemSink as Sink>⟧.failed text.now }
    ensures { Does O.done outside.old outside.new result FailsLacking }
{
    outside.say_instead(text, NO_MEMORY);
    FAILED
}

/// Prints a gathered line, or that there was no memory for it.
fn fail_gathered<O: Outside>(outside: &mut O, line: &MemSink) -> u8
    ensures { (text : List ℕ) → HoldsUnless (⟦<MemSink as Sink>⟧.taken line.now)
        (⟦<MemSink as Sink>⟧.failed line.now) text
        → Does O.done outside.old outside.new result (FailsGathered text) }
{
    if line.failures() > 0 {
        fail_lacking(outside, line)
    } else {
        fail(outside, &[line.bytes()])
    }
}

/// Prints the line of a fault that names a file.
pub(crate) fn fail_naming<O: Outside>(
    outside: &mut O,
    alloc: Global,
    words: &[u8],
    name: &str,
) -> u8
    ensures { Does O.done outside.old outside.new result
        (FailsGathered (words.now ++ (shown_name name.now ++ codes "\n"))) }
{
    let mut line = MemSink::new(alloc);
    put_plain(words, &mut line);
    put_escaped_name(name, &mut line);
    put_plain(b"\n", &mut line);
    fail_gathered(outside, &line)
}

/// Ends a job with this status, or with the line of its failure, if there is one.
pub(crate) fn end_with<O: Outside>(outside: &mut O, err: &MemSink, code: u8) -> u8
    ensures { DoesBuffered O.done outside.old outside.new result
        (⟦<MemSink as Sink>⟧.taken err.now) (⟦<MemSink as Sink>⟧.failed err.now) code IsReported }
{
    if err.failures() > 0 {
        return fail_lacking(outside, err);
    }
    let line = err.bytes();
    if line.is_empty() {
        code
    } else {
        fail(outside, &[line])
    }
}

/// Prints why the words are no line of a command. The text may have words that are names.
pub(crate) fn refuse_usage<O: Outside>(outside: &mut O, alloc: Global, text: &str) -> u8
    ensures { Does O.done outside.old outside.new result (RefusesUsage text.now) }
{
    let mut shown = MemSink::new(alloc);
    put_escaped_lines(text, &mut shown);
    if shown.failures() > 0 {
        return fail_lacking(outside, &shown);
    }
    outside.say(&[shown.bytes()]);
    REFUSED
}

/// Prints why a word is refused.
pub(crate) fn refuse_word<O: Outside>(outside: &mut O, why: &str) -> u8
    ensures { Does O.done outside.old outside.new result
        (λ deeds code. Ends (error_line why.now) deeds × (code ≡ 2)) }
{
    outside.say(&[b"error: ", why.as_bytes(), b"\n"]);
    REFUSED
}
