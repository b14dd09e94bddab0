//! Reads the words of a command line: which job they ask for.
ghost use Rattle.std.specs.Prelude.{IfErr, IfOk, map, string_bytes};
ghost use Rattle.clap.specs.Words.{kind_of, subcommand_rows_of};
ghost use Rattle.bolt_job.specs.CommandLine.{Asks, ReadsAs, HasKindOf, IsCommand, IsRefusalOf, asked_by_subcommand, program};
ghost use Rattle.bolt_job.specs.Jobs.{asked_of};

use crate::command_line::{bare_program, with_commands};
use crate::job::{Job, commands, read_command};
use crate::line::Line;
use crate::refusal::Refusal;
use clap::error::ErrorKind;
use clap::{ArgMatches, Command, Error};
use std::alloc::{AllocError, Global};

/// Reads the words of a command line. The first one is the program's name. docs/COMMANDS.md has the
/// commands, and says how each word is written.
///
/// # Errors
///
/// - `Help` if help is asked for before a word is out of place.
/// - `Version` if `--version` or `-V` is in the place of a command.
/// - `Usage` if the words are no line of a command for another reason.
/// - `Word` if the words are a line of a command, but one of them can't be read: `bad form`,
///   `bad parts` or `bad meta` with the words that are known, `bad page id`, `bad hex`,
///   `bad page size`, `bad sequence` or `bad revision`.
/// - `Memory` if memory runs out.
pub fn read_words(alloc: Global, words: Vec<String>) -> Result<Job, Refusal>
    ensures job { IfOk result (Asks (map string_bytes words.items)) }
    ensures refusal { IfErr result (IsRefusalOf (map string_bytes words.items)) }
{
    let command = program(alloc)?;
    match command.try_get_matches_from(words.as_slice()) {
        Ok(matches) => read_matches(alloc, &matches),
        Err(error) => Err(refusal_of(alloc, &error)?),
    }
}

/// The whole command line.
fn program<'a>(alloc: Global) -> Result<Command<'a>, AllocError>
    ensures { IfOk result (IsCommand program) }
{
    with_commands(alloc, bare_program(alloc), &commands())
}

fn refusal_of(alloc: Global, error: &Error) -> Result<Refusal, AllocError>
    ensures { IfOk result (HasKindOf (kind_of error.now)) }
{
    match error.kind() {
        ErrorKind::OutOfMemory => Ok(Refusal::Memory),
        ErrorKind::DisplayHelp => Ok(Refusal::Help(format!(in alloc; "{error}")?)),
        ErrorKind::DisplayVersion => Ok(Refusal::Version(format!(in alloc; "{error}")?)),
        _ => Ok(Refusal::Usage(usage_text(alloc, error)?)),
    }
}

/// What `clap` says of a line that it refuses, with a tip only if that helps.
fn usage_text(alloc: Global, error: &Error) -> Result<String, AllocError> {
    let text = format!(in alloc; "{error}")?;
    let Some((what, rest)) = text.split_once("\n\n  tip: ") else {
        return Ok(text);
    };
    let Some((tip, usage)) = rest.split_once("\n\nUsage: ") else {
        return Ok(text);
    };
    match better_tip(what, tip, usage) {
        Some(tip) => format!(in alloc; "{what}\n\n  tip: {tip}\n\nUsage: {usage}"),
        None => format!(in alloc; "{what}\n\nUsage: {usage}"),
    }
}

/// A tip that names what there is. That of `clap`, to write an unknown option as an operand, only leads to the next
/// refusal; and it knows no command like `version`.
fn better_tip<'a>(what: &str, tip: &'a str, usage: &str) -> Option<&'a str> {
    if what == "error: unrecognized subcommand 'version'" {
        Some("'--version' prints the version")
    } else if what == "error: unexpected argument '--recover' found" && usage.contains(" check ") {
        Some("'--all' goes on after the first error")
    } else if tip.starts_with("to pass ") {
        None
    } else {
        Some(tip)
    }
}

fn read_matches(alloc: Global, matches: &ArgMatches<'_>) -> Result<Job, Refusal>
    ensures { ReadsAs asked_of (asked_by_subcommand (subcommand_rows_of matches.now)) result }
{
    match matches.subcommand() {
        Some((name, matches)) => read_command(name, &Line { alloc, matches }),
        None => Err(Refusal::Word("command missing")),
    }
}
