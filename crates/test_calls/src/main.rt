//! Makes calls of the libraries on a file, and prints their results: `test_calls VERB FILE WORD ..`.
//! Keys and other bytes are in hexadecimal. A path has slashes between its keys; `.` has none.
//!
//! | verb and words | what is printed |
//! |---|---|
//! | `moves PATH CALL ..` | the keys that calls on a cursor return |
//! | `opens PATH CALL ..` | the same, and how many pages were opened |
//! | `compares PATH CALL ..` | whether keys were compared |
//! | `begins PATH PREFIX ..` | how many pages are opened for the keys that begin with each prefix, and these |
//! | `under PATH KEY ..` | what is under the keys |
//! | `enters PATH KEY ..` | the sequence of the bucket that a cursor is on after a seek of each key |
//! | `walk PATH` | the line of each member of a walk |
//! | `depths PATH` | how many items a walk returns, and how many keys its longest path and all paths have |
//! | `listed PATH`, `keys PATH` | what `list` writes from a path, and `keys` of a bucket |
//! | `print keys FORM PATH PREFIX` | the keys of a bucket that begin so, in a form: `printable`, `hex` or `json` |
//! | `print buckets FORM PATH`, `print value FORM PATH KEY` | the keys of its buckets, and a value |
//! | `print list FORM PATH`, `print part FORM PATH` | what `list` writes from a path and of the part below it: `hex`, `json` or `json-hex` |
//! | `loaded` | the line of each member that the file tells, which is the text of a listing |
//! | `plan SIZE` | the root page and the high-water mark of a plain copy |
//! | `copy SIZE` | the bytes of a plain copy, those that were accepted, and the items held at one time |
//! | `pages` | the table of all pages |
//! | `checked`, `checked SLOT` | the transaction, the length, and whether the accounts were tested |
//! | `pager`, `root`, `bucket KEY` | keys that are found over a pager, and what it opened |
//! | `checksums WORD ..`, `faults` | the checksum of each word, and the numbers of faults |
//! | `puts SINK NUMBER PIECE ..` | what sinks accept |
//! | `again PATH`, `between PATH KEY` | what comes after a refused request for memory |
//! | `names COMMAND ..` | the names of a command's FILE and OUT |
//! | `cuts FIRST LAST COMMAND ..` | what a command prints of each prefix with a length in a range |
//! | `changes FIRST LAST COMMAND ..` | the same if each byte of a range is changed to each other value |
//! | `fails COMMAND ..`, `halts COMMAND ..` | how many bytes, and how many calls, fail in turn |
//! | `deeds fail COMMAND ..`, `deeds differ COMMAND ..` | what a command does to files and streams, if deeds go wrong from each one on |
//! | `agree` | how many changed files were compared |
//!
//! SLOT is 0 or 1. If a result is none, the reason is on standard error, and the status is 3.
#![tactic(auto)]

mod agreements;
mod buckets;
mod checks;
mod copies;
mod cursors;
mod deeds;
mod failures;
mod fault;
mod full_sink;
mod log;
mod memory;
mod pagers;
mod prints;
mod runs;
mod sinks;
mod sweeps;
mod walks;
mod words;

use bolt_check::check;
use bolt_format::{Sink, WriteSink};
use fault::Fault;
use std::io::{BufWriter, Write};
use std::process::ExitCode;
use std::{env, fs, io};
use sweeps::Sweep;
use words::{Input, Text};

/// The number of bytes of output that are gathered before they are written, as in the program.
const GATHERED: usize = 1 << 16;

fn main(rt: HostRuntime) -> ExitCode {
    match print_result(&rt) {
        Ok(code) => ExitCode::from(code),
        Err(Fault { what, at }) => {
            let _ = match at {
                Some(at) => eprintln!(rt; "{what}: wrong at {at}"),
                None => eprintln!(rt; "{what}"),
            };
            ExitCode::from(3)
        }
    }
}

/// Prints the result of a call, and returns the status.
fn print_result(rt: &HostRuntime) -> Result<u8, Fault> {
    let words: Vec<String> = env::args(rt)?.collect(rt.alloc())?;
    print_call(rt, words.as_slice())
}

fn print_call(rt: &HostRuntime, words: &[String]) -> Result<u8, Fault> {
    let [_, verb, name, words @ ..] = words else {
        return Err(Fault::UNREAD);
    };
    let file = fs::read(rt, name.as_str())?;
    let input = Input {
        alloc: rt.alloc(),
        file: file.as_slice(),
        words,
    };
    match verb.as_str() {
        "cuts" => print_sweep(rt, Sweep::Cuts, input),
        "changes" => print_sweep(rt, Sweep::Changes, input),
        "print" => print_straight(rt, input),
        verb => print_text(rt, verb, input),
    }
}

/// Prints what a command comes to on many files, and returns its status. Its copy is written to OUT.
fn print_sweep(rt: &HostRuntime, sweep: Sweep, input: Input<'_>) -> Result<u8, Fault> {
    let ran = sweeps::run_sweep(sweep, input)?;
    io::writer(rt).write_all(ran.out.bytes())?;
    rt.stderr().write_all(ran.err.bytes())?;
    if !ran.target.bytes().is_empty() {
        fs::write(rt, "OUT", ran.target.bytes())?;
    }
    Ok(ran.code)
}

/// Prints as the program does what a call writes, and returns the status.
fn print_straight(rt: &HostRuntime, input: Input<'_>) -> Result<u8, Fault> {
    let checked = check(input.alloc, input.file)?;
    let mut sink = WriteSink::new(BufWriter::with_capacity(rt.alloc(), GATHERED, rt.stdout())?);
    prints::put_call(checked, input, &mut sink)?;
    sink.into_inner().flush()?;
    Ok(0)
}

/// Prints the text of another verb, and returns the status.
fn print_text(rt: &HostRuntime, verb: &str, input: Input<'_>) -> Result<u8, Fault> {
    let mut text = Text::new(rt.alloc());
    put_result(verb, input, &mut text)?;
    let bytes = text.sink.bytes();
    if !bytes.is_empty() && !bytes.ends_with(b"\n") {
        text.add(b"\n");
    }
    if !text.is_whole {
        return Err(Fault::MEMORY);
    }
    io::writer(rt).write_all(text.sink.bytes())?;
    Ok(0)
}

/// The result of a verb that runs the program, or calls a part of it.
fn put_result(verb: &str, input: Input<'_>, text: &mut Text) -> Result<(), Fault> {
    match verb {
        "names" => runs::names_of(input, text),
        "fails" | "halts" => failures::fail(verb, input, text),
        "deeds" => deeds::deeds_of(input, text),
        "agree" => agreements::compared(input, text),
        _ => put_call_result(verb, input, text),
    }
}

/// The result of a verb that calls a library.
fn put_call_result(verb: &str, input: Input<'_>, text: &mut Text) -> Result<(), Fault> {
    match verb {
        "loaded" => copies::loaded(input, text),
        "checked" => checks::checked(input, text),
        "checksums" => checks::checksums(input, text),
        "faults" => {
            checks::faults(text);
            Ok(())
        }
        "puts" => sinks::puts(input, text),
        _ => checks::put_checked(verb, check(input.alloc, input.file)?, input, text),
    }
}
