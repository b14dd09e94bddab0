//! A command whose standard output, copy or standard error fails at each byte, or at each call.

use crate::fault::{Fault, require};
use crate::runs::{RunOutput, Task, job_of};
use crate::sinks::{Halting, Refusal};
use crate::words::{Input, Text};
use bolt_format::{MemSink, Sink, WriteSink};
use std::io::ErrorKind;

const WRITE_FAILED: &[u8] = b"error: write failed\n";

/// No failure: a sink accepts as many bytes as come.
const NEVER: usize = usize::MAX;

/// A job on a file, and what it comes to if nothing fails.
#[derive(Clone, Copy)]
struct Whole<'a> {
    task: Task<'a>,
    ran: &'a RunOutput,
}

impl Whole<'_> {
    /// Standard output fails after this many bytes. What fits stays, the failure is reported, and a
    /// copy is whole.
    fn fail_output(&self, room: usize) -> Result<(), Fault> {
        let ran = self.task.run_to([room, NEVER, NEVER]);
        let taken = self.ran.out.bytes().get(..room).unwrap_or(b"");
        let is_right = ran.is(1, taken, WRITE_FAILED)
            && ran.target.bytes() == self.ran.target.bytes();
        require(is_right, "standard output that fails", room)
    }

    /// The copy fails after this many bytes. What fits stays, nothing is printed, and the failure is
    /// reported.
    fn fail_copy(&self, room: usize) -> Result<(), Fault> {
        let ran = self.task.run_to([NEVER, NEVER, room]);
        let is_taken = self.ran.target.bytes().get(..room) == Some(ran.target.bytes());
        let is_right = ran.is(1, b"", WRITE_FAILED) && is_taken && ran.target.failures() > 0;
        require(is_right, "a copy that fails", room)
    }

    /// Standard error fails after this many bytes. What fits stays, and nothing else changes.
    fn fail_error(&self, room: usize) -> Result<(), Fault> {
        let ran = self.task.run_to([NEVER, room, NEVER]);
        let taken = self.ran.err.bytes().get(..room).unwrap_or(b"");
        let is_right = ran.is(self.ran.code, self.ran.out.bytes(), taken);
        require(is_right, "standard error that fails", room)
    }

    /// Standard output and standard error fail. The status is 1.
    fn fail_both(&self) -> Result<(), Fault> {
        let ran = self.task.run_to([1, 0, NEVER]);
        let is_right = ran.code == 1 && ran.out.bytes().len() < 2 && ran.err.bytes().is_empty();
        require(is_right, "standard output and error that fail", 1)
    }

    /// How many calls a stream is written in, each of which is refused in turn.
    fn calls(&self, stream: Stream, refusal: Refusal) -> Result<usize, Fault> {
        for refused in 1..usize::MAX {
            if !self.halt(stream, Halting::new(self.task.alloc, refused, refusal))? {
                return Ok(refused - 1);
            }
        }
        Ok(0)
    }

    /// A stream goes to a writer that refuses a call. Whether it made that call. If it is the copy,
    /// nothing is printed.
    fn halt(&self, stream: Stream, writer: Halting) -> Result<bool, Fault> {
        let mut halted = WriteSink::new(writer);
        let mut other = MemSink::new(self.task.alloc);
        let mut err = MemSink::new(self.task.alloc);
        let code = match stream {
            Stream::Output => self.task.status_of(&mut halted, &mut err, &mut other),
            Stream::Copy => self.task.status_of(&mut other, &mut err, &mut halted),
        };
        let (whole, is_reported) = match stream {
            Stream::Output => (self.ran.out.bytes(), true),
            Stream::Copy => (self.ran.target.bytes(), other.bytes().is_empty()),
        };
        let is_reported = is_reported && code == 1 && err.bytes() == WRITE_FAILED;
        is_halted(halted, whole, is_reported)
    }
}

/// Whether a writer's call was refused. If so, this was reported, it has a proper prefix of the whole,
/// and it wasn't called again, nor is it by another `put`. Otherwise it has the whole.
fn is_halted(mut sink: WriteSink<Halting>, whole: &[u8], is_reported: bool) -> Result<bool, Fault> {
    let has_failed = sink.failures() > 0;
    let is_over = sink.put(b"more").is_err();
    let writer = sink.into_inner();
    let taken = writer.taken.as_slice();
    let is_right = if has_failed {
        let is_prefix = whole.starts_with(taken) && taken.len() < whole.len();
        is_reported && is_over && writer.calls == writer.refused && is_prefix
    } else {
        taken.starts_with(whole)
    };
    require(is_right, "a writer that refuses a call", writer.refused)?;
    Ok(has_failed)
}

/// A stream whose calls are refused.
#[derive(Clone, Copy)]
enum Stream {
    Output,
    Copy,
}

const REFUSALS: [Refusal; 4] = [
    Refusal::Error(ErrorKind::Other),
    Refusal::Error(ErrorKind::Interrupted),
    Refusal::Error(ErrorKind::WouldBlock),
    Refusal::Nothing,
];

/// The number of bytes that a command prints, copies and reports, each of which fails in turn (`fails`).
/// Or the number of those that it prints and copies by calls that fail in turn; a call writes at most
/// seven bytes (`halts`).
pub fn fail(verb: &str, input: Input<'_>, text: &mut Text) -> Result<(), Fault> {
    let Input { alloc, file, words } = input;
    let job = job_of(alloc, words)?;
    let task = Task {
        alloc,
        job: &job,
        file,
    };
    fail_task(verb, task, text)
}

fn fail_task(verb: &str, task: Task<'_>, text: &mut Text) -> Result<(), Fault> {
    let ran = task.run();
    let whole = Whole { task, ran: &ran };
    if verb == "fails" {
        fail_each(&whole, text)
    } else {
        halt_each(&whole, text)
    }
}

fn fail_each(whole: &Whole<'_>, text: &mut Text) -> Result<(), Fault> {
    let RunOutput {
        out,
        err,
        target,
        ..
    } = whole.ran;
    let (out, copy, err) = (out.bytes().len(), target.bytes().len(), err.bytes().len());
    for room in 0..out {
        whole.fail_output(room)?;
    }
    for room in 0..copy {
        whole.fail_copy(room)?;
    }
    for room in 0..err {
        whole.fail_error(room)?;
    }
    whole.fail_both()?;
    text.numbers(&[out as u64, copy as u64, err as u64]);
    Ok(())
}

fn halt_each(whole: &Whole<'_>, text: &mut Text) -> Result<(), Fault> {
    let (out, copy) = (whole.ran.out.bytes().len(), whole.ran.target.bytes().len());
    for refusal in REFUSALS {
        let printed = whole.calls(Stream::Output, refusal)?;
        let copied = whole.calls(Stream::Copy, refusal)?;
        let are_enough = printed >= out / 7 && copied >= copy / 7;
        require(are_enough, "the number of calls", out)?;
    }
    text.numbers(&[out as u64, copy as u64]);
    Ok(())
}
