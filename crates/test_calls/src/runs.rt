//! What a job comes to on a file in memory.

use crate::fault::Fault;
use crate::full_sink::FullSink;
use crate::words::{Input, Text};
use bolt_cli::{Job, read_words, run};
use bolt_format::Sink;
use std::alloc::Global;
use std::convert::AsStr;

/// The words of a command line: the program's name, and then these.
pub fn line_of<S: AsStr>(alloc: Global, words: &[S]) -> Result<Vec<String>, Fault> {
    let mut line = Vec::new(alloc);
    line.push(String::from_str(alloc, "luntsegi")?)?;
    for word in words {
        line.push(String::from_str(alloc, word.as_str())?)?;
    }
    Ok(line)
}

/// The job that these words ask for.
pub fn job_of<S: AsStr>(alloc: Global, words: &[S]) -> Result<Job, Fault> {
    let line = line_of(alloc, words)?;
    read_words(alloc, line).ok().ok_or(Fault::UNREAD)
}

/// The names of the job's FILE and OUT, which may be `none`.
pub fn names_of(input: Input<'_>, text: &mut Text) -> Result<(), Fault> {
    let job = job_of(input.alloc, input.words)?;
    text.add(job.file().as_bytes());
    text.add(b"\n");
    text.add(job.target().unwrap_or("none").as_bytes());
    text.add(b"\n");
    Ok(())
}

/// A job on a file in memory.
#[derive(Clone, Copy)]
pub struct Task<'a> {
    pub alloc: Global,
    pub job: &'a Job,
    pub file: &'a [u8],
}

impl Task<'_> {
    /// A run over sinks that accept everything.
    pub fn run(self) -> RunOutput {
        self.run_to([usize::MAX; 3])
    }

    /// A run over sinks for standard output, standard error and the copy, which are full after these many
    /// bytes.
    pub fn run_to(self, rooms: [usize; 3]) -> RunOutput {
        let mut out = FullSink::new(self.alloc, rooms[0]);
        let mut err = FullSink::new(self.alloc, rooms[1]);
        let mut target = FullSink::new(self.alloc, rooms[2]);
        let code = self.status_of(&mut out, &mut err, &mut target);
        RunOutput {
            out,
            err,
            target,
            code,
        }
    }

    /// The status of a run over these sinks. Other proofs don't read the contract of `run`, which is
    /// most of what they would take.
    pub fn status_of<O: Sink, E: Sink, T: Sink>(
        self,
        out: &mut O,
        err: &mut E,
        target: &mut T,
    ) -> u8 {
        run(self.alloc, self.job, self.file, out, err, target).code
    }
}

/// What a run wrote, and its status.
#[derive(Drop)]
pub struct RunOutput {
    pub out: FullSink,
    pub err: FullSink,
    pub target: FullSink,
    pub code: u8,
}

impl RunOutput {
    /// Whether the run has this status and wrote these texts.
    pub fn is(&self, code: u8, out: &[u8], err: &[u8]) -> bool {
        self.code == code && self.out.bytes() == out && self.err.bytes() == err
    }

    /// Whether the other run wrote and came to the same.
    pub fn is_like(&self, other: &RunOutput) -> bool {
        self.is(other.code, other.out.bytes(), other.err.bytes())
            && self.target.bytes() == other.target.bytes()
    }
}

/// The first line of a text, without its line feed.
pub fn first_line(text: &[u8]) -> &[u8] {
    text.split(|byte| *byte == b'\n').next().unwrap_or(b"")
}
