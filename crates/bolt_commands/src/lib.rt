//! What a job prints or writes, and its status.
#![tactic(auto)]

ghost use Rattle.std.specs.Prelude.{◌≡◌};
ghost use Rattle.bolt_commands.specs.{Answers.Accepts, Answers.JobEnding, Answers.Reports, Answers.status_of, Failures.failure_line};
ghost use Rattle.bolt_commands.specs.{JobAnswers.DoesJob};

mod commands;
mod copies;
mod etcd_store;
mod failure;
mod failure_line;
mod file_faults;
mod hashed_copy;
pub mod laws;
mod opening;
mod other_meta;
mod recovered_names;
mod repair_counts;
mod shortfall;
mod value_text;
mod verdict;

use crate::commands::do_job;
use crate::failure_line::put_failure;
use crate::opening::Input;
use bolt_format::Sink;
use bolt_job::Job;
pub use failure::Failure;
pub use other_meta::OtherMeta;
pub use shortfall::Shortfall;
use std::alloc::Global;

/// How a run ended.
#[derive(Clone, Copy)]
pub struct Status {
    /// 0 if the job is done; 1 if there was a fault, or if something was found or lost that is printed
    /// as the result (docs/COMMANDS.md, "Exit status").
    pub code: u8,
}

/// Does a job on the bytes of its file, and returns its status (docs/COMMANDS.md, "What a run
/// writes"). It writes the text to `out`, and a copy to `target`; other jobs don't touch `target`. If
/// there was a failure, it writes its line to `err`; otherwise it doesn't touch `err`.
pub fn run<O: Sink, E: Sink, T: Sink>(
    alloc: Global,
    job: &Job,
    file: &[u8],
    out: &mut O,
    err: &mut E,
    target: &mut T,
) -> Status
    ensures { (ending : JobEnding)
        × DoesJob O.Sink out.old out.new T.Sink target.old target.new file.now job.now ending
        × (result.code ≡ status_of ending) × Reports E.Sink err.old err.new ending }
{
    match do_job(Input { alloc, file }, job, out, target) {
        Ok(code) => Status { code },
        Err(failure) => report(&failure, err),
    }
}

/// Reports a failure. The status is the same if its line can't be written.
fn report<E: Sink>(failure: &Failure, err: &mut E) -> Status
    ensures status { result.code ≡ 1 }
    ensures line { Accepts E.Sink err.old err.new (failure_line failure.now) }
{
    let _ = put_failure(failure, err);
    Status { code: 1 }
}
