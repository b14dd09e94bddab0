//! One command on many files that are cut short or changed.

use crate::fault::{Fault, require};
use crate::runs::{RunOutput, Task, job_of};
use crate::words::{Input, number};
use bolt_cli::Job;
use std::alloc::Global;

/// How files differ from the one that is given.
#[derive(Clone, Copy, PartialEq, Eq)]
pub enum Sweep {
    /// A file is cut off at each place.
    Cuts,
    /// The byte at each place is changed to each other value in turn.
    Changes,
}

impl Sweep {
    /// A byte is changed once by each of the numbers from 1 to this one, whose bits are changed.
    fn last_bits(self) -> u8 {
        match self {
            Sweep::Changes => u8::MAX,
            Sweep::Cuts => 1,
        }
    }

    /// What the job comes to on the file that differs at a place. The file is then as before.
    fn run(self, alloc: Global, job: &Job, file: &mut [u8], at: usize, bits: u8) -> RunOutput {
        if self == Sweep::Cuts {
            let file = file.get(..at).unwrap_or(b"");
            return Task { alloc, job, file }.run();
        }
        toggle(file, at, bits);
        let ran = Task { alloc, job, file }.run();
        toggle(file, at, bits);
        ran
    }

    /// The job comes to the same on each file.
    fn compare_each(
        self,
        task: Task<'_>,
        file: &mut [u8],
        places: [usize; 2],
        first: &RunOutput,
    ) -> Result<(), Fault> {
        for at in places[0]..=places[1] {
            for bits in 1..=self.last_bits() {
                let ran = self.run(task.alloc, task.job, file, at, bits);
                require(first.is_like(&ran), "another result than before", at)?;
            }
        }
        Ok(())
    }
}

/// Changes some bits of the byte at a place.
pub fn toggle(file: &mut [u8], at: usize, bits: u8) {
    if let Some(byte) = file.get_mut(at) {
        *byte ^= bits;
    }
}

/// What a command comes to on the first of many files. They differ at each place from the first word to
/// the second, and it comes to the same each time.
pub fn run_sweep(sweep: Sweep, input: Input<'_>) -> Result<RunOutput, Fault> {
    let Input { alloc, file, words } = input;
    let [first, last, command @ ..] = words else {
        return Err(Fault::UNREAD);
    };
    let first = number(first.as_str())? as usize;
    let last = number(last.as_str())? as usize;
    require(last <= file.len(), "a file that is too short", last)?;
    let job = job_of(alloc, command)?;
    let task = Task {
        alloc,
        job: &job,
        file,
    };
    run_each(sweep, task, first, last)
}

fn run_each(sweep: Sweep, task: Task<'_>, first: usize, last: usize) -> Result<RunOutput, Fault> {
    let mut file = task.file.to_vec(task.alloc)?;
    let ran = sweep.run(task.alloc, task.job, &mut file, first, 1);
    sweep.compare_each(task, &mut file, [first, last], &ran)?;
    Ok(ran)
}
