//! What commands say of one file, compared with each other.

use crate::fault::{Fault, require};
use crate::runs::{RunOutput, Task, first_line, job_of};
use crate::sweeps::toggle;
use crate::words::{Input, Text};
use bolt_cli::Job;
use std::alloc::Global;

/// How the result of a command is judged.
#[derive(Clone, Copy)]
enum Kind {
    /// The command opens one page.
    Page,
    /// The command checks the file first, and prints it.
    Reader,
    /// The command checks the file to a greater extent than `check`.
    Check,
    /// The command prints the states of any file.
    States,
    /// The command lists what the copy after it has.
    List,
    /// As `List`, and what it lists beside the bucket of found pages is what the listing before has.
    JoinedListing,
    /// The command makes a copy.
    Copy,
}

/// The name of the bucket of found pages in hexadecimal, with which its lines begin.
const FOUND: &[u8] = b"6c6f73742b666f756e64";

/// Commands that are tried on each file: first `check`, then `list`. There is no page 4. A copy comes after
/// the listing to the same extent, and that of what is joined after that of what is recovered. The file
/// has no bucket `key`, so `etcd-repair` isn't among them.
static TRIALS: [(Kind, &[&str]); 20] = [
    (Kind::Check, &["check", "FILE"]),
    (Kind::Reader, &["list", "FILE"]),
    (Kind::Copy, &["compact", "-o", "OUT", "FILE"]),
    (Kind::List, &["list", "--recover", "FILE"]),
    (
        Kind::Copy,
        &["compact", "-o", "OUT", "--for-bbolt", "--recover", "FILE"],
    ),
    (Kind::JoinedListing, &["list", "--lost-and-found", "FILE"]),
    (
        Kind::Copy,
        &["compact", "-o", "OUT", "--lost-and-found", "FILE"],
    ),
    (Kind::Check, &["check", "--all", "FILE"]),
    (Kind::Check, &["check", "--lost-and-found", "FILE"]),
    (Kind::States, &["states", "FILE"]),
    (Kind::Page, &["page", "FILE", "0"]),
    (Kind::Page, &["page", "FILE", "1"]),
    (Kind::Page, &["page", "FILE", "2"]),
    (Kind::Page, &["page", "FILE", "3"]),
    (Kind::Page, &["page", "FILE", "4"]),
    (Kind::Reader, &["pages", "FILE"]),
    (Kind::Reader, &["buckets", "FILE"]),
    (Kind::Reader, &["buckets", "--sizes", "FILE"]),
    (Kind::Reader, &["stats", "FILE"]),
    (Kind::Reader, &["list", "--form", "json", "FILE"]),
];

/// A command that is tried, and how its result is judged.
#[derive(Drop)]
struct Trial {
    kind: Kind,
    job: Job,
}

fn trials_of(alloc: Global) -> Result<Vec<Trial>, Fault> {
    let mut trials = Vec::new(alloc);
    for (kind, words) in &TRIALS {
        let job = job_of(alloc, words)?;
        trials.push(Trial { kind: *kind, job })?;
    }
    Ok(trials)
}

/// `check`, `list` and the others.
#[derive(Clone, Copy)]
struct Trials<'a> {
    alloc: Global,
    check: &'a Job,
    list: &'a Job,
    others: &'a [Trial],
}

impl Trials<'_> {
    fn run(self, job: &Job, file: &[u8]) -> RunOutput {
        let alloc = self.alloc;
        Task { alloc, job, file }.run()
    }

    /// Whether everything that is said of a file fits together.
    fn agree(self, file: &[u8]) -> bool {
        let check = self.run(self.check, file);
        let mut listed = self.run(self.list, file);
        let mut are_right = is_read(&listed, &check);
        for trial in self.others {
            are_right &= self.is_next(trial, file, &check, &mut listed);
        }
        are_right
    }

    /// Whether the commands agree on the file with the byte at a place changed to each other value in turn.
    fn agree_on_changes(self, file: &mut [u8], at: usize) -> bool {
        let mut are_right = true;
        for bits in 1..=u8::MAX {
            toggle(file, at, bits);
            are_right &= self.agree(file);
            toggle(file, at, bits);
        }
        are_right
    }

    /// Whether a command is right, by what `check` and the last listing before it said.
    fn is_next(
        self,
        trial: &Trial,
        file: &[u8],
        check: &RunOutput,
        listed: &mut RunOutput,
    ) -> bool {
        let ran = self.run(&trial.job, file);
        let is_right = match trial.kind {
            Kind::Page => is_page(&ran, check.err.bytes()),
            Kind::Reader => is_read(&ran, check),
            Kind::Check => ran.code == 1 || check.code == 0,
            Kind::States => has_states(&ran, check),
            Kind::List => true,
            Kind::JoinedListing => is_joined(ran.out.bytes(), listed.out.bytes()),
            Kind::Copy => self.is_copied(&ran, listed),
        };
        if matches!(trial.kind, Kind::List | Kind::JoinedListing) {
            *listed = ran;
        }
        is_right
    }

    /// The copy is sound and lists what `list` prints, and the statuses are the same. Without a copy
    /// both refuse the file alike.
    fn is_copied(self, copy: &RunOutput, list: &RunOutput) -> bool {
        let target = copy.target.bytes();
        if target.is_empty() {
            return list.is(1, b"", copy.err.bytes()) && copy.is(1, b"", list.err.bytes());
        }
        copy.code == list.code
            && copy.err.bytes().is_empty()
            && self.run(self.check, target).is(0, b"OK\n", b"")
            && self.run(self.list, target).is(0, list.out.bytes(), b"")
    }
}

/// The lines of a joined listing are those of what is recovered, but for the bucket of found pages.
fn is_joined(joined: &[u8], recovered: &[u8]) -> bool {
    let mut rest = recovered;
    for line in joined.split_inclusive(|byte| *byte == b'\n') {
        if line.starts_with(FOUND) {
            continue;
        }
        let Some(after) = rest.strip_prefix(line) else {
            return false;
        };
        rest = after;
    }
    rest.is_empty()
}

/// `states` prints a line. Only of a file without a valid meta it may print none, and says so.
fn has_states(ran: &RunOutput, check: &RunOutput) -> bool {
    if ran.code == 0 {
        return !ran.out.bytes().is_empty() && ran.err.bytes().is_empty();
    }
    ran.is(1, b"", b"error: no state found\n") && !check.err.bytes().is_empty()
}

/// `page` prints a page, or refuses it; if the file has this fault, it reports the same.
fn is_page(ran: &RunOutput, fault: &[u8]) -> bool {
    let (out, err) = (ran.out.bytes(), ran.err.bytes());
    if ran.code == 0 {
        return !out.is_empty() && err.is_empty();
    }
    let is_error = if fault.is_empty() {
        err.starts_with(b"error: page ")
    } else {
        err == fault
    };
    ran.is(1, b"", err) && is_error
}

/// The command reads a file that `check` accepts. Another one it refuses with the fault of `check`, or
/// with its first finding.
fn is_read(ran: &RunOutput, check: &RunOutput) -> bool {
    let (found, fault) = (check.out.bytes(), check.err.bytes());
    if check.is(0, b"OK\n", b"") {
        return ran.code == 0 && ran.err.bytes().is_empty();
    }
    let is_refused = if fault.is_empty() {
        ran.err.bytes().strip_prefix(b"error: file refused: ") == found_line(found)
    } else {
        ran.err.bytes() == fault
    };
    check.code == 1 && is_refused && ran.is(1, b"", ran.err.bytes())
}

/// The first line of findings, with its line feed.
fn found_line(text: &[u8]) -> Option<&[u8]> {
    if !text.starts_with(b"page") {
        return None;
    }
    text.get(..first_line(text).len().saturating_add(1))
}

/// The number of files that are compared: a file of four pages with each byte changed to each other
/// value in turn. It is also compared with its end cut off at each byte.
pub fn compared(input: Input<'_>, text: &mut Text) -> Result<(), Fault> {
    let Input { alloc, file, .. } = input;
    let trials = trials_of(alloc)?;
    let [check, list, others @ ..] = trials.as_slice() else {
        return Err(Fault::UNREAD);
    };
    let trials = Trials {
        alloc,
        check: &check.job,
        list: &list.job,
        others,
    };
    compare_each(trials, file, text)
}

fn compare_each(trials: Trials<'_>, file: &[u8], text: &mut Text) -> Result<(), Fault> {
    let mut other = file.to_vec(trials.alloc)?;
    let mut count = 0_u64;
    for at in 0..file.len() {
        let cut = file.get(..at).unwrap_or(b"");
        require(trials.agree(cut), "commands on a file that is cut off", at)?;
        require(
            trials.agree_on_changes(&mut other, at),
            "commands on a changed file",
            at,
        )?;
        count = count.saturating_add(u64::from(u8::MAX));
    }
    text.numbers(&[count]);
    Ok(())
}
