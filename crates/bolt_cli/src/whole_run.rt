//! A whole run of the program: from its words to its status.
ghost use Rattle.std.specs.Prelude.{◌≡◌, ℕ, List, None, Some, map, string_bytes};
ghost use Rattle.bolt_commands.specs.Answers.{JobEnding};
ghost use Rattle.bolt_cli.specs.{Deeds.Does};
ghost use Rattle.bolt_job.specs.Jobs.{target_name};
ghost use Rattle.bolt_cli.specs.Runs.{Closes, DoesAsked, DoesBuffered, FailsGathered, FailsUnended, Goes, IsBufferedLine, IsRun, IsUnprinted, Makes};
ghost use Rattle.bolt_cli.specs.Runs.{PrintsBuffered, PrintsText, Reads, ReadsMetas, ReadsRest, Refuses, Shows, WritesOut};
ghost use Rattle.bolt_cli.specs.Runs.{unmade_line, unread_file_line};

use crate::faults::{
    FAILED, NO_MEMORY, UNWRITTEN, end_with, fail, fail_lacking, fail_naming, refuse_usage,
    refuse_word,
};
use crate::outside::{CreateFault, OutputFault, Outside, ReadFault, Source};
use bolt_commands::run;
use bolt_format::{META_LEN, MemSink, Sink, metas_end};
use bolt_job::{Job, Refusal, read_words};
use std::alloc::Global;

/// How often FILE is read if it is changed each time.
const READINGS: u32 = 3;

/// Reads the words, of which the first is the program's name, does what they ask for, and returns the
/// status (docs/COMMANDS.md).
pub fn run_program<O: Outside>(outside: &mut O, alloc: Global, words: Vec<String>) -> u8
    ensures { Does O.done outside.old outside.new result
        (IsRun O.Target.Sink O.Output.Sink
        (map string_bytes words.items)) }
{
    match read_words(alloc, words) {
        Ok(job) => do_asked(outside, alloc, &job),
        Err(refusal) => refuse(outside, alloc, &refusal),
    }
}

/// Prints why the words are no job, and returns the status.
pub fn refuse<O: Outside>(outside: &mut O, alloc: Global, refusal: &Refusal) -> u8
    ensures { Does O.done outside.old outside.new result
        (Refuses O.Target.Sink O.Output.Sink refusal.now) }
{
    match refusal {
        Refusal::Memory => fail(outside, &[NO_MEMORY]),
        Refusal::Help(text) | Refusal::Version(text) => {
            print(outside, text.as_bytes(), &MemSink::new(alloc), 0)
        }
        Refusal::Usage(text) => refuse_usage(outside, alloc, text.as_str()),
        Refusal::Word(text) => refuse_word(outside, text),
    }
}

/// Reads as much of FILE as the job needs, and does it.
fn do_asked<O: Outside>(outside: &mut O, alloc: Global, job: &Job) -> u8
    ensures { Does O.done outside.old outside.new result
        (DoesAsked O.Target.Sink O.Output.Sink job.now) }
{
    if job.needs_metas_alone() {
        read_metas(outside, alloc, job)
    } else {
        read_file(outside, alloc, job, READINGS)
    }
}

/// Reads the bytes of FILE that its metas need, and does the job on them. Metas have checksums, so
/// they are taken as they are, also if FILE is changed meanwhile.
fn read_metas<O: Outside>(outside: &mut O, alloc: Global, job: &Job) -> u8
    requires { target_name job.now ≡ None }
    ensures { Does O.done outside.old outside.new result
        (ReadsMetas O.Output.Sink job.now) }
{
    match outside.read_first(job.file(), META_LEN as u64) {
        Ok((first, file)) => read_rest(outside, alloc, job, file, first),
        Err(fault) => report_unread(outside, alloc, fault, job.file()),
    }
}

/// Reads on to the end of the metas, which the first bytes tell.
fn read_rest<O: Outside>(
    outside: &mut O,
    alloc: Global,
    job: &Job,
    file: O::File,
    first: Vec<u8>,
) -> u8
    requires { target_name job.now ≡ None }
    ensures { Does O.done outside.old outside.new result
        (ReadsRest O.Output.Sink job.now first.items) }
{
    let count = metas_end(first.as_slice()) - META_LEN as u64;
    match outside.read_on(file, first, count) {
        Ok(bytes) => show(outside, alloc, job, bytes.as_slice()),
        Err(fault) => report_unread(outside, alloc, fault, job.file()),
    }
}

/// Reads FILE, at most so many times: again if it was changed meanwhile, so that what is judged is one
/// state of it. Then does the job.
fn read_file<O: Outside>(outside: &mut O, alloc: Global, job: &Job, left: u32) -> u8
    ensures { Does O.done outside.old outside.new result
        (Reads O.Target.Sink O.Output.Sink left job.now) }
{
    if left == 0 {
        return fail(outside, &[b"error: file changed while it was read\n"]);
    }
    match outside.read(job.file()) {
        Ok(source) => {
            if source.is_changed() {
                // So that there are never two readings in memory.
                drop(source);
                return read_file(outside, alloc, job, left - 1);
            }
            do_with_source(outside, alloc, job, &source)
        }
        Err(fault) => report_unread(outside, alloc, fault, job.file()),
    }
}

fn report_unread<O: Outside>(outside: &mut O, alloc: Global, fault: ReadFault, name: &str) -> u8
    ensures { Does O.done outside.old outside.new result
        (FailsGathered (unread_file_line name.now fault)) }
{
    match fault {
        ReadFault::Refused => fail_naming(outside, alloc, b"error: cannot read ", name),
        ReadFault::Memory => fail(outside, &[NO_MEMORY]),
    }
}

/// Does a job on what was read.
fn do_with_source<O: Outside>(outside: &mut O, alloc: Global, job: &Job, source: &Source) -> u8
    ensures { Does O.done outside.old outside.new result
        (Goes O.Target.Sink O.Output.Sink
        (target_name job.now) source.now job.now) }
{
    match job.target() {
        Some(name) => make(outside, alloc, job, source, name),
        None => show(outside, alloc, job, source.bytes.as_slice()),
    }
}

/// Makes OUT with the permission bits of FILE, and does the job on it. The bits are set as it is made,
/// so at no time has OUT a bit that FILE hasn't.
fn make<O: Outside>(outside: &mut O, alloc: Global, job: &Job, source: &Source, name: &str) -> u8
    ensures { Does O.done outside.old outside.new result
        (Makes O.Target.Sink O.Output.Sink
        name.now source.now job.now) }
{
    match outside.create(name, source.permissions) {
        Ok(target) => copy(outside, alloc, job, source.bytes.as_slice(), target),
        Err(fault) => report_unmade(outside, alloc, fault, name),
    }
}

fn report_unmade<O: Outside>(outside: &mut O, alloc: Global, fault: CreateFault, name: &str) -> u8
    ensures { Does O.done outside.old outside.new result
        (FailsGathered (unmade_line name.now fault)) }
{
    match fault {
        CreateFault::Exists => fail(outside, &[b"error: output exists\n"]),
        CreateFault::Refused => fail_naming(outside, alloc, b"error: cannot make ", name),
        CreateFault::Memory => fail(outside, &[NO_MEMORY]),
    }
}

/// Does a job on OUT. What it prints is buffered in memory, however long it is, until OUT is on the disk.
fn copy<O: Outside>(
    outside: &mut O,
    alloc: Global,
    job: &Job,
    file: &[u8],
    mut target: O::Target,
) -> u8
    ensures { Does O.done outside.old outside.new result
        (WritesOut O.Target.Sink O.Output.Sink
        target file.now job.now) }
{
    let mut out = MemSink::new(alloc);
    let mut err = MemSink::new(alloc);
    let status = run(alloc, job, file, &mut out, &mut err, &mut target);
    match outside.end(target) {
        Ok(()) => print_buffered(outside, &out, &err, status.code),
        Err(_) => report_unended(outside, &err),
    }
}

/// Prints what was buffered, if there was memory for it.
fn print_buffered<O: Outside>(outside: &mut O, out: &MemSink, err: &MemSink, code: u8) -> u8
    ensures { (text : List ℕ) → ⟦<MemSink as Sink>⟧.taken out.now ≡ Some text
        → DoesBuffered O.done outside.old outside.new result
        (⟦<MemSink as Sink>⟧.taken err.now) (⟦<MemSink as Sink>⟧.failed err.now) code
        (PrintsBuffered O.Output.Sink (⟦<MemSink as Sink>⟧.failed out.now) text) }
{
    if out.failures() > 0 {
        fail_lacking(outside, out)
    } else {
        print(outside, out.bytes(), err, code)
    }
}

/// Reports that OUT isn't on the disk, unless there is a line of a failure before that.
fn report_unended<O: Outside>(outside: &mut O, err: &MemSink) -> u8
    ensures { (ending : JobEnding) → IsBufferedLine ending (⟦<MemSink as Sink>⟧.taken err.now)
        (⟦<MemSink as Sink>⟧.failed err.now)
        → Does O.done outside.old outside.new result (FailsUnended ending) }
{
    if err.failures() > 0 {
        return fail_lacking(outside, err);
    }
    let line = err.bytes();
    if line.is_empty() {
        fail(outside, &[UNWRITTEN])
    } else {
        fail(outside, &[line])
    }
}

/// Opens standard output, and does a job without an OUT, which is printed as it comes.
fn show<O: Outside>(outside: &mut O, alloc: Global, job: &Job, file: &[u8]) -> u8
    requires { target_name job.now ≡ None }
    ensures { Does O.done outside.old outside.new result
        (Shows O.Output.Sink file.now job.now) }
{
    match outside.open() {
        Ok(mut output) => {
            let mut err = MemSink::new(alloc);
            let mut target = MemSink::new(alloc);
            let status = run(alloc, job, file, &mut output, &mut err, &mut target);
            close(outside, output, &err, status.code)
        }
        Err(_) => fail(outside, &[NO_MEMORY]),
    }
}

/// Prints a text, and then what is buffered for standard error.
fn print<O: Outside>(outside: &mut O, text: &[u8], err: &MemSink, code: u8) -> u8
    ensures { DoesBuffered O.done outside.old outside.new result
        (⟦<MemSink as Sink>⟧.taken err.now) (⟦<MemSink as Sink>⟧.failed err.now) code
        (PrintsText O.Output.Sink text.now) }
{
    match outside.open() {
        Ok(mut output) => {
            let _ = output.put(text);
            close(outside, output, err, code)
        }
        Err(_) => fail(outside, &[NO_MEMORY]),
    }
}

/// Closes standard output, or drops it if it has failed. Then prints what is buffered for standard error.
fn close<O: Outside>(outside: &mut O, output: O::Output, err: &MemSink, code: u8) -> u8
    ensures { DoesBuffered O.done outside.old outside.new result
        (⟦<MemSink as Sink>⟧.taken err.now) (⟦<MemSink as Sink>⟧.failed err.now) code
        (Closes O.Output.Sink output) }
{
    if output.failures() > 0 {
        let fault = outside.drop_output(output);
        return report_unprinted(outside, fault);
    }
    match outside.close(output) {
        Ok(()) => end_with(outside, err, code),
        Err(fault) => report_unprinted(outside, fault),
    }
}

/// Reports that not everything was printed, unless the reader of standard output has left: it wanted no
/// more.
fn report_unprinted<O: Outside>(outside: &mut O, fault: OutputFault) -> u8
    ensures { Does O.done outside.old outside.new result (IsUnprinted fault) }
{
    match fault {
        OutputFault::ReaderLeft => FAILED,
        OutputFault::Failed => fail(outside, &[UNWRITTEN]),
    }
}
