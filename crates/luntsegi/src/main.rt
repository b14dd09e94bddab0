//! `luntsegi` inspects, checks and copies bbolt database files. `bolt_cli` has the program. Here are the
//! words, the files and the streams of the process.
#![tactic(auto)]

mod process;

use bolt_cli::{Refusal, refuse, run_program};
use process::Process;
use std::process::ExitCode;
use std::{env, io};

fn main(rt: HostRuntime) -> ExitCode {
    let mut process = Process { rt: &rt };
    let code = match read_args(&rt) {
        Ok(words) => run_program(&mut process, rt.alloc(), words),
        Err(refusal) => refuse(&mut process, rt.alloc(), &refusal),
    };
    ExitCode::from(code)
}

/// The words of the command line.
fn read_args(rt: &HostRuntime) -> Result<Vec<String>, Refusal> {
    let mut words = Vec::new(rt.alloc());
    let args = match env::args(rt) {
        Ok(args) => args,
        Err(error) if error.kind() == io::ErrorKind::OutOfMemory => return Err(Refusal::Memory),
        Err(_) => return Err(Refusal::Word("arguments are not text")),
    };
    for arg in args {
        words.push(arg)?;
    }
    Ok(words)
}
