//! A command line over an outside in memory, whose deeds go wrong from each one on.
//! The cases say what it must do then, deed by deed.

use crate::fault::Fault;
use crate::log::{Kind, Log, Record};
use crate::memory::{Memory, Turn};
use crate::runs::{first_line, line_of};
use crate::words::{Input, Text};
use bolt_cli::run_program;
use std::alloc::Global;

/// The status and the deeds of a command line: a line for each deed from which on they go wrong, and
/// then one if none does. The first word says how: they fail, or they differ.
pub fn deeds_of(input: Input<'_>, text: &mut Text) -> Result<(), Fault> {
    let Input { alloc, file, words } = input;
    let [how, words @ ..] = words else {
        return Err(Fault::UNREAD);
    };
    let turn = match how.as_str() {
        "fail" => Turn::Bad,
        "differ" => Turn::Other,
        _ => return Err(Fault::UNREAD),
    };
    for before in 0..u32::MAX {
        let mut memory = Memory::new(alloc, file, before, turn);
        let code = run_program(&mut memory, alloc, line_of(alloc, words)?);
        put_deeds(code, memory.log(), text);
        if !memory.has_turned() {
            break;
        }
    }
    Ok(())
}

/// Adds the line of a run's status and its deeds: the status, a colon, and the words of each deed in
/// turn.
fn put_deeds(code: u8, log: &Log, text: &mut Text) {
    text.digits(u64::from(code));
    text.add(b":");
    for record in log.records.as_slice() {
        put_deed(record, text);
    }
    text.add(b"\n");
}

/// Adds a deed: its kind, a name and permission bits, and what was said or the number of other bytes.
fn put_deed(record: &Record, text: &mut Text) {
    text.word(word_of(record.kind).as_bytes());
    if !record.name.is_empty() {
        text.word(record.name.as_slice());
    }
    if record.permissions > 0 {
        text.made(format!(in text.alloc; " {:o}", record.permissions));
    }
    if record.kind == Kind::Said {
        text.word(first_line(record.bytes.as_slice()));
    } else if !record.bytes.is_empty() {
        text.numbers(&[record.bytes.len() as u64]);
    }
}

/// What a deed of this kind is called in test cases.
fn word_of(kind: Kind) -> &'static str {
    match kind {
        Kind::Read => "read",
        Kind::ReadChanged => "read-changed",
        Kind::ReadFirst => "read-first",
        Kind::ReadOn => "read-on",
        Kind::Unread => "not-read",
        Kind::NotReadOn => "not-read-on",
        Kind::Made => "made",
        Kind::Unmade => "not-made",
        Kind::Ended => "ended",
        Kind::Unended => "not-ended",
        Kind::Opened => "opened",
        Kind::Unopened => "not-opened",
        Kind::Printed => "printed",
        Kind::Left => "left",
        Kind::Unprinted => "not-printed",
        Kind::Said => "said",
    }
}
