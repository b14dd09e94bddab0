//! An outside in memory.
ghost use Rattle.std.specs.Prelude.{◌≡◌, IfOk, flat_map};
ghost use Rattle.bolt_cli.specs.Sources.{is_changed};
ghost use Rattle.test_calls.specs.Logs.{read_kind};

use crate::log::{Kind, Log};
use bolt_cli::{CreateFault, EndFault, OpenFault, OutputFault, Outside, ReadFault, Source, Stamp};
use bolt_format::{MemSink, Sink};
use std::alloc::{AllocError, Global};

/// How an answer goes.
#[derive(Clone, Copy, PartialEq, Eq)]
pub enum Turn {
    Good,
    /// The call fails.
    Bad,
    /// The call goes wrong in another way: FILE is changed while it is read, OUT exists, or the reader of
    /// standard output has left.
    Other,
}

/// An outside in memory, in which answers go wrong from one on.
#[derive(Drop)]
pub struct Memory<'a> {
    alloc: Global,
    file: &'a [u8],
    /// The number of answers that go well.
    before: u32,
    turn: Turn,
    has_turned: bool,
    log: Log,
}

impl<'a> Memory<'a> {
    pub fn new(alloc: Global, file: &'a [u8], before: u32, turn: Turn) -> Self {
        Memory {
            alloc,
            file,
            before,
            turn,
            has_turned: false,
            log: Log::new(alloc),
        }
    }

    /// The deeds so far.
    pub fn log(&self) -> &Log {
        &self.log
    }

    /// Whether answers have gone wrong.
    pub fn has_turned(&self) -> bool {
        self.has_turned
    }

    fn next_turn(&mut self) -> Turn
        ensures { self.new.log ≡ self.old.log }
    {
        if self.before > 0 {
            self.before -= 1;
            return Turn::Good;
        }
        self.has_turned = true;
        self.turn
    }
}

const PERMISSIONS: u32 = 0o640;

impl<'a> Outside for Memory<'a> {
    ghost use Rattle.test_calls.specs.Logs.{Holds};

    /// The bytes that weren't read yet.
    type File = &'a [u8];

    type Target = MemSink;

    type Output = MemSink;

    ghost done = { λ s. Holds ⟦<MemSink as Sink>⟧.taken s.log };

    fn read(&mut self, name: &str) -> Result<Source, ReadFault> {
        let turn = self.next_turn();
        let text = name.as_bytes();
        match self.file.to_vec(self.alloc) {
            Ok(bytes) if turn != Turn::Bad => {
                let changes = turn == Turn::Other;
                self.log
                    .note(read_kind(changes), text, bytes.as_slice(), PERMISSIONS);
                Ok(source_of(bytes, changes))
            }
            _ => {
                self.log.note(Kind::Unread, text, &[], 0);
                Err(ReadFault::Refused)
            }
        }
    }

    fn read_first(&mut self, name: &str, count: u64) -> Result<(Vec<u8>, &'a [u8]), ReadFault> {
        let turn = self.next_turn();
        let text = name.as_bytes();
        let (first, rest) = split_at_most(self.file, count);
        match first.to_vec(self.alloc) {
            Ok(bytes) if turn == Turn::Good => {
                self.log.note(Kind::ReadFirst, text, first, 0);
                Ok((bytes, rest))
            }
            _ => {
                self.log.note(Kind::Unread, text, &[], 0);
                Err(ReadFault::Refused)
            }
        }
    }

    fn read_on(
        &mut self,
        file: &'a [u8],
        first: Vec<u8>,
        count: u64,
    ) -> Result<Vec<u8>, ReadFault> {
        let mut bytes = first;
        let (next, _) = split_at_most(file, count);
        if self.next_turn() == Turn::Good && bytes.extend_from_slice(next).is_ok() {
            self.log.note(Kind::ReadOn, &[], bytes.as_slice(), 0);
            return Ok(bytes);
        }
        self.log.note(Kind::NotReadOn, &[], &[], 0);
        Err(ReadFault::Refused)
    }

    fn create(&mut self, name: &str, permissions: u32) -> Result<MemSink, CreateFault> {
        let turn = self.next_turn();
        if turn == Turn::Good {
            self.log.note(Kind::Made, name.as_bytes(), &[], permissions);
            return Ok(MemSink::new(self.alloc));
        }
        self.log
            .note(Kind::Unmade, name.as_bytes(), &[], permissions);
        match turn {
            Turn::Other => Err(CreateFault::Exists),
            _ => Err(CreateFault::Refused),
        }
    }

    fn end(&mut self, target: MemSink) -> Result<(), EndFault> {
        if self.next_turn() == Turn::Good {
            self.log.note(Kind::Ended, &[], target.bytes(), 0);
            return Ok(());
        }
        self.log.note(Kind::Unended, &[], target.bytes(), 0);
        Err(EndFault)
    }

    fn open(&mut self) -> Result<MemSink, OpenFault> {
        if self.next_turn() == Turn::Good {
            self.log.note(Kind::Opened, &[], &[], 0);
            return Ok(MemSink::new(self.alloc));
        }
        self.log.note(Kind::Unopened, &[], &[], 0);
        Err(OpenFault)
    }

    fn close(&mut self, output: MemSink) -> Result<(), OutputFault> {
        match self.next_turn() {
            Turn::Good => {
                self.log.note(Kind::Printed, &[], output.bytes(), 0);
                Ok(())
            }
            Turn::Other => {
                self.log.note(Kind::Left, &[], output.bytes(), 0);
                Err(OutputFault::ReaderLeft)
            }
            _ => {
                self.log.note(Kind::Unprinted, &[], output.bytes(), 0);
                Err(OutputFault::Failed)
            }
        }
    }

    fn drop_output(&mut self, output: MemSink) -> OutputFault {
        match self.next_turn() {
            Turn::Other => {
                self.log.note(Kind::Left, &[], output.bytes(), 0);
                OutputFault::ReaderLeft
            }
            _ => {
                self.log.note(Kind::Unprinted, &[], output.bytes(), 0);
                OutputFault::Failed
            }
        }
    }

    fn say(&mut self, pieces: &[&[u8]]) {
        match gather(self.alloc, pieces) {
            Ok(text) => self.log.note(Kind::Said, &[], text.as_slice(), 0),
            Err(_) => self.log.has_lost = true,
        }
    }

    fn say_instead(&mut self, _text: &MemSink, line: &[u8]) {
        self.log.note(Kind::Said, &[], line, 0);
    }
}

fn gather(alloc: Global, pieces: &[&[u8]]) -> Result<Vec<u8>, AllocError>
    ensures { IfOk result (λ text. text.items ≡ flat_map (λ piece. piece.now) pieces.now) }
{
    let mut text = Vec::new(alloc);
    for piece in pieces {
        text.extend_from_slice(piece)?;
    }
    Ok(text)
}

fn read_kind(changes: bool) -> Kind
    ensures { result ≡ read_kind changes }
{
    if changes {
        Kind::ReadChanged
    } else {
        Kind::Read
    }
}

/// The first bytes, at most `count`, and the others.
fn split_at_most(bytes: &[u8], count: u64) -> (&[u8], &[u8]) {
    let count = usize::try_from(count).unwrap_or(usize::MAX);
    bytes.split_at(count.min(bytes.len()))
}

/// A regular file with these bytes, which may change while it is read.
fn source_of(bytes: Vec<u8>, changes: bool) -> Source
    ensures bytes { result.bytes ≡ bytes }
    ensures permissions { result.permissions ≡ 416 }
    ensures changes { is_changed result ≡ changes }
{
    let before = Stamp {
        length: 0,
        seconds: 0,
        nanoseconds: 0,
    };
    let after = Stamp {
        nanoseconds: i64::from(changes),
        ..before
    };
    Source {
        bytes,
        permissions: PERMISSIONS,
        is_regular: true,
        before,
        after,
    }
}
