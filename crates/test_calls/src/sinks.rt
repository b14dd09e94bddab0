//! Sinks, to which pieces are written, and a writer that fails.

use crate::fault::Fault;
use crate::full_sink::FullSink;
use crate::words::{Input, Text, bytes_of, number};
use bolt_format::{MemSink, Sink, WriteSink};
use std::alloc::Global;
use std::io::{self, Cursor, ErrorKind, Write};

/// How a writer refuses a call.
#[derive(Clone, Copy)]
pub enum Refusal {
    /// The sink returns an error of a kind.
    Error(ErrorKind),
    /// The sink accepts no byte.
    Nothing,
}

/// Accepts at most 7 bytes a call and refuses one call. It would accept those after that again.
#[derive(Drop)]
pub struct Halting {
    /// The bytes that it has accepted.
    pub taken: Vec<u8>,
    /// The number of its calls.
    pub calls: usize,
    /// The number of the refused call; the first is 1.
    pub refused: usize,
    refusal: Refusal,
}

impl Halting {
    /// A writer that refuses this call; the first is 1, and 0 refuses none.
    pub fn new(alloc: Global, refused: usize, refusal: Refusal) -> Self {
        Halting {
            taken: Vec::new(alloc),
            calls: 0,
            refused,
            refusal,
        }
    }
}

impl Write for Halting {
    fn write(&mut self, buf: &[u8]) -> io::Result<usize> {
        self.calls = self.calls.saturating_add(1);
        if self.calls == self.refused {
            return match self.refusal {
                Refusal::Error(kind) => Err(io::Error::from(kind)),
                Refusal::Nothing => Ok(0),
            };
        }
        let count = buf.len().min(7);
        self.taken.extend_from_slice(&buf[..count])?;
        Ok(count)
    }

    fn flush(&mut self) -> io::Result<()> {
        Ok(())
    }
}

/// Pieces that are written to a sink.
#[derive(Clone, Copy)]
struct Pieces<'a> {
    alloc: Global,
    /// The piece that the word `.` is.
    file: &'a [u8],
    words: &'a [String],
}

impl Pieces<'_> {
    /// Writes the pieces. Adds which of them the sink accepted.
    fn put<S: Sink>(self, sink: &mut S, text: &mut Text) -> Result<(), Fault> {
        for word in self.words {
            let before = sink.failures();
            let is_taken = if word.as_str() == "." {
                sink.put(self.file).is_ok()
            } else {
                let piece = bytes_of(self.alloc, word.as_str())?;
                sink.put(piece.as_slice()).is_ok()
            };
            text.word(outcome(is_taken, before, sink.failures()));
        }
        Ok(())
    }

    /// Writes the pieces to memory.
    fn put_in_memory(self, mut sink: MemSink, text: &mut Text) -> Result<(), Fault> {
        self.put(&mut sink, text)?;
        self.add(sink.bytes(), text);
        Ok(())
    }

    /// Writes the pieces to a writer, and returns it.
    fn put_in<W: Write + Drop>(self, writer: W, text: &mut Text) -> Result<W, Fault> {
        let mut sink = WriteSink::new(writer);
        self.put(&mut sink, text)?;
        Ok(sink.into_inner())
    }

    /// Adds the bytes that a sink accepted; those of the file are `.`.
    fn add(self, bytes: &[u8], text: &mut Text) {
        let is_file = !self.file.is_empty() && bytes == self.file;
        text.word(if is_file { b"." } else { bytes });
    }
}

/// Whether a piece was accepted. A sink that accepts pieces has no failure. One that doesn't has at least
/// one, and no fewer than before.
fn outcome(is_taken: bool, before: u64, failures: u64) -> &'static [u8] {
    match is_taken {
        true if failures == 0 => b"ok",
        false if failures >= before.max(1) => b"failed",
        _ => b"a wrong number of failures",
    }
}

/// The sink that a word names, with a number: over a `Vec` or a cursor of one; in memory; `full` after
/// this many bytes; or over a writer that refuses the call of this number in some way. Of which
/// pieces it accepts, how many calls the writer had, and all bytes.
pub fn puts(input: Input<'_>, text: &mut Text) -> Result<(), Fault> {
    let Input { alloc, file, words } = input;
    let [kind, count, words @ ..] = words else {
        return Err(Fault::UNREAD);
    };
    let count = number(count.as_str())? as usize;
    let pieces = Pieces { alloc, file, words };
    match kind.as_str() {
        "vec" => {
            let taken = pieces.put_in(Vec::new(alloc), text)?;
            pieces.add(taken.as_slice(), text);
            Ok(())
        }
        "cursor" => {
            let cursor = pieces.put_in(Cursor::new(Vec::new(alloc)), text)?;
            pieces.add(cursor.into_inner().as_slice(), text);
            Ok(())
        }
        "memory" => pieces.put_in_memory(MemSink::new(alloc), text),
        "full" => {
            let mut sink = FullSink::new(alloc, count);
            pieces.put(&mut sink, text)?;
            pieces.add(sink.bytes(), text);
            Ok(())
        }
        way => put_refused(pieces, Halting::new(alloc, count, refusal_of(way)?), text),
    }
}

/// The way that a word names.
fn refusal_of(way: &str) -> Result<Refusal, Fault> {
    match way {
        "other" => Ok(Refusal::Error(ErrorKind::Other)),
        "interrupted" => Ok(Refusal::Error(ErrorKind::Interrupted)),
        "block" => Ok(Refusal::Error(ErrorKind::WouldBlock)),
        "nothing" => Ok(Refusal::Nothing),
        _ => Err(Fault::UNREAD),
    }
}

fn put_refused(pieces: Pieces<'_>, writer: Halting, text: &mut Text) -> Result<(), Fault> {
    let writer = pieces.put_in(writer, text)?;
    text.numbers(&[writer.calls as u64]);
    pieces.add(writer.taken.as_slice(), text);
    Ok(())
}
