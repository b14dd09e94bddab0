//! Standard output, which notes when its reader has left.
ghost use Rattle.std.specs.Prelude.{◌≡◌, ◌||◌, false};
ghost use Rattle.std.specs.Io.KnownBytes.{Keeps, WriteAppends};
ghost use Rattle.std.specs.Io.{WritesAtMost};
ghost use Rattle.bolt_cli.specs.SystemFaults.{finds_no_reader, output_fault};

use crate::outside::OutputFault;
use std::io::{self, ErrorKind, Write};

/// A writer that notes when its reader has left.
#[derive(Drop)]
pub struct Printer<W: Write + Drop> {
    writer: W,
    reader_left: bool,
}

impl<W: Write + Drop> Printer<W> {
    /// A writer of which nobody has left yet.
    pub fn new(writer: W) -> Self
        ensures writer { result.writer ≡ writer }
        ensures reader { result.reader_left ≡ false }
    {
        Printer {
            writer,
            reader_left: false,
        }
    }

    /// Why a write failed: nobody reads any more, or the writer refused it.
    pub fn fault(&self) -> OutputFault
        ensures { result ≡ output_fault self.now.reader_left }
    {
        if self.reader_left {
            OutputFault::ReaderLeft
        } else {
            OutputFault::Failed
        }
    }
}

impl<W: Write + Drop> Write for Printer<W> {
    ghost contents = { λ p. W.contents p.writer };

    fn write(&mut self, bytes: &[u8]) -> io::Result<usize>
        ensures bound { WritesAtMost result bytes.now }
        ensures bytes { WriteAppends (W.contents self.old.writer) (W.contents self.new.writer)
            result bytes.now }
        ensures reader { self.new.reader_left ≡ (self.old.reader_left || finds_no_reader result) }
    {
        let written = self.writer.write(bytes);
        if let Err(error) = &written {
            if error.kind() == ErrorKind::BrokenPipe {
                self.reader_left = true;
            }
        }
        written
    }

    fn flush(&mut self) -> io::Result<()>
        ensures bytes { Keeps (W.contents self.old.writer) (W.contents self.new.writer) }
        ensures reader { self.new.reader_left ≡ self.old.reader_left }
    {
        self.writer.flush()
    }
}
