//! Sinks: what output is written to. One is in memory, and one is over a writer.
ghost use Rattle.std.specs.Prelude.{◌≡◌, ◌≢◌, ◌<◌, ℕ, List, [], None, Option, OnErr, OnOk, IsErr, Some, true};
ghost use Rattle.std.specs.Io.KnownBytes.{Appends, Keeps};
ghost use Rattle.bolt_format.specs.Sinks.{AppendsPrefix, AppendsProperPrefix};

use std::alloc::Global;
use std::io::Write;

/// A sink has failed. It has accepted a prefix of the bytes at most, and accepts no more from now
/// on.
#[derive(Clone, Copy, Debug, PartialEq, Eq)]
pub struct SinkFault;

/// Accepts bytes in order, until it fails. It keeps what it has accepted.
pub trait Sink {
    /// The bytes accepted so far, if the sink shows them.
    ghost taken: { Self → Option (List ℕ) };

    /// The number of failures so far.
    ghost failed: { Self → ℕ };

    /// Appends the bytes.
    ///
    /// # Errors
    ///
    /// The sink failed, in this call or in an earlier one. It has accepted a prefix of `bytes`;
    /// every later `put` returns `Err` and appends nothing.
    fn put(&mut self, bytes: &[u8]) -> Result<(), SinkFault>
        ensures all { OnOk result (Appends (taken self.old) (taken self.new) bytes.now) }
        ensures sound { OnOk result (failed self.new ≡ failed self.old) }

        // Whatever the result is.
        ensures prefix { AppendsPrefix (taken self.old) (taken self.new) bytes.now }
        ensures short { OnErr result (bytes.now ≢ []
            → AppendsProperPrefix (taken self.old) (taken self.new) bytes.now) }
        ensures failure { OnErr result (0 < failed self.new) }

        // After a failure.
        ensures refuses { 0 < failed self.old → IsErr result }
        ensures keeps { 0 < failed self.old → Keeps (taken self.old) (taken self.new) };

    /// The number of failures so far.
    fn failures(&self) -> u64
        ensures { result ≡ failed self.now };

    /// Whether nothing is kept of what is put, so that a caller need not make the bytes.
    fn keeps_nothing(&self) -> bool
        ensures { result ≡ true → taken self.now ≡ None }
    {
        false
    }
}

/// A sink that keeps its bytes in memory. It fails if memory can't grow. There is no other bound that it
/// could fail at.
#[derive(Drop)]
pub struct MemSink {
    items: Vec<u8>,
    failures: u64,
}

impl MemSink {
    /// An empty sink that accepts bytes as long as memory can grow.
    pub fn new(alloc: Global) -> Self
        ensures taken { ⟦<MemSink as Sink>⟧.taken result ≡ Some [] }
        ensures sound { ⟦<MemSink as Sink>⟧.failed result ≡ 0 }
    {
        MemSink {
            items: Vec::new(alloc),
            failures: 0,
        }
    }

    /// All bytes that it has accepted, in order.
    pub fn bytes(&self) -> &[u8]
        ensures { ⟦<MemSink as Sink>⟧.taken self.now ≡ Some result.now }
    {
        self.items.as_slice()
    }
}

impl Sink for MemSink {
    ghost taken = { λ s. Some s.items.items };

    ghost failed = { λ s. s.failures };

    fn put(&mut self, bytes: &[u8]) -> Result<(), SinkFault> {
        if self.failures > 0 {
            return Err(SinkFault);
        }
        if self.items.extend_from_slice(bytes).is_err() {
            self.failures = 1;
            return Err(SinkFault);
        }
        Ok(())
    }

    fn failures(&self) -> u64 {
        self.failures
    }
}

/// A sink over a writer. It has failed if a write returns an error of any kind, or 0 bytes for a
/// piece that isn't empty. It shows its bytes if the writer does.
#[derive(Drop)]
pub struct WriteSink<W: Write> {
    writer: W,
    failures: u64,
}

impl<W: Write> WriteSink<W> {
    /// A sink over a writer that has accepted nothing yet.
    pub fn new(writer: W) -> Self
        ensures taken { ⟦<WriteSink<W> as Sink>⟧.taken result ≡ W.contents writer }
        ensures sound { ⟦<WriteSink<W> as Sink>⟧.failed result ≡ 0 }
    {
        WriteSink {
            writer,
            failures: 0,
        }
    }

    /// The writer, after everything that the sink has accepted.
    pub fn into_inner(self) -> W
        ensures { W.contents result ≡ ⟦<WriteSink<W> as Sink>⟧.taken self }
    {
        let WriteSink {
            writer,
            failures: _,
        } = self;
        writer
    }
}

impl<W: Write> Sink for WriteSink<W> {
    ghost taken = { λ s. W.contents s.writer };

    ghost failed = { λ s. s.failures };

    fn put(&mut self, bytes: &[u8]) -> Result<(), SinkFault> {
        if self.failures > 0 {
            return Err(SinkFault);
        }
        let mut rest = bytes;
        while !rest.is_empty() {
            match self.writer.write(rest) {
                Ok(n) if n > 0 => rest = &rest[n..],
                _ => {
                    self.failures = 1;
                    return Err(SinkFault);
                }
            }
        }
        Ok(())
    }

    fn failures(&self) -> u64 {
        self.failures
    }
}
