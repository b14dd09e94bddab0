//! A sink that is full after a number of bytes, to see what a failure leaves behind.
ghost use Rattle.std.specs.Prelude.{◌≡◌, Some, []};

use bolt_format::{Sink, SinkFault};
use std::alloc::Global;

/// A sink in memory that accepts `room` bytes in all and fails at the next one, after it has accepted
/// what still fits.
#[derive(Drop)]
pub struct FullSink {
    items: Vec<u8>,
    room: usize,
    failures: u64,
}

impl FullSink {
    pub fn new(alloc: Global, room: usize) -> Self {
        FullSink {
            items: Vec::new(alloc),
            room,
            failures: 0,
        }
    }

    /// All bytes that it has accepted, in order.
    pub fn bytes(&self) -> &[u8]
        ensures { ⟦<FullSink as Sink>⟧.taken self.now ≡ Some result.now }
    {
        self.items.as_slice()
    }
}

impl Sink for FullSink {
    ghost taken = { λ s. Some s.items.items };

    ghost failed = { λ s. s.failures };

    fn put(&mut self, bytes: &[u8]) -> Result<(), SinkFault> {
        if self.failures > 0 {
            return Err(SinkFault);
        }
        let room = self.room.saturating_sub(self.items.len());
        let (front, rest) = bytes.split_at(room.min(bytes.len()));
        if self.items.extend_from_slice(front).is_err() || !rest.is_empty() {
            self.failures = 1;
            return Err(SinkFault);
        }
        Ok(())
    }

    fn failures(&self) -> u64 {
        self.failures
    }
}
