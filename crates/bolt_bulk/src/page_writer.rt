//! The writer of a copy's pages: it writes each page with the next number.
ghost use Rattle.std.specs.Prelude.{◌≡◌, ◌+◌, ◌-◌, ◌*◌, ◌<◌, ◌≤◌, IfErr, IfOk};
ghost use Rattle.bolt_format.specs.{Encoded.header_bytes};
ghost use Rattle.bolt_layout.specs.Levels.{overflow_of};
ghost use Rattle.bolt_bulk.specs.declared.bulk_fault.BulkFault.TheVariants as fault;

use crate::bulk_fault::BulkFault;
use crate::page_pieces::put_unless_empty;
use crate::page_setup::{PageSetup, overflow};
use bolt_format::{Kind, Sink, SinkFault, page_header};

/// Writes the pages of a copy to its sink, one after another.
#[derive(Drop)]
pub(crate) struct PageWriter<'w, S> {
    pub setup: PageSetup,
    /// The number of the next page.
    pub next: u64,
    pub sink: &'w mut S,
    ghost within: { next ≤ setup.greatest_high_water },
}

impl<S: Sink> PageWriter<'_, S> {
    ghost use Rattle.bolt_bulk.specs.Private.{IsSameWriter, length_end, next_after, WritesText};

    /// The number after the next page, if that has this size. `TooLarge` if it would be above the
    /// highest mark allowed.
    pub(crate) fn number_after(&self, size: usize) -> Result<u64, BulkFault>
        requires { 0 < size }
        ensures number { IfOk result (λ n. n ≡ next_after self.now size) }
        ensures within { IfOk result (λ n. n ≤ self.now.setup.greatest_high_water) }
        ensures large { IfErr result (λ _. self.now.setup.greatest_high_water < next_after self.now size) }
        ensures fault { IfErr result (λ e. e ≡ fault.TooLarge) }
    {
        let further = overflow(self.setup.page_size, size) as u64;
        if further >= self.setup.greatest_high_water - self.next {
            return Err(BulkFault::TooLarge);
        }
        Ok(self.next + (1 + further))
    }

    /// Writes the header of the next page, which has `count` elements. They take `size` bytes with
    /// the header. Returns how many zeros fill the page after them.
    pub(crate) fn put_header(
        &mut self,
        kind: Kind,
        count: usize,
        size: usize,
    ) -> Result<usize, SinkFault>
        requires some { 0 < size }
        requires small { size < length_end }
        requires few { count < 65536 }
        ensures same { IsSameWriter self.old self.new }
        ensures next { self.new.next ≡ self.old.next }
        ensures header { WritesText S.Sink self.old.sink.now self.new.sink.now
            (header_bytes self.old.next kind count (overflow_of self.old.setup.page_size size))
            result }
        ensures zeros { IfOk result (λ zeros. zeros
            ≡ (1 + overflow_of self.old.setup.page_size size) * self.old.setup.page_size - size) }
    {
        let further = overflow(self.setup.page_size, size);
        let header = page_header(self.next, kind, count as u16, further as u32);
        put_unless_empty(&header, self.sink)?;
        Ok((1 + further) * self.setup.page_size - size)
    }
}
