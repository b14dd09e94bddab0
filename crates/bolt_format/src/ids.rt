//! The ids of a freelist page that passed its tests.
ghost use Rattle.std.specs.Prelude.{◌≡◌, ◌+◌, ◌*◌, ◌<◌, ◌≤◌, ◌↔◌, Some, IsTrue, length, slice_get};

use crate::bytes::u64_at;

/// The ids of a freelist page: the numbers of free pages. They are read in place, each in constant
/// time.
#[derive(Clone, Copy)]
pub struct FreeIds<'a> {
    pub(crate) bytes: &'a [u8],
    pub(crate) start: usize,
    pub(crate) len: usize,
    ghost within: { start + 8 * len ≤ length bytes.now },
}

impl<'a> FreeIds<'a> {
    ghost use Rattle.bolt_format.specs.ShownIds.{shown_ids};

    /// The number of ids.
    pub fn len(&self) -> usize
        ensures { result ≡ length (shown_ids self.now) }
    {
        self.len
    }

    /// Whether there are no ids.
    pub fn is_empty(&self) -> bool
        ensures { IsTrue result ↔ (length (shown_ids self.now) ≡ 0) }
    {
        self.len() == 0
    }

    /// Id `i`, in the order of the page. `i` is below `len`.
    pub fn get(&self, i: usize) -> u64
        requires { i < length (shown_ids self.now) }
        ensures { slice_get (shown_ids self.now) i ≡ Some result }
    {
        u64_at(self.bytes, self.start + 8 * i)
    }
}
