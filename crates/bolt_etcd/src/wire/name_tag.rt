//! The tag of a revision, by which most revisions are compared without a look at their names.
ghost use Rattle.std.specs.Prelude.{◌≡◌, ◌+◌, ◌*◌, ◌/◌, ◌%◌, ◌^◌};
ghost use Rattle.bolt_etcd.specs.Store.Orders.{name_sum};

use bolt_format::fnv1a;

/// How many transactions a tag tells apart.
pub(crate) const MAINS: u64 = 0x100_0000;

/// The tag of a revision: the sum of its name, which is the upper 40 bits of its checksum, and the lower 24
/// bits of the number of its transaction.
pub(crate) fn tag_of(name: &[u8], main: u64) -> u64
    ensures tag { result ≡ name_sum name.now * 2 ^ 24 + main % 2 ^ 24 }
    ensures sum { result / 2 ^ 24 ≡ name_sum name.now }
{
    fnv1a(name) / MAINS * MAINS + main % MAINS
}
