//! Orders of revisions by the sums of their names. Most comparisons look at the tags of revisions and at no
//! name, so it is quicker to sort by sums than by names.
ghost use Rattle.std.specs.Prelude.{◌≡◌, map};
ghost use Rattle.std.specs.List.Sorted.{IsPermutation};
ghost use Rattle.bolt_etcd.specs.{Wire.ShownRevisions.shown_revision};
ghost use Rattle.bolt_etcd.specs.Store.Orders.{AreBySum, AreNewestBySum, by_sum_cmp, name_sum_cmp, newest_by_sum_cmp};

use crate::wire::revision::Revision;
use std::cmp::Ordering;

/// Compares two revisions by the sums of their names, and those of one sum by name.
fn cmp_by_sums(a: &Revision<'_>, b: &Revision<'_>) -> Ordering
    ensures { result ≡ name_sum_cmp (shown_revision a.now) (shown_revision b.now) }
{
    match a.sum().cmp(&b.sum()) {
        Ordering::Equal => a.name().cmp(b.name()),
        order => order,
    }
}

/// Compares two revisions by the sums of their names, and those of one name by their keys.
fn by_sum(a: &Revision<'_>, b: &Revision<'_>) -> Ordering
    ensures { result ≡ by_sum_cmp (shown_revision a.now) (shown_revision b.now) }
{
    match cmp_by_sums(a, b) {
        Ordering::Equal => a.cmp_stored_key(b),
        order => order,
    }
}

/// Compares two revisions by the sums of their names. Of one name the later revisions come first.
fn newest_by_sum(a: &Revision<'_>, b: &Revision<'_>) -> Ordering
    ensures { result ≡ newest_by_sum_cmp (shown_revision a.now) (shown_revision b.now) }
{
    match cmp_by_sums(a, b) {
        Ordering::Equal => b.cmp_stored_key(a),
        order => order,
    }
}

/// Sorts revisions by the sums of their names, and those of one name in the order of their keys. The first
/// sort looks at tags alone. Mostly it leaves nothing to do for the second one, which compares neighbors.
pub(crate) fn sort_by_sum(revisions: &mut Vec<Revision<'_>>)
    ensures { AreBySum (map shown_revision revisions.old.items)
        (map shown_revision revisions.new.items) }
{
    revisions.sort_unstable_by(|a, b| a.tag().cmp(&b.tag()));
    revisions.sort_unstable_by(by_sum);
}

/// Sorts revisions by the sums of their names. Of one name the later revisions come first.
pub(crate) fn sort_newest_by_sum(revisions: &mut Vec<Revision<'_>>)
    ensures { AreNewestBySum (map shown_revision revisions.old.items)
        (map shown_revision revisions.new.items) }
{
    revisions.sort_unstable_by(|a, b| a.sum().cmp(&b.sum()).then(b.tag().cmp(&a.tag())));
    revisions.sort_unstable_by(newest_by_sum);
}

/// Puts revisions mostly in the order of their keys, by tags alone. Names are read more quickly that are near each
/// other in the file.
pub(crate) fn sort_roughly(revisions: &mut Vec<Revision<'_>>)
    ensures { IsPermutation revisions.old.items revisions.new.items }
{
    revisions.sort_unstable_by(|a, b| a.low_main().cmp(&b.low_main()));
}
