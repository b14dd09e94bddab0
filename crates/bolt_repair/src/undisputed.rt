//! Candidates whose keys no others have.
ghost use Rattle.std.specs.Prelude.{◌<◌, ◌≡◌, drop, length, map};
ghost use Rattle.bolt_lemmas.specs.Order.{Rises};
ghost use Rattle.bolt_repair.specs.{Candidates.whole_cmp, Undisputed.AreUndisputed, Undisputed.HaveKeys, Undisputed.is_last_of_key};
ghost use Rattle.bolt_etcd.specs.Wire.ShownRevisions.{entry_of};

use bolt_etcd::Revision;

/// Keeps the candidates whose keys no other one has. Returns the number of keys. Needs no memory.
pub(crate) fn keep_undisputed(candidates: &mut Vec<Revision<'_>>) -> usize
    requires { Rises whole_cmp (map entry_of candidates.old.items) }
    ensures undisputed { AreUndisputed (map entry_of candidates.old.items)
        (map entry_of candidates.new.items) }
    ensures keys { HaveKeys (map entry_of candidates.old.items) result }
{
    let mut keys = 0;
    let mut kept = 0;
    let mut is_first = true;
    for i in 0..candidates.len() {
        let is_last = is_last_of_key(candidates.as_slice(), i);
        if is_first && is_last {
            candidates[kept] = candidates[i];
            kept += 1;
        }
        if is_last {
            keys += 1;
        }
        is_first = is_last;
    }
    candidates.truncate(kept);
    keys
}

/// Whether the next candidate, if there is one, has another key.
fn is_last_of_key(candidates: &[Revision<'_>], i: usize) -> bool
    requires { i < length candidates.now }
    ensures { result ≡ is_last_of_key (map entry_of (drop i candidates.now)) }
{
    match candidates.get(i + 1) {
        Some(next) => next.stored_key() != candidates[i].stored_key(),
        None => true,
    }
}
