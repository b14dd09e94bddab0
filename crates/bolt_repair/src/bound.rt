//! Up to which transaction the copy of a repair may lack revisions.
ghost use Rattle.std.specs.Prelude.{◌≡◌, map};
ghost use Rattle.std.specs.Option.{option_map};
ghost use Rattle.bolt_etcd.specs.Wire.UnreadEntries.{shown_unread};
ghost use Rattle.bolt_recover.specs.ShownLosses.{loss_view, lost_view};
ghost use Rattle.bolt_repair.specs.Bounds.{bound_below, bound_in, bound_of_loss, bound_of_losses, bound_of_lost, bound_of_entry, bound_of_unread};
ghost use Rattle.bolt_repair.specs.Bounds.{greater, holds_store, repair_bound};

use bolt_etcd::{KEY_BUCKET, RevisionKey, UnreadEntry};
use bolt_recover::{Loss, Lost};

/// Which revisions the copy may lack (docs/RECOVERY.md, "What may be missing").
#[derive(Clone, Copy, Debug, PartialEq, Eq)]
pub enum Bound {
    /// Nothing that is reported took a revision.
    Nothing,
    /// Revisions of the transactions up to this one.
    UpTo(u64),
    /// Any.
    Any,
}

impl Bound {
    /// The bound of what is lost, of the entries that aren't copied, and of a newest state that may be lost.
    pub fn of(lost: Lost<'_>, unread: &[UnreadEntry<'_>], is_older: bool) -> Bound
        ensures { result ≡ repair_bound (lost_view lost.entry) (map shown_unread unread.now) is_older }
    {
        if is_older {
            return Bound::Any;
        }
        of_lost(lost).or(of_unread(unread))
    }

    /// The greater of two.
    fn or(self, other: Bound) -> Bound
        ensures { result ≡ greater self other }
    {
        match (self, other) {
            (Bound::Nothing, bound) => bound,
            (Bound::UpTo(a), Bound::Nothing) => Bound::UpTo(a),
            (Bound::UpTo(a), Bound::UpTo(b)) => Bound::UpTo(a.max(b)),
            (Bound::UpTo(_), Bound::Any) | (Bound::Any, _) => Bound::Any,
        }
    }
}

fn of_lost(lost: Lost<'_>) -> Bound
    ensures { result ≡ bound_of_lost (lost_view lost.entry) }
{
    match lost {
        Lost::Everything(_) => Bound::Any,
        Lost::Parts(losses) => of_losses(losses),
    }
}

fn of_losses(losses: &[Loss<'_>]) -> Bound
    ensures { result ≡ bound_of_losses (map loss_view losses.now) }
{
    let mut bound = Bound::Nothing;
    'rest: for loss in losses {
        bound = bound.or(of_loss(loss));
    }
    bound
}

/// The bound of a loss: of a page of the bucket `key`, or of one of the root bucket on which that may have
/// been.
fn of_loss(loss: &Loss<'_>) -> Bound
    ensures { result ≡ bound_of_loss (loss_view loss.now) }
{
    match loss.bucket.as_slice() {
        [] => in_root(loss.lower, loss.upper),
        [bucket] if *bucket == KEY_BUCKET => below(loss.upper),
        _ => Bound::Nothing,
    }
}

/// The bound of a page of the root bucket with these bounds.
fn in_root(lower: Option<&[u8]>, upper: Option<&[u8]>) -> Bound
    ensures { result ≡ bound_in (option_map (λ key. key.now) lower.entry)
        (option_map (λ key. key.now) upper.entry) }
{
    if holds_store(lower, upper) {
        Bound::Any
    } else {
        Bound::Nothing
    }
}

/// Whether the name of the bucket is within these bounds.
fn holds_store(lower: Option<&[u8]>, upper: Option<&[u8]>) -> bool
    ensures { result ≡ holds_store (option_map (λ key. key.now) lower.entry)
        (option_map (λ key. key.now) upper.entry) }
{
    let is_above = match lower {
        Some(key) => key <= KEY_BUCKET,
        None => true,
    };
    is_above
        && match upper {
            Some(key) => KEY_BUCKET < key,
            None => true,
        }
}

/// The bound of keys below this one: its transaction, if it is a revision key.
fn below(upper: Option<&[u8]>) -> Bound
    ensures { result ≡ bound_below (option_map (λ key. key.now) upper.entry) }
{
    let Some(key) = upper else {
        return Bound::Any;
    };
    match RevisionKey::read(key) {
        Some(key) => Bound::UpTo(key.main),
        None => Bound::Any,
    }
}

fn of_unread(unread: &[UnreadEntry<'_>]) -> Bound
    ensures { result ≡ bound_of_unread (map shown_unread unread.now) }
{
    let mut bound = Bound::Nothing;
    'rest: for other in unread {
        bound = bound.or(of_entry(other));
    }
    bound
}

/// The bound of an entry that isn't copied.
fn of_entry(other: &UnreadEntry<'_>) -> Bound
    ensures { result ≡ bound_of_entry (shown_unread other.now) }
{
    match other {
        UnreadEntry::Key(_) => Bound::Any,
        UnreadEntry::Record(key) => Bound::UpTo(key.main),
    }
}
