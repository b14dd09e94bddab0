//! The tests of a key, and of the keys of an inline bucket.
ghost use Rattle.std.specs.Prelude.{◌≡◌, ◌<◌, None, Some, length, slice_get};
ghost use Rattle.std.specs.Result.{result_err};
ghost use Rattle.bolt_format.specs.ShownInline.{shown_inline};
ghost use Rattle.bolt_check.specs.{Keys.key_lt, Keys.key_order_fault, Keys.keys_order_fault, ShownSpots.bound_of, ShownSpots.inline_keys};

use crate::finding::Finding;
use bolt_format::Inline;

/// Whether a key is below another, in byte order.
fn is_lesser_key(key: &[u8], other: &[u8]) -> bool
    ensures { result ≡ key_lt key.now other.now }
{
    key.cmp(other).is_lt()
}

/// Tests one key: it is above the preceding one, not below the lower bound, and below the upper.
pub(crate) fn test_key(
    before: Option<&[u8]>,
    lower: Option<&[u8]>,
    upper: Option<&[u8]>,
    key: &[u8],
) -> Result<(), u8>
    ensures { result_err result ≡ key_order_fault (bound_of before.entry) (bound_of lower.entry)
        (bound_of upper.entry) key.now }
{
    if let Some(bound) = before {
        if !is_lesser_key(bound, key) {
            return Err(Finding::ORDER);
        }
    }
    if let Some(bound) = lower {
        if is_lesser_key(key, bound) {
            return Err(Finding::BELOW_PARENT);
        }
    }
    if let Some(bound) = upper {
        if !is_lesser_key(key, bound) {
            return Err(Finding::ABOVE_NEXT);
        }
    }
    Ok(())
}

/// The key of element `i` of an inline bucket.
pub(crate) fn inline_key<'a>(page: &Inline<'a>, i: u16) -> &'a [u8]
    requires { i < length (shown_inline page.now) }
    ensures { slice_get (inline_keys page.now) i ≡ Some result.now }
{
    page.leaf(i).key
}

/// Tests that the keys of an inline bucket rise.
#[tactic(auto, using(bolt_format::proofs::Exports::drop_next, std::proofs::lemmas::List::drop_all))]
pub(crate) fn test_inline_keys(page: &Inline<'_>) -> Result<(), u8>
    ensures { result_err result ≡ keys_order_fault None None None (inline_keys page.now) }
{
    let mut before: Option<&[u8]> = None;
    for i in 0..page.count() {
        let key = inline_key(page, i);
        test_key(before, None, None, key)?;
        before = Some(key);
    }
    Ok(())
}
