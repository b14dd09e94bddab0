//! The search for a key in a page.
ghost use Rattle.std.specs.Prelude.{◌≡◌, ◌≤◌, length};
ghost use Rattle.bolt_format.specs.TreePages.{page_keys};
ghost use Rattle.bolt_check.specs.Keys.{KeysRise};
ghost use Rattle.bolt_tree.specs.Private.PageKeys.{IsNumberBefore, stands_before};

use bolt_format::TreePage;

/// What a search has found.
#[derive(Clone, Copy)]
pub(crate) struct KeySearch {
    /// How many keys come before the one that was sought.
    pub before: u16,
    /// How many keys were compared.
    pub compared: u64,
}

/// Whether a key comes before the one that is sought: it is below `sought` or, if
/// `or_equal` is set, equal to it.
fn stands_before(key: &[u8], sought: &[u8], or_equal: bool) -> bool
    ensures { result ≡ stands_before or_equal key.now sought.now }
{
    if or_equal {
        !sought.cmp(key).is_lt()
    } else {
        key.cmp(sought).is_lt()
    }
}

/// The number of keys of a page that are below a key or, if `or_equal` is set, not above it.
/// Compares at most 16 keys.
#[tactic(auto, using(crate::proofs::KeySearchLemmas::above_middle, crate::proofs::KeySearchLemmas::below_middle, crate::proofs::KeySearchLemmas::halved, crate::proofs::KeySearchLemmas::sixteen))]
pub(crate) fn keys_before(page: &TreePage<'_>, sought: &[u8], or_equal: bool) -> KeySearch
    requires { KeysRise (page_keys page.now) }
    ensures within { result.before ≤ length (page_keys page.now) }
    ensures before { IsNumberBefore (page_keys page.now) or_equal sought.now result.before }
    ensures few { result.compared ≤ 16 }
{
    let mut from = 0;
    let mut to = page.count();
    let mut compared = 0;
    while from < to {
        let middle = from + (to - from) / 2;
        compared += 1;
        if stands_before(page.key(middle), sought, or_equal) {
            from = middle + 1;
        } else {
            to = middle;
        }
    }
    KeySearch {
        before: from,
        compared,
    }
}
