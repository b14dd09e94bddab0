//! The key of the bucket of what is found, `lost+found`, and on which side of it a path lies.
ghost use Rattle.std.specs.Prelude.{◌≡◌};
ghost use Rattle.bolt_tree.specs.Paths.{path_of};
ghost use Rattle.bolt_recover.specs.{Joined.lost_and_found, Private.Joining.first_cmp};

use std::cmp::Ordering;

/// The key of the bucket of what is found.
pub(crate) fn lost_and_found<'a>() -> &'a [u8]
    ensures { result.now ≡ lost_and_found }
{
    b"lost+found"
}

/// How the first part of a path compares with the key of the bucket of what is found.
pub(crate) fn compare_first(path: &[&[u8]]) -> Ordering
    ensures { result ≡ first_cmp (path_of path.now) }
{
    match path.first() {
        Some(key) => key.cmp(lost_and_found()),
        None => Ordering::Less,
    }
}
