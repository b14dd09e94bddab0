//! Paths, part by part: whether one begins with another or comes before it, and the one above.
ghost use Rattle.std.specs.Prelude.{◌≡◌};
ghost use Rattle.std.specs.Ordering.{is_lt};
ghost use Rattle.bolt_tree.specs.{ListingParts.begins_with, Paths.path_above, Paths.path_cmp, Paths.path_of};

/// Whether a path begins with another.
#[tactic(auto, using(crate::proofs::PartTests::parts))]
pub fn is_below(path: &[&[u8]], below: &[&[u8]]) -> bool
    ensures { result ≡ begins_with (path_of below.now) (path_of path.now) }
{
    path.starts_with(below)
}

/// Whether a path comes before another.
#[tactic(auto, using(crate::proofs::PartTests::parts))]
pub fn is_before(path: &[&[u8]], other: &[&[u8]]) -> bool
    ensures { result ≡ is_lt (path_cmp (path_of path.now) (path_of other.now)) }
{
    path.cmp(other).is_lt()
}

/// The path of the bucket that a path is in: all parts but the last. The empty path stays.
pub fn path_above<'p, 'a>(path: &'p [&'a [u8]]) -> &'p [&'a [u8]]
    ensures { path_of result.now ≡ path_above (path_of path.now) }
{
    &path[..path.len().saturating_sub(1)]
}
