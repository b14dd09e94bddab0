//! What is lost of a damaged file: each loss, and all of them.
ghost use Rattle.std.specs.Prelude.{◌≡◌};
ghost use Rattle.bolt_check.specs.ShownSpots.{spot_at};
ghost use Rattle.bolt_tree.specs.Paths.{path_of};
ghost use Rattle.bolt_recover.specs.{Losses.is_nothing, Losses.loss_on, ShownLosses.loss_view, ShownLosses.lost_view};

use crate::page_gaps::PageGap;
use bolt_check::{Finding, Spot};

/// A lost page, or the lost page of an inline bucket, with everything below it (docs/RECOVERY.md,
/// "Losses").
#[derive(Debug, Drop)]
pub struct Loss<'a> {
    /// The finding of the tests there.
    pub finding: Finding,
    /// The path of the bucket that it belongs to; empty for the root bucket.
    pub bucket: Vec<&'a [u8]>,
    /// For a page below a branch, the key that leads to it. No lost key is below this one.
    pub lower: Option<&'a [u8]>,
    /// For a page below a branch, its upper bound, if there is one. Each lost key is below this
    /// one.
    pub upper: Option<&'a [u8]>,
}

impl<'a> Loss<'a> {
    /// The loss of what a spot leads to, in the bucket with this path.
    pub fn new(finding: Finding, bucket: Vec<&'a [u8]>, spot: &Spot<'a>) -> Loss<'a>
        ensures { loss_view result
            ≡ loss_on (path_of bucket.entry.items) (spot_at spot.now) finding }
    {
        let (lower, upper) = match spot {
            Spot::Page(page) => (page.lower, page.upper),
            Spot::Bucket(_) => (None, None),
        };
        Loss {
            finding,
            bucket,
            lower,
            upper,
        }
    }
}

/// What is lost of a damaged file.
#[derive(Clone, Copy)]
pub enum Lost<'a> {
    /// Everything, since the root page is lost, with this finding.
    Everything(Finding),
    /// What these losses say.
    Parts(&'a [Loss<'a>]),
}

impl Lost<'_> {
    /// Whether nothing is lost.
    pub fn is_nothing(self) -> bool
        ensures { result ≡ is_nothing (lost_view self.entry) }
    {
        match self {
            Lost::Everything(_) => false,
            Lost::Parts(losses) => losses.is_empty(),
        }
    }
}

/// What is known of damaged trees whose root page is kept.
#[derive(Drop)]
pub(crate) struct Damage<'a> {
    pub losses: Vec<Loss<'a>>,
    /// The gaps of the kept pages.
    pub gaps: Vec<PageGap<'a>>,
    /// Whether the recovered root bucket has an entry with the key of the bucket of what is found.
    pub has_bucket_key: bool,
    /// How many members are recovered. Saturates at 2^64 - 1.
    pub members: u64,
}
