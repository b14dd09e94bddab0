//! A kept page, and how many of its elements are done.
ghost use Rattle.std.specs.Prelude.{◌≡◌, ◌<◌, ◌≤◌, ℕ, true, IfErr, IfOk, IfSome, OnErr, OnOk, IsTrue, slice_get};
ghost use Rattle.std.specs.Option.{option_map, option_to_list};
ghost use Rattle.bolt_format.specs.{Elements.IsBucketValue, ElementPlaces.leaf_view};
ghost use Rattle.bolt_check.specs.{Claims.claims_file, Claims.claims_meta, Claims.claims_visited, Claims.is_claimed, Counts.counted};
ghost use Rattle.bolt_check.specs.{Findings.Passes, Findings.Tests, ShownSpots.spot_at};
ghost use Rattle.bolt_recover.specs.Private.Frames.{IsContent, IsGoodKeptPage, IsShallow, IsValueElement, ElementLeads, claims_with};
ghost use Rattle.bolt_recover.specs.Private.Frames.{content_elements, content_size, content_spot};
ghost use Rattle.bolt_check.specs.Claims.{claims_nodes};
ghost use Rattle.bolt_recover.specs.{PageGaps.page_gap_view, PageGaps.spot_gap, Private.Courses.page_visit};

use crate::page_gaps::PageGap;
use bolt_check::{Claims, Finding, Spot};
use bolt_format::{Leaf, TreePage};

/// A page that passed its tests, and the spot that led to it. The page of an inline bucket is a leaf.
#[derive(Clone, Copy)]
pub(crate) struct KeptPage<'a> {
    pub spot: Spot<'a>,
    pub page: TreePage<'a>,
}

/// An open page on the current way.
#[derive(Clone, Copy)]
pub(crate) struct OpenPage<'a> {
    pub content: KeptPage<'a>,
    /// The number of parts of its bucket's path.
    pub path_len: usize,
    /// The number of its elements.
    pub count: u16,
    /// The next element.
    pub next: u16,
}

impl<'a> KeptPage<'a> {
    /// Tests what a way leads to. If the tests find nothing, the page is claimed.
    pub fn visit(claims: &mut Claims<'a>, spot: Spot<'a>) -> Result<KeptPage<'a>, Finding>
        ensures file { claims_file claims.new ≡ claims_file claims.old }
        ensures meta { claims_meta claims.new ≡ claims_meta claims.old }
        ensures visited { claims_visited claims.new
            ≡ counted (claims_visited claims.old) (page_visit (spot_at spot.entry)) }
        ensures found { IfErr result
            (Tests (claims_nodes claims.old) (λ n. is_claimed claims.old n ≡ true)
            (spot_at spot.entry)) }
        ensures same { OnErr result ((n : ℕ) → is_claimed claims.new n ≡ is_claimed claims.old n) }
        ensures passes { OnOk result
            (Passes (claims_nodes claims.old) (λ n. is_claimed claims.old n ≡ true)
            (spot_at spot.entry)) }
        ensures content { IfOk result
            (IsContent (claims_file claims.old) (claims_meta claims.old) spot.entry) }
        ensures claims { OnOk result ((n : ℕ)
            → is_claimed claims.new n ≡ claims_with claims.old (spot_at spot.entry) n) }
    {
        match spot {
            Spot::Page(at) => Ok(KeptPage {
                spot,
                page: claims.visit(&at)?,
            }),
            Spot::Bucket(bucket) => {
                bucket.test()?;
                Ok(KeptPage {
                    spot,
                    page: TreePage::Leaf(bucket.page.page),
                })
            }
        }
    }

    /// The page's first gap, if it has one.
    pub fn gap(&self, claims: &Claims<'a>) -> Option<PageGap<'a>>
        requires { IsGoodKeptPage (claims_file claims.now) (claims_meta claims.now) self.now }
        ensures { option_to_list (option_map page_gap_view result)
            ≡ spot_gap (claims_file claims.now) (claims_meta claims.now) (content_spot self.now) }
    {
        match &self.spot {
            Spot::Page(spot) => PageGap::of(spot.number, claims.gap(spot.number)),
            Spot::Bucket(spot) => PageGap::of(spot.host, spot.page.page.gap()),
        }
    }

    /// The number of its elements.
    pub fn count(&self) -> u16
        ensures { result ≡ content_size self.now }
    {
        self.page.count()
    }

    /// Element `i`, unless the page is a branch.
    pub fn leaf(&self, i: u16) -> Option<Leaf<'a>>
        requires { i < content_size self.now }
        ensures element { option_map leaf_view result ≡ slice_get (content_elements self.now) i }
        ensures bucket { IfSome result (λ leaf. IsTrue leaf.is_bucket
            → IsBucketValue leaf.value.now) }
    {
        match &self.page {
            TreePage::Branch(_) => None,
            TreePage::Leaf(page) => Some(page.element(i)),
        }
    }

    /// The first element from `i` on that is no value, or the number of elements if there is none.
    pub fn after_values(&self, i: u16) -> u16
        requires { i ≤ content_size self.now }
        ensures from { i ≤ result }
        ensures within { result ≤ content_size self.now }
        ensures values { (n : ℕ) → i ≤ n → n < result → IsValueElement (content_elements self.now) n }
        ensures stops { result < content_size self.now
            → IsValueElement (content_elements self.now) result → ⊥ }
    {
        let TreePage::Leaf(page) = &self.page else {
            return i;
        };
        for n in i..page.count() {
            if page.element(n).is_bucket {
                return n;
            }
        }
        page.count()
    }

    /// What element `i` leads to, if anything.
    pub fn spot(&self, i: u16) -> Option<Spot<'a>>
        requires shallow { IsShallow self.now }
        requires below { i < content_size self.now }
        ensures { ElementLeads self.now i result }
    {
        match &self.spot {
            Spot::Page(spot) => spot.step(&self.page, i),
            Spot::Bucket(_) => None,
        }
    }
}
