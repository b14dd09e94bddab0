//! The steps of a recovering walk: one loop over the open pages of the current way.
ghost use Rattle.std.specs.Prelude.{◌≡◌, ◌≤◌, ◌<◌, ◌↔◌, ◌∷◌, ◌++◌, ℕ, [], true, None, IfOk, IfErr, IfSome, IsTrue, OnErr, OnOk, length, map};
ghost use Rattle.std.specs.Prelude.{vec_capacity, vec_len};
ghost use Rattle.std.specs.Option.{option_map};
ghost use Rattle.bolt_check.specs.{Claims.claims_file, Claims.claims_meta, Claims.claims_visited, Claims.is_claimed, Counts.counted};
ghost use Rattle.bolt_check.specs.{Findings.IsMetaPage};
ghost use Rattle.bolt_check.specs.declared.spot.Spot.TheVariants as spots;
ghost use Rattle.bolt_format.specs.Elements.{IsBucketValue};
ghost use Rattle.bolt_recover.specs.PageGaps.{page_gap_view, spot_gap};
ghost use Rattle.bolt_recover.specs.Private.Frames.{Advances, StepsOn, IsAllLeft, IsGoodKeptPage, content_spot, AreStepsPlaced, Skips, TakesStep};
ghost use Rattle.bolt_recover.specs.Private.Frames.{TakesBucket, loss_ahead, steps_path};
ghost use Rattle.bolt_recover.specs.{Refusals.IsRefusedRoot, Refusals.KeepsRoot, ShownLosses.loss_view};

use crate::kept_page::{KeptPage, OpenPage};
use crate::losses::Loss;
use crate::page_gaps::PageGap;
use crate::root_fault::RootFault;
use bolt_check::{Claims, Finding, NoMemory, PageSpot, Spot};
use bolt_format::{Leaf, Meta};
use std::alloc::Global;
use std::mem::replace;

/// What is to be visited next.
#[derive(Clone, Copy)]
pub(crate) struct NextVisit<'a> {
    pub spot: Spot<'a>,
    /// The number of parts of its bucket's path.
    pub path_len: usize,
}

impl<'a> NextVisit<'a> {
    /// What an element leads to, if anything.
    fn of(spot: Option<Spot<'a>>, path_len: usize) -> Option<NextVisit<'a>>
        ensures { result ≡ option_map (λ spot.
            record { spot = spot; path_len = path_len }) spot.entry }
    {
        match spot {
            Some(spot) => Some(NextVisit { spot, path_len }),
            None => None,
        }
    }
}

/// The result of a step.
#[derive(Clone, Copy)]
pub(crate) enum StepResult<'a> {
    /// The element of a leaf, which is returned next.
    Leaf(Leaf<'a>),
    /// Nothing to return.
    Nothing,
    /// Nothing to return, since nothing is left.
    End,
}

/// How far a recovering walk has come. What is ahead comes first, and then what is left of each
/// open page, the innermost first.
#[derive(Drop)]
pub(crate) struct Steps<'a> {
    pub alloc: Global,
    pub claims: Claims<'a>,
    pub ahead: Option<NextVisit<'a>>,
    pub open: Vec<OpenPage<'a>>,
    /// The path of the last element that was returned.
    pub path: Vec<&'a [u8]>,
    pub losses: Vec<Loss<'a>>,
    /// The gaps of the pages that were kept.
    pub gaps: Vec<PageGap<'a>>,
    /// Room for the path of one more loss.
    pub loss_path: Vec<&'a [u8]>,
}

/// The spot at the root page, to which the empty way leads.
fn root_of<'a>(meta: &Meta) -> Spot<'a>
    ensures { result ≡ spots.Page
        (record { number = meta.now.root; depth = 1; lower = None; upper = None }) }
{
    Spot::Page(PageSpot::root(meta.root))
}

/// Adds the first gap of a kept page, if it has one. There is room for it.
fn note_gap<'a>(claims: &Claims<'a>, content: &KeptPage<'a>, gaps: &mut Vec<PageGap<'a>>)
    requires good { IsGoodKeptPage (claims_file claims.now) (claims_meta claims.now) content.now }
    requires room { vec_len gaps.old < vec_capacity gaps.old }
    ensures { map page_gap_view gaps.new.items ≡ map page_gap_view gaps.old.items
        ++ spot_gap (claims_file claims.now) (claims_meta claims.now) (content_spot content.now) }
{
    if let Some(gap) = content.gap(claims) {
        gaps.push_reserved(gap);
    }
}

impl<'a> Steps<'a> {
    /// The root page is open, and nothing was returned yet. Only the meta pages were claimed before.
    ///
    /// # Errors
    ///
    /// `Lost` with the finding of the root page if that is lost; `Memory` if memory runs out.
    pub fn new(alloc: Global, mut claims: Claims<'a>) -> Result<Steps<'a>, RootFault>
        requires { (n : ℕ) → (is_claimed claims n ≡ true) ↔ IsMetaPage n }
        ensures file { IfOk result (λ steps. claims_file steps.claims ≡ claims_file claims.entry) }
        ensures meta { IfOk result (λ steps. claims_meta steps.claims ≡ claims_meta claims.entry) }
        ensures visited { IfOk result (λ steps.
            claims_visited steps.claims ≡ counted (claims_visited claims.entry) 1) }
        ensures path { IfOk result (λ steps. steps_path steps ≡ []) }
        ensures placed { IfOk result AreStepsPlaced }
        ensures losses { IfOk result (λ steps. steps.losses.items ≡ []) }
        ensures root { OnOk result
            (KeepsRoot (claims_file claims.entry) (claims_meta claims.entry)) }
        ensures all { IfOk result
            (IsAllLeft (claims_file claims.entry) (claims_meta claims.entry)
            (claims_visited claims.entry)) }
        ensures refused { IfErr result
            (IsRefusedRoot (claims_file claims.entry) (claims_meta claims.entry)) }
    {
        let root = root_of(&claims.meta());
        let content = KeptPage::visit(&mut claims, root)?;
        let mut open = Vec::new(alloc);
        open.reserve(1)?;
        let mut gaps = Vec::new(alloc);
        gaps.reserve(1)?;
        note_gap(&claims, &content, &mut gaps);
        open.push_reserved(OpenPage {
            content,
            path_len: 0,
            count: content.count(),
            next: 0,
        });
        Ok(Steps {
            alloc,
            claims,
            ahead: None,
            open,
            path: Vec::new(alloc),
            losses: Vec::new(alloc),
            gaps,
            loss_path: Vec::new(alloc),
        })
    }

    /// Begins again at the root page, which is kept. The visits are counted on.
    ///
    /// # Errors
    ///
    /// `NoMemory` if there is no room for an open page and a gap. Then nothing has changed.
    pub fn restart(&mut self) -> Result<(), NoMemory>
        requires { ∥ KeepsRoot (claims_file self.old.claims) (claims_meta self.old.claims) ∥₁ }
        ensures file { claims_file self.new.claims ≡ claims_file self.old.claims }
        ensures meta { claims_meta self.new.claims ≡ claims_meta self.old.claims }
        ensures visited { OnOk result
            (claims_visited self.new.claims ≡ counted (claims_visited self.old.claims) 1) }
        ensures path { OnOk result (steps_path self.new ≡ []) }
        ensures placed { OnOk result (AreStepsPlaced self.new) }
        ensures losses { OnOk result (self.new.losses.items ≡ []) }
        ensures all { OnOk result
            (IsAllLeft (claims_file self.old.claims) (claims_meta self.old.claims)
            (claims_visited self.old.claims) self.new) }
        ensures rest { OnErr result
            (self.new ≡ record self.old { «open» = self.new.open; gaps = self.new.gaps }) }
        ensures same { OnErr result (self.new.open.items ≡ self.old.open.items) }
        ensures same_gaps { OnErr result (self.new.gaps.items ≡ self.old.gaps.items) }
    {
        self.open.reserve(1)?;
        self.gaps.reserve(1)?;
        self.claims.restart();
        let root = root_of(&self.claims.meta());
        let content = match KeptPage::visit(&mut self.claims, root) {
            Ok(content) => content,
            Err(_) => unreachable!(),
        };
        self.ahead = None;
        self.open.clear();
        self.open.push_reserved(OpenPage {
            content,
            path_len: 0,
            count: content.count(),
            next: 0,
        });
        self.path.clear();
        self.losses.clear();
        self.gaps.clear();
        note_gap(&self.claims, &content, &mut self.gaps);
        Ok(())
    }

    /// Records the loss of what was ahead, with this finding. There is room for it.
    fn lose(&mut self, finding: Finding, ahead: &NextVisit<'a>)
        requires within { ahead.now.path_len ≤ length self.old.path.items }
        requires losses { vec_len self.old.losses < vec_capacity self.old.losses }
        requires empty { vec_len self.old.loss_path ≡ 0 }
        requires room { ahead.now.path_len ≤ vec_capacity self.old.loss_path }
        ensures rest { self.new ≡ record self.old { ahead = None; losses = self.new.losses; loss_path = self.new.loss_path } }
        ensures reported { map loss_view self.new.losses.items
            ≡ map loss_view self.old.losses.items ++ loss_ahead self.old ahead.now finding ∷ [] }
    {
        let mut bucket = replace(&mut self.loss_path, Vec::new(self.alloc));
        match bucket.extend_from_slice(&self.path.as_slice()[..ahead.path_len]) {
            Ok(()) => {}
            Err(_) => unreachable!(),
        }
        self.losses
            .push_reserved(Loss::new(finding, bucket, &ahead.spot));
        self.ahead = None;
    }

    /// Visits what is ahead, if anything. Then a kept page is open, and a lost one is recorded. All
    /// memory is asked for before the visit, so no page is visited twice.
    fn enter(&mut self) -> Result<(), NoMemory>
        requires { AreStepsPlaced self.old }
        ensures on { StepsOn self.old self.new }
        ensures entered { OnOk result (self.new.ahead ≡ None) }
    {
        let Some(ahead) = self.ahead else {
            return Ok(());
        };
        self.open.reserve(1)?;
        self.losses.reserve(1)?;
        self.gaps.reserve(1)?;
        self.loss_path.clear();
        self.loss_path.reserve(ahead.path_len)?;
        let content = match KeptPage::visit(&mut self.claims, ahead.spot) {
            Ok(content) => content,
            Err(finding) => {
                self.lose(finding, &ahead);
                return Ok(());
            }
        };
        note_gap(&self.claims, &content, &mut self.gaps);
        self.open.push_reserved(OpenPage {
            content,
            path_len: ahead.path_len,
            count: content.count(),
            next: 0,
        });
        self.ahead = None;
        Ok(())
    }

    /// Goes to the next element of the innermost open page, or closes the page if it has no more.
    fn step(&mut self) -> Result<StepResult<'a>, NoMemory>
        requires placed { AreStepsPlaced self.old }
        requires ahead { self.old.ahead ≡ None }
        ensures taken { IfOk result (TakesStep self.old self.new) }
        ensures bucket { IfOk result TakesBucket }
        ensures same { OnErr result (StepsOn self.old self.new) }
    {
        self.path.reserve(1)?;
        let Some(top) = self.open.pop() else {
            self.path.clear();
            return Ok(StepResult::End);
        };
        if top.next == top.count {
            return Ok(StepResult::Nothing);
        }
        self.open.push_reserved(OpenPage {
            next: top.next + 1,
            ..top
        });
        let spot = top.content.spot(top.next);
        let Some(leaf) = top.content.leaf(top.next) else {
            self.ahead = NextVisit::of(spot, top.path_len);
            return Ok(StepResult::Nothing);
        };
        self.path.truncate(top.path_len);
        self.path.push_reserved(leaf.key);
        self.ahead = NextVisit::of(spot, top.path_len + 1);
        Ok(StepResult::Leaf(leaf))
    }

    /// Skips the values that come next in the innermost open page, if nothing is ahead of them. They
    /// lead nowhere.
    pub fn skip_values(&mut self)
        requires { AreStepsPlaced self.old }
        ensures { Skips self.old self.new }
    {
        if self.ahead.is_some() {
            return;
        }
        let Some(top) = self.open.pop() else {
            return;
        };
        let next = top.content.after_values(top.next);
        self.open.push_reserved(OpenPage { next, ..top });
    }

    /// Goes to the next element that is to be returned.
    pub fn advance(&mut self) -> Result<Option<Leaf<'a>>, NoMemory>
        requires { AreStepsPlaced self.old }
        ensures given { IfOk result (Advances self.old self.new) }
        ensures bucket { IfOk result (λ given.
            IfSome given (λ leaf. IsTrue leaf.is_bucket → IsBucketValue leaf.value.now)) }
        ensures same { OnErr result (StepsOn self.old self.new) }
    {
        loop {
            self.enter()?;
            match self.step()? {
                StepResult::Leaf(leaf) => return Ok(Some(leaf)),
                StepResult::Nothing => {}
                StepResult::End => return Ok(None),
            }
        }
    }
}
