//! The states of a file, the likeliest first.
ghost use Rattle.std.specs.Prelude.{◌≡◌, ◌∷◌, ◌++◌, ◌+◌, ◌*◌, ◌<◌, ◌≤◌, ℕ, [], IfNone, IfOk, IfSome, List, OnOk, Some, length, map};
ghost use Rattle.std.specs.List.{Contains};
ghost use Rattle.bolt_recover.specs.{Private.StatesTried.AreStatesAt, Private.StatesTried.HasTried, Private.StatesTried.HasTriedAll};
ghost use Rattle.bolt_recover.specs.{Private.StatesTried.IsBucketStateAt, Private.StatesTried.IsStateAt};
ghost use Rattle.bolt_recover.specs.ShownStates.{AreValidMetas, figures_view, place_list, place_view, state_view};
ghost use Rattle.bolt_recover.specs.States.{AreStates, PlaceView, counted32, entries_in_figures, meta_at, place_cmp, state_cmp};
ghost use Rattle.bolt_recover.specs.{Private.StatesTried.IsCountedState, Recovered.ForRecovered};
ghost use Rattle.bolt_recover.specs.Recoveries.{recovery_file, recovery_left, recovery_meta};

use crate::counting::count_recovered;
use crate::first_leaf::may_be_root;
use crate::recovery::Recovery;
use crate::root_fault::RootFault;
use crate::state::{Place, State};
use crate::valid_metas::{ValidMetas, place_of};
use bolt_check::NoMemory;
use bolt_format::{Meta, assumed_meta};
use std::alloc::Global;
use std::cmp::Ordering;

/// The states of a file (docs/RECOVERY.md, "States").
#[derive(Drop)]
pub struct States<'a> {
    /// The metas of the file that are valid.
    pub metas: ValidMetas,
    /// The states whose root page is kept, the likeliest first.
    pub kept: Vec<State<'a>>,
    /// The places of those whose root page is lost.
    pub lost: Vec<Place>,
}

/// Finds the states of a file (docs/RECOVERY.md, "States"). Pages of this size are tried. Each state
/// costs a recovery, and 64 bytes.
///
/// # Errors
///
/// `NoMemory` if memory runs out.
pub fn find_states(alloc: Global, file: &[u8], page_size: u32) -> Result<States<'_>, NoMemory>
    requires { 0 < page_size }
    ensures metas { IfOk result (λ states. AreValidMetas file.now states.metas) }
    ensures states { IfOk result (λ states. AreStates file.now page_size
        (map state_view states.kept.items) (map place_view states.lost.items)) }
{
    let mut states = States {
        metas: ValidMetas::of(file),
        kept: Vec::new(alloc),
        lost: Vec::new(alloc),
    };
    states.add_named(alloc, file)?;
    states.add_pages(alloc, file, page_size)?;
    states.kept.sort_unstable_by(by_likelihood);
    states.lost.sort_unstable_by(by_place);
    Ok(states)
}

impl<'a> States<'a> {
    /// Adds those that valid metas lead to.
    fn add_named(&mut self, alloc: Global, file: &'a [u8]) -> Result<(), NoMemory>
        requires metas { AreValidMetas file.now self.old.metas }
        requires none { AreStatesAt file.now [] self.old }
        ensures metas { self.new.metas ≡ self.old.metas }
        ensures tried { OnOk result ((page_size : ℕ) → HasTried file.now page_size 2 self.new) }
    {
        let metas = self.metas;
        self.add_meta(alloc, file, metas.zero)?;
        self.add_meta(alloc, file, metas.other())
    }

    /// Adds the one that a meta leads to, if there is a meta.
    fn add_meta(
        &mut self,
        alloc: Global,
        file: &'a [u8],
        meta: Option<Meta>,
    ) -> Result<(), NoMemory>
        requires { IfSome meta (λ meta. 0 < meta.page_size) }
        ensures metas { self.new.metas ≡ self.old.metas }
        ensures added { OnOk result ((places : List PlaceView) → AreStatesAt file.now places self.old
            → ((place : PlaceView) → Contains places place → Contains (place_list meta) place → ⊥)
            → AreStatesAt file.now (places ++ place_list meta) self.new) }
    {
        let Some(meta) = meta else {
            return Ok(());
        };
        let place = place_of(&meta);
        let state = named_state(alloc, file, place)?;
        self.add(place, state)
    }

    /// Adds those of pages that have buckets alone.
    fn add_pages(&mut self, alloc: Global, file: &'a [u8], page_size: u32) -> Result<(), NoMemory>
        requires size { 0 < page_size }
        requires metas { AreValidMetas file.now self.old.metas }
        requires named { HasTried file.now page_size 2 self.old }
        ensures metas { self.new.metas ≡ self.old.metas }
        ensures tried { OnOk result (HasTriedAll file.now page_size self.new) }
    {
        let pages = assumed_meta(file.len() as u64, page_size, 0).high_water;
        for root in 2..pages {
            self.add_page(alloc, file, Place { page_size, root })?;
        }
        Ok(())
    }

    /// Adds that of a page, if it has buckets alone and no meta leads there.
    fn add_page(&mut self, alloc: Global, file: &'a [u8], place: Place) -> Result<(), NoMemory>
        requires size { 0 < place.page_size }
        requires from { 2 ≤ place.root }
        requires within { place.root * place.page_size < length file.now }
        requires metas { AreValidMetas file.now self.old.metas }
        requires tried { HasTried file.now place.page_size place.root self.old }
        ensures metas { self.new.metas ≡ self.old.metas }
        ensures tried { OnOk result
            (HasTried file.now place.page_size (place.root + 1) self.new) }
    {
        if self.metas.names(place) {
            return Ok(());
        }
        match bucket_state(alloc, file, place)? {
            Some(state) => self.add(place, Some(state)),
            None => Ok(()),
        }
    }

    /// Adds what is known of a place.
    fn add(&mut self, place: Place, state: Option<State<'a>>) -> Result<(), NoMemory>
        ensures metas { self.new.metas ≡ self.old.metas }
        ensures added { OnOk result ((file : List ℕ) (places : List PlaceView)
            → IsStateAt file (place_view place) state.entry → AreStatesAt file places self.old
            → (Contains places (place_view place) → ⊥)
            → AreStatesAt file (places ++ place_view place ∷ []) self.new) }
    {
        match state {
            Some(state) => {
                self.kept.reserve(1)?;
                self.kept.push_reserved(state);
            }
            None => {
                self.lost.reserve(1)?;
                self.lost.push_reserved(place);
            }
        }
        Ok(())
    }
}

/// The meta that is assumed for a place.
fn place_meta(file: &[u8], place: Place) -> Meta
    requires { 0 < place.page_size }
    ensures { result ≡ meta_at file.now (place_view place) }
{
    assumed_meta(file.len() as u64, place.page_size, place.root)
}

/// What is left at a place that a meta leads to; nothing if its root page is lost.
fn named_state(alloc: Global, file: &[u8], place: Place) -> Result<Option<State<'_>>, NoMemory>
    requires { 0 < place.page_size }
    ensures { IfOk result (IsStateAt file.now (place_view place)) }
{
    match Recovery::under(alloc, file, place_meta(file, place)) {
        Ok(mut recovery) => state_of(&mut recovery, place, false),
        Err(RootFault::Lost(_)) => Ok(None),
        Err(RootFault::Memory) => Err(NoMemory),
    }
}

/// The state of a page, if it has buckets alone.
fn bucket_state(alloc: Global, file: &[u8], place: Place) -> Result<Option<State<'_>>, NoMemory>
    requires { 0 < place.page_size }
    ensures { IfOk result (IsBucketStateAt file.now (place_view place)) }
{
    let meta = place_meta(file, place);
    if !may_be_root(file, &meta) {
        return Ok(None);
    }
    match Recovery::under(alloc, file, meta) {
        Ok(mut recovery) => {
            let state = state_of(&mut recovery, place, true)?;
            Ok(with_buckets(state))
        }
        Err(RootFault::Lost(_)) => Ok(None),
        Err(RootFault::Memory) => Err(NoMemory),
    }
}

/// The state of which this is the recovery, at its start. If only buckets are wanted in the root bucket,
/// there is none if it has a value.
fn state_of<'a>(
    recovery: &mut Recovery<'a>,
    place: Place,
    alone: bool,
) -> Result<Option<State<'a>>, NoMemory>
    requires { ForRecovered (recovery_file recovery.old) (recovery_meta recovery.old) (λ listing.
        recovery_left recovery.old listing ≡ listing) }
    ensures { IfOk result (IsCountedState (recovery_file recovery.old) (recovery_meta recovery.old)
        alone (place_view place)) }
{
    let Some(figures) = count_recovered(recovery, alone)? else {
        return Ok(None);
    };
    Ok(Some(State {
        place,
        losses: few(recovery.losses().len()),
        figures,
    }))
}

/// A state, if its root bucket has a bucket.
fn with_buckets(state: Option<State<'_>>) -> Option<State<'_>>
    ensures some { IfSome result (λ s. (state.entry ≡ Some s) × (0 < s.figures.buckets)) }
    ensures none { IfNone result ((s : State) → state.entry ≡ Some s → s.figures.buckets ≡ 0) }
{
    match state {
        Some(state) if state.figures.buckets > 0 => Some(state),
        _ => None,
    }
}

/// A count, at most 2^32 - 1.
fn few(n: usize) -> u32
    ensures { result ≡ counted32 n }
{
    if n > u32::MAX as usize {
        u32::MAX
    } else {
        n as u32
    }
}

/// Fewer losses first, then more entries, then by place.
fn by_likelihood(a: &State<'_>, b: &State<'_>) -> Ordering
    ensures { result ≡ state_cmp (state_view a.now) (state_view b.now) }
{
    a.losses
        .cmp(&b.losses)
        .then(entries(b).cmp(&entries(a)))
        .then(by_place(&a.place, &b.place))
}

/// The number of entries. Saturates at 2^64 - 1.
fn entries(state: &State<'_>) -> u64
    ensures { result ≡ entries_in_figures (figures_view state.now.figures) }
{
    state
        .figures
        .values
        .saturating_add(u64::from(state.figures.all_buckets))
}

fn by_place(a: &Place, b: &Place) -> Ordering
    ensures { result ≡ place_cmp (place_view a.now) (place_view b.now) }
{
    a.page_size.cmp(&b.page_size).then(a.root.cmp(&b.root))
}
