//! The metas of a file that are valid, and the places that they lead to.
ghost use Rattle.std.specs.Prelude.{◌≡◌, ◌||◌};
ghost use Rattle.bolt_recover.specs.ShownStates.{AreValidMetas, IsValidMeta, leads_to, other_meta, place_view};

use crate::state::Place;
use bolt_format::laws::slot_meta_is_one;
use bolt_format::{Meta, Slot, slot_meta};

/// The metas of a file that are valid.
#[derive(Clone, Copy)]
pub struct ValidMetas {
    /// The meta of slot zero.
    pub zero: Option<Meta>,
    /// The meta of slot one.
    pub one: Option<Meta>,
}

impl ValidMetas {
    /// The valid metas of a file.
    pub(crate) fn of(file: &[u8]) -> ValidMetas
        ensures { AreValidMetas file.now result }
    {
        ValidMetas {
            zero: valid_meta(file, Slot::Zero),
            one: valid_meta(file, Slot::One),
        }
    }

    /// Whether one of them leads to this place.
    pub(crate) fn names(&self, place: Place) -> bool
        ensures { result ≡ (leads_to self.now.zero (place_view place)
            || leads_to self.now.one (place_view place)) }
    {
        leads_to(self.zero, place) || leads_to(self.one, place)
    }

    /// The meta of slot one, unless both lead to the same place.
    pub(crate) fn other(&self) -> Option<Meta>
        ensures { result ≡ other_meta self.now.zero self.now.one }
    {
        match self.one {
            Some(meta) if leads_to(self.zero, place_of(&meta)) => None,
            one => one,
        }
    }
}

/// The meta of a slot, if it has a valid one.
fn valid_meta(file: &[u8], slot: Slot) -> Option<Meta>
    ensures { IsValidMeta file.now slot result }
{
    slot_meta_is_one();
    match slot_meta(file, slot) {
        Ok(meta) => Some(meta),
        Err(_) => None,
    }
}

/// The place that a meta leads to.
pub(crate) fn place_of(meta: &Meta) -> Place
    ensures { place_view result ≡ record { page_size = meta.now.page_size; root = meta.now.root } }
{
    Place {
        page_size: meta.page_size,
        root: meta.root,
    }
}

/// Whether a meta, if there is one, leads to this place.
fn leads_to(meta: Option<Meta>, place: Place) -> bool
    ensures { result ≡ leads_to meta (place_view place) }
{
    match meta {
        Some(meta) => meta.page_size == place.page_size && meta.root == place.root,
        None => false,
    }
}
