//! Opens a freelist page: tests it, and gives its ids.
ghost use Rattle.std.specs.Prelude.{◌≡◌, ◌+◌, ◌*◌, ◌≤◌, length, nat_lt, if◌then◌else◌, IfErr, IfOk, None, OnOk, Some};
ghost use Rattle.std.specs.Option.{option_map};
ghost use Rattle.std.specs.Result.{result_err};
ghost use Rattle.bolt_format.specs.Freelists.{free_ids_at, free_ids_of, freelist_fault, freelist_fault_of, ids_fault, ids_from, ids_start, id_count};
ghost use Rattle.bolt_format.specs.ShownIds.{shown_ids};

use crate::bytes::u64_at;
use crate::header::{HEADER_LEN, Kind};
use crate::ids::FreeIds;
use crate::meta::{Meta, NO_FREELIST};
use crate::open_page::{known_span, test_span};
use crate::page_fault::PageFault;

/// The count in the header if the number of ids is in the first 8 bytes.
const LONG_COUNT: u16 = 0xFFFF;
/// The bytes before the ids in that form.
const LONG_START: usize = 24;

/// The ids of the freelist that a meta names (docs/FORMAT.md, "Freelist page"), or `None` if no
/// freelist was written.
///
/// # Errors
///
/// Those of `free_ids_at` of the freelist's page number.
pub fn free_ids<'a>(file: &'a [u8], meta: &Meta) -> Result<Option<FreeIds<'a>>, PageFault>
    ensures ids { IfOk result (λ found. option_map shown_ids found
        ≡ free_ids_of file.now meta.now) }
    ensures good { OnOk result (freelist_fault_of file.now meta.now ≡ None) }
    ensures fault { IfErr result (λ fault. (freelist_fault_of file.now meta.now ≡ Some fault.number)
        × (fault.page ≡ meta.now.freelist)) }
{
    if meta.freelist == NO_FREELIST {
        return Ok(None);
    }
    Ok(Some(free_ids_at(file, meta, meta.freelist)?))
}

/// The ids of page `id` of a file under a meta, which may name another freelist or none.
///
/// # Errors
///
/// The first test of its number, header and span that the page fails; `PAGE_KIND` if it isn't a
/// freelist; `ELEMENT_CUT` if its ids go past its span. The fault has the page number `id`.
pub fn free_ids_at<'a>(file: &'a [u8], meta: &Meta, id: u64) -> Result<FreeIds<'a>, PageFault>
    ensures ids { IfOk result (λ ids. shown_ids ids ≡ free_ids_at file.now meta.now id) }
    ensures good { OnOk result (freelist_fault file.now meta.now id ≡ None) }
    ensures fault { IfErr result (λ fault. (freelist_fault file.now meta.now id ≡ Some fault.number)
        × (fault.page ≡ id)) }
{
    ids_of_page(file, meta, id).map_err(|code| PageFault {
        number: code,
        page: id,
    })
}

/// Reads page `id` as a freelist.
#[tactic(auto, unfolding(crate::specs::Freelists::freelist_fault, crate::specs::Freelists::free_ids_at))]
fn ids_of_page<'a>(file: &'a [u8], meta: &Meta, id: u64) -> Result<FreeIds<'a>, u8>
    ensures fault { result_err result ≡ freelist_fault file.now meta.now id }
    ensures ids { IfOk result (λ ids. shown_ids ids ≡ free_ids_at file.now meta.now id) }
{
    test_span(file, meta, id)?;
    let span = known_span(file, meta, id);
    if span.kind != Kind::Freelist {
        return Err(PageFault::PAGE_KIND);
    }
    ids_in(span.bytes, span.count)
}

/// The ids in the span of a freelist page.
#[tactic(auto, unfolding(crate::specs::Freelists::ids_fault, crate::specs::ShownIds::shown_ids))]
fn ids_in(bytes: &[u8], count: u16) -> Result<FreeIds<'_>, u8>
    ensures fault { result_err result ≡ ids_fault count bytes.now }
    ensures ids { IfOk result (λ ids. shown_ids ids
        ≡ ids_from bytes.now (ids_start count) (id_count count bytes.now)) }
{
    if count != LONG_COUNT {
        return ids_within(bytes, HEADER_LEN, u64::from(count));
    }
    if bytes.len() < LONG_START {
        return Err(PageFault::ELEMENT_CUT);
    }
    ids_within(bytes, LONG_START, u64_at(bytes, HEADER_LEN))
}

/// The `len` ids from byte `start` on.
#[tactic(auto, unfolding(crate::specs::ShownIds::shown_ids))]
fn ids_within(bytes: &[u8], start: usize, len: u64) -> Result<FreeIds<'_>, u8>
    requires { start ≤ 24 }
    ensures fault { result_err result ≡
        (if nat_lt (length bytes.now) (start + 8 * len) then Some PageFault.ELEMENT_CUT else None) }
    ensures ids { IfOk result (λ ids. shown_ids ids ≡ ids_from bytes.now start len) }
{
    if start as u128 + 8 * u128::from(len) > bytes.len() as u128 {
        return Err(PageFault::ELEMENT_CUT);
    }
    Ok(FreeIds {
        bytes,
        start,
        len: len as usize,
    })
}
