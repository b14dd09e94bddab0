//! Opens a page: tests its number, its header, its span and its content; the first test that fails
//! is the fault.
ghost use Rattle.std.specs.Prelude.{◌≡◌, ◌+◌, ◌*◌, ◌<◌, ◌^◌, IfErr, IfOk, IsSome, None, OnErr, OnOk, Some};
ghost use Rattle.std.specs.Result.{result_err};
ghost use Rattle.bolt_format.specs.{Pages.IsInFile, Pages.page_at, Pages.page_fault, Pages.span_fault, ShownGoodPages.shown};
ghost use Rattle.bolt_format.specs.Private.Spans.{IsSpan, IsWithin};

use crate::content_tests::test_content;
use crate::good_page::Page;
use crate::header::{Header, Kind};
use crate::meta::Meta;
use crate::page_fault::PageFault;

/// The bytes of a page's span, and the fields of its header.
#[derive(Clone, Copy)]
pub(crate) struct Span<'a> {
    pub kind: Kind,
    pub count: u16,
    pub overflow: u32,
    pub bytes: &'a [u8],
}

/// Opens page `id` of a file under a meta (docs/FORMAT.md, "The tests of a page").
///
/// # Errors
///
/// The first test that the page fails.
pub fn page<'a>(file: &'a [u8], meta: &Meta, id: u64) -> Result<Page<'a>, PageFault>
    ensures good { IfOk result (λ page. page_at file.now meta.now id ≡ Some (shown page)) }
    ensures within { IfOk result (λ page. IsInFile file.now meta.now id (shown page)) }
    ensures fault { IfErr result (λ fault. (page_fault file.now meta.now id ≡ Some fault.number)
        × (fault.page ≡ id)) }
    ensures none { OnErr result (page_at file.now meta.now id ≡ None) }
{
    page_or_code(file, meta, id).map_err(|code| PageFault {
        number: code,
        page: id,
    })
}

/// Opens the same page, but tests nothing. The page is known to be good.
#[tactic(auto, using(crate::proofs::GoodPages::good_fault, crate::proofs::GoodPages::good_content_at), unfolding(crate::specs::Pages::page_at, crate::specs::ShownGoodPages::shown))]
pub fn known<'a>(file: &'a [u8], meta: &Meta, id: u64) -> Page<'a>
    requires { IsSome (page_at file.now meta.now id) }
    ensures { page_at file.now meta.now id ≡ Some (shown result) }
{
    let span = known_span(file, meta, id);
    Page {
        kind: span.kind,
        count: span.count,
        overflow: span.overflow,
        span: span.bytes,
    }
}

#[tactic(auto, unfolding(crate::specs::Pages::page_at, crate::specs::Pages::page_fault, crate::specs::ShownGoodPages::shown))]
fn page_or_code<'a>(file: &'a [u8], meta: &Meta, id: u64) -> Result<Page<'a>, u8>
    ensures good { IfOk result (λ page. page_at file.now meta.now id ≡ Some (shown page)) }
    ensures within { IfOk result (λ page. IsInFile file.now meta.now id (shown page)) }
    ensures fault { IfErr result (λ fault. page_fault file.now meta.now id ≡ Some fault) }
    ensures none { OnErr result (page_at file.now meta.now id ≡ None) }
{
    test_span(file, meta, id)?;
    let span = known_span(file, meta, id);
    test_content(span.kind, span.bytes, span.count)?;
    Ok(Page {
        kind: span.kind,
        count: span.count,
        overflow: span.overflow,
        span: span.bytes,
    })
}

/// The byte at which a page begins.
fn page_start(page: u128, meta: &Meta) -> u128
    requires { page < 2 ^ 65 }
    ensures { result ≡ page * meta.now.page_size }
{
    page * u128::from(meta.page_size)
}

/// Tests a page's number, its header and its span.
#[tactic(auto, unfolding(crate::specs::Pages::span_fault))]
pub(crate) fn test_span(file: &[u8], meta: &Meta, id: u64) -> Result<(), u8>
    ensures fault { result_err result ≡ span_fault file.now meta.now id }
    ensures within { OnOk result (IsWithin file.now meta.now id) }
{
    let file_len = file.len() as u128;
    if id >= meta.high_water {
        return Err(PageFault::RANGE);
    }
    let start = page_start(u128::from(id), meta);
    if start + 16 > file_len {
        return Err(PageFault::CUT);
    }
    let header = Header::read(&file[start as usize..]);
    if header.id != id {
        return Err(PageFault::ID);
    }
    if header.kind().is_none() {
        return Err(PageFault::PAGE_KIND);
    }
    let last = u128::from(id) + u128::from(header.overflow);
    if last >= u128::from(meta.high_water) {
        return Err(PageFault::RANGE);
    }
    if page_start(last + 1, meta) > file_len {
        return Err(PageFault::CUT);
    }
    Ok(())
}

/// The span of a page whose number, header and span passed their tests.
pub(crate) fn known_span<'a>(file: &'a [u8], meta: &Meta, id: u64) -> Span<'a>
    requires { IsWithin file.now meta.now id }
    ensures { IsSpan file.now meta.now id result }
{
    let start = page_start(u128::from(id), meta);
    let header = Header::read(&file[start as usize..]);
    let last = u128::from(id) + u128::from(header.overflow);
    let end = page_start(last + 1, meta);
    Span {
        kind: header.kind().unwrap(),
        count: header.count,
        overflow: header.overflow,
        bytes: &file[start as usize..end as usize],
    }
}
