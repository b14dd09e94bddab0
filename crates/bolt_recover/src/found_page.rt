//! Found pages: intact leaves that nothing leads to, and their names.
ghost use Rattle.std.specs.Prelude.{◌≡◌};
ghost use Rattle.bolt_recover.specs.PageKeys.{page_key};

use bolt_format::LeafPage;

/// A page that is found though nothing leads to it: an intact leaf (docs/RECOVERY.md, "Found pages").
#[derive(Clone, Copy)]
pub struct FoundPage<'a> {
    /// The number of the page.
    pub number: u64,
    /// The number in sixteen decimal digits: the key of the page's bucket in the joined listing.
    pub name: [u8; 16],
    /// The page. It has an element.
    pub page: LeafPage<'a>,
    pub ghost named: { name ≡ page_key number },
}

/// The last sixteen decimal digits of a number.
fn page_digits(number: u64) -> [u8; 16]
    ensures { result ≡ page_key number }
{
    let mut digits = [b'0'; 16];
    let mut rest = number;
    for i in 0..16 {
        digits[15 - i] = b'0' + (rest % 10) as u8;
        rest /= 10;
    }
    digits
}

impl<'a> FoundPage<'a> {
    /// A found page with its name.
    pub(crate) fn new(number: u64, page: LeafPage<'a>) -> FoundPage<'a>
        ensures number { result.number ≡ number }
        ensures page { result.page ≡ page.entry }
    {
        FoundPage {
            number,
            name: page_digits(number),
            page,
        }
    }
}
