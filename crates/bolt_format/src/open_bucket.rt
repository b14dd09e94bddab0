//! Reads the value of a bucket on a page that passed its tests.
ghost use Rattle.std.specs.Prelude.{◌≡◌};
ghost use Rattle.bolt_format.specs.{Elements.IsBucketValue, Elements.head_root, Elements.head_sequence, Elements.inline_elements};
ghost use Rattle.bolt_format.specs.{Elements.inline_number, Gaps.inline_gap, Gaps.shown_inline_gap, ShownInline.shown_inline};
ghost use Rattle.bolt_format.specs.{TreePages.leaf_overflow};

use crate::bucket_value::{HEAD_LEN, Head, Inline};
use crate::bytes::u64_at;
use crate::header::Header;
use crate::tree_page::LeafPage;

/// The root page and the sequence of a bucket, from its value. The value is that of a bucket on a
/// good page.
#[tactic(auto, using(crate::proofs::GoodPages::good_head))]
pub fn head(value: &[u8]) -> Head
    requires { IsBucketValue value.now }
    ensures root { result.root ≡ head_root value.now }
    ensures sequence { result.sequence ≡ head_sequence value.now }
{
    Head {
        root: u64_at(value, 0),
        sequence: u64_at(value, 8),
    }
}

/// The page of an inline bucket, from its value. The value is that of a bucket on a good page, and
/// its root is 0.
#[tactic(auto, using(crate::proofs::GoodPages::good_inline, crate::proofs::GoodPages::flat_elements), unfolding(crate::specs::TreePages::leaf_overflow, crate::specs::Elements::inline_number))]
pub fn inline(value: &[u8]) -> Inline<'_>
    requires bucket { IsBucketValue value.now }
    requires inline { head_root value.now ≡ 0 }
    ensures elements { shown_inline result ≡ inline_elements value.now }
    ensures number { result.number ≡ inline_number value.now }
    ensures gap { shown_inline_gap result ≡ inline_gap value.now }
    ensures overflow { leaf_overflow result.page ≡ 0 }
{
    let bytes = &value[HEAD_LEN..];
    let header = Header::read(bytes);
    Inline {
        number: header.id,
        page: LeafPage {
            count: header.count,
            overflow: 0,
            bytes,
        },
    }
}
