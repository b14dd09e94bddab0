//! The tests of the content of a page.
ghost use Rattle.std.specs.Prelude.{◌≡◌};
ghost use Rattle.std.specs.Result.{result_err};
ghost use Rattle.bolt_format.specs.{Elements.branches_fault, Elements.leaves_fault, Elements.value_fault, Pages.content_fault};

use crate::bucket_value::test_bucket_value;
use crate::element::{is_bucket, test_branch, test_leaf, test_table};
use crate::header::Kind;

/// Tests the content of a page: its elements, if it is a branch or a leaf.
pub(crate) fn test_content(kind: Kind, bytes: &[u8], count: u16) -> Result<(), u8>
    ensures { result_err result ≡ content_fault kind count bytes.now }
{
    match kind {
        Kind::Branch => test_branches(bytes, count),
        Kind::Leaf => test_leaves(bytes, count),
        Kind::Meta => Ok(()),
        Kind::Freelist => Ok(()),
    }
}

#[tactic(auto, using(crate::proofs::FaultLemmas::faults_from_step, crate::proofs::FaultLemmas::faults_from_end), unfolding(crate::specs::Elements::branches_fault))]
fn test_branches(bytes: &[u8], count: u16) -> Result<(), u8>
    ensures { result_err result ≡ branches_fault bytes.now count }
{
    let mut free = test_table(bytes, count)?;
    for i in 0..count {
        free = test_branch(bytes, free, i)?;
    }
    Ok(())
}

#[tactic(auto, using(crate::proofs::FaultLemmas::faults_from_step, crate::proofs::FaultLemmas::faults_from_end), unfolding(crate::specs::Elements::leaves_fault))]
fn test_leaves(bytes: &[u8], count: u16) -> Result<(), u8>
    ensures { result_err result ≡ leaves_fault value_fault bytes.now count }
{
    let mut free = test_table(bytes, count)?;
    for i in 0..count {
        let place = test_leaf(bytes, free, i)?;
        if is_bucket(bytes, i) {
            test_bucket_value(&bytes[place.value..place.end])?;
        }
        free = place.end;
    }
    Ok(())
}
