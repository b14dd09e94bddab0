//! The text of a listing: its lines are tested, also that their paths rise and that each stands below
//! the line of its bucket.
ghost use Rattle.std.specs.List.{All};
ghost use Rattle.std.specs.Prelude.{◌≡◌, ◌<◌, ◌≤◌, [], IfErr, IfOk, None, OnOk, length};
ghost use Rattle.bolt_tree.specs.{Paths.path_of};
ghost use Rattle.bolt_load.specs.LineFaults.{IsFaultOfLines, IsListingText, IsLoadFault, RightAfter, shape_fault};
ghost use Rattle.bolt_load.specs.declared.load_fault.LineFault.TheVariants.{CutOff};
ghost use Rattle.bolt_load.specs.declared.load_fault.LoadFault.TheVariants.{Line};
ghost use Rattle.bolt_text.specs.{Lines.lines_of};
ghost use Rattle.bolt_load.specs.{Private.Decoding.AreDecoded, Private.OpenPaths.fault_after, declared.load_fault.LineFault.LineFault};
ghost use Rattle.bolt_load.specs.Private.OpenPaths as open_paths;

use crate::decode::decode;
use crate::line_members::LineMembers;
use crate::load_fault::{LineFault, LoadFault};
use bolt_text::{is_before, is_below, path_above};
use bolt_tree::{Item, Members};
use std::alloc::Global;

/// The text of a listing, each line of which was tested.
#[derive(Drop)]
pub struct ListingText<'a> {
    text: &'a [u8],
    /// What the text has in hexadecimal.
    bytes: Vec<u8>,
    ghost decoded: { AreDecoded (lines_of text.now) bytes.items },
    ghost right: { ∥ IsListingText text.now ∥₁ },
}

#[tactic(auto, unfolding(crate::specs::ShownMembers::read_text))]
impl<'a> ListingText<'a> {
    ghost use Rattle.bolt_load.specs.ShownMembers.{members_left, members_path, members_text, read_text};

    /// Tests the lines of a text, and decodes what they have in hexadecimal. It needs less than half
    /// as many bytes as the text has.
    ///
    /// # Errors
    ///
    /// `Line` with the first line that isn't right, and what is wrong with it; `Memory` if memory
    /// runs out.
    pub fn read(alloc: Global, text: &'a [u8]) -> Result<ListingText<'a>, LoadFault>
        ensures text { IfOk result (λ listing. read_text listing ≡ text.now) }
        ensures right { OnOk result (IsListingText text.now) }
        ensures fault { IfErr result (IsLoadFault text.now) }
    {
        let decoded = decode(alloc, text)?;
        let lines = test_places(alloc, decoded.text, decoded.bytes.as_slice())?;
        if let Some(fault) = decoded.fault {
            return Err(LoadFault::Line {
                line: lines + 1,
                fault,
            });
        }
        if !text.ends_with(b"\n") {
            return Err(LoadFault::Line {
                line: lines.max(1),
                fault: LineFault::CutOff,
            });
        }
        Ok(ListingText {
            text,
            bytes: decoded.bytes,
        })
    }

    /// The members that the lines tell, in the order of their paths.
    pub fn members(&self, alloc: Global) -> LineMembers<'_>
        ensures text { members_text result ≡ read_text self.now }
        ensures left { members_left result ≡ read_text self.now }
        ensures path { members_path result ≡ [] }
        ensures right { ∥ IsListingText (read_text self.now) ∥₁ }
    {
        LineMembers::new(alloc, self.text, self.bytes.as_slice())
    }
}

/// Whether a member may be in the bucket at a path: one that the last path goes through, or that it
/// is the path of.
fn is_open(last: &[&[u8]], is_bucket: bool, above: &[&[u8]]) -> bool
    ensures { result ≡ open_paths.is_open (path_of last.now) is_bucket (path_of above.now) }
{
    is_below(last, above) && (above.len() < last.len() || is_bucket)
}

/// What is wrong with the place of a path after the last one.
fn place_fault(last: &[&[u8]], is_bucket: bool, path: &[&[u8]]) -> Option<LineFault>
    requires { 0 < length path.now }
    ensures { result ≡ fault_after (path_of last.now) is_bucket (path_of path.now) }
{
    if !is_before(last, path) {
        return Some(LineFault::PathNotRising);
    }
    if !is_open(last, is_bucket, path_above(path)) {
        return Some(LineFault::NoBucketAbove);
    }
    None
}

/// Tests the place of each of these lines, whose bytes these are. Returns the number of lines.
pub(crate) fn test_places(alloc: Global, text: &[u8], bytes: &[u8]) -> Result<u64, LoadFault>
    requires decoded { AreDecoded (lines_of text.now) bytes.now }
    requires shaped { All (λ line. shape_fault line ≡ None) (lines_of text.now) }
    ensures lines { IfOk result (λ lines. lines ≡ length (lines_of text.now)) }
    ensures few { IfOk result (λ lines. lines ≤ length text.now) }
    ensures right { OnOk result (RightAfter [] (lines_of text.now)) }
    ensures fault { IfErr result (IsFaultOfLines text.now) }
{
    let mut members = LineMembers::new(alloc, text, bytes);
    let mut line: u64 = 0;
    let mut is_bucket = true;
    while let Some(item) = members.advance()? {
        line += 1;
        if let Some(fault) = place_fault(members.path_before(), is_bucket, members.path()) {
            return Err(LoadFault::Line { line, fault });
        }
        is_bucket = matches!(item, Item::Bucket { .. });
    }
    Ok(line)
}
