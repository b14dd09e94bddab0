//! What members hold at a path.
ghost use Rattle.std.specs.Option.{IfNone};
ghost use Rattle.std.specs.Prelude.{◌≡◌, IfOk, IfSome, List, OnOk, ℕ};
ghost use Rattle.bolt_tree.specs.{Entries.Value, Listing.Member, Paths.path_of, ShownEntries.item_view};
ghost use Rattle.bolt_report.specs.{AtPaths.HoldsNow, MembersLeft.ForLeft};

use crate::part_lines::is_bucket_at;
use bolt_check::NoMemory;
use bolt_text::path_above;
use bolt_tree::{Item, Members};

/// What members hold at a path.
#[derive(Clone, Copy)]
pub struct AtPath<'a> {
    /// The value, if there is one.
    pub value: Option<&'a [u8]>,
    /// Whether the bucket is there that it would be in.
    pub has_bucket: bool,
}

/// What the members that are left hold at a path. All are returned.
///
/// # Errors
///
/// `NoMemory` if memory runs out. Then some of them may have been returned.
pub fn look_up<'a, M: Members<'a>>(members: &mut M, path: &[&[u8]]) -> Result<AtPath<'a>, NoMemory>
    ensures held { IfOk result (λ at.
        ForLeft M.reads M.left members.old (λ left. HoldsNow left (path_of path.now) at)) }
    ensures end { OnOk result (M.ends_as members.old members.new) }
{
    let parents = path_above(path);
    let mut value = None;
    let mut has_bucket = parents.is_empty();
    'members: while let Some(item) = members.next()? {
        has_bucket |= is_bucket_at(members.path(), &item, parents);
        value = value_at(members.path(), &item, path).or(value);
    }
    Ok(AtPath { value, has_bucket })
}

/// The value of a member, if it is one at this path.
fn value_at<'a>(path: &[&[u8]], item: &Item<'a>, wanted: &[&[u8]]) -> Option<&'a [u8]>
    ensures some { IfSome result (λ value.
        ◌≡◌ {A = Member} (path_of path.now, item_view item.now)
        (path_of wanted.now, Value value.now)) }
    ensures none { IfNone result ((value : List ℕ)
        → ◌≡◌ {A = Member} (path_of path.now, item_view item.now) (path_of wanted.now, Value value)
        → ⊥) }
{
    match item {
        Item::Value(value) if path == wanted => Some(value),
        _ => None,
    }
}
