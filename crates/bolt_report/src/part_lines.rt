//! The text of what a file lists: all of it, from a path on, or below one.
ghost use Rattle.std.specs.Prelude.{◌≡◌, ◌&&◌, IfErr, IfOk, OnOk, not};
ghost use Rattle.std.specs.Ordering.{is_lt};
ghost use Rattle.bolt_format.specs.Wrote.{Wrote};
ghost use Rattle.bolt_tree.specs.{FileListings.ForListing};
ghost use Rattle.bolt_tree.specs.{ListingParts.begins_with, ListingParts.has_bucket, ListingParts.is_bucket_at, ListingParts.later_path};
ghost use Rattle.bolt_tree.specs.{Paths.path_cmp, Paths.path_of, ShownEntries.item_view};
ghost use Rattle.bolt_report.specs.PartLines.{bucket_lines, lines_below, lines_while_below, rest_text};
ghost use Rattle.bolt_text.specs.ListForms.{lines_form};
ghost use Rattle.bolt_text.specs.ReportEndings.{FailsByWriting, report_ending};
ghost use Rattle.bolt_report.specs.MembersLeft.{ForLeft, ForRising};

use bolt_check::Checked;
use bolt_format::Sink;
use bolt_text::{ListForm, MemberLines, ReportFault, is_before, is_below};
use bolt_tree::{Item, Members, Walk};
use std::alloc::Global;

/// Writes a line for each path of a file that doesn't come before `from`, with its value or the
/// sequence of its bucket, in the order of paths (docs/LISTING.md). A line needs no memory.
///
/// # Errors
///
/// As `ReportFault` says. Memory may run out for the walk, which goes on after the last line: so the
/// sink may have accepted all of the text then.
pub fn list<S: Sink>(
    alloc: Global,
    checked: Checked<'_>,
    from: &[&[u8]],
    sink: &mut S,
) -> Result<(), ReportFault>
    ensures written { ForListing checked.entry (λ listing.
        Wrote S.Sink sink.old sink.new (rest_text from.now listing) (report_ending result)) }
    ensures fault { IfErr result FailsByWriting }
{
    put_list_part(alloc, checked, &[], from, ListForm::Hex, sink)
}

/// Writes a line in a form for each path of a file that begins with `below` and doesn't come before
/// `from` (docs/LISTING.md, "The part below a path"): of every path if both are empty. The member
/// at `below` comes first. If no path begins with `below`, the text is empty. It opens the pages on
/// the way to the first line and reads on to the first path that doesn't begin with `below`. Only
/// lines in the form `Json` need memory.
///
/// # Errors
///
/// As `ReportFault` says. Memory may run out for a line in the form `Json`, or for the walk, which goes
/// on after the last line: so the sink may have accepted all of the text then.
pub fn put_list_part<S: Sink>(
    alloc: Global,
    checked: Checked<'_>,
    below: &[&[u8]],
    from: &[&[u8]],
    form: ListForm,
    sink: &mut S,
) -> Result<(), ReportFault>
    ensures written { ForListing checked.entry (λ all.
        Wrote S.Sink sink.old sink.new (lines_below form from.now below.now all)
        (report_ending result)) }
    ensures fault { IfErr result FailsByWriting }
{
    let mut walk = Walk::from(alloc, checked, later_of(from, below))?;
    put_part(&mut walk, below, &mut MemberLines::new(alloc, form), sink)
}

/// Writes a line in a form for each member that is left, begins with `below` and doesn't come before
/// `from`, as `put_list_part` does, with its errors. If it returns `Ok`, it has taken all members, and the
/// result says whether what was left has the bucket at `below`: always if `below` is empty. If the
/// result is `false`, the text is empty, even if there is a value at `below`.
pub fn put_member_part<'a, M: Members<'a>, S: Sink>(
    alloc: Global,
    members: &mut M,
    below: &[&[u8]],
    from: &[&[u8]],
    form: ListForm,
    sink: &mut S,
) -> Result<bool, ReportFault>
    ensures written { ForRising M.reads M.left members.old (λ left.
        Wrote S.Sink sink.old sink.new (bucket_lines form from.now below.now left)
        (report_ending result)) }
    ensures found { IfOk result (λ found.
        ForLeft M.reads M.left members.old (λ left. found ≡ has_bucket (path_of below.now) left)) }
    ensures end { OnOk result (M.ends_as members.old members.new) }
    ensures fault { IfErr result FailsByWriting }
{
    let mut lines = MemberLines::new(alloc, form);
    put_bucket_part(members, below, from, &mut lines, sink)
}

/// Writes a line for each member that is left, up to the first whose path doesn't begin with
/// `below`.
fn put_part<'a, M: Members<'a>, S: Sink>(
    members: &mut M,
    below: &[&[u8]],
    lines: &mut MemberLines,
    sink: &mut S,
) -> Result<(), ReportFault>
    ensures written { ForLeft M.reads M.left members.old (λ left.
        Wrote S.Sink sink.old sink.new (lines_while_below (lines_form lines.old) below.now left)
        (report_ending result)) }
    ensures fault { IfErr result FailsByWriting }
{
    'part: while let Some(item) = members.next()? {
        if !is_below(members.path(), below) {
            return Ok(());
        }
        lines.put(members.path(), &item, sink)?;
    }
    Ok(())
}

/// Returns all members that are left, and writes a line for each from the bucket at `below` on that
/// begins with `below` and doesn't come before `from`. Returns whether that bucket was among them.
fn put_bucket_part<'a, M: Members<'a>, S: Sink>(
    members: &mut M,
    below: &[&[u8]],
    from: &[&[u8]],
    lines: &mut MemberLines,
    sink: &mut S,
) -> Result<bool, ReportFault>
    ensures written { ForRising M.reads M.left members.old (λ left.
        Wrote S.Sink sink.old sink.new (bucket_lines (lines_form lines.old) from.now below.now left)
        (report_ending result)) }
    ensures found { IfOk result (λ found.
        ForLeft M.reads M.left members.old (λ left. found ≡ has_bucket (path_of below.now) left)) }
    ensures end { OnOk result (M.ends_as members.old members.new) }
    ensures fault { IfErr result FailsByWriting }
{
    let mut found = below.is_empty();
    'part: while let Some(item) = members.next()? {
        found |= is_bucket_at(members.path(), &item, below);
        if found && is_in_part(members.path(), below, from) {
            lines.put(members.path(), &item, sink)?;
        }
    }
    Ok(found)
}

/// The later of two paths.
fn later_of<'p, 'a>(one: &'p [&'a [u8]], other: &'p [&'a [u8]]) -> &'p [&'a [u8]]
    ensures { path_of result.now ≡ later_path (path_of one.now) (path_of other.now) }
{
    if is_before(one, other) { other } else { one }
}

/// Whether a path begins with another and doesn't come before a third.
fn is_in_part(path: &[&[u8]], below: &[&[u8]], from: &[&[u8]]) -> bool
    ensures { result ≡ (begins_with (path_of below.now) (path_of path.now)
        && not (is_lt (path_cmp (path_of path.now) (path_of from.now)))) }
{
    is_below(path, below) && !is_before(path, from)
}

/// Whether a member is the bucket at a path.
#[tactic(auto, using(bolt_text::proofs::Exports::parts))]
pub(crate) fn is_bucket_at(path: &[&[u8]], item: &Item<'_>, bucket: &[&[u8]]) -> bool
    ensures { result ≡ is_bucket_at (path_of bucket.now) (path_of path.now, item_view item.now) }
{
    path == bucket && matches!(item, Item::Bucket { .. })
}
