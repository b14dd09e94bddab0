//! The keys in a bucket of a listing as a text, member by member.
ghost use Rattle.std.specs.Prelude.{◌≡◌, IfErr, IfOk, OnOk, option_map};
ghost use Rattle.bolt_format.specs.Wrote.{Wrote};
ghost use Rattle.bolt_report.specs.MemberNames.{is_wanted, key_in, asked_name, asked_names};
ghost use Rattle.bolt_text.specs.ReportEndings.{FailsByWriting, FailsByWritingJson, report_ending};
ghost use Rattle.bolt_tree.specs.{ListingParts.has_bucket};
ghost use Rattle.bolt_tree.specs.{Paths.path_of, ShownEntries.item_view};
ghost use Rattle.bolt_report.specs.MembersLeft.{ForLeft, ForRising};

use crate::part_lines::is_bucket_at;
use bolt_format::Sink;
use bolt_text::{Form, ItemWriter, ReportFault};
use bolt_tree::{Item, Members};
use std::alloc::Global;

/// Which entries of a bucket are named.
#[derive(Clone, Copy)]
pub enum Names<'q> {
    /// The entries whose keys begin with these bytes.
    BeginningWith(&'q [u8]),
    /// The buckets.
    Buckets,
}

/// Which names are written: those of entries of the bucket at a path.
#[derive(Clone, Copy)]
pub struct NamesIn<'q> {
    /// The path of the bucket, from the root bucket down.
    pub bucket: &'q [&'q [u8]],
    pub names: Names<'q>,
}

/// Writes the names that are asked for of the members that are left, in a form, a line for each, in
/// byte order. If it returns `Ok`, it has taken all members, and the result says whether what was
/// left has the bucket. If the result is `false`, the text is empty.
///
/// # Errors
///
/// As `ReportFault` says. Memory may run out for a text in the form `Json`, or for the members, all of
/// which are taken: so the sink may have accepted all of the text then.
pub fn put_member_names<'a, M: Members<'a>, S: Sink>(
    alloc: Global,
    members: &mut M,
    asked: NamesIn<'_>,
    form: Form,
    sink: &mut S,
) -> Result<bool, ReportFault>
    ensures written { ForRising M.reads M.left members.old (λ left.
        Wrote S.Sink sink.old sink.new (asked_names form asked.entry left) (report_ending result)) }
    ensures found { IfOk result (λ found.
        ForLeft M.reads M.left members.old (λ left.
        found ≡ has_bucket (path_of asked.entry.bucket.now) left)) }
    ensures end { OnOk result (M.ends_as members.old members.new) }
    ensures fault { IfErr result FailsByWriting }
{
    let mut items = ItemWriter::new(alloc, form);
    let mut found = asked.bucket.is_empty();
    'members: while let Some(item) = members.next()? {
        found |= is_bucket_at(members.path(), &item, asked.bucket);
        if found {
            put_name(members.path(), &item, asked, &mut items, sink)?;
        }
    }
    Ok(found)
}

/// Writes the name of a member, if it is asked for.
fn put_name<S: Sink>(
    path: &[&[u8]],
    item: &Item<'_>,
    asked: NamesIn<'_>,
    items: &mut ItemWriter,
    sink: &mut S,
) -> Result<(), ReportFault>
    ensures form { items.new.form ≡ items.old.form }
    ensures written { Wrote S.Sink sink.old sink.new
        (asked_name items.old.form asked.entry (path_of path.now, item_view item.now))
        (report_ending result) }
    ensures fault { IfErr result (FailsByWritingJson items.old.form) }
{
    match key_in(path, asked.bucket) {
        Some(key) if is_wanted(key, item, asked.names) => items.put_line(key, sink),
        _ => Ok(()),
    }
}

/// Whether an entry of the bucket is to be named.
fn is_wanted(key: &[u8], item: &Item<'_>, names: Names<'_>) -> bool
    ensures { result ≡ is_wanted names.entry key.now (item_view item.now) }
{
    match names {
        Names::BeginningWith(prefix) => key.starts_with(prefix),
        Names::Buckets => matches!(item, Item::Bucket { .. }),
    }
}

/// The key of a path in a bucket: its last part, if those before it are the bucket's path.
fn key_in<'a>(path: &[&'a [u8]], bucket: &[&[u8]]) -> Option<&'a [u8]>
    ensures { option_map (λ key. key.now) result ≡ key_in (path_of bucket.now) (path_of path.now) }
{
    match path.split_last() {
        Some((key, parents)) if bucket == parents => Some(key),
        _ => None,
    }
}
