//! Plans and copies through their calls, and listings that are read back.

use crate::fault::Fault;
use crate::walks::put_members;
use crate::words::{Input, Text, number};
use bolt_bulk::{compact, plan};
use bolt_check::Checked;
use bolt_cli::PageSize;
use bolt_format::{MemSink, Sink};
use bolt_load::{LineMembers, ListingText};
use bolt_report::ReportFault;
use bolt_tree::Members;
use std::alloc::Global;

/// A plain copy with pages of a size, which is the one word. Of `plan` the root page and the high-water
/// mark; of `copy` the number of its bytes, the number that its sink accepted, and how many items were
/// held at one time.
pub fn put_copy(
    verb: &str,
    alloc: Global,
    checked: Checked<'_>,
    words: &[String],
    text: &mut Text,
) -> Result<(), Fault> {
    let [size] = words else {
        return Err(Fault::UNREAD);
    };
    let Some(size) = PageSize::new(number(size.as_str())?) else {
        return Err(Fault::UNREAD);
    };
    if verb == "plan" {
        put_plan(alloc, checked, size, text)
    } else {
        put_copied(alloc, checked, size, text)
    }
}

fn put_plan(
    alloc: Global,
    checked: Checked<'_>,
    size: PageSize,
    text: &mut Text,
) -> Result<(), Fault> {
    let Ok(planned) = plan(alloc, checked, size.bytes) else {
        return Err(Fault::UNREAD);
    };
    text.numbers(&[planned.root, planned.high_water]);
    Ok(())
}

fn put_copied(
    alloc: Global,
    checked: Checked<'_>,
    size: PageSize,
    text: &mut Text,
) -> Result<(), Fault> {
    let mut sink = MemSink::new(alloc);
    let Ok(done) = compact(alloc, checked, size.bytes, &mut sink) else {
        return Err(Fault::UNREAD);
    };
    text.numbers(&[done.bytes, sink.bytes().len() as u64, done.held]);
    Ok(())
}

/// The line of each member that the text of a listing tells, which a second pass returns again; or
/// which line of the text is wrong.
pub fn loaded(input: Input<'_>, text: &mut Text) -> Result<(), Fault> {
    let Input { alloc, file, .. } = input;
    match ListingText::read(alloc, file) {
        Ok(listing) => put_twice(alloc, &mut listing.members(alloc), text)?,
        Err(fault) => text.made(format!(in alloc; "{fault}")),
    }
    Ok(())
}

/// The line of each member. A second pass returns them again; otherwise a last line says so.
fn put_twice(
    alloc: Global,
    members: &mut LineMembers<'_>,
    text: &mut Text,
) -> Result<(), ReportFault> {
    put_members(alloc, members, text)?;
    members.restart(alloc)?;
    let mut again = Text::new(alloc);
    put_members(alloc, members, &mut again)?;
    if text.sink.bytes() != again.sink.bytes() {
        text.add(b"another second pass\n");
    }
    Ok(())
}
