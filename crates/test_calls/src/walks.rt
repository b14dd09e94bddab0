//! What a file holds from a path on, by walks and listings.

use crate::fault::{Fault, require};
use crate::words::Text;
use bolt_check::Checked;
use bolt_report::{ListForm, MemberLines, ReportFault, list, put_member_part};
use bolt_tree::{Members, NoMemory, Walk};
use std::alloc::Global;

/// What is made of a path: the line of each member that a walk from there returns (`walk`); the same,
/// also if a request of the walk is refused (`again`); how long the walk and its paths are (`depths`);
/// or the listing from there (`listed`).
pub fn put_from(
    verb: &str,
    alloc: Global,
    checked: Checked<'_>,
    path: &[&[u8]],
    text: &mut Text,
) -> Result<(), Fault> {
    match verb {
        "again" => put_again(alloc, checked, path, text),
        "listed" => Ok(list(alloc, checked, path, &mut text.sink)?),
        _ => put_walk(verb, Walk::from(alloc, checked, path)?, text),
    }
}

/// What a walk returns, or how long it and its paths are (`depths`).
fn put_walk(verb: &str, mut walk: Walk<'_>, text: &mut Text) -> Result<(), Fault> {
    if verb == "depths" {
        return put_depths(&mut walk, text);
    }
    Ok(put_members(text.alloc, &mut walk, text)?)
}

/// The line of each member. There is no path before the first one and after the last one, and no
/// member if asked again; otherwise a last line says so.
pub fn put_members<'a, M: Members<'a>>(
    alloc: Global,
    members: &mut M,
    text: &mut Text,
) -> Result<(), ReportFault> {
    let begins = members.path().is_empty();
    put_member_part(alloc, members, &[], &[], ListForm::Hex, &mut text.sink)?;
    let ends = members.next()?.is_none() && members.path().is_empty();
    if !begins || !ends {
        text.add(b"a member or a path too many\n");
    }
    Ok(())
}

/// The number of items that a walk returns, the number of keys of the longest of their paths, and
/// the number of keys of all of them.
fn put_depths(walk: &mut Walk<'_>, text: &mut Text) -> Result<(), Fault> {
    let (mut items, mut longest, mut all) = (0_u64, 0, 0_usize);
    for _ in 0..u64::MAX {
        if walk.next()?.is_none() {
            break;
        }
        let keys = walk.path().len();
        items = items.saturating_add(1);
        longest = keys.max(longest);
        all = all.saturating_add(keys);
    }
    text.numbers(&[items, longest as u64, all as u64]);
    Ok(())
}

/// The line of each member from a path on. If a request of the walk is refused, it goes on or begins
/// again, and a last line says so. `tools/refuse/try_calls.py` refuses each request in turn.
fn put_again(
    alloc: Global,
    checked: Checked<'_>,
    path: &[&[u8]],
    text: &mut Text,
) -> Result<(), Fault> {
    match Walk::from(alloc, checked, path) {
        Ok(mut walk) => put_rest(alloc, &mut walk, text),
        Err(NoMemory) => {
            put_rest(alloc, &mut Walk::from(alloc, checked, path)?, text)?;
            text.add(b"refused: a walk begins again\n");
            Ok(())
        }
    }
}

/// Adds the line of each further item, and one more if a request of the walk was refused.
fn put_rest(alloc: Global, walk: &mut Walk<'_>, text: &mut Text) -> Result<(), Fault> {
    let mut lines = MemberLines::new(alloc, ListForm::Hex);
    let mut went_on = false;
    for _ in 0..usize::MAX {
        let before = walk.path().len();
        let mut given = walk.next();
        if given.is_err() {
            require(
                walk.path().len() == before,
                "another path after a refusal",
                before,
            )?;
            given = walk.next();
            went_on = true;
        }
        let Some(item) = given? else { break };
        lines.put(walk.path(), &item, &mut text.sink)?;
    }
    if went_on {
        text.add(b"refused: a walk goes on\n");
    }
    Ok(())
}
