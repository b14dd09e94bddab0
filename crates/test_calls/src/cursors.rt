//! Calls on a cursor, and their results.

use crate::fault::{Fault, require};
use crate::words::{Text, bytes_of};
use bolt_format::{MemSink, Sink};
use bolt_report::{Form, put_keys_with_prefix};
use bolt_tree::{Bucket, Cursor, Entry};
use std::alloc::Global;

/// The results of calls on a new cursor of a bucket, one after another: the key of each result
/// (`moves`); the same, and how many pages were opened until then (`opens`); or whether keys were
/// compared (`compares`).
pub fn run_calls(
    verb: &str,
    alloc: Global,
    bucket: &Bucket<'_>,
    calls: &[String],
    text: &mut Text,
) -> Result<(), Fault> {
    let mut cursor = bucket.cursor();
    for call in calls {
        let before = cursor.compared();
        let found = make_call(alloc, &mut cursor, call.as_str())?;
        let compared = cursor.compared();
        require(
            compared <= 1024,
            "more than 1024 comparisons",
            text.sink.bytes().len(),
        )?;
        if verb == "compares" {
            text.word(amount(before, compared));
        } else {
            put_key(found, text);
        }
        if verb == "opens" {
            text.add(b":");
            text.digits(cursor.opened());
        }
    }
    Ok(())
}

/// The result of a call: `first`, `last`, `next`, `prev`, or `seek=KEY`.
fn make_call<'a>(
    alloc: Global,
    cursor: &mut Cursor<'a>,
    call: &str,
) -> Result<Option<Entry<'a>>, Fault> {
    match call {
        "first" => Ok(cursor.first()),
        "last" => Ok(cursor.last()),
        "next" => Ok(cursor.next()),
        "prev" => Ok(cursor.prev()),
        _ => match call.strip_prefix("seek=") {
            Some(key) => Ok(cursor.seek(bytes_of(alloc, key)?.as_slice())),
            None => Err(Fault::UNREAD),
        },
    }
}

fn put_key(found: Option<Entry<'_>>, text: &mut Text) {
    match found {
        Some(entry) => text.word(entry.key),
        None => text.word(b"-"),
    }
}

/// Whether keys were compared: `none`, as many as were printed before (`same`), `some`, which a way of
/// two pages allows, or `many`.
fn amount(before: u64, compared: u64) -> &'static [u8] {
    match compared {
        0 => b"none",
        _ if compared == before => b"same",
        2..=32 => b"some",
        _ => b"many",
    }
}

/// For each of the words, how many pages are opened for the keys that begin with it; and these keys, as
/// they are.
pub fn run_prefixes(
    alloc: Global,
    bucket: &Bucket<'_>,
    prefixes: &[String],
    text: &mut Text,
) -> Result<(), Fault> {
    let mut cursor = bucket.cursor();
    let mut keys = MemSink::new(alloc);
    for word in prefixes {
        let before = cursor.opened();
        let prefix = bytes_of(alloc, word.as_str())?;
        put_keys_with_prefix(
            alloc,
            &mut cursor,
            prefix.as_slice(),
            Form::Bytes,
            &mut keys,
        )?;
        text.numbers(&[cursor.opened().saturating_sub(before)]);
    }
    text.add(b"\n");
    text.add(keys.bytes());
    Ok(())
}
