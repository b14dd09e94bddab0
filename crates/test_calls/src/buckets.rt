//! What the bucket at a path holds, and its calls between two requests for memory.

use crate::cursors;
use crate::fault::{Fault, require};
use crate::words::{Text, bytes_of};
use bolt_check::Checked;
use bolt_report::{Form, keys};
use bolt_tree::{Bucket, Cursor, Walk};
use std::alloc::{AllocError, Global};

/// The bucket at a path, if there is one.
pub fn bucket_at<'a>(checked: Checked<'a>, path: &[&[u8]]) -> Result<Bucket<'a>, Fault> {
    let mut bucket = Bucket::root(checked);
    for key in path {
        bucket = bucket.bucket(key).ok_or(Fault::UNREAD)?;
    }
    Ok(bucket)
}

/// What is in a bucket, by a verb.
pub fn put_bucket(
    verb: &str,
    alloc: Global,
    bucket: &Bucket<'_>,
    words: &[String],
    text: &mut Text,
) -> Result<(), Fault> {
    match verb {
        "under" => look_ups(alloc, bucket, words, text),
        "enters" => enter_all(alloc, bucket, words, text),
        "begins" => cursors::run_prefixes(alloc, bucket, words, text),
        "between" => calls_between(alloc, bucket, words, text),
        "keys" => Ok(keys(alloc, bucket, Form::Bytes, &mut text.sink)?),
        "moves" | "opens" | "compares" => cursors::run_calls(verb, alloc, bucket, words, text),
        _ => Err(Fault::UNREAD),
    }
}

/// What is under each of the keys: a value, a bucket's sequence, or `-`.
fn look_ups(
    alloc: Global,
    bucket: &Bucket<'_>,
    words: &[String],
    text: &mut Text,
) -> Result<(), Fault> {
    for word in words {
        let key = bytes_of(alloc, word.as_str())?;
        look_up(bucket, key.as_slice(), text);
    }
    Ok(())
}

fn look_up(bucket: &Bucket<'_>, key: &[u8], text: &mut Text) {
    match (bucket.get(key), bucket.bucket(key)) {
        (Some(value), None) => {
            text.word(b"=");
            text.add(value);
        }
        (None, Some(inner)) => {
            text.word(b":");
            text.digits(inner.sequence());
        }
        (None, None) => text.word(b"-"),
        _ => text.word(b"a value and a bucket"),
    }
}

/// What bucket a cursor is on after a seek of each of the keys.
fn enter_all(
    alloc: Global,
    bucket: &Bucket<'_>,
    words: &[String],
    text: &mut Text,
) -> Result<(), Fault> {
    for word in words {
        let key = bytes_of(alloc, word.as_str())?;
        enter(bucket, key.as_slice(), text);
    }
    Ok(())
}

/// The sequence of the bucket that a cursor is on after a seek of the key, or `-`.
fn enter(bucket: &Bucket<'_>, key: &[u8], text: &mut Text) {
    let mut cursor = bucket.cursor();
    let _ = cursor.seek(key);
    match bucket.bucket_at(&cursor) {
        Some(inner) => {
            text.word(b":");
            text.digits(inner.sequence());
        }
        None => text.word(b"-"),
    }
}

/// Makes each call that needs no memory, from each entry of the bucket, in which the word is a key.
/// Between two requests there are only those calls. `tools/refuse/try_calls.py` refuses each request in
/// turn, and looks for what is said here.
fn calls_between(
    alloc: Global,
    bucket: &Bucket<'_>,
    words: &[String],
    text: &mut Text,
) -> Result<(), Fault> {
    let [key] = words else {
        return Err(Fault::UNREAD);
    };
    let key = bytes_of(alloc, key.as_str())?;
    let before = has_memory(alloc);
    let are_right = make_calls(alloc, bucket, key.as_slice());
    let after = has_memory(alloc);
    require(are_right, "what a call returned", 0)?;
    if !before {
        return Err(Fault::refused("refused: before the calls"));
    }
    if !after {
        return Err(Fault::refused("refused: after the calls"));
    }
    text.add(b"no request");
    Ok(())
}

/// Whether a request for memory is met.
fn has_memory(alloc: Global) -> bool {
    let block: Result<Vec<u8>, AllocError> = Vec::with_capacity(alloc, 1);
    block.is_ok()
}

/// Makes each call of a bucket and its cursor, and begins a walk. Whether each returned an entry when it
/// had to, and the walk has no path.
fn make_calls(alloc: Global, bucket: &Bucket<'_>, key: &[u8]) -> bool {
    let is_held = bucket.get(key).is_some() || bucket.bucket(key).is_some();
    let has_path = !Walk::new(alloc, bucket.checked()).path().is_empty();
    let mut cursor = bucket.cursor();
    let is_on = cursor.seek(key).is_some();
    let leads_same = bucket.bucket_at(&cursor).is_some() == bucket.bucket(key).is_some();
    call_cursor(bucket.cursor(), key) && is_held && !has_path && is_on && leads_same
}

/// Makes each call of a cursor. Whether each returned an entry when it had to.
fn call_cursor(mut cursor: Cursor<'_>, key: &[u8]) -> bool {
    let is_first = cursor.first().is_some();
    for _ in 0..100 {
        let _ = cursor.next();
    }
    let is_last = cursor.last().is_some();
    for _ in 0..100 {
        let _ = cursor.prev();
    }
    let _ = cursor.seek(b"\xff\xff\xff");
    is_first && is_last && cursor.seek(key).is_some() && cursor.seek(b"").is_some()
}
