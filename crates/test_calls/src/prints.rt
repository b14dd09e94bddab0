//! Calls that print as the program does, so that their instructions can be counted beside its own.

use crate::buckets::bucket_at;
use crate::fault::Fault;
use crate::words::{Input, bytes_of, keys_of, slices_of};
use bolt_check::Checked;
use bolt_format::Sink;
use bolt_report::{Form, ListForm, buckets, put_keys_with_prefix, put_list_part, value};
use bolt_tree::Bucket;
use std::alloc::Global;

/// Writes what the call writes that the first word names, in the form that the second one names, of
/// the path that is the third.
pub fn put_call<S: Sink>(
    checked: Checked<'_>,
    input: Input<'_>,
    sink: &mut S,
) -> Result<(), Fault> {
    let Input { alloc, words, .. } = input;
    let [call, form, path, words @ ..] = words else {
        return Err(Fault::UNREAD);
    };
    let keys = keys_of(alloc, path.as_str())?;
    let path = slices_of(alloc, keys.as_slice())?;
    let path = path.as_slice();
    let form = form.as_str();
    Ok(match call.as_str() {
        "list" => put_list_part(alloc, checked, &[], path, list_form_of(form), sink)?,
        "part" => put_list_part(alloc, checked, path, &[], list_form_of(form), sink)?,
        call => {
            let bucket = bucket_at(checked, path)?;
            put_of_bucket((call, form_of(form)), alloc, &bucket, words, sink)?
        }
    })
}

/// Prints from a bucket: its keys that begin with the one word, its buckets, or the value of the key
/// that is the one word.
fn put_of_bucket<S: Sink>(
    (call, form): (&str, Form),
    alloc: Global,
    bucket: &Bucket<'_>,
    words: &[String],
    sink: &mut S,
) -> Result<(), Fault> {
    match (call, words) {
        ("keys", [prefix]) => {
            let prefix = bytes_of(alloc, prefix.as_str())?;
            let mut cursor = bucket.cursor();
            put_keys_with_prefix(alloc, &mut cursor, prefix.as_slice(), form, sink)?;
        }
        ("buckets", _) => buckets(alloc, bucket, form, sink)?,
        ("value", [key]) => {
            let key = bytes_of(alloc, key.as_str())?;
            let held = bucket.get(key.as_slice()).ok_or(Fault::UNREAD)?;
            value(alloc, held, form, sink)?;
        }
        _ => return Err(Fault::UNREAD),
    }
    Ok(())
}

fn form_of(word: &str) -> Form {
    match word {
        "json" => Form::Json,
        "hex" => Form::Hex,
        _ => Form::Printable,
    }
}

fn list_form_of(word: &str) -> ListForm {
    match word {
        "json" => ListForm::Json,
        "json-hex" => ListForm::JsonHex,
        _ => ListForm::Hex,
    }
}
