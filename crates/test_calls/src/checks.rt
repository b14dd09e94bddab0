//! Verbs on a sound file; and the checksums and the numbers of faults.
ghost use Rattle.std.specs.Prelude.{◌≡◌, true};
ghost use Rattle.bolt_check.specs.CheckedFiles.{has_accounts};

use crate::fault::Fault;
use crate::words::{Input, Text, bytes_of, keys_of, slices_of};
use crate::{buckets, copies, pagers, walks};
use bolt_check::{Checked, Finding, check, check_slot};
use bolt_format::{PageFault, Slot, fnv1a};
use bolt_report::pages;

/// The result of a verb on a sound file. Its accounts were tested, which `pages` requires.
pub fn put_checked(
    verb: &str,
    checked: Checked<'_>,
    input: Input<'_>,
    text: &mut Text,
) -> Result<(), Fault>
    requires { has_accounts checked ≡ true }
{
    let Input { alloc, words, .. } = input;
    match verb {
        "pages" => Ok(pages(alloc, checked, &mut text.sink)?),
        "plan" | "copy" => copies::put_copy(verb, alloc, checked, words, text),
        "pager" => pagers::opened_pages(checked, text),
        "root" => pagers::root_cursor(checked, text),
        _ => {
            let [word, words @ ..] = words else {
                return Err(Fault::UNREAD);
            };
            put_at(verb, checked, word.as_str(), Input { words, ..input }, text)
        }
    }
}

/// The result of a verb on a sound file and a path in it. For `bucket` this is the key that is sought.
fn put_at(
    verb: &str,
    checked: Checked<'_>,
    path: &str,
    input: Input<'_>,
    text: &mut Text,
) -> Result<(), Fault> {
    let alloc = input.alloc;
    let keys = keys_of(alloc, path)?;
    let path = slices_of(alloc, keys.as_slice())?;
    put_on(verb, checked, path.as_slice(), input, text)
}

fn put_on(
    verb: &str,
    checked: Checked<'_>,
    path: &[&[u8]],
    input: Input<'_>,
    text: &mut Text,
) -> Result<(), Fault> {
    match verb {
        "walk" | "again" | "depths" | "listed" => {
            walks::put_from(verb, input.alloc, checked, path, text)
        }
        "bucket" => put_sought(checked, path, text),
        _ => {
            let bucket = buckets::bucket_at(checked, path)?;
            buckets::put_bucket(verb, input.alloc, &bucket, input.words, text)
        }
    }
}

/// The result of `bucket`, which seeks one key.
fn put_sought(checked: Checked<'_>, path: &[&[u8]], text: &mut Text) -> Result<(), Fault> {
    let [key] = path else {
        return Err(Fault::UNREAD);
    };
    pagers::bucket_cursor(checked, key, text)
}

/// The transaction of the meta under which a file is checked, the number of its bytes, and whether the
/// accounts were tested. The first word may name the slot of the meta: 0, or else 1.
pub fn checked(input: Input<'_>, text: &mut Text) -> Result<(), Fault> {
    let Input { alloc, file, words } = input;
    let found = match words {
        [] => check(alloc, file),
        [slot, ..] => check_slot(alloc, file, slot_of(slot.as_str())),
    }?;
    text.numbers(&[found.meta().txid, found.bytes().len() as u64]);
    text.word(if found.accounts() {
        b"accounts"
    } else {
        b"trees"
    });
    Ok(())
}

fn slot_of(word: &str) -> Slot {
    if word == "0" { Slot::Zero } else { Slot::One }
}

/// The checksum of each word.
pub fn checksums(input: Input<'_>, text: &mut Text) -> Result<(), Fault> {
    for word in input.words {
        let bytes = bytes_of(input.alloc, word.as_str())?;
        text.numbers(&[fnv1a(bytes.as_slice())]);
    }
    Ok(())
}

/// The faults of pages, and then the findings, in the order of docs/COMMANDS.md.
const FAULTS: [u8; 22] = [
    PageFault::RANGE,
    PageFault::CUT,
    PageFault::ID,
    PageFault::PAGE_KIND,
    PageFault::ELEMENT_CUT,
    PageFault::DATA_ORDER,
    PageFault::KEY_LENGTH,
    PageFault::VALUE_LENGTH,
    PageFault::LEAF_FLAGS,
    PageFault::BUCKET_SHORT,
    PageFault::INLINE_PAGE,
    PageFault::INLINE_NESTED,
    Finding::TWICE,
    Finding::ORDER,
    Finding::BELOW_PARENT,
    Finding::ABOVE_NEXT,
    Finding::EMPTY_BRANCH,
    Finding::TOO_DEEP,
    Finding::FREED_TWICE,
    Finding::REACHED_FREED,
    Finding::UNREACHABLE,
    Finding::FREE_RANGE,
];

/// The numbers of the faults.
pub fn faults(text: &mut Text) {
    for number in FAULTS {
        text.numbers(&[u64::from(number)]);
    }
}
