//! The members that the lines of a text tell.
ghost use Rattle.std.specs.Option.{option_map};
ghost use Rattle.std.specs.Prelude.{◌≡◌, ◌<◌, ◌++◌, [], IfOk, IfNone, IfSome, IsSomeAnd, List, OnErr, Some, length};
ghost use Rattle.bolt_tree.specs.{Entries.item_bytes, Listing.Member, Paths.Path, Paths.path_of, ShownEntries.item_view, Walks.GivesNext};
ghost use Rattle.bolt_text.specs.{HexPaths.hex_path_in, LineMembers.text_members, Lines.lines_of};
ghost use Rattle.bolt_load.specs.Private.Decoding.{AreDecoded, BeginsWith, GivesLine, path_bytes};
ghost use Rattle.bolt_text.specs.LineWords.{word_item};

use bolt_text::{ItemWord, cut_at, first_line, words_of};
use bolt_tree::{Item, Members, NoMemory};
use std::alloc::{AllocError, Global};
use std::mem;

/// Returns the members that the lines of a text tell, one after another. Their keys and values are
/// in the bytes that were decoded before. It needs room for two paths.
#[derive(Drop)]
pub struct LineMembers<'a> {
    text: &'a [u8],
    bytes: &'a [u8],
    text_left: &'a [u8],
    bytes_left: &'a [u8],
    path: Vec<&'a [u8]>,
    /// The path before that one.
    path_before: Vec<&'a [u8]>,
    ghost whole: { AreDecoded (lines_of text.now) bytes.now },
    ghost ahead: { AreDecoded (lines_of text_left.now) bytes_left.now },
}

#[tactic(auto, unfolding(crate::specs::ShownMembers::members_viewers))]
impl<'a> LineMembers<'a> {
    ghost use Rattle.bolt_load.specs.ShownMembers.{listing_left, members_before, members_left, members_path, members_text};

    /// The members of these lines, whose bytes these are.
    pub(crate) fn new(alloc: Global, text: &'a [u8], bytes: &'a [u8]) -> LineMembers<'a>
        requires { AreDecoded (lines_of text.now) bytes.now }
        ensures text { members_text result ≡ text.now }
        ensures left { members_left result ≡ text.now }
        ensures path { members_path result ≡ [] }
    {
        LineMembers {
            text,
            bytes,
            text_left: text,
            bytes_left: bytes,
            path: Vec::new(alloc),
            path_before: Vec::new(alloc),
        }
    }

    /// The path of the member before the last one that was returned.
    pub(crate) fn path_before(&self) -> &[&'a [u8]]
        ensures { path_of result.now ≡ members_before self.now }
    {
        self.path_before.as_slice()
    }

    /// Returns the member of the next line.
    pub(crate) fn advance(&mut self) -> Result<Option<Item<'a>>, NoMemory>
        ensures text { members_text self.new ≡ members_text self.old }
        ensures given { IfOk result (λ given.
            GivesNext (listing_left self.old) (listing_left self.new) (members_path self.new)
            (option_map item_view given)) }
        ensures lines { IfOk result (λ given.
            GivesLine (members_left self.old) (members_left self.new) (option_map item_view given)
            (members_path self.new)) }
        ensures before { IfOk result (λ given.
            IfSome given (λ _. members_before self.new ≡ members_path self.old)) }
        ensures same { OnErr result (members_left self.new ≡ members_left self.old) }
        ensures same_path { OnErr result (members_path self.new ≡ members_path self.old) }
    {
        let Some((line, text_left)) = first_line(self.text_left) else {
            self.path.clear();
            return Ok(None);
        };
        let Some(words) = words_of(line) else {
            unreachable!()
        };
        self.path_before.clear();
        let bytes_left = push_parts(words.path, self.bytes_left, &mut self.path_before)?;
        let (item, bytes_left) = item_of(&words.item, bytes_left);
        self.text_left = text_left;
        self.bytes_left = bytes_left;
        mem::swap(&mut self.path, &mut self.path_before);
        Ok(Some(item))
    }

    fn restart(&mut self)
        ensures text { members_text self.new ≡ members_text self.old }
        ensures left { members_left self.new ≡ members_text self.old }
    {
        self.text_left = self.text;
        self.bytes_left = self.bytes;
        self.path.clear();
    }
}

/// Adds the parts of a path, whose bytes come first, and returns the bytes after them.
fn push_parts<'a>(
    word: &[u8],
    bytes: &'a [u8],
    path: &mut Vec<&'a [u8]>,
) -> Result<&'a [u8], AllocError>
    requires { IsSomeAnd (hex_path_in word.now) (λ said. BeginsWith (path_bytes said) bytes.now) }
    ensures { IfOk result (λ rest. (said : Path) → hex_path_in word.now ≡ Some said
        → (path_of path.new.items ≡ path_of path.old.items ++ said)
        × (bytes.now ≡ path_bytes said ++ rest.now)) }
{
    let mut word_left = word;
    let mut bytes_left = bytes;
    while let Some((part, after)) = cut_at(b'/', word_left) {
        let (key, rest) = bytes_left.split_at(part.len() / 2);
        path.push(key)?;
        word_left = after;
        bytes_left = rest;
    }
    let (key, rest) = bytes_left.split_at(word_left.len() / 2);
    path.push(key)?;
    Ok(rest)
}

/// What a word tells, whose bytes come first, and the bytes after them.
fn item_of<'a>(word: &ItemWord<'_>, bytes: &'a [u8]) -> (Item<'a>, &'a [u8])
    requires { IsSomeAnd (word_item word.now) (λ said. BeginsWith (item_bytes said) bytes.now) }
    ensures item { Some (item_view result.0) ≡ word_item word.now }
    ensures rest { bytes.now ≡ item_bytes (item_view result.0) ++ result.1.now }
{
    match word {
        ItemWord::Digits(digits) => {
            let (value, rest) = bytes.split_at(digits.len() / 2);
            (Item::Value(value), rest)
        }
        ItemWord::Sequence(sequence) => (
            Item::Bucket {
                sequence: *sequence,
            },
            bytes,
        ),
    }
}

#[tactic(auto, unfolding(crate::specs::ShownMembers::members_viewers))]
impl<'a> Members<'a> for LineMembers<'a> {
    ghost use Rattle.bolt_load.specs.ShownMembers.{listing_left, members_left, members_path, members_text};

    ghost Whole = { List Member };

    ghost reads = { λ members listing. listing ≡ text_members (members_text members) };

    ghost listing = { λ listing. listing };

    ghost left = { λ members listing. listing_left members };

    ghost work_left = { λ members. length (members_left members) };

    ghost last_path = { λ members. members_path members };

    ghost ends_as = { λ members end. Unit {0} };

    fn next(&mut self) -> Result<Option<Item<'a>>, NoMemory> {
        self.advance()
    }

    fn path(&self) -> &[&'a [u8]] {
        self.path.as_slice()
    }

    fn restart(&mut self, _alloc: Global) -> Result<(), NoMemory> {
        LineMembers::restart(self);
        Ok(())
    }
}
