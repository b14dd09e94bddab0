//! The words of a line: how a text is cut into lines, and a line into words.
ghost use Rattle.std.specs.Prelude.{◌≡◌, MatchOption, [], option_and_then, option_map};
ghost use Rattle.bolt_tree.specs.Entries.{Bucket};
ghost use Rattle.bolt_text.specs.{Cuts.IsCutAt, Cuts.IsFirstLine, Cuts.IsWithout, LineMembers.item_in, LineMembers.line_member};
ghost use Rattle.bolt_text.specs.LineWords.{last_word, line_words, shown_word, shown_words, word_item, words_member};
ghost use Rattle.bolt_text.specs.Numbers.{number_in};

use crate::part_words::read_number;
use memchr::memchr;

/// The last word of a line: a value in hexadecimal, or the sequence of a bucket.
#[derive(Clone, Copy)]
pub enum ItemWord<'a> {
    /// The value. Whether these are hexadecimal digits isn't tested.
    Digits(&'a [u8]),
    /// The sequence.
    Sequence(u64),
}

/// The words of a line: a path in hexadecimal, and what is there.
#[derive(Clone, Copy)]
pub struct LineWords<'a> {
    /// The path. Whether it is hexadecimal isn't tested.
    pub path: &'a [u8],
    /// What is there.
    pub item: ItemWord<'a>,
}

/// The words of a line, if there are three: a path, and `=` and a value, or `bucket` and a number
/// (docs/LISTING.md, "A listing as text").
pub fn words_of(line: &[u8]) -> Option<LineWords<'_>>
    ensures words { option_map shown_words result ≡ line_words line.now }
    ensures member { line_member line.now ≡ option_and_then words_member result }
{
    let (path, rest) = cut_at(b' ', line)?;
    let (mark, word) = cut_at(b' ', rest)?;
    if cut_at(b' ', word).is_some() {
        return None;
    }
    let item = item_word(mark, word)?;
    Some(LineWords { path, item })
}

/// The last word, by the mark before it.
fn item_word<'a>(mark: &[u8], word: &'a [u8]) -> Option<ItemWord<'a>>
    ensures word { option_map shown_word result ≡ last_word mark.now word.now }
    ensures item { item_in mark.now word.now ≡ option_and_then word_item result }
{
    if mark == b"=".as_slice() {
        return Some(ItemWord::Digits(word));
    }
    if mark == b"bucket".as_slice() {
        return sequence_word(word);
    }
    None
}

/// The sequence of a bucket.
fn sequence_word(word: &[u8]) -> Option<ItemWord<'_>>
    ensures word { option_map shown_word result ≡ option_map Bucket (number_in word.now) }
    ensures item { option_map Bucket (number_in word.now) ≡ option_and_then word_item result }
{
    Some(ItemWord::Sequence(read_number(word)?))
}

/// The text before the first mark, and that after it.
pub fn cut_at(mark: u8, text: &[u8]) -> Option<(&[u8], &[u8])>
    ensures { MatchOption result (IsWithout mark text.now) (λ cut.
        IsCutAt mark text.now cut.0.now cut.1.now) }
{
    let at = memchr(mark, text)?;
    Some((&text[..at], &text[at + 1..]))
}

/// The first line of a text, and the text after it.
pub fn first_line(text: &[u8]) -> Option<(&[u8], &[u8])>
    ensures { MatchOption result (text.now ≡ []) (λ cut. IsFirstLine text.now cut.0.now cut.1.now) }
{
    if text.is_empty() {
        return None;
    }
    match cut_at(b'\n', text) {
        Some((line, after)) => Some((line, after)),
        None => Some((text, &[])),
    }
}
