//! The line of a command: what its operands and options are given, and how each of their words is read.
ghost use Rattle.std.specs.Prelude.{◌≡◌, Err, MatchOption, Ok, Some, codes, option_map, string_bytes};
ghost use Rattle.bolt_job.specs.CommandLine.{ReadsAs};
ghost use Rattle.bolt_job.specs.FormWords.{figure_form_by, form_by, list_form_by};
ghost use Rattle.bolt_job.specs.PathWords.{hex_path_by, parts_by};
ghost use Rattle.bolt_job.specs.PlainWords.{assumed_of, copy_kind_by, extent_by, first_word_of, id_by, is_given, load_size_by, meta_by, meta_in};
ghost use Rattle.bolt_job.specs.PlainWords.{name_by, number_or_why, page_size_by, page_size_asked, path_by, owned_path, prefix_by, revision_asked};
ghost use Rattle.bolt_job.specs.PlainWords.{repair_kind_by, revision_of, sequence_by, shown_by, size_in, slot_by, slot_of, text_by};
ghost use Rattle.bolt_job.specs.Private.CommandLines.{IsAssumedBy, values_of};

use crate::choices::{AssumedMeta, BucketsShown, CopyKind, Extent, MetaChoice, PageSize};
use crate::path_words::{read_from, read_part, read_path, read_prefix};
use crate::refusal::Refusal;
use bolt_format::Slot;
use bolt_text::{FigureForm, Form, ListForm, Parts, read_number};
use clap::ArgMatches;
use std::alloc::Global;

const BAD_ASSUMED: &str = "bad meta: use PAGE_SIZE:ROOT, and no --meta";

const BAD_SIZE: &str = "bad page size";

/// The words that the operands and options of a command are given, by their names.
#[derive(Clone, Copy)]
pub(crate) struct Line<'m, 'a> {
    pub alloc: Global,
    pub matches: &'m ArgMatches<'a>,
}

impl Line<'_, '_> {
    /// The text of an operand or option that is required.
    pub(crate) fn text(&self, id: &str) -> Result<String, Refusal>
        ensures { ReadsAs string_bytes (text_by id.now (values_of self.now)) result }
    {
        Ok(String::from_str(self.alloc, self.value(id)?)?)
    }

    /// The word of one that is required.
    fn value(&self, id: &str) -> Result<&str, Refusal>
        ensures { ReadsAs (λ text. text.now) (text_by id.now (values_of self.now)) result }
    {
        self.choice(id).ok_or(Refusal::Word("value missing"))
    }

    /// The word of one that may be missing.
    fn choice(&self, id: &str) -> Option<&str>
        ensures { option_map (λ text. text.now) result ≡ first_word_of (values_of self.now id.now) }
    {
        self.matches.get_str(id)
    }

    /// Whether an option without a value is given.
    pub(crate) fn is_given(&self, id: &str) -> bool
        ensures { result ≡ is_given (first_word_of (values_of self.now id.now)) }
    {
        self.choice(id).is_some()
    }

    /// The number of a page.
    pub(crate) fn page_id(&self) -> Result<u64, Refusal>
        ensures { ReadsAs (λ id. id) (id_by (values_of self.now)) result }
    {
        number_or_why("bad page id", self.value("ID")?)
    }

    /// The slot of a meta, if one is named.
    pub(crate) fn slot(&self) -> Result<Option<Slot>, Refusal>
        ensures { ReadsAs (λ slot. slot)
            (slot_by (first_word_of (values_of self.now (codes "meta")))) result }
    {
        match self.choice("meta") {
            Some(word) => Ok(Some(slot_of(word)?)),
            None => Ok(None),
        }
    }

    /// The meta that is read under. It may be named or assumed, but not both.
    pub(crate) fn meta(&self) -> Result<MetaChoice, Refusal>
        ensures { ReadsAs meta_in (meta_by (values_of self.now)) result }
    {
        match (self.choice("meta"), self.choice("assume-meta")) {
            (None, None) => Ok(MetaChoice::Active),
            (Some(word), None) => Ok(MetaChoice::InSlot(slot_of(word)?)),
            (None, Some(word)) => assumed_of(word),
            (Some(_), Some(_)) => Err(Refusal::Word(BAD_ASSUMED)),
        }
    }

    /// The form of names, keys and values.
    pub(crate) fn form(&self) -> Result<Form, Refusal>
        ensures { ReadsAs (λ form. form)
            (form_by (first_word_of (values_of self.now (codes "form")))) result }
    {
        match self.choice("form") {
            Some(word) => form_of(word),
            None => Ok(Form::Printable),
        }
    }

    /// What is printed of buckets. Sizes aren't known of what is recovered.
    pub(crate) fn buckets_shown(&self) -> Result<BucketsShown, Refusal>
        ensures { ReadsAs (λ shown. shown)
            (shown_by (is_given (first_word_of (values_of self.now (codes "sizes"))))
            (is_given (first_word_of (values_of self.now (codes "recover"))))) result }
    {
        match (self.is_given("sizes"), self.is_given("recover")) {
            (false, recover) => Ok(BucketsShown::Names { recover }),
            (true, false) => Ok(BucketsShown::Sizes),
            (true, true) => Err(Refusal::Word("bad sizes: not with --recover")),
        }
    }

    /// The form of a listing.
    pub(crate) fn list_form(&self) -> Result<ListForm, Refusal>
        ensures { ReadsAs (λ form. form)
            (list_form_by (first_word_of (values_of self.now (codes "form")))) result }
    {
        match self.choice("form") {
            None | Some("hex") => Ok(ListForm::Hex),
            Some("json") => Ok(ListForm::Json),
            Some("json-hex") => Ok(ListForm::JsonHex),
            Some(_) => Err(Refusal::Word("bad form: use hex, json or json-hex")),
        }
    }

    /// The form of figures.
    pub(crate) fn figure_form(&self) -> Result<FigureForm, Refusal>
        ensures { ReadsAs (λ form. form)
            (figure_form_by (first_word_of (values_of self.now (codes "form")))) result }
    {
        match self.choice("form") {
            None | Some("lines") => Ok(FigureForm::Lines),
            Some("json") => Ok(FigureForm::Json),
            Some(_) => Err(Refusal::Word("bad form: use lines or json")),
        }
    }

    /// How the parts of a path are written.
    fn parts(&self) -> Result<Parts, Refusal>
        ensures { ReadsAs (λ parts. parts)
            (parts_by (first_word_of (values_of self.now (codes "parts")))) result }
    {
        match self.choice("parts") {
            None | Some("text") => Ok(Parts::Text),
            Some("hex") => Ok(Parts::Hex),
            Some("mixed") => Ok(Parts::Mixed),
            Some(_) => Err(Refusal::Word("bad parts: use text, hex or mixed")),
        }
    }

    /// The path that the words of PART stand for.
    pub(crate) fn path(&self) -> Result<Vec<Vec<u8>>, Refusal>
        ensures { ReadsAs (λ path. owned_path path.items) (path_by (values_of self.now)) result }
    {
        let parts = self.parts()?;
        match self.matches.get_strs("PART") {
            Some(words) => read_path(self.alloc, parts, words),
            None => Ok(Vec::new(self.alloc)),
        }
    }

    /// The bytes that keys are to begin with, which are written as the words of PART are.
    pub(crate) fn prefix(&self) -> Result<Vec<u8>, Refusal>
        ensures { ReadsAs (λ prefix. prefix.items) (prefix_by (values_of self.now)) result }
    {
        let parts = self.parts()?;
        read_prefix(self.alloc, parts, self.choice("prefix"))
    }

    /// The name of a key in etcd, which is written as a word of PART is.
    pub(crate) fn name(&self) -> Result<Vec<u8>, Refusal>
        ensures { ReadsAs (λ name. name.items) (name_by (values_of self.now)) result }
    {
        let parts = self.parts()?;
        read_part(self.alloc, parts, self.value("NAME")?)
    }

    /// A revision of etcd's, by the option of this name if it is given.
    pub(crate) fn revision(&self, id: &str) -> Result<Option<u64>, Refusal>
        ensures { ReadsAs (λ revision. revision)
            (revision_asked (first_word_of (values_of self.now id.now))) result }
    {
        match self.choice(id) {
            Some(word) => Ok(Some(revision_of(word)?)),
            None => Ok(None),
        }
    }

    /// The path at which a listing begins.
    pub(crate) fn from(&self) -> Result<Vec<Vec<u8>>, Refusal>
        ensures { ReadsAs (λ path. owned_path path.items)
            (hex_path_by (first_word_of (values_of self.now (codes "from")))) result }
    {
        read_from(self.alloc, self.choice("from"))
    }

    /// The page size of a copy. Without one it is that of the file.
    pub(crate) fn page_size(&self) -> Result<Option<PageSize>, Refusal>
        ensures { ReadsAs size_in
            (page_size_by (first_word_of (values_of self.now (codes "page-size")))) result }
    {
        let Some(word) = self.choice("page-size") else {
            return Ok(None);
        };
        let size = read_size(word).ok_or(Refusal::Word(BAD_SIZE))?;
        Ok(Some(size))
    }

    /// The page size of a database that is made of a listing.
    pub(crate) fn load_size(&self) -> Result<PageSize, Refusal>
        ensures { ReadsAs (λ size. size.bytes)
            (load_size_by (first_word_of (values_of self.now (codes "page-size")))) result }
    {
        match self.choice("page-size") {
            Some(word) => read_size(word).ok_or(Refusal::Word(BAD_SIZE)),
            None => Ok(PageSize::USUAL),
        }
    }

    /// The sequence of the root bucket of such a database.
    pub(crate) fn sequence(&self) -> Result<u64, Refusal>
        ensures { ReadsAs (λ sequence. sequence)
            (sequence_by (first_word_of (values_of self.now (codes "sequence")))) result }
    {
        match self.choice("sequence") {
            Some(word) => number_or_why("bad sequence", word),
            None => Ok(0),
        }
    }

    /// The kind of a copy. A snapshot is for bbolt too.
    pub(crate) fn copy_kind(&self) -> CopyKind
        ensures { result ≡ copy_kind_by (first_word_of (values_of self.now (codes "for-bbolt")))
            (first_word_of (values_of self.now (codes "etcd-snapshot"))) }
    {
        match (self.choice("for-bbolt"), self.choice("etcd-snapshot")) {
            (_, Some(_)) => CopyKind::EtcdSnapshot,
            (Some(_), None) => CopyKind::ForBbolt,
            (None, None) => CopyKind::Plain,
        }
    }

    /// The kind of a repaired copy. It is for etcd, so never plain.
    pub(crate) fn repair_kind(&self) -> CopyKind
        ensures { result ≡ repair_kind_by (first_word_of (values_of self.now (codes "etcd-snapshot"))) }
    {
        match self.choice("etcd-snapshot") {
            Some(_) => CopyKind::EtcdSnapshot,
            None => CopyKind::ForBbolt,
        }
    }

    /// How much is read of a damaged file, by the option of this name and `--lost-and-found`, which
    /// implies it.
    pub(crate) fn extent(&self, losses: &str) -> Extent
        ensures { result ≡ extent_by (first_word_of (values_of self.now losses.now))
            (first_word_of (values_of self.now (codes "lost-and-found"))) }
    {
        match (self.choice(losses), self.choice("lost-and-found")) {
            (_, Some(_)) => Extent::FoundPages,
            (Some(_), None) => Extent::Losses,
            (None, None) => Extent::Sound,
        }
    }
}

fn form_of(word: &str) -> Result<Form, Refusal>
    ensures { ReadsAs (λ form. form) (form_by (Some word.now)) result }
{
    match word {
        "printable" => Ok(Form::Printable),
        "hex" => Ok(Form::Hex),
        "bytes" => Ok(Form::Bytes),
        "text" => Ok(Form::Text),
        "mixed" => Ok(Form::Mixed),
        "json" => Ok(Form::Json),
        "json-hex" => Ok(Form::JsonHex),
        _ => Err(Refusal::Word(
            "bad form: use printable, hex, bytes, text, mixed, json or json-hex",
        )),
    }
}

fn slot_of(word: &str) -> Result<Slot, Refusal>
    ensures { ReadsAs (λ slot. slot) (slot_of word.now) result }
{
    match word {
        "0" => Ok(Slot::Zero),
        "1" => Ok(Slot::One),
        _ => Err(Refusal::Word("bad meta: use 0 or 1")),
    }
}

fn assumed_of(word: &str) -> Result<MetaChoice, Refusal>
    ensures { ReadsAs meta_in (assumed_of word.now) result }
{
    match find_assumed(word) {
        Some(assumed) => Ok(MetaChoice::Assumed(assumed)),
        None => Err(Refusal::Word(BAD_ASSUMED)),
    }
}

/// The page size before the first colon, and the root page after it.
fn find_assumed(word: &str) -> Option<AssumedMeta>
    ensures { IsAssumedBy word.now result }
{
    let (page_size, root) = word.split_once(':')?;
    Some(AssumedMeta {
        page_size: read_size(page_size)?,
        root: read_number(root.as_bytes())?,
    })
}

fn read_size(word: &str) -> Option<PageSize>
    ensures { MatchOption result (page_size_asked word.now ≡ Err (codes "bad page size")) (λ size.
        page_size_asked word.now ≡ Ok size.bytes) }
{
    PageSize::new(read_number(word.as_bytes())?)
}

/// The revision that these digits stand for. It is below 2^63.
fn revision_of(word: &str) -> Result<u64, Refusal>
    ensures { ReadsAs (λ revision. revision) (revision_of word.now) result }
{
    match read_number(word.as_bytes()) {
        Some(revision) if revision < 1 << 63 => Ok(revision),
        _ => Err(Refusal::Word("bad revision")),
    }
}

/// The number that these digits stand for, or a refusal with these words.
fn number_or_why(why: &'static str, word: &str) -> Result<u64, Refusal>
    ensures { ReadsAs (λ number. number) (number_or_why why.now word.now) result }
{
    read_number(word.as_bytes()).ok_or(Refusal::Word(why))
}
