//! Writes revisions as lines.
ghost use Rattle.std.specs.Prelude.{◌≡◌, IfErr, IfOk, length, map};
ghost use Rattle.bolt_check.specs.{Keys.Key, Counts.counted};
ghost use Rattle.bolt_format.specs.{Endings.ending, Wrote.Wrote};
ghost use Rattle.bolt_text.specs.{ReportEndings.FailsByWriting, ReportEndings.FailsByWritingJson, ReportEndings.report_ending};
ghost use Rattle.bolt_report.specs.RevisionLines.{columns, head, line_end, members, value_mark};
ghost use Rattle.bolt_etcd.specs.{Wire.ShownRevisions.shown_decoded, Wire.ShownRevisions.shown_revision, Store.RevisionsLeft.pass_unread};
ghost use Rattle.bolt_etcd.specs.{Store.RevisionsLeft.ForAhead, Store.Stores.unread_elements, Store.Stores.revisions, Check.ForNames.ForCurrent};
ghost use Rattle.bolt_tree.specs.EntriesLeft.{ForBucket};

use bolt_etcd::{Current, DecodedRevision, Revision, Revisions};
use bolt_format::{Sink, SinkFault};
use bolt_text::{Form, ItemWriter, Piece, ReportFault, put, put_pieces};
use bolt_tree::Bucket;
use std::alloc::Global;

/// Writes revisions as lines (docs/COMMANDS.md, "etcd-revisions"): names and values in a form, and
/// values only if they are wanted. Only `Json` needs memory, which is kept from line to line.
#[derive(Drop)]
pub struct RevisionWriter {
    pub items: ItemWriter,
    pub values: bool,
}

#[tactic(auto, using(bolt_text::proofs::Exports::reports))]
impl RevisionWriter {
    ghost use Rattle.bolt_report.specs.WriterLines.{line_by, named_line_by, value_by};

    /// What writes in this form, with values or without.
    pub fn new(alloc: Global, form: Form, values: bool) -> RevisionWriter
        ensures form { result.items.form ≡ form }
        ensures values { result.values ≡ values }
    {
        RevisionWriter {
            items: ItemWriter::new(alloc, form),
            values,
        }
    }

    /// Writes the line of a revision.
    ///
    /// # Errors
    ///
    /// As `ReportFault` says. Memory may run out in the form `Json` alone.
    pub fn put<S: Sink>(&mut self, revision: &Revision<'_>, sink: &mut S) -> Result<(), ReportFault>
        ensures form { self.new.items.form ≡ self.old.items.form }
        ensures values { self.new.values ≡ self.old.values }
        ensures written { Wrote S.Sink sink.old sink.new
            (line_by self.old (shown_revision revision.now)) (report_ending result) }
        ensures fault { IfErr result (FailsByWritingJson self.old.items.form) }
    {
        let decoded = revision.decode();
        put_head(self.items.form, &decoded, sink)?;
        self.items.put(decoded.content.name, sink)?;
        self.put_value(&decoded, sink)?;
        put(line_end(self.items.form), sink)?;
        Ok(())
    }

    /// Writes the line of a revision, if its name begins with these bytes. The errors are as those of `put`.
    pub(crate) fn put_named<S: Sink>(
        &mut self,
        prefix: &[u8],
        revision: &Revision<'_>,
        sink: &mut S,
    ) -> Result<(), ReportFault>
        ensures form { self.new.items.form ≡ self.old.items.form }
        ensures values { self.new.values ≡ self.old.values }
        ensures written { Wrote S.Sink sink.old sink.new
            (named_line_by self.old prefix.now (shown_revision revision.now))
            (report_ending result) }
        ensures fault { IfErr result (FailsByWritingJson self.old.items.form) }
    {
        if revision.name().starts_with(prefix) {
            self.put(revision, sink)
        } else {
            Ok(())
        }
    }

    /// Writes the value of a revision after its mark, if values are wanted.
    fn put_value<S: Sink>(
        &mut self,
        revision: &DecodedRevision<'_>,
        sink: &mut S,
    ) -> Result<(), ReportFault>
        ensures form { self.new.items.form ≡ self.old.items.form }
        ensures values { self.new.values ≡ self.old.values }
        ensures written { (place : Key)
            → Wrote S.Sink sink.old sink.new (value_by self.old (shown_decoded place revision.now))
            (report_ending result) }
        ensures fault { IfErr result (FailsByWritingJson self.old.items.form) }
    {
        if !self.values {
            return Ok(());
        }
        put(value_mark(self.items.form), sink)?;
        self.items.put(revision.content.value, sink)
    }
}

/// What comes before a value.
fn value_mark(form: Form) -> &'static [u8]
    ensures { result.now ≡ value_mark form }
{
    if form.is_json() {
        b",\"value\":"
    } else {
        b" = "
    }
}

/// The end of a line.
fn line_end(form: Form) -> &'static [u8]
    ensures { result.now ≡ line_end form }
{
    if form.is_json() { b"}\n" } else { b"\n" }
}

/// Writes the numbers of a revision, as columns or as the beginning of an object.
fn put_head<S: Sink>(
    form: Form,
    revision: &DecodedRevision<'_>,
    sink: &mut S,
) -> Result<(), SinkFault>
    ensures { (place : Key) → Wrote S.Sink sink.old sink.new
        (head form (shown_decoded place revision.now)) (ending result) }
{
    if form.is_json() {
        put_revision_members(revision, sink)
    } else {
        put_revision_columns(revision, sink)
    }
}

/// Writes the numbers, each followed by a space.
#[tactic(auto, unfolding(crate::specs::RevisionLines::columns))]
fn put_revision_columns<S: Sink>(
    revision: &DecodedRevision<'_>,
    sink: &mut S,
) -> Result<(), SinkFault>
    ensures { (place : Key) → Wrote S.Sink sink.old sink.new
        (columns (shown_decoded place revision.now)) (ending result) }
{
    let (key, content) = (revision.key, revision.content);
    put_pieces(
        &[
            Piece::Number(key.main),
            Piece::Field(b" ", key.sub),
            Piece::Field(b" ", content.version),
            Piece::Bytes(b" "),
            Piece::HexNumber(content.lease),
            Piece::Field(b" ", content.value.len() as u64),
            Piece::Bytes(b" "),
        ],
        sink,
    )
}

/// Writes the beginning of the object, up to the name.
#[tactic(auto, unfolding(crate::specs::RevisionLines::members))]
fn put_revision_members<S: Sink>(
    revision: &DecodedRevision<'_>,
    sink: &mut S,
) -> Result<(), SinkFault>
    ensures { (place : Key) → Wrote S.Sink sink.old sink.new
        (members (shown_decoded place revision.now)) (ending result) }
{
    let (key, content) = (revision.key, revision.content);
    put_pieces(
        &[
            Piece::Field(b"{\"revision\":", key.main),
            Piece::Field(b",\"sub\":", key.sub),
            Piece::Field(b",\"created\":", content.created),
            Piece::Field(b",\"version\":", content.version),
            Piece::Bytes(b",\"lease\":\""),
            Piece::HexNumber(content.lease),
            Piece::Field(b"\",\"bytes\":", content.value.len() as u64),
            Piece::Bytes(b",\"name\":"),
        ],
        sink,
    )
}

impl RevisionWriter {
    ghost use Rattle.bolt_report.specs.WriterLines.{lines_by};

    /// Writes the lines of the revisions of a pass whose names begin with `prefix`, in their order.
    /// Returns the number of entries that it has passed over and that are neither revisions nor marks.
    /// Keeps nothing of a revision.
    ///
    /// # Errors
    ///
    /// As `ReportFault` says. Memory may run out in the form `Json` alone.
    pub fn put_pass<S: Sink>(
        &mut self,
        mut pass: Revisions<'_>,
        prefix: &[u8],
        sink: &mut S,
    ) -> Result<u64, ReportFault>
        ensures form { self.new.items.form ≡ self.old.items.form }
        ensures values { self.new.values ≡ self.old.values }
        ensures written { ForAhead pass.entry (λ rest.
            Wrote S.Sink sink.old sink.new (lines_by self.old prefix.now (revisions rest))
            (report_ending result)) }
        ensures unread { IfOk result (λ n.
            ForAhead pass.entry (λ rest.
            n ≡ counted (pass_unread pass.entry) (length (unread_elements rest)))) }
        ensures fault { IfErr result (FailsByWritingJson self.old.items.form) }
    {
        'rest: while let Some(revision) = pass.next() {
            self.put_named(prefix, &revision, sink)?;
        }
        Ok(pass.unread())
    }

    /// Writes the lines of the keys that there are in a bucket at a transaction and whose names begin
    /// with `prefix`, by rising name: of each its newest revision of no later transaction than
    /// `up_to`. Returns the number of entries that are neither revisions nor marks. Keeps 56 bytes for
    /// each revision of no later transaction.
    ///
    /// # Errors
    ///
    /// As `ReportFault` says. Memory may run out in each form.
    pub fn put_current<S: Sink>(
        &mut self,
        alloc: Global,
        bucket: &Bucket<'_>,
        up_to: u64,
        prefix: &[u8],
        sink: &mut S,
    ) -> Result<u64, ReportFault>
        ensures form { self.new.items.form ≡ self.old.items.form }
        ensures values { self.new.values ≡ self.old.values }
        ensures written { ForCurrent bucket.now up_to (λ held.
            Wrote S.Sink sink.old sink.new (lines_by self.old prefix.now held)
            (report_ending result)) }
        ensures unread { IfOk result (λ n.
            ForBucket bucket.now (λ entries. n ≡ counted 0 (length (unread_elements entries)))) }
        ensures fault { IfErr result FailsByWriting }
    {
        let current = Current::find(alloc, bucket, up_to)?;
        self.put_all(&current.revisions, prefix, sink)?;
        Ok(current.unread)
    }

    /// Writes the lines of those of these revisions whose names begin with `prefix`. The errors are
    /// as those of `put_pass`.
    pub fn put_all<S: Sink>(
        &mut self,
        revisions: &[Revision<'_>],
        prefix: &[u8],
        sink: &mut S,
    ) -> Result<(), ReportFault>
        ensures form { self.new.items.form ≡ self.old.items.form }
        ensures values { self.new.values ≡ self.old.values }
        ensures written { Wrote S.Sink sink.old sink.new
            (lines_by self.old prefix.now (map shown_revision revisions.now))
            (report_ending result) }
        ensures fault { IfErr result (FailsByWritingJson self.old.items.form) }
    {
        'rest: for revision in revisions {
            self.put_named(prefix, revision, sink)?;
        }
        Ok(())
    }
}
