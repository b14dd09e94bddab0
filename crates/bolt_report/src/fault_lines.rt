//! The lines of faults and findings.
ghost use Rattle.std.specs.Prelude.{◌≡◌, ◌++◌, flat_map};
ghost use Rattle.bolt_format.specs.{Endings.ending, Wrote.Wrote};
ghost use Rattle.bolt_report.specs.FaultWords.{count_line, finding_sentence, finding_text, finding_words, meta_fault_text, meta_fault_words};
ghost use Rattle.bolt_report.specs.FaultWords.{page_fault_text, page_fault_words, pages_sentence, snapshot_fault_text};

use bolt_check::Finding;
use bolt_etcd::SnapshotFault;
use bolt_format::{MetaFault, PageFault, Sink, SinkFault};
use bolt_text::{Piece, put, put_pieces};

/// Writes the line of a meta fault.
///
/// # Errors
///
/// `SinkFault` if the sink failed. It has then accepted a prefix of the text.
pub fn put_meta_fault<S: Sink>(fault: MetaFault, sink: &mut S) -> Result<(), SinkFault>
    ensures { Wrote S.Sink sink.old sink.new (meta_fault_text fault) (ending result) }
{
    put_pieces(
        &[Piece::Bytes(meta_fault_words(fault)), Piece::Bytes(b"\n")],
        sink,
    )
}

/// Writes the line of a snapshot's fault.
///
/// # Errors
///
/// `SinkFault` if the sink failed. It has then accepted a prefix of the text.
pub fn put_snapshot_fault<S: Sink>(fault: SnapshotFault, sink: &mut S) -> Result<(), SinkFault>
    ensures { Wrote S.Sink sink.old sink.new (snapshot_fault_text fault) (ending result) }
{
    put(snapshot_fault_line(fault), sink)
}

/// Writes the line of a page's fault.
///
/// # Errors
///
/// `SinkFault` if the sink failed. It has then accepted a prefix of the text.
pub fn put_page_fault<S: Sink>(fault: &PageFault, sink: &mut S) -> Result<(), SinkFault>
    ensures { Wrote S.Sink sink.old sink.new (page_fault_text fault.now) (ending result) }
{
    put_pieces(
        &[
            Piece::Field(b"page ", fault.page),
            Piece::Bytes(b": "),
            Piece::Bytes(page_fault_words(fault.number)),
            Piece::Bytes(b"\n"),
        ],
        sink,
    )
}

/// Writes the line of a finding.
///
/// # Errors
///
/// `SinkFault` if the sink failed. It has then accepted a prefix of the text.
pub fn finding_text<S: Sink>(finding: &Finding, sink: &mut S) -> Result<(), SinkFault>
    ensures { Wrote S.Sink sink.old sink.new (finding_text finding.now) (ending result) }
{
    put_sentence(finding, b"\n", sink)
}

#[tactic(auto, using(bolt_text::proofs::Exports::elements))]
pub(crate) fn put_each_finding<S: Sink>(findings: &[Finding], sink: &mut S) -> Result<(), SinkFault>
    ensures { Wrote S.Sink sink.old sink.new (flat_map finding_text findings.now) (ending result) }
{
    for finding in findings {
        finding_text(finding, sink)?;
    }
    Ok(())
}

/// Writes the line with the number of errors, such as `2 errors found`.
///
/// # Errors
///
/// `SinkFault` if the sink failed. It has then accepted a prefix of the line.
pub fn put_error_count<S: Sink>(count: u64, sink: &mut S) -> Result<(), SinkFault>
    ensures { Wrote S.Sink sink.old sink.new (count_line count) (ending result) }
{
    put_pieces(
        &[Piece::Number(count), Piece::Bytes(b" errors found\n")],
        sink,
    )
}

/// Writes the line of a finding up to its end, and then these words.
pub(crate) fn put_sentence<S: Sink>(
    finding: &Finding,
    words: &[u8],
    sink: &mut S,
) -> Result<(), SinkFault>
    ensures { Wrote S.Sink sink.old sink.new (finding_sentence finding.now ++ words.now)
        (ending result) }
{
    let (page, last) = (finding.page, finding.last);
    put_of_pages(page, last, finding_words(finding.number), words, sink)
}

/// Writes what is said of a page, or of several in a row, and then these words.
#[tactic(auto, unfolding(crate::specs::FaultWords::pages_words))]
pub(crate) fn put_of_pages<'a, S: Sink>(
    page: u64,
    last: u64,
    said: &'a [u8],
    words: &'a [u8],
    sink: &mut S,
) -> Result<(), SinkFault>
    ensures { Wrote S.Sink sink.old sink.new (pages_sentence page last said.now ++ words.now)
        (ending result) }
{
    if page == last {
        put_pieces(
            &[
                Piece::Field(b"page ", page),
                Piece::Bytes(b": "),
                Piece::Bytes(said),
                Piece::Bytes(words),
            ],
            sink,
        )
    } else {
        put_pieces(
            &[
                Piece::Field(b"pages ", page),
                Piece::Field(b" to ", last),
                Piece::Bytes(b": "),
                Piece::Bytes(said),
                Piece::Bytes(words),
            ],
            sink,
        )
    }
}

pub(crate) fn meta_fault_words(fault: MetaFault) -> &'static [u8]
    ensures { result.now ≡ meta_fault_words fault }
{
    match fault {
        MetaFault::Cut => b"file too short",
        MetaFault::Magic => b"invalid database",
        MetaFault::Version => b"version mismatch",
        MetaFault::Sum => b"checksum error",
        MetaFault::PageSize => b"page size refused",
    }
}

fn snapshot_fault_line(fault: SnapshotFault) -> &'static [u8]
    ensures { result.now ≡ snapshot_fault_text fault }
{
    match fault {
        SnapshotFault::HashMissing => b"snapshot hash missing\n",
        SnapshotFault::HashCutOff => b"snapshot hash cut off\n",
        SnapshotFault::HashDiffers => b"snapshot hash differs\n",
    }
}

#[tactic(auto, unfolding(crate::specs::FaultWords::page_fault_words))]
fn page_fault_words(code: u8) -> &'static [u8]
    ensures { result.now ≡ page_fault_words code }
{
    match code {
        PageFault::RANGE => b"out of range",
        PageFault::CUT => b"cut off",
        PageFault::ID => b"wrong page number",
        PageFault::PAGE_KIND => b"invalid type",
        PageFault::ELEMENT_CUT => b"element past the page",
        PageFault::DATA_ORDER => b"element data out of order",
        PageFault::KEY_LENGTH => b"key length refused",
        PageFault::VALUE_LENGTH => b"value length refused",
        PageFault::LEAF_FLAGS => b"leaf flags refused",
        PageFault::BUCKET_SHORT => b"bucket value too short",
        PageFault::INLINE_PAGE => b"inline page refused",
        PageFault::INLINE_NESTED => b"bucket in an inline bucket",
        _ => b"",
    }
}

#[tactic(auto, unfolding(crate::specs::FaultWords::finding_words, crate::specs::FaultWords::page_fault_words))]
fn finding_words(code: u8) -> &'static [u8]
    ensures { result.now ≡ finding_words code }
{
    match code {
        Finding::TWICE => b"referenced twice",
        Finding::ORDER => b"keys not rising",
        Finding::BELOW_PARENT => b"key below its branch key",
        Finding::ABOVE_NEXT => b"key not below the next branch key",
        Finding::EMPTY_BRANCH => b"empty branch",
        Finding::TOO_DEEP => b"tree too deep",
        Finding::FREED_TWICE => b"freed twice",
        Finding::REACHED_FREED => b"reachable freed",
        Finding::UNREACHABLE => b"unreachable unfreed",
        Finding::FREE_RANGE => b"free page out of range",
        Finding::ONE_CHILD => b"branch of one child",
        Finding::ROOT_VALUE => b"value in the root bucket",
        Finding::LARGE_KEY => b"key too large for bbolt",
        Finding::FIRST_KEY => b"first key isn't its branch key",
        Finding::LEAF_DEPTH => b"leaf at another depth",
        Finding::INLINE_NUMBER => b"inline page with a number",
        _ => page_fault_words(code),
    }
}
