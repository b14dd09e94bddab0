//! Copies: what they look like, how they come to a target, and what is reported of them: what is lost and
//! found of the file, what a repair puts back and doesn't copy, and the lengths of both.
ghost use Rattle.std.specs.Prelude.{◌≡◌, List, OnOk, map};
ghost use Rattle.std.specs.List.{All};
ghost use Rattle.bolt_bulk.specs.WholeListings.{IsWholeListing};
ghost use Rattle.bolt_etcd.specs.Wire.UnreadEntries.{shown_unread};
ghost use Rattle.bolt_format.specs.{Endings.ending, Metas.IsPageSize, Wrote.Wrote};
ghost use Rattle.bolt_job.specs.CopyKinds.{is_snapshot};
ghost use Rattle.bolt_layout.specs.Copies.{IsOfOneTree};
ghost use Rattle.bolt_recover.specs.ShownLosses.{lost_view};
ghost use Rattle.bolt_report.specs.FoundLines.{IsFoundLeaf};
ghost use Rattle.bolt_tree.specs.Listing.{Member};
ghost use Rattle.bolt_commands.specs.{Answers.WritesAnswer, CopyAnswers.lengths_line, CopyLayouts.layout_for, RepairAnswers.repair_status};
ghost use Rattle.bolt_commands.specs.{GoodCopies.HasGoodCopies, Private.Copying.CopiesTo, Private.Copying.ForLayout};
ghost use Rattle.bolt_commands.specs.{Private.Copying.IsAskedBlueprint, Private.Reports.report_answer, Private.Reports.report_text};

use crate::failure::Outcome;
use crate::file_faults::{FileFaults, put_file_faults};
use crate::hashed_copy::{MembersSource, copy_hashed};
use crate::laws::whole_copies_are_good;
use crate::repair_counts::{RepairCounts, put_if_repaired};
use bolt_bulk::{Blueprint, BulkFault, compact_members};
use bolt_etcd::UnreadEntry;
use bolt_format::laws::fits;
use bolt_format::{Meta, Sink, SinkFault};
use bolt_job::{CopyKind, PageSize};
use bolt_layout::Layout;
use bolt_recover::{FoundPage, Lost};
use bolt_report::{put_lost, put_unread};
use bolt_text::{Piece, put_pieces};
use bolt_tree::Members;
use std::alloc::Global;
use std::marker::PhantomData;

/// The layout of a copy of this kind.
pub(crate) fn layout(kind: CopyKind) -> Layout
    ensures { result ≡ layout_for kind }
{
    match kind {
        CopyKind::Plain => Layout::Plain,
        CopyKind::ForBbolt | CopyKind::EtcdSnapshot => Layout::Balanced,
    }
}

/// What the copy of a file with this meta looks like, at this page size if one is asked for.
pub(crate) fn blueprint_of(kind: CopyKind, size: Option<PageSize>, meta: &Meta) -> Blueprint
    requires { IsPageSize meta.now.page_size }
    ensures { IsAskedBlueprint kind size meta.now result }
{
    let page_size = match size {
        Some(size) => size.bytes,
        None => u64::from(meta.page_size),
    };
    Blueprint {
        layout: layout(kind),
        page_size,
        sequence: meta.root_sequence,
    }
}

/// Writes the copy of all members of a listing that is of one tree, which is a good copy, and returns
/// its length.
pub(crate) fn copy_members<'m, M: Members<'m>, T: Sink>(
    alloc: Global,
    members: &mut M,
    blueprint: &Blueprint,
    kind: CopyKind,
    target: &mut T,
) -> Result<u64, BulkFault>
    requires { IsWholeListing M.reads M.listing M.left members.old }
    ensures copied { ForLayout M.reads M.listing members.old blueprint.now (λ listing layout.
        CopiesTo T.Sink target.old target.new layout listing (is_snapshot kind) result) }
    ensures end { OnOk result (M.ends_as members.old members.new) }
{
    copies_are_good(blueprint.sequence);
    if !kind.is_snapshot() {
        let done = compact_members(alloc, members, blueprint, target)?;
        return Ok(done.bytes);
    }
    let source = MembersSource {
        members,
        of: PhantomData,
    };
    let (source, copied) = copy_hashed(alloc, source, blueprint, target);

    // Taken apart, since else nothing is known of the members.
    let MembersSource {
        members: _members,
        of: _,
    } = source;
    copied
}

/// The copies of a listing that is of one tree are good.
fn copies_are_good(sequence: u64)
    ensures { (listing : List Member) → ∥ IsOfOneTree listing ∥₁
        → ∥ HasGoodCopies listing sequence ∥₁ }
{
    fits(sequence);
    whole_copies_are_good();
}

/// What is reported of a copy beside its length.
#[derive(Clone, Copy)]
pub(crate) struct CopyReport<'l, 'f> {
    /// What is wrong with the file apart from its pages.
    pub faults: FileFaults,
    pub lost: Lost<'l>,
    pub found: &'f [FoundPage<'f>],
    /// The entries of the bucket `key` that a repair doesn't copy.
    pub unread: &'l [UnreadEntry<'l>],
    /// What is counted of a repair, if the copy is one of a repair.
    pub counts: Option<RepairCounts>,
    /// The length of the file.
    pub source: u64,
}

/// Ends a job that made a copy of this length: reports it, and returns the status.
pub(crate) fn end_copy<O: Sink>(copy: u64, report: &CopyReport<'_, '_>, out: &mut O) -> Outcome
    requires { All IsFoundLeaf report.now.found.now }
    ensures { WritesAnswer O.Sink out.old out.new (report_answer report.now copy) result }
{
    put_copy_report(report, copy, out)?;
    Ok(status_of(report.faults, report.lost, report.unread))
}

#[tactic(auto, using(bolt_format::proofs::Exports::wrote))]
fn put_copy_report<O: Sink>(
    report: &CopyReport<'_, '_>,
    copy: u64,
    out: &mut O,
) -> Result<(), SinkFault>
    requires { All IsFoundLeaf report.now.found.now }
    ensures { Wrote O.Sink out.old out.new (report_text report.now copy) (ending result) }
{
    put_file_faults(report.faults, out)?;
    put_lost(report.lost, report.found, out)?;
    put_unread(report.unread, out)?;
    put_if_repaired(report.counts, out)?;
    put_lengths(report.source, copy, out)
}

/// The status of a copy if this is wrong with the file, this is lost of it, and these entries aren't
/// copied.
fn status_of(faults: FileFaults, lost: Lost<'_>, unread: &[UnreadEntry<'_>]) -> u8
    ensures { result ≡ repair_status faults (lost_view lost.entry) (map shown_unread unread.now) }
{
    if unread.is_empty() {
        u8::from(!(faults.is_fine() && lost.is_nothing()))
    } else {
        1
    }
}

/// Writes the lengths of the file and of its copy.
#[tactic(auto, using(bolt_format::proofs::Exports::wrote))]
fn put_lengths<O: Sink>(source: u64, copy: u64, out: &mut O) -> Result<(), SinkFault>
    ensures { Wrote O.Sink out.old out.new (lengths_line source copy) (ending result) }
{
    put_pieces(
        &[
            Piece::Number(source),
            Piece::Field(b" -> ", copy),
            Piece::Bytes(b" bytes\n"),
        ],
        out,
    )
}
