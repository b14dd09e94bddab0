//! The table of all pages of a file.
ghost use Rattle.std.specs.Prelude.{◌≡◌, ◌<◌, IfErr, IsSome, length, true, [], codes, decimal};
ghost use Rattle.bolt_format.specs.{Endings.ending, Freelists.free_ids_at, Pages.page_at, Wrote.Wrote};
ghost use Rattle.bolt_check.specs.{CheckedFiles.bytes_of, CheckedFiles.has_accounts, CheckedFiles.meta_of, RoledFiles.roles_checked, Roles.HasRole};
ghost use Rattle.bolt_report.specs.PageTables.{ForRoles, begun, free_past, head_rows, items_row, overflow_text, page_row, pages_in, past_line, row};
ghost use Rattle.bolt_report.specs.PageTables.{table_rows, table_text};
ghost use Rattle.bolt_text.specs.{ReportEndings.FailsByWriting, ReportEndings.report_ending, Lines.column, Pieces.piece_text};

use bolt_check::{Checked, Role, Roles, roles};
use bolt_format::{Sink, SinkFault, free_ids_at, known};
use bolt_text::{Piece, ReportFault, put, put_pieces};
use std::alloc::Global;

/// Writes the table of all pages of a file, after it has found their roles.
/// The file's accounts were tested too.
///
/// # Errors
///
/// As `ReportFault` says. Memory may run out for the roles of the pages.
pub fn pages<S: Sink>(alloc: Global, checked: Checked<'_>, sink: &mut S) -> Result<(), ReportFault>
    requires { has_accounts checked ≡ true }
    ensures written { ForRoles checked.entry (λ roles.
        Wrote S.Sink sink.old sink.new (table_text checked.entry roles) (report_ending result)) }
    ensures fault { IfErr result FailsByWriting }
{
    let table = roles(alloc, checked)?;
    put_page_table(&table, sink)?;
    Ok(())
}

/// Writes the table of all pages of a file by their roles (docs/COMMANDS.md, "pages"): a
/// line for each page that begins in the file below the high-water mark, except the later pages of
/// a span, and the number of free pages past the end of the file. Needs no memory.
///
/// # Errors
///
/// `SinkFault` if the sink failed. It has then accepted a prefix of the text.
pub fn put_page_table<S: Sink>(table: &Roles<'_>, sink: &mut S) -> Result<(), SinkFault>
    requires { has_accounts (roles_checked table.now) ≡ true }
    ensures { ForRoles (roles_checked table.now) (λ roles.
        Wrote S.Sink sink.old sink.new (table_text (roles_checked table.now) roles)
        (ending result)) }
{
    put_table_head(sink)?;
    put_rows(table, sink)?;
    put_past(free_past(table), sink)
}

/// The number of pages that begin in the file below the high-water mark.
pub(crate) fn page_count(checked: &Checked<'_>) -> u64
    requires { 0 < (meta_of checked.now).page_size }
    ensures { result ≡ length (pages_in (bytes_of checked.now) (meta_of checked.now)) }
{
    pages_begun(checked).min(checked.meta().high_water)
}

/// The number of pages that begin in the file.
fn pages_begun(checked: &Checked<'_>) -> u64
    requires { 0 < (meta_of checked.now).page_size }
    ensures { result ≡ begun (bytes_of checked.now) (meta_of checked.now) }
{
    (checked.bytes().len() as u64).div_ceil(u64::from(checked.meta().page_size))
}

/// The number of free pages past the end of the file: all pages from there up to the mark. It is
/// computed, not counted page by page, since the mark may be any number.
pub(crate) fn free_past(table: &Roles<'_>) -> u64
    requires { has_accounts (roles_checked table.now) ≡ true }
    ensures { ForRoles (roles_checked table.now) (λ roles.
        result ≡ free_past (roles_checked table.now) roles) }
{
    let checked = table.checked();
    checked
        .meta()
        .high_water
        .saturating_sub(pages_begun(&checked))
}

/// Writes the rows of the pages in the file.
fn put_rows<S: Sink>(table: &Roles<'_>, sink: &mut S) -> Result<(), SinkFault>
    requires { has_accounts (roles_checked table.now) ≡ true }
    ensures { ForRoles (roles_checked table.now) (λ roles.
        Wrote S.Sink sink.old sink.new (table_rows (roles_checked table.now) roles)
        (ending result)) }
{
    let checked = table.checked();
    let end = page_count(&checked);
    for id in 0..end {
        put_row(&checked, id, table.role(id), sink)?;
    }
    Ok(())
}

/// Writes the row of a page with this role.
fn put_row<S: Sink>(
    checked: &Checked<'_>,
    id: u64,
    role: Role,
    sink: &mut S,
) -> Result<(), SinkFault>
    requires { ∥ HasRole (bytes_of checked.now) (meta_of checked.now) id role ∥₁ }
    ensures { Wrote S.Sink sink.old sink.new
        (page_row (bytes_of checked.now) (meta_of checked.now) id role) (ending result) }
{
    match role {
        Role::Meta => put_items_row(id, b"meta", 0, 0, sink),
        Role::Branch => put_tree_row(checked, id, b"branch", sink),
        Role::Leaf => put_tree_row(checked, id, b"leaf", sink),
        Role::Freelist => put_freelist_row(checked, id, sink),
        Role::Inside => Ok(()),
        Role::Free => put_free_row(id, sink),
    }
}

/// Writes the row of a branch or a leaf.
fn put_tree_row<S: Sink>(
    checked: &Checked<'_>,
    id: u64,
    kind: &[u8],
    sink: &mut S,
) -> Result<(), SinkFault>
    requires { IsSome (page_at (bytes_of checked.now) (meta_of checked.now) id) }
    ensures { Wrote S.Sink sink.old sink.new (items_row checked.now id kind.now) (ending result) }
{
    let page = known(checked.bytes(), &checked.meta(), id);
    put_items_row(id, kind, u64::from(page.count()), page.overflow(), sink)
}

/// Writes the row of the freelist's first page.
fn put_freelist_row<S: Sink>(checked: &Checked<'_>, id: u64, sink: &mut S) -> Result<(), SinkFault>
    requires { ∥ HasRole (bytes_of checked.now) (meta_of checked.now) id Role.Freelist ∥₁ }
    ensures { Wrote S.Sink sink.old sink.new
        (page_row (bytes_of checked.now) (meta_of checked.now) id Role.Freelist) (ending result) }
{
    let page = known(checked.bytes(), &checked.meta(), id);
    let items = free_count(checked, id);
    put_items_row(id, b"freelist", items, page.overflow(), sink)
}

/// The number of ids of the freelist.
fn free_count(checked: &Checked<'_>, id: u64) -> u64
    requires { ∥ HasRole (bytes_of checked.now) (meta_of checked.now) id Role.Freelist ∥₁ }
    ensures { result ≡ length (free_ids_at (bytes_of checked.now) (meta_of checked.now) id) }
{
    match free_ids_at(checked.bytes(), &checked.meta(), id) {
        Ok(ids) => ids.len() as u64,
        Err(_) => unreachable!(),
    }
}

/// The two head rows of the table.
const HEAD: &[u8] = b"ID       TYPE       ITEMS  OVRFLW\n======== ========== ====== ======\n";

/// Writes the two head rows of the table.
#[tactic(auto, unfolding(bolt_text::specs::Lines::column, crate::specs::PageTables::row))]
fn put_table_head<S: Sink>(sink: &mut S) -> Result<(), SinkFault>
    ensures { Wrote S.Sink sink.old sink.new head_rows (ending result) }
{
    put(HEAD, sink)
}

/// Writes the row of a page that has items. An overflow of 0 is left out.
fn put_items_row<S: Sink>(
    id: u64,
    kind: &[u8],
    items: u64,
    overflow: u32,
    sink: &mut S,
) -> Result<(), SinkFault>
    ensures { Wrote S.Sink sink.old sink.new
        (row (decimal id) kind.now (decimal items) (overflow_text overflow)) (ending result) }
{
    put_pieces(
        &[
            Piece::NumberColumn(id, 8),
            Piece::Bytes(b" "),
            Piece::Column(kind, 10),
            Piece::Bytes(b" "),
            Piece::NumberColumn(items, 6),
            Piece::Bytes(b" "),
            overflow_column(overflow),
            Piece::Bytes(b"\n"),
        ],
        sink,
    )
}

fn overflow_column(overflow: u32) -> Piece<'static>
    ensures { piece_text result ≡ column 6 (overflow_text overflow) }
{
    if overflow == 0 {
        Piece::Column(b"", 6)
    } else {
        Piece::NumberColumn(u64::from(overflow), 6)
    }
}

/// Writes the row of a free page.
fn put_free_row<S: Sink>(id: u64, sink: &mut S) -> Result<(), SinkFault>
    ensures { Wrote S.Sink sink.old sink.new (row (decimal id) (codes "free") [] [])
        (ending result) }
{
    put_pieces(
        &[
            Piece::NumberColumn(id, 8),
            Piece::Bytes(b" "),
            Piece::Column(b"free", 10),
            Piece::Bytes(b" "),
            Piece::Column(b"", 6),
            Piece::Bytes(b" "),
            Piece::Column(b"", 6),
            Piece::Bytes(b"\n"),
        ],
        sink,
    )
}

/// Writes the line with the number of free pages past the end of the file, or nothing if there are
/// none.
pub(crate) fn put_past<S: Sink>(count: u64, sink: &mut S) -> Result<(), SinkFault>
    ensures { Wrote S.Sink sink.old sink.new (past_line count) (ending result) }
{
    if count == 0 {
        Ok(())
    } else {
        let words = b" free pages past the end of the file\n";
        put_pieces(&[Piece::Number(count), Piece::Bytes(words)], sink)
    }
}
