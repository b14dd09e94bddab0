//! The map of all pages of a file.
ghost use Rattle.std.specs.Prelude.{◌≡◌, ◌+◌, ◌-◌, ◌≤◌, map, true};
ghost use Rattle.std.specs.List.{range_with_len};
ghost use Rattle.bolt_format.specs.{Endings.ending, Wrote.Wrote};
ghost use Rattle.bolt_check.specs.{CheckedFiles.has_accounts, CheckedFiles.meta_of, RoledFiles.roles_checked};
ghost use Rattle.bolt_report.specs.{PageMaps.lines_of, PageMaps.map_line, PageMaps.map_of, PageMaps.page_mark, PageTables.ForRoles};

use crate::page_table::{free_past, page_count, put_past};
use arrayvec::ArrayVec;
use bolt_check::{Role, Roles};
use bolt_format::{Sink, SinkFault};
use bolt_text::{Piece, put_pieces};

/// The number of pages on a line of the map.
const LINE_PAGES: u64 = 64;

/// Writes a map of all pages of a file by their roles (docs/COMMANDS.md, "pages"): a
/// character for each page that begins in the file below the high-water mark, 64 a line, and the
/// number of free pages past the end of the file. Needs no memory.
///
/// # Errors
///
/// `SinkFault` if the sink failed. It has then accepted a prefix of the text.
pub fn put_page_map<S: Sink>(table: &Roles<'_>, sink: &mut S) -> Result<(), SinkFault>
    requires { has_accounts (roles_checked table.now) ≡ true }
    ensures { ForRoles (roles_checked table.now) (λ roles.
        Wrote S.Sink sink.old sink.new (map_of (roles_checked table.now) roles) (ending result)) }
{
    put_map_lines(table, sink)?;
    put_past(free_past(table), sink)
}

/// Writes the lines of the pages in the file.
fn put_map_lines<S: Sink>(table: &Roles<'_>, sink: &mut S) -> Result<(), SinkFault>
    requires { has_accounts (roles_checked table.now) ≡ true }
    ensures { ForRoles (roles_checked table.now) (λ roles.
        Wrote S.Sink sink.old sink.new (lines_of (roles_checked table.now) roles) (ending result)) }
{
    let end = page_count(&table.checked());
    for line in 0..end.div_ceil(LINE_PAGES) {
        let first = LINE_PAGES * line;
        put_line(table, first, first + LINE_PAGES.min(end - first), sink)?;
    }
    Ok(())
}

/// Writes the line of the pages from `first` to before `end`.
fn put_line<S: Sink>(table: &Roles<'_>, first: u64, end: u64, sink: &mut S) -> Result<(), SinkFault>
    requires accounts { has_accounts (roles_checked table.now) ≡ true }
    requires first { first ≤ end }
    requires end { end ≤ first + LINE_PAGES }
    requires below { end ≤ (meta_of (roles_checked table.now)).high_water }
    ensures { ForRoles (roles_checked table.now) (λ roles.
        Wrote S.Sink sink.old sink.new (map_line roles first (end - first)) (ending result)) }
{
    put_pieces(
        &[
            Piece::NumberColumn(first, 8),
            Piece::Bytes(b" "),
            Piece::Bytes(page_marks(table, first, end).as_slice()),
            Piece::Bytes(b"\n"),
        ],
        sink,
    )
}

/// The characters of the pages from `first` to before `end`.
fn page_marks(table: &Roles<'_>, first: u64, end: u64) -> ArrayVec<u8, 64>
    requires accounts { has_accounts (roles_checked table.now) ≡ true }
    requires first { first ≤ end }
    requires end { end ≤ first + LINE_PAGES }
    requires below { end ≤ (meta_of (roles_checked table.now)).high_water }
    ensures { ForRoles (roles_checked table.now) (λ roles.
        result.items ≡ map (λ n. page_mark (roles n)) (range_with_len first (end - first))) }
{
    let mut marks = ArrayVec::new();
    for id in first..end {
        marks.push(page_mark(table.role(id)));
    }
    marks
}

/// The character of a page with this role.
fn page_mark(role: Role) -> u8
    ensures { result ≡ page_mark role }
{
    match role {
        Role::Meta => b'M',
        Role::Branch => b'B',
        Role::Leaf => b'L',
        Role::Freelist => b'F',
        Role::Inside => b'+',
        Role::Free => b'.',
    }
}
