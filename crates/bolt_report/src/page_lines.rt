//! A page as a text.
ghost use Rattle.std.specs.Prelude.{◌≡◌, ◌≢◌, ◌↔◌, None, Err, IfOk, Some, ◌++◌, IsTrue, flat_map};
ghost use Rattle.std.specs.Result.{result_err};
ghost use Rattle.bolt_format.specs.{Endings.ending, Freelists.free_ids_at, Pages.page_at, ShownGoodPages.shown, ShownIds.shown_ids, Wrote.Wrote};
ghost use Rattle.bolt_format.specs.TreePages.{branches_on, leaves_on};
ghost use Rattle.bolt_format.specs.{ElementPlaces.branch_view, ElementPlaces.leaf_view, Elements.IsBucketValue};
ghost use Rattle.bolt_report.specs.PageLines.{head_lines, page_head, item_lines, items_on, kind_text, page_lines, branch_line, bucket_end, id_line};
ghost use Rattle.bolt_report.specs.PageLines.{leaf_line, read_ids};
ghost use Rattle.bolt_format.specs.declared.header.Kind.TheVariants as kinds;
ghost use Rattle.bolt_text.specs.ListLines.{value_end};
ghost use Rattle.bolt_report.specs.PageTexts.{page_text, page_text_fault};
ghost use Rattle.bolt_text.specs.ReportEndings.{report_ending};
ghost use Rattle.hex.specs.Hex.{encode_lower};

use bolt_format::{
    Branch, BranchPage, FreeIds, Kind, Leaf, LeafPage, Meta, Page, PageFault, Sink, SinkFault,
    TreePage, free_ids_at, head, page,
};
use bolt_text::{Piece, ReportFault, put_pieces};

/// A page that passed its tests, with its ids if it is a freelist.
#[derive(Clone, Copy)]
struct PageWithIds<'a> {
    page: Page<'a>,
    ids: Option<FreeIds<'a>>,
    ghost no_ids: { (shown page).kind ≡ kinds.Meta → ids ≡ None },
}

/// Writes what page `id` of a file shows under a meta (docs/COMMANDS.md, "page").
///
/// # Errors
///
/// `Page` with the first test that the page fails, or if it is a freelist page whose ids don't fit
/// in its span; the sink is then unchanged. `Sink` if the sink failed; it has then accepted a
/// prefix of the text. There is no other error.
pub fn page_text<S: Sink>(
    file: &[u8],
    meta: &Meta,
    id: u64,
    sink: &mut S,
) -> Result<(), ReportFault>
    ensures written { Wrote S.Sink sink.old sink.new (page_text file.now meta.now id)
        (report_ending result) }
    ensures memory { result ≢ Err ReportFault.NoMemory }

    // A page is refused before anything is written.
    ensures page { (fault : PageFault) → (result ≡ Err (ReportFault.Page fault))
        ↔ (page_text_fault file.now meta.now id ≡ Some fault) }
    ensures untouched { (fault : PageFault) → result ≡ Err (ReportFault.Page fault)
        → sink.new ≡ sink.old }
{
    let found = find(file, meta, id)?;
    found.put(id, sink)?;
    Ok(())
}

/// The page, and its ids if it is a freelist.
#[tactic(auto, using(crate::proofs::PageFaults::faults))]
fn find<'a>(file: &'a [u8], meta: &Meta, id: u64) -> Result<PageWithIds<'a>, PageFault>
    ensures page { IfOk result (λ found. page_at file.now meta.now id ≡ Some (shown found.page)) }
    ensures ids { IfOk result (λ found. (shown found.page).kind ≡ Kind.Freelist
        → read_ids found.ids ≡ free_ids_at file.now meta.now id) }
    ensures fault { result_err result ≡ page_text_fault file.now meta.now id }
{
    let page = page(file, meta, id)?;
    match page.kind() {
        Kind::Freelist => {
            let ids = free_ids_at(file, meta, id)?;
            Ok(PageWithIds {
                page,
                ids: Some(ids),
            })
        }
        _ => Ok(PageWithIds { page, ids: None }),
    }
}

impl PageWithIds<'_> {
    /// Writes the lines of page `id`.
    fn put<S: Sink>(&self, id: u64, sink: &mut S) -> Result<(), SinkFault>
        ensures { Wrote S.Sink sink.old sink.new
            (page_lines id (shown self.now.page) (read_ids self.now.ids)) (ending result) }
    {
        self.put_head(id, sink)?;
        self.put_items(sink)
    }

    /// Writes the first four lines.
    #[tactic(auto, unfolding(crate::specs::PageLines::head_lines))]
    fn put_head<S: Sink>(&self, id: u64, sink: &mut S) -> Result<(), SinkFault>
        ensures { Wrote S.Sink sink.old sink.new
            (page_head id (shown self.now.page) (read_ids self.now.ids)) (ending result) }
    {
        put_pieces(
            &[
                Piece::Figure(b"page", id),
                Piece::Bytes(b"type "),
                Piece::Bytes(kind_name(self.page.kind())),
                Piece::Bytes(b"\n"),
                Piece::Figure(b"items", self.item_count()),
                Piece::Figure(b"overflow", u64::from(self.page.overflow())),
            ],
            sink,
        )
    }

    /// The number of its elements or ids. A meta page has none.
    fn item_count(&self) -> u64
        ensures { result ≡ items_on (shown self.now.page).kind (shown self.now.page).count
            (read_ids self.now.ids) }
    {
        match (self.page.tree_page(), &self.ids) {
            (Some(page), _) => u64::from(page.count()),
            (None, Some(ids)) => ids.len() as u64,
            (None, None) => 0,
        }
    }

    /// Writes a line for each of them.
    fn put_items<S: Sink>(&self, sink: &mut S) -> Result<(), SinkFault>
        ensures { Wrote S.Sink sink.old sink.new
            (item_lines (shown self.now.page).kind (shown self.now.page) (read_ids self.now.ids))
            (ending result) }
    {
        match (self.page.tree_page(), &self.ids) {
            (Some(TreePage::Branch(page)), _) => put_branches(&page, sink),
            (Some(TreePage::Leaf(page)), _) => put_leaves(&page, sink),
            (None, Some(ids)) => put_ids(ids, sink),
            (None, None) => Ok(()),
        }
    }
}

fn kind_name(kind: Kind) -> &'static [u8]
    ensures { result.now ≡ kind_text kind }
{
    match kind {
        Kind::Branch => b"branch",
        Kind::Leaf => b"leaf",
        Kind::Meta => b"meta",
        Kind::Freelist => b"freelist",
    }
}

/// Writes a line for each element of a branch page.
fn put_branches<S: Sink>(page: &BranchPage<'_>, sink: &mut S) -> Result<(), SinkFault>
    ensures { Wrote S.Sink sink.old sink.new (flat_map branch_line (branches_on page.now))
        (ending result) }
{
    for i in 0..page.count() {
        put_branch(&page.element(i), sink)?;
    }
    Ok(())
}

/// Writes a line for each element of a leaf page.
fn put_leaves<S: Sink>(page: &LeafPage<'_>, sink: &mut S) -> Result<(), SinkFault>
    ensures { Wrote S.Sink sink.old sink.new (flat_map leaf_line (leaves_on page.now))
        (ending result) }
{
    for i in 0..page.count() {
        put_leaf(&page.element(i), sink)?;
    }
    Ok(())
}

/// Writes a line for each id of a freelist.
fn put_ids<S: Sink>(ids: &FreeIds<'_>, sink: &mut S) -> Result<(), SinkFault>
    ensures { Wrote S.Sink sink.old sink.new (flat_map id_line (shown_ids ids.now))
        (ending result) }
{
    for i in 0..ids.len() {
        put_id(ids.get(i), sink)?;
    }
    Ok(())
}

#[tactic(auto, unfolding(crate::specs::PageLines::branch_line))]
fn put_branch<S: Sink>(branch: &Branch<'_>, sink: &mut S) -> Result<(), SinkFault>
    ensures { Wrote S.Sink sink.old sink.new (branch_line (branch_view branch.now))
        (ending result) }
{
    put_pieces(
        &[
            Piece::Hex(branch.key),
            Piece::Field(b" -> ", branch.child),
            Piece::Bytes(b"\n"),
        ],
        sink,
    )
}

#[tactic(auto, unfolding(crate::specs::PageLines::leaf_line))]
fn put_leaf<S: Sink>(leaf: &Leaf<'_>, sink: &mut S) -> Result<(), SinkFault>
    requires { IsTrue leaf.now.is_bucket → IsBucketValue leaf.now.value.now }
    ensures { Wrote S.Sink sink.old sink.new (leaf_line (leaf_view leaf.now)) (ending result) }
{
    if leaf.is_bucket {
        put_bucket_leaf(leaf.key, leaf.value, sink)
    } else {
        put_value_leaf(leaf.key, leaf.value, sink)
    }
}

#[tactic(auto, unfolding(crate::specs::PageLines::bucket_end))]
fn put_bucket_leaf<S: Sink>(key: &[u8], value: &[u8], sink: &mut S) -> Result<(), SinkFault>
    requires { IsBucketValue value.now }
    ensures { Wrote S.Sink sink.old sink.new (encode_lower key.now ++ bucket_end value.now)
        (ending result) }
{
    let bucket = head(value);
    put_pieces(
        &[
            Piece::Hex(key),
            Piece::Field(b" bucket ", bucket.root),
            Piece::Field(b" ", bucket.sequence),
            Piece::Bytes(b"\n"),
        ],
        sink,
    )
}

#[tactic(auto, unfolding(bolt_text::specs::ListLines::value_end))]
fn put_value_leaf<'a, S: Sink>(
    key: &'a [u8],
    value: &'a [u8],
    sink: &mut S,
) -> Result<(), SinkFault>
    ensures { Wrote S.Sink sink.old sink.new (encode_lower key.now ++ value_end value.now)
        (ending result) }
{
    put_pieces(
        &[
            Piece::Hex(key),
            Piece::Bytes(b" = "),
            Piece::Hex(value),
            Piece::Bytes(b"\n"),
        ],
        sink,
    )
}

#[tactic(auto, unfolding(crate::specs::PageLines::id_line))]
fn put_id<S: Sink>(id: u64, sink: &mut S) -> Result<(), SinkFault>
    ensures { Wrote S.Sink sink.old sink.new (id_line id) (ending result) }
{
    put_pieces(&[Piece::Number(id), Piece::Bytes(b"\n")], sink)
}
