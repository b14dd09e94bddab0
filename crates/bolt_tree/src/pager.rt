//! Opens the pages of a file, and counts them.
ghost use Rattle.std.specs.Prelude.{◌≡◌, ◌<◌, ◌^◌, Some};
ghost use Rattle.bolt_format.specs.ShownGoodPages.{shown};

use bolt_check::Checked;
use bolt_format::{Page, TreePage, known};

/// Opens the pages of a sound file, and counts them. It can't be copied, and none of its calls
/// returns the file. So code that has nothing else of the file can't open a page uncounted.
#[derive(Drop)]
pub struct Pager<'a> {
    checked: Checked<'a>,
    opened: u64,
    ghost fits: { opened < 2 ^ 64 },
}

#[tactic(auto, unfolding(crate::specs::Pagers::pager_checked, crate::specs::Pagers::pager_opened))]
impl<'a> Pager<'a> {
    ghost use Rattle.bolt_check.specs.Counts.{counted};
    ghost use Rattle.bolt_tree.specs.Pagers.{HasWay, checked_page, pager_checked, pager_opened};
    ghost use Rattle.bolt_tree.specs.{Private.Contents.checked_content, Private.ShownPages.opened_content};

    /// A pager that has opened no page.
    pub fn new(checked: Checked<'a>) -> Pager<'a>
        ensures checked { pager_checked result ≡ checked.entry }
        ensures opened { pager_opened result ≡ 0 }
    {
        Pager { checked, opened: 0 }
    }

    /// Opens page `id`. A way leads to it.
    pub fn open(&mut self, id: u64) -> Page<'a>
        requires { HasWay (pager_checked self.old) id }
        ensures page { checked_page (pager_checked self.old) id ≡ Some (shown result) }
        ensures checked { pager_checked self.new ≡ pager_checked self.old }
        ensures opened { pager_opened self.new ≡ counted (pager_opened self.old) 1 }
    {
        self.opened = self.opened.saturating_add(1);
        known(self.checked.bytes(), &self.checked.meta(), id)
    }

    /// Opens page `id` as a page of a tree. A way leads to it.
    #[tactic(auto, using(crate::proofs::WayPages::content_opened, crate::proofs::WayPages::way_kind))]
    pub(crate) fn open_tree_page(&mut self, id: u64) -> TreePage<'a>
        requires { HasWay (pager_checked self.old) id }
        ensures content { opened_content result ≡ checked_content (pager_checked self.old) id }
        ensures checked { pager_checked self.new ≡ pager_checked self.old }
        ensures opened { pager_opened self.new ≡ counted (pager_opened self.old) 1 }
    {
        self.open(id).tree_page().unwrap()
    }

    /// Counts an inline page, which is in a value.
    pub fn note(&mut self)
        ensures checked { pager_checked self.new ≡ pager_checked self.old }
        ensures opened { pager_opened self.new ≡ counted (pager_opened self.old) 1 }
    {
        self.opened = self.opened.saturating_add(1);
    }

    /// The number of pages that it has opened. Saturates at 2^64 - 1.
    pub fn opened(&self) -> u64
        ensures { result ≡ pager_opened self.now }
    {
        self.opened
    }
}
