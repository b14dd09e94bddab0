//! Roles: what each page of a file is for, as a table of uses says it.
ghost use Rattle.std.specs.Prelude.{◌≡◌, ◌<◌};
ghost use Rattle.bolt_check.specs.{CheckedFiles.in_checked, CheckedFiles.meta_of, Private.RoleTables.AreUses, Private.RoleTables.role_by};
ghost use Rattle.bolt_check.specs.{Private.Tables.use_at};
ghost use Rattle.bolt_check.specs.Roles.{HasRole};

use crate::checked::Checked;
use crate::table::{PageUse, use_at_first};
use bolt_format::Meta;
use bolt_format::laws::fits;

/// What each page of a file is for (docs/SOUND.md, "Roles"). The accounts of the file are right.
/// The table needs a byte for each whole page that lies in the file and below the high-water mark.
#[derive(Drop)]
pub struct Roles<'a> {
    pub(crate) checked: Checked<'a>,
    pub(crate) table: Vec<PageUse>,
    ghost uses: { ∥ AreUses checked.bytes.now checked.meta table.items ∥₁ },
}

#[tactic(auto, unfolding(crate::specs::RoledFiles::roles_checked, crate::specs::CheckedFiles::bytes_of, crate::specs::CheckedFiles::meta_of))]
impl<'a> Roles<'a> {
    ghost use Rattle.bolt_check.specs.RoledFiles.{roles_checked};

    /// The file whose pages have these roles.
    pub fn checked(&self) -> Checked<'a>
        ensures { result ≡ roles_checked self.now }
    {
        self.checked
    }

    /// The role of the page with this number, which is below the high-water mark. Needs no memory.
    pub fn role(&self, id: u64) -> Role
        requires { id < (meta_of (roles_checked self.now)).high_water }
        ensures { ∥ in_checked HasRole (roles_checked self.now) id result ∥₁ }
    {
        fits(self.checked.meta.high_water);
        role_by(&self.checked.meta, id, page_use(&self.table, id))
    }
}

/// The table's entry of a page; past its end, what the page is used for from the start.
fn page_use(table: &[PageUse], id: u64) -> PageUse
    ensures { result ≡ use_at table.now id }
{
    if id < table.len() as u64 {
        return table[id as usize];
    }
    use_at_first(id as usize)
}

/// The role of a page with this use.
fn role_by(meta: &Meta, id: u64, page_use: PageUse) -> Role
    ensures { result ≡ role_by meta.now id page_use }
{
    if id < 2 {
        return Role::Meta;
    }
    if id == meta.freelist {
        return Role::Freelist;
    }
    match page_use {
        PageUse::Branch => Role::Branch,
        PageUse::Leaf => Role::Leaf,
        PageUse::Used | PageUse::UsedFree | PageUse::UsedFreeTwice => Role::Inside,
        PageUse::Unused | PageUse::Free | PageUse::FreeTwice => Role::Free,
    }
}

/// What a page below the high-water mark is for (docs/SOUND.md, "Roles").
#[derive(Clone, Copy, Debug, PartialEq, Eq)]
pub enum Role {
    /// A meta page.
    Meta,
    /// The first page of a branch that a way leads to.
    Branch,
    /// The first page of a leaf that a way leads to.
    Leaf,
    /// The first page of the freelist.
    Freelist,
    /// A later page of the span of a branch, of a leaf or of the freelist.
    Inside,
    /// Any other page: it isn't in use.
    Free,
}
