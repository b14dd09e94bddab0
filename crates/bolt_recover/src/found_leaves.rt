//! The search for found pages among what no kept way leads to.
ghost use Rattle.std.specs.List.{All};
ghost use Rattle.std.specs.Prelude.{IfOk};
ghost use Rattle.bolt_check.specs.Leftovers.{leftovers_file, leftovers_meta};
ghost use Rattle.bolt_recover.specs.{Private.LeavesLeft.AreAmong, Private.LeavesLeft.NotesFree, ShownFound.IsFoundView};

use crate::found_page::FoundPage;
use bolt_check::{Leftovers, NoMemory};
use std::alloc::Global;

/// Finds all intact leaves among what is left over, by rising number.
pub(crate) fn find_leaves<'a>(
    alloc: Global,
    mut leftovers: Leftovers<'a>,
) -> Result<Vec<FoundPage<'a>>, NoMemory>
    requires { NotesFree leftovers }
    ensures found { IfOk result (λ found. AreAmong leftovers.entry found.items) }
    ensures views { IfOk result (λ found.
        All (IsFoundView (leftovers_file leftovers.entry) (leftovers_meta leftovers.entry))
        found.items) }
{
    let mut found = Vec::new(alloc);
    for number in 0..leftovers.end() {
        found.reserve(1)?;
        if let Some(page) = leftovers.take(number) {
            found.push_reserved(FoundPage::new(number, page));
        }
    }
    Ok(found)
}
