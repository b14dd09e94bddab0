//! Counts what is recovered of a file.
ghost use Rattle.std.specs.Prelude.{◌≡◌, ◌&&◌, IfOk, IfSome};
ghost use Rattle.bolt_tree.specs.{Paths.path_of, ShownEntries.item_view};
ghost use Rattle.bolt_recover.specs.{Private.Counting.IsCount, Recovered.ForRecovered, States.is_root_value};
ghost use Rattle.bolt_recover.specs.Recoveries.{HasReportedAll, recovery_file, recovery_left, recovery_meta};

use crate::recovery::Recovery;
use crate::state::Figures;
use bolt_check::NoMemory;
use bolt_tree::Item;

/// The figures of what is recovered, of which nothing was returned so far. If only buckets are wanted
/// in the root bucket (`alone`), there are none as soon as it has a value.
pub(crate) fn count_recovered<'a>(
    recovery: &mut Recovery<'a>,
    alone: bool,
) -> Result<Option<Figures<'a>>, NoMemory>
    requires { ForRecovered (recovery_file recovery.old) (recovery_meta recovery.old) (λ listing.
        recovery_left recovery.old listing ≡ listing) }
    ensures count { IfOk result
        (IsCount (recovery_file recovery.old) (recovery_meta recovery.old) alone) }
    ensures all { IfOk result (λ figures. IfSome figures (λ _.
        HasReportedAll recovery.old recovery.new)) }
{
    let mut figures = Figures::none();
    'members: while let Some(item) = recovery.next()? {
        if is_unwanted(alone, recovery.path(), &item) {
            return Ok(None);
        }
        figures.add(recovery.path(), &item);
    }
    Ok(Some(figures))
}

/// Whether it is a value in the root bucket, which is to have buckets alone.
fn is_unwanted(alone: bool, path: &[&[u8]], item: &Item<'_>) -> bool
    ensures { result ≡ (alone && is_root_value (path_of path.now, item_view item.now)) }
{
    match item {
        Item::Value(_) => alone && path.len() == 1,
        Item::Bucket { .. } => false,
    }
}
