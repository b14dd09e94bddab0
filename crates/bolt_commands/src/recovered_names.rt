//! The names that `buckets` and `keys` print of what is recovered of a damaged file.
ghost use Rattle.std.specs.Prelude.{◌≡◌};
ghost use Rattle.bolt_commands.specs.{KeyAnswers.no_bucket, Private.Printing.PrintsAnswer, Private.Recovered.IsNamesPrint};
ghost use Rattle.bolt_commands.specs.{Private.Recovered.end_names};

use crate::failure::{Failure, Outcome, end_listing};
use crate::file_faults::metas_fault;
use crate::opening::Input;
use crate::shortfall::Shortfall;
use bolt_format::Sink;
use bolt_job::{Extent, MetaChoice, path_slices};
use bolt_recover::Lost;
use bolt_report::{Form, Names, NamesIn, put_member_names};

/// Which names are printed of what is recovered.
#[derive(Clone, Copy)]
pub(crate) struct RecoveredNames<'j> {
    pub meta: MetaChoice,
    /// The path of the bucket.
    pub path: &'j [Vec<u8>],
    pub names: Names<'j>,
    pub form: Form,
}

/// Writes names of entries of the bucket at a path, as they are recovered.
pub(crate) fn name_recovered<O: Sink>(
    input: Input<'_>,
    asked: RecoveredNames<'_>,
    out: &mut O,
) -> Outcome
    ensures { PrintsAnswer O.Sink out.old out.new
        (IsNamesPrint asked.entry input.entry.file.now) result }
{
    let mut recovery = input.recover(asked.meta)?;
    let other = metas_fault(Extent::Losses, input.file, asked.meta);
    let path = path_slices(input.alloc, asked.path)?;
    let wanted = NamesIn {
        bucket: path.as_slice(),
        names: asked.names,
    };
    let found = put_member_names(input.alloc, &mut recovery, wanted, asked.form, out)?;
    end_names(
        found,
        Shortfall::find(Lost::Parts(recovery.losses()), other),
    )
}

/// How a job ends that put what is recovered of a bucket, if it was found.
fn end_names(found: bool, shortfall: Option<Shortfall>) -> Outcome
    ensures { result ≡ end_names found shortfall }
{
    if found {
        end_listing(shortfall)
    } else {
        Err(no_bucket(shortfall))
    }
}

/// Why no bucket is recovered at a path.
pub(crate) fn no_bucket(shortfall: Option<Shortfall>) -> Failure
    ensures { result ≡ no_bucket shortfall }
{
    match shortfall {
        None => Failure::NoBucket,
        Some(shortfall) => Failure::BucketMaybeLost(shortfall),
    }
}
