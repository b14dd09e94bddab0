//! Opens what a command reads: a file under the meta that is chosen, what is left of a damaged one, that with what is
//! found of it, or a bucket by its path.
ghost use Rattle.std.specs.Prelude.{◌≡◌, IfErr, IfOk};
ghost use Rattle.bolt_check.specs.CheckedFiles.{bytes_of, meta_of, in_checked};
ghost use Rattle.bolt_commands.specs.FilesRead.{IsReadUnder, IsRecoveredUnder, IsRefusedUnder, IsUnjoinedUnder, IsUnrecoverableUnder, LeadsNowhere};
ghost use Rattle.bolt_commands.specs.FilesRead.{LeadsTo};
ghost use Rattle.bolt_job.specs.PlainWords.{owned_path};
ghost use Rattle.bolt_commands.specs.Private.Contents.{HasNoBucket, IsOpenedBucket, IsJoinedOf, IsOpened, IsSearchOf, IsUnopened, IsUnread};
ghost use Rattle.bolt_commands.specs.Private.Contents.{IsUnsearched, contents_found, contents_lost, contents_meta};
ghost use Rattle.bolt_commands.specs.declared.failure.Failure.TheVariants.{NoBucket};
ghost use Rattle.bolt_recover.specs.{ShownLosses.lost_view, Recovered.ForRecovered, Recoveries.recovery_file, Recoveries.recovery_left};
ghost use Rattle.bolt_recover.specs.{Recoveries.recovery_meta};
ghost use Rattle.bolt_tree.specs.{Buckets.bucket_checked, Buckets.bucket_start};

use crate::failure::Failure;
use bolt_check::{CheckFault, Checked, check, check_under};
use bolt_format::Meta;
use bolt_job::{Extent, MetaChoice};
use bolt_recover::{FoundPage, JoinedListing, Lost, LostAndFound, Recovery};
use bolt_tree::Bucket;
use std::alloc::Global;

/// The bytes of FILE, and where a job gets memory.
#[derive(Clone, Copy)]
pub(crate) struct Input<'f> {
    pub alloc: Global,
    pub file: &'f [u8],
}

/// What is read of a file.
#[derive(Drop)]
pub(crate) enum Contents<'f> {
    /// The listing of a sound file.
    Sound(Checked<'f>),
    /// The recovered listing of a damaged one.
    Recovered(Recovery<'f>),
    /// The joined listing of one that was searched.
    Searched(LostAndFound<'f>),
}

impl<'f> Contents<'f> {
    /// The meta that the file is read under.
    pub(crate) fn meta(&self) -> Meta
        ensures { result ≡ contents_meta self.now }
    {
        match self {
            Contents::Sound(checked) => checked.meta(),
            Contents::Recovered(recovery) => recovery.meta(),
            Contents::Searched(searched) => searched.meta,
        }
    }

    /// What is lost of the file. Of a recovery, it is known when all members were returned.
    pub(crate) fn lost(&self) -> Lost<'_>
        ensures { lost_view result ≡ contents_lost self.now }
    {
        match self {
            Contents::Sound(_) => Lost::Parts(&[]),
            Contents::Recovered(recovery) => Lost::Parts(recovery.losses()),
            Contents::Searched(searched) => searched.lost(),
        }
    }

    /// The pages that are found of the file.
    pub(crate) fn found(&self) -> &[FoundPage<'f>]
        ensures { result.now ≡ contents_found self.now }
    {
        match self {
            Contents::Searched(searched) => searched.found.as_slice(),
            _ => &[],
        }
    }
}

impl<'f> Input<'f> {
    /// Opens what `list` and `compact` read of the file, to an extent, under the meta that is chosen.
    pub(crate) fn open(self, choice: MetaChoice, extent: Extent) -> Result<Contents<'f>, Failure>
        ensures opened { IfOk result (IsOpened extent self.entry.file.now choice) }
        ensures refused { IfErr result (IsUnopened extent self.entry.file.now choice) }
    {
        Ok(match extent {
            Extent::Sound => Contents::Sound(self.check(choice)?),
            Extent::Losses => Contents::Recovered(self.recover(choice)?),
            Extent::FoundPages => Contents::Searched(self.search(choice)?),
        })
    }

    /// Checks the file under the meta that is chosen. Its trees must be sound and, under the active
    /// meta, its accounts too.
    pub(crate) fn check(self, choice: MetaChoice) -> Result<Checked<'f>, CheckFault>
        ensures bytes { IfOk result (λ checked. bytes_of checked ≡ self.entry.file.now) }
        ensures sound { IfOk result (λ checked.
            IsReadUnder self.entry.file.now choice (meta_of checked)) }
        ensures refused { IfErr result (IsRefusedUnder self.entry.file.now choice) }
    {
        if let MetaChoice::Active = choice {
            return check(self.alloc, self.file);
        }
        let meta = choice.find(self.file)?;
        check_under(self.alloc, self.file, meta)
    }

    /// The checked file, or the failure that is reported if the file is refused.
    pub(crate) fn read(self, choice: MetaChoice) -> Result<Checked<'f>, Failure>
        ensures bytes { IfOk result (λ checked. bytes_of checked ≡ self.entry.file.now) }
        ensures sound { IfOk result (λ checked.
            IsReadUnder self.entry.file.now choice (meta_of checked)) }
        ensures refused { IfErr result (IsUnread self.entry.file.now choice) }
    {
        let checked = self.check(choice)?;
        Ok(checked)
    }

    /// The bucket at a path of the file, which is checked first.
    pub(crate) fn bucket(self, choice: MetaChoice, path: &[Vec<u8>]) -> Result<Bucket<'f>, Failure>
        ensures found { IfOk result (IsOpenedBucket self.entry.file.now choice (owned_path path.now)) }
        ensures refused { IfErr result (HasNoBucket self.entry.file.now choice (owned_path path.now)) }
    {
        let checked = self.read(choice)?;
        let bucket = open_bucket(checked, path)?;
        Ok(bucket)
    }

    /// A recovery under the meta that is chosen.
    ///
    /// # Errors
    ///
    /// `Open` if the file has no such meta; `Structure` with the finding of the root page if that is
    /// lost; `Memory` if memory runs out.
    pub(crate) fn recover(self, choice: MetaChoice) -> Result<Recovery<'f>, CheckFault>
        ensures file { IfOk result (λ recovery. recovery_file recovery ≡ self.entry.file.now) }
        ensures meta { IfOk result (λ recovery.
            IsRecoveredUnder self.entry.file.now choice (recovery_meta recovery)) }
        ensures all { IfOk result (λ r.
            ForRecovered self.entry.file.now (recovery_meta r) (λ listing.
            recovery_left r listing ≡ listing)) }
        ensures refused { IfErr result (IsUnrecoverableUnder self.entry.file.now choice) }
    {
        let meta = choice.find(self.file)?;
        let recovery = Recovery::under(self.alloc, self.file, meta)?;
        Ok(recovery)
    }

    /// What is lost and found of the file under the meta that is chosen.
    pub(crate) fn search(self, choice: MetaChoice) -> Result<LostAndFound<'f>, Failure>
        ensures searched { IfOk result (IsSearchOf self.entry.file.now choice) }
        ensures refused { IfErr result (IsUnsearched self.entry.file.now choice) }
    {
        let meta = choice.find(self.file)?;
        let searched = LostAndFound::under(self.alloc, self.file, meta)?;
        Ok(searched)
    }
}

/// The members of a file that was searched under the meta that is chosen: of what is recovered and
/// of what is found.
pub(crate) fn join<'a>(
    input: Input<'_>,
    choice: MetaChoice,
    searched: &'a LostAndFound<'_>,
) -> Result<JoinedListing<'a>, Failure>
    requires { IsSearchOf input.file.now choice searched.now }
    ensures joined { IfOk result (IsJoinedOf searched.now) }
    ensures refused { IfErr result (IsUnjoinedUnder input.entry.file.now choice) }
{
    let joined = JoinedListing::new(input.alloc, searched)?;
    Ok(joined)
}

/// The bucket at a path, from the root bucket down. The empty path is the root bucket's.
pub(crate) fn open_bucket<'a>(checked: Checked<'a>, path: &[Vec<u8>]) -> Result<Bucket<'a>, Failure>
    ensures file { IfOk result (λ bucket. bucket_checked bucket ≡ checked.entry) }
    ensures named { IfOk result (λ bucket.
        ∥ in_checked LeadsTo checked.entry (owned_path path.now) (bucket_start bucket) ∥₁) }
    ensures refused { IfErr result (λ failure. (failure ≡ NoBucket)
        × in_checked LeadsNowhere checked.entry (owned_path path.now)) }
{
    let mut bucket = Bucket::root(checked);
    for part in path {
        let Some(inner) = bucket.bucket(part.as_slice()) else {
            return Err(Failure::NoBucket);
        };
        bucket = inner;
    }
    Ok(bucket)
}
