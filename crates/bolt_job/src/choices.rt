//! What the words of a command choose: a meta, a page size, a form of the copy, what is printed of buckets, and how much
//! is read of a damaged file.
ghost use Rattle.std.specs.Prelude.{◌≡◌, IfNone, IfSome, IfErr, IfOk};
ghost use Rattle.bolt_format.specs.Metas.{IsPageSize};

use bolt_format::{Meta, MetaFault, Slot, assumed_meta, choose, page_size_ok, slot_meta};

/// An accepted page size. By this type `run` requires nothing of its job.
#[derive(Clone, Copy)]
pub struct PageSize {
    pub bytes: u64,
    pub ghost accepted: { IsPageSize bytes },
}

impl PageSize {
    /// The page size of most files, since most systems have pages of this size.
    pub const USUAL: PageSize = PageSize { bytes: 4096 };

    /// The page size of this many bytes, if it is accepted.
    pub fn new(bytes: u64) -> Option<PageSize>
        ensures same { IfSome result (λ size. size.bytes ≡ bytes) }
        ensures refused { IfNone result (¬ IsPageSize bytes) }
    {
        if page_size_ok(bytes) {
            Some(PageSize { bytes })
        } else {
            None
        }
    }
}

/// The meta that a file is read under.
#[derive(Clone, Copy)]
pub enum MetaChoice {
    /// The active meta.
    Active,
    /// The meta in this slot, active or not.
    InSlot(Slot),
    /// A meta that is assumed. Those of the file are ignored.
    Assumed(AssumedMeta),
}

/// A meta that is assumed, by what has to be known of it (docs/COMMANDS.md, "An assumed meta").
#[derive(Clone, Copy)]
pub struct AssumedMeta {
    pub page_size: PageSize,
    /// The number of the root page.
    pub root: u64,
}

impl MetaChoice {
    ghost use Rattle.bolt_job.specs.MetaChoices.{HasNoMetaOf, IsMetaOf};

    /// The meta of a file that is chosen.
    ///
    /// # Errors
    ///
    /// The fault of byte 0 if no meta is valid, or that of the slot if it has no valid meta. An assumed meta
    /// is always found.
    pub fn find(self, file: &[u8]) -> Result<Meta, MetaFault>
        ensures found { IfOk result (IsMetaOf file.now self) }
        ensures none { IfErr result (HasNoMetaOf file.now self) }
    {
        match self {
            MetaChoice::Active => {
                let (_, meta) = choose(file)?;
                Ok(meta)
            }
            MetaChoice::InSlot(slot) => slot_meta(file, slot),
            MetaChoice::Assumed(assumed) => Ok(assumed.for_file(file)),
        }
    }
}

impl AssumedMeta {
    ghost use Rattle.bolt_job.specs.MetaChoices.{assumed_for};

    /// The meta that is assumed of a file.
    fn for_file(self, file: &[u8]) -> Meta
        ensures meta { result ≡ assumed_for file.now self }
        ensures accepted { IsPageSize result.page_size }
    {
        assumed_meta(file.len() as u64, self.page_size.bytes as u32, self.root)
    }
}

/// What a compact copy is for.
#[derive(Clone, Copy)]
pub enum CopyKind {
    /// For reading: the plain layout.
    Plain,
    /// For bbolt to write to: the balanced layout.
    ForBbolt,
    /// For `etcdctl snapshot restore`: the balanced layout, and then the SHA-256 of its bytes.
    EtcdSnapshot,
}

impl CopyKind {
    ghost use Rattle.bolt_job.specs.CopyKinds.{is_snapshot};

    /// Whether the copy ends with its hash.
    pub fn is_snapshot(self) -> bool
        ensures { result ≡ is_snapshot self }
    {
        match self {
            CopyKind::EtcdSnapshot => true,
            CopyKind::Plain | CopyKind::ForBbolt => false,
        }
    }
}

/// What is printed of the buckets in a bucket.
#[derive(Clone, Copy)]
pub enum BucketsShown {
    /// The buckets' names.
    Names {
        /// Whether to print what is recovered.
        recover: bool,
    },
    /// The buckets' sizes and names, which are known of a sound file alone.
    Sizes,
}

/// Which files `check`, `list` and `compact` read, and how much of a damaged one. `etcd-check` has no choice:
/// it begins as `check` with `Losses`.
#[derive(Clone, Copy)]
pub enum Extent {
    /// A sound file alone. From a damaged one `check` prints the first finding of its trees or, if they are
    /// sound, all findings of its accounts. `list` and `compact` refuse it.
    Sound,
    /// A damaged file too: what is kept of it. Each loss is reported.
    Losses,
    /// The losses, and each page that is found though nothing leads to it.
    FoundPages,
}
