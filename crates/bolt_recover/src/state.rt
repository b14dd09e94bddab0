//! A state of a file: what is left of it under a page size and a root page.
ghost use Rattle.std.specs.Prelude.{◌≡◌, ◌==◌, ◌+◌, [], if◌then◌else◌};
ghost use Rattle.bolt_tree.specs.{Paths.path_of, ShownEntries.item_view};
ghost use Rattle.bolt_recover.specs.{Private.Counting.figures_after, ShownStates.AreFiguresOf, ShownStates.figures_view, States.counted32};

use bolt_tree::Item;

/// What the listing of a state has.
#[derive(Clone, Copy)]
pub struct Figures<'a> {
    /// How many buckets the root bucket has. Saturates at 2^32 - 1.
    pub buckets: u32,
    /// The name of the first of them; no bytes if there is none.
    pub first: &'a [u8],
    /// The name of the last of them.
    pub last: &'a [u8],
    /// How many buckets there are in all. Saturates at 2^32 - 1.
    pub all_buckets: u32,
    /// How many values there are in all. Saturates at 2^64 - 1.
    pub values: u64,
}

impl<'a> Figures<'a> {
    /// The figures of an empty listing.
    pub(crate) fn none() -> Figures<'a>
        ensures { AreFiguresOf [] result }
    {
        Figures {
            buckets: 0,
            first: &[],
            last: &[],
            all_buckets: 0,
            values: 0,
        }
    }

    /// Adds the next member of the listing.
    pub(crate) fn add(&mut self, path: &[&'a [u8]], item: &Item<'a>)
        ensures { figures_view self.new
            ≡ figures_after (figures_view self.old) (path_of path.now, item_view item.now) }
    {
        match item {
            Item::Value(_) => self.values = self.values.saturating_add(1),
            Item::Bucket { .. } => {
                self.all_buckets = self.all_buckets.saturating_add(1);
                if let [name] = path {
                    self.add_name(name);
                }
            }
        }
    }

    /// Adds the next bucket of the root bucket.
    fn add_name(&mut self, name: &'a [u8])
        ensures { figures_view self.new ≡ record (figures_view self.old) {
          buckets = counted32 (self.old.buckets + 1);
          first = if self.old.buckets == 0 then name.now else self.old.first.now;
          last = name.now;
        } }
    {
        if self.buckets == 0 {
            self.first = name;
        }
        self.last = name;
        self.buckets = self.buckets.saturating_add(1);
    }
}

/// A page size and the number of a root page.
#[derive(Clone, Copy, Debug, PartialEq, Eq)]
pub struct Place {
    /// The page size in bytes.
    pub page_size: u32,
    /// The page number of the root page.
    pub root: u64,
}

/// A state of a file whose root page is kept (docs/RECOVERY.md, "States"). It takes 64 bytes.
#[derive(Clone, Copy)]
pub struct State<'a> {
    pub place: Place,
    /// How many losses there are. Saturates at 2^32 - 1.
    pub losses: u32,
    pub figures: Figures<'a>,
}
