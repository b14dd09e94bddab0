//! The members of what is found: its bucket and in that a bucket for each found page, with the page's
//! elements, and what the inline buckets among them hold.
ghost use Rattle.std.specs.Prelude.{◌≡◌, ◌≤◌, [], IsTrue, List, false};
ghost use Rattle.bolt_format.specs.{ElementPlaces.leaf_view, Elements.IsBucketValue, Elements.LeafElement, ElementsLeft.leaves_left};
ghost use Rattle.bolt_tree.specs.{Listing.Member, ShownEntries.item_view, Tree.end};
ghost use Rattle.bolt_recover.specs.Joined.{inside_of, tree_of_elements};

use crate::bucket_key::lost_and_found;
use crate::found_page::FoundPage;
use bolt_check::{BucketSpot, NoMemory};
use bolt_format::{Leaf, Leaves, head, inline};
use bolt_tree::{Item, Members};
use std::alloc::Global;

/// The members of what is found, if a page is found.
#[derive(Clone, Copy)]
pub(crate) struct FoundMembers<'a> {
    pub found: &'a [FoundPage<'a>],
    /// Whether the bucket of what is found is left.
    pub has_bucket: bool,
    /// The next page.
    pub next: usize,
    /// The key of the current page's bucket.
    pub name: &'a [u8],
    /// What is left of the current page.
    pub elements: Leaves<'a>,
    /// The key of the current inline bucket.
    pub key: &'a [u8],
    /// What is left of the current inline bucket.
    pub inner: Leaves<'a>,
    /// The path of the last member that was returned.
    pub path: ShortPath<'a>,
}

/// A path of at most four parts.
#[derive(Clone, Copy)]
pub(crate) struct ShortPath<'a> {
    /// The path has the first of these parts.
    pub parts: [&'a [u8]; 4],
    pub length: usize,
    ghost short: { length ≤ 4 },
}

/// What an element holds: the elements of an inline bucket whose keys rise, and else nothing.
fn inner_of<'a>(leaf: &Leaf<'a>) -> Leaves<'a>
    requires { IsTrue leaf.now.is_bucket → IsBucketValue leaf.now.value.now }
    ensures value { leaf.now.is_bucket ≡ false → leaves_left result ≡ [] }
    ensures bucket { IsTrue leaf.now.is_bucket
        → tree_of_elements (λ (inner : LeafElement). end) (leaves_left result)
        ≡ inside_of (leaf_view leaf.now) }
{
    if !leaf.is_bucket || !head(leaf.value).is_inline() {
        return Leaves::default();
    }
    let spot = BucketSpot {
        host: 0,
        page: inline(leaf.value),
    };
    match spot.test() {
        Ok(()) => spot.page.page.elements(),
        Err(_) => Leaves::default(),
    }
}

impl<'a> FoundMembers<'a> {
    ghost use Rattle.bolt_recover.specs.Private.FoundLeft.{GivesBelow, all_left, found_listing, found_path};

    /// All members of what is found.
    pub fn new(found: &'a [FoundPage<'a>]) -> FoundMembers<'a>
        ensures found { result.found.now ≡ found.now }
        ensures all { all_left result ≡ found_listing found.now }
        ensures path { found_path result ≡ [] }
    {
        let key = lost_and_found();
        FoundMembers {
            found,
            has_bucket: !found.is_empty(),
            next: 0,
            name: key,
            elements: Leaves::default(),
            key,
            inner: Leaves::default(),
            path: ShortPath {
                parts: [key; 4],
                length: 0,
            },
        }
    }

    /// Returns the first member that is left below the bucket of what is found.
    fn next_below(&mut self) -> Option<Item<'a>>
        requires { self.old.has_bucket ≡ false }
        ensures found { self.new.found ≡ self.old.found }
        ensures bucket { self.new.has_bucket ≡ false }
        ensures given { GivesBelow self.old self.new result }
    {
        if let Some(leaf) = self.inner.next() {
            self.path = ShortPath {
                parts: [lost_and_found(), self.name, self.key, leaf.key],
                length: 4,
            };
            return Some(Item::of(&leaf));
        }
        if let Some(leaf) = self.elements.next() {
            self.key = leaf.key;
            self.inner = inner_of(&leaf);
            self.path = ShortPath {
                parts: [lost_and_found(), self.name, leaf.key, leaf.key],
                length: 3,
            };
            return Some(Item::of(&leaf));
        }
        self.next_page()
    }

    /// Returns the bucket of the next page, if any.
    fn next_page(&mut self) -> Option<Item<'a>>
        requires inner { leaves_left self.old.inner ≡ [] }
        requires elements { leaves_left self.old.elements ≡ [] }
        requires bucket { self.old.has_bucket ≡ false }
        ensures found { self.new.found ≡ self.old.found }
        ensures bucket { self.new.has_bucket ≡ false }
        ensures given { GivesBelow self.old self.new result }
    {
        let Some(found) = self.found.get(self.next) else {
            self.path.length = 0;
            return None;
        };
        let name = found.name.as_slice();
        self.next += 1;
        self.name = name;
        self.elements = found.page.elements();
        self.path = ShortPath {
            parts: [lost_and_found(), name, name, name],
            length: 2,
        };
        Some(Item::Bucket { sequence: 0 })
    }
}

impl<'a> Members<'a> for FoundMembers<'a> {
    ghost use Rattle.bolt_recover.specs.Private.FoundLeft.{found_left, found_listing, found_path, found_work};

    ghost Whole = { List Member };

    ghost reads = { λ members listing. listing ≡ found_listing members.found.now };

    ghost listing = { λ listing. listing };

    ghost left = { λ members listing. found_left members listing };

    ghost work_left = { λ members. found_work members };

    ghost last_path = { λ members. found_path members };

    ghost ends_as = { λ members end. Unit {0} };

    fn next(&mut self) -> Result<Option<Item<'a>>, NoMemory> {
        if self.has_bucket {
            self.has_bucket = false;
            self.path = ShortPath {
                parts: [lost_and_found(); 4],
                length: 1,
            };
            return Ok(Some(Item::Bucket { sequence: 0 }));
        }
        Ok(self.next_below())
    }

    fn path(&self) -> &[&'a [u8]] {
        &self.path.parts[..self.path.length]
    }

    fn restart(&mut self, _alloc: Global) -> Result<(), NoMemory> {
        *self = FoundMembers::new(self.found);
        Ok(())
    }
}
