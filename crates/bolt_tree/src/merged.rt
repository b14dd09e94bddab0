//! Two listings merged into one, by path. The one that returned the last member isn't read ahead of
//! it, so its path is still the path of that member.
ghost use Rattle.std.specs.Prelude.{◌≡◌, ◌≢◌, []};
ghost use Rattle.std.specs.Ordering.{is_lt};
ghost use Rattle.bolt_tree.specs.{Merges.merge, Paths.path_cmp};
ghost use Rattle.bolt_tree.specs.declared.ahead.FirstMember.TheVariants as firsts;
ghost use Rattle.bolt_tree.specs.declared.merged.Last.TheVariants as lasts;

use crate::ahead::{Ahead, FirstMember};
use crate::entry::Item;
use crate::members::Members;
use bolt_check::NoMemory;
use std::alloc::Global;

/// Which of two listings returned the last member.
#[derive(Clone, Copy)]
pub(crate) enum Last {
    /// No member was returned, or none is left.
    Nothing,
    First,
    Second,
}

/// The members of two listings, merged by path. If both have a path, that of the first comes first.
/// It holds at most one member of each, and allocates nothing.
#[derive(Drop)]
pub struct Merged<'a, A, B> {
    first: Ahead<'a, A>,
    second: Ahead<'a, B>,
    last: Last,
    /// Once reading ahead has moved the path of the last member, it can't fail.
    ghost read: { last ≡ lasts.First → second.head ≢ firsts.Unread },
}

impl<'a, A: Members<'a>, B: Members<'a>> Merged<'a, A, B> {
    ghost use Rattle.bolt_tree.specs.Merging.{merged_left, merged_path, merged_reads};

    /// What is left of both.
    pub fn new(first: A, second: B) -> Merged<'a, A, B>
        ensures reads { (a : A.Whole) (b : B.Whole) → A.reads first a → B.reads second b
            → merged_reads A.reads B.reads result (a, b) }
        ensures left { (a : A.Whole) (b : B.Whole)
            → merged_left A.last_path A.left B.last_path B.left result (a, b)
            ≡ merge (A.left first a) (B.left second b) }
        ensures path { merged_path A.last_path B.last_path result ≡ [] }
    {
        Merged {
            first: Ahead::new(first),
            second: Ahead::new(second),
            last: Last::Nothing,
        }
    }

    /// Whether the last path of the second comes before that of the first.
    #[inline(always)]
    #[tactic(auto, using(crate::proofs::PathOrder::slices_cmp))]
    fn second_is_before(&self) -> bool
        ensures { result ≡ is_lt (path_cmp (B.last_path self.now.second.members)
            (A.last_path self.now.first.members)) }
    {
        let first = self.first.members.path();
        self.second.members.path().cmp(first).is_lt()
    }
}

impl<'a, A: Members<'a>, B: Members<'a>> Members<'a> for Merged<'a, A, B> {
    ghost use Rattle.bolt_tree.specs.Merging.{merged_ends, merged_left, merged_path, merged_reads, merged_work};

    ghost Whole = { A.Whole × B.Whole };

    ghost reads = { λ merged whole. merged_reads A.reads B.reads merged whole };

    ghost listing = { λ whole. merge (A.listing whole.0) (B.listing whole.1) };

    ghost left = { λ merged whole. merged_left A.last_path A.left B.last_path B.left merged whole };

    ghost work_left = { λ merged. merged_work A.work_left B.work_left merged };

    ghost last_path = { λ merged. merged_path A.last_path B.last_path merged };

    ghost ends_as = { λ merged end. merged_ends A.ends_as B.ends_as merged end };

    #[inline(always)]
    fn next(&mut self) -> Result<Option<Item<'a>>, NoMemory> {
        let first = self.first.peek()?;
        let second = self.second.peek()?;
        if second.is_some() && (first.is_none() || self.second_is_before()) {
            self.last = Last::Second;
            self.second.head = FirstMember::Unread;
            return Ok(second);
        }
        if first.is_some() {
            self.last = Last::First;
            self.first.head = FirstMember::Unread;
            return Ok(first);
        }
        self.last = Last::Nothing;
        Ok(None)
    }

    #[inline(always)]
    fn path(&self) -> &[&'a [u8]] {
        match self.last {
            Last::Nothing => &[],
            Last::First => self.first.members.path(),
            Last::Second => self.second.members.path(),
        }
    }

    fn restart(&mut self, alloc: Global) -> Result<(), NoMemory> {
        self.last = Last::Nothing;
        self.first.head = FirstMember::Unread;
        self.second.head = FirstMember::Unread;
        self.first.members.restart(alloc)?;
        self.second.members.restart(alloc)
    }
}
