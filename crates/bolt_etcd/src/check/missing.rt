//! Revisions that are missing by their numbers.
ghost use Rattle.std.specs.Prelude.{◌≡◌, ◌<◌, ◌++◌, ◌+◌, ◌^◌, IfSome, None};
ghost use Rattle.std.specs.Option.{option_to_list};
ghost use Rattle.bolt_tree.specs.Buckets.{bucket_checked, bucket_start};
ghost use Rattle.bolt_etcd.specs.Check.MissingNumbers.{missing_before, missing_numbers, revisions_between, transactions_between};
ghost use Rattle.bolt_etcd.specs.Wire.Numbered.{numbered};

use crate::store::revisions::Revisions;
use crate::wire::revision_key::RevisionKey;
use bolt_tree::Bucket;

/// Revisions that are missing by their numbers.
#[derive(Clone, Copy, Debug, PartialEq, Eq)]
pub enum Missing {
    /// All revisions of the transactions from `first` to `last`.
    Transactions {
        /// The first transaction.
        first: u64,
        /// The last transaction.
        last: u64,
    },
    /// The revisions of a transaction from `first` to `last`.
    Revisions {
        /// The transaction.
        main: u64,
        /// The number of the first one within the transaction.
        first: u64,
        /// The number of the last one.
        last: u64,
    },
}

/// A pass over the revisions and the marks of a bucket that returns what is missing by its number. It
/// needs no memory.
#[derive(Drop)]
pub struct MissingNumbers<'a> {
    pass: Revisions<'a>,
    above: u64,
    /// The last transaction so far.
    main: u64,
    /// The number of the next revision of the last transaction.
    sub: u64,
    /// What comes next, if it is known already.
    pending: Option<Missing>,
}

#[tactic(auto, unfolding(crate::specs::Private::MissingLeft::missing_left))]
impl<'a> MissingNumbers<'a> {
    ghost use Rattle.bolt_etcd.specs.Private.MissingLeft.{ForMissing, GivesMissing, missing_checked, missing_left, missing_number, missing_start};

    /// What is missing in a bucket after a compaction at this transaction. Of earlier transactions
    /// nothing is missing.
    pub fn of(bucket: &Bucket<'a>, compacted: u64) -> MissingNumbers<'a>
        ensures checked { missing_checked result ≡ bucket_checked bucket.now }
        ensures start { missing_start result ≡ bucket_start bucket.now }
        ensures all { ForMissing result (λ entries.
            missing_left result entries ≡ missing_numbers compacted (numbered entries)) }
    {
        MissingNumbers {
            pass: Revisions::of(bucket),
            above: compacted,
            main: compacted.max(1),
            sub: 0,
            pending: None,
        }
    }

    /// Returns what is missing next, in the order of the numbers, or `None` if nothing more is.
    pub fn next(&mut self) -> Option<Missing>
        ensures checked { missing_checked self.new ≡ missing_checked self.old }
        ensures start { missing_start self.new ≡ missing_start self.old }
        ensures given { ForMissing self.old (λ entries.
            GivesMissing (missing_left self.old entries) (missing_left self.new entries) result) }
        ensures fewer { IfSome result (λ _. missing_number self.new < missing_number self.old) }
    {
        if let Some(missing) = self.pending.take() {
            return Some(missing);
        }
        'rest: while let Some(key) = self.pass.next_number() {
            if key.main > self.above {
                let missing = self.step(key);
                if missing.is_some() {
                    return missing;
                }
            }
        }
        None
    }

    /// Goes on to a key, and returns the first of what is missing before it.
    fn step(&mut self, key: RevisionKey) -> Option<Missing>
        requires pending { self.old.pending ≡ None }
        requires fits { key.sub < 2 ^ 63 }
        ensures main { self.new.main ≡ key.main }
        ensures sub { self.new.sub ≡ key.sub + 1 }
        ensures above { self.new.above ≡ self.old.above }
        ensures pass { self.new.pass ≡ self.old.pass }
        ensures missing { option_to_list result ++ option_to_list self.new.pending
            ≡ missing_before self.old.main self.old.sub key }
        ensures none { result ≡ None → self.new.pending ≡ None }
    {
        let (main, sub) = (self.main, self.sub);
        self.main = key.main;
        self.sub = key.sub + 1;
        if key.main == main {
            return revisions_between(main, sub, key.sub);
        }
        let revisions = revisions_between(key.main, 0, key.sub);
        let Some(transactions) = transactions_between(main, key.main) else {
            return revisions;
        };
        self.pending = revisions;
        Some(transactions)
    }
}

/// The transactions after one and before the next that is there, if there are any.
fn transactions_between(before: u64, main: u64) -> Option<Missing>
    ensures { result ≡ transactions_between before main }
{
    if before >= main || main - before == 1 {
        return None;
    }
    Some(Missing::Transactions {
        first: before + 1,
        last: main - 1,
    })
}

/// The revisions of a transaction from one on and below the next that is there, if there are any.
fn revisions_between(main: u64, from: u64, sub: u64) -> Option<Missing>
    ensures { result ≡ revisions_between main from sub }
{
    if from >= sub {
        return None;
    }
    Some(Missing::Revisions {
        main,
        first: from,
        last: sub - 1,
    })
}
