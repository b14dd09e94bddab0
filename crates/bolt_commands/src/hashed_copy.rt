//! A layout and its hash after it. A sink that hashes what it hands on makes the hash in the same
//! pass. Which borrow it hashes can't be picked at a call with a bound that names a lifetime, such as
//! `Members<'m>`. So what is copied is a `CopySource`, which names none.
ghost use Rattle.std.specs.Prelude.{◌≡◌, ℕ, List, IsOk, OnOk, true, Option, None};
ghost use Rattle.std.specs.Borrow.{GName};
ghost use Rattle.bolt_bulk.specs.{Compacting.Copies, WholeListings.IsWholeListing, declared.blueprint.Blueprint.Blueprint};
ghost use Rattle.bolt_commands.specs.{CopyEnds.EndsCopy, Hashes.HashesSince, Private.Copying.IsLayoutOf};

use bolt_bulk::{Blueprint, BulkFault, Done, compact_members};
use bolt_etcd::HASH_LEN;
use bolt_format::{Sink, SinkFault};
use bolt_tree::Members;
use sha2::{Digest, Sha256};
use std::alloc::Global;
use std::marker::{Brand, PhantomData};

/// How the writing of a layout ends.
type Copied = Result<Done, BulkFault>;

/// What a copy is made of.
pub(crate) trait CopySource {
    /// Whether it has all members of a listing that is of one tree.
    ghost is_whole: { Self → Type 0 };

    /// Whether this is its layout by the blueprint.
    ghost has_layout: { Self → Blueprint → List ℕ → Type 0 };

    /// Whether the second can be what the first is once nothing is left.
    ghost ends_as: { Self → Self → Type 0 };

    /// Which borrow of the members it holds.
    ghost borrow: { Self → GName };

    /// Writes its layout (`bolt_bulk::compact_members`).
    fn copy<S: Sink>(&mut self, alloc: Global, blueprint: &Blueprint, sink: &mut S) -> Copied
        requires { is_whole self.old }
        ensures same { borrow self.new ≡ borrow self.old }
        ensures copied { (layout : List ℕ) → has_layout self.old blueprint.now layout
            → Copies S.taken S.failed sink.old sink.new layout result }
        ensures end { OnOk result (ends_as self.old self.new) };
}

/// The members of a listing.
#[derive(Drop)]
pub(crate) struct MembersSource<'s, 'm, M: Members<'m>> {
    pub members: &'s mut M,
    pub of: PhantomData<&'m [u8]>,
}

impl<'s, 'm, M: Members<'m>> CopySource for MembersSource<'s, 'm, M> {
    ghost is_whole = { λ source. IsWholeListing M.reads M.listing M.left source.members.now };

    ghost has_layout = { λ source blueprint layout. IsLayoutOf M.reads M.listing source.members.now blueprint layout };

    ghost ends_as = { λ source end. M.ends_as source.members.now end.members.now };

    ghost borrow = { λ source. source.members.ghost_name };

    fn copy<S: Sink>(&mut self, alloc: Global, blueprint: &Blueprint, sink: &mut S) -> Copied {
        compact_members(alloc, self.members, blueprint, sink)
    }
}

/// Writes the layout of a source, and its hash after it. Returns the source, and the length of both.
pub(crate) fn copy_hashed<C: CopySource + Drop, T: Sink>(
    alloc: Global,
    source: C,
    blueprint: &Blueprint,
    target: &mut T,
) -> (C, Result<u64, BulkFault>)
    requires { C.is_whole source }
    ensures same { C.borrow result.0 ≡ C.borrow source }
    ensures copied { (layout : List ℕ) → C.has_layout source blueprint.now layout
        → EndsCopy T.Sink target.old target.new layout true result.1 }
    ensures end { OnOk result.1 (C.ends_as source result.0) }
{
    let HashedCopy {
        source,
        target,
        hash,
        result,
    } = hash_all::<Brand, C, T>(alloc, source, blueprint, target);
    (source, put_hash(result, hash, target))
}

/// A layout on its target, and its hash.
#[derive(Drop)]
struct HashedCopy<'a, C, T> {
    source: C,
    target: &'a mut T,
    hash: Sha256,
    result: Copied,
}

/// Writes the layout of a source, and makes its hash.
fn hash_all<'a, K: Origin, C: CopySource + Drop, T: Sink>(
    alloc: Global,
    source: C,
    blueprint: &Blueprint,
    target: &'a mut T,
) -> HashedCopy<'a, C, T>
    requires whole { C.is_whole source }
    requires name { target.ghost_name ≡ K.name }
    requires start { T.taken target.old ≡ K.start }
    ensures same { C.borrow result.source ≡ C.borrow source }
    ensures same_target { result.target.ghost_name ≡ target.entry.ghost_name }
    ensures copied { (layout : List ℕ) → C.has_layout source blueprint.now layout
        → Copies T.taken T.failed target.old result.target.now layout result.result }
    ensures end { OnOk result.result (C.ends_as source result.source) }
    ensures hashed { T.failed result.target.now ≡ 0
        → ∥ HashesSince (T.taken target.old) (T.taken result.target.now) result.hash ∥₁ }
{
    let mut source = source;
    let mut hashing: Hashing<'a, T, K> = Hashing {
        target,
        hash: Sha256::new(),
        of: PhantomData,
    };
    let result = source.copy(alloc, blueprint, &mut hashing);
    let Hashing {
        target,
        hash,
        of: _,
    } = hashing;
    HashedCopy {
        source,
        target,
        hash,
        result,
    }
}

/// Writes the hash of a layout after it, if the layout is whole. Returns the length of both.
fn put_hash<T: Sink>(copied: Copied, hash: Sha256, target: &mut T) -> Result<u64, BulkFault>
    ensures whole { OnOk result (IsOk copied) }
    ensures copied { (begun : T) (layout : List ℕ)
        → Copies T.taken T.failed begun target.old layout copied
        → (T.failed target.old ≡ 0 → ∥ HashesSince (T.taken begun) (T.taken target.old) hash ∥₁)
        → EndsCopy T.Sink begun target.new layout true result }
{
    let done = copied?;
    target.put(&hash.finalize())?;
    Ok(done.bytes.saturating_add(HASH_LEN))
}

/// What a hash began with, for proofs alone.
trait Origin {
    /// Which borrow of the target it is.
    ghost name: { GName };

    /// What the target had accepted.
    ghost start: { Option (List ℕ) };
}

impl Origin for Brand {
    ghost name = { 0 };

    ghost start = { None };
}

/// Hands on each byte to the target, and hashes it. The hash is right as long as the target hasn't
/// failed.
#[derive(Drop)]
struct Hashing<'a, T: Sink, K: Origin> {
    pub target: &'a mut T,
    pub hash: Sha256,
    pub of: PhantomData<K>,
    pub ghost same: { target.ghost_name ≡ K.name },
    pub ghost hashed: { T.failed target.now ≡ 0 → ∥ HashesSince K.start (T.taken target.now) hash ∥₁ },
}

impl<'a, T: Sink, K: Origin> Sink for Hashing<'a, T, K> {
    ghost taken = { λ s. T.taken s.target.now };

    ghost failed = { λ s. T.failed s.target.now };

    fn put(&mut self, bytes: &[u8]) -> Result<(), SinkFault> {
        self.hash.update(bytes);
        self.target.put(bytes)
    }

    fn failures(&self) -> u64 {
        self.target.failures()
    }
}
