//! What is missing of the names of a store.
ghost use Rattle.std.specs.Prelude.{◌≡◌, ◌<◌, ◌+◌, ◌∷◌, ℕ, Bool, IfSome, None, drop, length, map};
ghost use Rattle.std.specs.Option.{option_map};
ghost use Rattle.bolt_etcd.specs.{Check.NameFaults.is_newest, Check.NameFaults.lacks_lease, Check.NameFaults.lacks_one_before};
ghost use Rattle.bolt_etcd.specs.{Check.NameFaults.name_faults, Wire.ShownRevisions.shown_revision};

use crate::wire::revision::Revision;
use bolt_tree::Bucket;

/// A revision of which something is missing.
#[derive(Clone, Copy)]
pub struct NameFault<'a> {
    /// The revision.
    pub revision: Revision<'a>,
    /// Whether the revision doesn't follow the one before it of its name: one between is missing.
    pub one_before: bool,
    /// Whether the revision is the newest of its name, and has a lease that isn't there.
    pub lease: bool,
}

/// A pass over revisions name by name that returns those of which something is missing. It needs no
/// memory.
#[derive(Drop)]
pub struct NameFaults<'a> {
    revisions: &'a [Revision<'a>],
    /// How many revisions the pass has gone over.
    at: usize,
    /// The last revision that it has gone over.
    before: Option<Revision<'a>>,
    compacted: Option<u64>,
    leases: Option<Bucket<'a>>,
}

#[tactic(auto, unfolding(crate::specs::Private::FaultsLeft::faults_left, crate::specs::Private::FaultsLeft::faults_leases, crate::specs::Private::FaultsLeft::faults_number))]
impl<'a> NameFaults<'a> {
    ghost use Rattle.bolt_etcd.specs.Check.ForNames.{ForGranted};
    ghost use Rattle.bolt_etcd.specs.Private.FaultsLeft.{GivesFault, IsNextFault, faults_leases, faults_left, faults_number, revisions_left};
    ghost use Rattle.bolt_etcd.specs.Private.FaultsLeft.{StepsOver};

    /// A pass over revisions as `RevisionList::sort_by_name` sorts them, after a compaction at this transaction,
    /// if it is known. `leases` is the bucket of the leases that there are; without it there is none.
    pub fn of(
        revisions: &'a [Revision<'a>],
        compacted: Option<u64>,
        leases: Option<Bucket<'a>>,
    ) -> NameFaults<'a>
        ensures leases { faults_leases result ≡ leases.entry }
        ensures all { (granted : ℕ → Bool)
            → faults_left result granted
            ≡ name_faults compacted granted None (map shown_revision revisions.now) }
    {
        NameFaults {
            revisions,
            at: 0,
            before: None,
            compacted,
            leases,
        }
    }

    /// Returns the next revision of which something is missing, or `None` if there is none.
    pub fn next(&mut self) -> Option<NameFault<'a>>
        ensures given { ForGranted (faults_leases self.old) (λ granted.
            GivesFault (faults_left self.old granted) (faults_left self.new granted) result) }
        ensures leases { faults_leases self.new ≡ faults_leases self.old }
        ensures fewer { IfSome result (λ _. faults_number self.new < faults_number self.old) }
    {
        'rest: while let Some(fault) = self.step() {
            if fault.one_before || fault.lease {
                return Some(fault);
            }
        }
        None
    }

    /// Goes on to the next revision, and says what is missing of it.
    fn step(&mut self) -> Option<NameFault<'a>>
        ensures given { ForGranted (faults_leases self.old) (λ granted.
            StepsOver granted self.old self.new result) }
        ensures leases { faults_leases self.new ≡ faults_leases self.old }
        ensures fewer { IfSome result (λ _. faults_number self.new < faults_number self.old) }
    {
        if self.at >= self.revisions.len() {
            return None;
        }
        let fault = self.fault();
        self.at += 1;
        self.before = Some(fault.revision);
        Some(fault)
    }

    /// What is missing of the next revision.
    fn fault(&self) -> NameFault<'a>
        requires { self.now.at < length self.now.revisions.now }
        ensures revision { revisions_left self.now
            ≡ result.revision ∷ drop (self.now.at + 1) self.now.revisions.now }
        ensures fault { ForGranted self.now.leases (λ granted.
            IsNextFault self.now granted result) }
    {
        let revision = self.revisions[self.at];
        let later = &self.revisions[self.at + 1..];
        NameFault {
            revision,
            one_before: self.lacks_one_before(&revision),
            lease: is_newest(&revision, later) && self.lacks_lease(&revision),
        }
    }

    /// Whether a revision doesn't follow the one before it of its name.
    fn lacks_one_before(&self, revision: &Revision<'_>) -> bool
        ensures { result ≡ lacks_one_before self.now.compacted
            (option_map shown_revision self.now.before) (shown_revision revision.now) }
    {
        let Some(compacted) = self.compacted else {
            return false;
        };
        if revision.is_until(compacted) {
            return false;
        }
        match &self.before {
            Some(before) if before.name() == revision.name() => !revision.follows(before),
            _ => !revision.creates(),
        }
    }

    /// Whether a revision has a lease that isn't there.
    fn lacks_lease(&self, revision: &Revision<'_>) -> bool
        ensures { ForGranted self.now.leases (λ granted.
            result ≡ lacks_lease granted (shown_revision revision.now)) }
    {
        let lease = revision.decode().content.lease;
        if lease == 0 {
            return false;
        }
        match &self.leases {
            Some(leases) => leases.get(&lease.to_be_bytes()).is_none(),
            None => true,
        }
    }
}

/// Whether a revision is the newest of its name, if these come after it.
fn is_newest(revision: &Revision<'_>, later: &[Revision<'_>]) -> bool
    ensures { result ≡ is_newest (shown_revision revision.now) (map shown_revision later.now) }
{
    match later.first() {
        Some(next) => next.name() != revision.name(),
        None => true,
    }
}
