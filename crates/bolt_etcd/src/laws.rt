//! What the definitions imply.
ghost use Rattle.std.specs.Prelude.{◌≡◌, ◌≤◌, ◌<◌, ◌↔◌, ℕ, ◌&&◌, Bool, List, [], ◌∷◌, None, Some, codes, false, length, not, true, map};
ghost use Rattle.std.specs.Option.{is_some};
ghost use Rattle.bolt_check.specs.Keys.{key_cmp};
ghost use Rattle.bolt_format.specs.{Bytes.IsBytes, Elements.LeafElement};
ghost use Rattle.bolt_lemmas.specs.Order.{Rises};
ghost use Rattle.bolt_tree.specs.{Entries.EntryView, Entries.IsEntry};
ghost use Rattle.bolt_etcd.specs.{Store.Crc32c.crc_of, Store.HashKv.hash_kv, Wire.Numbered.numbered, Store.Statuses.newest_main};
ghost use Rattle.bolt_etcd.specs.{Store.Current.AreCurrent, Check.NameFaults.AreByName, Check.NameFaults.name_faults};
ghost use Rattle.bolt_etcd.specs.Store.Orders.{stored_key_cmp};
ghost use Rattle.bolt_etcd.specs.{Store.StoreBuckets.IsStore, Store.StoreBuckets.StoreView};
ghost use Rattle.bolt_etcd.specs.{Wire.Revisions.RevisionView, Histories.Reported.IsMissing, Histories.Reported.IsReported};
ghost use Rattle.bolt_etcd.specs.{Histories.Compactions.etcd_keeps, Histories.Transactions.history, Histories.FewTransactions.deletion_of_a};
ghost use Rattle.bolt_etcd.specs.{Histories.FewTransactions.first_a, Histories.FewTransactions.first_b, Histories.FewTransactions.second_a};
ghost use Rattle.bolt_etcd.specs.{Histories.FewTransactions.second_b, Histories.FewTransactions.few_transactions};
ghost use Rattle.bolt_etcd.specs.{Histories.Transactions.AreOfState, Histories.Transactions.state_at, Store.Newest.until, Histories.Taken.IsShownBy};
ghost use Rattle.bolt_etcd.specs.{Histories.Taken.IsTaken, Histories.Taken.ReportsOneBefore, Histories.ReportedRevisions.IsMissingRevision};
ghost use Rattle.bolt_etcd.specs.{Histories.ReportedRevisions.IsReportedRevision};
ghost use Rattle.bolt_etcd.specs.{Wire.Numbered.ForMarks, Wire.Numbered.numbered_in, Wire.Numbered.numbered_of, Wire.UnreadEntries.unread_by_value};
ghost use Rattle.bolt_etcd.specs.{Wire.UnreadEntries.unread_entry_of, Wire.UnreadEntries.unread_entries, Wire.Records.empty, Wire.Revisions.revision_in};
ghost use Rattle.bolt_etcd.specs.{Wire.Revisions.revision_of, Store.Stores.unread_elements};
ghost use Rattle.bolt_etcd.specs.{Wire.RevisionKeys.IsSpelled, Wire.RevisionKeys.numbers_cmp, Wire.RevisionKeys.revision_key};
ghost use Rattle.bolt_etcd.specs.{Wire.RevisionKeys.spelling, Wire.Fields.field_and_later, Wire.Fields.fields};
ghost use Rattle.bolt_etcd.specs.declared.wire.revision_key.RevisionKey.{RevisionKey};
ghost use Rattle.bolt_etcd.specs.{Histories.Compactions.IsCompaction, Histories.Compactions.kept_revisions, Histories.Transactions.Transaction};
ghost use Rattle.bolt_etcd.specs.{Histories.Possible.ArePossible, Check.StoreFaults.store_lines, Histories.WholeStores.GrantsLeases};
ghost use Rattle.bolt_etcd.specs.{Histories.WholeStores.HoldsExactly};
ghost use Rattle.bolt_etcd.specs.Histories.ForHistories.{ForCompacted, ForTaken, ForNumbered};
ghost use Rattle.bolt_etcd.specs.Store.Current.{IsOne};
ghost use Rattle.bolt_etcd.specs.Histories.Reported.{HasNoneOf};
ghost use Rattle.bolt_tree.specs.Laws.{ForBuckets};
ghost use Rattle.bolt_text.specs.{Lines.line};
ghost use Rattle.std.specs.Prelude.{◌+◌, ◌%◌, ◌++◌, take};
ghost use Rattle.bolt_check.specs.Sound.{IsSound};
ghost use Rattle.bolt_format.specs.{Metas.HasBothMetas, Metas.IsActive, declared.meta.Meta.Meta, declared.meta.Slot.Slot};
ghost use Rattle.bolt_etcd.specs.{Check.WholeFiles.HasAllPages, Check.SnapshotFaults.IsSnapshot, Check.SnapshotFaults.cut_hash_fault};
ghost use Rattle.bolt_etcd.specs.{Check.SnapshotFaults.hash_fault, Check.SnapshotFaults.snapshot_of};
ghost use Rattle.bolt_tree.specs.Listing.{IsListing, Member};
ghost use Rattle.bolt_etcd.specs.Check.WholeFiles.{ForTrailing};

/// A message is a field, and then a message, up to its end.
#[tactic(auto, using(crate::proofs::Messages::first_and_later))]
pub fn a_message_is_a_field_and_a_message()
    ensures { (bytes : List ℕ) → 0 < length bytes → fields bytes ≡ field_and_later bytes }
{}

/// A revision key is spelled in exactly one way: what is read as one is its spelling, and each key
/// with numbers below 2^63 is read from its spelling.
#[tactic(auto, using(crate::proofs::Keys::read_back))]
pub fn revision_keys_have_one_spelling()
    ensures spelled { (bytes : List ℕ) (key : RevisionKey) → IsBytes bytes
        → revision_key bytes ≡ Some key → (bytes ≡ spelling key) × IsSpelled key }
    ensures read { (key : RevisionKey) → IsSpelled key → revision_key (spelling key) ≡ Some key }
{}

/// Revision keys are in the order of their numbers: by `main`, then by `sub`, and a deletion after
/// what has the same two.
#[tactic(auto, using(crate::proofs::KeyNumbers::spellings_cmp))]
pub fn revision_keys_are_in_the_order_of_their_numbers()
    ensures { (a b : RevisionKey) → IsSpelled a → IsSpelled b
        → key_cmp (spelling a) (spelling b) ≡ numbers_cmp a b }
{}

/// An entry is a revision or a mark, or it is listed with why it isn't one: so as many are listed as
/// are counted.
#[tactic(auto, using(crate::proofs::UnreadCounts::as_many, crate::proofs::UnreadCounts::one_of_two, crate::proofs::UnreadCounts::is_numbered))]
pub fn an_entry_is_a_revision_or_another()
    ensures one { (e : EntryView) → is_some (unread_entry_of e) ≡ not (is_some (numbered_of e)) }
    ensures revision { (e : EntryView) (r : RevisionView)
        → revision_of e ≡ Some r → numbered_of e ≡ Some r }
    ensures number { (entries : List LeafElement)
        → length (unread_entries entries) ≡ length (unread_elements entries) }
{}

/// A mark is no revision, and isn't counted with those that aren't. It is there by its number alone.
pub fn a_mark_has_a_number_alone()
    ensures revision { ForMarks (λ key value k. revision_in key value ≡ None) }
    ensures other { ForMarks (λ key value k. unread_by_value key (Some value) ≡ None) }
    ensures number { ForMarks (λ key value k. numbered_in key value
        ≡ Some (record { stored_key = key; key = k; content = empty })) }
{}

/// If revisions are in the order of their numbers, the missing numbers report that a transaction is
/// missing exactly if it is: it is after the compaction, a later one is there, and none of its
/// revisions is.
pub fn missing_transactions_are_reported_exactly()
    ensures { ForNumbered (λ compacted rs missing. (t : ℕ)
        → IsReported t missing ↔ IsMissing compacted t rs) }
{}

/// Revisions in the order of their keys have one order by name, and there is one list of the keys
/// that there are.
pub fn revisions_have_one_order_by_name()
    ensures by_name { (rs : List RevisionView) → Rises stored_key_cmp rs → IsOne (AreByName rs) }
    ensures current { (rs : List RevisionView) → Rises stored_key_cmp rs → IsOne (AreCurrent rs) }
{}

/// If the trees of a file are sound, each bucket is the root bucket of one store.
pub fn a_root_bucket_has_one_store()
    ensures { ForBuckets (λ file meta root.
        (store : StoreView) × IsStore (IsEntry file meta) root store
        × ((other : StoreView) → IsStore (IsEntry file meta) root other
        → ((name : List ℕ) → other.bucket name ≡ store.bucket name)
        × (other.by_name ≡ store.by_name))) }
{}

/// If revisions are in the order of their numbers, the missing numbers report that a revision of a
/// transaction is missing exactly if it is: its transaction is after the compaction, a later revision
/// of that is there, and it isn't.
pub fn missing_revisions_are_reported_exactly()
    ensures { ForNumbered (λ compacted rs missing. (t sub : ℕ)
        → IsReportedRevision t sub missing ↔ IsMissingRevision compacted t sub rs) }
{}

/// An example of a few transactions: the revisions that they make, what a name holds after each, and
/// what old and new versions of etcd keep in a compaction.
pub fn an_example_of_transactions()
    ensures possible { ArePossible few_transactions }
    ensures writes { history few_transactions
        ≡ first_a ∷ first_b ∷ deletion_of_a ∷ second_b ∷ second_a ∷ [] }
    ensures live_of { map (λ at. state_at at few_transactions (codes "a")) (2 ∷ 3 ∷ 4 ∷ [])
        ≡ Some first_a ∷ None ∷ Some second_a ∷ [] }
    ensures kept_by_old { kept_revisions (etcd_keeps false 3 (history few_transactions)) few_transactions
        ≡ first_b ∷ second_b ∷ second_a ∷ [] }
    ensures kept_by_new { kept_revisions (etcd_keeps true 3 (history few_transactions)) few_transactions
        ≡ first_b ∷ deletion_of_a ∷ second_b ∷ second_a ∷ [] }
{}

/// What an old or a new version of etcd keeps in a compaction is a compaction as `IsCompaction`
/// defines it.
pub fn what_etcd_keeps_is_a_compaction()
    ensures { (ts : List Transaction) (new : Bool) (compacted : ℕ) → ArePossible ts
        → IsCompaction compacted ts (etcd_keeps new compacted (history ts)) }
{}

/// Two compactions of a history are one: that at the later transaction.
pub fn two_compactions_are_one()
    ensures { (ts : List Transaction) (early late : ℕ) (first second : RevisionView → Bool)
        → early ≤ late → IsCompaction early ts first → IsCompaction late ts second
        → IsCompaction late ts (λ r. first r && second r) }
{}

/// `etcd-check` prints no line of a store from which nothing is missing: it has the revisions of
/// transactions that etcd did, but for those that a compaction removed, and each lease that a name has.
pub fn nothing_is_found_in_a_whole_store()
    ensures { ForCompacted (λ ts compacted rs. (store : StoreView)
        → HoldsExactly store compacted rs → GrantsLeases store ts → store_lines store ≡ []) }
{}

/// If one revision after the compaction is taken away from such a store, it is found:
///
/// - by its number, if a later one of its transaction is there;
/// - by the number of its transaction, if no other one of that is there, but a later transaction is;
/// - by the next revision of its name, unless that is a deletion, and a put comes before both.
pub fn a_revision_that_is_taken_away_is_found()
    ensures by_number { ForTaken (λ r later rs missing.
        later.key.main ≡ r.key.main → r.key.sub < later.key.sub
        → IsReportedRevision r.key.main r.key.sub missing) }
    ensures by_transaction { ForTaken (λ r later rs missing.
        r.key.main < later.key.main → HasNoneOf r.key.main rs → IsReported r.key.main missing) }
    ensures by_name { ForCompacted (λ ts compacted rs.
        (r next : RevisionView) (left by_name : List RevisionView)
        → (is : IsTaken compacted rs r left) → AreByName left by_name
        → IsShownBy next r is.before is.after → (granted : ℕ → Bool)
        → ReportsOneBefore next (name_faults (Some compacted) granted None by_name)) }
{}

/// The keys that there are in such a store at a transaction, if it isn't before the compaction, are
/// exactly what the names held after that transaction.
pub fn keys_are_those_of_the_state()
    ensures { ForCompacted (λ ts compacted rs. (at : ℕ) (current : List RevisionView)
        → compacted ≤ at
        → AreCurrent (until at rs) current ↔ AreOfState (state_at at ts) current) }
{}

/// The check value of CRC-32C: the sum of the digits from 1 to 9.
pub fn crc_32c_has_its_check_value()
    ensures { crc_of (codes "123456789") ≡ 0xE3069283 }
{}

/// At each transaction that isn't before the newest one, HashKV is the same.
#[tactic(auto, using(crate::proofs::HashOfAll::same_hash))]
pub fn the_hash_of_all_is_that_at_the_newest_revision()
    ensures { (compacted : ℕ) (entries : List LeafElement) (a b : ℕ)
        → newest_main (numbered entries) ≤ a → newest_main (numbered entries) ≤ b
        → hash_kv a compacted entries ≡ hash_kv b compacted entries }
{}

/// Bytes after the last page below the high-water mark change nothing: metas stay valid, the same
/// one is active, the file stays sound, and it lists the same.
pub fn trailing_bytes_change_nothing()
    ensures metas { (file more : List ℕ) → HasBothMetas file → HasBothMetas (file ++ more) }
    ensures chosen { (file more : List ℕ) (slot : Slot) (meta : Meta) (accounts : Bool)
        → HasAllPages file meta
        → IsSound file meta accounts → IsActive file slot meta → IsActive (file ++ more) slot meta }
    ensures sound { ForTrailing (λ file longer meta (accounts : Bool).
        IsSound file meta accounts → IsSound longer meta accounts) }
    ensures listing { ForTrailing (λ file longer meta (listing : List Member).
        IsListing file meta listing ↔ IsListing longer meta listing) }
{}

/// A file of whole blocks of 512 bytes and its hash are a snapshot. Without the hash, it is missing; if a
/// part of the hash is left out, it is cut off.
pub fn hashed_blocks_are_a_snapshot()
    ensures snapshot { (file : List ℕ) → length file % 512 ≡ 0 → IsSnapshot (snapshot_of file) }
    ensures cut { (file : List ℕ) (n : ℕ) → length file % 512 ≡ 0 → n < 32
        → hash_fault (take (length file + n) (snapshot_of file)) ≡ Some (cut_hash_fault n) }
{}
