//! What the definitions of answers imply.
ghost use Rattle.std.specs.Prelude.{◌≡◌, ◌<◌, ◌^◌, ℕ, true, List, [], Ok, codes};
ghost use Rattle.bolt_format.specs.{Metas.ForMetasPrefix, declared.meta.Meta.Meta};
ghost use Rattle.std.specs.List.{AllByRecursion};
ghost use Rattle.bolt_layout.specs.{AsWritten.IsAsWritten, Copies.IsOfOneTree, ForBbolt.IsOfLayout};
ghost use Rattle.hex.specs.Hex.{IsBytes};
ghost use Rattle.bolt_tree.specs.Listing.{IsListing, Member};
ghost use Rattle.bolt_commands.specs.{Alike.BucketsAlike, Alike.CopiesAlike, Alike.DoesAlike, Alike.GetsAlike, Alike.KeysAlike, Alike.ListsAlike};
ghost use Rattle.bolt_commands.specs.{Alike.ForSoundTrees, Alike.OfSoundTrees, Alike.RepairsNothing, Alike.UnderSoundTrees, Answers.Answer};
ghost use Rattle.bolt_commands.specs.{FilesRead.IsReadUnder, ListAnswers.IsListedAnswer};
ghost use Rattle.bolt_commands.specs.{Answers.done, EtcdAnswers.IsCheckAllAnswer};
ghost use Rattle.bolt_commands.specs.{CheckedCopies.FailsCutOff, CheckedCopies.LoadsAs, CheckedCopies.PassesCheck, GoodCopies.ForCopyFindings};
ghost use Rattle.bolt_commands.specs.{GoodCopies.ForGoodCopies, GoodCopies.HasGoodCopies};
ghost use Rattle.bolt_commands.specs.WholeMembers.{IsWholeJoined, IsWholeRecovery, IsWholeRepaired};
ghost use Rattle.bolt_job.specs.{MetaChoices.IsMetaOf, Jobs.needs_metas_alone, declared.job.Job.Job, declared.choices.MetaChoice.MetaChoice};
ghost use Rattle.bolt_recover.specs.JoinedMembers.{ForJoined, joined_file, joined_left, joined_meta};
ghost use Rattle.bolt_recover.specs.{Recovered.ForRecovered, Recoveries.recovery_file, Recoveries.recovery_left, Recoveries.recovery_meta};
ghost use Rattle.bolt_repair.specs.{Repaired.ForRepaired, RepairedMembers.repaired_file, RepairedMembers.repaired_left};
ghost use Rattle.bolt_repair.specs.{RepairedMembers.repaired_meta, RepairedMembers.repaired_search};
ghost use Rattle.bolt_text.specs.declared.forms.ListForm.TheVariants as form;
ghost use Rattle.bolt_job.specs.declared.choices.Extent.TheVariants as extent;

use bolt_etcd::{hashed_blocks_are_a_snapshot, trailing_bytes_change_nothing};
use bolt_format::Sink;
use bolt_format::laws::{active_meta_is_one, metas_lie_in_a_prefix, slot_meta_is_one};
use bolt_layout::laws::{
    a_copy_lists_the_same, a_files_listing_is_of_one_tree, a_fit_listing_is_of_one_tree,
    layout_has_length, layouts_fail_on_what_they_hold, layouts_have_no_gaps,
    pages_without_gaps_are_as_written, prefixes_are_refused,
};
use bolt_load::{
    a_files_listing_is_of_bytes, a_listings_text_is_read_back, a_right_text_has_no_fault,
};
use bolt_recover::laws::{
    each_file_has_a_joined_listing, each_file_has_a_recovered_listing, each_file_has_found_pages,
    joined_listing_is_of_a_tree, joined_members_rise, nothing_lost_finds_nothing,
    nothing_lost_keeps_each_way, nothing_lost_means_sound_trees, recovered_listing_is_of_a_tree,
    sound_trees_lose_nothing, sound_trees_recover_their_listing,
    sound_trees_recover_what_they_list, the_file_of_a_recovery_is_bytes,
    the_file_of_joined_members_is_bytes,
};
use bolt_recover::{JoinedListing, Recovery};
use bolt_repair::RepairedListing;
use bolt_repair::laws::{repaired_listing_is_of_a_tree, sound_trees_put_nothing_back};
use bolt_text::laws::hex_lines_are_the_listing_text;
use bolt_tree::laws::{all_is_below_the_root, sound_trees_have_a_listing};

/// A job that needs the metas alone does on the bytes up to their end, which the first 80 tell,
/// exactly what it does on the whole file.
pub fn needed_bytes_are_enough<O: Sink, T: Sink>()
    ensures { ForMetasPrefix (λ prefix file. (job : Job) → needs_metas_alone job ≡ true
        → DoesAlike O.Sink T.Sink job prefix file) }
{
    metas_lie_in_a_prefix();
}

/// A recovery of which nothing was returned yet can be copied: it has all that is recovered of a damaged
/// file, which is the listing of one tree.
pub fn a_recovery_is_whole(recovery: &Recovery<'_>)
    requires { ForRecovered (recovery_file recovery.now) (recovery_meta recovery.now)
        (λ listing. recovery_left recovery.now listing ≡ listing) }
    ensures { IsWholeRecovery recovery.now }
{
    the_file_of_a_recovery_is_bytes(recovery);
    recovered_listing_is_of_a_tree();
    each_file_has_a_recovered_listing();
    a_fit_listing_is_of_one_tree();
}

/// Joined members can be copied, too: they are all that is recovered of a damaged file, with all that is
/// found of it.
pub fn joined_members_are_whole(joined: &JoinedListing<'_>)
    requires { ForJoined (joined_file joined.now) (joined_meta joined.now)
        (λ listing. joined_left joined.now listing ≡ listing) }
    ensures { IsWholeJoined joined.now }
{
    the_file_of_joined_members_is_bytes(joined);
    joined_members_rise(joined);
    joined_listing_is_of_a_tree();
    each_file_has_a_joined_listing();
    a_fit_listing_is_of_one_tree();
}

/// The members of a repaired listing can be copied, too.
pub fn repaired_members_are_whole(repaired: &RepairedListing<'_>)
    requires { ForRepaired (repaired_file repaired.now) (repaired_meta repaired.now)
        (repaired_search repaired.now) (λ listing. repaired_left repaired.now listing ≡ listing) }
    ensures { IsWholeRepaired repaired.now }
{
    repaired_listing_is_of_a_tree();
    a_fit_listing_is_of_one_tree();
}

/// The copies of a listing that is that of one tree are good: `check` accepts each, hash and all; it
/// has the same listing; a snapshot has its hash; and each proper prefix is refused, or lacks a part
/// of the hash.
pub fn whole_copies_are_good()
    ensures { (listing : List Member) (sequence : ℕ) → IsOfOneTree listing → sequence < 2 ^ 64
        → HasGoodCopies listing sequence }
{
    a_copy_lists_the_same();
    layout_has_length();
    layouts_have_no_gaps();
    prefixes_are_refused();
    trailing_bytes_change_nothing();
    hashed_blocks_are_a_snapshot();
}

/// What bbolt fails on along the ways of a copy, hash and all, its listing brings: values in the root
/// bucket, and values under keys of more than 32,768 bytes. A copy that isn't for bbolt adds branches of
/// one child.
pub fn copies_fail_on_what_they_hold()
    ensures { ForCopyFindings (λ which findings. AllByRecursion (IsOfLayout which) findings) }
{
    layouts_fail_on_what_they_hold();
    layout_has_length();
}

/// Of a good copy `check` prints that it is sound, to any extent, and with `--etcd-snapshot`
/// if it is a snapshot, unless memory runs out. For a proper prefix of it, the status isn't 0.
pub fn good_copies_pass_the_check()
    ensures whole { ForGoodCopies PassesCheck }
    ensures prefixes { ForGoodCopies FailsCutOff }
{
    active_meta_is_one();
    sound_trees_lose_nothing();
}

/// If `check --all` prints `OK`, each page of the trees is what is written for its elements, and so is the
/// page of each inline bucket, but for the number and the overflow in its header. Any bytes may follow
/// the data of the elements.
pub fn a_right_file_is_as_written()
    ensures { (file : List ℕ) (choice : MetaChoice) → IsBytes file
        → IsCheckAllAnswer file choice (done (codes "OK\n"))
        → (meta : Meta) × IsMetaOf file choice meta × IsAsWritten file meta }
{
    nothing_lost_keeps_each_way();
    nothing_lost_means_sound_trees();
    sound_trees_lose_nothing();
    pages_without_gaps_are_as_written();
}

/// If `list` prints a whole file, `load` of what it prints writes the copy of the file's listing, as
/// `compact` does at the same page size, with the same sequence; unless memory runs out before. If the
/// file holds nothing, `load` refuses the empty text as cut off.
pub fn loading_a_listing_copies_it<O: Sink, T: Sink>()
    ensures { (file : List ℕ) (choice : MetaChoice) (answer : Answer) → IsBytes file
        → IsListedAnswer extent.Sound file choice form.Hex [] [] answer → answer.ending ≡ Ok 0
        → (meta : Meta) × (listing : List Member) × IsReadUnder file choice meta
        × IsListing file meta listing × LoadsAs O.Sink T.Sink answer.out listing }
{
    all_is_below_the_root();
    hex_lines_are_the_listing_text();
    a_files_listing_is_of_one_tree();
    a_files_listing_is_of_bytes();
    a_listings_text_is_read_back();
    a_right_text_has_no_fault();
}

/// With sound trees, the commands that take `--recover` do with it exactly what they do without it under
/// the same meta, chosen so that its accounts don't count: by its slot, or as an assumed one. There are
/// two exceptions: a snapshot that is to be made of a file with a hash that isn't right, and names of
/// which memory runs out before all are written. And with `--lost-and-found`, `list` and `compact` do
/// exactly what they do with `--recover`. `etcd-repair` without a search in any case puts nothing back,
/// and copies what etcd can read.
pub fn recovering_sound_trees_reads_them<O: Sink, T: Sink>()
    ensures list { UnderSoundTrees (ListsAlike extent.Losses extent.Sound) }
    ensures compact { UnderSoundTrees (CopiesAlike O.Sink T.Sink extent.Losses extent.Sound) }
    ensures keys { UnderSoundTrees KeysAlike }
    ensures buckets { UnderSoundTrees BucketsAlike }
    ensures get { UnderSoundTrees GetsAlike }
    ensures found_list { OfSoundTrees (ListsAlike extent.FoundPages extent.Losses) }
    ensures found_compact { OfSoundTrees (CopiesAlike O.Sink T.Sink extent.FoundPages extent.Losses) }
    ensures repair { ForSoundTrees (RepairsNothing O.Sink T.Sink) }
{
    active_meta_is_one();
    slot_meta_is_one();
    sound_trees_recover_their_listing();
    sound_trees_recover_what_they_list();
    each_file_has_found_pages();
    nothing_lost_finds_nothing();
    sound_trees_have_a_listing();
    sound_trees_put_nothing_back();
}
