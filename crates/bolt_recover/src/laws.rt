//! What the definitions of recovery imply.
ghost use Rattle.std.specs.List.{Contains, count_by};
ghost use Rattle.std.specs.Prelude.{◌≡◌, ◌<◌, ◌⊎◌, ◌*◌, ◌^◌, ◌∷◌, ℕ, Bool, [], List, Some, false, filter, is_some, length, not};
ghost use Rattle.bolt_format.specs.{Bytes.IsBytes, Metas.IsInSlot, declared.meta.Meta.Meta, declared.meta.Slot.Slot};
ghost use Rattle.bolt_lemmas.specs.Lists.{Has};
ghost use Rattle.bolt_check.specs.{LoneLeaves.IsListedFree, LoneLeaves.IsLoneLeaf, Nodes.node_at, Ones.AtMostOne, Sound.HasSoundTrees};
ghost use Rattle.bolt_check.specs.{Sound.IsFirstFinding, Ways.Spot, Ways.reached};
ghost use Rattle.bolt_check.specs.{declared.finding.Finding.Finding};
ghost use Rattle.bolt_lemmas.specs.Order.{Rises};
ghost use Rattle.bolt_tree.specs.{Entries.Bucket, Listing.IsListing, Listing.Member, Listing.member_cmp, Tree.Tree, Tree.listing_of};
ghost use Rattle.bolt_recover.specs.Found.{AreFound, AreFoundInAnyCase, AreSought, IsFoundPage, ForFoundPages, Spans};
ghost use Rattle.bolt_recover.specs.PageGaps.{AreGaps, PageGapView};
ghost use Rattle.bolt_recover.specs.Joined.{IsFoundMember, IsJoined, LacksBucketKey, LeavesRoom, is_found_path, lost_and_found};
ghost use Rattle.bolt_recover.specs.{JoinedMembers.ForJoined, JoinedMembers.joined_file, JoinedMembers.joined_meta, KeptPages.IsKeptPage};
ghost use Rattle.bolt_recover.specs.{Losses.AreLosses, Losses.LossView, Losses.LostView, Losses.is_nothing, Losses.loss_of, Losses.losses_of};
ghost use Rattle.bolt_recover.specs.{Lost.IsAllLost, PageWays.ArePageWays};
ghost use Rattle.bolt_recover.specs.{Recovered.AreInTheirBuckets, Recovered.IsRecovered, Recoveries.recovery_file};
ghost use Rattle.bolt_recover.specs.Surveys.{IsSurvey, LosesNothing, SurveyedWay, lost, way_kept, ForSurveys, ForLostWays, LosesNothingBefore};
ghost use Rattle.bolt_recover.specs.Surveys.{ForSurvey};
ghost use Rattle.bolt_recover.specs.{Sites.AtSite, TheRecovered.the_recovered};
ghost use Rattle.bolt_recover.specs.States.{AreStates, IsAmong, IsState, PlaceView, StateView};

use crate::joined_listing::JoinedListing;
use crate::recovery::Recovery;

/// A file has at most one survey.
pub fn survey_is_one()
    ensures { (file : List ℕ) (meta : Meta) → AtMostOne (IsSurvey file meta) }
{}

/// Each file has a survey.
#[tactic(auto, using(crate::proofs::Existing::has_survey))]
pub fn each_file_has_a_survey()
    ensures { (file : List ℕ) (meta : Meta) → (survey : List SurveyedWay)
        × IsSurvey file meta survey }
{}

/// A file has at most one recovered listing.
pub fn recovered_listing_is_one()
    ensures { (file : List ℕ) (meta : Meta) → AtMostOne (IsRecovered file meta) }
{}

/// Each file has a recovered listing.
#[tactic(auto, using(crate::proofs::Existing::has_recovered))]
pub fn each_file_has_a_recovered_listing()
    ensures { (file : List ℕ) (meta : Meta) → (listing : List Member)
        × IsRecovered file meta listing }
{}

/// The recovered listing of a file can be computed.
pub fn the_recovered_listing_is_recovered()
    ensures { (file : List ℕ) (meta : Meta) → IsRecovered file meta (the_recovered file meta) }
{}

/// A recovered listing is what a tree of buckets lists.
pub fn recovered_listing_is_of_a_tree()
    ensures { (file : List ℕ) (meta : Meta) (listing : List Member) → IsRecovered file meta listing
        → (tree : Tree) × (listing ≡ listing_of tree) }
{}

/// Each recovered member is what its path holds: an entry of the bucket that the path names.
pub fn recovered_members_are_in_their_buckets()
    ensures { (file : List ℕ) (meta : Meta) (survey : List SurveyedWay)
        → AreInTheirBuckets file meta survey }
{}

/// A file has at most one list of losses.
pub fn losses_are_one()
    ensures { (file : List ℕ) (meta : Meta) → AtMostOne (AreLosses file meta) }
{}

/// Sound trees lose nothing.
#[tactic(auto, using(crate::proofs::KeptWays::none_lost))]
pub fn sound_trees_lose_nothing()
    ensures { ForSurveys (λ file meta survey. HasSoundTrees file meta → LosesNothing survey) }
{}

/// The recovered listing of sound trees is their listing.
pub fn sound_trees_recover_their_listing()
    ensures { (file : List ℕ) (meta : Meta) (listing : List Member) → HasSoundTrees file meta
        → IsRecovered file meta listing → IsListing file meta listing }
{}

/// The finding at the first lost way is the first finding of the trees.
pub fn first_loss_is_the_first_finding()
    ensures { ForLostWays (λ file meta survey way x.
        LosesNothingBefore way survey → IsFirstFinding file meta x) }
{}

/// The trees are sound if no way is lost, and so if there is no loss.
pub fn nothing_lost_means_sound_trees()
    ensures ways { ForSurveys (λ file meta survey. LosesNothing survey
        → HasSoundTrees file meta) }
    ensures losses { (file : List ℕ) (meta : Meta) → AreLosses file meta []
        → HasSoundTrees file meta }
{}

/// If nothing is lost, each way that leads somewhere is kept.
#[tactic(auto, using(crate::proofs::KeptWays::all_kept))]
pub fn nothing_lost_keeps_each_way()
    ensures { ForSurveys (λ file meta survey. LosesNothing survey → (way : List ℕ) (spot : Spot)
        → reached (node_at file meta) meta.root way ≡ Some spot → Has survey (way_kept way)) }
{}

/// Each lost way has one loss, that of the site that it leads to. There are as many losses as lost
/// ways, and each loss is that of a lost way.
pub fn each_lost_way_has_one_loss()
    ensures number { ForSurveys (λ file meta survey.
        length (losses_of file meta survey)
        ≡ count_by (λ (v : SurveyedWay). is_some v.found) survey) }
    ensures loss { ForLostWays (λ file meta survey way x.
        AtSite file meta way (λ site. Contains (losses_of file meta survey) (loss_of site x))) }
    ensures way { ForSurveys (λ file meta survey.
        (l : LossView) → Contains (losses_of file meta survey) l
        → (way : List ℕ) × (x : Finding)
        × Has survey (lost way x) × AtSite file meta way (λ site. l ≡ loss_of site x)) }
{}

/// What is recovered of sound trees is what they list, and there is no loss.
pub fn sound_trees_recover_what_they_list()
    ensures listing { (file : List ℕ) (meta : Meta) (all : List Member) → HasSoundTrees file meta
        → IsListing file meta all → IsRecovered file meta all }
    ensures losses { (file : List ℕ) (meta : Meta) (losses : List LossView)
        → HasSoundTrees file meta → AreLosses file meta losses → losses ≡ [] }
{}

/// A file has exactly one number of ways to page numbers.
pub fn page_ways_are_one()
    ensures some { (file : List ℕ) (meta : Meta) → (n : ℕ) × ArePageWays file meta n }
    ensures one { (file : List ℕ) (meta : Meta) → AtMostOne (ArePageWays file meta) }
{}

/// The file of a recovery is bytes: none is above 255.
pub fn the_file_of_a_recovery_is_bytes(recovery: &Recovery<'_>)
    ensures { IsBytes (recovery_file recovery.now) }
{}

/// A file has at most one list of found pages.
pub fn found_pages_are_one()
    ensures { (file : List ℕ) (meta : Meta) → AtMostOne (AreFound file meta) }
{}

/// Each file has found pages: one list, which may be empty.
#[tactic(auto, using(crate::proofs::FoundExists::has_found))]
pub fn each_file_has_found_pages()
    ensures { (file : List ℕ) (meta : Meta) → (found : List ℕ) × AreFound file meta found }
{}

/// A file has one list of the pages that a search finds.
#[tactic(auto, using(crate::proofs::Sought::one_sought))]
pub fn sought_pages_are_one()
    ensures { (file : List ℕ) (meta : Meta) (in_any_case : Bool)
        → AtMostOne (AreSought file meta in_any_case) }
{}

/// Each file has pages that a search finds: one list, which may be empty.
#[tactic(auto, using(crate::proofs::Sought::has_sought))]
pub fn each_file_has_sought_pages()
    ensures { (file : List ℕ) (meta : Meta) (in_any_case : Bool)
        → (found : List ℕ) × AreSought file meta in_any_case found }
{}

/// If something is lost, the same pages are found as if they were looked for in any case.
#[tactic(auto, using(crate::proofs::Sought::found_in_any_case_if_lost))]
pub fn a_loss_is_searched_for_in_any_case()
    ensures { (file : List ℕ) (meta : Meta) (lost : LostView) (found : List ℕ)
        → IsAllLost file meta lost → is_nothing lost ≡ false → AreFound file meta found
        → AreFoundInAnyCase file meta found }
{}

/// If nothing is lost, nothing is found.
pub fn nothing_lost_finds_nothing()
    ensures { (file : List ℕ) (meta : Meta) (found : List ℕ) → AreLosses file meta []
        → AreFound file meta found → found ≡ [] }
{}

/// Each found page is an intact leaf below the high-water mark, isn't listed as free, and shares no
/// page with a kept way or with another found page.
pub fn found_pages_are_intact()
    ensures below { ForFoundPages (λ file meta found n. n < meta.high_water) }
    ensures leaf { ForFoundPages (λ file meta found n. ForSurvey file meta (λ survey.
        IsLoneLeaf (node_at file meta) (IsKeptPage file meta survey) n)) }
    ensures unlisted { ForFoundPages (λ file meta found n. IsListedFree file meta n → ⊥) }
    ensures apart { ForFoundPages (λ file meta found n. (m k : ℕ) → Contains found m
        → Spans file meta n k → Spans file meta m k → n ≡ m) }
{}

/// No intact leaf is left behind: if something is lost, each one that isn't listed as free shares a
/// page with a kept way or with a found page.
pub fn no_intact_leaf_is_left_behind()
    ensures { ForLostWays (λ file meta survey way x. (found : List ℕ) (n : ℕ)
        → AreFound file meta found → IsLoneLeaf (node_at file meta) (λ k. ⊥) n
        → (IsListedFree file meta n → ⊥)
        → (k : ℕ) × Spans file meta n k
        × (IsKeptPage file meta survey k ⊎ IsFoundPage file meta found k)) }
{}

/// Each state of a file is there, with its root page kept or lost: what is found by `find_states` leaves none out.
pub fn each_state_is_found()
    ensures { (file : List ℕ) (page_size : ℕ) (kept : List StateView) (lost : List PlaceView)
        (place : PlaceView) → AreStates file page_size kept lost → IsState file page_size place
        → IsAmong kept lost place }
{}

/// The state of each valid meta is there, with its root page kept or lost.
pub fn each_meta_has_a_state()
    ensures { (file : List ℕ) (page_size : ℕ) (kept : List StateView) (lost : List PlaceView)
        (slot : Slot) (meta : Meta) → AreStates file page_size kept lost
        → IsInSlot file slot meta
        → IsAmong kept lost (record { page_size = meta.page_size; root = meta.root }) }
{
    each_state_is_found();
}

/// A file has at most one joined listing.
pub fn joined_listing_is_one()
    ensures { (file : List ℕ) (meta : Meta) → AtMostOne (IsJoined file meta) }
{}

/// Each file has a joined listing.
#[tactic(auto, using(crate::proofs::JoinedLemmas::has_joined))]
pub fn each_file_has_a_joined_listing()
    ensures { (file : List ℕ) (meta : Meta) → (listing : List Member) × IsJoined file meta listing }
{}

/// A joined listing is what a tree of buckets lists.
pub fn joined_listing_is_of_a_tree()
    ensures { (file : List ℕ) (meta : Meta) (listing : List Member) → IsJoined file meta listing
        → (tree : Tree) × (listing ≡ listing_of tree) }
{}

/// What isn't in the bucket of what is found is exactly the recovered listing, if that has no entry
/// with the bucket's key itself.
pub fn joined_listing_keeps_what_is_recovered()
    ensures { (file : List ℕ) (meta : Meta) (listing recovered : List Member)
        → IsJoined file meta listing → IsRecovered file meta recovered
        → LacksBucketKey recovered
        → filter (λ (m : Member). not (is_found_path m.0)) listing ≡ recovered }
{}

/// A joined listing is in the order of paths, if it is that of a file of which no page number has more
/// than sixteen digits, and there is room for the bucket of what is found.
pub fn joined_listing_rises()
    ensures { (file : List ℕ) (meta : Meta) → length file < 10 ^ 16 * meta.page_size
        → LeavesRoom file meta → ForJoined file meta (Rises member_cmp) }
{}

/// Each member of a joined listing is recovered, or it is the bucket of what is found, or in it: the
/// bucket of a found page, an element of the page, or one of an inline bucket on the page.
pub fn joined_members_are_recovered_or_found()
    ensures { (file : List ℕ) (meta : Meta) (listing recovered : List Member)
        (found : List ℕ) (m : Member)
        → IsJoined file meta listing → IsRecovered file meta recovered → AreFound file meta found
        → Contains listing m → Contains recovered m
        ⊎ ((m ≡ (lost_and_found ∷ [], Bucket 0)) ⊎ IsFoundMember file meta found m) }
{}

/// The members of a joined listing are in the order of paths.
pub fn joined_members_rise(joined: &JoinedListing<'_>)
    ensures { ForJoined (joined_file joined.now) (joined_meta joined.now) (Rises member_cmp) }
{
    joined_listing_rises();
}

/// The file of the members of a joined listing is bytes.
pub fn the_file_of_joined_members_is_bytes(joined: &JoinedListing<'_>)
    ensures { IsBytes (joined_file joined.now) }
{}

/// A file has exactly one list of gaps.
#[tactic(auto, using(crate::proofs::Existing::has_gaps))]
pub fn each_file_has_its_gaps()
    ensures some { (file : List ℕ) (meta : Meta) → (gaps : List PageGapView)
        × AreGaps file meta gaps }
    ensures one { (file : List ℕ) (meta : Meta) → AtMostOne (AreGaps file meta) }
{}
