//! What the definitions of sound files imply. docs/SOUND.md says what findings, accounts, roles, ways
//! and tours are.
ghost use Rattle.std.specs.Prelude.{◌≡◌, ◌≢◌, ◌↔◌, ◌<◌, ◌+◌, ◌∷◌, [], ℕ, IsTrue, List, Some, slice_get};
ghost use Rattle.bolt_format.specs.{Elements.BranchElement, Elements.LeafElement, Elements.head_root, Pages.PageView, Pages.page_at};
ghost use Rattle.bolt_format.specs.declared.header.Kind.TheVariants as kind;
ghost use Rattle.bolt_format.specs.declared.meta.Meta.{Meta};
ghost use Rattle.bolt_check.specs.{Nodes.node_at, Ones.AtMostOne, OnWays.IsOnWay, OnWays.reach_of, Roles.AreRoles, Roles.HasRole};
ghost use Rattle.bolt_check.specs.declared.finding.TheConstants.Finding.{ABOVE_NEXT, BELOW_PARENT, EMPTY_BRANCH, FREED_TWICE, FREE_RANGE, ORDER};
ghost use Rattle.bolt_check.specs.declared.finding.TheConstants.Finding.{REACHED_FREED, TOO_DEEP, TWICE, UNREACHABLE};
ghost use Rattle.bolt_check.specs.declared.finding.TheConstants.Finding.{FIRST_KEY, INLINE_NUMBER, LARGE_KEY, LEAF_DEPTH, ONE_CHILD, ROOT_VALUE};
ghost use Rattle.bolt_check.specs.Sound.{AreFindingsOfAccounts, HasRightAccounts, HasSoundTrees, IsFirstFinding, PassesTests};
ghost use Rattle.bolt_check.specs.{Tours.IsTour, Ways.At_page, Ways.Reach, Ways.reached, Ways.root_spot, declared.finding.Finding.Finding};
ghost use Rattle.bolt_check.specs.{declared.role_table.Role.Role};

/// The codes of findings, which callers may keep, are these.
pub fn codes_of_findings_are_fixed()
    ensures of_files { TWICE ∷ ORDER ∷ BELOW_PARENT ∷ ABOVE_NEXT ∷ EMPTY_BRANCH ∷ TOO_DEEP
        ∷ FREED_TWICE ∷ REACHED_FREED ∷ UNREACHABLE ∷ FREE_RANGE ∷ []
        ≡ 18 ∷ 19 ∷ 20 ∷ 21 ∷ 22 ∷ 23 ∷ 24 ∷ 25 ∷ 26 ∷ 27 ∷ [] }
    ensures for_bbolt { ONE_CHILD ∷ ROOT_VALUE ∷ LARGE_KEY ∷ FIRST_KEY ∷ LEAF_DEPTH
        ∷ INLINE_NUMBER ∷ [] ≡ 37 ∷ 38 ∷ 39 ∷ 40 ∷ 41 ∷ 42 ∷ [] }
{}

/// No test of the trees fails, exactly if they are sound.
#[tactic(auto, using(crate::proofs::Lawful::shape_passes, crate::proofs::Shaping::shape_of))]
pub fn sound_trees_pass_the_tests()
    ensures { (file : List ℕ) (meta : Meta) → HasSoundTrees file meta ↔ PassesTests file meta }
{}

/// Sound trees have no finding. So if a file has a first finding under a meta, its trees aren't
/// sound for it.
pub fn sound_trees_have_no_finding()
    ensures { (file : List ℕ) (meta : Meta) (x : Finding) → HasSoundTrees file meta
        → IsFirstFinding file meta x → ⊥ }
{}

/// There is at most one first finding, so which one is reported doesn't depend on how it is searched
/// for.
pub fn first_finding_is_one()
    ensures { (file : List ℕ) (meta : Meta) → AtMostOne (IsFirstFinding file meta) }
{}

/// There is one list of findings of the accounts, so what is reported of them, and in which order,
/// doesn't depend on how it is searched for.
pub fn account_findings_are_one()
    ensures { (file : List ℕ) (meta : Meta) → AtMostOne (AreFindingsOfAccounts file meta) }
{}

/// In a sound file a page has at most one role.
#[tactic(auto, using(crate::proofs::RoleOnce::role_once))]
pub fn role_is_one()
    ensures { (file : List ℕ) (meta : Meta) (n : ℕ) → HasSoundTrees file meta → HasRightAccounts file meta
        → AtMostOne (HasRole file meta n) }
{}

/// In a sound file each page below the high-water mark has a role.
#[tactic(auto, using(crate::proofs::RoleExists::role_exists))]
pub fn role_exists()
    ensures { (file : List ℕ) (meta : Meta) (n : ℕ) → HasSoundTrees file meta → HasRightAccounts file meta
        → n < meta.high_water → (role : Role) × HasRole file meta n role }
{}

/// In a sound file there is an assignment of roles to pages: one role for each page below the
/// high-water mark, which it has.
#[tactic(auto, using(crate::proofs::RoleFacts::some_roles))]
pub fn roles_exist()
    ensures { (file : List ℕ) (meta : Meta) → HasSoundTrees file meta → HasRightAccounts file meta
        → (roles : ℕ → Role) × AreRoles file meta roles }
{}

/// Ways exist. One leads to the root page of the root bucket. From a page that a way leads to, one
/// leads to each child of a branch, one page deeper, and to the root page of each bucket on a leaf,
/// unless the bucket is inline.
pub fn ways_go_on()
    ensures root { (file : List ℕ) (meta : Meta) → IsOnWay file meta meta.root 1 }
    ensures child { (file : List ℕ) (meta : Meta) (n depth i : ℕ) (view : PageView) (e : BranchElement) → IsOnWay file meta n depth
        → page_at file meta n ≡ Some view → view.kind ≡ kind.Branch → slice_get view.branches i ≡ Some e → IsOnWay file meta e.child (depth + 1) }
    ensures bucket { (file : List ℕ) (meta : Meta) (n depth i : ℕ) (view : PageView) (e : LeafElement) → IsOnWay file meta n depth
        → page_at file meta n ≡ Some view → view.kind ≡ kind.Leaf → slice_get view.leaves i ≡ Some e → IsTrue e.is_bucket → head_root e.value ≢ 0
        → IsOnWay file meta (head_root e.value) 1 }
{}

/// In sound trees each bucket with a root page has a tour: the list of all ways in it, in order.
#[tactic(auto, using(crate::proofs::TourSums::bucket_tour))]
pub fn tour_exists()
    ensures { (file : List ℕ) (meta : Meta) (way : List ℕ) (root : ℕ) → HasSoundTrees file meta
        → reach_of file meta way ≡ Some (At_page (root_spot root)) → (tour : _) × IsTour (reached (node_at file meta) root) tour }
{}

/// There is at most one tour: it lists exactly the ways that lead somewhere, and these have one
/// order.
pub fn tour_is_one()
    ensures { (reach : Reach) → AtMostOne (IsTour reach) }
{}
