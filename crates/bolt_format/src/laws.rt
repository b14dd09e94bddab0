//! What the definitions of metas and of pages imply, and that what is written reads back.
ghost use Rattle.std.specs.Prelude.{◌≡◌, ◌⊎◌, ◌↔◌, ◌<◌, ◌≤◌, ◌^◌, ◌+◌, ◌-◌, ◌∷◌, [], ℕ, ◌++◌, Bool, IsTrue, List, drop, length};
ghost use Rattle.bolt_format.specs.Metas.{ForMetasPrefix, HasMetaFault, HasSlotFault, IsActive, IsInSlot, IsMeta, IsOnlyActive};
ghost use Rattle.bolt_format.specs.ReadBack.{BranchReadsBack, IsHead, IsHeader, IsHeaderFit, IsMetaFit, LeafReadsBack};
ghost use Rattle.bolt_format.specs.{BboltMetas.is_meta_header, Encoded.head_bytes, Encoded.header_bytes, Encoded.meta_bytes};
ghost use Rattle.bolt_format.specs.{declared.header.Kind.Kind};
ghost use Rattle.bolt_format.specs.declared.meta.TheConstants.{METAS_END, NO_FREELIST};
ghost use Rattle.bolt_format.specs.declared.page_fault.TheConstants.PageFault.{BUCKET_SHORT, CUT, DATA_ORDER, ELEMENT_CUT, ID, INLINE_NESTED};
ghost use Rattle.bolt_format.specs.declared.page_fault.TheConstants.PageFault.{INLINE_PAGE, KEY_LENGTH, LEAF_FLAGS, PAGE_KIND, RANGE, VALUE_LENGTH};
ghost use Rattle.bolt_format.specs.{declared.meta.Meta.Meta, declared.meta.MetaFault.MetaFault, declared.meta.Slot.Slot};

/// A number of 64 bits is below 2^64. The prover knows that of a value that a body reads, so this reads
/// it, and does nothing else.
pub fn fits(n: u64)
    ensures { n < 2 ^ 64 }
{
    let _ = n;
}

/// The numbers with names are those of the format (docs/FORMAT.md). The codes of faults, which callers
/// may keep, are these.
pub fn numbers_are_those_of_the_format()
    ensures freelist { NO_FREELIST ≡ 2 ^ 64 - 1 }
    ensures metas { METAS_END ≡ 2 ^ 25 + 80 }
    ensures faults { RANGE ∷ CUT ∷ ID ∷ PAGE_KIND ∷ ELEMENT_CUT ∷ DATA_ORDER ∷ KEY_LENGTH
        ∷ VALUE_LENGTH ∷ LEAF_FLAGS ∷ BUCKET_SHORT ∷ INLINE_PAGE ∷ INLINE_NESTED ∷ []
        ≡ 6 ∷ 7 ∷ 8 ∷ 9 ∷ 10 ∷ 11 ∷ 12 ∷ 13 ∷ 14 ∷ 15 ∷ 16 ∷ 17 ∷ [] }
{}

/// A page has at most one meta fault, and none if its meta is valid.
pub fn meta_fault_is_one()
    ensures one { (file : List ℕ) (at : ℕ) (a b : MetaFault) → HasMetaFault file at a
        → HasMetaFault file at b → a ≡ b }
    ensures valid { (file : List ℕ) (at : ℕ) (fault : MetaFault) (meta : Meta)
        → HasMetaFault file at fault → IsMeta file at meta → ⊥ }
{}

/// A slot has at most one valid meta.
pub fn slot_meta_is_one()
    ensures { (file : List ℕ) (slot : Slot) (a b : Meta) → IsInSlot file slot a
        → IsInSlot file slot b → a ≡ b }
{}

/// A file has at most one active meta.
pub fn active_meta_is_one()
    ensures { (file : List ℕ) (slot : Slot) (meta : Meta) → IsActive file slot meta
        → IsOnlyActive file slot meta }
{}

/// All metas of a file, and the faults of slots without a valid one, are those of a prefix. Its
/// length is known by the first 80 bytes.
pub fn metas_lie_in_a_prefix()
    ensures chosen { ForMetasPrefix (λ prefix file. (slot : Slot) (meta : Meta)
        → IsActive prefix slot meta ↔ IsActive file slot meta) }
    ensures slot { ForMetasPrefix (λ prefix file. (slot : Slot) (meta : Meta)
        → IsInSlot prefix slot meta ↔ IsInSlot file slot meta) }
    ensures fault { ForMetasPrefix (λ prefix file. (fault : MetaFault)
        → HasMetaFault prefix 0 fault ↔ HasMetaFault file 0 fault) }
    ensures slot_fault { ForMetasPrefix (λ prefix file. (slot : Slot) (fault : MetaFault)
        → HasSlotFault prefix slot fault ↔ HasSlotFault file slot fault) }
{}

/// The header of a page reads back: its number, its kind, its count and its overflow.
pub fn page_headers_read_back()
    ensures { (bytes rest : List ℕ) (number : ℕ) (is : Kind) (count overflow : ℕ)
        → bytes ≡ header_bytes number is count overflow ++ rest → IsHeaderFit number count overflow
        → IsHeader bytes number is count overflow × (drop 16 bytes ≡ rest) }
{}

/// The headers of elements read back.
pub fn element_headers_read_back()
    ensures branch { (bytes rest : List ℕ) (i pos key child : ℕ)
        → BranchReadsBack bytes i pos key child rest }
    ensures leaf { (bytes rest : List ℕ) (i : ℕ) (is_bucket : Bool) (pos key value : ℕ)
        → LeafReadsBack bytes i is_bucket pos key value rest }
{}

/// The head of a bucket's value reads back: its root page and its sequence.
pub fn bucket_heads_read_back()
    ensures { (value rest : List ℕ) (root sequence : ℕ) → value ≡ head_bytes root sequence ++ rest
        → root < 2 ^ 64 → sequence < 2 ^ 64 → IsHead value root sequence rest }
{}

/// A meta page is a valid meta with these fields, at byte 0 and at its page size. Its header is that
/// of a meta page with its number.
pub fn meta_pages_are_valid()
    ensures valid { (file rest : List ℕ) (at number : ℕ) (meta : Meta) → drop at file ≡ meta_bytes number meta ++ rest
        → IsMetaFit meta → (at ≡ 0) ⊎ (at ≡ meta.page_size) → at ≤ length file → IsMeta file at meta }
    ensures header { (file rest : List ℕ) (at number : ℕ) (meta : Meta) → drop at file ≡ meta_bytes number meta ++ rest
        → number < 2 ^ 64 → at ≤ length file → IsTrue (is_meta_header file at number) }
{}
