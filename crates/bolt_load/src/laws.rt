//! What the definitions imply.
ghost use Rattle.std.specs.Prelude.{◌≡◌, ◌<◌, ℕ, [], List, length};
ghost use Rattle.bolt_format.specs.{Bytes.IsBytes, declared.meta.Meta.Meta};
ghost use Rattle.bolt_lemmas.specs.Order.{Rises};
ghost use Rattle.bolt_tree.specs.{Listing.IsListing, Listing.Member, Listing.member_cmp};
ghost use Rattle.bolt_layout.specs.Copies.{IsOfOneTree};
ghost use Rattle.bolt_text.specs.ListLines.{listing_text};
ghost use Rattle.bolt_load.specs.LineFaults.{IsListingText, IsLoadFault};
ghost use Rattle.bolt_load.specs.declared.load_fault.LineFault.TheVariants.{CutOff};
ghost use Rattle.bolt_load.specs.declared.load_fault.LoadFault.TheVariants.{Line};
ghost use Rattle.bolt_load.specs.{ByteMembers.AreOfBytes, PlainTexts.plain_text};
ghost use Rattle.bolt_text.specs.{LineMembers.text_members, Lines.Text};
ghost use Rattle.bolt_load.specs.{declared.load_fault.LineFault.LineFault};
ghost use Rattle.bolt_load.specs.ByteMembers.{IfWritable};

use bolt_layout::laws::{a_fit_listing_is_of_one_tree, held_members_fit};

/// What a text without a fault tells is the listing of exactly one tree, which can be computed from
/// it and can be stored; and its members rise.
pub fn a_text_is_of_one_tree()
    ensures tree { (text : Text) → IsListingText text → IsOfOneTree (text_members text) }
    ensures rises { (text : Text) → IsListingText text → Rises member_cmp (text_members text) }
{
    a_fit_listing_is_of_one_tree();
}

/// A text without a fault has none.
pub fn a_right_text_has_no_fault()
    ensures { (text : Text) (line : ℕ) (fault : LineFault) → IsListingText text
        → ¬ IsLoadFault text (Line line fault) }
{}

/// A file's listing is of bytes.
pub fn a_files_listing_is_of_bytes()
    ensures { (file : List ℕ) (meta : Meta) (listing : List Member) → IsBytes file
        → IsListing file meta listing → AreOfBytes listing }
{
    held_members_fit();
}

/// The text of a listing that has a member and is of one tree, its members rising and of bytes, has no
/// fault, and tells that listing. The text of a listing without a member is cut off before line 1.
pub fn a_listings_text_is_read_back()
    ensures right { (listing : List Member) → 0 < length listing
        → IfWritable listing (IsListingText (listing_text listing)) }
    ensures none { (line : ℕ) (fault : LineFault) → IsLoadFault (listing_text []) (Line line fault)
        → (line ≡ 1) × (fault ≡ CutOff) }
    ensures empty { ¬ IsListingText (listing_text []) }
    ensures listing { (listing : List Member)
        → IfWritable listing (text_members (listing_text listing) ≡ listing) }
{}

/// A text without a fault is the text of what it tells, but for the case of its letters and leading zeros
/// of its numbers.
pub fn a_text_is_that_of_its_listing()
    ensures { (text : Text) → IsListingText text
        → plain_text text ≡ listing_text (text_members text) }
{}
