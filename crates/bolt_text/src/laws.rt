//! What is written is read back, in each form that can be.
ghost use Rattle.std.specs.Prelude.{◌≡◌, ℕ, List, Some, option_and_then, true};
ghost use Rattle.hex.specs.Hex.{IsBytes};
ghost use Rattle.json.specs.Json.{document};
ghost use Rattle.bolt_tree.specs.Listing.{Member};
ghost use Rattle.bolt_text.specs.{Forms.digits_json, Forms.is_printable, Forms.item_json, Forms.item_text, Forms.json_text, JsonLines.member_json};
ghost use Rattle.bolt_text.specs.JsonReadings.{IsMemberOfBytes, digits_of, item_in_json, member_of};
ghost use Rattle.bolt_text.specs.{ListForms.listing_lines, ListLines.listing_text, PartWords.part_by};
ghost use Rattle.bolt_text.specs.declared.forms.Form.TheVariants as Form;
ghost use Rattle.bolt_text.specs.declared.forms.ListForm.TheVariants as ListForm;
ghost use Rattle.bolt_text.specs.declared.part_words.Parts.TheVariants as Parts;

/// A JSON line without its line feed is a JSON document: an object with the path, and the value or
/// the sequence. A reader that looks up its members by their names finds all of it again, whatever its
/// bytes are, in either of the forms that are JSON.
#[tactic(auto, using(crate::proofs::JsonLemmas::read_back))]
pub fn json_lines_read_back()
    ensures document { (m : Member) → IsMemberOfBytes m
        → document (json_text (member_json item_json m)) ≡ Some (member_json item_json m) }
    ensures member { (m : Member) → IsMemberOfBytes m
        → option_and_then (member_of item_in_json) (document (json_text (member_json item_json m)))
        ≡ Some m }
    ensures hex_document { (m : Member) → IsMemberOfBytes m
        → document (json_text (member_json digits_json m)) ≡ Some (member_json digits_json m) }
    ensures hex_member { (m : Member) → IsMemberOfBytes m
        → option_and_then (member_of digits_of) (document (json_text (member_json digits_json m)))
        ≡ Some m }
{}

/// A key or a value as JSON is a JSON document, of which a reader finds its bytes.
pub fn json_items_read_back()
    ensures item { (bytes : List ℕ) → IsBytes bytes
        → option_and_then item_in_json (document (json_text (item_json bytes))) ≡ Some bytes }
    ensures hex_item { (bytes : List ℕ) → IsBytes bytes
        → option_and_then digits_of (document (json_text (digits_json bytes))) ≡ Some bytes }
{}

/// What `--form mixed` prints of a key or a value is printable ASCII and, as a part under
/// `--parts mixed`, that key or value.
pub fn mixed_items_read_back()
    ensures printable { (bytes : List ℕ) → IsBytes bytes
        → is_printable (item_text Form.Mixed bytes) ≡ true }
    ensures same { (bytes : List ℕ) → IsBytes bytes
        → part_by Parts.Mixed (item_text Form.Mixed bytes) ≡ Some bytes }
{}

/// The lines of a listing in hexadecimal are its text.
pub fn hex_lines_are_the_listing_text()
    ensures { (listing : List Member) → listing_lines ListForm.Hex listing ≡ listing_text listing }
{}
