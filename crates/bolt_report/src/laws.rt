//! What the definitions of sizes imply, and that figures, sizes and revisions as JSON are read back.
ghost use Rattle.std.specs.Prelude.{◌≡◌, ℕ, List, Some, map, option_and_then};
ghost use Rattle.json.specs.Json.{document};
ghost use Rattle.bolt_format.specs.{Elements.LeafElement, declared.meta.Meta.Meta};
ghost use Rattle.bolt_report.specs.FigureForms.{Named, figures_json, json_name};
ghost use Rattle.bolt_text.specs.Forms.{digits_json, item_json, json_text};
ghost use Rattle.bolt_report.specs.FigureReadings.{HaveWords, figures_of_json, ReadsSizesBack};
ghost use Rattle.bolt_text.specs.JsonReadings.{digits_of, item_in_json};
ghost use Rattle.bolt_report.specs.SizeLines.{AreSized, Sized};
ghost use Rattle.bolt_check.specs.Ones.{AtMostOne};
ghost use Rattle.bolt_tree.specs.Laws.{ForBucketEntries};
ghost use Rattle.std.specs.Prelude.{◌≡◌, ℕ, Bool, List, Some, map};
ghost use Rattle.bolt_format.specs.{Elements.LeafElement};
ghost use Rattle.bolt_etcd.specs.{Wire.Revisions.RevisionView};
ghost use Rattle.bolt_check.specs.{Ones.AtMostOne};
ghost use Rattle.bolt_format.specs.declared.meta.Meta.{Meta};
ghost use Rattle.bolt_report.specs.{RevisionLines.revision_line, RevisionObjects.ReadsRevisionsBack, RevisionObjects.revision_json};
ghost use Rattle.bolt_text.specs.{Forms.digits_json, Forms.item_json, Forms.json_text, JsonReadings.digits_of, JsonReadings.item_in_json, Lines.line};
ghost use Rattle.bolt_text.specs.declared.forms.Form.TheVariants as Form;

/// The buckets among the entries of a bucket have at most one list of sizes.
#[tactic(auto, using(crate::proofs::SizesExist::one_sizes))]
pub fn sizes_are_one()
    ensures { (file : List ℕ) (meta : Meta) (entries : List LeafElement)
        → AtMostOne (AreSized file meta entries) }
{}

/// In sound trees the buckets among the entries of a bucket have their sizes.
#[tactic(auto, using(crate::proofs::SizesExist::some_sizes))]
pub fn sizes_exist()
    ensures { ForBucketEntries (λ file meta start entries. (sized : List Sized)
        × AreSized file meta entries sized) }
{}

/// Figures as JSON without the line feed are a JSON document. A reader that goes over its members
/// finds the names, with underscores for spaces, and the number of each, if it has one.
#[tactic(auto, using(crate::proofs::FigureDocuments::figures_document))]
pub fn json_figures_read_back()
    ensures { (figures : List Named) → HaveWords figures
        → option_and_then figures_of_json (document (json_text (figures_json figures)))
        ≡ Some (map (λ figure. (json_name figure.0, figure.1)) figures) }
{}

/// The line of a bucket's sizes as JSON is, without its line feed, a JSON document. A reader that
/// looks up its members by their names finds the number of keys, the bytes used, the bytes allocated,
/// and the name.
pub fn json_sizes_read_back()
    ensures item { ReadsSizesBack item_in_json item_json }
    ensures hex_item { ReadsSizesBack digits_of digits_json }
{}

/// The line of a revision as JSON is, without its line feed, a JSON document, with its value or
/// without. A reader that looks up its members by their names finds its numbers, its name and its
/// value.
#[tactic(auto, using(crate::proofs::RevisionDocuments::read_back))]
pub fn json_revisions_read_back()
    ensures text { (values : Bool) (r : RevisionView) → revision_line Form.Json values r
        ≡ line (json_text (revision_json item_json values r)) }
    ensures hex_text { (values : Bool) (r : RevisionView) → revision_line Form.JsonHex values r
        ≡ line (json_text (revision_json digits_json values r)) }
    ensures item { ReadsRevisionsBack item_in_json item_json }
    ensures hex_item { ReadsRevisionsBack digits_of digits_json }
{}
