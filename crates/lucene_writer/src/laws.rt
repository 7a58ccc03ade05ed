//! Laws of written trees, each the contract of a function that does nothing.

ghost use Rattle.std.specs.Prelude.{◌≡◌, ◌≤◌, ◌↔◌, ℕ, ℤ, Bool, true, false, List, map, min, None};
ghost use Rattle.std.specs.Fmt.{signed_decimal};
ghost use Rattle.event_schema.specs.Events.{IsWholeNumber};
ghost use Rattle.event_schema.specs.declared.schema.Schema.{Schema};
ghost use Rattle.sig_strings.specs.declared.part.Part.{Part};
ghost use Rattle.sig_strings.specs.Edits.{all_written};
ghost use Rattle.sig_strings.specs.Fits.{Fits};
ghost use Rattle.backend_core.specs.Trees.{Plain};
ghost use Rattle.backend_core.specs.Lacks.{lack_refusal};
ghost use Rattle.backend_core.specs.Schemas.{IsNamed};
ghost use Rattle.backend_core.specs.Sound.{IsSound};
ghost use Rattle.lucene_lang.specs.Meaning.{term_fits, kept, kept_glyphs};
ghost use Rattle.lucene_layout.specs.Escaped.{as_char};
ghost use Rattle.lucene_writer.specs.Counts.{tree_opens, tree_clauses};
ghost use Rattle.lucene_writer.specs.Glyphs.{glyphs_of};
ghost use Rattle.lucene_writer.specs.Lacking.{lucene_lacks};
ghost use Rattle.lucene_writer.specs.Pieces.{tree_text};
ghost use Rattle.lucene_writer.specs.Queries.{query_text, query_bytes, query_depth, query_clauses, IsQueryOf};
ghost use Rattle.lucene_writer.specs.Schemas.{IsIndexed};

use crate::place::Standing;
use lucene_lang::{atoms_hold, one_reading};
use lucene_layout::{
    layout_is_read, layout_selects, leaves_are_read, leaves_are_sound, leaves_are_written,
    numbers_are_taken, patterns_are_written, ranges_are_read, ranges_are_written,
};

/// The term of a pattern holds of the texts that the pattern fits, in a field and in its twin; that of a number's decimal holds
/// of this decimal.
pub fn patterns_are_terms()
    ensures pattern { (cased : Bool) (parts : List Part) (text : List ℕ) → all_written parts ≡ true
        → (term_fits (kept_glyphs cased (glyphs_of parts)) (kept cased text) ≡ true) ↔ Fits parts text cased }
    ensures number { (z : ℤ) (text : List ℕ) → IsWholeNumber z
        → (term_fits (kept_glyphs false (map as_char (signed_decimal z))) (kept false text) ≡ true) ↔ (text ≡ signed_decimal z) }
{}

/// Every schema has its fields found by their names and by their twins', of however many fields.
pub fn schemas_are_indexed()
    ensures { (schema : Schema) → IsNamed schema → IsIndexed schema.fields }
{}

/// The text of a sound tree for which nothing is lacking is one query, and it selects an event exactly where the tree holds.
pub fn tree_is_query()
    ensures { (limit : ℕ) (schema : Schema) (t : Plain) → IsIndexed schema.fields → IsSound schema.fields t
        → lack_refusal (lucene_lacks schema.fields) t ≡ None → query_depth schema t ≤ limit
        → IsQueryOf limit schema t (query_bytes schema t) }
{
    patterns_are_terms();
    atoms_hold();
    leaves_are_sound();
    leaves_are_read();
    ranges_are_read();
    numbers_are_taken();
    layout_is_read();
    layout_selects();
    one_reading();
}

/// The text that is written part by part is the layout's, and what is counted of it is the layout's.
pub(crate) fn pieces_are_query()
    ensures text { (schema : Schema) (t : Plain) → IsSound schema.fields t
        → tree_text schema.fields (Standing.Whole) t ≡ query_text schema t }
    ensures opens { (most : ℕ) (schema : Schema) (t : Plain) → IsSound schema.fields t
        → tree_opens most (Standing.Whole) t ≡ min (query_depth schema t) most }
    ensures clauses { (most : ℕ) (schema : Schema) (t : Plain) → IsSound schema.fields t
        → tree_clauses most (Standing.Whole) t ≡ min (query_clauses schema t) most }
{
    patterns_are_written();
    leaves_are_written();
    ranges_are_written();
}
