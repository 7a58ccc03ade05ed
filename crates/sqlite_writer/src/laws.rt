//! Laws of written trees, each the contract of a function that does nothing.

ghost use Rattle.std.specs.Prelude.{◌≡◌, ◌≤◌, ◌↔◌, ℕ, true, false, List, map, codes, None};
ghost use Rattle.event_schema.specs.declared.schema.Field.{Field};
ghost use Rattle.event_schema.specs.declared.schema.Schema.{Schema};
ghost use Rattle.event_schema.specs.declared.value.Value.{Value};
ghost use Rattle.event_schema.specs.Events.{IsEvent};
ghost use Rattle.event_schema.specs.Rows.{first_values};
ghost use Rattle.event_schema.specs.Schemas.{AreApart};
ghost use Rattle.event_schema.specs.Inferred.{text_field};
ghost use Rattle.backend_core.specs.Trees.{Plain};
ghost use Rattle.backend_core.specs.Holds.{TreeHolds};
ghost use Rattle.backend_core.specs.Lacks.{lack_refusal};
ghost use Rattle.backend_core.specs.Schemas.{IsNamed};
ghost use Rattle.backend_core.specs.Sound.{IsSound};
ghost use Rattle.sql_lang.specs.Expression.{depth};
ghost use Rattle.sql_lang.specs.Meaning.{Yes, No};
ghost use Rattle.sql_layout.specs.Trees.{Tree, tree_value};
ghost use Rattle.sqlite_writer.specs.Guarded.{sql_tree};
ghost use Rattle.sqlite_writer.specs.Queries.{query_text, query_bytes, query_expr, IsQueryOf};
ghost use Rattle.sqlite_writer.specs.Lacking.{sqlite_lacks};
ghost use Rattle.sqlite_writer.specs.Shallow.{ListsAreShallow};
ghost use Rattle.sqlite_writer.specs.Schemas.{IsFoundSchema, AreScalars};

use sig_strings::plain_fits;
use sql_lang::{one_reading, one_spelling};
use sql_layout::{
    halved_layout_is_fine, halved_layout_is_read, halved_layout_means_tree, halves_are_shallow,
    leaves_are_read, leaves_are_sound, spelling_is_scanned,
};
use sql_like::{glob_means, like_means};

/// Of a tree for which nothing is lacking: below an even number of words NOT it's yes exactly where it holds, and below an odd
/// number it's no exactly where it doesn't hold.
pub fn polarity()
    ensures even { (schema : Schema) (t : Plain) (row : List (List Value)) → IsFoundSchema schema
        → IsSound schema.fields t → lack_refusal (sqlite_lacks schema.fields) t ≡ None → IsEvent schema.fields row
        → (tree_value schema.fields (first_values row) (sql_tree schema.fields false t) ≡ Yes) ↔ TreeHolds row t }
    ensures odd { (schema : Schema) (t : Plain) (row : List (List Value)) → IsFoundSchema schema
        → IsSound schema.fields t → lack_refusal (sqlite_lacks schema.fields) t ≡ None → IsEvent schema.fields row
        → (tree_value schema.fields (first_values row) (sql_tree schema.fields true t) ≡ No) ↔ (TreeHolds row t → ⊥) }
{
    like_means();
    glob_means();
    plain_fits();
    leaves_are_read();
}

/// The text of a sound tree for which nothing is lacking is one query, and it selects an event exactly where the tree holds.
pub fn tree_is_query()
    ensures { (limit : ℕ) (schema : Schema) (t : Plain) → IsFoundSchema schema → IsSound schema.fields t
        → lack_refusal (sqlite_lacks schema.fields) t ≡ None → 1 ≤ limit → depth (query_expr schema t) ≤ limit → IsQueryOf limit schema t (query_bytes schema t) }
{
    polarity();
    leaves_are_sound();
    spelling_is_scanned();
    halved_layout_is_read();
    halved_layout_means_tree();
    halved_layout_is_fine();
    one_reading();
    one_spelling();
}

/// Each list of a tree is at most 63 deeper than its deepest part, and one more for each halving.
pub fn lists_are_shallow()
    ensures { (fields : List Field) (t : Tree) → ListsAreShallow fields t }
{
    halves_are_shallow();
}

/// Every schema has its fields found by their names, of however many fields.
pub fn schemas_are_found()
    ensures { (schema : Schema) → IsNamed schema → IsFoundSchema schema }
{}

/// The table `events` with a field of texts for each name has its fields found by these names, where they are of
/// characters and, folded, no two of them are equal.
pub fn text_schemas()
    ensures { (names : List (List ℕ)) → AreScalars names → AreApart names
        → IsFoundSchema (record { table = codes "events"; fields = map text_field names; time = None }) }
{}

/// Nothing is lacking for a tree of tests on fields of texts, each of one value.
pub fn text_fields_lack_nothing()
    ensures { (names : List (List ℕ)) (t : Plain) → lack_refusal (sqlite_lacks (map text_field names)) t ≡ None }
{}
