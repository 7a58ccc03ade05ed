//! Laws of chains in halves, each the contract of a function that does nothing: a proof that needs one calls it.

ghost use Rattle.std.specs.Prelude.{◌≡◌, ◌≤◌, ◌+◌, ◌*◌, ◌^◌, ℕ, true, List, Option, encode_utf8_all};
ghost use Rattle.std.specs.Str.{all_scalars};
ghost use Rattle.event_schema.specs.declared.schema.Field.{Field};
ghost use Rattle.event_schema.specs.declared.schema.Schema.{Schema};
ghost use Rattle.event_schema.specs.declared.value.Value.{Value};
ghost use Rattle.sql_lang.specs.Grammar.{Ors, Ands};
ghost use Rattle.sql_lang.specs.Expression.{or_expr, and_expr, depth};
ghost use Rattle.sql_lang.specs.Meaning.{sql_value};
ghost use Rattle.sql_lang.specs.Reading.{Reads};
ghost use Rattle.sql_layout.specs.Trees.{Tree, EachLeaf, IsSound, tree_value};
ghost use Rattle.sql_layout.specs.Halves.{or_count, and_count, halved_ors, halved_ands, ShallowOrs, ShallowAnds};
ghost use Rattle.sql_layout.specs.HalvedTrees.{layout, layout_text, fine_or};

use crate::laws::written_is_read;

/// A chain in halves has the chain's value for every row.
pub fn halves_mean_the_same()
    ensures ors { (fields : List Field) (o : Ors) (row : List (Option Value))
        → sql_value (or_expr fields (halved_ors o)) row ≡ sql_value (or_expr fields o) row }
    ensures ands { (fields : List Field) (a : Ands) (row : List (Option Value))
        → sql_value (and_expr fields (halved_ands a)) row ≡ sql_value (and_expr fields a) row }
{}

/// A chain of k parts in halves, each part at most d deep, is at most d + 63 + h deep, where k is at most 64 * 2^h.
pub fn halves_are_shallow()
    ensures ors { (fields : List Field) (d h : ℕ) (o : Ors) → ShallowOrs fields d o → or_count o ≤ 64 * 2 ^ h
        → depth (or_expr fields (halved_ors o)) ≤ d + 63 + h }
    ensures ands { (fields : List Field) (d h : ℕ) (a : Ands) → ShallowAnds fields d a → and_count a ≤ 64 * 2 ^ h
        → depth (and_expr fields (halved_ands a)) ≤ d + 63 + h }
{}

/// The text of a tree whose leaves are sound, with its long chains in halves, is read as that layout.
pub fn halved_layout_is_read()
    ensures { (schema : Schema) (t : Tree) → all_scalars schema.table ≡ true → EachLeaf (IsSound schema.fields) t
        → Reads schema (encode_utf8_all (layout_text schema.table t)) (or_expr schema.fields (layout t)) }
{
    written_is_read();
}

/// The layout of a tree with its long chains in halves has the tree's value for every row.
pub fn halved_layout_means_tree()
    ensures { (fields : List Field) (t : Tree) (row : List (Option Value))
        → sql_value (or_expr fields (layout t)) row ≡ tree_value fields row t }
{}

/// No pair of parentheses in the layout of a tree with its long chains in halves is needless, but for those around halves.
pub fn halved_layout_is_fine()
    ensures { (t : Tree) → fine_or (layout t) ≡ true }
{}
