//! Laws of layouts, each the contract of a function that does nothing: a proof that needs one calls it.

ghost use Rattle.std.specs.Prelude.{◌≡◌, ◌≤◌, ◌<◌, ℕ, true, List};
ghost use Rattle.std.specs.Str.{all_scalars};
ghost use Rattle.event_schema.specs.declared.schema.Schema.{Schema};
ghost use Rattle.event_schema.specs.declared.schema.Field.{Field};
ghost use Rattle.event_schema.specs.declared.value.Value.{Value};
ghost use Rattle.query_tokens.specs.Tokens.{sorts};
ghost use Rattle.lucene_lang.specs.Tokens.{tokens};
ghost use Rattle.lucene_lang.specs.Grammar.{Group, spell_group};
ghost use Rattle.lucene_lang.specs.Query.{group_of};
ghost use Rattle.lucene_lang.specs.Meaning.{selects};
ghost use Rattle.lucene_lang.specs.Reading.{ReadsWithin, opens_too_far};
ghost use Rattle.lucene_layout.specs.Layout.{EachHasText, text_group};
ghost use Rattle.lucene_layout.specs.Trees.{Tree, layout, layout_text, tree_value, group_depth, group_clauses, colons, EachLeaf, IsSound};

/// The text of a query is scanned as exactly its tokens.
pub fn text_is_scanned()
    ensures { (g : Group) → EachHasText (spell_group g) → sorts (tokens (text_group g)) ≡ spell_group g }
{}

/// The text of a tree whose leaves are sound is of scalar values, and it is read as the tree's layout within any limit that its
/// parentheses don't pass.
pub fn layout_is_read()
    ensures scalars { (fields : List Field) (t : Tree) → EachLeaf (IsSound fields) t
        → all_scalars (layout_text t) ≡ true }
    ensures within { (limit : ℕ) (schema : Schema) (t : Tree) → EachLeaf (IsSound schema.fields) t
        → group_depth (layout t) ≤ limit
        → ReadsWithin limit schema (layout_text t) (group_of schema.fields (layout t)) }
{}

/// The layout of a tree selects an event exactly where the tree's value is true.
pub fn layout_selects()
    ensures { (fields : List Field) (row : List (List Value)) (t : Tree)
        → selects row (group_of fields (layout t)) ≡ tree_value fields row t }
{}

/// A query with more open parentheses than a limit isn't read within it, and each of its leaf clauses has one `:`.
pub fn sizes_are_counted()
    ensures opens { (limit : ℕ) (g : Group) → limit < group_depth g → opens_too_far limit 0 0 (spell_group g) ≡ true }
    ensures clauses { (g : Group) → colons (spell_group g) ≡ group_clauses g }
{}
