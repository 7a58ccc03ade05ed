//! Laws of layouts, each the contract of a function that does nothing: a proof that needs one calls
//! it.

ghost use Rattle.std.specs.Prelude.{◌≡◌, true, List, [], encode_utf8_all};
ghost use Rattle.event_schema.specs.declared.schema.Schema.{Schema};
ghost use Rattle.query_tokens.specs.Places.{At};
ghost use Rattle.sql_lang.specs.Tokens.{tokens};
ghost use Rattle.query_tokens.specs.Tokens.{sorts};
ghost use Rattle.sql_lang.specs.Grammar.{Query, spell_query};
ghost use Rattle.sql_lang.specs.Expression.{or_expr};
ghost use Rattle.sql_lang.specs.Faults.{query_faults};
ghost use Rattle.sql_lang.specs.Reading.{Reads};
ghost use Rattle.sql_layout.specs.Layout.{text_query, is_writable};

/// The text of a query is scanned as the query's spelling.
pub fn spelling_is_scanned()
    ensures { (q : Query) → is_writable q ≡ true → sorts (tokens (text_query q)) ≡ spell_query q }
{}

/// The text of a query without faults is read as this query.
pub fn written_is_read()
    ensures { (schema : Schema) (q : Query) → is_writable q ≡ true
        → ((ps : List At) → query_faults schema [] q ps ≡ [])
        → Reads schema (encode_utf8_all (text_query q)) (or_expr schema.fields q.condition) }
{}
