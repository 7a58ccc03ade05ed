//! Laws of the language, each the contract of a function that does nothing: a proof that needs one
//! calls it.

ghost use Rattle.std.specs.Prelude.{◌≡◌, ℕ, List};
ghost use Rattle.event_schema.specs.declared.schema.Schema.{Schema};
ghost use Rattle.sql_lang.specs.Tokens.{Sort, tokens};
ghost use Rattle.sql_lang.specs.Grammar.{Query, spell_query, OneSpelling, StopsAt};
ghost use Rattle.sql_lang.specs.Expression.{Expr};
ghost use Rattle.sql_lang.specs.Machine.{Begun, Ends, run, finish};
ghost use Rattle.sql_lang.specs.Reading.{Reads};
ghost use Rattle.sql_lang.specs.Rising.{IsBefore, AreRising};
ghost use Rattle.query_tokens.specs.Places.{At};
ghost use Rattle.query_tokens.specs.Tokens.{places};

/// Bytes are read as one expression at most.
pub fn one_reading()
    ensures { (schema : Schema) (bytes : List ℕ) (e f : Expr) → Reads schema bytes e
        → Reads schema bytes f → e ≡ f }
{}

/// Tokens spell one query at most.
pub fn one_spelling()
    ensures { OneSpelling }
{}

/// Reading token by token gives the query that tokens spell, or the place where they stop being one's.
pub fn machine_reads()
    ensures { (ts : List Sort) → Ends ts (finish (run Begun ts)) }
{}

/// There is one place at most where tokens stop being a query's.
pub fn one_stop()
    ensures { (ts front rest other more : List Sort) → StopsAt ts front rest
        → StopsAt ts other more → rest ≡ more }
{}

/// A query's tokens never stop being a query's.
pub fn no_stop_in_query()
    ensures { (q : Query) (front rest : List Sort) → StopsAt (spell_query q) front rest → ⊥ }
{}

/// No two tokens of a text begin at one place, and their places follow one another.
pub fn places_rise()
    ensures rising { (characters : List ℕ) → AreRising (places (tokens characters)) }
    ensures apart { (place : At) → IsBefore place place → ⊥ }
{}
