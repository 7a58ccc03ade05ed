//! Laws of the language, each the contract of a function that does nothing: a proof that needs one
//! calls it.

ghost use Rattle.std.specs.Prelude.{◌≡◌, ℕ, List};
ghost use Rattle.event_schema.specs.declared.schema.Schema.{Schema};
ghost use Rattle.lucene_lang.specs.Tokens.{Sort};
ghost use Rattle.lucene_lang.specs.Grammar.{Group, spell_group, OneSpelling, StopsAt};
ghost use Rattle.lucene_lang.specs.Query as query;
ghost use Rattle.lucene_lang.specs.Machine.{begun, Ends, run, finish};
ghost use Rattle.lucene_lang.specs.Reading.{Reads};

/// Bytes are read as one query at most.
pub fn one_reading()
    ensures { (schema : Schema) (bytes : List ℕ) (g h : query.Group) → Reads schema bytes g
        → Reads schema bytes h → g ≡ h }
{}

/// Tokens spell one query at most.
pub fn one_spelling()
    ensures { OneSpelling }
{}

/// Reading token by token gives the query that tokens spell, or the place where they stop being one's.
pub fn machine_reads()
    ensures { (ts : List Sort) → Ends ts (finish (run begun ts)) }
{}

/// There is one place at most where tokens stop being a query's.
pub fn one_stop()
    ensures { (ts front rest other more : List Sort) → StopsAt ts front rest
        → StopsAt ts other more → rest ≡ more }
{}

/// A query's tokens never stop being a query's.
pub fn no_stop_in_query()
    ensures { (q : Group) (front rest : List Sort) → StopsAt (spell_group q) front rest → ⊥ }
{}
