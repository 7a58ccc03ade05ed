//! Laws of what a text and bytes are under a limit of parentheses: one query, or one first refusal.

ghost use Rattle.std.specs.Prelude.{◌≡◌, ◌⊎◌, ℕ, List};
ghost use Rattle.event_schema.specs.declared.schema.Schema.{Schema};
ghost use Rattle.lucene_lang.specs.Query.{Group};
ghost use Rattle.query_tokens.specs.Places.{CodeAt};
ghost use Rattle.lucene_lang.specs.Verdict.{verdict, IsVerdict};
ghost use Rattle.lucene_lang.specs.Reading.{ReadsWithin, Refuses, BytesRead, BytesRefused};

/// A text is a query within the limit, or it is refused; so are bytes. The verdict that is computed by
/// reading token by token is its own.
pub fn query_or_refusal()
    ensures characters { (limit : ℕ) (schema : Schema) (characters : List ℕ)
        → ((g : Group) × ReadsWithin limit schema characters g)
        ⊎ ((f : CodeAt) × Refuses limit schema characters f) }
    ensures bytes { (limit : ℕ) (schema : Schema) (bytes : List ℕ)
        → ((g : Group) × BytesRead limit schema bytes g) ⊎ ((f : CodeAt) × BytesRefused limit schema bytes f) }
    ensures computed { (limit : ℕ) (schema : Schema) (characters : List ℕ)
        → IsVerdict limit schema characters (verdict limit schema characters) }
{}

/// It is not both.
pub fn no_refused_query()
    ensures characters { (limit : ℕ) (schema : Schema) (characters : List ℕ) (g : Group) (f : CodeAt)
        → ReadsWithin limit schema characters g → Refuses limit schema characters f → ⊥ }
    ensures bytes { (limit : ℕ) (schema : Schema) (bytes : List ℕ) (g : Group) (f : CodeAt)
        → BytesRead limit schema bytes g → BytesRefused limit schema bytes f → ⊥ }
{}

/// A text has one first refusal at most, and so have bytes.
pub fn one_refusal()
    ensures characters { (limit : ℕ) (schema : Schema) (characters : List ℕ) (f g : CodeAt)
        → Refuses limit schema characters f → Refuses limit schema characters g → f ≡ g }
    ensures bytes { (limit : ℕ) (schema : Schema) (bytes : List ℕ) (f g : CodeAt)
        → BytesRefused limit schema bytes f → BytesRefused limit schema bytes g → f ≡ g }
{}
