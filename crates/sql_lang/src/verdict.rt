//! Laws of what a text and bytes are under a limit of depth, where some places are refused for their regular expressions: one query
//! of which nothing is refused, or one first refusal.

ghost use Rattle.std.specs.Prelude.{◌≡◌, ◌⊎◌, ℕ, List};
ghost use Rattle.event_schema.specs.declared.schema.Schema.{Schema};
ghost use Rattle.sql_lang.specs.Expression.{Expr};
ghost use Rattle.query_tokens.specs.Places.{CodeAt};
ghost use Rattle.sql_lang.specs.Verdict.{verdict, IsVerdict};
ghost use Rattle.sql_lang.specs.Reading.{ReadsWithin, IsRefusedPlace, Refuses, BytesRead, BytesRefused};

/// A text is a query within the limit of which nothing is refused, or it is refused; so are bytes. The verdict that is computed by
/// reading token by token is its own.
pub fn query_or_refusal()
    ensures characters { (limit : ℕ) (schema : Schema) (refused : List CodeAt) (characters : List ℕ)
        → ((e : Expr) × ReadsWithin limit schema characters e × ((f : CodeAt) → Refuses limit schema refused characters f → ⊥))
        ⊎ ((f : CodeAt) × Refuses limit schema refused characters f) }
    ensures bytes { (limit : ℕ) (schema : Schema) (refused : List CodeAt) (bytes : List ℕ)
        → ((e : Expr) × BytesRead limit schema bytes e × ((f : CodeAt) → BytesRefused limit schema refused bytes f → ⊥))
        ⊎ ((f : CodeAt) × BytesRefused limit schema refused bytes f) }
    ensures computed { (limit : ℕ) (schema : Schema) (refused : List CodeAt) (characters : List ℕ)
        → IsVerdict limit schema refused characters (verdict limit schema refused characters) }
{}

/// It is not both, but for a query of which a regular expression is refused.
pub fn no_refused_query()
    ensures characters { (limit : ℕ) (schema : Schema) (refused : List CodeAt) (characters : List ℕ) (e : Expr) (f : CodeAt)
        → ReadsWithin limit schema characters e → Refuses limit schema refused characters f → IsRefusedPlace refused f }
    ensures bytes { (limit : ℕ) (schema : Schema) (refused : List CodeAt) (bytes : List ℕ) (e : Expr) (f : CodeAt)
        → BytesRead limit schema bytes e → BytesRefused limit schema refused bytes f → IsRefusedPlace refused f }
{}

/// A text has one first refusal at most, and so have bytes.
pub fn one_refusal()
    ensures characters { (limit : ℕ) (schema : Schema) (refused : List CodeAt) (characters : List ℕ) (f g : CodeAt)
        → Refuses limit schema refused characters f → Refuses limit schema refused characters g → f ≡ g }
    ensures bytes { (limit : ℕ) (schema : Schema) (refused : List CodeAt) (bytes : List ℕ) (f g : CodeAt)
        → BytesRefused limit schema refused bytes f → BytesRefused limit schema refused bytes g → f ≡ g }
{}
