//! Three values.

ghost use Rattle.std.specs.Prelude.{◌≡◌, ◌↔◌, true};
ghost use Rattle.sql_lang.specs.Meaning as meaning;
ghost use Rattle.sql_eval.specs.View.{truth_view};

/// What an expression says of an event.
#[derive(Clone, Copy, Debug, PartialEq, Eq)]
pub enum Truth {
    Yes,
    No,
    Unknown,
}

pub fn both(a: Truth, b: Truth) -> Truth
    ensures { truth_view result ≡ meaning.both (truth_view a) (truth_view b) }
{
    match (a, b) {
        (Truth::No, _) => Truth::No,
        (Truth::Yes, b) => b,
        (Truth::Unknown, Truth::No) => Truth::No,
        (Truth::Unknown, _) => Truth::Unknown,
    }
}

pub fn either(a: Truth, b: Truth) -> Truth
    ensures { truth_view result ≡ meaning.either (truth_view a) (truth_view b) }
{
    match (a, b) {
        (Truth::Yes, _) => Truth::Yes,
        (Truth::No, b) => b,
        (Truth::Unknown, Truth::Yes) => Truth::Yes,
        (Truth::Unknown, _) => Truth::Unknown,
    }
}

pub fn negation(a: Truth) -> Truth
    ensures { truth_view result ≡ meaning.negation (truth_view a) }
{
    match a {
        Truth::Yes => Truth::No,
        Truth::No => Truth::Yes,
        Truth::Unknown => Truth::Unknown,
    }
}

pub fn truth_of(b: bool) -> Truth
    ensures { truth_view result ≡ meaning.truth b }
{
    if b { Truth::Yes } else { Truth::No }
}

pub fn negated_if(b: bool, a: Truth) -> Truth
    ensures { truth_view result ≡ meaning.negated_if b (truth_view a) }
{
    if b { negation(a) } else { a }
}

impl Truth {
    /// Whether it's a yes: only then a row is selected.
    pub fn is_yes(self) -> bool
        ensures { (result ≡ true) ↔ (truth_view self ≡ meaning.Yes) }
    {
        match self {
            Truth::Yes => true,
            Truth::No => false,
            Truth::Unknown => false,
        }
    }
}
