//! Patterns of GLOB.

ghost use Rattle.std.specs.Prelude.{◌≡◌};
ghost use Rattle.sql_lang.specs.Faults as faults;
ghost use Rattle.sql_check.specs.Turns as turns;
ghost use Rattle.sql_check.specs.Turns.{bracket_view};

use sig_base::{Text, first_char};

/// Where a character stands: outside brackets, behind `[`, or before the `]` of a character.
#[derive(Clone, Copy, Debug, PartialEq, Eq)]
enum Bracket {
    Outside,
    Opened,
    Closing,
}

/// Whether a bracket isn't one of `[*]`, `[?]` and `[[]`, as this character shows.
fn is_bad_here(bracket: Bracket, c: char) -> bool
    ensures { result ≡ turns.is_bad_bracket_here bracket c }
{
    match bracket {
        Bracket::Outside => false,
        Bracket::Opened => c != '*' && c != '?' && c != '[',
        Bracket::Closing => c != ']',
    }
}

/// Where the next character stands.
fn after(bracket: Bracket, c: char) -> Bracket
    ensures { result ≡ turns.bracket_after bracket c }
{
    match bracket {
        Bracket::Outside => {
            if c == '[' {
                Bracket::Opened
            } else {
                Bracket::Outside
            }
        }
        Bracket::Opened => Bracket::Closing,
        Bracket::Closing => Bracket::Outside,
    }
}

fn is_inside(bracket: Bracket) -> bool
    ensures { result ≡ turns.is_inside bracket }
{
    match bracket {
        Bracket::Outside => false,
        Bracket::Opened | Bracket::Closing => true,
    }
}

/// Whether a `[` stands outside `[*]`, `[?]` and `[[]`.
pub(crate) fn is_bad_glob(pattern: &Text) -> bool
    ensures { result ≡ faults.is_bad_glob pattern.now }
{
    let mut bracket = Bracket::Outside;
    let mut left = pattern.as_str();
    while let Some((c, rest)) = first_char(left) {
        if is_bad_here(bracket, c) {
            return true;
        }
        bracket = after(bracket, c);
        left = rest;
    }
    is_inside(bracket)
}
