ghost use Rattle.std.specs.Prelude.{◌≡◌, ◌↔◌, ◌<◌, ◌⊎◌, ◌∷◌, Bool, true, false, length, nat_lt, IfOk, IfErr, IfSome};
ghost use Rattle.std.specs.Str.{chars};
ghost use Rattle.sig_strings.specs.Spells.{Spells, SpellsFront};
ghost use Rattle.sig_strings.specs.Signs.{Begins, part_at};
ghost use Rattle.sig_strings.specs.Edits.{all_written};
ghost use Rattle.sig_strings.specs.Refused as refused;

use crate::hole::{hole_end, hole_name, is_special};
use crate::name::HoleName;
use crate::part::Part;
use crate::pattern::Pattern;
use crate::sign::Sign;
use sig_base::{Code, Detail, Fault, Limits, Place, Refusal, count_of, first_char};
use std::alloc::Global;

/// What stands at the front of a text behind its first backslash, and the rest.
fn read_escape(behind: &str, expand: bool) -> (Sign, &str)
    ensures { let text = 92 ∷ chars behind.now in Begins expand text (part_at text result.0) (chars result.1.now) }
{
    let Some((c, rest)) = first_char(behind) else {
        return (Sign::Plain('\\'), behind);
    };
    if is_special(c) {
        return (Sign::Plain(c), rest);
    }
    (Sign::Plain('\\'), behind)
}

/// What stands at the front of a text behind its first percent sign, where placeholders are read, and the
/// rest.
fn read_percent(behind: &str) -> (Sign, &str)
    ensures { let text = 37 ∷ chars behind.now in Begins true text (part_at text result.0) (chars result.1.now) }
{
    let Some(rest) = hole_end(behind) else {
        return (Sign::Plain('%'), behind);
    };
    (Sign::Named, rest)
}

/// What stands at the front of a text, and the rest.
fn read_front(text: &str, expand: bool) -> (Sign, &str)
    ensures { Begins expand (chars text.now) (part_at (chars text.now) result.0) (chars result.1.now) }
{
    let Some((c, rest)) = first_char(text) else {
        return (Sign::End, text);
    };
    if c == '*' {
        return (Sign::Star, rest);
    }
    if c == '?' {
        return (Sign::Question, rest);
    }
    if c == '\\' {
        return read_escape(rest, expand);
    }
    if expand && c == '%' {
        return read_percent(rest);
    }
    (Sign::Plain(c), rest)
}

/// The part that a sign at the front of a text stands for.
fn part_of(alloc: Global, text: &str, sign: Sign) -> Result<Option<Part>, Fault>
    ensures ok { IfOk result (λ part. part ≡ part_at (chars text.now) sign) }
    ensures err { IfErr result (λ e. e ≡ Fault.Memory) }
{
    match sign {
        Sign::End => Ok(None),
        Sign::Star => Ok(Some(Part::Run)),
        Sign::Question => Ok(Some(Part::One)),
        Sign::Plain(c) => Ok(Some(Part::Char(c))),
        Sign::Named => {
            let name = HoleName::new(alloc, hole_name(alloc, text)?)?;
            Ok(Some(Part::Hole(name)))
        }
    }
}

/// The runs that may be added to a pattern, one before its parts and one behind them.
const RUNS: usize = 2;

/// The character at the front of a text and the rest, where it is plain and no percent sign.
fn plain_front(text: &str) -> Option<(char, &str)>
    ensures { IfSome result (λ front. (expand : Bool) → SpellsFront expand (chars text.now) (Part.Char front.0) (chars front.1.now)) }
{
    let Some((c, rest)) = first_char(text) else {
        return None;
    };
    if is_special(c) || c == '%' {
        return None;
    }
    Some((c, rest))
}

/// Reads a text of any length.
fn read_parts(alloc: Global, text: &str, expand: bool) -> Result<Pattern, Fault>
    ensures spelled { IfOk result (λ pattern. Spells expand (chars text.now) pattern) }
    ensures err { IfErr result (λ e. e ≡ Fault.Memory) }
{
    let mut parts = Vec::with_capacity(alloc, text.len() + RUNS)?;
    let mut left = text;
    loop {
        if let Some((c, behind)) = plain_front(left) {
            parts.push(Part::Char(c))?;
            left = behind;
            continue;
        }
        let (sign, rest) = read_front(left, expand);
        let Some(part) = part_of(alloc, left, sign)? else {
            return Ok(Pattern::of_parts(parts));
        };
        parts.push(part)?;
        left = rest;
    }
}

/// Whether a text has more characters than these.
fn is_longer(text: &str, most: usize) -> bool
    ensures { result ≡ nat_lt most (length (chars text.now)) }
{
    if text.len() <= most {
        return false;
    }
    count_of(text) > most
}

impl Pattern {
    /// Reads the text of a value: `*` is any run, `?` any one character, a backslash makes `*`, `?` and the
    /// backslash plain, and with `expand` a name between percent signs is a placeholder. A text of more
    /// characters than `value_chars` is refused at `place`.
    pub fn read(
        alloc: Global,
        limits: &Limits,
        text: &str,
        expand: bool,
        place: Place,
    ) -> Result<Pattern, Fault>
        ensures spelled { IfOk result (λ pattern. Spells expand (chars text.now) pattern) }
        ensures written { IfOk result (λ pattern. expand ≡ false → all_written pattern ≡ true) }
        ensures refused { (result ≡ Err (refused.too_long place)) ↔ (limits.now.value_chars < length (chars text.now)) }
        ensures only { IfErr result (λ e. (e ≡ Fault.Memory) ⊎ (e ≡ refused.too_long place)) }
    {
        if is_longer(text, limits.value_chars) {
            return Err(Fault::Refused(Refusal {
                code: Code::VALUE_TOO_LONG,
                place,
                detail: Detail::None,
            }));
        }
        read_parts(alloc, text, expand)
    }
}
