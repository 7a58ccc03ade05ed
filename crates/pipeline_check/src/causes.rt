//! Refusals side by side: the first by place is the one that is answered.

ghost use Rattle.std.specs.Prelude.{◌≡◌, Some, IfOk, IfErr};
ghost use Rattle.sig_base.specs.Judged as judged;
ghost use Rattle.pipeline_check.specs.Causes as spec;

use sig_base::{Code, Detail, Fault, Place, Refusal, Text};
use std::alloc::Global;

/// Whether the first comes before the second: by line, on one line by column, at one place by code.
fn is_before(a: &Refusal, b: &Refusal) -> bool
    ensures { result ≡ spec.is_before a.now b.now }
{
    if a.place.line != b.place.line {
        return a.place.line < b.place.line;
    }
    if a.place.column != b.place.column {
        return a.place.column < b.place.column;
    }
    a.code.number() < b.code.number()
}

/// The one that comes first; of two that are alike in place and code the first.
pub fn sooner(first: Option<Refusal>, second: Option<Refusal>) -> Option<Refusal>
    ensures { result ≡ spec.sooner first second }
{
    match (first, second) {
        (None, other) => other,
        (Some(a), None) => Some(a),
        (Some(a), Some(b)) => { if is_before(&b, &a) { Some(b) } else { Some(a) } }
    }
}

/// The refusal with this code at this place.
pub fn refuse(code: Code, place: Place) -> Option<Refusal>
    ensures { result ≡ Some (judged.refusal code place) }
{
    Some(Refusal {
        code,
        place,
        detail: Detail::None,
    })
}

/// The refusal, unless the condition holds.
pub fn must(code: Code, place: Place, holds: bool) -> Option<Refusal>
    ensures { result ≡ judged.must code place holds }
{
    if holds {
        return None;
    }
    refuse(code, place)
}

/// The refusal with this code at this place, which tells the word; only want of memory is answered else.
pub fn worded(alloc: Global, code: Code, place: Place, word: &Text) -> Result<Refusal, Fault>
    ensures ok { IfOk result (λ r. r ≡ spec.worded code place word.now) }
    ensures err { IfErr result (λ e. e ≡ Fault.Memory) }
{
    let word = Text::copy(alloc, word.as_str())?;
    Ok(Refusal {
        code,
        place,
        detail: Detail::Text(word),
    })
}
