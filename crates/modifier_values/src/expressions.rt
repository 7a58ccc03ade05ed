//! Regular expressions that texts stand for.

ghost use Rattle.std.specs.Prelude.{◌≡◌, ◌++◌, ◌∷◌, [], IfOk, IfErr, OnOk};
ghost use Rattle.std.specs.List.{list_any};
ghost use Rattle.std.specs.Str.{chars};
ghost use Rattle.query_lang.specs.Patterns as patterns;
ghost use Rattle.modifier_words.specs.Written.{Written};
ghost use Rattle.sig_base.specs.Judged.{Judged};
ghost use Rattle.modifier_values.specs.Expressions as expressions;
ghost use Rattle.modifier_values.specs.Uses as uses;

use crate::text_patterns::has_nul;
use modifier_words::Flags;
use regex_syntax::{Config, ErrorKind, parse};
use sig_base::{Code, Fault, Limits, Place, Text, count_of, refused};
use std::alloc::{AllocError, Global};

fn push_if(text: &mut Text, given: bool, letter: char) -> Result<(), AllocError>
    ensures { OnOk result (text.new ≡ text.old ++ expressions.letter_if given (letter ∷ [])) }
{
    if !given {
        return Ok(());
    }
    text.push(letter)
}

/// The flags, as a regular expression begins with them.
fn flag_group(alloc: Global, flags: Flags) -> Result<Text, Fault>
    ensures ok { IfOk result (λ group. group ≡ expressions.flag_group flags) }
    ensures err { IfErr result (λ e. e ≡ Fault.Memory) }
{
    let mut group = Text::new(alloc);
    if !(flags.i || flags.m || flags.s) {
        return Ok(group);
    }
    group.push_str("(?")?;
    push_if(&mut group, flags.i, 'i')?;
    push_if(&mut group, flags.m, 'm')?;
    push_if(&mut group, flags.s, 's')?;
    group.push(')')?;
    Ok(group)
}

/// The regular expression of a text that is read with these flags, as the crate `regex` takes it; only want of memory is
/// answered.
pub fn expression_text(alloc: Global, flags: Flags, text: &str) -> Result<Text, Fault>
    ensures ok { IfOk result (λ e. e ≡ expressions.expression_text flags (chars text.now)) }
    ensures err { IfErr result (λ e. e ≡ Fault.Memory) }
{
    let mut all = flag_group(alloc, flags)?;
    all.push_str(text)?;
    Ok(all)
}

/// Whether the grammar reads a regular expression; only want of memory is answered.
fn is_pattern(alloc: Global, expression: &str) -> Result<bool, Fault>
    ensures ok { IfOk result (λ reads. reads ≡ patterns.is_pattern (chars expression.now)) }
    ensures err { IfErr result (λ e. e ≡ Fault.Memory) }
{
    match parse(alloc, expression, &Config::default()) {
        Ok(_) => Ok(true),
        Err(error) => match error.kind {
            ErrorKind::OutOfMemory => Err(Fault::Memory),
            _ => Ok(false),
        },
    }
}

fn is_same_place(place: Place, other: Place) -> bool
    ensures { result ≡ expressions.is_same_place place other }
{
    place.line == other.line && place.column == other.column
}

/// Whether a place is one of these.
fn is_among(place: Place, places: &[Place]) -> bool
    ensures { result ≡ list_any (expressions.is_same_place place) places.now }
{
    places.iter().any(|other| is_same_place(place, *other))
}

/// The text of a regular expression, under a chain that takes it for one. At `place`, a text of more characters than
/// `value_chars` is refused 49, one with U+0000 50, one whose regular expression the grammar doesn't read 47, and one whose
/// place is among those at which none is built 48, the first of these in this order.
pub fn read_expression(
    alloc: Global,
    limits: &Limits,
    unbuilt: &[Place],
    flags: Flags,
    text: &Text,
    place: Place,
) -> Result<Text, Fault>
    ensures judged { (chain : Written) → Judged (λ t. t ≡ text.now)
        (uses.use_refusal unbuilt.now limits.now.value_chars limits.now.dashes chain place (uses.expression flags text.now)) result }
    ensures plain { IfOk result (λ t. expressions.IsPlainExpression flags t) }
{
    if count_of(text.as_str()) > limits.value_chars {
        return Err(refused(Code::VALUE_TOO_LONG, place));
    }
    if has_nul(text.as_str()) {
        return Err(refused(Code::NUL_IN_VALUE, place));
    }
    let expression = expression_text(alloc, flags, text.as_str())?;
    if !is_pattern(alloc, expression.as_str())? {
        return Err(refused(Code::REGEX_SYNTAX, place));
    }
    if is_among(place, unbuilt) {
        return Err(refused(Code::REGEX_REFUSED, place));
    }
    Text::copy(alloc, text.as_str())
}
