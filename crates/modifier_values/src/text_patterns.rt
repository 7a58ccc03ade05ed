//! The patterns that texts stand for, and why they're refused.

ghost use Rattle.std.specs.Prelude.{◌≡◌, ℕ, ◌∷◌, [], List, map, nat_le, false, IfOk, IfErr};
ghost use Rattle.std.specs.Str.{chars};
ghost use Rattle.modifier_windash.specs.Choices as choices;
ghost use Rattle.event_schema.specs.Lists.{EachOf};
ghost use Rattle.event_schema.specs.Names.{IsName};
ghost use Rattle.modifier_words.specs.Written.{Written};
ghost use Rattle.modifier_words.specs.declared.modifier.Op.{Op};
ghost use Rattle.sig_base.specs.Judged.{Judged, first, must};
ghost use Rattle.sig_base.specs.declared.refusal.Place as places;
ghost use Rattle.sig_encode.specs.Networks.{IsNetwork};
ghost use Rattle.sig_strings.specs.Spells.{Spells};
ghost use Rattle.modifier_values.specs.Edited as edits;
ghost use Rattle.modifier_values.specs.Encoded as encoded;
ghost use Rattle.modifier_values.specs.Parts as parts;
ghost use Rattle.modifier_values.specs.PlainPatterns.{HasPlainText};
ghost use Rattle.modifier_values.specs.Uses as uses;

use crate::edits::pattern_of;
use crate::encodings::{bytes_in, encoding_of, least_bytes, texts_of, units_of};
use event_schema::is_legal;
use modifier_windash::dash_count;
use modifier_words::{Chain, Encoding};
use sig_base::{Code, Fault, Limits, Place, Text, count_of, refused};
use sig_encode::Network;
use sig_strings::{Part, Pattern, SharedPattern};
use std::alloc::Global;

/// Whether a character is U+0000.
pub fn has_nul(text: &str) -> bool
    ensures { result ≡ parts.has_nul (chars text.now) }
{
    text.chars().any(|c| c == '\0')
}

/// The pattern of a text, as it's written, with placeholders or without.
fn read_pattern(
    alloc: Global,
    limits: &Limits,
    text: &str,
    expand: bool,
    place: Place,
) -> Result<Pattern, Fault>
    ensures { Judged (λ p. Spells expand (chars text.now) p) (first (uses.text_checks limits.now.value_chars place (chars text.now))) result }
{
    let pattern = Pattern::read(alloc, limits, text, expand, place)?;
    if has_nul(text) {
        return Err(refused(Code::NUL_IN_VALUE, place));
    }
    Ok(pattern)
}

/// The pattern of a text's characters, each as itself.
fn as_pattern(alloc: Global, text: &Text) -> Result<Pattern, Fault>
    ensures ok { IfOk result (λ p. p ≡ encoded.as_pattern text.now) }
    ensures err { IfErr result (λ e. e ≡ Fault.Memory) }
{
    let mut parts = Vec::new(alloc);
    for c in text.as_str().chars() {
        parts.push(Part::Char(c))?;
    }
    Ok(Pattern::of_parts(parts))
}

/// What the chain makes of a text's characters.
fn edited_text(alloc: Global, chain: &Chain, text: &Text) -> Result<SharedPattern, Fault>
    ensures ok { IfOk result (λ p. p ≡ edits.pattern_of chain.now (encoded.as_pattern text.now)) }
    ensures err { IfErr result (λ e. e ≡ Fault.Memory) }
{
    let pattern = pattern_of(chain, as_pattern(alloc, text)?)?;
    SharedPattern::share(alloc, pattern)
}

fn edited_texts(alloc: Global, chain: &Chain, texts: &[Text]) -> Result<Vec<SharedPattern>, Fault>
    ensures ok { IfOk result (λ all. all.items ≡ map (λ text. edits.pattern_of chain.now (encoded.as_pattern text)) texts.now) }
    ensures err { IfErr result (λ e. e ≡ Fault.Memory) }
{
    let mut all = Vec::with_capacity(alloc, texts.len())?;
    for text in texts {
        all.push(edited_text(alloc, chain, text)?)?;
    }
    Ok(all)
}

/// What the chain makes of the texts that a pattern's characters are encoded as.
fn encoded_patterns(
    alloc: Global,
    chain: &Chain,
    encoding: Encoding,
    pattern: &Pattern,
    place: Place,
) -> Result<Vec<SharedPattern>, Fault>
    ensures { Judged (λ all. uses.AreEditedTexts chain.now encoding pattern.now all.items)
        (first (uses.encoding_checks encoding chain.now place pattern.now)) result }
{
    let Some(text) = pattern.plain_text(alloc)? else {
        return Err(refused(Code::WILDCARD_IN_ENCODING, place));
    };
    let bytes = bytes_in(alloc, units_of(chain.modifiers()), &text)?;
    if bytes.as_slice().len() < least_bytes(encoding) {
        return Err(refused(Code::VALUE_NOT_ALLOWED, place));
    }
    let texts = texts_of(alloc, encoding, bytes.as_slice())?;
    edited_texts(alloc, chain, &texts)
}

/// What the chain makes of a pattern that it doesn't encode.
fn plain_pattern(
    alloc: Global,
    limits: &Limits,
    chain: &Chain,
    pattern: Pattern,
    place: Place,
) -> Result<Vec<SharedPattern>, Fault>
    ensures { Judged (λ all. all.items ≡ edits.pattern_of chain.now pattern ∷ [])
        (must 46 place (nat_le (choices.dash_count (edits.pattern_of chain.now pattern)) limits.now.dashes)) result }
{
    let pattern = SharedPattern::share(alloc, pattern_of(chain, pattern)?)?;
    if dash_count(&pattern) > limits.dashes {
        return Err(refused(Code::TOO_MANY_DASHES, place));
    }
    let mut all = Vec::with_capacity(alloc, 1)?;
    all.push(pattern)?;
    Ok(all)
}

/// The patterns that a text stands for under a chain, which takes it for a pattern. At `place`, a text of more characters
/// than `value_chars` is refused 49, one with U+0000 50, a wildcard in what is encoded 43, too few bytes for
/// `base64offset` 42, and more dash places than `dashes` 46, the first of these in this order.
pub fn read_patterns(
    alloc: Global,
    limits: &Limits,
    chain: &Chain,
    text: &str,
    place: Place,
) -> Result<Vec<SharedPattern>, Fault>
    ensures judged { (unbuilt : List places.Place) → Judged (λ all. uses.ArePatterns chain.now (chars text.now) all.items)
        (uses.use_refusal unbuilt limits.now.value_chars limits.now.dashes chain.now place (uses.pattern (chars text.now))) result }
    ensures plain { IfOk result (λ all. EachOf HasPlainText all.items) }
{
    let pattern = read_pattern(alloc, limits, text, chain.expands(), place)?;
    match encoding_of(chain.modifiers()) {
        Some(encoding) => encoded_patterns(alloc, chain, encoding, &pattern, place),
        None => plain_pattern(alloc, limits, chain, pattern, place),
    }
}

/// The network that a text is, under a chain that takes it for one; takes no memory. At `place`, a text of more characters
/// than `value_chars` is refused 49, one with U+0000 50, and one that is no network 44, the first of these in this order.
pub fn read_network(limits: &Limits, text: &str, place: Place) -> Result<Network, Fault>
    ensures { (unbuilt : List places.Place) (chain : Written) → Judged (λ n. IsNetwork (chars text.now) n)
        (uses.use_refusal unbuilt limits.now.value_chars limits.now.dashes chain place (uses.network (chars text.now))) result }
{
    if count_of(text) > limits.value_chars {
        return Err(refused(Code::VALUE_TOO_LONG, place));
    }
    if has_nul(text) {
        return Err(refused(Code::NUL_IN_VALUE, place));
    }
    Network::read(text, place)
}

/// Judges a number that others stand to, which a chain takes; takes no memory. At `place`, -2^63 is refused 45: no field
/// has it.
pub fn check_ordered(number: i64, place: Place) -> Result<(), Fault>
    ensures { (unbuilt : List places.Place) (most dashes : ℕ) (chain : Written) (op : Op) → Judged (λ done. Unit {0})
        (uses.use_refusal unbuilt most dashes chain place (uses.ordered op number)) result }
{
    if number == i64::MIN {
        return Err(refused(Code::NUMBER_RANGE, place));
    }
    Ok(())
}

/// The name of the field that a text is, under a chain that takes it for one. At `place`, a text of more characters than
/// `value_chars` is refused 49, one with U+0000 50, and one that is no legal name 42, the first of these in this order.
pub fn read_reference(
    alloc: Global,
    limits: &Limits,
    text: &Text,
    place: Place,
) -> Result<Text, Fault>
    ensures judged { (unbuilt : List places.Place) (chain : Written) → Judged (λ name. name ≡ text.now)
        (uses.use_refusal unbuilt limits.now.value_chars limits.now.dashes chain place (uses.reference text.now)) result }
    ensures legal { IfOk result (λ name. IsName name) }
{
    if count_of(text.as_str()) > limits.value_chars {
        return Err(refused(Code::VALUE_TOO_LONG, place));
    }
    if has_nul(text.as_str()) {
        return Err(refused(Code::NUL_IN_VALUE, place));
    }
    if !is_legal(text) {
        return Err(refused(Code::VALUE_NOT_ALLOWED, place));
    }
    Text::copy(alloc, text.as_str())
}
