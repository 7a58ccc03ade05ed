//! Which modifiers stand together.

ghost use Rattle.std.specs.Prelude.{◌≡◌};
ghost use Rattle.std.specs.List.{list_all, list_any};
ghost use Rattle.modifier_words.specs.Chains as chains;
ghost use Rattle.modifier_words.specs.Kinds as kinds;

use crate::form::Flags;
use crate::modifier::{Flag, Modifier, Op};

pub fn is_position(modifier: &Modifier) -> bool
    ensures { result ≡ kinds.is_position modifier.now }
{
    matches!(modifier, Modifier::Position(_))
}

pub fn is_all(modifier: &Modifier) -> bool
    ensures { result ≡ kinds.is_all modifier.now }
{
    matches!(modifier, Modifier::All)
}

pub fn is_cased(modifier: &Modifier) -> bool
    ensures { result ≡ kinds.is_cased modifier.now }
{
    matches!(modifier, Modifier::Cased)
}

fn is_windash(modifier: &Modifier) -> bool
    ensures { result ≡ kinds.is_windash modifier.now }
{
    matches!(modifier, Modifier::Windash)
}

pub fn is_expand(modifier: &Modifier) -> bool
    ensures { result ≡ kinds.is_expand modifier.now }
{
    matches!(modifier, Modifier::Expand)
}

fn is_units(modifier: &Modifier) -> bool
    ensures { result ≡ kinds.is_units modifier.now }
{
    matches!(modifier, Modifier::Units(_))
}

fn is_encoding(modifier: &Modifier) -> bool
    ensures { result ≡ kinds.is_encoding modifier.now }
{
    matches!(modifier, Modifier::Encoding(_))
}

fn is_exists(modifier: &Modifier) -> bool
    ensures { result ≡ kinds.is_exists modifier.now }
{
    matches!(modifier, Modifier::Exists)
}

fn is_cidr(modifier: &Modifier) -> bool
    ensures { result ≡ kinds.is_cidr modifier.now }
{
    matches!(modifier, Modifier::Cidr)
}

/// How the value has to stand to a number, if the modifier asks for that.
fn order_in(modifier: &Modifier) -> Option<Op>
    ensures { result ≡ kinds.order_in modifier.now }
{
    match modifier {
        Modifier::Order(op) => Some(*op),
        _ => None,
    }
}

fn is_fieldref(modifier: &Modifier) -> bool
    ensures { result ≡ kinds.is_fieldref modifier.now }
{
    matches!(modifier, Modifier::Fieldref)
}

fn is_re(modifier: &Modifier) -> bool
    ensures { result ≡ kinds.is_re modifier.now }
{
    matches!(modifier, Modifier::Re)
}

fn is_case_flag(modifier: &Modifier) -> bool
    ensures { result ≡ kinds.is_case_flag modifier.now }
{
    matches!(modifier, Modifier::Flag(Flag::IgnoreCase))
}

fn is_line_flag(modifier: &Modifier) -> bool
    ensures { result ≡ kinds.is_line_flag modifier.now }
{
    matches!(modifier, Modifier::Flag(Flag::MultiLine))
}

fn is_dot_flag(modifier: &Modifier) -> bool
    ensures { result ≡ kinds.is_dot_flag modifier.now }
{
    matches!(modifier, Modifier::Flag(Flag::DotAll))
}

fn is_expression_word(modifier: &Modifier) -> bool
    ensures { result ≡ kinds.is_expression_word modifier.now }
{
    is_case_flag(modifier) || is_line_flag(modifier) || is_dot_flag(modifier) || is_all(modifier)
}

fn are_expression_words(modifiers: &[Modifier]) -> bool
    ensures { result ≡ list_all kinds.is_expression_word modifiers.now }
{
    modifiers.iter().all(is_expression_word)
}

fn has_case_flag(modifiers: &[Modifier]) -> bool
    ensures { result ≡ list_any kinds.is_case_flag modifiers.now }
{
    modifiers.iter().any(is_case_flag)
}

fn has_line_flag(modifiers: &[Modifier]) -> bool
    ensures { result ≡ list_any kinds.is_line_flag modifiers.now }
{
    modifiers.iter().any(is_line_flag)
}

fn has_dot_flag(modifiers: &[Modifier]) -> bool
    ensures { result ≡ list_any kinds.is_dot_flag modifiers.now }
{
    modifiers.iter().any(is_dot_flag)
}

fn one_case_flag(modifiers: &[Modifier]) -> bool
    ensures { result ≡ chains.at_most_one kinds.is_case_flag modifiers.now }
{
    modifiers.iter().filter(|m| is_case_flag(m)).count() <= 1
}

fn one_line_flag(modifiers: &[Modifier]) -> bool
    ensures { result ≡ chains.at_most_one kinds.is_line_flag modifiers.now }
{
    modifiers.iter().filter(|m| is_line_flag(m)).count() <= 1
}

fn one_dot_flag(modifiers: &[Modifier]) -> bool
    ensures { result ≡ chains.at_most_one kinds.is_dot_flag modifiers.now }
{
    modifiers.iter().filter(|m| is_dot_flag(m)).count() <= 1
}

/// Whether there are no two words of one kind behind `re`.
fn one_of_each_flag(modifiers: &[Modifier]) -> bool
    ensures { result ≡ list_all (λ is_kind. chains.at_most_one is_kind modifiers.now) kinds.expression_kinds }
{
    one_case_flag(modifiers)
        && one_line_flag(modifiers)
        && one_dot_flag(modifiers)
        && one_all(modifiers)
}

fn is_text_word(modifier: &Modifier) -> bool
    ensures { result ≡ kinds.is_text_word modifier.now }
{
    is_position(modifier)
        || is_all(modifier)
        || is_cased(modifier)
        || is_windash(modifier)
        || is_expand(modifier)
        || is_encoding(modifier)
        || is_units(modifier)
}

fn are_text_words(modifiers: &[Modifier]) -> bool
    ensures { result ≡ list_all kinds.is_text_word modifiers.now }
{
    modifiers.iter().all(is_text_word)
}

fn has_encoding(modifiers: &[Modifier]) -> bool
    ensures { result ≡ list_any kinds.is_encoding modifiers.now }
{
    modifiers.iter().any(is_encoding)
}

fn has_windash(modifiers: &[Modifier]) -> bool
    ensures { result ≡ list_any kinds.is_windash modifiers.now }
{
    modifiers.iter().any(is_windash)
}

fn has_expand(modifiers: &[Modifier]) -> bool
    ensures { result ≡ list_any kinds.is_expand modifiers.now }
{
    modifiers.iter().any(is_expand)
}

/// Whether a modifier is there that no encoding stands together with.
fn has_unencoded(modifiers: &[Modifier]) -> bool
    ensures { result ≡ chains.has_some_of kinds.unencoded_kinds modifiers.now }
{
    has_windash(modifiers) || has_expand(modifiers)
}

fn one_position(modifiers: &[Modifier]) -> bool
    ensures { result ≡ chains.at_most_one kinds.is_position modifiers.now }
{
    modifiers.iter().filter(|m| is_position(m)).count() <= 1
}

fn one_all(modifiers: &[Modifier]) -> bool
    ensures { result ≡ chains.at_most_one kinds.is_all modifiers.now }
{
    modifiers.iter().filter(|m| is_all(m)).count() <= 1
}

fn one_cased(modifiers: &[Modifier]) -> bool
    ensures { result ≡ chains.at_most_one kinds.is_cased modifiers.now }
{
    modifiers.iter().filter(|m| is_cased(m)).count() <= 1
}

fn one_windash(modifiers: &[Modifier]) -> bool
    ensures { result ≡ chains.at_most_one kinds.is_windash modifiers.now }
{
    modifiers.iter().filter(|m| is_windash(m)).count() <= 1
}

fn one_expand(modifiers: &[Modifier]) -> bool
    ensures { result ≡ chains.at_most_one kinds.is_expand modifiers.now }
{
    modifiers.iter().filter(|m| is_expand(m)).count() <= 1
}

fn one_encoding(modifiers: &[Modifier]) -> bool
    ensures { result ≡ chains.at_most_one kinds.is_encoding modifiers.now }
{
    modifiers.iter().filter(|m| is_encoding(m)).count() <= 1
}

/// Whether there are no two modifiers of one kind of text chains.
fn one_of_each(modifiers: &[Modifier]) -> bool
    ensures { result ≡ list_all (λ is_kind. chains.at_most_one is_kind modifiers.now) kinds.text_kinds }
{
    one_position(modifiers)
        && one_all(modifiers)
        && one_cased(modifiers)
        && one_windash(modifiers)
        && one_expand(modifiers)
        && one_encoding(modifiers)
}

fn starts_with_encoding(modifiers: &[Modifier]) -> bool
    ensures { result ≡ chains.starts_with kinds.is_encoding modifiers.now }
{
    match modifiers.first() {
        Some(modifier) => is_encoding(modifier),
        None => false,
    }
}

/// Whether units stand directly before encodings alone.
fn units_lead(modifiers: &[Modifier]) -> bool
    ensures { result ≡ chains.units_lead modifiers.now }
{
    let mut left = modifiers;
    while let Some((modifier, rest)) = left.split_first() {
        if is_units(modifier) && !starts_with_encoding(rest) {
            return false;
        }
        left = rest;
    }
    true
}

/// Whether no encoding stands behind a position.
fn encodings_lead(modifiers: &[Modifier]) -> bool
    ensures { result ≡ chains.encodings_lead modifiers.now }
{
    let mut left = modifiers;
    while let Some((modifier, rest)) = left.split_first() {
        if is_position(modifier) && has_encoding(rest) {
            return false;
        }
        left = rest;
    }
    true
}

fn is_text_chain(modifiers: &[Modifier]) -> bool
    ensures { result ≡ chains.is_text_chain modifiers.now }
{
    are_text_words(modifiers)
        && one_of_each(modifiers)
        && units_lead(modifiers)
        && encodings_lead(modifiers)
        && !(has_encoding(modifiers) && has_unencoded(modifiers))
}

pub fn is_empty(modifiers: &[Modifier]) -> bool
    ensures { result ≡ chains.is_empty modifiers.now }
{
    modifiers.is_empty()
}

/// Whether `exists` stands there alone.
pub fn is_presence(modifiers: &[Modifier]) -> bool
    ensures { result ≡ chains.is_presence modifiers.now }
{
    let Some((modifier, rest)) = modifiers.split_first() else {
        return false;
    };
    is_exists(modifier) && is_empty(rest)
}

fn is_all_or_none(modifiers: &[Modifier]) -> bool
    ensures { result ≡ chains.is_all_or_none modifiers.now }
{
    let Some((modifier, rest)) = modifiers.split_first() else {
        return true;
    };
    is_all(modifier) && is_empty(rest)
}

/// Whether networks are asked for, alone or with `all` behind.
pub fn is_network_chain(modifiers: &[Modifier]) -> bool
    ensures { result ≡ chains.is_network_chain modifiers.now }
{
    let Some((modifier, rest)) = modifiers.split_first() else {
        return false;
    };
    is_cidr(modifier) && is_all_or_none(rest)
}

/// How values have to stand to a number, where that is asked for alone or with `all` behind.
pub fn order_of(modifiers: &[Modifier]) -> Option<Op>
    ensures { result ≡ chains.order_of modifiers.now }
{
    let Some((modifier, rest)) = modifiers.split_first() else {
        return None;
    };
    if !is_all_or_none(rest) {
        return None;
    }
    order_in(modifier)
}

fn is_order_chain(modifiers: &[Modifier]) -> bool
    ensures { result ≡ chains.is_order_chain modifiers.now }
{
    order_of(modifiers).is_some()
}

/// Whether `fieldref` stands there alone.
pub fn is_reference(modifiers: &[Modifier]) -> bool
    ensures { result ≡ chains.is_reference modifiers.now }
{
    let Some((modifier, rest)) = modifiers.split_first() else {
        return false;
    };
    is_fieldref(modifier) && is_empty(rest)
}

/// Whether regular expressions are asked for, alone or with flags and `all` behind, each at most once.
pub fn is_expression_chain(modifiers: &[Modifier]) -> bool
    ensures { result ≡ chains.is_expression_chain modifiers.now }
{
    let Some((modifier, rest)) = modifiers.split_first() else {
        return false;
    };
    is_re(modifier) && are_expression_words(rest) && one_of_each_flag(rest)
}

/// The flags of regular expressions that stand there.
pub fn flags_of(modifiers: &[Modifier]) -> Flags
    ensures { result ≡ chains.flags_of modifiers.now }
{
    Flags {
        i: has_case_flag(modifiers),
        m: has_line_flag(modifiers),
        s: has_dot_flag(modifiers),
    }
}

/// Whether null is taken beside texts.
pub fn takes_null(modifiers: &[Modifier]) -> bool
    ensures { result ≡ chains.takes_null modifiers.now }
{
    modifiers.iter().all(|m| is_all(m) || is_cased(m))
}

fn is_field_chain(modifiers: &[Modifier]) -> bool
    ensures { result ≡ chains.is_field_chain modifiers.now }
{
    is_empty(modifiers)
        || is_presence(modifiers)
        || is_network_chain(modifiers)
        || is_order_chain(modifiers)
        || is_reference(modifiers)
        || is_expression_chain(modifiers)
        || is_text_chain(modifiers)
}

fn is_keyword_chain(modifiers: &[Modifier]) -> bool
    ensures { result ≡ chains.is_keyword_chain modifiers.now }
{
    is_empty(modifiers) || is_expression_chain(modifiers) || is_text_chain(modifiers)
}

/// Whether the modifiers may stand together, at a keyword or at a field.
pub fn is_chain(keyword: bool, modifiers: &[Modifier]) -> bool
    ensures { result ≡ chains.is_chain keyword modifiers.now }
{
    if keyword {
        return is_keyword_chain(modifiers);
    }
    is_field_chain(modifiers)
}
