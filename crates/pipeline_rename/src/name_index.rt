//! The entry of a name: of a rule with few names, or among few entries, each is compared with it; else it's found by an index.

ghost use Rattle.std.specs.Prelude.{◌≡◌, Option, IfOk, IfErr};
ghost use Rattle.std.specs.List.{position};
ghost use Rattle.std.specs.Str.{bytes_eq, chars};
ghost use Rattle.pipeline_rename.specs.Made.{keys_of, texts_in};
ghost use Rattle.pipeline_rename.specs.Made.{sooner as sooner_of};
ghost use Rattle.pipeline_rename.specs.Names as spec;

use pipeline_model::Pair;
use sig_base::{Fault, Text, Texts, first_char};
use std::alloc::Global;
use text_index::TextIndex;

fn copy_keys(alloc: Global, pairs: &[Pair]) -> Result<Texts, Fault>
    ensures ok { IfOk result (λ texts. texts ≡ keys_of pairs.now) }
    ensures err { IfErr result (λ e. e ≡ Fault.Memory) }
{
    let mut keys = Texts::with_capacity(alloc, pairs.len())?;
    for pair in pairs {
        keys.push(Text::copy(alloc, pair.from.as_str())?)?;
    }
    Ok(keys)
}

/// An index of the texts that there are entries for, where many names are looked up.
pub fn index_if(alloc: Global, many: bool, pairs: &[Pair]) -> Result<Option<TextIndex>, Fault>
    ensures ok { IfOk result (λ keys. texts_in keys pairs.now ≡ keys_of pairs.now) }
    ensures err { IfErr result (λ e. e ≡ Fault.Memory) }
{
    if many {
        return Ok(Some(TextIndex::number(alloc, copy_keys(alloc, pairs)?)?));
    }
    Ok(None)
}

/// The number of the first entry of the name, which is compared with each.
fn first_equal(pairs: &[Pair], name: &Text) -> Option<usize>
    ensures { result ≡ position (λ pair. bytes_eq pair.from name.now) pairs.now }
{
    pairs.iter().position(|pair| pair.from.equals(name))
}

fn wide(number: Option<u32>) -> Option<usize>
    ensures { result ≡ number }
{
    match number {
        Some(number) => Some(number as usize),
        None => None,
    }
}

/// The number of the first entry of the name.
pub fn find_equal(keys: &Option<TextIndex>, pairs: &[Pair], name: &Text) -> Option<usize>
    requires { texts_in keys.now pairs.now ≡ keys_of pairs.now }
    ensures { result ≡ position (λ t. bytes_eq t name.now) (keys_of pairs.now) }
{
    match keys {
        Some(index) => wide(index.find(name)),
        None => first_equal(pairs, name),
    }
}

/// The smaller of two numbers that may be missing.
fn sooner(one: Option<u32>, other: Option<u32>) -> Option<u32>
    ensures { result ≡ sooner_of one other }
{
    match (one, other) {
        (None, other) => other,
        (Some(number), None) => Some(number),
        (Some(number), Some(second)) => Some(number.min(second)),
    }
}

/// The number of the first entry that begins the name: each front of the name is looked up.
#[tactic(auto, using(crate::proofs::Fronts::begun_more))]
fn find_front(alloc: Global, keys: &TextIndex, name: &Text) -> Result<Option<u32>, Fault>
    ensures ok { IfOk result (λ number. number ≡ position (λ from. spec.begins from name.now) keys.now) }
    ensures err { IfErr result (λ e. e ≡ Fault.Memory) }
{
    let mut left = name.as_str();
    let mut front = Text::with_capacity(alloc, left.len())?;
    let mut number = keys.find(&front);
    while let Some((c, rest)) = first_char(left) {
        front.push(c)?;
        number = sooner(number, keys.find(&front));
        left = rest;
    }
    Ok(number)
}

/// Whether the first text begins the second.
fn begins(front: &str, text: &str) -> bool
    ensures { result ≡ spec.begins (chars front.now) (chars text.now) }
{
    let mut passed = front;
    let mut left = text;
    while let Some((c, more)) = first_char(passed) {
        let Some((d, rest)) = first_char(left) else {
            return false;
        };
        if c != d {
            return false;
        }
        passed = more;
        left = rest;
    }
    true
}

/// Whether the entry begins the name.
fn begins_name(pair: &Pair, name: &Text) -> bool
    ensures { result ≡ spec.begins pair.now.from name.now }
{
    begins(pair.from.as_str(), name.as_str())
}

/// The number of the first entry that begins the name, which is compared with each.
fn first_front(pairs: &[Pair], name: &Text) -> Option<usize>
    ensures { result ≡ position (λ pair. spec.begins pair.from name.now) pairs.now }
{
    pairs.iter().position(|pair| begins_name(pair, name))
}

/// The number of the first entry that begins the name.
pub fn find_begun(
    alloc: Global,
    keys: &Option<TextIndex>,
    pairs: &[Pair],
    name: &Text,
) -> Result<Option<usize>, Fault>
    requires { texts_in keys.now pairs.now ≡ keys_of pairs.now }
    ensures ok { IfOk result (λ number. number ≡ position (λ from. spec.begins from name.now) (keys_of pairs.now)) }
    ensures err { IfErr result (λ e. e ≡ Fault.Memory) }
{
    match keys {
        Some(index) => Ok(wide(find_front(alloc, index, name)?)),
        None => Ok(first_front(pairs, name)),
    }
}
