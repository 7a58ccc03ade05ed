//! Names that stand in a schema twice.

ghost use Rattle.std.specs.Prelude.{◌≡◌, ◌++◌, ◌∷◌, [], true, false, codes, map, IfOk, IfErr, OnOk, OnErr, MatchOption};
ghost use Rattle.std.specs.List.{list_any};
ghost use Rattle.event_read.specs.SchemaOf.{has_repeat};
ghost use Rattle.event_read.specs.SchemaOf as spec;
ghost use Rattle.event_schema.specs.Schemas as schemas;
ghost use Rattle.event_schema.specs.Schemas.{names_of};
ghost use Rattle.sig_base.specs.Folding.{folded as folding};

use event_schema::Field;
use indexmap::IndexSet;
use sig_base::{Fault, Text, fold};
use std::alloc::{AllocError, Global};

fn characters(alloc: Global, text: &Text) -> Result<Vec<char>, AllocError>
    ensures { IfOk result (λ cs. cs.items ≡ text.now) }
{
    text.as_str().chars().collect(alloc)
}

fn push_folded(text: &mut Text, characters: &[char]) -> Result<(), AllocError>
    ensures { OnOk result (text.new ≡ text.old ++ folding characters.now) }
{
    for c in characters {
        text.push(fold(*c))?;
    }
    Ok(())
}

/// The text with a to z in place of A to Z.
fn folded(alloc: Global, text: &Text) -> Result<Text, AllocError>
    ensures { IfOk result (λ t. t ≡ folding text.now) }
{
    let characters = characters(alloc, text)?;
    let mut folded = Text::with_capacity(alloc, characters.len())?;
    push_folded(&mut folded, &characters)?;
    Ok(folded)
}

/// The twin of a name, with a to z in place of A to Z.
fn folded_twin(alloc: Global, name: &Text) -> Result<Text, Fault>
    ensures ok { IfOk result (λ t. t ≡ folding (schemas.twin name.now)) }
    ensures err { IfErr result (λ e. e ≡ Fault.Memory) }
{
    let mut twin = Text::copy(alloc, name.as_str())?;
    twin.push_str(".cased")?;
    Ok(folded(alloc, &twin)?)
}

/// The names of the fields with a to z in place of A to Z, or none where one stands there twice.
#[tactic(auto, using(crate::proofs::RepeatLemmas::name_again, crate::proofs::RepeatLemmas::names_done))]
fn distinct(alloc: Global, fields: &[Field]) -> Result<Option<IndexSet<Text>>, Fault>
    ensures ok { IfOk result (λ o. MatchOption o (has_repeat (map folding (names_of fields.now)) ≡ true)
        (λ names. (has_repeat (map folding (names_of fields.now)) ≡ false) × (names.keys ≡ map folding (names_of fields.now)))) }
    ensures err { IfErr result (λ e. e ≡ Fault.Memory) }
{
    let mut names = IndexSet::new(alloc);
    for field in fields {
        let name = folded(alloc, &field.name)?;
        let added = names.insert(name)?;
        if !added {
            return Ok(None);
        }
    }
    Ok(Some(names))
}

/// Whether the field has a twin whose name is one of these.
fn is_twin_named(alloc: Global, field: &Field, names: &IndexSet<Text>) -> Result<bool, Fault>
    ensures ok { IfOk result (λ b. b ≡ spec.is_twin_named names.now.keys field.now) }
    ensures err { IfErr result (λ e. e ≡ Fault.Memory) }
{
    if !field.cased {
        return Ok(false);
    }
    let twin = folded_twin(alloc, &field.name)?;
    Ok(names.contains(&twin))
}

fn has_twin(alloc: Global, fields: &[Field], names: &IndexSet<Text>) -> Result<bool, Fault>
    ensures ok { IfOk result (λ b. b ≡ list_any (spec.is_twin_named names.now.keys) fields.now) }
    ensures err { IfErr result (λ e. e ≡ Fault.Memory) }
{
    for field in fields {
        if is_twin_named(alloc, field, names)? {
            return Ok(true);
        }
    }
    Ok(false)
}

/// Whether two names, or a name and the twin of a field that has one, are equal, letters of either case taken for equal.
pub(super) fn has_repeats(alloc: Global, fields: &[Field]) -> Result<bool, Fault>
    ensures ok { IfOk result (λ b. b ≡ spec.has_repeats fields.now) }
    ensures err { IfErr result (λ e. e ≡ Fault.Memory) }
{
    match distinct(alloc, fields)? {
        Some(names) => has_twin(alloc, fields, &names),
        None => Ok(true),
    }
}
