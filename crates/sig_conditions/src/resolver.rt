//! Conditions over the names of a rule's detections.

ghost use Rattle.std.specs.Prelude.{◌≡◌, ◌≤◌, ◌+◌, length, OnOk};
ghost use Rattle.sig_conditions.specs.Conditions.{cond_view, conds_of, conds_view};
ghost use Rattle.sig_conditions.specs.Formulas.{FAnd, FOr, formula_taken, faults, faults_of, form_view, formula_of, formulas_of, forms_of, forms_view, named, none_named, none_taken};
ghost use Rattle.sig_conditions.specs.Resolved.{IsUnknown, Resolves};
ghost use Rattle.sig_conditions.specs.Selectors.{taken_count, taken_counts};
ghost use Rattle.sig_conditions.specs.Taken.{number_of, taken};

use crate::condition::Condition;
use crate::formula::Formula;
use crate::names::Names;
use crate::selector::Selector;
use crate::unresolved::Unresolved;
use sig_base::Text;
use std::alloc::Global;

/// A copy of a name that no detection has.
fn unknown(alloc: Global, name: &Text) -> Unresolved
    ensures { IsUnknown name.now result }
{
    match Text::copy(alloc, name.as_str()) {
        Ok(copy) => Unresolved::Unknown(copy),
        Err(_) => Unresolved::Memory,
    }
}

/// The detection of a name.
fn resolve_name(alloc: Global, name: &Text, names: &Names) -> Result<Formula, Unresolved>
    ensures { Resolves form_view result (named (number_of name.now names.now.names)) (none_named name.now (number_of name.now names.now.names)) }
{
    match names.find(name) {
        Some(number) => Ok(Formula::Detection(number)),
        None => Err(unknown(alloc, name)),
    }
}

/// Some detection that a selector takes.
fn resolve_one(alloc: Global, selector: &Selector, names: &mut Names) -> Result<Formula, Unresolved>
    ensures formula { Resolves form_view result (formula_taken FOr (taken selector.now names.old.names)) (none_taken (taken selector.now names.old.names)) }
    ensures names { names.new.names ≡ names.old.names }
    ensures steps { names.new.steps ≤ names.old.steps }
    ensures most { names.new.left ≤ names.old.left }
    ensures left { OnOk result (names.new.left + length (taken selector.now names.old.names) ≡ names.old.left) }
{
    let all = names.take(alloc, selector)?;
    if all.as_slice().is_empty() {
        return Err(Unresolved::Nothing);
    }
    Ok(Formula::OneOf(all))
}

/// All detections that a selector takes.
fn resolve_each(
    alloc: Global,
    selector: &Selector,
    names: &mut Names,
) -> Result<Formula, Unresolved>
    ensures formula { Resolves form_view result (formula_taken FAnd (taken selector.now names.old.names)) (none_taken (taken selector.now names.old.names)) }
    ensures names { names.new.names ≡ names.old.names }
    ensures steps { names.new.steps ≤ names.old.steps }
    ensures most { names.new.left ≤ names.old.left }
    ensures left { OnOk result (names.new.left + length (taken selector.now names.old.names) ≡ names.old.left) }
{
    let all = names.take(alloc, selector)?;
    if all.as_slice().is_empty() {
        return Err(Unresolved::Nothing);
    }
    Ok(Formula::AllOf(all))
}

/// The formula of a condition.
#[cycle(resolver)]
pub fn resolve(
    alloc: Global,
    condition: &Condition,
    names: &mut Names,
) -> Result<Formula, Unresolved>
    ensures formula { Resolves form_view result (formula_of names.old.names (cond_view condition.now)) (faults names.old.names (cond_view condition.now)) }
    ensures names { names.new.names ≡ names.old.names }
    ensures steps { names.new.steps ≤ names.old.steps }
    ensures most { names.new.left ≤ names.old.left }
    ensures left { OnOk result (names.new.left + taken_count names.old.names (cond_view condition.now) ≡ names.old.left) }
{
    match condition {
        Condition::Name(name) => resolve_name(alloc, name, names),
        Condition::OneOf(selector) => resolve_one(alloc, selector, names),
        Condition::AllOf(selector) => resolve_each(alloc, selector, names),
        Condition::Not(part) => {
            let formula = resolve(alloc, part, names)?;
            Ok(Formula::Not(Box::new(alloc, formula)?))
        }
        Condition::And(parts) => {
            let all = resolve_all(alloc, parts, names)?;
            Ok(Formula::And(all))
        }
        Condition::Or(parts) => {
            let all = resolve_all(alloc, parts, names)?;
            Ok(Formula::Or(all))
        }
    }
}

/// The formulas of the parts of a chain.
#[cycle(resolver)]
fn resolve_all(
    alloc: Global,
    parts: &[Condition],
    names: &mut Names,
) -> Result<Vec<Formula>, Unresolved>
    ensures formulas { Resolves (λ all. forms_of (forms_view all.items)) result (formulas_of names.old.names (conds_of (conds_view parts.now))) (faults_of names.old.names (conds_of (conds_view parts.now))) }
    ensures names { names.new.names ≡ names.old.names }
    ensures steps { names.new.steps ≤ names.old.steps }
    ensures most { names.new.left ≤ names.old.left }
    ensures left { OnOk result (names.new.left + taken_counts names.old.names (conds_of (conds_view parts.now)) ≡ names.old.left) }
{
    let mut all = Vec::new(alloc);
    for part in parts {
        let formula = resolve(alloc, part, names)?;
        all.push(formula)?;
    }
    Ok(all)
}
