//! Copies of formulas.

ghost use Rattle.std.specs.Prelude.{◌≡◌, IfOk, IfErr};
ghost use Rattle.sig_conditions.specs.Formulas.{form_view, forms_view};

use crate::formula::Formula;
use crate::numbers::copy_numbers;
use sig_base::Fault;
use std::alloc::Global;

impl Formula {
    /// The same formula; only want of memory is answered.
    pub fn copy(&self, alloc: Global) -> Result<Formula, Fault>
        ensures ok { IfOk result (λ f. form_view f ≡ form_view self.now) }
        ensures err { IfErr result (λ e. e ≡ Fault.Memory) }
    {
        copy_formula(alloc, self)
    }
}

/// The same formula.
#[cycle(copier)]
fn copy_formula(alloc: Global, formula: &Formula) -> Result<Formula, Fault>
    ensures ok { IfOk result (λ f. form_view f ≡ form_view formula.now) }
    ensures err { IfErr result (λ e. e ≡ Fault.Memory) }
{
    match formula {
        Formula::Detection(number) => Ok(Formula::Detection(*number)),
        Formula::OneOf(numbers) => Ok(Formula::OneOf(copy_numbers(alloc, numbers)?)),
        Formula::AllOf(numbers) => Ok(Formula::AllOf(copy_numbers(alloc, numbers)?)),
        Formula::Not(part) => {
            let copy = copy_formula(alloc, part)?;
            Ok(Formula::Not(Box::new(alloc, copy)?))
        }
        Formula::And(parts) => {
            let all = copy_formulas(alloc, parts)?;
            Ok(Formula::And(all))
        }
        Formula::Or(parts) => {
            let all = copy_formulas(alloc, parts)?;
            Ok(Formula::Or(all))
        }
    }
}

/// The same formulas, in their order; only want of memory is answered.
#[cycle(copier)]
pub fn copy_formulas(alloc: Global, parts: &[Formula]) -> Result<Vec<Formula>, Fault>
    ensures ok { IfOk result (λ all. forms_view all.items ≡ forms_view parts.now) }
    ensures err { IfErr result (λ e. e ≡ Fault.Memory) }
{
    let mut all = Vec::with_capacity(alloc, parts.len())?;
    for part in parts {
        let copy = copy_formula(alloc, part)?;
        all.push(copy)?;
    }
    Ok(all)
}
