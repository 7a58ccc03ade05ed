//! The formula of a condition.

ghost use Rattle.std.specs.Prelude.{◌≡◌, ◌≤◌, ◌+◌, Some, IfOk, IfErr, OnOk};
ghost use Rattle.sig_conditions.specs.Conditions.{cond_view};
ghost use Rattle.sig_conditions.specs.Formulas.{form_view, formula_of};
ghost use Rattle.sig_conditions.specs.Refusals.{IsUnresolved};
ghost use Rattle.sig_conditions.specs.Selectors.{taken_count};

use crate::condition::Condition;
use crate::formula::Formula;
use crate::names::Names;
use crate::unresolved::Unresolved;
use sig_base::{Code, Detail, Fault, Place, Refusal};
use std::alloc::Global;

/// Puts the numbers of a rule's detections in place of their names. Of the names and selectors that have no detection,
/// the first in the text is refused: `UnknownName` with the name, or `NothingTaken`.
pub fn resolve_condition(
    alloc: Global,
    condition: &Condition,
    names: &mut Names,
    place: Place,
) -> Result<Formula, Fault>
    ensures formula { IfOk result (λ f. formula_of names.old.names (cond_view condition.now) ≡ Some (form_view f)) }
    ensures names { names.new.names ≡ names.old.names }
    ensures steps { names.new.steps ≤ names.old.steps }
    ensures most { names.new.left ≤ names.old.left }
    ensures left { OnOk result (names.new.left + taken_count names.old.names (cond_view condition.now) ≡ names.old.left) }
    ensures refused { IfErr result (λ e. IsUnresolved names.old.names (cond_view condition.now) place e) }
{
    match names.resolve(alloc, condition) {
        Ok(formula) => Ok(formula),
        Err(Unresolved::Memory) => Err(Fault::Memory),
        Err(Unresolved::Unknown(name)) => Err(Fault::Refused(Refusal {
            code: Code::UNKNOWN_NAME,
            place,
            detail: Detail::Text(name),
        })),
        Err(Unresolved::Nothing) => Err(Fault::Refused(Refusal {
            code: Code::NOTHING_TAKEN,
            place,
            detail: Detail::None,
        })),
    }
}
