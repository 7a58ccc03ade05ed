//! The trees of formulas.

ghost use Rattle.std.specs.Prelude.{◌≡◌, IfOk, IfErr};
ghost use Rattle.backend_core.specs.View.{tree_view};
ghost use Rattle.rule_lowering.specs.Joining.{join};
ghost use Rattle.schema_index.specs.Numbered.{AreNumbered};
ghost use Rattle.rule_lowering.specs.TreeOf as spec;
ghost use Rattle.sig_conditions.specs.Formulas.{form_view, forms_view, forms_of, numbered};

use crate::detection_trees::lower_numbered;
use crate::joins::{add_part, close_parts};
use backend_core::Tree;
use event_schema::Field;
use modifier_words::Joined;
use rule_detections::Detection;
use schema_index::FieldNumbers;
use sig_base::Fault;
use sig_conditions::Formula;
use std::alloc::Global;

/// All of the detections of some numbers, or any of them.
fn lower_taken(
    alloc: Global,
    fields: &[Field],
    numbers: &FieldNumbers,
    detections: &[Detection],
    joined: Joined,
    taken: &[u32],
) -> Result<Tree, Fault>
    requires { AreNumbered fields.now numbers.now }
    ensures ok { IfOk result (λ t. tree_view t ≡ join joined (spec.form_trees fields.now detections.now (forms_of (numbered taken.now)))) }
    ensures err { IfErr result (λ e. e ≡ Fault.Memory) }
{
    let mut parts = Vec::new(alloc);
    for number in taken {
        let part = lower_numbered(alloc, fields, numbers, detections, *number)?;
        add_part(joined, &mut parts, part)?;
    }
    Ok(close_parts(joined, parts))
}

#[cycle(formulas)]
fn lower_formula(
    alloc: Global,
    fields: &[Field],
    numbers: &FieldNumbers,
    detections: &[Detection],
    formula: &Formula,
) -> Result<Tree, Fault>
    requires { AreNumbered fields.now numbers.now }
    ensures ok { IfOk result (λ t. tree_view t ≡ spec.form_tree fields.now detections.now (form_view formula.now)) }
    ensures err { IfErr result (λ e. e ≡ Fault.Memory) }
{
    match formula {
        Formula::Detection(number) => lower_numbered(alloc, fields, numbers, detections, *number),
        Formula::OneOf(taken) => {
            lower_taken(
                alloc,
                fields,
                numbers,
                detections,
                Joined::Any,
                taken.as_slice(),
            )
        }
        Formula::AllOf(taken) => {
            lower_taken(
                alloc,
                fields,
                numbers,
                detections,
                Joined::All,
                taken.as_slice(),
            )
        }
        Formula::Not(part) => {
            let tree = lower_formula(alloc, fields, numbers, detections, part)?;
            Ok(Tree::Not(Box::new(alloc, tree)?))
        }
        Formula::And(parts) => {
            lower_formulas(alloc, fields, numbers, detections, Joined::All, parts)
        }
        Formula::Or(parts) => {
            lower_formulas(alloc, fields, numbers, detections, Joined::Any, parts)
        }
    }
}

/// All of some formulas, or any of them.
#[cycle(formulas)]
pub fn lower_formulas(
    alloc: Global,
    fields: &[Field],
    numbers: &FieldNumbers,
    detections: &[Detection],
    joined: Joined,
    formulas: &[Formula],
) -> Result<Tree, Fault>
    requires { AreNumbered fields.now numbers.now }
    ensures ok { IfOk result (λ t. tree_view t ≡ join joined (spec.form_trees fields.now detections.now (forms_of (forms_view formulas.now)))) }
    ensures err { IfErr result (λ e. e ≡ Fault.Memory) }
{
    let mut parts = Vec::new(alloc);
    for formula in formulas {
        let part = lower_formula(alloc, fields, numbers, detections, formula)?;
        add_part(joined, &mut parts, part)?;
    }
    Ok(close_parts(joined, parts))
}
