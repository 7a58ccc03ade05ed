//! The tree of a rule.

ghost use Rattle.std.specs.Prelude.{◌≡◌, ◌↔◌, ◌-◌, ◌^◌, ◌≤◌, List, Option, None, IfOk};
ghost use Rattle.backend_core.specs.Holds.{TreeHolds};
ghost use Rattle.backend_core.specs.Sound.{IsSound};
ghost use Rattle.backend_core.specs.View.{tree_view};
ghost use Rattle.event_schema.specs.Events.{IsEvent};
ghost use Rattle.event_schema.specs.declared.value.Value.{Value};
ghost use Rattle.rule_lowering.specs.Refused.{told, leaves_refusal};
ghost use Rattle.rule_lowering.specs.TreeOf.{tree_of};
ghost use Rattle.rule_schema.specs.Inferred.{fit_refusal, open_refusal};
ghost use Rattle.rule_model.specs.Matching.{Matches};
ghost use Rattle.rule_model.specs.Plain.{rule_view};
ghost use Rattle.rule_model.specs.Whole.{IsWhole};
ghost use Rattle.sig_base.specs.Judged.{Judged};

use crate::formula::lower_formulas;
use crate::laws::{tree_is_sound, tree_means_rule};
use crate::test_count::count_rule;
use backend_core::Tree;
use event_schema::Schema;
use modifier_values::network_patterns_are_plain;
use modifier_windash::choices_are_counted;
use modifier_words::Joined;
use rule_model::Rule;
use schema_index::FieldNumbers;
use sig_base::{Code, Detail, Fault, Limits, Place, Refusal};
use std::alloc::Global;

fn too_many(place: Place, count: u128, limit: usize) -> Fault
    requires { count ≤ 2 ^ 127 - 1 }
    ensures { result ≡ Fault.Refused (told place count limit) }
{
    Fault::Refused(Refusal {
        code: Code::TOO_MANY_LEAVES,
        place,
        detail: Detail::Numbers(count as i128, limit as i128),
    })
}

/// The tree of a rule, which holds of an event exactly where the rule matches it, if it fits the schema. A rule whose tree would have more than
/// `leaves` tests is refused at its place (110), with their number, or 2^127 - 1 where there are more, and the limit. They
/// are counted before the tree is made, so a refused rule costs little. More than 2^32 - 1 fields can't be numbered, which
/// is want of memory.
pub fn lower(alloc: Global, limits: &Limits, rule: &Rule, schema: &Schema) -> Result<Tree, Fault>
    ensures tree { Judged (λ t. tree_view t ≡ tree_of schema.now (rule_view rule.now)) (leaves_refusal limits.now schema.now (rule_view rule.now)) result }
    ensures sound { IsWhole (rule_view rule.now) → open_refusal (rule_view rule.now) ≡ None → fit_refusal schema.now (rule_view rule.now) ≡ None
        → IfOk result (λ t. IsSound schema.now.fields (tree_view t)) }
    ensures means { IsWhole (rule_view rule.now) → fit_refusal schema.now (rule_view rule.now) ≡ None
        → IfOk result (λ t. (row : List (List Value))
        → IsEvent schema.now.fields row → TreeHolds row (tree_view t) ↔ Matches schema.now.fields row (rule_view rule.now)) }
{
    tree_means_rule();
    tree_is_sound();
    choices_are_counted();
    network_patterns_are_plain();
    let fields = schema.fields.as_slice();
    let numbers = FieldNumbers::of(alloc, fields)?;
    let count = count_rule(alloc, numbers.searched().len(), rule)?;
    if count > limits.leaves as u128 {
        return Err(too_many(rule.head.place, count, limits.leaves));
    }
    lower_formulas(
        alloc,
        fields,
        &numbers,
        rule.detections.as_slice(),
        Joined::Any,
        &rule.conditions,
    )
}
