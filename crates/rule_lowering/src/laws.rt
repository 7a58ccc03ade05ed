//! Laws of lowered rules, each the contract of a function that does nothing.

ghost use Rattle.std.specs.Prelude.{◌≡◌, ◌↔◌, List, Option, None};
ghost use Rattle.backend_core.specs.Holds.{TreeHolds};
ghost use Rattle.backend_core.specs.Sound.{IsSound};
ghost use Rattle.event_schema.specs.Events.{IsEvent};
ghost use Rattle.event_schema.specs.declared.schema.Schema.{Schema};
ghost use Rattle.event_schema.specs.declared.value.Value.{Value};
ghost use Rattle.rule_schema.specs.Inferred.{fit_refusal, open_refusal};
ghost use Rattle.rule_model.specs.Matching.{Matches};
ghost use Rattle.rule_model.specs.Plain.{PlainRule};
ghost use Rattle.rule_model.specs.Whole.{IsWhole};
ghost use Rattle.rule_lowering.specs.TreeOf.{tree_of};

use modifier_values::{choices_are_plain, expressions_are_plain, network_patterns_are_plain};
use modifier_windash::choices_fit;
use sig_encode::patterns_fit;
use sig_strings::plain_fits;

/// The tree of a whole rule that fits the schema holds of an event exactly where the rule matches it.
pub fn tree_means_rule()
    ensures { (schema : Schema) (rule : PlainRule) (row : List (List Value))
        → IsWhole rule → fit_refusal schema rule ≡ None → IsEvent schema.fields row
        → TreeHolds row (tree_of schema rule) ↔ Matches schema.fields row rule }
{
    plain_fits();
    choices_fit();
    patterns_fit();
}

/// The tree of a whole rule that fits the schema is sound, where no placeholder of the rule stands open.
pub fn tree_is_sound()
    ensures { (schema : Schema) (rule : PlainRule)
        → IsWhole rule → open_refusal rule ≡ None → fit_refusal schema rule ≡ None → IsSound schema.fields (tree_of schema rule) }
{
    choices_are_plain();
    network_patterns_are_plain();
    expressions_are_plain();
}
