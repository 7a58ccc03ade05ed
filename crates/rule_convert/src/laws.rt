//! What follows from the definitions, for the proofs of callers: each function does nothing else than name laws that it stands on.

ghost use Rattle.std.specs.Prelude.{List, Option, IfSome};
ghost use Rattle.event_schema.specs.Lists.{EachOf};
ghost use Rattle.event_schema.specs.Schemas.{IsSchema};
ghost use Rattle.event_schema.specs.declared.schema.Schema.{Schema};
ghost use Rattle.pipeline_run.specs.Kept.{IsWholePipeline};
ghost use Rattle.pipeline_model.specs.declared.pipeline.Pipeline.{Pipeline};
ghost use Rattle.rule_regex.specs.Unbuilt.{Unbuilt};
ghost use Rattle.rule_model.specs.Plain.{PlainRule};
ghost use Rattle.rule_convert.specs.Queries.{query_of, Converts};
ghost use Rattle.rule_convert.specs.Verdicts.{IsConverted};
ghost use Rattle.sig_base.specs.declared.limits.Limits.{Limits};
ghost use Rattle.yaml_tree.specs.Texts.{HasScalarTexts};
ghost use Rattle.yaml_tree.specs.Tree.{Tree};

use backend_core::Backend;

/// The query of each rule that pipelines make and that has one means this rule.
pub fn queries_mean_rules<B: Backend>()
    ensures { (unbuilt : Unbuilt) (limits : Limits) (ps : List Pipeline) (given : Option Schema) (t : Tree) (made : PlainRule) → IfSome given IsSchema → HasScalarTexts t
        → EachOf IsWholePipeline ps → IsConverted B.missing B.text B.too_deep unbuilt limits ps given t made
        → Converts B.Lang.is_query B.Lang.is_within B.Lang.picks limits given made (query_of B.text given made) }
{
    rule_model::rules_are_whole();
    pipeline_run::whole_rules_stay_whole();
    rule_lowering::tree_means_rule();
    rule_lowering::tree_is_sound();
    B::law();
}
