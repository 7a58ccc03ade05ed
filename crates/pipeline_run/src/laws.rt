//! What follows from the definitions.

ghost use Rattle.std.specs.Prelude.{◌≡◌, ◌↔◌, ℤ, true, List, Ok, Err};
ghost use Rattle.event_schema.specs.Lists.{EachOf};
ghost use Rattle.event_schema.specs.declared.schema.Field.{Field};
ghost use Rattle.event_schema.specs.declared.value.Value.{Value};
ghost use Rattle.sig_base.specs.declared.limits.Limits.{Limits};
ghost use Rattle.sig_base.specs.declared.refusal.Refusal.{Refusal};
ghost use Rattle.rule_model.specs.Matching.{Matches};
ghost use Rattle.rule_model.specs.Plain.{PlainRule, rule_with};
ghost use Rattle.rule_model.specs.Whole.{IsWhole};
ghost use Rattle.yaml_tree.specs.Tree.{Member};
ghost use Rattle.pipeline_model.specs.declared.pipeline.Pipeline.{Pipeline};
ghost use Rattle.pipeline_model.specs.declared.step.Step.{Step};
ghost use Rattle.pipeline_run.specs.ReadAs.{MatchesAs, itself, steps_renamed, steps_view};
ghost use Rattle.pipeline_run.specs.Chained.{run_pipelines};
ghost use Rattle.pipeline_run.specs.Kept.{IsWholePipeline};
ghost use Rattle.pipeline_run.specs.Priorities.{by_priority, is_ascending, of_priority};
ghost use Rattle.pipeline_run.specs.View.{are_on_names, view};

/// A whole rule stays whole under whole pipelines.
pub fn whole_rules_stay_whole()
    ensures { (limits : Limits) (ps : List Pipeline) (rule made : PlainRule) → EachOf IsWholePipeline ps → IsWhole rule
        → run_pipelines limits ps rule ≡ Ok made → IsWhole made }
{
    pipeline_rename::names_stay_whole();
    pipeline_edit::whole_rules_stay_whole();
    pipeline_fill::tests_stay_whole();
}

/// The rule's head stays as it is, and what of it is left aside decides nothing.
pub fn heads_are_kept()
    ensures head { (limits : Limits) (ps : List Pipeline) (rule made : PlainRule) → run_pipelines limits ps rule ≡ Ok made → made.head ≡ rule.head }
    ensures made { (limits : Limits) (ps : List Pipeline) (rest : List Member) (rule made : PlainRule)
        → run_pipelines limits ps rule ≡ Ok made → run_pipelines limits ps (rule_with rest rule) ≡ Ok (rule_with rest made) }
    ensures refused { (limits : Limits) (ps : List Pipeline) (rest : List Member) (rule : PlainRule) (r : Refusal)
        → run_pipelines limits ps rule ≡ Err r → run_pipelines limits ps (rule_with rest rule) ≡ Err r }
{}

/// The rule that steps on names make matches an event exactly where the first one does with each of its names, those that tests
/// compare with too, read as one of the names that it becomes.
pub fn steps_on_names_are_read()
    ensures { (steps : List Step) (rule : PlainRule) (fields : List Field) (row : List (List Value))
        → (Matches fields row (steps_renamed steps rule) ↔ MatchesAs (steps_view rule.source steps itself) fields row rule) }
{}

/// The rule that pipelines of steps on names make matches an event exactly where the first one does with each of its names, those
/// that tests compare with too, read as one of the names that it becomes.
pub fn names_are_read()
    ensures { (limits : Limits) (ps : List Pipeline) (rule made : PlainRule) (fields : List Field) (row : List (List Value))
        → are_on_names ps ≡ true → run_pipelines limits ps rule ≡ Ok made
        → (Matches fields row made ↔ MatchesAs (view ps rule.source) fields row rule) }
{
    steps_on_names_are_read();
}

/// Pipelines are run by ascending priority, and those of one priority in the order in which they're given.
pub fn each_is_run_in_its_turn()
    ensures ascending { (ps : List Pipeline) → is_ascending (by_priority ps) ≡ true }
    ensures same { (n : ℤ) (ps : List Pipeline) → of_priority n (by_priority ps) ≡ of_priority n ps }
{}
