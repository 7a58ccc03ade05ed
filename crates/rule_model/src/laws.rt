//! What follows from the definitions, for the proofs of callers: each function does nothing else than name laws that it
//! stands on, and its clauses are laws.

ghost use Rattle.std.specs.Prelude.{◌≡◌, ◌≤◌, ℕ, List, [], Some, None};
ghost use Rattle.sig_conditions.specs.Conditions.{Cond};
ghost use Rattle.sig_conditions.specs.Grammar.{ConditionReads};
ghost use Rattle.sig_conditions.specs.Words.{nesting, words};
ghost use Rattle.sig_base.specs.declared.limits.Limits.{Limits};
ghost use Rattle.sig_base.specs.declared.refusal.Place.{Place};
ghost use Rattle.yaml_tree.specs.Texts.{HasScalarTexts};
ghost use Rattle.yaml_tree.specs.Tree.{Tree};
ghost use Rattle.rule_model.specs.AsBuilt.{IsRefusedAsBuilt};
ghost use Rattle.rule_model.specs.Conditions.{condition_of};
ghost use Rattle.rule_model.specs.Plain.{PlainRule};
ghost use Rattle.rule_model.specs.Rules.{rule_refusal, lone_refusal, IsRule, IsLoneRule};
ghost use Rattle.rule_model.specs.Whole.{IsWhole};

use rule_detections::{keyword_tests, one_tests, plain_tests, some_test, tests_or_refusal};
use sig_conditions::one_condition;

/// A condition that a text has in the tables is one of the grammar's, and of a text with at most so many words that nest the
/// tables have each that the grammar has.
pub fn condition_of_text()
    ensures sound { (most : ℕ) (text : List ℕ) (c : Cond) → condition_of most text ≡ Some c → ConditionReads (words text) c }
    ensures complete { (most : ℕ) (text : List ℕ) (c : Cond)
        → nesting (words text) ≤ most → ConditionReads (words text) c → condition_of most text ≡ Some c }
{}

/// A document is one rule, if any.
pub fn one_rule()
    ensures { (t : Tree) (r s : PlainRule) → IsRule t r → IsRule t s → r ≡ s }
{
    one_tests();
    one_condition();
}

/// A document that no line of the table refuses is a rule.
pub fn rule_or_refusal()
    ensures { (unbuilt : List Place) (limits : Limits) (t : Tree) → rule_refusal unbuilt limits t ≡ None → (rule : PlainRule) × IsRule t rule }
{
    tests_or_refusal();
}

/// A document that is neither a correlation nor refused as a rule is one rule.
pub fn lone_rules()
    ensures each { (unbuilt : List Place) (limits : Limits) (t : Tree) → lone_refusal unbuilt limits t ≡ None → (rule : PlainRule) × IsLoneRule unbuilt limits t rule }
    ensures one { (u v : List Place) (limits : Limits) (t : Tree) (a b : PlainRule)
        → IsLoneRule u limits t a → IsLoneRule v limits t b → a ≡ b }
{
    rule_or_refusal();
    one_rule();
}

/// Where regular expressions aren't built at some places, a document is refused as it is anyway, or 48 at one of these places.
pub fn refused_as_built()
    ensures rule { (unbuilt : List Place) (limits : Limits) (t : Tree)
        → IsRefusedAsBuilt unbuilt (rule_refusal unbuilt limits t) (rule_refusal [] limits t) }
    ensures lone { (unbuilt : List Place) (limits : Limits) (t : Tree)
        → IsRefusedAsBuilt unbuilt (lone_refusal unbuilt limits t) (lone_refusal [] limits t) }
{}

/// A rule of a document that no line of the table refuses, and whose texts are of Unicode scalar values, is whole.
pub fn rules_are_whole()
    ensures { (unbuilt : List Place) (limits : Limits) (t : Tree) (rule : PlainRule)
        → rule_refusal unbuilt limits t ≡ None → IsRule t rule → HasScalarTexts t → IsWhole rule }
{
    plain_tests();
    some_test();
    keyword_tests();
}
