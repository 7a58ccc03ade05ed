//! What follows from the definitions, for the proofs of callers: each function does nothing else than name laws that it
//! stands on, and its clauses are laws.

ghost use Rattle.std.specs.Prelude.{◌≡◌, ℕ, List, None, true};
ghost use Rattle.event_schema.specs.Lists.{EachOf, HasElement};
ghost use Rattle.modifier_words.specs.Written.{Written};
ghost use Rattle.sig_base.specs.declared.refusal.Place.{Place};
ghost use Rattle.yaml_tree.specs.Texts.{HasScalarTexts};
ghost use Rattle.yaml_tree.specs.Tree.{Tree};
ghost use Rattle.rule_detections.specs.PlainTests.{ArePlainTests, IsPatternTest};
ghost use Rattle.rule_detections.specs.TestsOf.{TestsOf, value_refusal};
ghost use Rattle.rule_detections.specs.declared.test.Test.{Test};

use modifier_values::{
    networks_are_bounded, one_list_of_patterns, one_network, patterns_have_plain_text,
};

/// A chain makes one list of tests of a value, at most.
pub fn one_tests()
    ensures { (chain : Written) (value : Tree) (a b : List Test) → TestsOf chain value a → TestsOf chain value b → a ≡ b }
{
    one_list_of_patterns();
    one_network();
}

/// A chain makes tests of each value that isn't refused.
pub fn tests_or_refusal()
    ensures { (unbuilt : List Place) (most dashes : ℕ) (chain : Written) (value : Tree)
        → value_refusal unbuilt most dashes chain value ≡ None → (tests : List Test) × TestsOf chain value tests }
{
    one_list_of_patterns();
    one_network();
}

/// There's a test where there are tests.
pub fn some_test()
    ensures { (chain : Written) (value : Tree) (tests : List Test) → TestsOf chain value tests → HasElement tests }
{}

/// Keywords have no tests but patterns and regular expressions.
pub fn keyword_tests()
    ensures { (chain : Written) (value : Tree) (tests : List Test)
        → chain.keyword ≡ true → TestsOf chain value tests → EachOf IsPatternTest tests }
{}

/// The characters of patterns of values of Unicode scalar values that aren't refused are other than U+0000; networks are of 32 bits; regular expressions are some, of texts without U+0000.
pub fn plain_tests()
    ensures { (unbuilt : List Place) (most dashes : ℕ) (chain : Written) (value : Tree) (tests : List Test)
        → value_refusal unbuilt most dashes chain value ≡ None → HasScalarTexts value → TestsOf chain value tests → ArePlainTests tests }
{
    patterns_have_plain_text();
    networks_are_bounded();
}
