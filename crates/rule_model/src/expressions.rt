//! The regular expressions of documents and of rules, none of which is built here.

ghost use Rattle.std.specs.Prelude.{◌≡◌, ◌++◌, IfOk, IfErr, OnOk};
ghost use Rattle.std.specs.List.{flat_map};
ghost use Rattle.rule_detections.specs.Expressions.{expression_at};
ghost use Rattle.rule_model.specs.Expressions as spec;
ghost use Rattle.rule_model.specs.Plain.{rule_view};
ghost use Rattle.rule_detections.specs.TestExpressions.{expression_of};
ghost use Rattle.yaml_tree.specs.View.{node_view};

use crate::rule::Rule;
use rule_detections::{Alternative, Detection, Expression, Expressions, Item, Test, Tests};
use sig_base::{Fault, Limits, Place};
use std::alloc::Global;
use yaml_tree::{Node, value_at};

/// The regular expressions in a document, in their order, each at its value's place. Only want of memory is answered.
pub fn find_expressions(alloc: Global, limits: &Limits, node: &Node) -> Result<Expressions, Fault>
    ensures ok { IfOk result (λ all. all ≡ spec.document_expressions limits.now (node_view node.now)) }
    ensures err { IfErr result (λ e. e ≡ Fault.Memory) }
{
    let Some(detection) = value_at(node, "detection") else {
        return Ok(Expressions::new(alloc));
    };
    rule_detections::find_expressions(alloc, limits, detection)
}

/// Adds the regular expression of a test at its item's place, if the test searches for one.
fn add_test(alloc: Global, place: Place, test: &Test, all: &mut Expressions) -> Result<(), Fault>
    ensures ok { OnOk result (all.new ≡ all.old ++ expression_at place (expression_of test.now)) }
    ensures err { IfErr result (λ e. e ≡ Fault.Memory) }
{
    let Some(text) = test.expression(alloc)? else {
        return Ok(());
    };
    all.push(Expression { place, text })?;
    Ok(())
}

/// .. of each test of a value.
fn add_tests(
    alloc: Global,
    place: Place,
    tests: &[Test],
    all: &mut Expressions,
) -> Result<(), Fault>
    ensures ok { OnOk result (all.new ≡ all.old ++ flat_map (λ test. expression_at place (expression_of test)) tests.now) }
    ensures err { IfErr result (λ e. e ≡ Fault.Memory) }
{
    for test in tests {
        add_test(alloc, place, test, all)?;
    }
    Ok(())
}

/// .. of each value.
fn add_values(
    alloc: Global,
    place: Place,
    values: &[Tests],
    all: &mut Expressions,
) -> Result<(), Fault>
    ensures ok { OnOk result (all.new ≡ all.old ++ flat_map (flat_map (λ test. expression_at place (expression_of test))) values.now) }
    ensures err { IfErr result (λ e. e ≡ Fault.Memory) }
{
    for tests in values {
        add_tests(alloc, place, tests.as_slice(), all)?;
    }
    Ok(())
}

/// .. of an item, each at its place.
#[tactic(auto, using(crate::proofs::Placed::item_by_test))]
fn add_item(alloc: Global, item: &Item, all: &mut Expressions) -> Result<(), Fault>
    ensures ok { OnOk result (all.new ≡ all.old ++ spec.item_expressions item.now) }
    ensures err { IfErr result (λ e. e ≡ Fault.Memory) }
{
    add_values(alloc, item.place, item.tests.as_slice(), all)
}

/// .. of each item.
fn add_items(alloc: Global, items: &[Item], all: &mut Expressions) -> Result<(), Fault>
    ensures ok { OnOk result (all.new ≡ all.old ++ flat_map spec.item_expressions items.now) }
    ensures err { IfErr result (λ e. e ≡ Fault.Memory) }
{
    for item in items {
        add_item(alloc, item, all)?;
    }
    Ok(())
}

/// .. of each alternative.
fn add_alternatives(
    alloc: Global,
    alternatives: &[Alternative],
    all: &mut Expressions,
) -> Result<(), Fault>
    ensures ok { OnOk result (all.new ≡ all.old ++ flat_map (flat_map spec.item_expressions) alternatives.now) }
    ensures err { IfErr result (λ e. e ≡ Fault.Memory) }
{
    for alternative in alternatives {
        add_items(alloc, alternative.as_slice(), all)?;
    }
    Ok(())
}

/// .. of each detection.
fn add_detections(
    alloc: Global,
    detections: &[Detection],
    all: &mut Expressions,
) -> Result<(), Fault>
    ensures ok { OnOk result (all.new ≡ all.old ++ flat_map spec.detection_expressions detections.now) }
    ensures err { IfErr result (λ e. e ≡ Fault.Memory) }
{
    for detection in detections {
        add_alternatives(alloc, detection.alternatives.as_slice(), all)?;
    }
    Ok(())
}

impl Rule {
    /// The regular expressions that the rule's items search for, in their order, each at its item's place. Only want of memory
    /// is answered.
    pub fn expressions(&self, alloc: Global) -> Result<Expressions, Fault>
        ensures ok { IfOk result (λ all. all ≡ spec.rule_expressions (rule_view self.now)) }
        ensures err { IfErr result (λ e. e ≡ Fault.Memory) }
    {
        let mut all = Expressions::new(alloc);
        add_detections(alloc, self.detections.as_slice(), &mut all)?;
        Ok(all)
    }
}
