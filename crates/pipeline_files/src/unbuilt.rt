//! The regular expressions of a pipeline, and where they aren't built.

ghost use Rattle.std.specs.Prelude.{◌≡◌, ◌++◌, IfOk, IfErr, OnOk};
ghost use Rattle.std.specs.List.{flat_map};
ghost use Rattle.pipeline_files.specs.Places.{pipeline_expressions};
ghost use Rattle.pipeline_model.specs.Checks.{added_in as spec_added_in};
ghost use Rattle.rule_regex.specs.Building.{FoundUnbuilt, AreBuiltOrFound, places_in};
ghost use Rattle.rule_detections.specs.Expressions.{item_expressions};
ghost use Rattle.yaml_tree.specs.View.{node_view, nodes_view};

use pipeline_model::{added_in, parts_at};
use query_lang::Builder;
use rule_detections::{Expressions, add_entries};
use rule_regex::find_unbuilt_among;
use sig_base::{Fault, Limits, Place};
use std::alloc::Global;
use yaml_tree::Node;

/// Adds the regular expressions of the items that each step adds.
#[tactic(auto, using(crate::proofs::Listed::added_next))]
fn add_steps(
    alloc: Global,
    limits: &Limits,
    steps: &[Node],
    all: &mut Expressions,
) -> Result<(), Fault>
    ensures ok { OnOk result (all.new ≡ all.old ++ flat_map (item_expressions limits.now) (flat_map spec_added_in (nodes_view steps.now))) }
    ensures err { IfErr result (λ e. e ≡ Fault.Memory) }
{
    for step in steps {
        add_entries(alloc, limits, added_in(step), all)?;
    }
    Ok(())
}

/// The regular expressions of the items that a pipeline's steps add, in their order.
fn find_expressions(alloc: Global, limits: &Limits, node: &Node) -> Result<Expressions, Fault>
    ensures ok { IfOk result (λ all. all ≡ pipeline_expressions limits.now (node_view node.now)) }
    ensures err { IfErr result (λ e. e ≡ Fault.Memory) }
{
    let mut all = Expressions::new(alloc);
    add_steps(alloc, limits, parts_at(node, "transformations"), &mut all)?;
    Ok(all)
}

/// The places of those that aren't built. Only want of memory is answered.
pub(crate) fn find_unbuilt<B: Builder>(
    alloc: Global,
    limits: &Limits,
    node: &Node,
    builder: &mut B,
) -> Result<Vec<Place>, Fault>
    ensures found { FoundUnbuilt (pipeline_expressions limits.now (node_view node.now)) (B.refused builder.old) (B.refused builder.new) (places_in result) }
    ensures built { IfOk result (λ places. AreBuiltOrFound (B.has_built builder.new) places.items (pipeline_expressions limits.now (node_view node.now))) }
{
    let expressions = find_expressions(alloc, limits, node)?;
    find_unbuilt_among(alloc, expressions.as_slice(), builder)
}
