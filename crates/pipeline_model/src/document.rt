//! Reading pipelines.

ghost use Rattle.std.specs.Prelude.{◌≡◌, map as list_map, codes, Some, IfOk, IfErr};
ghost use Rattle.std.specs.List.{AllZip};
ghost use Rattle.sig_base.specs.Judged.{Judged, first};
ghost use Rattle.yaml_tree.specs.View.{node_view, nodes_view};
ghost use Rattle.yaml_tree.specs.Nodes as nodes;
ghost use Rattle.rule_detections.specs.Items.{item_refusal};
ghost use Rattle.pipeline_model.specs.Checks.{pipeline_refusal, added_by};
ghost use Rattle.pipeline_model.specs.Pipelines as spec;
ghost use Rattle.pipeline_model.specs.Reading as causes;

use crate::checks::{check_shape, chosen_in, typed_kind};
use crate::items::{check_items, parts_at, read_items};
use crate::pipeline::Pipeline;
use crate::step::{Action, Choice, Step};
use crate::values::{
    copy_conds, copy_mapping, copy_source, copy_sources, copy_text_at, copy_text_or_none,
    copy_texts_at, copy_vars, is_negated, is_or_at, priority_of,
};
use pipeline_check::{Listing, StepKind, sooner};
use sig_base::{Fault, Limits, Place, Sequence};
use std::alloc::Global;
use yaml_tree::{Node, all_entries, entries_at, place_of};

/// The placeholders that a step fills.
fn copy_choice(alloc: Global, node: &Node) -> Result<Choice, Fault>
    ensures ok { IfOk result (λ c. c ≡ spec.choice_at (node_view node.now)) }
    ensures err { IfErr result (λ e. e ≡ Fault.Memory) }
{
    match chosen_in(all_entries(node)) {
        Some(Listing::Include) => Ok(Choice::Include(copy_texts_at(alloc, node, "include")?)),
        Some(Listing::Exclude) => Ok(Choice::Exclude(copy_texts_at(alloc, node, "exclude")?)),
        None => Ok(Choice::Every),
    }
}

/// The step that adds the items of its entries.
fn read_added(
    alloc: Global,
    limits: &Limits,
    unbuilt: &[Place],
    node: &Node,
) -> Result<Action, Fault>
    ensures { Judged (spec.IsAdded (node_view node.now))
        (first (list_map (item_refusal unbuilt.now limits.now) (nodes.entries_at (codes "conditions") (node_view node.now)))) result }
{
    let items = read_items(alloc, limits, unbuilt, entries_at(node, "conditions"))?;
    Ok(Action::Add {
        items,
        negated: is_negated(node),
    })
}

/// What a step of this type does.
fn read_action(
    alloc: Global,
    limits: &Limits,
    unbuilt: &[Place],
    kind: StepKind,
    node: &Node,
) -> Result<Action, Fault>
    ensures { Judged (spec.IsAction kind (node_view node.now))
        (first (list_map (item_refusal unbuilt.now limits.now) (added_by (Some kind) (node_view node.now)))) result }
{
    match kind {
        StepKind::MapNames => Ok(Action::MapNames(copy_mapping(alloc, node)?)),
        StepKind::Prefix => Ok(Action::Prefix(copy_text_or_none(alloc, node, "prefix")?)),
        StepKind::Suffix => Ok(Action::Suffix(copy_text_or_none(alloc, node, "suffix")?)),
        StepKind::MapPrefixes => Ok(Action::MapPrefixes(copy_mapping(alloc, node)?)),
        StepKind::Drop => Ok(Action::Drop),
        StepKind::Add => read_added(alloc, limits, unbuilt, node),
        StepKind::Source => Ok(Action::Source(copy_source(alloc, node)?)),
        StepKind::MapTexts => Ok(Action::MapTexts(copy_mapping(alloc, node)?)),
        StepKind::FillHoles => Ok(Action::FillHoles(copy_choice(alloc, node)?)),
        StepKind::WildHoles => Ok(Action::WildHoles(copy_choice(alloc, node)?)),
        StepKind::FailRule => Ok(Action::FailRule(copy_text_or_none(alloc, node, "message")?)),
        StepKind::FailItem => Ok(Action::FailItem(copy_text_or_none(alloc, node, "message")?)),
    }
}

/// The rest of a step that does this.
fn read_conditions(alloc: Global, action: Action, node: &Node) -> Result<Step, Fault>
    ensures ok { IfOk result (λ step. spec.HasConditions (node_view node.now) step) }
    ensures action { IfOk result (λ step. step.action ≡ action) }
    ensures err { IfErr result (λ e. e ≡ Fault.Memory) }
{
    let id = copy_text_at(alloc, node, "id")?;
    let rule_conds = copy_sources(alloc, node)?;
    let field_conds = copy_conds(alloc, node)?;
    Ok(Step {
        id,
        action,
        rule_conds,
        rule_any: is_or_at(node, "rule_cond_op"),
        field_conds,
        field_any: is_or_at(node, "field_name_cond_op"),
        place: place_of(node),
    })
}

fn read_step(alloc: Global, limits: &Limits, unbuilt: &[Place], node: &Node) -> Result<Step, Fault>
    ensures { Judged (spec.IsStep (node_view node.now)) (causes.step_cause unbuilt.now limits.now (node_view node.now)) result }
{
    let kind = typed_kind(alloc, node)?;
    let action = read_action(alloc, limits, unbuilt, kind, node)?;
    read_conditions(alloc, action, node)
}

fn read_steps(
    alloc: Global,
    limits: &Limits,
    unbuilt: &[Place],
    parts: &[Node],
) -> Result<Sequence<Step>, Fault>
    ensures { Judged (λ steps. AllZip spec.IsStep (nodes_view parts.now) steps)
        (first (list_map (causes.step_cause unbuilt.now limits.now) (nodes_view parts.now))) result }
{
    let mut steps = Sequence::new(alloc);
    for part in parts {
        let step = read_step(alloc, limits, unbuilt, part)?;
        steps.push(step)?;
    }
    Ok(steps)
}

/// Reads a pipeline of which nothing is refused.
fn read_all(
    alloc: Global,
    limits: &Limits,
    unbuilt: &[Place],
    node: &Node,
) -> Result<Pipeline, Fault>
    ensures { Judged (spec.IsPipeline (node_view node.now)) (causes.steps_cause unbuilt.now limits.now (node_view node.now)) result }
{
    let name = copy_text_or_none(alloc, node, "name")?;
    let vars = copy_vars(alloc, entries_at(node, "vars"))?;
    let steps = read_steps(alloc, limits, unbuilt, parts_at(node, "transformations"))?;
    Ok(Pipeline {
        name,
        priority: priority_of(node),
        vars,
        steps,
    })
}

impl Pipeline {
    /// Reads the pipeline that a document is. Of all keys and values that aren't allowed the first by place is refused: 90
    /// where a key or value isn't one of a pipeline or a key is missing, 91 where a step's type or a key of the pipeline is
    /// left out, 92 where a condition's type or key isn't known, 93 where a step has an earlier one's `id`, and an item that
    /// is added with the code of items, 48 where it stands at one of the places `unbuilt`, at which no regular expression is built.
    /// At one place the smallest code is answered.
    pub fn read(
        alloc: Global,
        limits: &Limits,
        unbuilt: &[Place],
        node: &Node,
    ) -> Result<Pipeline, Fault>
        ensures { Judged (spec.IsPipeline (node_view node.now)) (pipeline_refusal unbuilt.now limits.now (node_view node.now)) result }
    {
        let shape = check_shape(alloc, node)?;
        let items = check_items(alloc, limits, unbuilt, node)?;
        match sooner(shape, items) {
            Some(refusal) => Err(Fault::Refused(refusal)),
            None => read_all(alloc, limits, unbuilt, node),
        }
    }
}
