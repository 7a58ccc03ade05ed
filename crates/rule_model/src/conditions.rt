//! Reading the conditions of a rule.

ghost use Rattle.std.specs.Prelude.{◌≡◌, not, map, filter, codes, length, IfOk, IfErr, OnOk};
ghost use Rattle.std.specs.List.{AllZip};
ghost use Rattle.sig_conditions.specs.Formulas.{form_view, forms_view};
ghost use Rattle.sig_base.specs.Judged.{Judged};
ghost use Rattle.yaml_tree.specs.View.{node_view, entries_view};
ghost use Rattle.rule_model.specs.Conditions as spec;
ghost use Rattle.rule_detections.specs.Detections.{is_key};
ghost use Rattle.event_schema.specs.Lists.{EachOf, HasElement};
ghost use Rattle.yaml_tree.specs.Nodes.{parts_in};
ghost use Rattle.rule_model.specs.Whole.{IsWholeForm};

use sig_base::{Code, Fault, Limits, Text, Texts, must, refused};
use sig_conditions::{Formula, Names, read_condition, resolve_condition};
use std::alloc::Global;
use yaml_tree::{Entry, Node, all_entries, is_empty, parts_of, place_of, text_of, value_at};

/// The names of the detections, which are all keys but `condition`.
fn copy_names(alloc: Global, entries: &[Entry]) -> Result<Texts, Fault>
    ensures ok { IfOk result (λ names. names ≡ map (λ e. e.key) (filter (λ e. not (is_key (codes "condition") e)) (entries_view entries.now))) }
    ensures err { IfErr result (λ e. e ≡ Fault.Memory) }
{
    let mut names = Texts::with_capacity(alloc, entries.len())?;
    for entry in entries {
        if !entry.key.is("condition") {
            names.push(Text::copy(alloc, entry.key.as_str())?)?;
        }
    }
    Ok(names)
}

/// One condition over detections of these names.
fn read_formula(
    alloc: Global,
    limits: &Limits,
    names: &mut Names,
    node: &Node,
) -> Result<Formula, Fault>
    ensures judged { Judged (λ f. spec.IsFormula names.old.names (node_view node.now) (form_view f))
        (spec.condition_refusal limits.now names.old.names (node_view node.now)) result }
    ensures names { OnOk result (names.new.names ≡ names.old.names) }
{
    let place = place_of(node);
    let Some(text) = text_of(node) else {
        return Err(refused(Code::WRONG_SHAPE, place));
    };
    let condition = read_condition(alloc, limits, text.as_str(), place)?;
    resolve_condition(alloc, &condition, names, place)
}

/// One condition, or those of a list, in order.
fn read_listed(
    alloc: Global,
    limits: &Limits,
    names: &mut Names,
    node: &Node,
) -> Result<Vec<Formula>, Fault>
    ensures { Judged (λ fs. AllZip (spec.IsFormula names.old.names) (parts_in (node_view node.now)) (forms_view fs.items))
        (spec.listed_refusal limits.now names.old.names (node_view node.now)) result }
{
    let parts = parts_of(node);
    must(Code::EMPTY_LIST, place_of(node), !is_empty(parts))?;
    let mut formulas = Vec::new(alloc);
    for part in parts {
        let formula = read_formula(alloc, limits, names, part)?;
        formulas.push(formula)?;
    }
    Ok(formulas)
}

/// Reads the conditions of a rule, of which `node` is the map of its detections. A map without `condition` is refused
/// 70. Of one condition, or each of a list, what is no text is refused 71, one with a `|` 61, one with too many words
/// that nest 62, one without a reading 60, and one with a name or selector that takes no detection 63 or 64; an empty
/// list is refused 78. Where the selectors of all conditions take more than 2^22 names, or would be compared with the names in
/// more than 2^30 steps, want of memory is answered.
pub fn read_conditions(alloc: Global, limits: &Limits, node: &Node) -> Result<Vec<Formula>, Fault>
    ensures judged { Judged (λ fs. spec.AreConditions (node_view node.now) (forms_view fs.items))
        (spec.conditions_refusal limits.now (node_view node.now)) result }
    ensures some { IfOk result (λ fs. HasElement (forms_view fs.items)) }
    ensures whole { IfOk result (λ fs. EachOf (IsWholeForm (length (spec.names_of (node_view node.now)))) (forms_view fs.items)) }
{
    let Some(value) = value_at(node, "condition") else {
        return Err(refused(Code::MISSING_KEY, place_of(node)));
    };
    let mut names = Names::number(alloc, copy_names(alloc, all_entries(node))?)?;
    read_listed(alloc, limits, &mut names, value)
}
