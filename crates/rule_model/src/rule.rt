//! Rules.

ghost use Rattle.std.specs.Prelude.{◌≡◌, [], IfOk};
ghost use Rattle.sig_base.specs.Judged.{Judged};
ghost use Rattle.yaml_tree.specs.View.{node_view};
ghost use Rattle.rule_model.specs.Plain.{rule_with};
ghost use Rattle.rule_head.specs.Heads.{rest_of};
ghost use Rattle.rule_model.specs.Plain.{rule_view};
ghost use Rattle.rule_model.specs.Rules.{IsRule, rule_refusal, correlation_refusal, lone_refusal};
ghost use Rattle.rule_model.specs.Whole.{IsWhole};

use crate::conditions::read_conditions;
use rule_detections::{Detections, read_detections};
use rule_head::{Head, LogSource, copy_rest};
use sig_base::{Code, Fault, Limits, Place, refused};
use sig_conditions::Formula;
use std::alloc::Global;
use yaml_tree::{Node, all_entries, has_key, place_of, value_at};

/// A rule matches an event where one of its conditions is true of its detections.
#[derive(Drop)]
pub struct Rule {
    pub head: Head,
    pub source: LogSource,
    pub detections: Detections,
    pub conditions: Vec<Formula>,
}

impl Rule {
    /// Reads the rule that a document is. What is refused first is answered: the head's keys in their order, then
    /// the log source, then the detections by place, and then the conditions. A missing `logsource` or `detection`
    /// is refused 70 at the document's node. `unbuilt` are the places of values at which no regular expression is built.
    pub fn read(
        alloc: Global,
        limits: &Limits,
        unbuilt: &[Place],
        node: &Node,
    ) -> Result<Rule, Fault>
        ensures judged { Judged (λ r. IsRule (node_view node.now) (rule_view r)) (rule_refusal unbuilt.now limits.now (node_view node.now)) result }
        ensures whole { IfOk result (λ r. IsWhole (rule_view r)) }
    {
        let mut rule = Rule::read_bare(alloc, limits, unbuilt, node)?;
        rule.head.rest = copy_rest(alloc, all_entries(node))?;
        Ok(rule)
    }

    /// Reads a rule as `read` does, but for the entries that its head keeps as they are: `rest` is empty. It takes no copy
    /// of the document, and the rule has the same meaning and the same query.
    pub fn read_bare(
        alloc: Global,
        limits: &Limits,
        unbuilt: &[Place],
        node: &Node,
    ) -> Result<Rule, Fault>
        ensures judged { Judged (λ r. IsRule (node_view node.now) (rule_with (rest_of (node_view node.now)) (rule_view r)))
            (rule_refusal unbuilt.now limits.now (node_view node.now)) result }
        ensures bare { IfOk result (λ r. (rule_view r).head.rest ≡ []) }
        ensures whole { IfOk result (λ r. IsWhole (rule_view r)) }
    {
        let head = Head::read_bare(alloc, node)?;
        let Some(source) = value_at(node, "logsource") else {
            return Err(refused(Code::MISSING_KEY, place_of(node)));
        };
        let source = LogSource::read(alloc, source)?;
        let Some(detection) = value_at(node, "detection") else {
            return Err(refused(Code::MISSING_KEY, place_of(node)));
        };
        let conditions = read_conditions(alloc, limits, detection);
        let detections = read_detections(alloc, limits, unbuilt, detection)?;
        let conditions = conditions?;
        Ok(Rule {
            head,
            source,
            detections,
            conditions,
        })
    }

    /// Reads a rule as `read_bare` does, where it is to have a query or to be run: before all else a correlation is refused,
    /// 146 at the document's node.
    pub fn read_lone(
        alloc: Global,
        limits: &Limits,
        unbuilt: &[Place],
        node: &Node,
    ) -> Result<Rule, Fault>
        ensures judged { Judged (λ r. IsRule (node_view node.now) (rule_with (rest_of (node_view node.now)) (rule_view r)))
            (lone_refusal unbuilt.now limits.now (node_view node.now)) result }
        ensures bare { IfOk result (λ r. (rule_view r).head.rest ≡ []) }
        ensures whole { IfOk result (λ r. IsWhole (rule_view r)) }
    {
        refuse_correlation(node)?;
        Rule::read_bare(alloc, limits, unbuilt, node)
    }
}

/// Refuses a correlation, 146 at the document's node.
fn refuse_correlation(node: &Node) -> Result<(), Fault>
    ensures { Judged (λ done. Unit {0}) (correlation_refusal (node_view node.now)) result }
{
    if has_key(node, "correlation") {
        return Err(refused(Code::CORRELATION_HERE, place_of(node)));
    }
    Ok(())
}
