//! Checking documents of rule files.

ghost use Rattle.std.specs.Prelude.{◌≡◌, []};
ghost use Rattle.correlation_files.specs.Checked.{check_refusal};
ghost use Rattle.pipeline_run.specs.Chained.{Makes};
ghost use Rattle.rule_regex.specs.ForUnbuilt.{ForUnbuilt, is_answered};
ghost use Rattle.sig_base.specs.Judged.{Judged};
ghost use Rattle.yaml_tree.specs.Nodes.{place_of};
ghost use Rattle.yaml_tree.specs.View.{node_view};

use correlation_read::Correlation;
use query_lang::Builder;
use rule_model::Rule;
use rule_regex::find_unbuilt;
use sig_base::{Fault, Limits, Place};
use std::alloc::Global;
use yaml_tree::{Node, has_key, place_of};

/// Checks a document as a correlation, where it has the key `correlation`, or else as a rule, where the places are found at which its
/// regular expressions aren't built.
fn check_found(
    alloc: Global,
    limits: &Limits,
    unbuilt: &[Place],
    node: &Node,
) -> Result<Place, Fault>
    ensures { Judged (λ place. place ≡ place_of (node_view node.now)) (check_refusal unbuilt.now limits.now (node_view node.now)) result }
{
    if has_key(node, "correlation") {
        return match Correlation::read(alloc, node) {
            Ok(_) => Ok(place_of(node)),
            Err(fault) => Err(fault),
        };
    }
    match Rule::read_bare(alloc, limits, unbuilt, node) {
        Ok(_) => Ok(place_of(node)),
        Err(fault) => Err(fault),
    }
}

/// The place of a document's top node, where the document is a rule or a correlation; its regular expressions are built first. Else it's
/// refused as a correlation, where it has the key `correlation`, or else as a rule. What a correlation names isn't looked for.
pub fn check_document<B: Builder>(
    alloc: Global,
    limits: &Limits,
    node: &Node,
    builder: &mut B,
) -> Result<Place, Fault>
    ensures { ForUnbuilt (Makes limits.now []) limits.now (node_view node.now) (B.refused builder.old) (B.refused builder.new) (is_answered result)
        (λ unbuilt. Judged (λ place. place ≡ place_of (node_view node.now)) (check_refusal unbuilt.values limits.now (node_view node.now)) result) }
{
    match find_unbuilt(alloc, limits, node, builder) {
        Ok(unbuilt) => check_found(alloc, limits, unbuilt.as_slice(), node),
        Err(fault) => Err(fault),
    }
}
