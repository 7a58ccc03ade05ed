//! Where the regular expressions of a document aren't built.

ghost use Rattle.std.specs.Prelude.{◌≡◌, ℕ, true, List, IfOk};
ghost use Rattle.rule_regex.specs.Building.{TellsBuilt, FoundUnbuilt, AreBuiltOrFound, places_in};
ghost use Rattle.rule_model.specs.Expressions.{document_expressions};
ghost use Rattle.yaml_tree.specs.View.{node_view};

use query_lang::{BuildFault, Builder};
use rule_detections::Expression;
use rule_model::find_expressions;
use sig_base::{Fault, Limits, Place, Text};
use std::alloc::Global;
use yaml_tree::Node;

/// Whether the regular expression of a text is built; only want of memory is answered otherwise.
pub(crate) fn is_built<B: Builder>(
    alloc: Global,
    builder: &mut B,
    text: &Text,
) -> Result<bool, Fault>
    ensures tells { TellsBuilt (B.refused builder.old) (B.refused builder.new) text.now result }
    ensures built { IfOk result (λ yes. yes ≡ true → B.has_built builder.new text.now) }
    ensures keeps { (built : List ℕ) → B.has_built builder.old built → B.has_built builder.new built }
{
    match builder.build(alloc, text.as_str()) {
        Ok(_) => Ok(true),
        Err(BuildFault::Memory) => Err(Fault::Memory),
        Err(BuildFault::Syntax) => Ok(false),
        Err(BuildFault::Refused) => Ok(false),
    }
}

/// The places of those of these regular expressions that aren't built. Only want of memory is answered.
pub fn find_unbuilt_among<B: Builder>(
    alloc: Global,
    expressions: &[Expression],
    builder: &mut B,
) -> Result<Vec<Place>, Fault>
    ensures found { FoundUnbuilt expressions.now (B.refused builder.old) (B.refused builder.new) (places_in result) }
    ensures built { IfOk result (λ places. AreBuiltOrFound (B.has_built builder.new) places.items expressions.now) }
{
    let mut unbuilt = Vec::new(alloc);
    for expression in expressions {
        if is_built(alloc, builder, &expression.text)? {
            continue;
        }
        unbuilt.push(expression.place)?;
    }
    Ok(unbuilt)
}

/// The places of the values in a document whose regular expressions aren't built. Only want of memory is answered.
pub fn find_unbuilt<B: Builder>(
    alloc: Global,
    limits: &Limits,
    node: &Node,
    builder: &mut B,
) -> Result<Vec<Place>, Fault>
    ensures found { FoundUnbuilt (document_expressions limits.now (node_view node.now)) (B.refused builder.old) (B.refused builder.new) (places_in result) }
    ensures built { IfOk result (λ places. AreBuiltOrFound (B.has_built builder.new) places.items (document_expressions limits.now (node_view node.now))) }
{
    let expressions = find_expressions(alloc, limits, node)?;
    find_unbuilt_among(alloc, expressions.as_slice(), builder)
}
