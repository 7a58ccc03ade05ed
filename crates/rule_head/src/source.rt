//! Where the events of a rule come from.

ghost use Rattle.std.specs.Prelude.{◌≡◌};
ghost use Rattle.sig_base.specs.Judged.{Judged};
ghost use Rattle.yaml_tree.specs.View.{node_view};
ghost use Rattle.rule_head.specs.Sources.{source_of, source_refusal};

use crate::checks::{Check, at_key, copy_at};
use sig_base::{Code, Fault, Text, must};
use std::alloc::Global;
use yaml_tree::{Node, has_key, is_map, place_of};

/// The log source of a rule, of which at least one part is given.
#[derive(Drop, Debug)]
pub struct LogSource {
    pub category: Option<Text>,
    pub product: Option<Text>,
    pub service: Option<Text>,
}

/// Checks the keys of a log source in their order.
fn check_source(node: &Node) -> Result<(), Fault>
    ensures { Judged (λ done. Unit {0}) (source_refusal (node_view node.now)) result }
{
    must(Code::WRONG_SHAPE, place_of(node), is_map(node))?;
    at_key(node, "category", Check::Text)?;
    at_key(node, "product", Check::Text)?;
    at_key(node, "service", Check::Text)?;
    let is_given = has_key(node, "category")
        || has_key(node, "product")
        || has_key(node, "service");
    must(Code::MISSING_KEY, place_of(node), is_given)
}

impl LogSource {
    /// Reads a log source. What is no map, or has a `category`, `product` or `service` that is no text, is refused 71
    /// there, and a map without any of these keys 70. Other keys are passed over.
    pub fn read(alloc: Global, node: &Node) -> Result<LogSource, Fault>
        ensures { Judged (λ s. s ≡ source_of (node_view node.now)) (source_refusal (node_view node.now)) result }
    {
        check_source(node)?;
        let category = copy_at(alloc, node, "category")?;
        let product = copy_at(alloc, node, "product")?;
        let service = copy_at(alloc, node, "service")?;
        Ok(LogSource {
            category,
            product,
            service,
        })
    }
}
