//! A seed's rule, made ready for its events, and its tree.

ghost use Rattle.std.specs.Prelude.{◌≡◌, IfOk, IfErr};
ghost use Rattle.backend_core.specs.View.{tree_view};
ghost use Rattle.detection_eval.specs.Ready.{StandsFor};
ghost use Rattle.event_schema.specs.declared.schema.Schema as schemas;
ghost use Rattle.generate_run.specs.Events as spec;
ghost use Rattle.generate_run.specs.Rules.{rule_of};
ghost use Rattle.rule_lowering.specs.TreeOf.{tree_of};
ghost use Rattle.rule_model.specs.Plain.{rule_view};

use crate::builder::NoList;
use backend_core::Tree;
use detection_eval::Ready;
use event_schema::Schema;
use rule_lowering::lower;
use rule_model::Rule;
use sig_base::{Fault, Limits};
use std::alloc::Global;

/// The tree of a seed's rule; only want of memory is answered.
pub fn tree_for(
    alloc: Global,
    limits: &Limits,
    seed: u32,
    rule: &Rule,
    schema: &Schema,
) -> Result<Tree, Fault>
    requires limits { limits.now.leaves ≡ 16384 }
    requires rule { rule_view rule.now ≡ rule_of seed }
    requires schema { schema.now ≡ spec.schema }
    ensures ok { IfOk result (λ tree. tree_view tree ≡ tree_of spec.schema (rule_of seed)) }
    ensures err { IfErr result (λ e. e ≡ Fault.Memory) }
{
    lower(alloc, limits, rule, schema)
}

/// A seed's rule, ready for the events of the schema; only want of memory is answered.
pub fn ready_for(alloc: Global, seed: u32, rule: &Rule, schema: &Schema) -> Result<Ready, Fault>
    requires rule { rule_view rule.now ≡ rule_of seed }
    ensures ok { IfOk result (λ ready. StandsFor schema.now.fields (rule_of seed) ready) }
    ensures err { IfErr result (λ e. e ≡ Fault.Memory) }
{
    let mut builder = NoList;
    Ready::make(alloc, schema, rule, &mut builder)
}
