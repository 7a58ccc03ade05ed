//! Copies of rules.

ghost use Rattle.std.specs.Prelude.{◌≡◌, IfOk, IfErr};
ghost use Rattle.rule_model.specs.Plain.{rule_view};

use crate::rule::Rule;
use sig_base::{Fault, TryCopy};
use sig_conditions::copy_formulas;
use std::alloc::Global;

impl Rule {
    /// The same rule; only want of memory is answered.
    pub fn copy(&self, alloc: Global) -> Result<Rule, Fault>
        ensures ok { IfOk result (λ r. rule_view r ≡ rule_view self.now) }
        ensures err { IfErr result (λ e. e ≡ Fault.Memory) }
    {
        let head = self.head.copy(alloc)?;
        let source = self.source.copy(alloc)?;
        let detections = self.detections.try_copy(alloc)?;
        let conditions = copy_formulas(alloc, &self.conditions)?;
        Ok(Rule {
            head,
            source,
            detections,
            conditions,
        })
    }
}
