//! The regular expressions that tests search for.

ghost use Rattle.std.specs.Prelude.{◌≡◌, is_some, IfOk, IfErr};
ghost use Rattle.rule_detections.specs.TestExpressions.{expression_of};

use crate::test::Test;
use modifier_values::expression_text;
use sig_base::{Fault, Text};
use std::alloc::Global;

impl Test {
    /// The regular expression that the test searches for, if it searches for one; only want of memory is answered.
    pub fn expression(&self, alloc: Global) -> Result<Option<Text>, Fault>
        ensures ok { IfOk result (λ e. e ≡ expression_of self.now) }
        ensures err { IfErr result (λ e. e ≡ Fault.Memory) }
    {
        match self {
            Test::Finds { text, flags } => Ok(Some(expression_text(alloc, *flags, text.as_str())?)),
            _ => Ok(None),
        }
    }

    /// Whether the test searches for a regular expression; takes no memory.
    pub fn is_expression(&self) -> bool
        ensures { result ≡ is_some (expression_of self.now) }
    {
        match self {
            Test::Finds { .. } => true,
            Test::Absent
            | Test::Exists(_)
            | Test::Fits { .. }
            | Test::Equals(_)
            | Test::Inside(_)
            | Test::Compare { .. }
            | Test::SameAs(_) => false,
        }
    }
}
