//! Copies of tests.

ghost use Rattle.std.specs.Prelude.{◌≡◌, IfOk, IfErr};

use crate::test::Test;
use sig_base::{Fault, Text, TryCopy};
use std::alloc::Global;

impl Test {
    /// The same test; only want of memory is answered.
    pub fn copy(&self, alloc: Global) -> Result<Test, Fault>
        ensures ok { IfOk result (λ test. test ≡ self.now) }
        ensures err { IfErr result (λ e. e ≡ Fault.Memory) }
    {
        match self {
            Test::Absent => Ok(Test::Absent),
            Test::Exists(exists) => Ok(Test::Exists(*exists)),
            Test::Equals(number) => Ok(Test::Equals(*number)),
            Test::Inside(network) => Ok(Test::Inside(network.copy())),
            Test::Compare { op, number } => Ok(Test::Compare {
                op: *op,
                number: *number,
            }),
            Test::SameAs(name) => Ok(Test::SameAs(Text::copy(alloc, name.as_str())?)),
            Test::Finds { text, flags } => Ok(Test::Finds {
                text: Text::copy(alloc, text.as_str())?,
                flags: *flags,
            }),
            Test::Fits { pattern, cased } => {
                let pattern = pattern.copy()?;
                Ok(Test::Fits {
                    pattern,
                    cased: *cased,
                })
            }
        }
    }
}

impl TryCopy for Test {
    fn try_copy(&self, alloc: Global) -> Result<Test, Fault> {
        self.copy(alloc)
    }
}
