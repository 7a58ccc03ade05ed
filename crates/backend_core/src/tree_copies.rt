//! Copies of trees and of their tests.

ghost use Rattle.std.specs.Prelude.{◌≡◌, IfOk, IfErr};
ghost use Rattle.backend_core.specs.View.{tree_view};

use crate::tree::{Leaf, LeafTest, Tree};
use sig_base::{Fault, Text};
use std::alloc::Global;

impl LeafTest {
    /// The same test; only want of memory is answered.
    pub fn copy(&self, alloc: Global) -> Result<LeafTest, Fault>
        ensures ok { IfOk result (λ test. test ≡ self.now) }
        ensures err { IfErr result (λ e. e ≡ Fault.Memory) }
    {
        match self {
            LeafTest::Has => Ok(LeafTest::Has),
            LeafTest::Absent => Ok(LeafTest::Absent),
            LeafTest::Fits { pattern, cased } => {
                let pattern = pattern.copy()?;
                Ok(LeafTest::Fits {
                    pattern,
                    cased: *cased,
                })
            }
            LeafTest::Equals(number) => Ok(LeafTest::Equals(*number)),
            LeafTest::Compare { op, number } => Ok(LeafTest::Compare {
                op: *op,
                number: *number,
            }),
            LeafTest::SameAs(other) => Ok(LeafTest::SameAs(*other)),
            LeafTest::Finds(expression) => {
                let expression = Text::copy(alloc, expression.as_str())?;
                Ok(LeafTest::Finds(expression))
            }
        }
    }
}

impl Leaf {
    /// The same leaf; only want of memory is answered.
    pub fn copy(&self, alloc: Global) -> Result<Leaf, Fault>
        ensures ok { IfOk result (λ leaf. leaf ≡ self.now) }
        ensures err { IfErr result (λ e. e ≡ Fault.Memory) }
    {
        let test = self.test.copy(alloc)?;
        Ok(Leaf {
            field: self.field,
            test,
            place: self.place,
        })
    }
}

impl Tree {
    /// The same tree; only want of memory is answered.
    pub fn copy(&self, alloc: Global) -> Result<Tree, Fault>
        ensures ok { IfOk result (λ tree. tree_view tree ≡ tree_view self.now) }
        ensures err { IfErr result (λ e. e ≡ Fault.Memory) }
    {
        match self {
            Tree::All(parts) => {
                let mut copies = Vec::new(alloc);
                for part in parts {
                    copies.push(part.copy(alloc)?)?;
                }
                Ok(Tree::All(copies))
            }
            Tree::Any(parts) => {
                let mut copies = Vec::new(alloc);
                for part in parts {
                    copies.push(part.copy(alloc)?)?;
                }
                Ok(Tree::Any(copies))
            }
            Tree::Not(part) => {
                let copy = part.copy(alloc)?;
                Ok(Tree::Not(Box::new(alloc, copy)?))
            }
            Tree::Leaf(leaf) => Ok(Tree::Leaf(leaf.copy(alloc)?)),
            Tree::Never => Ok(Tree::Never),
        }
    }
}
