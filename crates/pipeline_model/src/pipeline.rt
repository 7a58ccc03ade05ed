//! Pipelines.

use crate::step::Step;
use sig_base::{Sequence, Text, Texts};

/// A variable: what a placeholder of this name stands for.
#[derive(Drop, Debug)]
pub struct Var {
    pub name: Text,
    pub values: Texts,
}

/// A pipeline; of several, those of the lowest priority are run first.
#[derive(Drop, Debug)]
pub struct Pipeline {
    pub name: Text,
    pub priority: i64,
    pub vars: Sequence<Var>,
    pub steps: Sequence<Step>,
}
