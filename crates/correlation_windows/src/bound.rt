//! Correlations bound to rules and fields.

use sig_base::Sequence;

/// What a correlation asks of a window, named as Sigma's `type`.
#[derive(Clone, Copy, Debug, PartialEq, Eq)]
pub enum CorrelationKind {
    EventCount,
    ValueCount,
    Temporal,
    TemporalOrdered,
}

/// How a condition compares, named as Sigma's `lt`, `lte`, `gt`, `gte` and `eq`.
#[derive(Clone, Copy, Debug, PartialEq, Eq)]
pub enum Op {
    Lt,
    Lte,
    Gt,
    Gte,
    Eq,
}

/// A correlation whose rules and fields are numbers. Each listed rule has the fields of its group beside it, and the
/// span is in nanoseconds.
#[derive(Drop, Debug)]
pub struct Bound {
    pub kind: CorrelationKind,
    pub rules: Sequence<u32>,
    pub groups: Sequence<Sequence<u32>>,
    pub span: i128,
    pub condition: Sequence<(Op, u64)>,
    pub counted: Option<u32>,
}
