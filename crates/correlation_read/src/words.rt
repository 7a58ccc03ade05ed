//! The words of correlations.

ghost use Rattle.std.specs.Prelude.{◌≡◌};
ghost use Rattle.correlation_read.specs.Words as spec;

use correlation_windows::{CorrelationKind, Op};
use sig_base::Text;

/// The type of this name.
pub(crate) fn kind_of(word: &Text) -> Option<CorrelationKind>
    ensures { result ≡ spec.kind_of word.now }
{
    if word.is("event_count") {
        return Some(CorrelationKind::EventCount);
    }
    if word.is("value_count") {
        return Some(CorrelationKind::ValueCount);
    }
    if word.is("temporal") {
        return Some(CorrelationKind::Temporal);
    }
    if word.is("temporal_ordered") {
        return Some(CorrelationKind::TemporalOrdered);
    }
    None
}

/// The comparison of this name.
pub(crate) fn op_of(word: &Text) -> Option<Op>
    ensures { result ≡ spec.op_of word.now }
{
    if word.is("gt") {
        return Some(Op::Gt);
    }
    if word.is("gte") {
        return Some(Op::Gte);
    }
    if word.is("lt") {
        return Some(Op::Lt);
    }
    if word.is("lte") {
        return Some(Op::Lte);
    }
    if word.is("eq") {
        return Some(Op::Eq);
    }
    None
}

/// Whether a correlation of this type has a condition.
pub(crate) fn counts(kind: CorrelationKind) -> bool
    ensures { result ≡ spec.counts kind }
{
    match kind {
        CorrelationKind::EventCount | CorrelationKind::ValueCount => true,
        CorrelationKind::Temporal | CorrelationKind::TemporalOrdered => false,
    }
}

/// Whether its condition names a field.
pub(crate) fn counts_values(kind: CorrelationKind) -> bool
    ensures { result ≡ spec.counts_values kind }
{
    match kind {
        CorrelationKind::ValueCount => true,
        CorrelationKind::EventCount
        | CorrelationKind::Temporal
        | CorrelationKind::TemporalOrdered => false,
    }
}
