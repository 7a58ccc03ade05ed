//! What follows from the definitions, for the proofs of callers.

ghost use Rattle.correlation_read.specs.Laws.{EachRead, NeverBoth, OneRead, ReadWithin, EachBound, NeverBound, OneBound, BoundWithin, BoundThere};

/// Each document is one correlation, or is refused for one cause.
pub fn one_correlation()
    ensures each { EachRead }
    ensures never_both { NeverBoth }
    ensures one { OneRead }
{}

/// Each correlation is bound once to rules and fields, or is refused for one cause.
pub fn one_bound()
    ensures each { EachBound }
    ensures never_both { NeverBound }
    ensures one { OneBound }
    ensures there { BoundThere }
{}

/// What is read and bound has at most 64 rules, and a timespan from 1 to 2^100 nanoseconds.
pub fn bounds_are_within()
    ensures read { ReadWithin }
    ensures bound { BoundWithin }
{}
