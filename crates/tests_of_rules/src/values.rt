//! Tests of what chains of modifiers make of values that a rule can't have, and of tests that no schema takes.

mod holding;
mod made;
