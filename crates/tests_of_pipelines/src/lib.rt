//! Tests of steps on rules, and of rules over events and their trees, that no files give.
#![tactic(auto)]

#[cfg(test)]
mod steps;
#[cfg(test)]
mod told;
#[cfg(test)]
mod unlike;
