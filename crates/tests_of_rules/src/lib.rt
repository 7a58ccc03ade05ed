//! Tests of what no command shows of YAML, of rules, of what modifiers make of values, of building regular expressions, of the schemas
//! that rules fit, and of small crates. What a command shows is a case of the crate `rows`.
#![tactic(auto)]

#[cfg(test)]
mod below;
#[cfg(test)]
mod building;
#[cfg(test)]
mod detections;
#[cfg(test)]
mod heads;
#[cfg(test)]
mod rules;
#[cfg(test)]
mod schemas;
#[cfg(test)]
mod tables;
#[cfg(test)]
mod values;
#[cfg(test)]
mod yaml;
