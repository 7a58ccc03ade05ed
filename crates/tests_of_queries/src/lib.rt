//! Tests of queries that no file gives: of builders, of a language and of a backend that are made for tests, of seeds' rules and
//! events, and of calls that the program doesn't make.
#![tactic(auto)]

#[cfg(test)]
mod asking;
#[cfg(test)]
mod backends;
#[cfg(test)]
mod builders;
#[cfg(test)]
mod comparing;
#[cfg(test)]
mod lucene;
#[cfg(test)]
mod meanings;
#[cfg(test)]
mod seeds;
#[cfg(test)]
mod small;
#[cfg(test)]
mod sql;
#[cfg(test)]
mod tables;
#[cfg(test)]
mod wanting;
