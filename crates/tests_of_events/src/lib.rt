//! Tests of what no case of `rows` shows: how many matches an engine holds, lines that a command of the tests' own follows, an empty
//! line that is read, and a report of the highest numbers.
#![tactic(auto)]

#[cfg(test)]
mod engine;
#[cfg(test)]
mod files;
#[cfg(test)]
mod reading;
#[cfg(test)]
mod reports;
#[cfg(test)]
mod telling;
#[cfg(test)]
mod windows;
