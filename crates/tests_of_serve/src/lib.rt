//! Tests of what no case of `rows` shows: each short list of words, and an engine that is lent.
#![tactic(auto)]

#[cfg(test)]
mod all_words;
#[cfg(test)]
mod following;
