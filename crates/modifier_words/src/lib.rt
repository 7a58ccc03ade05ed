//! Chains of modifiers: their words, which of them stand together, and what kind of chain they make.
#![tactic(auto)]

pub use chain::Chain;
pub use form::{ChainForm, Flags};
pub use laws::{common_chains, encodings_stand_apart};
pub use modifier::{Encoding, Flag, Joined, Modifier, Op, Position};

mod chain;
mod chain_rules;
mod chain_words;
mod form;
mod laws;
mod modifier;
