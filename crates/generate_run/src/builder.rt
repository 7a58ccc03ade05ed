//! A builder for queries without regular expressions.

ghost use Rattle.std.specs.Prelude.{⊤, []};

use query_lang::{BuildFault, Builder};
use regex::Regex;
use std::alloc::Global;

/// Builds by `Regex::new`, and keeps no list of texts: one that isn't built is answered as want of memory. It's for rules and queries
/// without regular expressions, where it's asked for none.
#[derive(Drop)]
pub struct NoList;

impl Builder for NoList {
    ghost refused = { λ builder. [] };

    ghost has_built = { λ builder text. ⊤ };

    fn build(&mut self, alloc: Global, pattern: &str) -> Result<Regex, BuildFault> {
        match Regex::new(alloc, pattern) {
            Ok(regex) => Ok(regex),
            Err(_) => Err(BuildFault::Memory),
        }
    }
}
