//! The keys of a map that were read, to find them again.

ghost use Rattle.std.specs.Prelude.{◌≡◌, ℕ, not, false, ◌||◌, List, true, encode_utf8_all, IfOk, OnOk};
ghost use Rattle.std.specs.Str.{bytes_eq, all_scalars};

use sig_base::Text;
use std::alloc::{AllocError, Global};
use std::collections::BTreeSet;

/// A set of keys.
#[derive(Drop)]
pub struct Seen {
    keys: BTreeSet<String>,
}

impl Seen {
    ghost use Rattle.yaml_inline.specs.SeenKeys.{has_bytes};

    /// No keys.
    pub fn new(alloc: Global) -> Seen
        ensures { (bs : List ℕ) → has_bytes result bs ≡ false }
    {
        Seen {
            keys: BTreeSet::new(alloc),
        }
    }

    /// Adds a key, and says whether it is new.
    pub fn insert(&mut self, alloc: Global, key: &Text) -> Result<bool, AllocError>
        ensures fresh { IfOk result (λ fresh. fresh ≡ not (has_bytes self.old (encode_utf8_all key.now))) }
        ensures keys { OnOk result ((bs : List ℕ) → has_bytes self.new bs ≡ (bytes_eq (encode_utf8_all key.now) bs || has_bytes self.old bs)) }
        ensures scalars { all_scalars key.now ≡ true }
    {
        let text = key.as_str();
        let owned = String::from_str(alloc, text)?;
        Ok(self.keys.insert(owned)?)
    }
}
