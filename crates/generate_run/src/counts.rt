//! How many events are selected.

ghost use Rattle.std.specs.Prelude.{◌≡◌, ◌+◌, ◌<◌, ◌^◌};

/// By the rule, by its SQL query, and by its Lucene query.
#[derive(Clone, Copy, Debug, PartialEq, Eq)]
pub struct Counts {
    pub rule: u64,
    pub sqlite: u64,
    pub lucene: u64,
}

impl Counts {
    /// Both counts together.
    pub fn plus(self, more: Counts) -> Counts
        requires rule { self.rule + more.rule < 2 ^ 64 }
        requires sqlite { self.sqlite + more.sqlite < 2 ^ 64 }
        requires lucene { self.lucene + more.lucene < 2 ^ 64 }
        ensures rule { result.rule ≡ self.rule + more.rule }
        ensures sqlite { result.sqlite ≡ self.sqlite + more.sqlite }
        ensures lucene { result.lucene ≡ self.lucene + more.lucene }
    {
        Counts {
            rule: self.rule + more.rule,
            sqlite: self.sqlite + more.sqlite,
            lucene: self.lucene + more.lucene,
        }
    }
}
