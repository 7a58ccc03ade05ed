//! Searches with the regular expressions of a query.

ghost use Rattle.std.specs.Prelude.{◌≡◌, ◌++◌, ◌∷◌, [], ℕ, List, true, OnOk, IfErr};
ghost use Rattle.std.specs.Str.{chars};
ghost use Rattle.query_lang.specs.Patterns.{finds};
ghost use Rattle.sql_eval.specs.Searches.{left_of, Passes};

use query_lang::{Finder, Search};
use sig_base::Fault;
use std::alloc::Global;
use std::marker::Model;

/// What searches with the regular expressions of a query, in their order, and how many of them are passed. It has all memory that
/// searches take.
#[derive(Drop)]
pub struct Finders<'q> {
    finders: Vec<Finder<'q>>,
    passed: usize,
}

impl<'q> Model for Finders<'q> {
    ghost use Rattle.std.specs.Prelude.{map};
    ghost use Rattle.sql_eval.specs.Searches.{Passing};

    ghost Value = { Passing };

    ghost view = { λ f. record { texts = map (λ x. x.text.now) f.finders.items; passed = f.passed } };
}

impl<'q> Finders<'q> {
    /// Without a regular expression, which takes no memory.
    pub fn new(alloc: Global) -> Finders<'q>
        ensures { result.texts ≡ [] }
    {
        Finders {
            finders: Vec::new(alloc),
            passed: 0,
        }
    }

    /// Adds a regular expression behind all others; only want of memory is answered.
    pub fn push(&mut self, alloc: Global, search: &'q Search) -> Result<(), Fault>
        ensures ok { OnOk result (self.new.texts ≡ self.old.texts ++ search.now.text ∷ []) }
        ensures err { IfErr result (λ e. e ≡ Fault.Memory) }
    {
        let finder = search.finder(alloc)?;
        self.finders.push(finder)?;
        Ok(())
    }

    /// Begins again with the first one.
    pub fn rewind(&mut self)
        ensures texts { self.new.texts ≡ self.old.texts }
        ensures left { left_of self.new ≡ self.old.texts }
    {
        self.passed = 0;
    }

    /// Whether all are passed.
    pub fn is_done(&self) -> bool
        ensures { result ≡ true → left_of self.now ≡ [] }
    {
        self.passed >= self.finders.len()
    }

    /// Passes the next one.
    pub fn pass(&mut self)
        ensures texts { self.new.texts ≡ self.old.texts }
        ensures passes { (text : List ℕ) → Passes (text ∷ []) (left_of self.old) (left_of self.new) }
    {
        if self.passed < self.finders.len() {
            self.passed += 1;
        }
    }

    /// Whether the next one has a match in a value; it's passed.
    pub fn finds(&mut self, value: &str) -> bool
        ensures texts { self.new.texts ≡ self.old.texts }
        ensures found { (text : List ℕ) (rest : List (List ℕ)) → left_of self.old ≡ text ∷ rest
            → (result ≡ finds text (chars value.now)) × (left_of self.new ≡ rest) }
    {
        let next = self.passed;
        if next >= self.finders.len() {
            return false;
        }
        self.passed = next + 1;
        self.finders[next].finds(value)
    }
}
