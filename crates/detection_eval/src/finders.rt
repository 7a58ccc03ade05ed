//! Searches with the regular expressions of a rule.

ghost use Rattle.std.specs.Prelude.{◌≡◌, ◌↔◌, true, IsTrue, IfOk, IfErr};
ghost use Rattle.event_schema.specs.Lists.{SomeOf};
ghost use Rattle.event_schema.specs.Rows.{value_text};
ghost use Rattle.query_lang.specs.Patterns.{finds};
ghost use Rattle.detection_eval.specs.Ready.{SomeFound, searches_view};

use event_schema::{Value, decimal_in};
use itoa::Buffer;
use query_lang::{Finder, Search};
use sig_base::Fault;
use std::alloc::Global;
use std::marker::Model;

/// What searches with the regular expressions of a rule, in their order. It has all memory that searches take; contracts see the
/// list of the regular expressions.
#[derive(Drop)]
pub struct Finders<'r> {
    all: Vec<Finder<'r>>,
}

impl<'r> Model for Finders<'r> {
    ghost use Rattle.std.specs.Prelude.{List, ℕ, map};

    ghost Value = { List (List ℕ) };

    ghost view = { λ f. map (λ x. x.text.now) f.all.items };
}

/// Whether a regular expression has a match in a value's text, or in a number's decimal.
fn finds_in(finder: &mut Finder<'_>, value: &Value) -> bool
    ensures found { result ≡ finds finder.old.text.now (value_text value.now) }
    ensures same { finder.new.text.now ≡ finder.old.text.now }
{
    match value {
        Value::Text(text) => finder.finds(text.as_str()),
        Value::Whole(number) => {
            let mut buffer = Buffer::new();
            finder.finds(decimal_in(&mut buffer, *number))
        }
    }
}

/// Whether a regular expression has a match in some value.
#[tactic(auto, using(crate::proofs::Going::some_ends))]
fn finds_in_some(finder: &mut Finder<'_>, values: &[Value]) -> bool
    ensures found { IsTrue result ↔ SomeOf (λ value. finds finder.old.text.now (value_text value) ≡ true) values.now }
    ensures same { finder.new.text.now ≡ finder.old.text.now }
{
    for value in values {
        if finds_in(finder, value) {
            return true;
        }
    }
    false
}

impl<'r> Finders<'r> {
    /// What searches with each of these regular expressions; only want of memory is answered.
    pub fn of(alloc: Global, searches: &'r [Search]) -> Result<Finders<'r>, Fault>
        ensures ok { IfOk result (λ finders. finders ≡ searches_view searches.now) }
        ensures err { IfErr result (λ e. e ≡ Fault.Memory) }
    {
        let mut all = Vec::with_capacity(alloc, searches.len())?;
        for search in searches {
            all.push(search.finder(alloc)?)?;
        }
        Ok(Finders { all })
    }

    /// Whether the regular expression of this number has a match in some value.
    pub fn find_in_some(&mut self, number: u32, values: &[Value]) -> bool
        ensures found { IsTrue result ↔ SomeFound self.old number values.now }
        ensures same { self.new ≡ self.old }
    {
        let number = number as usize;
        if number >= self.all.len() {
            return false;
        }
        finds_in_some(&mut self.all[number], values)
    }
}
