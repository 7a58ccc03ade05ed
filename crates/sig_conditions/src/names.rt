//! The names that conditions are over.

ghost use Rattle.std.specs.Prelude.{◌≡◌, ◌≤◌, ◌+◌, ◌*◌, ◌^◌, length, IfOk, IfErr, IfSome, OnOk};
ghost use Rattle.std.specs.Str.{chars};
ghost use Rattle.sig_conditions.specs.Conditions.{cond_view};
ghost use Rattle.sig_conditions.specs.Formulas.{faults, form_view, formula_of};
ghost use Rattle.sig_conditions.specs.Named.{selector_word};
ghost use Rattle.sig_conditions.specs.Resolved.{Resolves};
ghost use Rattle.sig_conditions.specs.Selectors as spec;
ghost use Rattle.sig_conditions.specs.Taken.{number_of, taken};

use crate::budget::{pay, pay_product};
use crate::condition::Condition;
use crate::formula::Formula;
use crate::numbers::{DetectionNumbers, copy_numbers};
use crate::resolver::resolve;
use crate::selector::Selector;
use crate::sizes::{names_size, selector_size};
use crate::taken_names::take_names;
use crate::unresolved::Unresolved;
use sig_base::{Fault, Text, Texts};
use std::alloc::Global;
use std::collections::BTreeMap;
use std::marker::Model;
use text_index::TextIndex;

/// So many names may be taken by the selectors of all conditions of a rule together: each is written into a formula.
const MOST_TAKEN: usize = 1 << 22;

/// In so many steps they may be compared with the names, where a word of k bytes is compared with a name of n bytes in
/// (k + 1) * (n + 1) steps.
const MOST_STEPS: usize = 1 << 30;

/// The names of a rule's detections in its order, each with its number, and what is known of the selectors that were
/// resolved over them. Contracts see the list of the names, how many selectors may still take, and the steps of comparing
/// that are left.
#[derive(Drop)]
pub struct Names {
    index: TextIndex,
    known: BTreeMap<String, DetectionNumbers>,
    size: usize,
    left: usize,
    steps: usize,
}

impl Model for Names {
    ghost use Rattle.sig_conditions.specs.Named.{IsKept, Named};

    ghost Value = { Named };

    ghost view = { λ n. record { names = n.index; left = n.left; steps = n.steps } };

    ghost invariant = { λ n. IsKept n.index n.known n.size };
}

/// The word that takes what a selector does.
fn selector_word(selector: &Selector) -> &str
    ensures { chars result.now ≡ selector_word selector.now }
{
    match selector {
        Selector::Them => "*",
        Selector::Names(word) => word.as_str(),
    }
}

impl Names {
    /// Numbers the names once for all conditions of a rule. More than 2^32 - 1 can't be numbered, which is want of
    /// memory.
    pub fn number(alloc: Global, texts: Texts) -> Result<Names, Fault>
        ensures ok { IfOk result (λ n. n ≡ record { names = texts; left = 2 ^ 22; steps = 2 ^ 30 }) }
        ensures err { IfErr result (λ e. e ≡ Fault.Memory) }
    {
        let size = names_size(texts.as_slice());
        let index = TextIndex::number(alloc, texts)?;
        Ok(Names {
            index,
            known: BTreeMap::new(alloc),
            size,
            left: MOST_TAKEN,
            steps: MOST_STEPS,
        })
    }

    /// The number of a name; of one that stands there twice the first.
    pub fn find(&self, name: &Text) -> Option<u32>
        ensures { result ≡ number_of name.now self.now.names }
    {
        self.index.find(name)
    }

    /// What a selector takes, where it was resolved before.
    fn known(
        &self,
        alloc: Global,
        selector: &Selector,
    ) -> Result<Option<DetectionNumbers>, Unresolved>
        ensures ok { IfOk result (λ known. IfSome known (λ all. all ≡ taken selector.now self.now.names)) }
        ensures err { IfErr result (λ e. e ≡ Unresolved.Memory) }
    {
        match self.known.get(selector_word(selector)) {
            Some(all) => Ok(Some(copy_numbers(alloc, all)?)),
            None => Ok(None),
        }
    }

    /// Keeps what a selector takes.
    fn keep(
        &mut self,
        alloc: Global,
        selector: &Selector,
        all: &DetectionNumbers,
    ) -> Result<(), Unresolved>
        requires { all.now ≡ taken selector.now self.old.names }
        ensures same { self.new ≡ self.old }
        ensures err { IfErr result (λ e. e ≡ Unresolved.Memory) }
    {
        let word = String::from_str(alloc, selector_word(selector))?;
        let copy = copy_numbers(alloc, all)?;
        self.known.insert(word, copy)?;
        Ok(())
    }

    /// Compares a selector with each name, where enough steps are left.
    fn compare(
        &mut self,
        alloc: Global,
        selector: &Selector,
    ) -> Result<DetectionNumbers, Unresolved>
        ensures taken { IfOk result (λ all. all ≡ taken selector.now self.old.names) }
        ensures steps { OnOk result (self.new.steps + spec.selector_size selector.now * spec.counted (spec.names_size self.old.names) ≡ self.old.steps) }
        ensures most { self.new.steps ≤ self.old.steps }
        ensures names { self.new.names ≡ self.old.names }
        ensures left { self.new.left ≡ self.old.left }
        ensures err { IfErr result (λ e. e ≡ Unresolved.Memory) }
    {
        self.steps = pay_product(self.steps, selector_size(selector), self.size)?;
        let all = take_names(alloc, selector, self.index.as_slice())?;
        self.keep(alloc, selector, &all)?;
        Ok(all)
    }

    /// The numbers of the names that a selector takes, which is compared with them the first time that it stands there.
    fn choose(&mut self, alloc: Global, selector: &Selector) -> Result<DetectionNumbers, Unresolved>
        ensures taken { IfOk result (λ all. all ≡ taken selector.now self.old.names) }
        ensures steps { self.new.steps ≤ self.old.steps }
        ensures names { self.new.names ≡ self.old.names }
        ensures left { self.new.left ≡ self.old.left }
        ensures err { IfErr result (λ e. e ≡ Unresolved.Memory) }
    {
        if let Some(all) = self.known(alloc, selector)? {
            return Ok(all);
        }
        self.compare(alloc, selector)
    }

    /// The numbers of the names that a selector takes, where so many may still be taken.
    pub fn take(
        &mut self,
        alloc: Global,
        selector: &Selector,
    ) -> Result<DetectionNumbers, Unresolved>
        ensures taken { IfOk result (λ all. all ≡ taken selector.now self.old.names) }
        ensures names { self.new.names ≡ self.old.names }
        ensures steps { self.new.steps ≤ self.old.steps }
        ensures most { self.new.left ≤ self.old.left }
        ensures left { OnOk result (self.new.left + length (taken selector.now self.old.names) ≡ self.old.left) }
        ensures err { IfErr result (λ e. e ≡ Unresolved.Memory) }
    {
        let all = self.choose(alloc, selector)?;
        self.left = pay(self.left, all.as_slice().len())?;
        Ok(all)
    }

    /// The formula of a condition over these names.
    pub fn resolve(&mut self, alloc: Global, condition: &Condition) -> Result<Formula, Unresolved>
        ensures formula { Resolves form_view result (formula_of self.old.names (cond_view condition.now)) (faults self.old.names (cond_view condition.now)) }
        ensures names { self.new.names ≡ self.old.names }
        ensures steps { self.new.steps ≤ self.old.steps }
        ensures most { self.new.left ≤ self.old.left }
        ensures left { OnOk result (self.new.left + spec.taken_count self.old.names (cond_view condition.now) ≡ self.old.left) }
    {
        resolve(alloc, condition, self)
    }
}
