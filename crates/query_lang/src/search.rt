//! Regular expressions that are built, and searches with them.

ghost use Rattle.std.specs.Prelude.{◌≡◌, true, IfOk, IfErr};
ghost use Rattle.std.specs.Str.{chars};
ghost use Rattle.query_lang.specs.Built.{IsBuilt, IsFinder};

use crate::builder::{BuildFault, Builder};
use regex::{Matcher, Regex};
use sig_base::{Code, Fault, Place, Text, refused};
use std::alloc::Global;
use std::fmt;

/// A regular expression, and the text that it was built of.
#[derive(Drop)]
pub struct Search {
    pub text: Text,
    pub regex: Regex,
    pub ghost built: { ∥ IsBuilt text regex ∥₁ },
}

/// What searches with a regular expression: it has the memory that searches take, so it is made once for many values.
#[derive(Drop)]
pub struct Finder<'s> {
    pub text: &'s Text,
    pub matcher: Matcher<'s>,
    pub ghost same: { ∥ IsFinder text.now matcher ∥₁ },
}

impl Search {
    ghost use Rattle.query_lang.specs.Patterns.{finds, is_pattern};
    ghost use Rattle.query_lang.specs.Built.{BuildAnswers, SearchAnswers};

    /// Builds the regular expression of a text. What is built is a pattern.
    #[tactic(auto, using(crate::proofs::Finding::built_is_pattern))]
    pub fn build<B: Builder>(
        alloc: Global,
        builder: &mut B,
        text: Text,
    ) -> Result<Search, BuildFault>
        ensures text { IfOk result (λ search. search.text ≡ text) }
        ensures pattern { IfOk result (λ search. is_pattern search.text ≡ true) }
        ensures refused { BuildAnswers (B.refused builder.old) (B.refused builder.new) text result }
    {
        let regex = builder.build(alloc, text.as_str())?;
        Ok(Search { text, regex })
    }

    /// Builds the regular expression of a text that stands at a place, where it may be refused with 47 or 48.
    pub fn read<B: Builder>(
        alloc: Global,
        builder: &mut B,
        text: Text,
        place: Place,
    ) -> Result<Search, Fault>
        ensures text { IfOk result (λ search. search.text ≡ text) }
        ensures pattern { IfOk result (λ search. is_pattern search.text ≡ true) }
        ensures refused { SearchAnswers (B.refused builder.old) (B.refused builder.new) text place result }
    {
        match Search::build(alloc, builder, text) {
            Ok(search) => Ok(search),
            Err(BuildFault::Memory) => Err(Fault::Memory),
            Err(BuildFault::Syntax) => Err(refused(Code::REGEX_SYNTAX, place)),
            Err(BuildFault::Refused) => Err(refused(Code::REGEX_REFUSED, place)),
        }
    }

    /// What searches with it; only want of memory is answered.
    pub fn finder(&self, alloc: Global) -> Result<Finder<'_>, Fault>
        ensures text { IfOk result (λ finder. finder.text.now ≡ self.now.text) }
        ensures err { IfErr result (λ e. e ≡ Fault.Memory) }
    {
        let matcher = self.regex.matcher(alloc)?;
        Ok(Finder {
            text: &self.text,
            matcher,
        })
    }

    /// Whether it has a match in one value; only want of memory is answered.
    pub fn finds(&self, alloc: Global, value: &str) -> Result<bool, Fault>
        ensures ok { IfOk result (λ found. found ≡ finds self.now.text (chars value.now)) }
        ensures err { IfErr result (λ e. e ≡ Fault.Memory) }
    {
        let mut finder = self.finder(alloc)?;
        Ok(finder.finds(value))
    }
}

impl<'s> Finder<'s> {
    ghost use Rattle.query_lang.specs.Patterns.{finds};

    /// Whether the regular expression has a match in a value.
    pub fn finds(&mut self, value: &str) -> bool
        ensures found { result ≡ finds self.old.text.now (chars value.now) }
        ensures same { self.new.text.now ≡ self.old.text.now }
    {
        self.matcher.is_match(value)
    }
}

impl fmt::Debug for Search {
    fn fmt<W: fmt::Write>(&self, f: &mut fmt::Formatter<W>) -> fmt::Result {
        f.debug_tuple("Search").field(&self.text).finish()
    }
}
