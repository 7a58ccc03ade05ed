//! A condition's text cut into words.

ghost use Rattle.std.specs.Prelude.{◌≡◌, ◌++◌, ◌==◌, ◌∷◌, [], ℕ, List, IfOk, OnOk};
ghost use Rattle.std.specs.List.{list_all, list_any};
ghost use Rattle.std.specs.Str.{chars};
ghost use Rattle.sig_conditions.specs.Words.{ended, is_blank, is_identifier, is_run_character, keyword_in, keywords, sign_of, word_of, words, words_from};

use crate::word::{Sign, Word};
use sig_base::Text;
use std::alloc::{AllocError, Global};
use std::mem;

/// Whether a text has a character.
pub fn has_character(text: &str, wanted: char) -> bool
    ensures { result ≡ list_any (λ c. c == wanted) (chars text.now) }
{
    text.chars().any(|c| c == wanted)
}

/// Whether names and keywords are made of this character.
fn can_run(c: char) -> bool
    ensures { result ≡ is_run_character c }
{
    c.is_ascii_lowercase()
        || c.is_ascii_uppercase()
        || c.is_ascii_digit()
        || c == '_'
        || c == '*'
        || c == '-'
}

/// Whether this character only stands between words.
fn parts_words(c: char) -> bool
    ensures { result ≡ is_blank c }
{
    c == ' ' || c == '\t' || c == '\n'
}

/// The word that this character is by itself.
fn sign(c: char) -> Word
    ensures { result ≡ sign_of c }
{
    match c {
        '(' => Word::Fixed(Sign::Open),
        ')' => Word::Fixed(Sign::Close),
        _ => Word::Fixed(Sign::Bad),
    }
}

/// The keyword that a run of characters is, all in lower or all in upper case.
fn keyword(run: &Text) -> Option<Sign>
    ensures { result ≡ keyword_in keywords run.now }
{
    if run.is("or") || run.is("OR") {
        return Some(Sign::Or);
    }
    if run.is("and") || run.is("AND") {
        return Some(Sign::And);
    }
    if run.is("not") || run.is("NOT") {
        return Some(Sign::Not);
    }
    if run.is("1") || run.is("any") || run.is("ANY") {
        return Some(Sign::One);
    }
    if run.is("all") || run.is("ALL") {
        return Some(Sign::All);
    }
    if run.is("of") || run.is("OF") {
        return Some(Sign::Of);
    }
    if run.is("them") || run.is("THEM") {
        return Some(Sign::Them);
    }
    None
}

/// The word that a run of characters is.
fn word(run: Text) -> Word
    ensures { result ≡ word_of run }
{
    if has_character(run.as_str(), '*') {
        return Word::Pattern(run);
    }
    match keyword(&run) {
        Some(keyword) => Word::Fixed(keyword),
        None => Word::Name(run),
    }
}

/// Whether a text is made of the characters of names, keywords and patterns alone.
fn is_run(text: &str) -> bool
    ensures { result ≡ list_all is_run_character (chars text.now) }
{
    text.chars().all(|c| can_run(c))
}

/// Whether a detection may have this name: one or more of the letters A to Z and a to z, the digits, `_` and `-`, and no
/// keyword of conditions.
pub fn is_identifier(name: &Text) -> bool
    ensures { result ≡ is_identifier name.now }
{
    let text = name.as_str();
    !name.is("") && is_run(text) && !has_character(text, '*') && keyword(name).is_none()
}

/// The words so far, and the run that stands directly before the next character.
#[derive(Drop)]
struct Scanner {
    words: Vec<Word>,
    run: Text,
}

impl Scanner {
    /// Ends the run, which is a word unless it is empty.
    fn end_run(&mut self, alloc: Global) -> Result<(), AllocError>
        ensures words { OnOk result (self.new.words.items ≡ self.old.words.items ++ ended self.old.run []) }
        ensures run { OnOk result (self.new.run ≡ []) }
    {
        if self.run.is("") {
            return Ok(());
        }
        let run = mem::replace(&mut self.run, Text::new(alloc));
        self.words.push(word(run))?;
        Ok(())
    }

    /// Takes the next character.
    fn take(&mut self, alloc: Global, c: char) -> Result<(), AllocError>
        ensures { OnOk result ((rest : List ℕ) → self.new.words.items ++ words_from self.new.run rest ≡ self.old.words.items ++ words_from self.old.run (c ∷ rest)) }
    {
        if can_run(c) {
            return self.run.push(c);
        }
        self.end_run(alloc)?;
        if !parts_words(c) {
            self.words.push(sign(c))?;
        }
        Ok(())
    }
}

/// The words of a condition.
pub fn scan(alloc: Global, text: &str) -> Result<Vec<Word>, AllocError>
    ensures { IfOk result (λ all. all.items ≡ words (chars text.now)) }
{
    let mut scanner = Scanner {
        words: Vec::new(alloc),
        run: Text::new(alloc),
    };
    for c in text.chars() {
        scanner.take(alloc, c)?;
    }
    scanner.end_run(alloc)?;
    Ok(scanner.words)
}
