//! Which detections a selector takes.

ghost use Rattle.std.specs.Prelude.{◌≡◌, ◌<◌, ◌^◌, true, length, IfOk};
ghost use Rattle.std.specs.Str.{chars};
ghost use Rattle.sig_conditions.specs.Taken.{fits, is_hidden, taken, takes};

use crate::numbers::DetectionNumbers;
use crate::selector::Selector;
use matching::{Cursor, Step, Taker, matches_whole};
use sig_base::{Text, first_char};
use std::alloc::{AllocError, Global};

/// A word with stars, from some place on.
#[derive(Clone, Copy)]
struct Rest<'a> {
    word: &'a str,
}

impl<'a> Cursor for Rest<'a> {
    ghost use Rattle.std.specs.Prelude.{◌≡◌, true, length};
    ghost use Rattle.std.specs.Str.{chars};
    ghost use Rattle.sig_conditions.specs.Taken.{fits};

    ghost holds = { λ at name. fits (chars at.word.now) name ≡ true };

    ghost left = { λ at. length (chars at.word.now) };

    fn step(self) -> Step<Rest<'a>> {
        let Some((c, word)) = first_char(self.word) else {
            return Step::End;
        };
        if c == '*' {
            return Step::Run(Rest { word });
        }
        Step::Takes(Taker::Exact(c), Rest { word })
    }
}

/// Whether a name is a word with stars, in at most about k * n steps for k characters of the word and n of the name.
fn does_fit(word: &str, name: &str) -> bool
    ensures { result ≡ fits (chars word.now) (chars name.now) }
{
    matches_whole(Rest { word }, name)
}

/// Whether `them` passes a name over.
fn is_hidden_name(name: &str) -> bool
    ensures { result ≡ is_hidden (chars name.now) }
{
    match first_char(name) {
        Some((c, _)) => c == '_',
        None => false,
    }
}

/// Whether a selector takes a name.
fn does_take(selector: &Selector, name: &Text) -> bool
    ensures { result ≡ takes selector.now name.now }
{
    let name = name.as_str();
    match selector {
        Selector::Them => !is_hidden_name(name),
        Selector::Names(word) => {
            let word = word.as_str();
            does_fit(word, name) && (!is_hidden_name(name) || is_hidden_name(word))
        }
    }
}

/// The numbers of the detections that a selector takes, in the rule's order.
pub fn take_names(
    alloc: Global,
    selector: &Selector,
    names: &[Text],
) -> Result<DetectionNumbers, AllocError>
    requires { length names.now < 2 ^ 32 }
    ensures { IfOk result (λ all. all ≡ taken selector.now names.now) }
{
    let mut all = DetectionNumbers::new(alloc);
    for (number, name) in names.iter().enumerate() {
        if does_take(selector, name) {
            all.push(number as u32)?;
        }
    }
    Ok(all)
}
