ghost use Rattle.std.specs.Prelude.{◌≡◌, find};
ghost use Rattle.modifier_words.specs.Chains as chains;
ghost use Rattle.sig_base.specs.Judged.{Judged};
ghost use Rattle.modifier_words.specs.Words as names;

use crate::chain::Chain;
use crate::chain_rules::is_chain;
use crate::modifier::{Modifier, modifier_of};
use sig_base::{Code, Detail, Fault, Place, Refusal, Text, refused};
use std::alloc::Global;

/// The refusal of a word that names no modifier, which it tells.
fn unknown(alloc: Global, place: Place, word: &Text) -> Fault
    ensures { Judged (λ (w : Modifier). Unit {0}) (chains.unknown place (Some word.now)) (Err result) }
{
    match Text::copy(alloc, word.as_str()) {
        Ok(word) => Fault::Refused(Refusal {
            code: Code::UNKNOWN_MODIFIER,
            place,
            detail: Detail::Text(word),
        }),
        Err(fault) => fault,
    }
}

/// The modifiers that the words name.
fn read_modifiers(alloc: Global, words: &[Text], place: Place) -> Result<Vec<Modifier>, Fault>
    ensures { Judged (λ v. v.items ≡ chains.modifiers_of words.now) (chains.unknown place (find names.is_unknown words.now)) result }
{
    let mut modifiers = Vec::new(alloc);
    for word in words {
        let Some(modifier) = modifier_of(word) else {
            return Err(unknown(alloc, place, word));
        };
        modifiers.push(modifier)?;
    }
    Ok(modifiers)
}

impl Chain {
    /// Reads the words behind a field's name, or with `keyword` those of a keyword. The first word that names no
    /// modifier is refused 40, and modifiers that may not stand together 41, both at `place`.
    pub fn read(alloc: Global, words: &[Text], keyword: bool, place: Place) -> Result<Chain, Fault>
        ensures { Judged (λ c. c ≡ chains.chain_of words.now keyword place) (chains.chain_refusal keyword place words.now) result }
    {
        let modifiers = read_modifiers(alloc, words, place)?;
        if !is_chain(keyword, &modifiers) {
            return Err(refused(Code::CHAIN_NOT_ALLOWED, place));
        }
        Ok(Chain::of_modifiers(modifiers, keyword, place))
    }
}
