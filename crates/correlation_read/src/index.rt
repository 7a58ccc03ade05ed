//! Finding the rules that texts mean.

ghost use Rattle.std.specs.Prelude.{◌≡◌, ◌<◌, ◌^◌, ◌++◌, length, map, IfOk, IfErr, IfSome, OnOk};
ghost use Rattle.correlation_read.specs.Binding as spec;
ghost use Rattle.correlation_read.specs.Indexed.{IsRuleIndex};
ghost use Rattle.correlation_read.specs.Sources as sources;

use rule_head::Head;
use sig_base::{Fault, Text, Texts};
use std::alloc::Global;
use text_index::TextIndex;

/// Of so few rules each is compared, and more are found by an index.
const FEW: usize = 16;

/// The first rule that each text means: of more than a few rules all names and identifiers in their order, each found by its
/// characters, and beside each the number of its rule.
#[derive(Drop)]
pub struct RuleIndex {
    texts: Option<TextIndex>,
    rules: Vec<u32>,
}

/// Names and identifiers of rules in their order, and beside each the number of its rule.
#[derive(Drop)]
struct Meanings {
    texts: Texts,
    rules: Vec<u32>,
}

impl Meanings {
    /// Adds a name or identifier of a rule, where it has one.
    fn add(&mut self, alloc: Global, named: &Option<Text>, rule: u32) -> Result<(), Fault>
        ensures texts { OnOk result (self.new.texts ≡ self.old.texts ++ sources.listed named.now) }
        ensures rules { OnOk result (self.new.rules.items ≡ self.old.rules.items ++ map (λ text. rule) (sources.listed named.now)) }
        ensures err { IfErr result (λ e. e ≡ Fault.Memory) }
    {
        let Some(text) = named else {
            return Ok(());
        };
        self.texts.push(Text::copy(alloc, text.as_str())?)?;
        self.rules.push(rule)?;
        Ok(())
    }
}

/// The names and identifiers of all these rules.
fn list_meanings(alloc: Global, heads: &[Head]) -> Result<Meanings, Fault>
    requires { length heads.now < 2 ^ 32 }
    ensures texts { IfOk result (λ all. all.texts ≡ sources.texts_of heads.now) }
    ensures rules { IfOk result (λ all. all.rules.items ≡ sources.rules_from 0 heads.now) }
    ensures err { IfErr result (λ e. e ≡ Fault.Memory) }
{
    let mut all = Meanings {
        texts: Texts::new(alloc),
        rules: Vec::new(alloc),
    };
    let mut rule: u32 = 0;
    for head in heads {
        all.add(alloc, &head.name, rule)?;
        all.add(alloc, &head.id, rule)?;
        rule += 1;
    }
    Ok(all)
}

fn is_text(named: &Option<Text>, text: &Text) -> bool
    ensures { result ≡ spec.is_text text.now named.now }
{
    match named {
        Some(other) => other.equals(text),
        None => false,
    }
}

fn is_meant(head: &Head, text: &Text) -> bool
    ensures { result ≡ spec.is_meant text.now (spec.names_of_head head.now) }
{
    is_text(&head.name, text) || is_text(&head.id, text)
}

/// Where the first rule stands that a text means.
fn position_among(heads: &[Head], text: &Text) -> Option<usize>
    ensures first { result ≡ sources.place_among heads.now text.now }
    ensures within { IfSome result (λ i. i < length heads.now) }
{
    heads.iter().position(|head| is_meant(head, text))
}

/// The number of the first rule that a text means, each of which is compared.
fn number_among(heads: &[Head], text: &Text) -> Option<u32>
    requires { length heads.now < 2 ^ 32 }
    ensures { result ≡ sources.place_among heads.now text.now }
{
    match position_among(heads, text) {
        Some(number) => Some(number as u32),
        None => None,
    }
}

/// The number that stands at a place.
fn rule_at(rules: &[u32], place: u32) -> u32
    ensures { result ≡ sources.rule_at rules.now place }
{
    match rules.get(place as usize) {
        Some(rule) => *rule,
        None => 0,
    }
}

/// The number that stands beside a text.
fn find_beside(texts: &TextIndex, rules: &[u32], text: &Text) -> Option<u32>
    ensures { result ≡ sources.rule_beside texts.now rules.now text.now }
{
    match texts.find(text) {
        Some(place) => Some(rule_at(rules, place)),
        None => None,
    }
}

/// The number of the first rule that a text means, which is found by an index.
fn find_indexed(texts: &TextIndex, rules: &[u32], heads: &[Head], text: &Text) -> Option<u32>
    requires texts { texts.now ≡ sources.texts_of heads.now }
    requires rules { rules.now ≡ sources.rules_from 0 heads.now }
    ensures { result ≡ sources.place_among heads.now text.now }
{
    find_beside(texts, rules, text)
}

impl RuleIndex {
    /// The index of the rules of these heads. More than 2^32 - 1 rules, or names and identifiers, can't be numbered, which is
    /// want of memory.
    pub fn of(alloc: Global, heads: &[Head]) -> Result<RuleIndex, Fault>
        ensures ok { IfOk result (λ index. IsRuleIndex heads.now index) }
        ensures err { IfErr result (λ e. e ≡ Fault.Memory) }
    {
        if heads.len() > u32::MAX as usize {
            return Err(Fault::Memory);
        }
        if heads.len() <= FEW {
            return Ok(RuleIndex {
                texts: None,
                rules: Vec::new(alloc),
            });
        }
        let all = list_meanings(alloc, heads)?;
        let texts = TextIndex::number(alloc, all.texts)?;
        Ok(RuleIndex {
            texts: Some(texts),
            rules: all.rules,
        })
    }

    fn find_place(&self, heads: &[Head], text: &Text) -> Option<u32>
        requires { IsRuleIndex heads.now self.now }
        ensures { result ≡ sources.place_among heads.now text.now }
    {
        match &self.texts {
            Some(texts) => find_indexed(texts, &self.rules, heads, text),
            None => number_among(heads, text),
        }
    }

    /// The number of the first rule that a text means by its name or its identifier, among the rules of which the index was
    /// made.
    #[tactic(auto, using(crate::proofs::Positions::position_mapped))]
    pub fn find(&self, heads: &[Head], text: &Text) -> Option<u32>
        requires { IsRuleIndex heads.now self.now }
        ensures { result ≡ spec.rule_number (map spec.names_of_head heads.now) text.now }
    {
        self.find_place(heads, text)
    }
}
