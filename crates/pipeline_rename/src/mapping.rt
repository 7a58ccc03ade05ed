//! What a step makes of a name.

ghost use Rattle.std.specs.Prelude.{◌≡◌, true, drop, length, IfOk, IfErr};
ghost use Rattle.std.specs.Str.{chars};
ghost use Rattle.pipeline_rename.specs.Made.{texts_made, pairs_in, keys_of, texts_in, targets_or, once_in as once_in_of, once_of as once_of_all, once_if, AddsAs};
ghost use Rattle.pipeline_rename.specs.Names as spec;

use crate::concerned::concerns_some;
use crate::list::distinct;
use crate::made::{Made, itself, joined};
use crate::name_counts::{FEW, has_long, has_many};
use crate::name_index::{find_begun, find_equal, index_if};
use pipeline_model::{Action, Pair, Step};
use rule_detections::Detection;
use sig_base::{Fault, Text, Texts, first_char};
use std::alloc::Global;
use text_index::TextIndex;

/// A step on names. Where a rule has more than a few names and the step's mapping more than a few entries, there's an index of the
/// texts that these are for. Where an entry has more than a few targets, and the rule has names that the step acts on, there are the
/// entries with each target once.
#[derive(Drop)]
pub struct Renaming<'s> {
    pub step: &'s Step,
    pub keys: Option<TextIndex>,
    pub distinct_targets: Vec<Pair>,
    pub used: bool,
    pub ghost indexed: { texts_in keys (pairs_in step.now.action) ≡ keys_of (pairs_in step.now.action) },
    pub ghost distinct: { distinct_targets.items ≡ once_if used (pairs_in step.now.action) },
}

/// The entry with each of its targets once.
fn once_in(alloc: Global, pair: &Pair) -> Result<Pair, Fault>
    ensures ok { IfOk result (λ p. p ≡ once_in_of pair.now) }
    ensures err { IfErr result (λ e. e ≡ Fault.Memory) }
{
    let to = distinct(alloc, pair.to.as_slice())?;
    let from = Text::copy(alloc, pair.from.as_str())?;
    Ok(Pair {
        from,
        to: Texts::from_vec(to),
    })
}

fn once_of(alloc: Global, pairs: &[Pair]) -> Result<Vec<Pair>, Fault>
    ensures ok { IfOk result (λ all. all.items ≡ once_of_all pairs.now) }
    ensures err { IfErr result (λ e. e ≡ Fault.Memory) }
{
    let mut all = Vec::new(alloc);
    for pair in pairs {
        all.push(once_in(alloc, pair)?)?;
    }
    Ok(all)
}

/// The entries with each of their targets once, where they are used.
fn once_if_used(alloc: Global, used: bool, pairs: &[Pair]) -> Result<Vec<Pair>, Fault>
    ensures ok { IfOk result (λ all. all.items ≡ once_if used pairs.now) }
    ensures err { IfErr result (λ e. e ≡ Fault.Memory) }
{
    if used {
        return once_of(alloc, pairs);
    }
    Ok(Vec::new(alloc))
}

/// The entries of a step's mapping.
fn pairs_of(action: &Action) -> &[Pair]
    ensures { result.now ≡ pairs_in action.now }
{
    match action {
        Action::MapNames(pairs) => pairs.as_slice(),
        Action::MapPrefixes(pairs) => pairs.as_slice(),
        Action::Prefix(_)
        | Action::Suffix(_)
        | Action::Drop
        | Action::Add { .. }
        | Action::Source(_)
        | Action::MapTexts(_)
        | Action::FillHoles(_)
        | Action::WildHoles(_)
        | Action::FailRule(_)
        | Action::FailItem(_) => &[],
    }
}

/// The targets of the first entry of the name.
fn targets_of<'s>(keys: &Option<TextIndex>, pairs: &'s [Pair], name: &Text) -> Option<&'s [Text]>
    requires { texts_in keys.now pairs.now ≡ keys_of pairs.now }
    ensures { spec.mapped pairs.now name.now ≡ targets_or name.now result }
{
    match find_equal(keys, pairs, name) {
        Some(number) => Some(pairs[number].to.as_slice()),
        None => None,
    }
}

/// The targets of the first entry of the name, or the name itself.
fn mapped<'s>(
    alloc: Global,
    keys: &Option<TextIndex>,
    pairs: &'s [Pair],
    name: &Text,
) -> Result<Made<'s>, Fault>
    requires { texts_in keys.now pairs.now ≡ keys_of pairs.now }
    ensures ok { IfOk result (λ made. texts_made made ≡ spec.mapped pairs.now name.now) }
    ensures err { IfErr result (λ e. e ≡ Fault.Memory) }
{
    match targets_of(keys, pairs, name) {
        Some(prefixes) => Ok(Made::Each {
            prefixes,
            back: Text::new(alloc),
        }),
        None => itself(alloc, name),
    }
}

/// What stands in a text behind as many characters as another has.
fn behind<'t>(front: &str, text: &'t str) -> &'t str
    ensures { chars result.now ≡ drop (length (chars front.now)) (chars text.now) }
{
    let mut passed = front;
    let mut left = text;
    while let Some((_, more)) = first_char(passed) {
        let Some((_, rest)) = first_char(left) else {
            return left;
        };
        passed = more;
        left = rest;
    }
    left
}

/// The targets of an entry, each before what stands in the name behind the entry's prefix.
fn each_front<'s>(alloc: Global, pair: &'s Pair, name: &Text) -> Result<Made<'s>, Fault>
    ensures ok { IfOk result (λ made. texts_made made ≡ spec.each_before pair.now.to (drop (length pair.now.from) name.now)) }
    ensures err { IfErr result (λ e. e ≡ Fault.Memory) }
{
    let back = Text::copy(alloc, behind(pair.from.as_str(), name.as_str()))?;
    Ok(Made::Each {
        prefixes: pair.to.as_slice(),
        back,
    })
}

/// The name with another prefix by the first entry that begins it, or the name itself.
fn prefixed<'s>(
    alloc: Global,
    keys: &Option<TextIndex>,
    pairs: &'s [Pair],
    name: &Text,
) -> Result<Made<'s>, Fault>
    requires { texts_in keys.now pairs.now ≡ keys_of pairs.now }
    ensures ok { IfOk result (λ made. texts_made made ≡ spec.prefixed pairs.now name.now) }
    ensures err { IfErr result (λ e. e ≡ Fault.Memory) }
{
    match find_begun(alloc, keys, pairs, name)? {
        Some(number) => each_front(alloc, &pairs[number], name),
        None => itself(alloc, name),
    }
}

impl<'s> Renaming<'s> {
    /// The step, for these items.
    pub fn of(
        alloc: Global,
        step: &'s Step,
        detections: &[Detection],
    ) -> Result<Renaming<'s>, Fault>
        ensures ok { IfOk result (λ renaming. renaming.step.now ≡ step.now) }
        ensures err { IfErr result (λ e. e ≡ Fault.Memory) }
    {
        let pairs = pairs_of(&step.action);
        let many = pairs.len() > FEW && has_many(detections);
        let keys = index_if(alloc, many, pairs)?;
        let used = has_long(pairs) && concerns_some(step, detections);
        let distinct_targets = once_if_used(alloc, used, pairs)?;
        Ok(Renaming {
            step,
            keys,
            distinct_targets,
            used,
        })
    }

    /// What the step's action makes of a name.
    fn targets(&self, alloc: Global, name: &Text) -> Result<Made<'s>, Fault>
        ensures ok { IfOk result (λ made. texts_made made ≡ spec.targets self.now.step.now.action name.now) }
        ensures err { IfErr result (λ e. e ≡ Fault.Memory) }
    {
        match &self.step.action {
            Action::MapNames(pairs) => mapped(alloc, &self.keys, pairs.as_slice(), name),
            Action::MapPrefixes(pairs) => prefixed(alloc, &self.keys, pairs.as_slice(), name),
            Action::Prefix(front) => Ok(Made::One(joined(alloc, front, name)?)),
            Action::Suffix(back) => Ok(Made::One(joined(alloc, name, back)?)),
            Action::Drop
            | Action::Add { .. }
            | Action::Source(_)
            | Action::MapTexts(_)
            | Action::FillHoles(_)
            | Action::WildHoles(_)
            | Action::FailRule(_)
            | Action::FailItem(_) => itself(alloc, name),
        }
    }

    /// What the step makes of a name.
    pub fn made(&self, alloc: Global, name: &Text) -> Result<Made<'s>, Fault>
        ensures ok { IfOk result (λ made. texts_made made ≡ spec.names_for self.now.step.now name.now) }
        ensures err { IfErr result (λ e. e ≡ Fault.Memory) }
    {
        if self.step.concerns(name) {
            return self.targets(alloc, name);
        }
        itself(alloc, name)
    }

    /// What the step's action makes of a name, where what a mapping makes stands there once.
    fn targets_once<'r>(&'r self, alloc: Global, name: &Text) -> Result<Made<'r>, Fault>
        requires { self.now.used ≡ true }
        ensures ok { IfOk result (λ made. AddsAs (texts_made made) (spec.targets self.now.step.now.action name.now)) }
        ensures err { IfErr result (λ e. e ≡ Fault.Memory) }
    {
        match &self.step.action {
            Action::MapNames(_) => mapped(
                alloc,
                &self.keys,
                self.distinct_targets.as_slice(),
                name,
            ),
            Action::MapPrefixes(_) => prefixed(
                alloc,
                &self.keys,
                self.distinct_targets.as_slice(),
                name,
            ),
            Action::Prefix(_)
            | Action::Suffix(_)
            | Action::Drop
            | Action::Add { .. }
            | Action::Source(_)
            | Action::MapTexts(_)
            | Action::FillHoles(_)
            | Action::WildHoles(_)
            | Action::FailRule(_)
            | Action::FailItem(_) => self.targets(alloc, name),
        }
    }

    /// What the step makes of a name of an item, which has each name once: what a mapping makes may stand there once.
    pub fn made_once<'r>(&'r self, alloc: Global, name: &Text) -> Result<Made<'r>, Fault>
        ensures ok { IfOk result (λ made. AddsAs (texts_made made) (spec.names_for self.now.step.now name.now)) }
        ensures err { IfErr result (λ e. e ≡ Fault.Memory) }
    {
        if !self.step.concerns(name) {
            return itself(alloc, name);
        }
        if !self.used {
            return self.targets(alloc, name);
        }
        self.targets_once(alloc, name)
    }
}
