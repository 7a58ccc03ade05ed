//! A step on values, which finds its entries and what it chooses without a search.

ghost use Rattle.std.specs.Prelude.{◌≡◌, map as list_map, IfOk, IfErr};
ghost use Rattle.std.specs.List.{list_any};
ghost use Rattle.sig_strings.specs.declared.part.Part.TheVariants as pieces;
ghost use Rattle.pipeline_model.specs.Concerned.{concerns};
ghost use Rattle.pipeline_fill.specs.Changed as changed;
ghost use Rattle.pipeline_fill.specs.Entries as spec;
ghost use Rattle.pipeline_fill.specs.Filled as holes;
ghost use Rattle.pipeline_fill.specs.Made.{froms_of, found_of, entries_view, names_chosen, names_given, IsFound, IsFilling, IsPut};

use crate::entries::{chosen_in, contains, find, keys_in, lists_in};
use crate::entry::Entry;
use crate::filling::Filling;
use pipeline_model::{Action, Choice, Step, Var};
use rule_detections::Fields;
use sig_base::{Fault, Text};
use sig_strings::Part;
use std::alloc::Global;
use text_index::TextIndex;

/// A step on values with the variables of its pipeline, and indexes of its entries and of the names that it chooses by.
#[derive(Drop)]
pub struct Change<'s> {
    pub vars: &'s [Var],
    pub step: &'s Step,
    pub keys: TextIndex,
    pub lists: Vec<Entry<'s>>,
    pub chosen: TextIndex,
    pub ghost keyed: { keys ≡ froms_of (spec.entries_of vars.now step.now.action) },
    pub ghost listed: { entries_view lists.items ≡ list_map found_of (spec.entries_of vars.now step.now.action) },
    pub ghost names: { chosen ≡ names_chosen step.now.action },
}

/// Whether a choice with these names takes a placeholder.
fn chooses(names: &TextIndex, choice: &Choice, name: &Text) -> bool
    ensures { names.now ≡ names_given choice.now → result ≡ holes.chooses choice.now name.now }
{
    match choice {
        Choice::Every => true,
        Choice::Include(_) => contains(names, name),
        Choice::Exclude(_) => !contains(names, name),
    }
}

/// Whether a step acts on some of these names.
fn concerns_some(step: &Step, names: &[Text]) -> bool
    ensures { result ≡ list_any (concerns step.now) names.now }
{
    names.iter().any(|name| step.concerns(name))
}

impl<'s> Change<'s> {
    /// The step with its indexes.
    pub fn of(alloc: Global, vars: &'s [Var], step: &'s Step) -> Result<Change<'s>, Fault>
        ensures vars { IfOk result (λ change. change.vars.now ≡ vars.now) }
        ensures step { IfOk result (λ change. change.step.now ≡ step.now) }
        ensures err { IfErr result (λ e. e ≡ Fault.Memory) }
    {
        let keys = TextIndex::number(alloc, keys_in(alloc, vars, &step.action)?)?;
        let lists = lists_in(alloc, vars, &step.action)?;
        let chosen = TextIndex::number(alloc, chosen_in(alloc, &step.action)?)?;
        Ok(Change {
            vars,
            step,
            keys,
            lists,
            chosen,
        })
    }

    /// The entry of a text.
    pub fn entry_of(&self, text: &Text) -> Option<Entry<'s>>
        ensures { IsFound (spec.texts_for (spec.entries_of self.now.vars.now self.now.step.now.action) text.now) result }
    {
        find(&self.keys, &self.lists, text)
    }

    fn is_chosen_name(&self, name: &Text) -> bool
        ensures { result ≡ holes.chosen_by self.now.step.now.action name.now }
    {
        match &self.step.action {
            Action::FillHoles(choice) => chooses(&self.chosen, choice, name),
            Action::WildHoles(choice) => chooses(&self.chosen, choice, name),
            Action::MapNames(_)
            | Action::Prefix(_)
            | Action::Suffix(_)
            | Action::MapPrefixes(_)
            | Action::Drop
            | Action::Add { .. }
            | Action::Source(_)
            | Action::MapTexts(_)
            | Action::FailRule(_)
            | Action::FailItem(_) => false,
        }
    }

    fn is_chosen(&self, alloc: Global, part: &Part) -> Result<bool, Fault>
        ensures ok { IfOk result (λ b. b ≡ holes.is_chosen self.now.step.now.action part.now) }
        ensures err { IfErr result (λ e. e ≡ Fault.Memory) }
    {
        match part {
            Part::Hole(name) => {
                let name = Text::copy(alloc, name.as_str())?;
                Ok(self.is_chosen_name(&name))
            }
            _ => Ok(false),
        }
    }

    /// Whether some placeholder of these parts is filled.
    pub fn has_chosen(&self, alloc: Global, parts: &[Part]) -> Result<bool, Fault>
        ensures ok { IfOk result (λ b. b ≡ list_any (holes.is_chosen self.now.step.now.action) parts.now) }
        ensures err { IfErr result (λ e. e ≡ Fault.Memory) }
    {
        for part in parts {
            if self.is_chosen(alloc, part)? {
                return Ok(true);
            }
        }
        Ok(false)
    }

    /// What is put in for a placeholder that is chosen.
    fn put_for(&self, name: &Text) -> Filling<'s>
        ensures { IsPut (holes.put_for self.now.vars.now self.now.step.now.action name.now) result }
    {
        match &self.step.action {
            Action::FillHoles(_) => match self.entry_of(name) {
                Some(entry) => Filling::Values(entry),
                None => Filling::Missing,
            },
            Action::WildHoles(_) => Filling::Run,
            Action::MapNames(_)
            | Action::Prefix(_)
            | Action::Suffix(_)
            | Action::MapPrefixes(_)
            | Action::Drop
            | Action::Add { .. }
            | Action::Source(_)
            | Action::MapTexts(_)
            | Action::FailRule(_)
            | Action::FailItem(_) => Filling::Missing,
        }
    }

    /// What takes a placeholder's place.
    #[tactic(auto, using(crate::proofs::Putting::put_fills, crate::proofs::Putting::hole_stays))]
    fn fill_hole(&self, name: &Text) -> Filling<'s>
        ensures { IsFilling self.now.vars.now self.now.step.now.action (pieces.Hole name.now) result }
    {
        if !self.is_chosen_name(name) {
            return Filling::Itself;
        }
        self.put_for(name)
    }

    /// What takes a part's place.
    pub fn filling(&self, alloc: Global, part: &Part) -> Result<Filling<'s>, Fault>
        ensures ok { IfOk result (λ f. IsFilling self.now.vars.now self.now.step.now.action part.now f) }
        ensures err { IfErr result (λ e. e ≡ Fault.Memory) }
    {
        match part {
            Part::Hole(name) => {
                let name = Text::copy(alloc, name.as_str())?;
                Ok(self.fill_hole(&name))
            }
            Part::Char(_) | Part::One | Part::Run | Part::Dash => Ok(Filling::Itself),
        }
    }

    /// Whether the step acts on items with these fields.
    pub fn acts_on(&self, fields: &Fields) -> bool
        ensures { result ≡ changed.acts_on_fields self.now.step.now fields.now }
    {
        match fields {
            Fields::Keyword => self.step.concerns_keywords(),
            Fields::Names(names) => concerns_some(self.step, names.as_slice()),
        }
    }
}
