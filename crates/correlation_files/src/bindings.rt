//! Binding the correlations of all files.

ghost use Rattle.std.specs.Prelude.{◌≡◌, ◌<◌, ◌^◌, ◌++◌, ◌∷◌, [], List, map, length, IfOk, IfErr, OnOk};
ghost use Rattle.std.specs.List.{AllByRecursion, AllZip};
ghost use Rattle.correlation_engine.specs.Limits.{IsWithinLimits};
ghost use Rattle.correlation_files.specs.Bindings.{Verdict, IsVerdict, AreJudged, bounds_in, names_in, unbound_in, shown_name};
ghost use Rattle.correlation_files.specs.Bound.{AreKept};
ghost use Rattle.correlation_files.specs.Found.{StandsFor, IsKept, Named, names_of_rules};
ghost use Rattle.correlation_read.specs.Binding.{names_of_head};
ghost use Rattle.correlation_read.specs.Correlations.{correlation_view};
ghost use Rattle.correlation_read.specs.Indexed.{IsRuleIndex};
ghost use Rattle.schema_index.specs.Numbered.{AreNumbered};
ghost use Rattle.rule_model.specs.Plain.{PlainRule};

use crate::found::{Found, Sourced};
use correlation_read::{Correlation, RuleIndex};
use correlation_windows::Bound;
use event_schema::Schema;
use rule_head::Head;
use schema_index::FieldNumbers;
use sig_base::{Fault, Refusal, Text};
use std::alloc::Global;

/// Why a correlation isn't bound, and the name of the file that it stands in.
#[derive(Drop)]
pub struct Unbound {
    pub file: Text,
    pub refusal: Refusal,
}

/// The correlations that are bound, the names that their reports go by, and why the others aren't bound.
#[derive(Drop)]
pub struct Bindings {
    pub bounds: Vec<Bound>,
    pub names: Vec<Text>,
    pub unbound: Vec<Unbound>,
}

/// What the reports of a correlation go by: its name, or else its title.
fn copy_name(alloc: Global, correlation: &Correlation) -> Result<Text, Fault>
    ensures ok { IfOk result (λ name. name ≡ shown_name (correlation_view correlation.now)) }
    ensures err { IfErr result (λ e. e ≡ Fault.Memory) }
{
    match &correlation.head.name {
        Some(name) => Text::copy(alloc, name.as_str()),
        None => Text::copy(alloc, correlation.head.title.as_str()),
    }
}

impl Bindings {
    /// Adds a correlation that is bound.
    fn add_bound(
        &mut self,
        alloc: Global,
        correlation: &Correlation,
        bound: Bound,
    ) -> Result<(), Fault>
        ensures bounds { OnOk result (self.new.bounds.items ≡ self.old.bounds.items ++ bound ∷ []) }
        ensures names { OnOk result (self.new.names.items ≡ self.old.names.items ++ shown_name (correlation_view correlation.now) ∷ []) }
        ensures unbound { OnOk result (self.new.unbound.items ≡ self.old.unbound.items) }
        ensures err { IfErr result (λ e. e ≡ Fault.Memory) }
    {
        let name = copy_name(alloc, correlation)?;
        self.bounds.push(bound)?;
        self.names.push(name)?;
        Ok(())
    }

    /// Adds the cause for which a correlation of a file isn't bound.
    fn add_unbound(&mut self, alloc: Global, file: &Text, refusal: Refusal) -> Result<(), Fault>
        ensures bounds { OnOk result (self.new.bounds.items ≡ self.old.bounds.items) }
        ensures names { OnOk result (self.new.names.items ≡ self.old.names.items) }
        ensures unbound { OnOk result (self.new.unbound.items ≡ self.old.unbound.items ++ record { file = file.now; refusal = refusal } ∷ []) }
        ensures err { IfErr result (λ e. e ≡ Fault.Memory) }
    {
        let file = Text::copy(alloc, file.as_str())?;
        self.unbound.push(Unbound { file, refusal })?;
        Ok(())
    }

    /// Binds a correlation to the rules of these heads, or keeps its refusal.
    fn judge(
        &mut self,
        alloc: Global,
        index: &RuleIndex,
        heads: &[Head],
        numbers: &FieldNumbers,
        schema: &Schema,
        sourced: &Sourced,
    ) -> Result<(), Fault>
        requires index { IsRuleIndex heads.now index.now }
        requires numbers { AreNumbered schema.now.fields numbers.now }
        ensures judged { (c : Named) (judged : List (Named × Verdict)) → IsKept c sourced.now → AreKept judged self.old
            → OnOk result ((v : Verdict) × IsVerdict (map names_of_head heads.now) schema.now.fields c v × AreKept (judged ++ (c, v) ∷ []) self.new) }
        ensures err { IfErr result (λ e. e ≡ Fault.Memory) }
    {
        correlation_read::bounds_are_within();
        let correlation = &sourced.correlation;
        match correlation.bind_by(alloc, index, heads, numbers, schema) {
            Ok(bound) => self.add_bound(alloc, correlation, bound),
            Err(Fault::Refused(refusal)) => self.add_unbound(alloc, &sourced.file, refusal),
            Err(Fault::Memory) => Err(Fault::Memory),
        }
    }
}

/// Binds each of these correlations to the rules of these heads.
fn bind_each(
    alloc: Global,
    index: &RuleIndex,
    heads: &[Head],
    numbers: &FieldNumbers,
    schema: &Schema,
    correlations: &[Sourced],
) -> Result<Bindings, Fault>
    requires index { IsRuleIndex heads.now index.now }
    requires numbers { AreNumbered schema.now.fields numbers.now }
    ensures judged { (all : List Named) → AllZip IsKept all correlations.now
        → IfOk result (λ b. (judged : List (Named × Verdict)) × AreJudged (map names_of_head heads.now) schema.now.fields all judged × AreKept judged b) }
    ensures err { IfErr result (λ e. e ≡ Fault.Memory) }
{
    let mut bindings = Bindings {
        bounds: Vec::new(alloc),
        names: Vec::new(alloc),
        unbound: Vec::new(alloc),
    };
    for sourced in correlations {
        match bindings.judge(alloc, index, heads, numbers, schema, sourced) {
            Ok(()) => {}
            Err(fault) => return Err(fault),
        }
    }
    Ok(bindings)
}

impl Found {
    /// Binds each correlation to the rules that were found and to the fields of the schema, or refuses it 141, 143 or 144, in this order.
    /// Only want of memory is a fault; 2^32 rules, names and identifiers, or correlations can't be numbered, which is want of memory.
    pub fn bind(&self, alloc: Global, schema: &Schema) -> Result<Bindings, Fault>
        ensures judged { (rules : List PlainRule) (correlations : List Named) → StandsFor schema.now rules correlations self.now
            → IfOk result (λ b. (judged : List (Named × Verdict)) × AreJudged (names_of_rules rules) schema.now.fields correlations judged
            × (b.bounds.items ≡ bounds_in judged) × (b.names.items ≡ names_in judged) × (map (λ u. (u.file, u.refusal)) b.unbound.items ≡ unbound_in judged)
            × AllByRecursion IsWithinLimits b.bounds.items × (length b.bounds.items < 2 ^ 32)) }
        ensures err { IfErr result (λ e. e ≡ Fault.Memory) }
    {
        let heads = self.heads.as_slice();
        let correlations = self.correlations.as_slice();
        if correlations.len() > u32::MAX as usize {
            return Err(Fault::Memory);
        }
        let index = RuleIndex::of(alloc, heads)?;
        let numbers = FieldNumbers::of(alloc, schema.fields.as_slice())?;
        bind_each(alloc, &index, heads, &numbers, schema, correlations)
    }
}
