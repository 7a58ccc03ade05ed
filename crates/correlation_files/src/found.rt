//! What was found in rule files.

ghost use Rattle.std.specs.Prelude.{◌≡◌, ◌++◌, ◌∷◌, [], true, IfErr, OnOk};
ghost use Rattle.correlation_files.specs.Accepted.{Keeps, refused_of};
ghost use Rattle.correlation_files.specs.Found.{StandsFor};
ghost use Rattle.event_schema.specs.declared.schema.Schema.{Schema};
ghost use Rattle.rule_regex.specs.ForUnbuilt.{is_answered};

use crate::accepted::{Accepted, ReadyRule};
use correlation_read::Correlation;
use detection_eval::Ready;
use rule_head::Head;
use rule_model::Rule;
use sig_base::{Fault, Refusal, Sequence, Text};
use std::alloc::Global;

/// A correlation, and the name of the file that it stands in.
#[derive(Drop)]
pub struct Sourced {
    pub file: Text,
    pub correlation: Correlation,
}

/// The rules of files in their order, each made ready for a schema and with its head beside it, and the correlations.
#[derive(Drop)]
pub struct Found {
    pub rules: Vec<Rule>,
    pub ready: Vec<Ready>,
    pub heads: Vec<Head>,
    pub correlations: Vec<Sourced>,
}

/// Adds a refusal behind the others.
fn add_refusal(refusals: &mut Sequence<Refusal>, refusal: Refusal) -> Result<(), Fault>
    ensures ok { OnOk result (refusals.new ≡ refusals.old ++ refusal ∷ []) }
    ensures err { IfErr result (λ e. e ≡ Fault.Memory) }
{
    refusals.push(refusal)?;
    Ok(())
}

impl Found {
    /// Nothing yet.
    pub fn new(alloc: Global) -> Found
        ensures { (schema : Schema) → StandsFor schema [] [] result }
    {
        Found {
            rules: Vec::new(alloc),
            ready: Vec::new(alloc),
            heads: Vec::new(alloc),
            correlations: Vec::new(alloc),
        }
    }

    /// Adds a rule behind those that were found.
    fn add_rule(&mut self, taken: ReadyRule) -> Result<(), Fault>
        ensures rules { OnOk result (self.new.rules.items ≡ self.old.rules.items ++ taken.rule ∷ []) }
        ensures ready { OnOk result (self.new.ready.items ≡ self.old.ready.items ++ taken.ready ∷ []) }
        ensures heads { OnOk result (self.new.heads.items ≡ self.old.heads.items ++ taken.head ∷ []) }
        ensures correlations { OnOk result (self.new.correlations.items ≡ self.old.correlations.items) }
        ensures err { IfErr result (λ e. e ≡ Fault.Memory) }
    {
        self.rules.push(taken.rule)?;
        self.ready.push(taken.ready)?;
        self.heads.push(taken.head)?;
        Ok(())
    }

    /// Adds a correlation of a file behind those that were found.
    fn add_correlation(
        &mut self,
        alloc: Global,
        file: &Text,
        correlation: Correlation,
    ) -> Result<(), Fault>
        ensures rules { OnOk result (self.new.rules.items ≡ self.old.rules.items) }
        ensures ready { OnOk result (self.new.ready.items ≡ self.old.ready.items) }
        ensures heads { OnOk result (self.new.heads.items ≡ self.old.heads.items) }
        ensures correlations { OnOk result (self.new.correlations.items ≡ self.old.correlations.items ++ record { file = file.now; correlation = correlation } ∷ []) }
        ensures err { IfErr result (λ e. e ≡ Fault.Memory) }
    {
        let file = Text::copy(alloc, file.as_str())?;
        self.correlations.push(Sourced { file, correlation })?;
        Ok(())
    }

    /// Keeps what was made of a document.
    fn add(&mut self, alloc: Global, file: &Text, taken: Accepted) -> Result<(), Fault>
        ensures keeps { OnOk result (Keeps file.now (Ok taken) self.old self.new) }
        ensures err { IfErr result (λ e. e ≡ Fault.Memory) }
    {
        match taken {
            Accepted::Rule(rule) => self.add_rule(rule),
            Accepted::Correlation(correlation) => self.add_correlation(alloc, file, correlation),
        }
    }

    /// Keeps what was made of a document of a file, or the refusal for which nothing was.
    pub(crate) fn keep(
        &mut self,
        alloc: Global,
        file: &Text,
        taken: Result<Accepted, Fault>,
        refusals: &mut Sequence<Refusal>,
    ) -> Result<(), Fault>
        ensures ended { OnOk result (is_answered taken ≡ true) }
        ensures keeps { OnOk result (Keeps file.now taken self.old self.new) }
        ensures refusals { OnOk result (refusals.new ≡ refusals.old ++ refused_of taken) }
        ensures err { IfErr result (λ e. e ≡ Fault.Memory) }
    {
        match taken {
            Ok(accepted) => self.add(alloc, file, accepted),
            Err(Fault::Refused(refusal)) => add_refusal(refusals, refusal),
            Err(Fault::Memory) => Err(Fault::Memory),
        }
    }
}
