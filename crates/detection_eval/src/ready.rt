//! Rules made ready.

ghost use Rattle.std.specs.Prelude.{◌≡◌, List, IfOk, IfErr};
ghost use Rattle.event_schema.specs.declared.schema.Field.{Field};
ghost use Rattle.rule_regex.specs.Building.{Builds};
ghost use Rattle.rule_model.specs.Expressions.{rule_expressions};
ghost use Rattle.rule_model.specs.Plain.{PlainRule, rule_view};
ghost use Rattle.detection_eval.specs.Ready.{StandsFor, JudgesFor, ready_of, ready_view, searches_view};

use crate::copies::copy_numbers;
use crate::finders::Finders;
use crate::judge::Judge;
use crate::numbered::NumberedDetection;
use crate::numbered_detections::number_detections;
use crate::search_numbers::index_texts;
use event_schema::Schema;
use query_lang::{Builder, Search};
use rule_model::Rule;
use rule_regex::build_searches;
use schema_index::FieldNumbers;
use sig_base::Fault;
use sig_conditions::{Formula, copy_formulas};
use std::alloc::Global;

/// A rule made ready for the events of a schema: its names are numbers of fields, so that an event is matched without a
/// comparison of names, and its regular expressions are built.
#[derive(Drop)]
pub struct Ready {
    pub(crate) searched: Vec<u32>,
    pub(crate) searches: Vec<Search>,
    pub(crate) detections: Vec<NumberedDetection>,
    pub(crate) conditions: Vec<Formula>,
}

/// Makes a rule ready whose regular expressions are built.
fn number_rule(
    alloc: Global,
    schema: &Schema,
    rule: &Rule,
    searches: Vec<Search>,
) -> Result<Ready, Fault>
    ensures ok { IfOk result (λ ready. ready_view ready ≡ ready_of schema.now.fields (searches_view searches.items) (rule_view rule.now)) }
    ensures err { IfErr result (λ e. e ≡ Fault.Memory) }
{
    let fields = schema.fields.as_slice();
    let numbers = FieldNumbers::of(alloc, fields)?;
    let searched = copy_numbers(alloc, numbers.searched())?;
    let texts = index_texts(alloc, &searches)?;
    let all = rule.detections.as_slice();
    let detections = number_detections(alloc, fields, &numbers, &texts, all)?;
    let conditions = copy_formulas(alloc, &rule.conditions)?;
    Ok(Ready {
        searched,
        searches,
        detections,
        conditions,
    })
}

impl Ready {
    /// Makes a rule ready; it owns copies of what it needs, and shares the rule's patterns. A name that the schema lacks has
    /// no values. Each regular expression is built once, in the rule's order; 48 is answered at the place of the item of the first
    /// that isn't built. More than 2^32 - 1 fields or regular expressions can't be numbered, which is want of memory.
    pub fn make<B: Builder>(
        alloc: Global,
        schema: &Schema,
        rule: &Rule,
        builder: &mut B,
    ) -> Result<Ready, Fault>
        ensures answers { Builds (λ ready. StandsFor schema.now.fields (rule_view rule.now) ready) (rule_expressions (rule_view rule.now))
            (B.refused builder.old) (B.refused builder.new) result }
    {
        let expressions = rule.expressions(alloc)?;
        let searches = build_searches(alloc, builder, expressions.as_slice())?;
        number_rule(alloc, schema, rule, searches)
    }

    /// What judges events by the rule, with all memory that this takes; only want of memory is answered.
    pub fn judge(&self, alloc: Global) -> Result<Judge<'_>, Fault>
        ensures ok { (fields : List Field) (rule : PlainRule) → StandsFor fields rule self.now
            → IfOk result (λ judge. JudgesFor fields rule judge) }
        ensures err { IfErr result (λ e. e ≡ Fault.Memory) }
    {
        let finders = Finders::of(alloc, &self.searches)?;
        let mut truths = Vec::new(alloc);
        truths.resize(self.detections.len(), false)?;
        Ok(Judge {
            ready: self,
            finders,
            truths,
        })
    }
}
