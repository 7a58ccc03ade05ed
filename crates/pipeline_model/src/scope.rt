//! Where a step acts.

ghost use Rattle.std.specs.Prelude.{◌≡◌, ◌&&◌, true, false};
ghost use Rattle.std.specs.List.{list_any, list_all};
ghost use Rattle.pipeline_model.specs.Concerned as spec;

use crate::step::{FieldCond, Step};
use rule_head::LogSource;
use sig_base::Text;

fn is_among(names: &[Text], name: &Text) -> bool
    ensures { result ≡ spec.is_among names.now name.now }
{
    names.iter().any(|other| other.equals(name))
}

fn part_met(wanted: &Option<Text>, part: &Option<Text>) -> bool
    ensures { result ≡ spec.part_met wanted.now part.now }
{
    match (wanted, part) {
        (None, _) => true,
        (Some(_), None) => false,
        (Some(wanted), Some(part)) => wanted.equals(part),
    }
}

fn source_met(source: &LogSource, wanted: &LogSource) -> bool
    ensures { result ≡ spec.source_met source.now wanted.now }
{
    part_met(&wanted.category, &source.category)
        && part_met(&wanted.product, &source.product)
        && part_met(&wanted.service, &source.service)
}

fn some_source(source: &LogSource, conds: &[LogSource]) -> bool
    ensures { result ≡ list_any (spec.source_met source.now) conds.now }
{
    conds.iter().any(|wanted| source_met(source, wanted))
}

fn every_source(source: &LogSource, conds: &[LogSource]) -> bool
    ensures { result ≡ list_all (spec.source_met source.now) conds.now }
{
    conds.iter().all(|wanted| source_met(source, wanted))
}

fn name_met(name: &Text, cond: &FieldCond) -> bool
    ensures { result ≡ spec.name_met name.now cond.now }
{
    match cond {
        FieldCond::Include(names) => is_among(names.as_slice(), name),
        FieldCond::Exclude(names) => !is_among(names.as_slice(), name),
    }
}

fn some_name(name: &Text, conds: &[FieldCond]) -> bool
    ensures { result ≡ list_any (spec.name_met name.now) conds.now }
{
    conds.iter().any(|cond| name_met(name, cond))
}

fn every_name(name: &Text, conds: &[FieldCond]) -> bool
    ensures { result ≡ list_all (spec.name_met name.now) conds.now }
{
    conds.iter().all(|cond| name_met(name, cond))
}

fn keyword_met(cond: &FieldCond) -> bool
    ensures { result ≡ spec.keyword_met cond.now }
{
    matches!(cond, FieldCond::Exclude(_))
}

fn some_keyword(conds: &[FieldCond]) -> bool
    ensures { result ≡ list_any spec.keyword_met conds.now }
{
    conds.iter().any(keyword_met)
}

fn every_keyword(conds: &[FieldCond]) -> bool
    ensures { result ≡ list_all spec.keyword_met conds.now }
{
    conds.iter().all(keyword_met)
}

impl Step {
    /// Whether the step acts on keywords.
    pub fn concerns_keywords(&self) -> bool
        ensures { result ≡ spec.concerns_keywords self.now }
    {
        let conds = self.field_conds.as_slice();
        if self.field_any && !conds.is_empty() {
            some_keyword(conds)
        } else {
            every_keyword(conds)
        }
    }

    /// Whether the step acts on rules of the log source.
    pub fn acts_on(&self, source: &LogSource) -> bool
        ensures { result ≡ spec.acts_on self.now source.now }
    {
        let conds = self.rule_conds.as_slice();
        if self.rule_any && !conds.is_empty() {
            some_source(source, conds)
        } else {
            every_source(source, conds)
        }
    }

    /// Whether the step acts on the name.
    pub fn concerns(&self, name: &Text) -> bool
        ensures { result ≡ spec.concerns self.now name.now }
    {
        let conds = self.field_conds.as_slice();
        if self.field_any && !conds.is_empty() {
            some_name(name, conds)
        } else {
            every_name(name, conds)
        }
    }
}
