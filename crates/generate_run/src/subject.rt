//! A rule with its tree, and how many events the rule and its queries select.

ghost use Rattle.std.specs.Prelude.{◌≡◌, ◌≤◌, ◌<◌, IfOk, IfErr};
ghost use Rattle.backend_core.specs.Holds.{TreeHolds};
ghost use Rattle.backend_core.specs.View.{tree_view};
ghost use Rattle.detection_eval.specs.Ready.{JudgesFor};
ghost use Rattle.event_schema.specs.Events.{IsEvent};
ghost use Rattle.event_schema.specs.Lists.{EachOf};
ghost use Rattle.generate_run.specs.Events as spec;
ghost use Rattle.generate_run.specs.Lines.{AreCounts};
ghost use Rattle.generate_run.specs.Subjects.{IsSubject};
ghost use Rattle.rule_model.specs.Plain.{rule_view};

use crate::counts::Counts;
use crate::draws::after_events;
use crate::events::make_events;
use crate::flags::count_set;
use crate::laws::{events_go_on, generated_events};
use crate::matches::{select_by_query, select_by_rule};
use backend_core::Tree;
use detection_eval::Judge;
use event_schema::{Event, Schema};
use lucene_writer::LuceneText;
use rule_model::Rule;
use sig_base::{Fault, Limits};
use sqlite_writer::Sqlite;
use std::alloc::Global;

/// So many events, at most, are in memory at a time.
const CHUNK: u32 = 4096;

/// How many of the events that are left are drawn next.
fn some_of(left: u32) -> u32
    ensures within { result ≤ left }
    ensures some { 0 < left → 0 < result }
{
    left.min(CHUNK)
}

/// What is compared: a rule, and its tree under a schema.
#[derive(Drop)]
pub struct Subject<'s> {
    pub limits: &'s Limits,
    pub schema: &'s Schema,
    pub rule: &'s Rule,
    pub tree: &'s Tree,
}

impl Subject<'_> {
    /// How many of the events the rule matches, and how many each of its queries selects; only want of memory is answered.
    fn count_some(
        &self,
        alloc: Global,
        judge: &mut Judge<'_>,
        events: &[Event],
    ) -> Result<Counts, Fault>
        requires subject { IsSubject self.now.limits.now self.now.schema.now (rule_view self.now.rule.now) (tree_view self.now.tree.now) }
        requires judges { JudgesFor self.now.schema.now.fields (rule_view self.now.rule.now) judge.old }
        requires events { EachOf (λ event. IsEvent self.now.schema.now.fields event.values) events.now }
        ensures counts { IfOk result (AreCounts (λ row. TreeHolds row (tree_view self.now.tree.now)) events.now) }
        ensures judges { JudgesFor self.now.schema.now.fields (rule_view self.now.rule.now) judge.new }
        ensures err { IfErr result (λ e. e ≡ Fault.Memory) }
    {
        let by_rule = select_by_rule(alloc, judge, events)?;
        let by_sqlite = select_by_query(
            alloc,
            &Sqlite,
            self.limits,
            self.schema,
            self.tree,
            events,
        )?;
        let by_lucene = select_by_query(
            alloc,
            &LuceneText,
            self.limits,
            self.schema,
            self.tree,
            events,
        )?;
        Ok(Counts {
            rule: count_set(by_rule.as_slice()),
            sqlite: count_set(by_sqlite.as_slice()),
            lucene: count_set(by_lucene.as_slice()),
        })
    }

    /// The same of so many events that are drawn from a state, some thousands at a time.
    pub fn count_drawn(
        &self,
        alloc: Global,
        judge: &mut Judge<'_>,
        state: u32,
        count: u32,
    ) -> Result<Counts, Fault>
        requires subject { IsSubject self.now.limits.now self.now.schema.now (rule_view self.now.rule.now) (tree_view self.now.tree.now) }
        requires judges { JudgesFor self.now.schema.now.fields (rule_view self.now.rule.now) judge.old }
        requires schema { self.now.schema.now ≡ spec.schema }
        ensures counts { IfOk result (AreCounts (λ row. TreeHolds row (tree_view self.now.tree.now)) (spec.events_from state count)) }
        ensures err { IfErr result (λ e. e ≡ Fault.Memory) }
    {
        generated_events();
        events_go_on();
        let mut counts = Counts {
            rule: 0,
            sqlite: 0,
            lucene: 0,
        };
        let mut state = state;
        let mut left = count;
        while left > 0 {
            let some = some_of(left);
            let events = make_events(alloc, state, some)?;
            let more = self.count_some(alloc, judge, events.as_slice())?;
            counts = counts.plus(more);
            state = after_events(state, some);
            left -= some;
        }
        Ok(counts)
    }
}
