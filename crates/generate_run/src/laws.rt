//! Laws of what is drawn and of a seed's line, each the contract of a function that does nothing.

ghost use Rattle.std.specs.Prelude.{◌≡◌, ◌+◌, ◌++◌, ℕ, List};
ghost use Rattle.event_schema.specs.Events.{IsEvent};
ghost use Rattle.event_schema.specs.Lists.{EachOf};
ghost use Rattle.event_schema.specs.Schemas.{IsSchema};
ghost use Rattle.rule_model.specs.Whole.{IsWhole};
ghost use Rattle.generate_run.specs.Draws.{after_events};
ghost use Rattle.generate_run.specs.Events.{schema, events_from, events_of};
ghost use Rattle.generate_run.specs.Rules.{rule_of};
ghost use Rattle.backend_core.specs.Holds.{TreeHolds};
ghost use Rattle.generate_run.specs.Lines.{AreCounts, IsGenerated, line_of};
ghost use Rattle.generate_run.specs.Subjects.{IsStandard, IsSubject};
ghost use Rattle.generate_run.specs.declared.counts.Counts.{Counts};
ghost use Rattle.rule_lowering.specs.TreeOf.{tree_of};
ghost use Rattle.sig_base.specs.declared.limits.Limits.{Limits as LimitsData};

use backend_core::Backend;
use detection_eval::matches_or_not;
use lucene_writer::LuceneText;
use rule_lowering::{tree_is_sound, tree_means_rule};
use sig_base::Limits;
use sqlite_writer::Sqlite;

/// The schema is one, and what is drawn are events of it.
pub fn generated_events()
    ensures schema { IsSchema schema }
    ensures events { (state count : ℕ) → EachOf (λ event. IsEvent schema.fields event.values) (events_from state count) }
{}

/// Events are drawn some by some as they're drawn one by one.
pub fn events_go_on()
    ensures events { (state count more : ℕ) → events_from state (count + more) ≡ events_from state count ++ events_from (after_events state count) more }
    ensures state { (state count more : ℕ) → after_events state (count + more) ≡ after_events (after_events state count) more }
{}

/// The rule of each seed is whole.
pub fn generated_rule()
    ensures { (seed : ℕ) → IsWhole (rule_of seed) }
{}

/// The rule of each seed has a sound tree that means it, and neither backend refuses the tree.
pub fn seeds_are_subjects()
    ensures { (limits : LimitsData) (seed : ℕ) → IsStandard limits → IsSubject limits schema (rule_of seed) (tree_of schema (rule_of seed)) }
{
    generated_events();
    generated_rule();
    tree_is_sound();
    tree_means_rule();
}

/// What is counted of a seed's tree is what the seed's line tells.
pub fn lines_follow()
    ensures { (limits : LimitsData) (seed count : ℕ) (counts : Counts) → IsStandard limits
        → AreCounts (λ row. TreeHolds row (tree_of schema (rule_of seed))) (events_of seed count) counts
        → IsGenerated seed count (line_of seed count counts.rule counts.sqlite counts.lucene) }
{
    seeds_are_subjects();
    generated_events();
    <Sqlite as Backend>::law();
    <LuceneText as Backend>::law();
}

/// Each seed and number of events has a line, and one only.
pub fn generated_lines()
    ensures some { (seed count : ℕ) → (line : List ℕ) × IsGenerated seed count line }
    ensures one { (seed count : ℕ) (line other : List ℕ) → IsGenerated seed count line → IsGenerated seed count other → line ≡ other }
{
    let _limits = Limits::standard();
    seeds_are_subjects();
    generated_events();
    matches_or_not();
    <Sqlite as Backend>::law();
    <LuceneText as Backend>::law();
}
