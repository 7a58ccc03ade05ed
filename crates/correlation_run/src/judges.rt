//! What judges events by the rules.

ghost use Rattle.std.specs.Prelude.{◌≡◌, List, length, IfOk, IfErr};
ghost use Rattle.correlation_run.specs.Followed.{AreHits};
ghost use Rattle.correlation_run.specs.Judges.{AreReady, AreJudges};
ghost use Rattle.event_schema.specs.declared.schema.Field.{Field};
ghost use Rattle.rule_model.specs.Plain.{PlainRule};

use detection_eval::{Judge, Ready};
use event_schema::Event;
use sig_base::Fault;
use std::alloc::Global;

/// What judges events by each of these rules, with all memory that this takes.
pub(crate) fn judges_of<'r>(alloc: Global, ready: &'r [Ready]) -> Result<Vec<Judge<'r>>, Fault>
    ensures ok { (fields : List Field) (rules : List PlainRule) → AreReady fields rules ready.now → IfOk result (λ judges. AreJudges fields rules judges.items) }
    ensures err { IfErr result (λ e. e ≡ Fault.Memory) }
{
    let mut judges = Vec::with_capacity(alloc, ready.len())?;
    for kept in ready {
        judges.push(kept.judge(alloc)?)?;
    }
    Ok(judges)
}

/// Room for whether each of so many rules matches.
pub(crate) fn hits_for(alloc: Global, many: usize) -> Result<Vec<bool>, Fault>
    ensures ok { IfOk result (λ hits. length hits.items ≡ many) }
    ensures err { IfErr result (λ e. e ≡ Fault.Memory) }
{
    let mut hits = Vec::new(alloc);
    hits.resize(many, false)?;
    Ok(hits)
}

/// Sets for each rule whether it matches an event.
pub(crate) fn judge_all(judges: &mut Vec<Judge<'_>>, event: &Event, hits: &mut [bool])
    requires { length hits.old ≡ length judges.old.items }
    ensures hits { (fields : List Field) (rules : List PlainRule) → AreJudges fields rules judges.old.items → AreHits fields rules event.now.values hits.new }
    ensures same { (fields : List Field) (rules : List PlainRule) → AreJudges fields rules judges.old.items → AreJudges fields rules judges.new.items }
    ensures many { length hits.new ≡ length judges.new.items }
    ensures long { length hits.new ≡ length hits.old }
{
    for number in 0..judges.len() {
        hits[number] = judges[number].matches(event);
    }
}
