//! The truth of each detection for an event, and whether the event matches.

ghost use Rattle.std.specs.Prelude.{◌≡◌, ◌↔◌, List, length, IsTrue};
ghost use Rattle.event_schema.specs.declared.schema.Field.{Field};
ghost use Rattle.rule_model.specs.Matching.{Matches};
ghost use Rattle.rule_model.specs.Plain.{PlainRule};
ghost use Rattle.detection_eval.specs.Ready.{AlternativesHold, AreTruths, JudgesFor};

use crate::finders::Finders;
use crate::formula::is_some_true;
use crate::item_truth::some_alternative_holds;
use crate::judge::Judge;
use crate::numbered::NumberedDetection;
use event_schema::Event;

fn detection_holds(
    finders: &mut Finders<'_>,
    event: &Event,
    searched: &[u32],
    detection: &NumberedDetection,
) -> bool
    ensures holds { IsTrue result ↔ AlternativesHold finders.old searched.now event.now.values detection.now }
    ensures same { finders.new ≡ finders.old }
{
    some_alternative_holds(finders, event, searched, detection.as_slice())
}

/// Sets the truth of each detection.
fn set_truths(
    finders: &mut Finders<'_>,
    event: &Event,
    searched: &[u32],
    detections: &[NumberedDetection],
    truths: &mut [bool],
)
    requires { length truths.old ≡ length detections.now }
    ensures many { length truths.new ≡ length detections.now }
    ensures truths { AreTruths finders.old searched.now event.now.values truths.new detections.now }
    ensures same { finders.new ≡ finders.old }
{
    for number in 0..detections.len() {
        truths[number] = detection_holds(finders, event, searched, &detections[number]);
    }
}

impl<'r> Judge<'r> {
    /// Whether the rule matches an event, in one pass over its detections, without memory and without building anything.
    pub fn matches(&mut self, event: &Event) -> bool
        ensures means { (fields : List Field) (rule : PlainRule) → JudgesFor fields rule self.old
            → IsTrue result ↔ Matches fields event.now.values rule }
        ensures same { (fields : List Field) (rule : PlainRule) → JudgesFor fields rule self.old → JudgesFor fields rule self.new }
    {
        set_truths(
            &mut self.finders,
            event,
            &self.ready.searched,
            &self.ready.detections,
            &mut self.truths,
        );
        is_some_true(&self.ready.conditions, &self.truths)
    }
}
