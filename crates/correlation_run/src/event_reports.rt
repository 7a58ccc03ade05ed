//! Following the events by an engine.

ghost use Rattle.std.specs.Prelude.{◌≡◌, [], true, List, map, length, OnOk, IfOk};
ghost use Rattle.std.specs.List.{AllZip};
ghost use Rattle.answer_writer.specs.FollowedLines.{FollowedLines};
ghost use Rattle.answer_writer.specs.Input.{World, IsTold};
ghost use Rattle.answer_writer.specs.Parts.{Part, Gains, share_of};
ghost use Rattle.answer_writer.specs.Stands.{Ends};
ghost use Rattle.correlation_run.specs.Followed.{Follows};
ghost use Rattle.correlation_run.specs.Judges.{AreJudges};
ghost use Rattle.correlation_run.specs.References.{Reference};
ghost use Rattle.correlation_windows.specs.History.{Taken};
ghost use Rattle.correlation_windows.specs.Kept.{StandsFor};
ghost use Rattle.detection_eval.specs.Ready as made;
ghost use Rattle.rule_model.specs.Plain.{rule_view};

use crate::brought_events::bring_event;
use crate::judges::{hits_for, judge_all, judges_of};
use crate::laws::one_follower;
use answer_writer::{LineFollower, Outside, Stop, follow_lines, tell_line_refusal};
use correlation_engine::{Arrival, Engine};
use detection_eval::{Judge, Ready};
use event_read::read_event;
use event_schema::Schema;
use rule_model::Rule;
use sig_base::{Bytes, Code, Fault, Limits, Text};
use std::alloc::Global;

/// Rules that judge the events of a schema, which are brought to an engine.
#[derive(Drop)]
struct EventFollower<'s, 'r, 'k, 'j, 'h, 'n, 'e> {
    schema: &'s Schema,
    rules: &'r [Rule],
    judges: &'j mut Vec<Judge<'k>>,
    hits: &'h mut Vec<bool>,
    names: &'n [Text],
    engine: &'e mut Engine,
}

impl LineFollower for EventFollower<'_, '_, '_, '_, '_, '_, '_> {
    ghost History = { List Taken };

    ghost follows = { λ c. Follows (record { schema = c.schema.now; rules = map rule_view c.rules.now; bounds = c.engine.now.bounds; names = c.names.now }) };

    ghost stands = { λ c history. StandsFor c.engine.now history };

    ghost keeps = { λ c. AreJudges c.schema.now.fields (map rule_view c.rules.now) c.judges.now.items × (length c.hits.now.items ≡ length c.judges.now.items) };

    ghost Fixed = { Reference };

    ghost fixed = { λ c. record { name = c.engine.ghost_name; bounds = c.engine.now.bounds } };

    fn answer<W: Outside>(
        &mut self,
        alloc: Global,
        number: u32,
        line: Bytes,
        outside: &mut W,
    ) -> Result<bool, Stop> {
        self.each_line();
        let event = match read_event(alloc, self.schema, number, line.as_slice()) {
            Ok(event) => event,
            Err(Fault::Refused(cause)) => {
                return tell_line_refusal(alloc, number, cause.code, outside);
            }
            Err(Fault::Memory) => return Err(Stop::Memory),
        };
        let Some(moment) = event.moment() else {
            return tell_line_refusal(alloc, number, Code::NO_MOMENT, outside);
        };
        judge_all(self.judges, &event, self.hits);
        let arrival = Arrival {
            line: number,
            moment,
            hits: self.hits.as_slice(),
            event: &event,
        };
        bring_event(alloc, self.names, self.engine, &arrival, outside)
    }

    fn each_line(&self) {
        one_follower();
    }
}

/// Answers the lines of the events: each is brought to the engine with what these rules, made ready for the schema, say of it, and each
/// report that comes of it is a line on the output, before the next line is read. The names are those of the engine's correlations, in
/// their order. A line is refused 25 to 28 where it's no event of the schema, 29 where it has no moment, and 145 where its moment, in
/// nanoseconds, is before the last one; 30 and 31 where it's too long, or the events are too many bytes. Tells whether some line was refused.
pub fn follow_events<W: Outside>(
    alloc: Global,
    limits: &Limits,
    schema: &Schema,
    rules: &[Rule],
    ready: &[Ready],
    names: &[Text],
    engine: &mut Engine,
    outside: &mut W,
) -> Result<bool, Stop>
    requires { AllZip (λ rule kept. made.StandsFor schema.now.fields (rule_view rule) kept) rules.now ready.now }
    ensures ends { (history : List Taken) → StandsFor engine.old history
        → Ends (record { names = []; events = true }) (λ world parts. (after : List Taken) × FollowedLines (Follows (record { schema = schema.now; rules = map rule_view rules.now; bounds = engine.old.bounds; names = names.now })) limits.now history world parts after) result (W.state outside.old) (W.state outside.new) }
    ensures stands { (history : List Taken) → StandsFor engine.old history → (world : World) → IsTold (record { names = []; events = true }) (W.state outside.old).inputs world
        → OnOk result ((parts : List Part) × (after : List Taken) × FollowedLines (Follows (record { schema = schema.now; rules = map rule_view rules.now; bounds = engine.old.bounds; names = names.now })) limits.now history world parts after
        × Gains (share_of parts) (W.state outside.old).streams (W.state outside.new).streams × StandsFor engine.new after) }
    ensures bounds { engine.new.bounds ≡ engine.old.bounds }
{
    one_follower();
    let Ok(mut judges) = judges_of(alloc, ready) else {
        return Err(Stop::Memory);
    };
    let Ok(mut hits) = hits_for(alloc, judges.len()) else {
        return Err(Stop::Memory);
    };
    let mut follower = EventFollower {
        schema,
        rules,
        judges: &mut judges,
        hits: &mut hits,
        names,
        engine,
    };
    follow_lines(alloc, limits, &mut follower, outside)
}
