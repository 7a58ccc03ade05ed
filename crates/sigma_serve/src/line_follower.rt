//! Following events by an engine that is lent.

ghost use Rattle.std.specs.Prelude.{◌≡◌, [], ℕ, Bool, List, Some, map};
ghost use Rattle.std.specs.List.{AllZip};
ghost use Rattle.answer_writer.specs.State.{NoWriteFailed, SomeWriteFailed};
ghost use Rattle.answer_writer.specs.declared.stop.Stop.TheVariants.{Unread};
ghost use Rattle.correlation_windows.specs.History.{Taken};
ghost use Rattle.correlation_windows.specs.Kept.{StandsFor};
ghost use Rattle.detection_eval.specs.Ready as made;
ghost use Rattle.rule_model.specs.Plain.{rule_view};
ghost use Rattle.sig_base.specs.Causes.{Rose};
ghost use Rattle.sigma_serve.specs.Follow.{Followed, FollowedCut, FollowedUnread, FollowServes, MayBeUnreadEvents};
ghost use Rattle.sigma_serve.specs.Served.{IsAnswered, IsCutOff, streams_of};

use crate::status::Status;
use answer_writer::{Lent, Outside, Stop};
use correlation_engine::Engine;
use correlation_run::{follow_events, one_follower};
use detection_eval::Ready;
use event_schema::Schema;
use rule_model::Rule;
use sig_base::{Bytes, Limits, Shelf, ShelfFault, Sink, Source, Text};
use std::alloc::Global;

/// A shelf of which nothing is read.
#[derive(Drop)]
struct NoFiles;

impl Shelf for NoFiles {
    ghost files = { λ _. Some [] };

    ghost failed = { λ _. [] };

    fn read(&mut self, _alloc: Global, _name: &str, _at_most: usize) -> Result<Bytes, ShelfFault> {
        Err(ShelfFault::Memory)
    }
}

/// Does what `correlate` does from the first event on: brings the events to the engine with what these rules, made ready for the schema, say of
/// them, and writes each report, by the name of its correlation, before the next line is read. The names are those of the engine's correlations,
/// in their order. A schema without a time gives no event a moment, so that each line is refused.
pub fn follow<S: Source, O: Sink, E: Sink>(
    alloc: Global,
    limits: &Limits,
    schema: &Schema,
    rules: &[Rule],
    ready: &[Ready],
    names: &[Text],
    engine: &mut Engine,
    events: &mut S,
    out: &mut O,
    err: &mut E,
) -> Status
    requires ready { AllZip (λ rule kept. made.StandsFor schema.now.fields (rule_view rule) kept) rules.now ready.now }
    requires stands { (history : List Taken) × StandsFor engine.old history }

    // A call that comes to its end has written the answer to the lines of the events, where they're told, behind each history for which the
    // engine stood; it answers `Found` exactly where some line is refused; and the engine then stands for the history behind those lines.
    ensures answer { IsAnswered result → (history : List Taken) → StandsFor engine.old history → (bytes : List ℕ) → S.left events.old ≡ Some bytes
        → Followed (record { schema = schema.now; rules = map rule_view rules.now; bounds = engine.old.bounds; names = names.now }) limits.now history bytes result engine.new
        (streams_of O.taken O.faults E.taken E.faults out.old err.old) (streams_of O.taken O.faults E.taken E.faults out.new err.new) }
    ensures usage { result ≡ Status.Usage → ⊥ }

    // Each fault has its cause in this call, and a call that comes to its end met none.
    ensures still { IsAnswered result → (S.faults events.new ≡ S.faults events.old)
        × NoWriteFailed (streams_of O.taken O.faults E.taken E.faults out.old err.old) (streams_of O.taken O.faults E.taken E.faults out.new err.new) }
    ensures read_fault { result ≡ Status.ReadFault → Rose (S.faults events.old) (S.faults events.new)
        × NoWriteFailed (streams_of O.taken O.faults E.taken E.faults out.old err.old) (streams_of O.taken O.faults E.taken E.faults out.new err.new)
        × ((history : List Taken) → StandsFor engine.old history → (bytes : List ℕ) → S.left events.old ≡ Some bytes
        → FollowedUnread (record { schema = schema.now; rules = map rule_view rules.now; bounds = engine.old.bounds; names = names.now }) limits.now history bytes Unread (S.left events.new)
        (streams_of O.taken O.faults E.taken E.faults out.old err.old) (streams_of O.taken O.faults E.taken E.faults out.new err.new)) }
    ensures write_fault { result ≡ Status.WriteFault
        → SomeWriteFailed (streams_of O.taken O.faults E.taken E.faults out.old err.old) (streams_of O.taken O.faults E.taken E.faults out.new err.new) }

    // What stands where the call was cut off.
    ensures after_fault { IsCutOff result → (history : List Taken) → StandsFor engine.old history → (unread : Bool) × MayBeUnreadEvents result unread (S.faults events.old) (S.faults events.new)
        × ((bytes : List ℕ) → S.left events.old ≡ Some bytes
        → FollowedCut (record { schema = schema.now; rules = map rule_view rules.now; bounds = engine.old.bounds; names = names.now }) limits.now history bytes unread (S.left events.new)
        (streams_of O.taken O.faults E.taken E.faults out.old err.old) (streams_of O.taken O.faults E.taken E.faults out.new err.new)) }

    // The engine keeps its correlations.
    ensures bounds { engine.new.bounds ≡ engine.old.bounds }
{
    follow_lent(
        alloc, limits, schema, rules, ready, names, engine, events, out, err,
    )
}

/// The same, with all that is said of a call in one clause.
fn follow_lent<S: Source, O: Sink, E: Sink>(
    alloc: Global,
    limits: &Limits,
    schema: &Schema,
    rules: &[Rule],
    ready: &[Ready],
    names: &[Text],
    engine: &mut Engine,
    events: &mut S,
    out: &mut O,
    err: &mut E,
) -> Status
    requires ready { AllZip (λ rule kept. made.StandsFor schema.now.fields (rule_view rule) kept) rules.now ready.now }
    requires stands { (history : List Taken) × StandsFor engine.old history }
    ensures { FollowServes (record { schema = schema.now; rules = map rule_view rules.now; bounds = engine.old.bounds; names = names.now }) limits.now result engine.old engine.new
        (S.left events.old) (S.left events.new) (S.faults events.old) (S.faults events.new)
        (streams_of O.taken O.faults E.taken E.faults out.old err.old) (streams_of O.taken O.faults E.taken E.faults out.new err.new) }
{
    let mut shelf = NoFiles;
    let mut outside = Lent {
        shelf: &mut shelf,
        events,
        out,
        err,
    };
    follow_outside(
        alloc,
        limits,
        schema,
        rules,
        ready,
        names,
        engine,
        &mut outside,
    )
}

fn follow_outside<W: Outside>(
    alloc: Global,
    limits: &Limits,
    schema: &Schema,
    rules: &[Rule],
    ready: &[Ready],
    names: &[Text],
    engine: &mut Engine,
    outside: &mut W,
) -> Status
    requires ready { AllZip (λ rule kept. made.StandsFor schema.now.fields (rule_view rule) kept) rules.now ready.now }
    requires stands { (history : List Taken) × StandsFor engine.old history }
    ensures serves { FollowServes (record { schema = schema.now; rules = map rule_view rules.now; bounds = engine.old.bounds; names = names.now }) limits.now result engine.old engine.new
        (W.state outside.old).inputs.left (W.state outside.new).inputs.left (W.state outside.old).inputs.faults (W.state outside.new).inputs.faults
        (W.state outside.old).streams (W.state outside.new).streams }
    ensures kept { (W.state outside.new).references ≡ (W.state outside.old).references }
{
    one_follower();
    match follow_events(alloc, limits, schema, rules, ready, names, engine, outside) {
        Ok(false) => Status::Done,
        Ok(true) => Status::Found,
        Err(Stop::Unread) => Status::ReadFault,
        Err(Stop::Unwritten) => Status::WriteFault,
        Err(Stop::Memory) => Status::Memory,
    }
}
