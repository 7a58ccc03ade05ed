//! The events that a query selects, line by line.

ghost use Rattle.std.specs.Prelude.{◌≡◌, ⊤, [], true};
ghost use Rattle.answer_writer.specs.EventLines.{EventLines};
ghost use Rattle.answer_writer.specs.Stands.{Ends};
ghost use Rattle.answer_writer.specs.Answered.{flat};
ghost use Rattle.answer_writer.specs.Selected.{Selects};

use crate::events::{LineCommand, answer_lines, tell_line_refusal};
use crate::outside::Outside;
use crate::picked_line::put_picked;
use crate::stop::Stop;
use event_read::read_event;
use event_schema::Schema;
use query_lang::{Asker, Language, Selector};
use sig_base::{Bytes, Fault, Limits};
use std::alloc::Global;

/// A query that is asked of the lines of the events, read under a schema.
#[derive(Drop)]
struct QueryLines<'s, 'q, S> {
    schema: &'s Schema,
    selector: &'q mut S,
}

impl<S: Selector> LineCommand for QueryLines<'_, '_, S> {
    ghost gives = { λ c. Selects c.schema.now (S.picks (S.plain c.selector.now)) };

    ghost keeps = { λ c. ⊤ };

    fn answer<W: Outside>(
        &mut self,
        alloc: Global,
        number: u32,
        line: Bytes,
        outside: &mut W,
    ) -> Result<bool, Stop> {
        self.each_line();
        match read_event(alloc, self.schema, number, line.as_slice()) {
            Ok(event) => {
                let picked = self.selector.selects(self.schema, &event);
                put_picked(picked, line, outside)
            }
            Err(Fault::Refused(cause)) => tell_line_refusal(alloc, number, cause.code, outside),
            Err(Fault::Memory) => Err(Stop::Memory),
        }
    }

    fn each_line(&self) {
        S::law();
    }
}

/// Who asks a query of all lines of the events.
#[derive(Drop)]
struct AllLines<'l, 's, 'o, W> {
    limits: &'l Limits,
    schema: &'s Schema,
    outside: &'o mut W,
}

impl<W: Outside> Asker for AllLines<'_, '_, '_, W> {
    type Answer = Result<bool, Stop>;

    ghost can_ask = { λ a. ⊤ };

    ghost asked = { λ picks old new result. Ends (record { names = []; events = true }) (EventLines (Selects old.schema.now picks) old.limits.now) result (W.state old.outside.now) (W.state new.outside.now)
        × (new.outside.ghost_name ≡ old.outside.ghost_name) };

    fn ask<S: Selector>(&mut self, alloc: Global, selector: &mut S) -> Result<bool, Stop> {
        let mut lines = QueryLines {
            schema: self.schema,
            selector,
        };
        answer_lines(alloc, self.limits, &mut lines, self.outside)
    }
}

/// What was answered, or want of memory.
fn flat(answered: Result<Result<bool, Stop>, Fault>) -> Result<bool, Stop>
    ensures { result ≡ flat answered }
{
    match answered {
        Ok(answer) => answer,
        Err(_) => Err(Stop::Memory),
    }
}

/// Answers the lines of the events by a query of a language: those that it selects are written as they were read.
pub fn select_lines<L: Language, W: Outside>(
    alloc: Global,
    limits: &Limits,
    schema: &Schema,
    query: &L::Query,
    outside: &mut W,
) -> Result<bool, Stop>
    ensures { Ends (record { names = []; events = true }) (EventLines (Selects schema.now (L.picks (L.plain query.now))) limits.now) result (W.state outside.old) (W.state outside.new) }
{
    L::law();
    let mut all = AllLines {
        limits,
        schema,
        outside,
    };
    let answered = L::with_selector(alloc, query, &mut all);
    flat(answered)
}
