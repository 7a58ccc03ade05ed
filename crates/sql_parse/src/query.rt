//! A whole query.

ghost use Rattle.std.specs.Prelude.{◌≡◌, ◌<◌, ◌+◌, ◌^◌, IfOk, length};
ghost use Rattle.sql_lang.specs.Machine as machine;
ghost use Rattle.sql_parse.specs.View.{state_view, sorts_view, query_option_view};
ghost use Rattle.sql_parse.specs.Outcomes.{Answers, Shows};

use crate::state::{Inside, Outcome, Query, State};
use crate::step::{ors_of, step_on, whole};
use sql_scan::Sort;
use std::alloc::{AllocError, Global};
use std::collections::VecDeque;

fn done_inside(at: Inside) -> Option<Query>
    ensures { query_option_view result ≡ machine.done (state_view (State.Inside at)) }
{
    match whole(at.partial) {
        Some(core) => {
            if at.outer.is_empty() {
                Some(Query {
                    table: at.table,
                    condition: ors_of(at.level, core),
                    ends: false,
                })
            } else {
                None
            }
        }
        None => None,
    }
}

fn done(state: State) -> Option<Query>
    ensures { query_option_view result ≡ machine.done (state_view state) }
{
    match state {
        State::Inside(at) => done_inside(at),
        State::Ended(table, condition) => Some(Query {
            table,
            condition,
            ends: true,
        }),
        _ => None,
    }
}

fn read_tokens(alloc: Global, tokens: VecDeque<Sort>) -> Result<Outcome, AllocError>
    requires { length tokens.items < 2 ^ 62 }
    ensures { IfOk result (Answers (sorts_view tokens.items)) }
{
    let mut rest = tokens;
    let mut state = State::Begun;
    let mut count: usize = 0;
    while let Some(sort) = rest.pop_front() {
        match step_on(alloc, state, sort)? {
            Some(next) => state = next,
            None => return Ok(Outcome::Stops(count)),
        }
        count += 1;
    }
    match done(state) {
        Some(query) => Ok(Outcome::Read(query)),
        None => Ok(Outcome::Stops(count)),
    }
}

/// The query that the tokens spell, or the first of them with which no query begins together with those before it.
pub fn read_query(alloc: Global, tokens: VecDeque<Sort>) -> Result<Outcome, AllocError>
    requires { length tokens.items < 2 ^ 62 }
    ensures { IfOk result (Shows (sorts_view tokens.items)) }
{
    sql_lang::machine_reads();
    read_tokens(alloc, tokens)
}
