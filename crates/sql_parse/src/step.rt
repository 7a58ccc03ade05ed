//! What the next token makes of what has been read.
ghost use Rattle.std.specs.Prelude.{◌≡◌, ◌<◌, ◌+◌, ◌^◌, IfOk, map, ◌++◌, ◌∷◌, [], None};
ghost use Rattle.sql_lang.specs.Tokens as tokens;
ghost use Rattle.sql_lang.specs.Machine as machine;
ghost use Rattle.sql_scan.specs.View.{sort_view};
ghost use Rattle.sql_parse.specs.View.{partial_view, core_view, core_option_view, ors_view, nots_view, ands_view, level_view, levels_view, state_view, state_option_view, nots_in, option_view};

use crate::partial::Partial;
use crate::state::{Inside, Level, State};
use crate::syntax::{Ands, Core, Leaf, Nots, Ors};
use crate::test_tokens::{first, go_on};
use sig_base::Text;
use sql_lang::Collate;
use sql_scan::{Keyword, Sort};
use std::alloc::{AllocError, Global};

fn is_joint(sort: &Sort) -> bool
    ensures { result ≡ machine.is_joint (sort_view sort.now) }
{
    match sort {
        Sort::Word(Keyword::And) => true,
        Sort::Word(Keyword::Or) => true,
        Sort::Closing => true,
        Sort::Semicolon => true,
        _ => false,
    }
}

fn is_whole(partial: &Partial) -> bool
    ensures { result ≡ machine.is_whole (partial_view partial.now) }
{
    match partial {
        Partial::Compared(..) => true,
        Partial::Liked(..) => true,
        Partial::Complete(_) => true,
        Partial::Closed(_) => true,
        _ => false,
    }
}

/// What ends here, if it may.
pub fn whole(partial: Partial) -> Option<Core>
    ensures { core_option_view result ≡ machine.whole (partial_view partial) }
{
    match partial {
        Partial::Compared(name, left, op, right) => Some(Core::Test(Leaf::Compare {
            name,
            left,
            op,
            right,
            collate: Collate::Unsaid,
        })),
        Partial::Liked(name, negated, pattern) => Some(Core::Test(Leaf::Like {
            name,
            negated,
            pattern,
            escape: None,
        })),
        Partial::Complete(leaf) => Some(Core::Test(leaf)),
        Partial::Closed(ors) => Some(Core::Enclosed(ors)),
        _ => None,
    }
}

fn close(
    alloc: Global,
    table: Text,
    condition: Ors,
    outer: Vec<Level>,
) -> Result<Option<State>, AllocError>
    ensures { IfOk result (λ s. state_option_view s ≡ machine.close table (ors_view condition) (levels_view outer.items)) }
{
    let mut outer = outer;
    match outer.pop() {
        Some(level) => {
            let closed = Box::new(alloc, condition)?;
            Ok(Some(State::Inside(Inside {
                table,
                partial: Partial::Closed(closed),
                level,
                outer,
            })))
        }
        None => Ok(None),
    }
}

fn ends(table: Text, condition: Ors, outer: Vec<Level>) -> Option<State>
    ensures { state_option_view result ≡ machine.ends table (ors_view condition) (levels_view outer.items) }
{
    if outer.is_empty() {
        Some(State::Ended(table, condition))
    } else {
        None
    }
}

fn with_not(ands: Vec<Nots>, v: Nots) -> Result<Vec<Nots>, AllocError>
    ensures { IfOk result (λ all. map nots_view all.items ≡ map nots_view ands.items ++ nots_view v ∷ []) }
{
    let mut all = ands;
    all.push(v)?;
    Ok(all)
}

fn with_and(ors: Vec<Ands>, a: Ands) -> Result<Vec<Ands>, AllocError>
    ensures { IfOk result (λ all. map ands_view all.items ≡ map ands_view ors.items ++ ands_view a ∷ []) }
{
    let mut all = ors;
    all.push(a)?;
    Ok(all)
}

/// The or of a level that ends with this.
pub fn ors_of(level: Level, core: Core) -> Ors
    ensures { ors_view result ≡ machine.ors_of (level_view level) (core_view core) }
{
    let last = Nots {
        count: level.nots,
        core,
    };
    Ors {
        before: level.ors,
        last: Ands {
            before: level.ands,
            last,
        },
    }
}

/// After a whole not.
fn behind(
    alloc: Global,
    table: Text,
    core: Core,
    level: Level,
    outer: Vec<Level>,
    sort: Sort,
) -> Result<Option<State>, AllocError>
    ensures { IfOk result (λ s. state_option_view s ≡ machine.behind table (core_view core) (level_view level) (levels_view outer.items) (sort_view sort)) }
{
    match sort {
        Sort::Word(Keyword::And) => {
            let ands = with_not(
                level.ands,
                Nots {
                    count: level.nots,
                    core,
                },
            )?;
            Ok(Some(State::Inside(Inside {
                table,
                partial: Partial::Start,
                level: Level {
                    ors: level.ors,
                    ands,
                    nots: 0,
                },
                outer,
            })))
        }
        Sort::Word(Keyword::Or) => {
            let last = Nots {
                count: level.nots,
                core,
            };
            let ors = with_and(
                level.ors,
                Ands {
                    before: level.ands,
                    last,
                },
            )?;
            Ok(Some(State::Inside(Inside {
                table,
                partial: Partial::Start,
                level: Level {
                    ors,
                    ands: Vec::new(alloc),
                    nots: 0,
                },
                outer,
            })))
        }
        Sort::Closing => close(alloc, table, ors_of(level, core), outer),
        Sort::Semicolon => Ok(ends(table, ors_of(level, core), outer)),
        _ => Ok(None),
    }
}

fn behind_if(
    alloc: Global,
    table: Text,
    partial: Partial,
    level: Level,
    outer: Vec<Level>,
    sort: Sort,
) -> Result<Option<State>, AllocError>
    ensures { IfOk result (λ s. state_option_view s ≡ machine.behind_if table (machine.whole (partial_view partial)) (level_view level) (levels_view outer.items) (sort_view sort)) }
{
    match whole(partial) {
        Some(core) => behind(alloc, table, core, level, outer, sort),
        None => Ok(None),
    }
}

fn tested(table: Text, level: Level, outer: Vec<Level>, partial: Option<Partial>) -> Option<State>
    ensures { state_option_view result ≡ machine.within table (level_view level) (levels_view outer.items) (option_view partial) }
{
    match partial {
        Some(partial) => Some(State::Inside(Inside {
            table,
            partial,
            level,
            outer,
        })),
        None => None,
    }
}

fn with_level(outer: Vec<Level>, level: Level) -> Result<Vec<Level>, AllocError>
    ensures { IfOk result (λ all. levels_view all.items ≡ level_view level ∷ levels_view outer.items) }
{
    let mut all = outer;
    all.push(level)?;
    Ok(all)
}

/// Where a not begins.
fn at_start(
    alloc: Global,
    table: Text,
    level: Level,
    outer: Vec<Level>,
    sort: Sort,
) -> Result<Option<State>, AllocError>
    requires { level.nots + 1 < 2 ^ 64 }
    ensures { IfOk result (λ s. state_option_view s ≡ machine.at_start table (level_view level) (levels_view outer.items) (sort_view sort)) }
{
    match sort {
        Sort::Word(Keyword::Not) => {
            let level = Level {
                ors: level.ors,
                ands: level.ands,
                nots: level.nots + 1,
            };
            Ok(Some(State::Inside(Inside {
                table,
                partial: Partial::Start,
                level,
                outer,
            })))
        }
        Sort::Opening => {
            let outer = with_level(outer, level)?;
            let level = Level {
                ors: Vec::new(alloc),
                ands: Vec::new(alloc),
                nots: 0,
            };
            Ok(Some(State::Inside(Inside {
                table,
                partial: Partial::Start,
                level,
                outer,
            })))
        }
        sort => Ok(tested(table, level, outer, first(sort))),
    }
}

fn inside(
    alloc: Global,
    table: Text,
    partial: Partial,
    level: Level,
    outer: Vec<Level>,
    sort: Sort,
) -> Result<Option<State>, AllocError>
    requires { level.nots + 1 < 2 ^ 64 }
    ensures { IfOk result (λ s. state_option_view s ≡ machine.inside table (partial_view partial) (level_view level) (levels_view outer.items) (sort_view sort)) }
{
    match partial {
        Partial::Start => at_start(alloc, table, level, outer, sort),
        partial => started(alloc, table, partial, level, outer, sort),
    }
}

fn started(
    alloc: Global,
    table: Text,
    partial: Partial,
    level: Level,
    outer: Vec<Level>,
    sort: Sort,
) -> Result<Option<State>, AllocError>
    ensures { IfOk result (λ s. state_option_view s ≡ machine.started table (partial_view partial) (level_view level) (levels_view outer.items) (sort_view sort)) }
{
    if is_joint(&sort) && is_whole(&partial) {
        return behind_if(alloc, table, partial, level, outer, sort);
    }
    let partial = go_on(alloc, partial, sort)?;
    Ok(tested(table, level, outer, partial))
}

fn on_table(sort: Sort) -> Option<State>
    ensures { state_option_view result ≡ machine.on_table (sort_view sort) }
{
    match sort {
        Sort::Name(name) => Some(State::Tabled(name)),
        _ => None,
    }
}

fn on_select(sort: Sort) -> Option<State>
    ensures { state_option_view result ≡ machine.head_on (tokens.Word tokens.SELECT) (sort_view sort) machine.Selected }
{
    match sort {
        Sort::Word(Keyword::Select) => Some(State::Selected),
        _ => None,
    }
}

fn on_star(sort: Sort) -> Option<State>
    ensures { state_option_view result ≡ machine.head_on tokens.Star (sort_view sort) machine.Starred }
{
    match sort {
        Sort::Star => Some(State::Starred),
        _ => None,
    }
}

fn on_from(sort: Sort) -> Option<State>
    ensures { state_option_view result ≡ machine.head_on (tokens.Word tokens.FROM) (sort_view sort) machine.FromWord }
{
    match sort {
        Sort::Word(Keyword::From) => Some(State::FromWord),
        _ => None,
    }
}

fn on_where(alloc: Global, table: Text, sort: Sort) -> Option<State>
    ensures { state_option_view result ≡ machine.head_on (tokens.Word tokens.WHERE) (sort_view sort) (machine.Inside table machine.Start (machine.level [] [] 0) []) }
{
    match sort {
        Sort::Word(Keyword::Where) => {
            let level = Level {
                ors: Vec::new(alloc),
                ands: Vec::new(alloc),
                nots: 0,
            };
            Some(State::Inside(Inside {
                table,
                partial: Partial::Start,
                level,
                outer: Vec::new(alloc),
            }))
        }
        _ => None,
    }
}

/// The state behind one more token, or none where no query goes on with it.
#[tactic(auto, unfolding(sql_lang::specs::Machine::step))]
pub fn step_on(alloc: Global, state: State, sort: Sort) -> Result<Option<State>, AllocError>
    requires { nots_in state + 1 < 2 ^ 64 }
    ensures { IfOk result (λ s. state_option_view s ≡ machine.step (state_view state) (sort_view sort)) }
{
    match state {
        State::Begun => Ok(on_select(sort)),
        State::Selected => Ok(on_star(sort)),
        State::Starred => Ok(on_from(sort)),
        State::FromWord => Ok(on_table(sort)),
        State::Tabled(table) => Ok(on_where(alloc, table, sort)),
        State::Inside(at) => inside(alloc, at.table, at.partial, at.level, at.outer, sort),
        State::Ended(..) => Ok(None),
    }
}
