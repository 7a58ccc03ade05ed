//! What the next token makes of a query that is being read.

ghost use Rattle.std.specs.Prelude.{◌≡◌, ◌<◌, ◌^◌, ◌∷◌, [], false, length, None, IfOk, IfErr};
ghost use Rattle.lucene_lang.specs.Faults as faults;
ghost use Rattle.lucene_lang.specs.Query.{OfGroup};
ghost use Rattle.lucene_lang.specs.View.{atom_view, group_view};
ghost use Rattle.lucene_read.specs.Steps as steps;
ghost use Rattle.lucene_read.specs.View as view;
ghost use Rattle.lucene_read.specs.View.{sort_view, place_view, partial_if, next_if, now_view, level_view, levels_view, wrong_view, state_if, state_view, token_view};

use crate::leaves::{first, go_on};
use crate::partial::{Ill, Level, Next, Now, Partial, State, Wrong};
use event_schema::Field;
use lucene_lang::{Atom, Clause, Group, Word};
use lucene_scan::{Sort, Token};
use sig_base::{Fault, Place};
use std::alloc::Global;

/// No clause yet.
pub(crate) fn no_clauses(alloc: Global) -> Level
    ensures { level_view result ≡ steps.level [] None false }
{
    Level {
        clauses: Vec::new(alloc),
        word: None,
        negated: false,
    }
}

fn first_ill(before: Option<Ill>, ill: Option<Ill>) -> Option<Ill>
    ensures { view.ill_if result ≡ steps.first_of (view.ill_if before) (view.ill_if ill) }
{
    match before {
        Some(before) => Some(before),
        None => ill,
    }
}

fn first_mixed(before: Option<Place>, mixed: bool, place: Place) -> Option<Place>
    ensures { view.mixed_if result ≡ steps.first_of (view.mixed_if before) (steps.mixed_at mixed (place_view place)) }
{
    if let Some(before) = before {
        return Some(before);
    }
    if mixed { Some(place) } else { None }
}

fn differs(word: Option<Word>, other: Word) -> bool
    ensures { result ≡ faults.differs word other }
{
    match word {
        None => false,
        Some(Word::And) => matches!(other, Word::Or),
        Some(Word::Or) => matches!(other, Word::And),
    }
}

fn first_word(word: Option<Word>, other: Word) -> Word
    ensures { result ≡ faults.first_word word other }
{
    match word {
        None => other,
        Some(word) => word,
    }
}

fn word_or_and(word: Option<Word>) -> Word
    ensures { result ≡ steps.word_or_and word }
{
    match word {
        None => Word::And,
        Some(word) => word,
    }
}

/// The group of a level that ends with this atom.
#[tactic(auto, using(crate::proofs::Levels::parts_more))]
pub(crate) fn ended(level: Level, atom: Atom) -> Result<Group, Fault>
    ensures ok { IfOk result (λ g. group_view g ≡ steps.ended (level_view level) (atom_view atom)) }
    ensures err { IfErr result (λ e. e ≡ Fault.Memory) }
{
    let mut clauses = level.clauses;
    clauses.push(Clause {
        negated: level.negated,
        atom,
    })?;
    Ok(Group {
        word: word_or_and(level.word),
        clauses,
    })
}

/// The level behind this atom and a word.
#[tactic(auto, using(crate::proofs::Levels::parts_more))]
fn joint(atom: Atom, level: Level, word: Word) -> Result<Level, Fault>
    ensures ok { IfOk result (λ l. level_view l ≡ steps.joint (atom_view atom) (level_view level) word) }
    ensures err { IfErr result (λ e. e ≡ Fault.Memory) }
{
    let mut clauses = level.clauses;
    clauses.push(Clause {
        negated: level.negated,
        atom,
    })?;
    Ok(Level {
        clauses,
        word: Some(first_word(level.word, word)),
        negated: false,
    })
}

fn next_state(level: Level, outer: Vec<Level>, wrong: Wrong, next: Option<Next>) -> Option<State>
    ensures { state_if result ≡ steps.next_if (level_view level) (levels_view outer.items) (wrong_view wrong) (next_if next) }
{
    match next {
        None => None,
        Some(Next::Partial(partial)) => Some(State {
            now: Now::Reading(partial),
            level,
            outer,
            wrong,
        }),
        Some(Next::Leaf(leaf)) => Some(State {
            now: Now::Whole(leaf.atom),
            level,
            outer,
            wrong: Wrong {
                mixed: wrong.mixed,
                ill: first_ill(wrong.ill, leaf.ill),
            },
        }),
    }
}

fn reading(level: Level, outer: Vec<Level>, wrong: Wrong, partial: Option<Partial>) -> Option<State>
    ensures { state_if result ≡ steps.reading_if (level_view level) (levels_view outer.items) (wrong_view wrong) (partial_if partial) }
{
    match partial {
        None => None,
        Some(partial) => Some(State {
            now: Now::Reading(partial),
            level,
            outer,
            wrong,
        }),
    }
}

fn on_not(level: Level, outer: Vec<Level>, wrong: Wrong) -> Option<State>
    ensures { state_if result ≡ steps.on_not (level_view level) (levels_view outer.items) (wrong_view wrong) }
{
    if level.negated {
        return None;
    }
    Some(State {
        now: Now::Reading(Partial::Start),
        level: Level {
            clauses: level.clauses,
            word: level.word,
            negated: true,
        },
        outer,
        wrong,
    })
}

#[tactic(auto, using(crate::proofs::Levels::levels_more))]
fn on_opening(alloc: Global, level: Level, outer: Vec<Level>, wrong: Wrong) -> Result<State, Fault>
    ensures ok { IfOk result (λ s. state_view s ≡ steps.state (steps.Reading steps.Start) (steps.level [] None false) (level_view level ∷ levels_view outer.items) (wrong_view wrong)) }
    ensures err { IfErr result (λ e. e ≡ Fault.Memory) }
{
    let mut outer = outer;
    outer.push(level)?;
    Ok(State {
        now: Now::Reading(Partial::Start),
        level: no_clauses(alloc),
        outer,
        wrong,
    })
}

fn at_start(
    alloc: Global,
    fields: &[Field],
    level: Level,
    outer: Vec<Level>,
    wrong: Wrong,
    token: &Token,
) -> Result<Option<State>, Fault>
    requires { length fields.now < 2 ^ 32 }
    ensures ok { IfOk result (λ s. state_if s ≡ steps.at_start fields.now (level_view level) (levels_view outer.items) (wrong_view wrong) (sort_view token.now.sort) (place_view token.now.place)) }
    ensures err { IfErr result (λ e. e ≡ Fault.Memory) }
{
    match token.sort {
        Sort::Not => Ok(on_not(level, outer, wrong)),
        Sort::Opening => Ok(Some(on_opening(alloc, level, outer, wrong)?)),
        _ => {
            let partial = first(alloc, fields, &token.sort, token.place)?;
            Ok(reading(level, outer, wrong, partial))
        }
    }
}

fn group_atom(group: Group) -> Atom
    ensures { atom_view result ≡ OfGroup (group_view group) }
{
    Atom::Group(group)
}

fn close(group: Group, outer: Vec<Level>, wrong: Wrong) -> Option<State>
    ensures { state_if result ≡ steps.close (group_view group) (levels_view outer.items) (wrong_view wrong) }
{
    let mut outer = outer;
    let Some(level) = outer.pop() else {
        return None;
    };
    Some(State {
        now: Now::Whole(group_atom(group)),
        level,
        outer,
        wrong,
    })
}

fn on_word(
    atom: Atom,
    level: Level,
    outer: Vec<Level>,
    wrong: Wrong,
    word: Word,
    place: Place,
) -> Result<State, Fault>
    ensures ok { IfOk result (λ s. state_view s ≡ steps.state (steps.Reading steps.Start) (steps.joint (atom_view atom) (level_view level) word) (levels_view outer.items) (steps.with_mixed (wrong_view wrong) (faults.differs level.word word) (place_view place))) }
    ensures err { IfErr result (λ e. e ≡ Fault.Memory) }
{
    let mixed = first_mixed(wrong.mixed, differs(level.word, word), place);
    let level = joint(atom, level, word)?;
    Ok(State {
        now: Now::Reading(Partial::Start),
        level,
        outer,
        wrong: Wrong {
            mixed,
            ill: wrong.ill,
        },
    })
}

fn behind(
    atom: Atom,
    level: Level,
    outer: Vec<Level>,
    wrong: Wrong,
    token: &Token,
) -> Result<Option<State>, Fault>
    ensures ok { IfOk result (λ s. state_if s ≡ steps.behind (atom_view atom) (level_view level) (levels_view outer.items) (wrong_view wrong) (sort_view token.now.sort) (place_view token.now.place)) }
    ensures err { IfErr result (λ e. e ≡ Fault.Memory) }
{
    match token.sort {
        Sort::Joins(word) => Ok(Some(on_word(atom, level, outer, wrong, word, token.place)?)),
        Sort::Closing => {
            let group = ended(level, atom)?;
            Ok(close(group, outer, wrong))
        }
        _ => Ok(None),
    }
}

/// What a token makes of what was read, or none where no query goes on with it.
#[tactic(auto, unfolding(crate::specs::Steps::step))]
pub(crate) fn step(
    alloc: Global,
    fields: &[Field],
    state: State,
    token: &Token,
) -> Result<Option<State>, Fault>
    requires { length fields.now < 2 ^ 32 }
    ensures ok { IfOk result (λ s. state_if s ≡ steps.step fields.now (state_view state) (token_view token.now)) }
    ensures err { IfErr result (λ e. e ≡ Fault.Memory) }
{
    let State {
        now,
        level,
        outer,
        wrong,
    } = state;
    match now {
        Now::Reading(Partial::Start) => at_start(alloc, fields, level, outer, wrong, token),
        Now::Whole(atom) => behind(atom, level, outer, wrong, token),
        Now::Reading(partial) => {
            let next = go_on(alloc, partial, &token.sort)?;
            Ok(next_state(level, outer, wrong, next))
        }
    }
}
