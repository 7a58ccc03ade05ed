//! The matches of an event.

ghost use Rattle.std.specs.Prelude.{◌≡◌, ◌++◌, ℕ, ◌≤◌, length, false, slice_index_or, IfOk, IfErr, OnOk};
ghost use Rattle.event_schema.specs.Rows.{value_text, field_values, first_value};
ghost use Rattle.correlation_windows.specs.History.{text_at, group_by, counted_text, match_with, event_matches};
ghost use Rattle.correlation_engine.specs.Arrivals.{taken};

use crate::arrival::Arrival;
use correlation_windows::{Bound, Group, Match};
use event_schema::Event;
use sig_base::{Fault, Sequence, Text, Texts};
use std::alloc::Global;

/// The text of the first value that the field of this number has.
fn text_at(alloc: Global, event: &Event, field: u32) -> Result<Option<Text>, Fault>
    ensures ok { IfOk result (λ text. text ≡ text_at event.now.values field) }
    ensures err { IfErr result (λ e. e ≡ Fault.Memory) }
{
    match event.get(field as usize) {
        Some(value) => Ok(Some(value.text(alloc)?)),
        None => Ok(None),
    }
}

/// The group by these fields, unless one of them has no value.
fn group_in(alloc: Global, event: &Event, fields: &[u32]) -> Result<Option<Group>, Fault>
    ensures ok { IfOk result (λ group. group ≡ group_by event.now.values fields.now) }
    ensures err { IfErr result (λ e. e ≡ Fault.Memory) }
{
    let mut texts = Texts::new(alloc);
    for field in fields {
        let Some(text) = text_at(alloc, event, *field)? else {
            return Ok(None);
        };
        texts.push(text)?;
    }
    Ok(Some(Group::of(texts)))
}

/// The text that `value_count` counts.
fn counted_in(alloc: Global, event: &Event, counted: Option<u32>) -> Result<Option<Text>, Fault>
    ensures ok { IfOk result (λ text. text ≡ counted_text event.now.values counted) }
    ensures err { IfErr result (λ e. e ≡ Fault.Memory) }
{
    match counted {
        Some(field) => text_at(alloc, event, field),
        None => Ok(None),
    }
}

/// Whether the rule of this number matches.
fn is_hit(hits: &[bool], rule: u32) -> bool
    ensures { result ≡ slice_index_or hits.now rule false }
{
    match hits.get(rule as usize) {
        Some(hit) => *hit,
        None => false,
    }
}

/// Adds the match with a listed rule, if there is one that has a group.
fn add_match(
    alloc: Global,
    matches: &mut Vec<(Group, Match)>,
    arrival: &Arrival,
    counted: Option<u32>,
    place: u32,
    rule: u32,
    fields: &[u32],
) -> Result<(), Fault>
    ensures ok { OnOk result (matches.new.items ≡ matches.old.items ++ match_with counted (taken arrival.now) place (rule, fields.now)) }
    ensures err { IfErr result (λ e. e ≡ Fault.Memory) }
{
    if !is_hit(arrival.hits, rule) {
        return Ok(());
    }
    let Some(group) = group_in(alloc, arrival.event, fields)? else {
        return Ok(());
    };
    let found = Match {
        line: arrival.line,
        moment: arrival.moment,
        place,
        counted: counted_in(alloc, arrival.event, counted)?,
    };
    matches.push((group, found))?;
    Ok(())
}

/// The matches of an event with the listed rules, each with its group; only want of memory is answered.
pub fn matches_in(
    alloc: Global,
    bound: &Bound,
    arrival: &Arrival,
) -> Result<Vec<(Group, Match)>, Fault>
    requires { length bound.now.rules ≤ 64 }
    ensures ok { IfOk result (λ matches. matches.items ≡ event_matches bound.now (taken arrival.now)) }
    ensures err { IfErr result (λ e. e ≡ Fault.Memory) }
{
    let mut matches = Vec::new(alloc);
    let rules = bound.rules.as_slice();
    let groups = bound.groups.as_slice();
    let mut place = 0;
    while place < rules.len() && place < groups.len() {
        let fields = groups[place].as_slice();
        add_match(
            alloc,
            &mut matches,
            arrival,
            bound.counted,
            place as u32,
            rules[place],
            fields,
        )?;
        place += 1;
    }
    Ok(matches)
}
