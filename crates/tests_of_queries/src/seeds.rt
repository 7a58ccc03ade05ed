//! Rules and events of seeds, reckoned by hand.

use crate::tables::assert_told;
use event_schema::{Event, Value};
use generate_run::{after_events, after_three, make_events, make_rule, make_schema};
use modifier_words::Op;
use rule_detections::{Detection, Test};
use std::alloc::Global;
use std::test::Fail;

fn shown(alloc: Global, event: &Event, field: usize) -> Result<String, Fail> {
    match event.get(field) {
        Some(Value::Text(text)) => Ok(String::from_str(alloc, text.as_str())?),
        Some(Value::Whole(number)) => {
            let number = *number;
            Ok(format!(in alloc; "{number}")?)
        }
        None => Ok(String::from_str(alloc, "-")?),
    }
}

fn line_of(alloc: Global, event: &Event) -> Result<String, Fail> {
    let image = shown(alloc, event, 0)?;
    let user = shown(alloc, event, 1)?;
    let code = shown(alloc, event, 2)?;
    let image = image.as_str();
    let user = user.as_str();
    let code = code.as_str();
    Ok(format!(in alloc; "{image}|{user}|{code}")?)
}

fn lines_of(alloc: Global, events: &[Event]) -> Result<String, Fail> {
    let mut lines = String::new(alloc);
    for event in events {
        lines.push_str(line_of(alloc, event)?.as_str())?;
        lines.push(';')?;
    }
    Ok(lines)
}

/// So many events that are drawn from a state.
fn drawn(alloc: Global, state: u32, count: u32) -> Result<String, Fail> {
    let events = make_events(alloc, state, count)?;
    lines_of(alloc, events.as_slice())
}

#[test]
fn events_of_two_seeds(rt: HostRuntime) -> Result<(), Fail> {
    let alloc = rt.alloc();
    assert_told(
        &rt,
        drawn(alloc, after_three(0), 3),
        "-|cmd.exe|70;AND||37;-|100%|97;",
    )?;
    assert_told(
        &rt,
        drawn(alloc, after_three(1), 2),
        "|power shell|96;100%|cmd.exe|0;",
    )?;
    assert_told(
        &rt,
        drawn(alloc, after_events(after_three(1), 1), 1),
        "100%|cmd.exe|0;",
    )
}

/// What a detection of one test asks.
fn asked_by(alloc: Global, detection: &Detection) -> Result<String, Fail> {
    let [items] = detection.alternatives.as_slice() else {
        return Ok(String::from_str(alloc, "alternatives")?);
    };
    let [item] = items.as_slice() else {
        return Ok(String::from_str(alloc, "items")?);
    };
    let [tests] = item.tests.as_slice() else {
        return Ok(String::from_str(alloc, "values")?);
    };
    match tests.as_slice() {
        [
            Test::Fits {
                pattern,
                cased: false,
            },
        ] if pattern.is_written() => {
            let text = pattern.write_sigma(alloc)?;
            Ok(String::from_str(alloc, text.as_str())?)
        }
        [
            Test::Compare {
                op: Op::Gte,
                number,
            },
        ] => Ok(format!(in alloc; "at least {number}")?),
        _ => Ok(String::from_str(alloc, "another test")?),
    }
}

/// What the detections of a seed's rule ask, with `;` behind each.
fn asked(alloc: Global, seed: u32) -> Result<String, Fail> {
    let rule = make_rule(alloc, seed)?;
    let mut all = String::new(alloc);
    for detection in rule.detections.as_slice() {
        all.push_str(asked_by(alloc, detection)?.as_str())?;
        all.push(';')?;
    }
    Ok(all)
}

#[test]
fn rules_of_two_seeds_and_the_schema(rt: HostRuntime) -> Result<(), Fail> {
    let alloc = rt.alloc();
    assert_told(&rt, asked(alloc, 0), "AND;*cmd.exe*;at least 8;")?;
    assert_told(&rt, asked(alloc, 1), "cmd.exe;*cmd.exe*;at least 46;")?;
    assert_eq!(rt; make_schema(alloc)?.fields.as_slice().len(), 3);
    Ok(())
}
