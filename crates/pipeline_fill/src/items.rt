//! Items with other tests, and what holds them.

ghost use Rattle.std.specs.Prelude.{◌≡◌, map as list_map, IfOk, IfErr};
ghost use Rattle.pipeline_fill.specs.Changed as changed;

use crate::change::Change;
use crate::made::change_value;
use rule_detections::{Alternative, Alternatives, Detection, Detections, Item, Tests, Values};
use sig_base::Fault;
use std::alloc::Global;

fn change_values(alloc: Global, change: &Change, values: Vec<Tests>) -> Result<Values, Fault>
    ensures ok { IfOk result (λ vs. vs ≡ list_map (changed.changed_value change.now.vars.now change.now.step.now.action) values.items) }
    ensures err { IfErr result (λ e. e ≡ Fault.Memory) }
{
    let mut made = Values::with_capacity(alloc, values.len())?;
    for tests in values {
        made.push(change_value(alloc, change, tests.into_vec())?)?;
    }
    Ok(made)
}

fn change_item(alloc: Global, change: &Change, item: Item) -> Result<Item, Fault>
    ensures ok { IfOk result (λ i. i ≡ changed.changed_item change.now.vars.now change.now.step.now item) }
    ensures err { IfErr result (λ e. e ≡ Fault.Memory) }
{
    if !change.acts_on(&item.fields) {
        return Ok(item);
    }
    let Item {
        fields,
        tests,
        joined,
        place,
    } = item;
    let tests = change_values(alloc, change, tests.into_vec())?;
    Ok(Item {
        fields,
        tests,
        joined,
        place,
    })
}

fn change_items(alloc: Global, change: &Change, items: Vec<Item>) -> Result<Alternative, Fault>
    ensures ok { IfOk result (λ a. a ≡ changed.changed_items change.now.vars.now change.now.step.now items.items) }
    ensures err { IfErr result (λ e. e ≡ Fault.Memory) }
{
    let mut made = Alternative::with_capacity(alloc, items.len())?;
    for item in items {
        made.push(change_item(alloc, change, item)?)?;
    }
    Ok(made)
}

fn change_alternatives(
    alloc: Global,
    change: &Change,
    alternatives: Vec<Alternative>,
) -> Result<Alternatives, Fault>
    ensures ok { IfOk result (λ a. a ≡ list_map (changed.changed_items change.now.vars.now change.now.step.now) alternatives.items) }
    ensures err { IfErr result (λ e. e ≡ Fault.Memory) }
{
    let mut made = Alternatives::with_capacity(alloc, alternatives.len())?;
    for items in alternatives {
        made.push(change_items(alloc, change, items.into_vec())?)?;
    }
    Ok(made)
}

fn change_detection(
    alloc: Global,
    change: &Change,
    detection: Detection,
) -> Result<Detection, Fault>
    ensures ok { IfOk result (λ d. d ≡ changed.changed_detection change.now.vars.now change.now.step.now detection) }
    ensures err { IfErr result (λ e. e ≡ Fault.Memory) }
{
    let Detection {
        name,
        alternatives,
        place,
    } = detection;
    let alternatives = change_alternatives(alloc, change, alternatives.into_vec())?;
    Ok(Detection {
        name,
        alternatives,
        place,
    })
}

/// The detections with other tests, which are made without a question whether there is room for them.
pub fn change_detections(
    alloc: Global,
    change: &Change,
    detections: Vec<Detection>,
) -> Result<Detections, Fault>
    ensures ok { IfOk result (λ ds. ds ≡ changed.changed_detections change.now.vars.now change.now.step.now detections.items) }
    ensures err { IfErr result (λ e. e ≡ Fault.Memory) }
{
    let mut made = Detections::with_capacity(alloc, detections.len())?;
    for detection in detections {
        made.push(change_detection(alloc, change, detection)?)?;
    }
    Ok(made)
}
