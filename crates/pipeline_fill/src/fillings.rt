//! Patterns whose placeholders are filled.

ghost use Rattle.std.specs.Prelude.{◌≡◌, ◌++◌, ◌∷◌, [], map as list_map, IfOk, IfErr, OnOk};
ghost use Rattle.pipeline_fill.specs.Filled as spec;
ghost use Rattle.pipeline_fill.specs.Made.{fills};

use crate::change::Change;
use crate::filling::Filling;
use crate::read_texts::{Front, read_values};
use sig_base::Fault;
use sig_strings::Part;
use std::alloc::Global;

/// Adds copies of the parts.
fn push_parts(front: &mut Front, more: &[Part]) -> Result<(), Fault>
    ensures ok { OnOk result (front.new ≡ front.old ++ more.now) }
    ensures err { IfErr result (λ e. e ≡ Fault.Memory) }
{
    for part in more {
        front.push(part.clone()?)?;
    }
    Ok(())
}

/// The first parts, and behind them the second.
fn joined(alloc: Global, front: &[Part], more: &[Part]) -> Result<Front, Fault>
    ensures ok { IfOk result (λ f. f ≡ front.now ++ more.now) }
    ensures err { IfErr result (λ e. e ≡ Fault.Memory) }
{
    let mut parts = Front::with_capacity(alloc, front.len())?;
    push_parts(&mut parts, front)?;
    push_parts(&mut parts, more)?;
    Ok(parts)
}

fn one_part(alloc: Global, part: Part) -> Result<Vec<Front>, Fault>
    ensures ok { IfOk result (λ all. all.items ≡ (part ∷ []) ∷ []) }
    ensures err { IfErr result (λ e. e ≡ Fault.Memory) }
{
    let mut front = Front::with_capacity(alloc, 1)?;
    front.push(part)?;
    let mut all = Vec::with_capacity(alloc, 1)?;
    all.push(front)?;
    Ok(all)
}

/// The patterns that may stand in a part's place.
fn choices(alloc: Global, part: &Part, filling: Filling) -> Result<Vec<Front>, Fault>
    ensures ok { IfOk result (λ all. all.items ≡ fills part.now filling.entry) }
    ensures err { IfErr result (λ e. e ≡ Fault.Memory) }
{
    match filling {
        Filling::Itself => one_part(alloc, part.clone()?),
        Filling::Run => one_part(alloc, Part::Run),
        Filling::Values(entry) => read_values(alloc, entry.texts),
        Filling::Missing => Ok(Vec::new(alloc)),
    }
}

/// Each of the fronts with these parts behind it, without a copy of the front.
fn extend_each(alloc: Global, fronts: Vec<Front>, more: &[Part]) -> Result<Vec<Front>, Fault>
    ensures ok { IfOk result (λ all. all.items ≡ list_map (λ front. front ++ more.now) fronts.items) }
    ensures err { IfErr result (λ e. e ≡ Fault.Memory) }
{
    let mut all = Vec::with_capacity(alloc, fronts.len())?;
    for front in fronts {
        let mut longer = front;
        push_parts(&mut longer, more)?;
        all.push(longer)?;
    }
    Ok(all)
}

fn push_joined(
    alloc: Global,
    all: &mut Vec<Front>,
    front: &[Part],
    more: &[Front],
) -> Result<(), Fault>
    ensures ok { OnOk result (all.new.items ≡ all.old.items ++ list_map (λ rest. front.now ++ rest) more.now) }
    ensures err { IfErr result (λ e. e ≡ Fault.Memory) }
{
    for rest in more {
        all.push(joined(alloc, front, rest.as_slice())?)?;
    }
    Ok(())
}

/// Each of the fronts with each of the patterns behind it; the fronts vary slower.
fn join_each(alloc: Global, fronts: &[Front], more: &[Front]) -> Result<Vec<Front>, Fault>
    ensures ok { IfOk result (λ all. all.items ≡ spec.crossed fronts.now more.now) }
    ensures err { IfErr result (λ e. e ≡ Fault.Memory) }
{
    let mut all = Vec::new(alloc);
    for front in fronts {
        push_joined(alloc, &mut all, front.as_slice(), more)?;
    }
    Ok(all)
}

/// The fronts with what may stand behind them. Where it's one pattern, as in most places, no front is copied.
fn extended(alloc: Global, fronts: Vec<Front>, more: &[Front]) -> Result<Vec<Front>, Fault>
    ensures ok { IfOk result (λ all. all.items ≡ spec.crossed fronts.items more.now) }
    ensures err { IfErr result (λ e. e ≡ Fault.Memory) }
{
    if let [one] = more {
        return extend_each(alloc, fronts, one.as_slice());
    }
    join_each(alloc, &fronts, more)
}

/// The fronts with each thing that may stand in the part's place behind them.
fn extend(
    alloc: Global,
    change: &Change,
    fronts: Vec<Front>,
    part: &Part,
) -> Result<Vec<Front>, Fault>
    ensures ok { IfOk result (λ all. all.items ≡ spec.crossed fronts.items (spec.choices change.now.vars.now change.now.step.now.action part.now)) }
    ensures err { IfErr result (λ e. e ≡ Fault.Memory) }
{
    let filling = change.filling(alloc, part)?;
    let more = choices(alloc, part, filling)?;
    extended(alloc, fronts, more.as_slice())
}

/// All fillings of a pattern, of which the first placeholder varies slowest.
#[tactic(auto, using(crate::proofs::Crossing::fill_start, crate::proofs::Crossing::fill_turn, crate::proofs::Crossing::fill_end))]
pub fn fill(alloc: Global, change: &Change, parts: &[Part]) -> Result<Vec<Front>, Fault>
    ensures ok { IfOk result (λ all. all.items ≡ spec.filled change.now.vars.now change.now.step.now.action parts.now) }
    ensures err { IfErr result (λ e. e ≡ Fault.Memory) }
{
    let mut fronts = Vec::with_capacity(alloc, 1)?;
    fronts.push(Front::new(alloc))?;
    for part in parts {
        fronts = extend(alloc, change, fronts, part)?;
    }
    Ok(fronts)
}
