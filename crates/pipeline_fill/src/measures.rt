//! How many tests will take the place of some, and how long the longest pattern of them will be and all patterns together, before
//! anything is made.

ghost use Rattle.std.specs.Prelude.{◌≡◌, ◌+◌, ◌*◌, ◌==◌, if◌then◌else◌, length, map as list_map, false, IfOk, IfErr};
ghost use Rattle.std.specs.List.{list_any};
ghost use Rattle.sig_strings.specs.declared.part.Part.{Part};
ghost use Rattle.pipeline_limits.specs.Sizes.{total, part_count as part_count_of};
ghost use Rattle.pipeline_fill.specs.Changed as changed;
ghost use Rattle.pipeline_fill.specs.Counts.{capped};
ghost use Rattle.pipeline_fill.specs.Entries as spec;
ghost use Rattle.pipeline_fill.specs.Extent.{value_extent};
ghost use Rattle.pipeline_fill.specs.Filled.{lacks_values};
ghost use Rattle.pipeline_fill.specs.Grown as grown;
ghost use Rattle.pipeline_fill.specs.Longest.{longest_value};
ghost use Rattle.pipeline_fill.specs.Made.{fills, counted, summed, filled_extent, made_count, longest_made, extent_made, IsMeasured, IsGrowth};

use crate::change::Change;
use crate::filling::Filling;
use crate::growth::{Growth, add, larger, times};
use pipeline_model::Action;
use rule_detections::{Test, Tests};
use sig_base::Fault;
use sig_strings::{Part, SharedPattern};
use std::alloc::Global;

/// A test that stays, whose pattern has so many parts.
fn one_test(parts: usize) -> Growth
    ensures { IsGrowth 1 parts parts false result }
{
    Growth {
        tests: 1,
        longest: parts as u128,
        extent: parts as u128,
        lacking: false,
    }
}

/// How many parts patterns have together, of which there are so many with so many parts, with each filling behind each.
#[tactic(auto, using(crate::proofs::Products::behind_each))]
fn extended_by(tests: u128, extent: u128, filling: &Filling) -> u128
    ensures { (part : Part) → IsMeasured filling.now → result ≡ capped (extent * length (fills part filling.now) + tests * total length (fills part filling.now)) }
{
    add(
        times(extent, filling.count() as u128),
        times(tests, filling.extent()),
    )
}

/// How many patterns are made of one, how many parts the longest has if there is one, and how many all have together.
fn measure_fillings(alloc: Global, change: &Change, parts: &[Part]) -> Result<Growth, Fault>
    ensures tests { IfOk result (λ g. g.tests ≡ capped (counted change.now.vars.now change.now.step.now.action parts.now)) }
    ensures longest { IfOk result (λ g. g.longest ≡ capped (summed change.now.vars.now change.now.step.now.action parts.now)) }
    ensures extent { IfOk result (λ g. g.extent ≡ capped (filled_extent change.now.vars.now change.now.step.now.action parts.now)) }
    ensures lacking { IfOk result (λ g. g.lacking ≡ list_any (lacks_values change.now.vars.now change.now.step.now.action) parts.now) }
    ensures err { IfErr result (λ e. e ≡ Fault.Memory) }
{
    let mut tests = 1;
    let mut longest = 0;
    let mut extent = 0;
    let mut lacking = false;
    for part in parts {
        let filling = change.filling(alloc, part)?;
        extent = extended_by(tests, extent, &filling);
        tests = times(tests, filling.count() as u128);
        longest = add(longest, filling.longest() as u128);
        lacking = lacking | filling.is_missing();
    }
    Ok(Growth {
        tests,
        longest,
        extent,
        lacking,
    })
}

/// The longest pattern of none has no parts.
fn longest_if_any(growth: Growth) -> u128
    ensures { result ≡ (if growth.tests == 0 then 0 else growth.longest) }
{
    if growth.tests == 0 { 0 } else { growth.longest }
}

#[tactic(auto, using(crate::proofs::Growing::stays_closed, crate::proofs::Growing::stays_unfilled, crate::proofs::Growing::is_filled))]
fn measure_holes(alloc: Global, change: &Change, parts: &[Part]) -> Result<Growth, Fault>
    ensures ok { IfOk result (λ g. IsGrowth (made_count (changed.filled_if_chosen change.now.vars.now change.now.step.now.action parts.now))
        (longest_made parts.now (changed.filled_if_chosen change.now.vars.now change.now.step.now.action parts.now))
        (extent_made parts.now (changed.filled_if_chosen change.now.vars.now change.now.step.now.action parts.now))
        (list_any (lacks_values change.now.vars.now change.now.step.now.action) parts.now) g) }
    ensures err { IfErr result (λ e. e ≡ Fault.Memory) }
{
    if !change.has_chosen(alloc, parts)? {
        return Ok(one_test(parts.len()));
    }
    let growth = measure_fillings(alloc, change, parts)?;
    let longest = longest_if_any(growth);
    Ok(Growth {
        tests: growth.tests,
        longest,
        extent: growth.extent,
        lacking: growth.lacking,
    })
}

fn measure_mapped(alloc: Global, change: &Change, pattern: &SharedPattern) -> Result<Growth, Fault>
    ensures ok { IfOk result (λ g. IsGrowth (made_count (changed.mapped (spec.entries_of change.now.vars.now change.now.step.now.action) pattern.now))
        (longest_made pattern.now (changed.mapped (spec.entries_of change.now.vars.now change.now.step.now.action) pattern.now))
        (extent_made pattern.now (changed.mapped (spec.entries_of change.now.vars.now change.now.step.now.action) pattern.now)) false g) }
    ensures err { IfErr result (λ e. e ≡ Fault.Memory) }
{
    let Some(text) = pattern.plain_text(alloc)? else {
        return Ok(one_test(pattern.parts().len()));
    };
    match change.entry_of(&text) {
        Some(entry) => Ok(Growth {
            tests: entry.texts.len() as u128,
            longest: entry.longest as u128,
            extent: entry.extent,
            lacking: false,
        }),
        None => Ok(one_test(pattern.parts().len())),
    }
}

fn measure_pattern(alloc: Global, change: &Change, pattern: &SharedPattern) -> Result<Growth, Fault>
    ensures ok { IfOk result (λ g. IsGrowth (made_count (changed.made_of change.now.vars.now change.now.step.now.action pattern.now))
        (longest_made pattern.now (changed.made_of change.now.vars.now change.now.step.now.action pattern.now))
        (extent_made pattern.now (changed.made_of change.now.vars.now change.now.step.now.action pattern.now))
        (grown.leaves_open change.now.vars.now change.now.step.now.action pattern.now) g) }
    ensures err { IfErr result (λ e. e ≡ Fault.Memory) }
{
    match &change.step.action {
        Action::MapTexts(_) => measure_mapped(alloc, change, pattern),
        Action::FillHoles(_) => measure_holes(alloc, change, pattern.parts()),
        Action::WildHoles(_) => measure_holes(alloc, change, pattern.parts()),
        Action::MapNames(_)
        | Action::Prefix(_)
        | Action::Suffix(_)
        | Action::MapPrefixes(_)
        | Action::Drop
        | Action::Add { .. }
        | Action::Source(_)
        | Action::FailRule(_)
        | Action::FailItem(_) => Ok(one_test(pattern.parts().len())),
    }
}

/// What a test grows to.
#[tactic(auto, using(crate::proofs::Growing::grown_test))]
fn measure_test(alloc: Global, change: &Change, test: &Test) -> Result<Growth, Fault>
    ensures ok { IfOk result (λ g. IsGrowth (length (changed.changed_test change.now.vars.now change.now.step.now.action test.now))
        (longest_value (changed.changed_test change.now.vars.now change.now.step.now.action test.now))
        (value_extent (changed.changed_test change.now.vars.now change.now.step.now.action test.now))
        (grown.is_open change.now.vars.now change.now.step.now.action test.now) g) }
    ensures err { IfErr result (λ e. e ≡ Fault.Memory) }
{
    match test {
        Test::Fits { pattern, cased: _ } => measure_pattern(alloc, change, pattern),
        Test::Absent
        | Test::Exists(_)
        | Test::Equals(_)
        | Test::Inside(_)
        | Test::Compare { .. }
        | Test::SameAs(_)
        | Test::Finds { .. } => Ok(one_test(0)),
    }
}

/// What the tests of a value grow to.
#[tactic(auto, using(crate::proofs::Sums::flat_turn, crate::proofs::Sums::longest_turn, crate::proofs::Sums::flat_sum_turn, crate::proofs::Sums::any_turn))]
fn measure_value(alloc: Global, change: &Change, value: &[Test]) -> Result<Growth, Fault>
    ensures ok { IfOk result (λ g. IsGrowth (length (changed.changed_value change.now.vars.now change.now.step.now.action value.now))
        (longest_value (changed.changed_value change.now.vars.now change.now.step.now.action value.now))
        (value_extent (changed.changed_value change.now.vars.now change.now.step.now.action value.now))
        (list_any (grown.is_open change.now.vars.now change.now.step.now.action) value.now) g) }
    ensures err { IfErr result (λ e. e ≡ Fault.Memory) }
{
    let mut tests = 0;
    let mut longest = 0;
    let mut extent = 0;
    let mut lacking = false;
    for test in value {
        let growth = measure_test(alloc, change, test)?;
        tests = add(tests, growth.tests);
        longest = larger(longest, growth.longest);
        extent = add(extent, growth.extent);
        lacking = lacking | growth.lacking;
    }
    Ok(Growth {
        tests,
        longest,
        extent,
        lacking,
    })
}

/// What the values of an item grow to.
#[tactic(auto, using(crate::proofs::Sums::sum_turn, crate::proofs::Sums::most_turn))]
pub fn measure_values(alloc: Global, change: &Change, values: &[Tests]) -> Result<Growth, Fault>
    ensures ok { IfOk result (λ g. IsGrowth (total length (list_map (changed.changed_value change.now.vars.now change.now.step.now.action) values.now))
        (spec.largest longest_value (list_map (changed.changed_value change.now.vars.now change.now.step.now.action) values.now))
        (total value_extent (list_map (changed.changed_value change.now.vars.now change.now.step.now.action) values.now))
        (list_any (list_any (grown.is_open change.now.vars.now change.now.step.now.action)) values.now) g) }
    ensures err { IfErr result (λ e. e ≡ Fault.Memory) }
{
    let mut tests = 0;
    let mut longest = 0;
    let mut extent = 0;
    let mut lacking = false;
    for value in values {
        let growth = measure_value(alloc, change, value.as_slice())?;
        tests = add(tests, growth.tests);
        longest = larger(longest, growth.longest);
        extent = add(extent, growth.extent);
        lacking = lacking | growth.lacking;
    }
    Ok(Growth {
        tests,
        longest,
        extent,
        lacking,
    })
}

fn part_count(test: &Test) -> u128
    ensures { result ≡ capped (part_count_of test.now) }
{
    match test {
        Test::Fits { pattern, cased: _ } => pattern.parts().len() as u128,
        Test::Absent
        | Test::Exists(_)
        | Test::Equals(_)
        | Test::Inside(_)
        | Test::Compare { .. }
        | Test::SameAs(_)
        | Test::Finds { .. } => 0,
    }
}

#[tactic(auto, using(crate::proofs::Sums::largest_turn))]
fn longest_kept(value: &[Test]) -> u128
    ensures { result ≡ capped (longest_value value.now) }
{
    let mut longest = 0;
    for test in value {
        longest = larger(longest, part_count(test));
    }
    longest
}

fn extent_kept(value: &[Test]) -> u128
    ensures { result ≡ capped (value_extent value.now) }
{
    let mut extent = 0;
    for test in value {
        extent = add(extent, part_count(test));
    }
    extent
}

/// How many tests values have that stay, and how long their longest pattern is and all patterns together.
#[tactic(auto, using(crate::proofs::Sums::largest_turn))]
pub fn measure_kept(values: &[Tests]) -> Growth
    ensures { IsGrowth (total length values.now) (spec.largest longest_value values.now) (total value_extent values.now) false result }
{
    let mut tests = 0;
    let mut longest = 0;
    let mut extent = 0;
    for value in values {
        tests = add(tests, value.as_slice().len() as u128);
        longest = larger(longest, longest_kept(value.as_slice()));
        extent = add(extent, extent_kept(value.as_slice()));
    }
    Growth {
        tests,
        longest,
        extent,
        lacking: false,
    }
}
