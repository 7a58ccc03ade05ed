//! Whether an event's values satisfy items.

ghost use Rattle.std.specs.Prelude.{◌≡◌, ◌↔◌, IsTrue};
ghost use Rattle.event_schema.specs.Lists.{EachOf, SomeOf};
ghost use Rattle.event_schema.specs.Rows.{field_values, values_if_any};
ghost use Rattle.detection_eval.specs.Ready.{OtherHolds, NumberedHolds, Satisfies, ValuesHold, SearchSatisfies, NumberedItemHolds, AlternativesHold};

use crate::finders::Finders;
use crate::numbered::{Asked, NumberedAlternative, NumberedItem, NumberedTest, NumberedTests};
use event_schema::{Event, Value};
use modifier_words::Joined;

/// The values of the field of this number; none where there is no number.
fn values_of(event: &Event, number: Option<u32>) -> &[Value]
    ensures { result.now ≡ values_if_any event.now.values number }
{
    match number {
        Some(field) => event.values(field as usize),
        None => &[],
    }
}

/// Whether a test without the number of a regular expression holds of a field's values in an event.
fn other_holds(event: &Event, own: &[Value], numbered: &NumberedTest) -> bool
    ensures { IsTrue result ↔ OtherHolds event.now.values own.now numbered.now }
{
    if numbered.test.is_expression() {
        return false;
    }
    numbered
        .test
        .holds_of(own, values_of(event, numbered.other))
}

/// Whether a test holds of a field's values in an event.
fn test_holds(
    finders: &mut Finders<'_>,
    event: &Event,
    own: &[Value],
    numbered: &NumberedTest,
) -> bool
    ensures holds { IsTrue result ↔ NumberedHolds finders.old event.now.values own.now numbered.now }
    ensures same { finders.new ≡ finders.old }
{
    match numbered.search {
        Some(number) => finders.find_in_some(number, own),
        None => other_holds(event, own, numbered),
    }
}

/// Whether one of the tests holds of a field's values.
#[tactic(auto, using(crate::proofs::Going::some_ends))]
fn is_satisfied(
    finders: &mut Finders<'_>,
    event: &Event,
    own: &[Value],
    tests: &[NumberedTest],
) -> bool
    ensures holds { IsTrue result ↔ Satisfies finders.old event.now.values own.now tests.now }
    ensures same { finders.new ≡ finders.old }
{
    for test in tests {
        if test_holds(finders, event, own, test) {
            return true;
        }
    }
    false
}

/// Whether a value of an item is satisfied by a field's values.
fn satisfies(finders: &mut Finders<'_>, event: &Event, own: &[Value], tests: &NumberedTests) -> bool
    ensures holds { IsTrue result ↔ Satisfies finders.old event.now.values own.now tests.now }
    ensures same { finders.new ≡ finders.old }
{
    is_satisfied(finders, event, own, tests.as_slice())
}

#[tactic(auto, using(crate::proofs::Going::each_ends))]
fn each_satisfied(
    finders: &mut Finders<'_>,
    event: &Event,
    own: &[Value],
    values: &[NumberedTests],
) -> bool
    ensures holds { IsTrue result ↔ EachOf (Satisfies finders.old event.now.values own.now) values.now }
    ensures same { finders.new ≡ finders.old }
{
    for tests in values {
        if !satisfies(finders, event, own, tests) {
            return false;
        }
    }
    true
}

#[tactic(auto, using(crate::proofs::Going::some_ends))]
fn some_satisfied(
    finders: &mut Finders<'_>,
    event: &Event,
    own: &[Value],
    values: &[NumberedTests],
) -> bool
    ensures holds { IsTrue result ↔ SomeOf (Satisfies finders.old event.now.values own.now) values.now }
    ensures same { finders.new ≡ finders.old }
{
    for tests in values {
        if satisfies(finders, event, own, tests) {
            return true;
        }
    }
    false
}

/// Whether all values of an item are satisfied by a field's values, or some one.
fn are_satisfied(
    finders: &mut Finders<'_>,
    event: &Event,
    joined: Joined,
    own: &[Value],
    values: &[NumberedTests],
) -> bool
    ensures holds { IsTrue result ↔ ValuesHold joined (Satisfies finders.old event.now.values own.now) values.now }
    ensures same { finders.new ≡ finders.old }
{
    match joined {
        Joined::All => each_satisfied(finders, event, own, values),
        Joined::Any => some_satisfied(finders, event, own, values),
    }
}

/// Whether the values of an item are satisfied by the field of this number.
fn field_satisfies(
    finders: &mut Finders<'_>,
    event: &Event,
    joined: Joined,
    values: &[NumberedTests],
    number: Option<u32>,
) -> bool
    ensures holds { IsTrue result ↔ ValuesHold joined (Satisfies finders.old event.now.values (values_if_any event.now.values number)) values.now }
    ensures same { finders.new ≡ finders.old }
{
    are_satisfied(finders, event, joined, values_of(event, number), values)
}

/// Whether the values of an item are satisfied by some one of its fields.
#[tactic(auto, using(crate::proofs::Going::some_ends))]
fn some_field_satisfies(
    finders: &mut Finders<'_>,
    event: &Event,
    joined: Joined,
    values: &[NumberedTests],
    numbers: &[Option<u32>],
) -> bool
    ensures holds { IsTrue result ↔ SomeOf (λ number. ValuesHold joined (Satisfies finders.old event.now.values (values_if_any event.now.values number)) values.now) numbers.now }
    ensures same { finders.new ≡ finders.old }
{
    for number in numbers {
        if field_satisfies(finders, event, joined, values, *number) {
            return true;
        }
    }
    false
}

/// Whether a value is satisfied by the field of this number.
fn is_satisfied_at(
    finders: &mut Finders<'_>,
    event: &Event,
    tests: &[NumberedTest],
    field: u32,
) -> bool
    ensures holds { IsTrue result ↔ Satisfies finders.old event.now.values (field_values event.now.values field) tests.now }
    ensures same { finders.new ≡ finders.old }
{
    is_satisfied(finders, event, event.values(field as usize), tests)
}

/// Whether a value is satisfied by some one of these fields.
#[tactic(auto, using(crate::proofs::Going::some_ends))]
fn some_search_satisfies(
    finders: &mut Finders<'_>,
    event: &Event,
    searched: &[u32],
    tests: &[NumberedTest],
) -> bool
    ensures holds { IsTrue result ↔ SearchSatisfies finders.old searched.now event.now.values tests.now }
    ensures same { finders.new ≡ finders.old }
{
    for field in searched {
        if is_satisfied_at(finders, event, tests, *field) {
            return true;
        }
    }
    false
}

/// Whether a keyword's value is satisfied by some one of these fields.
fn search_satisfies(
    finders: &mut Finders<'_>,
    event: &Event,
    searched: &[u32],
    tests: &NumberedTests,
) -> bool
    ensures holds { IsTrue result ↔ SearchSatisfies finders.old searched.now event.now.values tests.now }
    ensures same { finders.new ≡ finders.old }
{
    some_search_satisfies(finders, event, searched, tests.as_slice())
}

#[tactic(auto, using(crate::proofs::Going::each_ends))]
fn each_keyword_satisfied(
    finders: &mut Finders<'_>,
    event: &Event,
    searched: &[u32],
    values: &[NumberedTests],
) -> bool
    ensures holds { IsTrue result ↔ EachOf (SearchSatisfies finders.old searched.now event.now.values) values.now }
    ensures same { finders.new ≡ finders.old }
{
    for tests in values {
        if !search_satisfies(finders, event, searched, tests) {
            return false;
        }
    }
    true
}

#[tactic(auto, using(crate::proofs::Going::some_ends))]
fn some_keyword_satisfied(
    finders: &mut Finders<'_>,
    event: &Event,
    searched: &[u32],
    values: &[NumberedTests],
) -> bool
    ensures holds { IsTrue result ↔ SomeOf (SearchSatisfies finders.old searched.now event.now.values) values.now }
    ensures same { finders.new ≡ finders.old }
{
    for tests in values {
        if search_satisfies(finders, event, searched, tests) {
            return true;
        }
    }
    false
}

/// Whether all values of a keyword are satisfied, or some one.
fn are_keywords_satisfied(
    finders: &mut Finders<'_>,
    event: &Event,
    searched: &[u32],
    joined: Joined,
    values: &[NumberedTests],
) -> bool
    ensures holds { IsTrue result ↔ ValuesHold joined (SearchSatisfies finders.old searched.now event.now.values) values.now }
    ensures same { finders.new ≡ finders.old }
{
    match joined {
        Joined::All => each_keyword_satisfied(finders, event, searched, values),
        Joined::Any => some_keyword_satisfied(finders, event, searched, values),
    }
}

fn item_holds(
    finders: &mut Finders<'_>,
    event: &Event,
    searched: &[u32],
    item: &NumberedItem,
) -> bool
    ensures holds { IsTrue result ↔ NumberedItemHolds finders.old searched.now event.now.values item.now }
    ensures same { finders.new ≡ finders.old }
{
    match &item.asked {
        Asked::Searched => {
            are_keywords_satisfied(finders, event, searched, item.joined, item.tests.as_slice())
        }
        Asked::Numbers(numbers) => {
            some_field_satisfies(
                finders,
                event,
                item.joined,
                item.tests.as_slice(),
                numbers.as_slice(),
            )
        }
    }
}

#[tactic(auto, using(crate::proofs::Going::each_ends))]
fn each_item_holds(
    finders: &mut Finders<'_>,
    event: &Event,
    searched: &[u32],
    items: &[NumberedItem],
) -> bool
    ensures holds { IsTrue result ↔ EachOf (NumberedItemHolds finders.old searched.now event.now.values) items.now }
    ensures same { finders.new ≡ finders.old }
{
    for item in items {
        if !item_holds(finders, event, searched, item) {
            return false;
        }
    }
    true
}

fn alternative_holds(
    finders: &mut Finders<'_>,
    event: &Event,
    searched: &[u32],
    items: &NumberedAlternative,
) -> bool
    ensures holds { IsTrue result ↔ EachOf (NumberedItemHolds finders.old searched.now event.now.values) items.now }
    ensures same { finders.new ≡ finders.old }
{
    each_item_holds(finders, event, searched, items.as_slice())
}

/// Whether some one of a detection's alternatives holds.
#[tactic(auto, using(crate::proofs::Going::some_ends))]
pub fn some_alternative_holds(
    finders: &mut Finders<'_>,
    event: &Event,
    searched: &[u32],
    alternatives: &[NumberedAlternative],
) -> bool
    ensures holds { IsTrue result ↔ AlternativesHold finders.old searched.now event.now.values alternatives.now }
    ensures same { finders.new ≡ finders.old }
{
    for items in alternatives {
        if alternative_holds(finders, event, searched, items) {
            return true;
        }
    }
    false
}
