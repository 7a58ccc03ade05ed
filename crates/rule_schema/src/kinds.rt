//! What tests ask of fields, and the kinds that fields have for it.

ghost use Rattle.std.specs.Prelude.{◌≡◌};
ghost use Rattle.std.specs.List.{list_any};
ghost use Rattle.rule_schema.specs.Asked.{asks_view, either_asks};
ghost use Rattle.rule_schema.specs.Kinds as spec;

use event_schema::FieldKind;
use rule_detections::{Test, Tests};

/// What is asked of a field: that it's one of whole numbers, that it's one of addresses.
#[derive(Clone, Copy)]
pub struct Asked {
    pub whole: bool,
    pub address: bool,
}

fn asks_whole(test: &Test) -> bool
    ensures { result ≡ spec.asks_whole test.now }
{
    matches!(test, Test::Compare { .. })
}

fn value_asks_whole(tests: &Tests) -> bool
    ensures { result ≡ list_any spec.asks_whole tests.now }
{
    tests.as_slice().iter().any(asks_whole)
}

/// Whether some test of these values stands on fields of whole numbers alone.
fn ask_whole(values: &[Tests]) -> bool
    ensures { result ≡ spec.some_asks spec.asks_whole values.now }
{
    values.iter().any(value_asks_whole)
}

fn asks_address(test: &Test) -> bool
    ensures { result ≡ spec.asks_address test.now }
{
    matches!(test, Test::Inside(_))
}

fn value_asks_address(tests: &Tests) -> bool
    ensures { result ≡ list_any spec.asks_address tests.now }
{
    tests.as_slice().iter().any(asks_address)
}

/// Whether some test of these values stands on fields of addresses alone.
fn ask_address(values: &[Tests]) -> bool
    ensures { result ≡ spec.some_asks spec.asks_address values.now }
{
    values.iter().any(value_asks_address)
}

/// What the tests of these values ask of their item's fields.
pub fn asked_by(values: &[Tests]) -> Asked
    ensures { asks_view result ≡ spec.asks_of values.now }
{
    Asked {
        whole: ask_whole(values),
        address: ask_address(values),
    }
}

impl Asked {
    /// Nothing.
    pub fn nothing() -> Asked
        ensures { asks_view result ≡ spec.nothing_asked }
    {
        Asked {
            whole: false,
            address: false,
        }
    }

    /// Whether no field is both what is asked here and what is asked there.
    pub fn opposes(self, other: Asked) -> bool
        ensures { result ≡ spec.opposed (asks_view self) (asks_view other) }
    {
        self.whole && other.address || self.address && other.whole
    }

    /// What is asked here or there.
    pub fn and(self, other: Asked) -> Asked
        ensures { asks_view result ≡ either_asks (asks_view self) (asks_view other) }
    {
        Asked {
            whole: self.whole | other.whole,
            address: self.address | other.address,
        }
    }

    /// The kind of a field of which that is asked.
    pub fn kind(self) -> FieldKind
        ensures { result ≡ spec.kind_for (asks_view self) }
    {
        if self.whole {
            return FieldKind::Whole;
        }
        if self.address {
            return FieldKind::Address;
        }
        FieldKind::Text
    }
}
