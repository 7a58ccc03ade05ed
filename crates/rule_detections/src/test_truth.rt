//! Whether tests hold of the values of events.

ghost use Rattle.std.specs.Prelude.{◌≡◌, ◌↔◌, IsTrue, List, None, ℕ};
ghost use Rattle.std.specs.Fmt.{signed_decimal};
ghost use Rattle.std.specs.Str.{bytes_eq, chars};
ghost use Rattle.event_schema.specs.Lists.{SomeOf, HasNoElement};
ghost use Rattle.event_schema.specs.Rows.{value_text, values_at};
ghost use Rattle.sig_encode.specs.Networks.{InNetwork};
ghost use Rattle.sig_base.specs.Folding.{folded};
ghost use Rattle.rule_detections.specs.TestExpressions.{expression_of};
ghost use Rattle.rule_detections.specs.References.{IsReference};
ghost use Rattle.rule_detections.specs.Holds.{AreSame, Holds, Stands, ValueStands};
ghost use Rattle.sig_strings.specs.Fits.{Fits};

use crate::test::Test;
use event_schema::{Event, Schema, Value, decimal_in, is_decimal};
use itoa::Buffer;
use modifier_words::Op;
use sig_base::{Text, same_folded};
use sig_encode::Network;
use sig_strings::SharedPattern;

/// Whether a value is this number, or a text that is its decimal.
fn is_number(value: &Value, number: &i64) -> bool
    ensures { IsTrue result ↔ (value_text value.now ≡ signed_decimal number.now) }
{
    match value {
        Value::Text(text) => is_decimal(text.as_str(), *number),
        Value::Whole(own) => {
            let mut buffer = Buffer::new();
            is_decimal(decimal_in(&mut buffer, *own), *number)
        }
    }
}

fn fits_value(pattern: &SharedPattern, cased: bool, value: &Value) -> bool
    ensures { IsTrue result ↔ Fits pattern.now (value_text value.now) cased }
{
    match value {
        Value::Text(text) => pattern.fits(text.as_str(), cased),
        Value::Whole(number) => {
            let mut buffer = Buffer::new();
            pattern.fits(decimal_in(&mut buffer, *number), cased)
        }
    }
}

/// Whether a value is an address of the network.
fn is_inside(network: &Network, value: &Value) -> bool
    ensures { IsTrue result ↔ InNetwork network.now (value_text value.now) }
{
    match value {
        Value::Text(text) => network.holds(text.as_str()),
        Value::Whole(number) => {
            let mut buffer = Buffer::new();
            network.holds(decimal_in(&mut buffer, *number))
        }
    }
}

fn is_none(values: &[Value]) -> bool
    ensures { IsTrue result ↔ HasNoElement values.now }
{
    values.is_empty()
}

fn some_is_number(values: &[Value], number: &i64) -> bool
    ensures { IsTrue result ↔ SomeOf (λ value. value_text value ≡ signed_decimal number.now) values.now }
{
    for value in values {
        if is_number(value, number) {
            return true;
        }
    }
    false
}

fn some_fits(values: &[Value], pattern: &SharedPattern, cased: bool) -> bool
    ensures { IsTrue result ↔ SomeOf (λ value. Fits pattern.now (value_text value) cased) values.now }
{
    for value in values {
        if fits_value(pattern, cased, value) {
            return true;
        }
    }
    false
}

fn some_is_inside(values: &[Value], network: &Network) -> bool
    ensures { IsTrue result ↔ SomeOf (λ value. InNetwork network.now (value_text value)) values.now }
{
    for value in values {
        if is_inside(network, value) {
            return true;
        }
    }
    false
}

fn stands(op: Op, number: i64, own: i64) -> bool
    ensures { IsTrue result ↔ Stands op number own }
{
    match op {
        Op::Lt => own < number,
        Op::Lte => own <= number,
        Op::Gt => own > number,
        Op::Gte => own >= number,
    }
}

/// Whether a value is a whole number that stands so to this one.
fn value_stands(op: Op, number: &i64, value: &Value) -> bool
    ensures { IsTrue result ↔ ValueStands op number.now value.now }
{
    match value {
        Value::Text(_) => false,
        Value::Whole(own) => stands(op, *number, *own),
    }
}

fn some_stands(values: &[Value], op: Op, number: &i64) -> bool
    ensures { IsTrue result ↔ SomeOf (ValueStands op number.now) values.now }
{
    for value in values {
        if value_stands(op, number, value) {
            return true;
        }
    }
    false
}

/// Whether two values have one text, where A to Z are taken for a to z.
fn are_same(value: &Value, other: &Value) -> bool
    ensures { IsTrue result ↔ AreSame value.now other.now }
{
    match value {
        Value::Text(text) => has_text(other, text.as_str()),
        Value::Whole(number) => {
            let mut buffer = Buffer::new();
            has_text(other, decimal_in(&mut buffer, *number))
        }
    }
}

/// Whether a value's text is this one, where A to Z are taken for a to z.
fn has_text(value: &Value, text: &str) -> bool
    ensures { IsTrue result ↔ (folded (chars text.now) ≡ folded (value_text value.now)) }
{
    match value {
        Value::Text(own) => same_folded(text, own.as_str()),
        Value::Whole(number) => {
            let mut buffer = Buffer::new();
            same_folded(text, decimal_in(&mut buffer, *number))
        }
    }
}

fn same_as_some(value: &Value, others: &[Value]) -> bool
    ensures { IsTrue result ↔ SomeOf (AreSame value.now) others.now }
{
    for other in others {
        if are_same(value, other) {
            return true;
        }
    }
    false
}

fn some_is_same(values: &[Value], others: &[Value]) -> bool
    ensures { IsTrue result ↔ SomeOf (λ value. SomeOf (AreSame value) others.now) values.now }
{
    for value in values {
        if same_as_some(value, others) {
            return true;
        }
    }
    false
}

impl Test {
    /// The name of the field whose values the test compares with, if it compares with a field.
    pub fn reference(&self) -> Option<&Text>
        ensures { IsReference self.now result }
    {
        match self {
            Test::SameAs(name) => Some(name),
            _ => None,
        }
    }

    /// Whether the test holds of a field's values, where the field that it compares with has these others; without memory of
    /// its own. A test that compares with no field doesn't look at them. Asks that the test isn't a regular expression, which is
    /// searched for by what is built of it.
    pub fn holds_of(&self, values: &[Value], others: &[Value]) -> bool
        requires { expression_of self.now ≡ None }
        ensures { IsTrue result ↔ Holds (λ (name : List ℕ). others.now) self.now values.now }
    {
        match self {
            Test::Absent | Test::Exists(false) => is_none(values),
            Test::Exists(true) => !is_none(values),
            Test::Fits { pattern, cased } => some_fits(values, pattern, *cased),
            Test::Equals(number) => some_is_number(values, number),
            Test::Inside(network) => some_is_inside(values, network),
            Test::Compare { op, number } => some_stands(values, *op, number),
            Test::SameAs(_) => some_is_same(values, others),
            Test::Finds { .. } => false,
        }
    }

    /// Whether the test holds of the values of the field of this name, without memory of its own. The schema is the
    /// event's; a field that it hasn't has no value. Asks that the test isn't a regular expression, which is searched for by what
    /// is built of it.
    pub fn holds(&self, schema: &Schema, name: &str, event: &Event) -> bool
        requires { expression_of self.now ≡ None }
        ensures { IsTrue result ↔ Holds (values_at schema.now event.now) self.now (values_at schema.now event.now (chars name.now)) }
    {
        let values = event.values_at(schema, name);
        match self {
            Test::SameAs(other) => some_is_same(values, event.values_at(schema, other.as_str())),
            _ => self.holds_of(values, &[]),
        }
    }
}
