//! Tests that no schema takes, and values that they are asked of.

use crate::tables::{Asked, answer, assert_told, wrong_row};
use event_schema::{Event, Field, FieldKind, FieldList, FieldValues, Schema, Value};
use modifier_words::Op;
use rule_detections::Test;
use sig_base::{Place, Text, Texts};
use sig_encode::Network;
use std::alloc::Global;
use std::test::Fail;

fn field(alloc: Global, name: &str, kind: FieldKind) -> Result<Field, Fail> {
    let mut at = Texts::new(alloc);
    at.push(Text::copy(alloc, name)?)?;
    Ok(Field {
        name: Text::copy(alloc, name)?,
        kind,
        at,
        search: false,
        cased: false,
        many: true,
    })
}

fn schema(alloc: Global) -> Result<Schema, Fail> {
    let mut fields = FieldList::new(alloc);
    fields.push(field(alloc, "Image", FieldKind::Text)?)?;
    fields.push(field(alloc, "Size", FieldKind::Whole)?)?;
    fields.push(field(alloc, "Ip", FieldKind::Address)?)?;
    Ok(Schema {
        table: Text::copy(alloc, "events")?,
        fields,
        time: None,
    })
}

/// The test of a sign and a number, if it's that.
fn comparison_of(written: &str) -> Result<Option<Test>, Fail> {
    let Some((sign, number)) = written.split_once(' ') else {
        return Ok(None);
    };
    let op = match sign {
        "<" => Op::Lt,
        ">=" => Op::Gte,
        _ => return Ok(None),
    };
    let number = number.parse::<i64>()?;
    Ok(Some(Test::Compare { op, number }))
}

/// The test of `inside NETWORK`, `SIGN NUMBER`, `same as NAME` or else `absent`.
fn test_of(alloc: Global, written: &str) -> Result<Test, Fail> {
    if let Some(network) = written.strip_prefix("inside ") {
        return Ok(Test::Inside(Network::read(network, Place::START)?));
    }
    if let Some(name) = written.strip_prefix("same as ") {
        return Ok(Test::SameAs(Text::copy(alloc, name)?));
    }
    match comparison_of(written)? {
        Some(test) => Ok(test),
        None => Ok(Test::Absent),
    }
}

/// Whether the test of `field~test` holds, as `yes` or `no`.
fn held(alloc: Global, event: &Event, given: &str) -> Result<&'static str, Fail> {
    let Some((name, written)) = given.split_once('~') else {
        return Ok("no test");
    };
    let test = test_of(alloc, written)?;
    if test.is_expression() {
        return Ok("an expression");
    }
    if test.holds(&schema(alloc)?, name, event) {
        return Ok("yes");
    }
    Ok("no")
}

/// Asks whether the test of `field~test` holds of this event.
#[derive(Drop)]
struct Holding {
    event: Event,
}

impl Asked for Holding {
    fn told(&self, alloc: Global, given: &str) -> Result<String, Fail> {
        answer(alloc, held(alloc, &self.event, given)?)
    }
}

/// The first row, `answer~field~test`, that is told otherwise.
fn wrong_test(alloc: Global, event: Event, table: &str) -> Result<String, Fail> {
    wrong_row(alloc, &Holding { event }, table)
}

fn texts(alloc: Global, several: &str) -> Result<FieldValues, Fail> {
    let mut values = Vec::new(alloc);
    for text in several.split(' ') {
        values.push(Value::Text(Text::copy(alloc, text)?))?;
    }
    Ok(FieldValues::from_vec(values))
}

/// Texts, numbers, and texts as addresses.
fn event(alloc: Global, images: &str, numbers: &[i64], addresses: &str) -> Result<Event, Fail> {
    let mut sizes = Vec::new(alloc);
    for number in numbers {
        sizes.push(Value::Whole(*number))?;
    }
    let mut values = Vec::new(alloc);
    values.push(texts(alloc, images)?)?;
    values.push(FieldValues::from_vec(sizes))?;
    values.push(texts(alloc, addresses)?)?;
    Ok(Event::new(values, None))
}

const VALUES: &str = "no~Size~inside 0.0.0.0/0
yes~image~absent
no~Image~< -6
no~Image~>= -7
yes~Image~same as Size
yes~Size~same as Image
no~Image~same as image";

#[test]
fn tests_of_other_kinds(rt: HostRuntime) -> Result<(), Fail> {
    let event = event(rt.alloc(), "-7", &[-7], "10.0.0.1")?;
    assert_told(&rt, wrong_test(rt.alloc(), event, VALUES), "")
}

#[test]
fn tests_of_several_values(rt: HostRuntime) -> Result<(), Fail> {
    let event = event(
        rt.alloc(),
        "a.exe B.exe 7",
        &[1, -20, 300],
        "10.0.0.1 host 192.168.0.7",
    )?;
    let table = "no~Image~same as Size";
    assert_told(&rt, wrong_test(rt.alloc(), event, table), "")
}

const DECIMALS: &str = "yes~Ip~same as Size
no~Image~same as Size";

#[test]
fn texts_are_compared_with_decimals(rt: HostRuntime) -> Result<(), Fail> {
    let event = event(rt.alloc(), "x HOST", &[12], "y host 12")?;
    assert_told(&rt, wrong_test(rt.alloc(), event, DECIMALS), "")
}
