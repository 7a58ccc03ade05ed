//! Rules whose items ask for several kinds at once, as none does that is read. Items have `;` between them, each is an alternative on a
//! line of its own, and an item has `,` between its names.

use crate::tables::{TOP, assert_told};
use event_schema::{Field, FieldKind, FieldList, Schema};
use modifier_words::{Joined, Op};
use rule_detections::{
    Alternative, Alternatives, Detection, Detections, Fields, Item, Test, Tests, Values,
};
use rule_head::{Head, LogSource};
use rule_model::Rule;
use rule_schema::{fit_indexed, fit_schema, infer_schema};
use sig_base::{Fault, Place, Refusal, Text, Texts};
use sig_encode::Network;
use std::alloc::Global;
use std::test::Fail;

/// The texts of these two that aren't empty.
fn texts(alloc: Global, first: &str, second: &str) -> Result<Texts, Fail> {
    let mut all = Texts::new(alloc);
    if first != "" {
        all.push(Text::copy(alloc, first)?)?;
    }
    if second != "" {
        all.push(Text::copy(alloc, second)?)?;
    }
    Ok(all)
}

fn add_comparison(tests: &mut Tests) -> Result<(), Fail> {
    tests.push(Test::Compare {
        op: Op::Gt,
        number: 1,
    })?;
    Ok(())
}

fn add_network(tests: &mut Tests) -> Result<(), Fail> {
    tests.push(Test::Inside(Network::read("10.0.0.0/8", TOP)?))?;
    Ok(())
}

/// Adds what a sign before an item's first name asks for.
fn add_sign(tests: &mut Tests, sign: char) -> Result<(), Fail> {
    add_comparison(tests)?;
    match sign {
        '!' => add_network(tests),
        _ => Ok(()),
    }
}

/// What an item's tests ask, by the sign before its first name, and the name that they compare with behind a `=`.
fn tests(alloc: Global, sign: Option<char>, other: Option<&str>) -> Result<Tests, Fail> {
    let mut tests = Tests::new(alloc);
    tests.push(Test::Exists(true))?;
    if let Some(sign) = sign {
        add_sign(&mut tests, sign)?;
    }
    if let Some(other) = other {
        tests.push(Test::SameAs(Text::copy(alloc, other)?))?;
    }
    Ok(tests)
}

/// The name behind a sign.
fn unsigned(written: &str) -> (Option<char>, &str) {
    for sign in ['#', '!'] {
        if let Some(name) = written.strip_prefix(sign) {
            return (Some(sign), name);
        }
    }
    (None, written)
}

/// An item over these names. It asks for a number where `#` stands before the first, for a number and an address where `!` does, and
/// compares with the name behind a `=`.
fn item(alloc: Global, line: u32, written: &str, second: &str) -> Result<Item, Fail> {
    let (sign, named) = unsigned(written);
    let (first, other) = match named.split_once('=') {
        Some((first, other)) => (first, Some(other)),
        None => (named, None),
    };
    let mut values = Values::new(alloc);
    values.push(tests(alloc, sign, other)?)?;
    Ok(Item {
        fields: Fields::Names(texts(alloc, first, second)?),
        tests: values,
        joined: Joined::Any,
        place: Place { line, column: 1 },
    })
}

fn alternative(alloc: Global, line: u32, first: &str, second: &str) -> Result<Alternative, Fail> {
    let mut alternative = Alternative::new(alloc);
    alternative.push(item(alloc, line, first, second)?)?;
    Ok(alternative)
}

fn rule_of(alloc: Global, alternatives: Alternatives) -> Result<Rule, Fail> {
    let mut detections = Detections::new(alloc);
    detections.push(Detection {
        name: Text::copy(alloc, "s")?,
        alternatives,
        place: TOP,
    })?;
    Ok(Rule {
        head: Head {
            title: Text::copy(alloc, "t")?,
            id: None,
            name: None,
            place: TOP,
            rest: Vec::new(alloc),
        },
        source: LogSource {
            category: None,
            product: None,
            service: None,
        },
        detections,
        conditions: Vec::new(alloc),
    })
}

fn rule(alloc: Global, items: &str) -> Result<Rule, Fail> {
    let mut alternatives = Alternatives::new(alloc);
    let mut line = 1u32;
    for item in items.split(';') {
        let (first, second) = match item.split_once(',') {
            Some(names) => names,
            None => (item, ""),
        };
        alternatives.push(alternative(alloc, line, first, second)?)?;
        line = line.saturating_add(1);
    }
    rule_of(alloc, alternatives)
}

/// Items over `f0` to `f69`, each on a line of its own, and this one behind them.
fn long_rule(alloc: Global, last: &str) -> Result<Rule, Fail> {
    let mut alternatives = Alternatives::new(alloc);
    for number in 0..70u32 {
        let name = format!(in alloc; "f{number}")?;
        alternatives.push(alternative(alloc, number, name.as_str(), "")?)?;
    }
    alternatives.push(alternative(alloc, 70, last, "")?)?;
    rule_of(alloc, alternatives)
}

fn told(alloc: Global, refusal: &Refusal) -> Result<String, Fail> {
    let code = refusal.code.number();
    let line = refusal.place.line;
    Ok(format!(in alloc; "{code} {line}")?)
}

/// The table and the fields of the schema that is made of a rule, with `#` before those of whole numbers, or what refuses it.
fn made(alloc: Global, rule: &Rule) -> Result<String, Fail> {
    match infer_schema(alloc, rule) {
        Ok(schema) => {
            let mut shown = String::from_str(alloc, schema.table.as_str())?;
            for field in schema.fields.as_slice() {
                shown.push_str(match field.kind {
                    FieldKind::Text => " ",
                    FieldKind::Address => " @",
                    FieldKind::Whole => " #",
                })?;
                shown.push_str(field.name.as_str())?;
            }
            Ok(shown)
        }
        Err(Fault::Memory) => Ok(String::from_str(alloc, "memory")?),
        Err(Fault::Refused(refusal)) => told(alloc, &refusal),
    }
}

fn inferred(alloc: Global, items: &str) -> Result<String, Fail> {
    made(alloc, &rule(alloc, items)?)
}

#[test]
fn uses_ask_for_kinds(rt: HostRuntime) -> Result<(), Fail> {
    assert_told(&rt, inferred(rt.alloc(), "#a=b,c"), "events #a #c b")?;
    assert_told(&rt, inferred(rt.alloc(), "b;!a"), "80 2")
}

fn long(alloc: Global, last: &str) -> Result<String, Fail> {
    made(alloc, &long_rule(alloc, last)?)
}

#[test]
fn many_names_are_indexed(rt: HostRuntime) -> Result<(), Fail> {
    assert_told(&rt, long(rt.alloc(), "!f7"), "80 70")?;
    assert!(rt;
        long(rt.alloc(), "#f69=f70")?
            .as_str()
            .ends_with(" f68 #f69 f70")
    );
    Ok(())
}

fn field(alloc: Global, name: &str, kind: FieldKind) -> Result<Field, Fail> {
    Ok(Field {
        name: Text::copy(alloc, name)?,
        kind,
        at: texts(alloc, name, "")?,
        search: false,
        cased: false,
        many: false,
    })
}

/// The text `a` and the whole numbers `n` and `m`, behind so many other texts.
fn schema(alloc: Global, others: u32) -> Result<Schema, Fail> {
    let mut fields = FieldList::new(alloc);
    for number in 0..others {
        let name = format!(in alloc; "f{number}")?;
        fields.push(field(alloc, name.as_str(), FieldKind::Text)?)?;
    }
    fields.push(field(alloc, "a", FieldKind::Text)?)?;
    fields.push(field(alloc, "n", FieldKind::Whole)?)?;
    fields.push(field(alloc, "m", FieldKind::Whole)?)?;
    Ok(Schema {
        table: Text::copy(alloc, "events")?,
        fields,
        time: None,
    })
}

/// What is answered with an index.
fn indexed(alloc: Global, rule: &Rule, schema: &Schema) -> Result<String, Fail> {
    match fit_indexed(alloc, rule, schema) {
        Ok(()) => Ok(String::new(alloc)),
        Err(Fault::Memory) => Ok(String::from_str(alloc, "memory")?),
        Err(Fault::Refused(refusal)) => told(alloc, &refusal),
    }
}

/// What is answered without one.
fn not_indexed(alloc: Global, rule: &Rule, schema: &Schema) -> Result<String, Fail> {
    match fit_schema(rule, schema) {
        Ok(()) => Ok(String::new(alloc)),
        Err(refusal) => told(alloc, &refusal),
    }
}

/// What refuses a rule under a schema, without an index and with one.
fn both_misfits(alloc: Global, rule: &Rule) -> Result<String, Fail> {
    let many = indexed(alloc, rule, &schema(alloc, 40)?)?;
    let few = not_indexed(alloc, rule, &schema(alloc, 0)?)?;
    if many.as_str() != few.as_str() {
        return Ok(String::from_str(alloc, "two answers")?);
    }
    Ok(few)
}

fn misfit(alloc: Global, items: &str) -> Result<String, Fail> {
    both_misfits(alloc, &rule(alloc, items)?)
}

#[test]
fn fields_are_of_the_kinds_that_tests_ask_for(rt: HostRuntime) -> Result<(), Fail> {
    assert_told(&rt, misfit(rt.alloc(), "#n=m;n=a"), "82 2")
}
