//! Rules that the program refuses before they're judged or lowered, over fields and events that it doesn't read: tests that don't
//! fit a field's kind, values of another kind, words that are compared, and conditions of no detection.

use crate::told::assert_told;
use backend_core::Tree;
use detection_eval::{Judge, Ready};
use event_schema::{Event, Field, FieldKind, FieldList, FieldValues, Schema, Value};
use modifier_words::{Flags, Joined, Op};
use query_lang::CrateBuilder;
use rule_detections::{
    Alternative, Alternatives, Detection, Detections, Fields, Item, Test, Tests, Values,
};
use rule_head::{Head, LogSource};
use rule_lowering::lower;
use rule_model::Rule;
use sig_base::{Fault, Limits, Place, Text, Texts};
use sig_conditions::Formula;
use sig_encode::Network;
use sig_strings::{Pattern, SharedPattern};
use std::alloc::Global;
use std::test::Fail;

const PLACE: Place = Place { line: 6, column: 5 };

fn field(alloc: Global, name: &str, kind: FieldKind, search: bool) -> Result<Field, Fail> {
    Ok(Field {
        name: Text::copy(alloc, name)?,
        kind,
        at: Texts::new(alloc),
        search,
        cased: false,
        many: true,
    })
}

/// The texts `u` and `p`, the number `n` and the address `i`; words search all but `n`.
fn schema(alloc: Global) -> Result<Schema, Fail> {
    let mut fields = FieldList::new(alloc);
    fields.push(field(alloc, "u", FieldKind::Text, true)?)?;
    fields.push(field(alloc, "p", FieldKind::Text, true)?)?;
    fields.push(field(alloc, "n", FieldKind::Whole, false)?)?;
    fields.push(field(alloc, "i", FieldKind::Address, true)?)?;
    Ok(Schema {
        table: Text::copy(alloc, "events")?,
        fields,
        time: None,
    })
}

/// A number, or a text; behind a quote it's a text.
fn value(alloc: Global, text: &str) -> Result<Value, Fail> {
    if let Some(digits) = text.strip_prefix("'") {
        return Ok(Value::Text(Text::copy(alloc, digits)?));
    }
    match text.parse::<i64>() {
        Ok(number) => Ok(Value::Whole(number)),
        Err(_) => Ok(Value::Text(Text::copy(alloc, text)?)),
    }
}

/// The values of `u`, `p` and `n` with strokes between them, each of which may be none; `i` has none.
fn event(alloc: Global, text: &str) -> Result<Event, Fail> {
    let mut row = Vec::new(alloc);
    for word in text.split('|') {
        if word.is_empty() {
            row.push(FieldValues::none())?;
        } else {
            row.push(FieldValues::one(value(alloc, word)?))?;
        }
    }
    row.push(FieldValues::none())?;
    Ok(Event::new(row, None))
}

fn numbered(text: &str) -> Result<i64, Fail> {
    match text.parse::<i64>() {
        Ok(number) => Ok(number),
        Err(_) => Err(Fail::new("no number")),
    }
}

fn compared(op: Op, text: &str) -> Result<Test, Fail> {
    Ok(Test::Compare {
        op,
        number: numbered(text)?,
    })
}

/// A test by the word before its text: a comparison, a number, another field, a regular expression, a network, or a pattern.
fn test(alloc: Global, word: &str, text: &str) -> Result<Test, Fail> {
    match word {
        "lt" => compared(Op::Lt, text),
        "lte" => compared(Op::Lte, text),
        "gt" => compared(Op::Gt, text),
        "gte" => compared(Op::Gte, text),
        "is" => Ok(Test::Equals(numbered(text)?)),
        "as" => Ok(Test::SameAs(Text::copy(alloc, text)?)),
        "inside" => Ok(Test::Inside(Network::read(text, PLACE)?)),
        "finds" => Ok(Test::Finds {
            text: Text::copy(alloc, text)?,
            flags: Flags {
                i: false,
                m: false,
                s: false,
            },
        }),
        _ => Ok(Test::Fits {
            pattern: SharedPattern::share(
                alloc,
                Pattern::read(alloc, &Limits::standard(), text, false, PLACE)?,
            )?,
            cased: false,
        }),
    }
}

/// One value of one test for each text, with commas between them.
fn values(alloc: Global, word: &str, texts: &str) -> Result<Values, Fail> {
    let mut values = Values::new(alloc);
    for text in texts.split(',') {
        let mut tests = Tests::new(alloc);
        tests.push(test(alloc, word, text)?)?;
        values.push(tests)?;
    }
    Ok(values)
}

/// The field of this name, or words where there's none.
fn fields(alloc: Global, name: &str) -> Result<Fields, Fail> {
    if name.is_empty() {
        return Ok(Fields::Keyword);
    }
    let mut names = Texts::new(alloc);
    names.push(Text::copy(alloc, name)?)?;
    Ok(Fields::Names(names))
}

/// One detection, of an item `name word texts`.
fn detections(alloc: Global, text: &str) -> Result<Detections, Fail> {
    let Some((name, rest)) = text.split_once(' ') else {
        return Err(Fail::new("no item"));
    };
    let Some((word, texts)) = rest.split_once(' ') else {
        return Err(Fail::new("no item"));
    };
    let mut items = Alternative::new(alloc);
    items.push(Item {
        fields: fields(alloc, name)?,
        tests: values(alloc, word, texts)?,
        joined: Joined::Any,
        place: PLACE,
    })?;
    let mut alternatives = Alternatives::new(alloc);
    alternatives.push(items)?;
    let mut detections = Detections::new(alloc);
    detections.push(Detection {
        name: Text::copy(alloc, "d")?,
        alternatives,
        place: PLACE,
    })?;
    Ok(detections)
}

fn head(alloc: Global) -> Head {
    Head {
        title: Text::new(alloc),
        id: None,
        name: None,
        place: Place { line: 1, column: 1 },
        rest: Vec::new(alloc),
    }
}

/// The rule of an item, whose condition is the detection of this number, if any.
fn rule(alloc: Global, item: &str, condition: Option<u32>) -> Result<Rule, Fail> {
    let mut conditions = Vec::new(alloc);
    if let Some(number) = condition {
        conditions.push(Formula::Detection(number))?;
    }
    Ok(Rule {
        head: head(alloc),
        source: LogSource {
            category: None,
            product: None,
            service: None,
        },
        detections: detections(alloc, item)?,
        conditions,
    })
}

/// For each of these events whether the rule matches.
fn judged(alloc: Global, judge: &mut Judge<'_>, events: &str) -> Result<String, Fail> {
    let mut shown = String::new(alloc);
    for word in events.split(' ') {
        let is_match = judge.matches(&event(alloc, word)?);
        shown.push_str(if is_match { "1" } else { "0" })?;
    }
    Ok(shown)
}

/// The events that match the rule of an item, by its detection of this number.
fn matched(alloc: Global, item: &str, condition: u32, events: &str) -> Result<String, Fail> {
    let schema = schema(alloc)?;
    let rule = rule(alloc, item, Some(condition))?;
    let mut builder = CrateBuilder::new(alloc, Vec::new(alloc));
    let ready = Ready::make(alloc, &schema, &rule, &mut builder)?;
    judged(alloc, &mut ready.judge(alloc)?, events)
}

/// Numbers don't compare texts, whose regular expressions are found, and words are compared in what they search.
#[test]
fn values_of_another_kind_and_words(rt: HostRuntime) -> Result<(), Fail> {
    let alloc = rt.alloc();
    assert_told(&rt, matched(alloc, "n lte 5", 0, "||4 ||'4 ||"), "100")?;
    assert_told(&rt, matched(alloc, "n gt 5", 0, "||6 ||'6 ||"), "100")?;
    assert_told(
        &rt,
        matched(alloc, "n finds ^-?7", 0, "||-7 ||'7 ||17"),
        "110",
    )?;
    assert_told(&rt, matched(alloc, " lt 5", 0, "4|| |4| ||4 5||"), "1100")?;
    assert_told(&rt, matched(alloc, " as p", 0, "a|a| a|b| |b| a||"), "1110")?;
    assert_told(&rt, matched(alloc, "z as z", 0, "a|| ||"), "00")?;
    assert_told(&rt, matched(alloc, "u fits a", 9, "a|| ||"), "00")
}

/// What a rule of no condition is refused with.
fn refused(alloc: Global, item: &str) -> Result<String, Fail> {
    let schema = schema(alloc)?;
    let rule = rule(alloc, item, None)?;
    let mut builder = CrateBuilder::new(alloc, Vec::new(alloc));
    match &Ready::make(alloc, &schema, &rule, &mut builder) {
        Err(Fault::Refused(refusal)) if refusal.place == PLACE => {
            let code = refusal.code.number();
            Ok(format!(in alloc; "{code}")?)
        }
        _ => Ok(String::from_str(alloc, "another answer")?),
    }
}

/// The tree of the rule of an item.
fn lowered(alloc: Global, item: &str) -> Result<Tree, Fail> {
    let schema = schema(alloc)?;
    let rule = rule(alloc, item, Some(0))?;
    Ok(lower(alloc, &Limits::standard(), &rule, &schema)?)
}

/// .. as it's printed.
fn printed(alloc: Global, item: &str) -> Result<String, Fail> {
    let tree = lowered(alloc, item)?;
    Ok(format!(in alloc; "{tree:?}")?)
}

/// Whether the rules of two items have the same tree.
fn are_alike(alloc: Global, item: &str, other: &str) -> Result<bool, Fail> {
    let one = printed(alloc, item)?;
    let other = printed(alloc, other)?;
    Ok(one.as_str() == other.as_str())
}

/// Whether the tree of the rule of an item never holds.
fn is_never(alloc: Global, item: &str) -> Result<bool, Fail> {
    let tree = lowered(alloc, item)?;
    Ok(matches!(tree, Tree::Never))
}

/// What isn't a regular expression is refused without a condition too. A network is its patterns, whatever the field's kind, and
/// what isn't a number isn't compared with one. A number is looked for as a word by its decimal.
#[test]
fn rules_that_fit_no_field(rt: HostRuntime) -> Result<(), Fail> {
    let alloc = rt.alloc();
    assert_told(&rt, refused(alloc, "u finds a,("), "48")?;
    assert!(rt; are_alike(alloc, "u inside 11.0.0.0/7", "u fits 10.*,11.*")?);
    assert!(rt; are_alike(alloc, "n inside 10.0.0.0/8", "n fits 10.*")?);
    assert!(rt; are_alike(alloc, " is 7", " fits 7")?);
    assert!(rt; is_never(alloc, "n inside 10.1.2.3")?);
    assert!(rt; is_never(alloc, "u gte 0")?);
    assert!(rt; is_never(alloc, "i lt 7")?);
    Ok(())
}
