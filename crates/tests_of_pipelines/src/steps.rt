//! Steps on rules that no text of YAML gives: names that aren't legal, several kinds of tests in one value, patterns that are longer
//! than a value, names without values, and equal entries. A row has a step, the variables, a rule before the step, and the rule
//! after it or the code of a refusal, which stands at the rule's place.
//!
//! A step is `map`, `text` or `add` with a mapping `a=b,c;d=e` or items, `prefix` with a text, `wild`, or `fill`, where `+` stands
//! before the placeholders that it fills; behind `@` are the names that it acts on. Variables are `a=x,y;b=z`. A rule has `&`
//! between items, an item is `a,b:x/!y|#5`: its names, and its values with `|` between, each of tests with `/` between. A test is one
//! of a pattern, with `!` before it where it regards case, `#5` of a number, or `=a` of another field's name.

use crate::told::assert_told;
use modifier_words::Joined;
use pipeline_edit::change;
use pipeline_fill::change_tests;
use pipeline_model::{Action, Choice, FieldCond, Pair, Step, Var};
use pipeline_rename::rename;
use rule_detections::{
    Alternative, Alternatives, Detection, Detections, Fields, Item, Test, Tests, Values,
};
use rule_head::{Head, LogSource};
use rule_model::Rule;
use sig_base::{Fault, Limits, Place, Sequence, Text, Texts};
use sig_strings::{Pattern, SharedPattern};
use std::alloc::Global;
use std::test::Fail;

const RULE: Place = Place { line: 3, column: 5 };

/// Rows under the standard limits.
const STEPS: &str = "\
add |:#1~~a:#1~99
add c:=|#2~~a:#1~99
prefix w~~a:#1~a:#1
map a=x;a=y~~a:#1~x:#1
map a=x,y~~b:=a/#5|#7/=a~b:=x/=y/#5|#7/=x/=y
fill~a=x;a=y~n:%a%~n:x
fill~a=x,y~n:!%a%/%a%~n:!x/!y/x/y
fill~a=x,y~n:%a%|z/%a%~n:x/y|z/x/y
fill~a=x~n:#5/=m/%a%~n:#5/=m/x
text a=b;a=c~~n:a~n:b
text a=x~~n:#5/=a/ab~n:#5/=a/ab";

/// Rows under a limit of four names, four tests and four parts of a pattern.
const GROWN: &str = "\
fill~a=~n:abcd%a%~n:abcd
fill +a~a=~n:%a%b%c%d%e%~n:b%c%d%e%
fill @n~a=x~m:%a%bcd~m:%a%bcd
fill @n~a=x~m:%a%bcde~99
fill~~n,m&o,p,q:1~99
wild~~n:%a%%a%%a%%a%~n:****
wild~~n:%a%%a%%a%%a%%a%~99
fill~a=x~p|q:%a%~99
fill~a=x~:%a%~99
fill~a=x~n:=p\u{7f}q/%a%~99
fill @n~a=x~n:%a%&p\u{1f}q:1~99
fill @n~a=x~n:%a%&m:=~99
fill @n~~m,p\u{7f}q:1~99";

/// Rows of 34 entries, of which the last has a name that another one has.
const MANY: &str = "\
map n0=x0;n1=x1;n2=x2;n3=x3;n4=x4;n5=x5;n6=x6;n7=x7;n8=x8;n9=x9;n10=x10;n11=x11;n12=x12;n13=x13;n14=x14;n15=x15;n16=x16;\
    n17=x17;n18=x18;n19=x19;n20=x20;n21=x21;n22=x22;n23=x23;n24=x24;n25=x25;n26=x26;n27=x27;n28=x28;n29=x29;n30=x30;n31=x31;\
    n32=x32;n5=w~~n0,n1,n2,n3,n4,n5,n6,n7,n8,n9,n10,n11,n12,n13,n14,n15,n16,n17,n18,n19,n20,n21,n22,n23,n24,n25,n26,n27,n28,\
    n29,n30,n31,n32:#1~x0,x1,x2,x3,x4,x5,x6,x7,x8,x9,x10,x11,x12,x13,x14,x15,x16,x17,x18,x19,x20,x21,x22,x23,x24,x25,x26,\
    x27,x28,x29,x30,x31,x32:#1
map n0=x0;n1=x1;n2=x2;n3=x3;n4=x4;n5=x5;n6=x6;n7=x7;n8=x8;n9=x9;n10=x10;n11=x11;n12=x12;n13=x13;n14=x14;n15=x15;n16=x16;\
    n17=x17;n18=x18;n19=x19;n20=x20;n21=x21;n22=x22;n23=x23;n24=x24;n25=x25;n26=x26;n27=x27;n28=x28;n29=x29;n30=x30;n31=x31;\
    n32=x32;n5=w~~n5:#1~x5:#1";

fn texts(alloc: Global, text: &str) -> Result<Texts, Fail> {
    let mut texts = Texts::new(alloc);
    for part in text.split(',') {
        texts.push(Text::copy(alloc, part)?)?;
    }
    Ok(texts)
}

fn fits(alloc: Global, text: &str, cased: bool) -> Result<Test, Fail> {
    let pattern = Pattern::read(alloc, &Limits::standard(), text, true, RULE)?;
    Ok(Test::Fits {
        pattern: SharedPattern::share(alloc, pattern)?,
        cased,
    })
}

fn equals(digits: &str) -> Test {
    match digits.parse::<i64>() {
        Ok(number) => Test::Equals(number),
        Err(_) => Test::Absent,
    }
}

fn test(alloc: Global, text: &str) -> Result<Test, Fail> {
    if let Some(name) = text.strip_prefix("=") {
        return Ok(Test::SameAs(Text::copy(alloc, name)?));
    }
    if let Some(digits) = text.strip_prefix("#") {
        return Ok(equals(digits));
    }
    if let Some(behind) = text.strip_prefix("!") {
        return fits(alloc, behind, true);
    }
    fits(alloc, text, false)
}

fn tests(alloc: Global, text: &str) -> Result<Tests, Fail> {
    let mut tests = Tests::new(alloc);
    for part in text.split('/') {
        tests.push(test(alloc, part)?)?;
    }
    Ok(tests)
}

fn values(alloc: Global, text: &str) -> Result<Values, Fail> {
    let mut values = Values::new(alloc);
    for part in text.split('|') {
        values.push(tests(alloc, part)?)?;
    }
    Ok(values)
}

fn item_of(alloc: Global, names: &str, tests: Values) -> Result<Item, Fail> {
    Ok(Item {
        fields: Fields::Names(texts(alloc, names)?),
        tests,
        joined: Joined::All,
        place: RULE,
    })
}

/// An item, which has no values where it has no `:`.
fn item(alloc: Global, text: &str) -> Result<Item, Fail> {
    match text.split_once(':') {
        Some((names, held)) => item_of(alloc, names, values(alloc, held)?),
        None => item_of(alloc, text, Values::new(alloc)),
    }
}

fn items(alloc: Global, text: &str) -> Result<Alternative, Fail> {
    let mut items = Alternative::new(alloc);
    for part in text.split('&') {
        items.push(item(alloc, part)?)?;
    }
    Ok(items)
}

/// One detection of these items.
fn detections(alloc: Global, text: &str) -> Result<Detections, Fail> {
    let mut alternatives = Alternatives::new(alloc);
    alternatives.push(items(alloc, text)?)?;
    let mut detections = Detections::new(alloc);
    detections.push(Detection {
        name: Text::copy(alloc, "sel")?,
        alternatives,
        place: RULE,
    })?;
    Ok(detections)
}

fn head(alloc: Global) -> Head {
    Head {
        title: Text::new(alloc),
        id: None,
        name: None,
        place: RULE,
        rest: Vec::new(alloc),
    }
}

/// The rule of these detections, without conditions.
fn rule(alloc: Global, detections: Detections) -> Rule {
    Rule {
        head: head(alloc),
        source: LogSource {
            category: None,
            product: None,
            service: None,
        },
        detections,
        conditions: Vec::new(alloc),
    }
}

fn pairs(alloc: Global, text: &str) -> Result<Sequence<Pair>, Fail> {
    let mut pairs = Sequence::new(alloc);
    for part in text.split(';') {
        if let Some((from, to)) = part.split_once('=') {
            pairs.push(Pair {
                from: Text::copy(alloc, from)?,
                to: texts(alloc, to)?,
            })?;
        }
    }
    Ok(pairs)
}

fn vars(alloc: Global, text: &str) -> Result<Sequence<Var>, Fail> {
    let mut vars = Sequence::new(alloc);
    for part in text.split(';') {
        if let Some((name, values)) = part.split_once('=') {
            vars.push(Var {
                name: Text::copy(alloc, name)?,
                values: texts(alloc, values)?,
            })?;
        }
    }
    Ok(vars)
}

fn action(alloc: Global, text: &str) -> Result<Action, Fail> {
    let (kind, held) = text.split_once(' ').unwrap_or((text, ""));
    match kind {
        "map" => Ok(Action::MapNames(pairs(alloc, held)?)),
        "text" => Ok(Action::MapTexts(pairs(alloc, held)?)),
        "prefix" => Ok(Action::Prefix(Text::copy(alloc, held)?)),
        "wild" => Ok(Action::WildHoles(Choice::Every)),
        "add" => Ok(Action::Add {
            items: items(alloc, held)?,
            negated: false,
        }),
        "fill" => match held.strip_prefix("+") {
            Some(names) => Ok(Action::FillHoles(Choice::Include(texts(alloc, names)?))),
            None => Ok(Action::FillHoles(Choice::Every)),
        },
        _ => Err(Fail::new("no step")),
    }
}

/// The condition on names that stands behind `@`, if any.
fn field_conds(alloc: Global, names: Option<&str>) -> Result<Sequence<FieldCond>, Fail> {
    let mut conds = Sequence::new(alloc);
    if let Some(names) = names {
        conds.push(FieldCond::Include(texts(alloc, names)?))?;
    }
    Ok(conds)
}

fn step(alloc: Global, text: &str) -> Result<Step, Fail> {
    let (held, names) = match text.split_once(" @") {
        Some((held, names)) => (held, Some(names)),
        None => (text, None),
    };
    Ok(Step {
        id: None,
        action: action(alloc, held)?,
        rule_conds: Sequence::new(alloc),
        rule_any: false,
        field_conds: field_conds(alloc, names)?,
        field_any: false,
        place: RULE,
    })
}

/// The rule that a step makes: `map` is one on names, `add` and `prefix` are asked as those on rules, the others are on values.
fn made(
    alloc: Global,
    limits: &Limits,
    step: &Step,
    vars: &[Var],
    rule: Rule,
) -> Result<Rule, Fault> {
    match &step.action {
        Action::MapNames(_) => rename(alloc, limits, step, rule),
        Action::Add { .. } | Action::Prefix(_) => change(alloc, limits, step, rule),
        _ => change_tests(alloc, limits, vars, step, rule),
    }
}

fn shown(alloc: Global, detections: &Detections) -> Result<String, Fail> {
    Ok(format!(in alloc; "{detections:?}")?)
}

/// The detections of a rule, or the code of what refuses it at its place.
fn shown_answer(alloc: Global, answer: &Result<Rule, Fault>) -> Result<String, Fail> {
    match answer {
        Ok(rule) => shown(alloc, &rule.detections),
        Err(Fault::Refused(refusal)) if refusal.place == RULE => {
            let code = refusal.code.number();
            Ok(format!(in alloc; "{code}")?)
        }
        Err(_) => Ok(String::from_str(alloc, "another fault")?),
    }
}

/// What a row's fourth column is shown as.
fn wanted(alloc: Global, after: &str) -> Result<String, Fail> {
    if after == "99" {
        return Ok(String::from_str(alloc, after)?);
    }
    shown(alloc, &detections(alloc, after)?)
}

/// What is made of a rule.
fn told(
    alloc: Global,
    limits: &Limits,
    kind: &str,
    given: &str,
    before: &str,
) -> Result<String, Fail> {
    let step = step(alloc, kind)?;
    let vars = vars(alloc, given)?;
    let rule = rule(alloc, detections(alloc, before)?);
    shown_answer(alloc, &made(alloc, limits, &step, vars.as_slice(), rule))
}

/// The row where something else is made; else nothing.
fn wrong(alloc: Global, limits: &Limits, row: &str) -> Result<String, Fail> {
    if let Some((kind, rest)) = row.split_once('~') {
        if let Some((given, rest)) = rest.split_once('~') {
            if let Some((before, after)) = rest.split_once('~') {
                let told = told(alloc, limits, kind, given, before)?;
                let wanted = wanted(alloc, after)?;
                if told.as_str() == wanted.as_str() {
                    return Ok(String::new(alloc));
                }
            }
        }
    }
    Ok(String::from_str(alloc, row)?)
}

#[test]
fn rules_are_changed(rt: HostRuntime) -> Result<(), Fail> {
    let limits = Limits::standard();
    for row in STEPS.lines() {
        assert_told(&rt, wrong(rt.alloc(), &limits, row), "")?;
    }
    for row in MANY.lines() {
        assert_told(&rt, wrong(rt.alloc(), &limits, row), "")?;
    }
    Ok(())
}

#[test]
fn growth_is_refused(rt: HostRuntime) -> Result<(), Fail> {
    let mut limits = Limits::standard();
    limits.grown = 4;
    limits.value_chars = 4;
    for row in GROWN.lines() {
        assert_told(&rt, wrong(rt.alloc(), &limits, row), "")?;
    }
    assert_eq!(rt; GROWN.lines().count(), 13);
    Ok(())
}
