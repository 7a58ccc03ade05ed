//! Values that no item of a rule has, values at places where no regular expression stands, and which tests are expressions.

use crate::tables::{Asked, answer, assert_told, wrong_row};
use modifier_words::{Chain, Flags};
use rule_detections::{Test, resolve};
use sig_base::{Fault, Limits, Place, Refusal, Text};
use std::alloc::Global;
use std::test::Fail;
use yaml_tree::{Kind, Node};

const KEY: Place = Place { line: 6, column: 5 };

const VALUE: Place = Place {
    line: 6,
    column: 12,
};

/// The chain of `field|WORD|..` or of `keyword|WORD|..`.
fn chain(alloc: Global, written: &str) -> Result<Chain, Fail> {
    let mut texts = Vec::new(alloc);
    let mut words = written.split('|');
    let keyword = words.next() == Some("keyword");
    for word in words {
        texts.push(Text::copy(alloc, word)?)?;
    }
    Ok(Chain::read(alloc, &texts, keyword, KEY)?)
}

/// The number of a refusal, or `elsewhere`.
fn refused(alloc: Global, refusal: &Refusal) -> Result<String, Fail> {
    if refusal.place != VALUE {
        return answer(alloc, "elsewhere");
    }
    let code = refusal.code.number();
    Ok(format!(in alloc; "{code}")?)
}

/// A value by how it's written here: a text where it's nothing else.
fn value(alloc: Global, written: &str) -> Result<Node, Fail> {
    let kind = match written {
        "true" => Kind::Truth(true),
        "list" => Kind::List(Vec::new(alloc)),
        "map" => Kind::Map(Vec::new(alloc)),
        _ => Kind::Text(Text::copy(alloc, written)?),
    };
    Ok(Node { place: VALUE, kind })
}

/// What refuses a value behind a chain, or `taken`. A value has at most three characters.
fn resolved(alloc: Global, unbuilt: &[Place], chain: &Chain, value: &Node) -> Result<String, Fail> {
    let mut limits = Limits::standard();
    limits.value_chars = 3;
    match resolve(alloc, &limits, unbuilt, chain, value) {
        Ok(_) => answer(alloc, "taken"),
        Err(Fault::Refused(refusal)) => refused(alloc, &refusal),
        Err(Fault::Memory) => answer(alloc, "memory"),
    }
}

/// Where no regular expression is built.
#[derive(Clone, Copy)]
enum Unbuilt {
    Nowhere,
    Key,
    KeyAndValue,
}

impl Asked for Unbuilt {
    /// What refuses `chain~value`.
    fn told(&self, alloc: Global, given: &str) -> Result<String, Fail> {
        let Some((words, written)) = given.split_once('~') else {
            return answer(alloc, "no chain and value");
        };
        let chain = chain(alloc, words)?;
        let value = value(alloc, written)?;
        match *self {
            Unbuilt::Nowhere => resolved(alloc, &[], &chain, &value),
            Unbuilt::Key => resolved(alloc, &[KEY], &chain, &value),
            Unbuilt::KeyAndValue => resolved(alloc, &[KEY, VALUE], &chain, &value),
        }
    }
}

const COLLECTIONS: &str = "42~field~list
42~field|exists~list
42~field|contains~list
42~field|contains~map
42~field|all|cased~list
42~field|cased|endswith~list
42~keyword~list
42~keyword|all~list
42~field|wide|base64~list
42~field|cidr~list
42~field|gt~list
42~field|fieldref~map
42~field|re~list
42~field|re~map
42~keyword|re|all~list";

#[test]
fn lists_and_maps_are_no_values(rt: HostRuntime) -> Result<(), Fail> {
    assert_told(
        &rt,
        wrong_row(rt.alloc(), &Unbuilt::Nowhere, COLLECTIONS),
        "",
    )
}

const UNBUILT_HERE: &str = "49~field|re~a(\0b
42~field|re~true
taken~field~a
taken~field|fieldref~Abc
taken~keyword~a";

const UNBUILT_ELSEWHERE: &str = "taken~field|re~a.c
47~field|re~(";

#[test]
fn other_places_and_values_are_not_built(rt: HostRuntime) -> Result<(), Fail> {
    let alloc = rt.alloc();
    assert_told(
        &rt,
        wrong_row(alloc, &Unbuilt::KeyAndValue, UNBUILT_HERE),
        "",
    )?;
    assert_told(&rt, wrong_row(alloc, &Unbuilt::Key, UNBUILT_ELSEWHERE), "")
}

/// Whether a test of a regular expression is one.
fn finds_is_expression(alloc: Global) -> Result<bool, Fail> {
    let found = Test::Finds {
        text: Text::copy(alloc, "a")?,
        flags: Flags {
            i: false,
            m: true,
            s: false,
        },
    };
    Ok(found.is_expression())
}

/// Whether the test of a number has a regular expression.
fn number_has_expression(alloc: Global) -> Result<bool, Fail> {
    let expression = Test::Equals(7).expression(alloc)?;
    Ok(expression.is_some())
}

#[test]
fn which_tests_are_expressions(rt: HostRuntime) -> Result<(), Fail> {
    assert!(rt; !Test::Absent.is_expression());
    assert!(rt; !number_has_expression(rt.alloc())?);
    assert!(rt; finds_is_expression(rt.alloc())?);
    Ok(())
}
