//! What no command shows of building: where texts stand that are no regular expressions, by a builder that fails at a call of this
//! ordinal.

use crate::tables::{
    TOP, add, add_pairs, add_text, assert_told, at, map_of_pairs, text, told_fault,
};
use query_lang::CrateBuilder;
use rule_detections::Expression;
use rule_regex::{build_searches, find_unbuilt};
use sig_base::{Limits, Text};
use std::alloc::Global;
use std::test::Fail;
use yaml_tree::Node;

/// Three texts in lines 5 to 7, of which the second is `(`.
fn list(alloc: Global) -> Result<Node, Fail> {
    let mut values = Vec::new(alloc);
    values.push(text(alloc, at(5, 9), "a")?)?;
    values.push(text(alloc, at(6, 9), "(")?)?;
    values.push(text(alloc, at(7, 9), "c")?)?;
    Ok(Node::list(at(5, 7), values))
}

/// The items `sel` of a rule: this key with three texts in lines 5 to 7, and then `U|re: d` in line 8.
fn items(alloc: Global, key: &str) -> Result<Node, Fail> {
    let list = list(alloc)?;
    let mut entries = Vec::new(alloc);
    add(alloc, &mut entries, at(4, 5), key, list)?;
    add_text(alloc, &mut entries, at(8, 5), "U|re", 11, "d")?;
    Ok(Node::map(at(4, 5), entries))
}

/// The items `sel` and the condition `sel` in line 9.
fn detection(alloc: Global, key: &str) -> Result<Node, Fail> {
    let sel = items(alloc, key)?;
    let mut entries = Vec::new(alloc);
    add(alloc, &mut entries, at(3, 3), "sel", sel)?;
    add_text(alloc, &mut entries, at(9, 3), "condition", 14, "sel")?;
    Ok(Node::map(at(3, 3), entries))
}

/// A rule with these items.
fn document(alloc: Global, key: &str) -> Result<Node, Fail> {
    let detection = detection(alloc, key)?;
    let mut entries = Vec::new(alloc);
    add_pairs(alloc, &mut entries, TOP, "title=t")?;
    let source = map_of_pairs(alloc, at(2, 3), "product=p")?;
    add(alloc, &mut entries, at(2, 1), "logsource", source)?;
    add(alloc, &mut entries, at(3, 1), "detection", detection)?;
    Ok(Node::map(TOP, entries))
}

/// A builder whose call of this ordinal fails.
fn failing(alloc: Global, ordinal: u64) -> Result<CrateBuilder, Fail> {
    let mut ordinals = Vec::new(alloc);
    ordinals.push(ordinal)?;
    Ok(CrateBuilder::new(alloc, ordinals))
}

/// The places of the values whose regular expressions aren't built, of a rule of this key and `(` as its second text.
fn unbuilt(alloc: Global, ordinal: u64, key: &str) -> Result<String, Fail> {
    let node = document(alloc, key)?;
    let mut builder = failing(alloc, ordinal)?;
    let places = find_unbuilt(alloc, &Limits::standard(), &node, &mut builder)?;
    let mut shown = String::new(alloc);
    for place in &places {
        shown.push_str(&format!(in alloc; " {}:{}", place.line, place.column)?)?;
    }
    Ok(shown)
}

#[test]
fn places_of_what_is_no_expression_are_found(rt: HostRuntime) -> Result<(), Fail> {
    assert_told(&rt, unbuilt(rt.alloc(), 9, "A|re"), " 6:9")?;
    assert_told(&rt, unbuilt(rt.alloc(), 1, "|re|i"), " 5:9 6:9")
}

/// What refuses two texts, of which the second is no regular expression.
fn no_search(alloc: Global) -> Result<String, Fail> {
    let mut expressions = Vec::new(alloc);
    for (line, content) in [(1u32, "a"), (2u32, "(")] {
        let text = Text::copy(alloc, content)?;
        let place = at(line, 1);
        expressions.push(Expression { place, text })?;
    }
    let mut builder = failing(alloc, 9)?;
    match build_searches(alloc, &mut builder, expressions.as_slice()) {
        Ok(_) => Ok(String::new(alloc)),
        Err(fault) => told_fault(alloc, &fault),
    }
}

#[test]
fn searches_are_regular_expressions(rt: HostRuntime) -> Result<(), Fail> {
    assert_told(&rt, no_search(rt.alloc()), "48 2:1")
}
