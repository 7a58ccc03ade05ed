//! What no command shows of regular expressions in detections: their texts with flags, and places that none stands at. The nodes'
//! places are reckoned by hand: `sel` stands in line 6, its items in lines 7 and 8.

use crate::tables::{add, add_text, assert_told, at, told_fault};
use rule_detections::{find_expressions, read_detections};
use sig_base::Limits;
use std::alloc::Global;
use std::test::Fail;
use yaml_tree::Node;

/// The value of `detection` with the detection `sel` at line 6 and a condition behind it.
fn detection(alloc: Global, value: Node) -> Result<Node, Fail> {
    let mut entries = Vec::new(alloc);
    add(alloc, &mut entries, at(6, 5), "sel", value)?;
    add_text(alloc, &mut entries, at(9, 5), "condition", 16, "sel")?;
    Ok(Node::map(at(6, 5), entries))
}

/// The value of `detection` whose `sel` has these two items, one in line 7 with a text, and one in line 8 with the text `b`.
fn two_items(alloc: Global, first: &str, text_of_first: &str, second: &str) -> Result<Node, Fail> {
    let mut entries = Vec::new(alloc);
    add_text(alloc, &mut entries, at(7, 9), first, 20, text_of_first)?;
    add_text(alloc, &mut entries, at(8, 9), second, 20, "b")?;
    detection(alloc, Node::map(at(7, 9), entries))
}

/// What refuses the item of this key and `User|re` where no regular expression is built in lines 3 and this one.
fn refusal(alloc: Global, line: u32, first: &str) -> Result<String, Fail> {
    let node = two_items(alloc, first, "a", "User|re")?;
    let unbuilt = [at(3, 20), at(line, 20)];
    match read_detections(alloc, &Limits::standard(), unbuilt.as_slice(), &node) {
        Ok(_) => Ok(String::new(alloc)),
        Err(fault) => told_fault(alloc, &fault),
    }
}

#[test]
fn places_without_regular_expressions_decide_nothing(rt: HostRuntime) -> Result<(), Fail> {
    assert_told(&rt, refusal(rt.alloc(), 9, "Image|re"), "")?;
    assert_told(&rt, refusal(rt.alloc(), 7, "Image"), "")
}

/// The regular expressions of two items, each behind its place, of which the first has the text `(`.
fn expressions_of(alloc: Global, first: &str, second: &str) -> Result<String, Fail> {
    let node = two_items(alloc, first, "(", second)?;
    let mut shown = String::new(alloc);
    let expressions = find_expressions(alloc, &Limits::standard(), &node)?;
    for expression in expressions.as_slice() {
        let place = expression.place;
        let text = expression.text.as_str();
        shown.push_str(&format!(in alloc; " {}:{} {text}", place.line, place.column)?)?;
    }
    Ok(shown)
}

#[test]
fn regular_expressions_have_their_flags(rt: HostRuntime) -> Result<(), Fail> {
    assert_told(
        &rt,
        expressions_of(rt.alloc(), "Image|re", "User|re|i"),
        " 7:20 ( 8:20 (?i)b",
    )?;
    assert_told(
        &rt,
        expressions_of(rt.alloc(), "|re|s|all|m", "User"),
        " 7:20 (?ms)(",
    )
}
