//! Queries of Lucene that no rule is written as, and a limit that isn't one.

use crate::tables::assert_told;
use backend_core::{Leaf, LeafTest, Tree};
use event_schema::{Field, FieldKind, FieldList, Schema};
use lucene_scan::{opens_too_far, scan};
use lucene_writer::LuceneText;
use sig_base::{Limits, Place, Text, Texts};
use sig_strings::{Pattern, SharedPattern};
use std::alloc::Global;
use std::str;
use std::test::Fail;

const RULE: Place = Place { line: 1, column: 1 };

/// A field of texts.
fn field(alloc: Global, name: &str) -> Result<Field, Fail> {
    Ok(Field {
        name: Text::copy(alloc, name)?,
        kind: FieldKind::Text,
        at: Texts::new(alloc),
        search: false,
        cased: false,
        many: false,
    })
}

/// The texts `a`, `b` and `c`.
fn schema(alloc: Global) -> Result<Schema, Fail> {
    let mut fields = FieldList::new(alloc);
    fields.push(field(alloc, "a")?)?;
    fields.push(field(alloc, "b")?)?;
    fields.push(field(alloc, "c")?)?;
    Ok(Schema {
        table: Text::copy(alloc, "events")?,
        fields,
        time: None,
    })
}

/// The test that the field of this number fits a text.
fn leaf(alloc: Global, field: u32, text: &str) -> Result<Tree, Fail> {
    let pattern = Pattern::read(alloc, &Limits::standard(), text, false, RULE)?;
    let pattern = SharedPattern::share(alloc, pattern)?;
    Ok(Tree::Leaf(Leaf {
        field,
        test: LeafTest::Fits {
            pattern,
            cased: false,
        },
        place: RULE,
    }))
}

fn both(alloc: Global, one: Tree, other: Tree) -> Result<Tree, Fail> {
    let mut parts = Vec::new(alloc);
    parts.push(one)?;
    parts.push(other)?;
    Ok(Tree::All(parts))
}

/// The query of all of a part and of a list that is all of two more.
fn of_lists_in_lists(alloc: Global) -> Result<String, Fail> {
    let inner = both(alloc, leaf(alloc, 1, "2")?, leaf(alloc, 2, "3")?)?;
    let tree = both(alloc, leaf(alloc, 0, "1")?, inner)?;
    let schema = schema(alloc)?;
    let bytes = LuceneText.text(alloc, &Limits::standard(), &schema, &tree, RULE)?;
    match str::from_utf8(bytes.as_slice()) {
        Ok(text) => Ok(String::from_str(alloc, text)?),
        Err(_) => Ok(String::from_str(alloc, "no text")?),
    }
}

#[test]
fn lists_in_lists(rt: HostRuntime) -> Result<(), Fail> {
    assert_told(&rt, of_lists_in_lists(rt.alloc()), "a:1 AND (b:2 AND c:3)")
}

/// Whether parentheses are open too far where none may be.
fn are_far(alloc: Global, text: &str) -> Result<bool, Fail> {
    if text.len() >= 1000 {
        return Ok(false);
    }
    let tokens = scan(alloc, text)?;
    Ok(opens_too_far(0, tokens.as_slice()))
}

#[test]
fn no_parentheses(rt: HostRuntime) -> Result<(), Fail> {
    assert!(rt; !are_far(rt.alloc(), "a")?);
    assert!(rt; are_far(rt.alloc(), "(")?);
    Ok(())
}
