//! Tests of SQL that a query that is read doesn't have: of columns that an event lacks and of values of another kind, and a test
//! whose tokens have no places.

use crate::tables::assert_told;
use event_schema::{Event, Field, FieldKind, FieldList, FieldValues, Value};
use sig_base::{Text, Texts};
use sql_check::{Columns, judge};
use sql_eval::{Truth, value_of};
use sql_lang::{Collate, Expr, Operand, Select, Side, SqlOp, SqlTest};
use sql_parse::{Core, Leaf, Ors, Outcome, read_query};
use sql_scan::{Token, scan};
use std::alloc::Global;
use std::collections::VecDeque;
use std::test::Fail;

/// The event whose one field has this text.
fn event(alloc: Global, text: &str) -> Result<Event, Fail> {
    let mut row = Vec::new(alloc);
    let value = Value::Text(Text::copy(alloc, text)?);
    row.push(FieldValues::one(value))?;
    Ok(Event::new(row, None))
}

/// What a test says of it.
fn said(alloc: Global, test: SqlTest, text: &str) -> Result<&'static str, Fail> {
    let event = event(alloc, text)?;
    let query = Select {
        condition: Expr::Test(test),
    };
    match value_of(alloc, &query, &event)? {
        Truth::Yes => Ok("yes"),
        Truth::No => Ok("no"),
        Truth::Unknown => Ok("unknown"),
    }
}

fn side(operand: Operand) -> Side {
    Side {
        operand,
        collate: Collate::Unsaid,
    }
}

/// What is said of the field's text where it's compared.
fn compared(alloc: Global, text: &str, op: SqlOp, right: Operand) -> Result<&'static str, Fail> {
    let test = SqlTest::Compare {
        left: side(Operand::Column(0)),
        op,
        right: side(right),
    };
    said(alloc, test, text)
}

/// .. with `'a'`.
fn compared_with_a(alloc: Global, text: &str, op: SqlOp) -> Result<&'static str, Fail> {
    compared(alloc, text, op, Operand::Text(Text::copy(alloc, "a")?))
}

/// What LIKE says of a column that the event lacks, and whether that is NULL.
fn of_no_column(alloc: Global) -> Result<String, Fail> {
    let like = SqlTest::Like {
        field: 9,
        negated: false,
        pattern: Text::copy(alloc, "%")?,
        escape: None,
    };
    let like = said(alloc, like, "a")?;
    let is_null = SqlTest::IsNull {
        field: 9,
        negated: false,
    };
    let is_null = said(alloc, is_null, "a")?;
    Ok(format!(in alloc; "{like} {is_null}")?)
}

#[test]
fn columns_and_kinds_that_are_not_there(rt: HostRuntime) -> Result<(), Fail> {
    let alloc = rt.alloc();
    assert_told(&rt, of_no_column(alloc), "unknown yes")?;
    assert_eq!(rt; compared_with_a(alloc, "b", SqlOp::Gte)?, "no");
    assert_eq!(rt; compared_with_a(alloc, "a", SqlOp::Lte)?, "no");
    assert_eq!(rt; compared(alloc, "7", SqlOp::Eq, Operand::Whole(7))?, "no");
    assert_eq!(rt; compared(alloc, "7", SqlOp::Ne, Operand::Whole(7))?, "no");
    Ok(())
}

fn tokens(alloc: Global, text: &str) -> Result<Vec<Token>, Fail> {
    if text.len() > 10_000 {
        return Ok(Vec::new(alloc));
    }
    Ok(scan(alloc, text)?.tokens)
}

/// The condition of a query, if it's one.
fn condition(alloc: Global, query: &str) -> Result<Option<Ors>, Fail> {
    let mut sorts = VecDeque::new(alloc);
    for token in tokens(alloc, query)? {
        sorts.push_back(token.sort)?;
    }
    if sorts.len() > 10_000 {
        return Ok(None);
    }
    match read_query(alloc, sorts)? {
        Outcome::Read(query) => Ok(Some(query.condition)),
        Outcome::Stops(_) => Ok(None),
    }
}

/// The one test of a condition.
fn leaf(condition: &Ors) -> Option<&Leaf> {
    match &condition.last.last.core {
        Core::Test(leaf) => Some(leaf),
        Core::Enclosed(_) => None,
    }
}

/// The column `Image` of texts.
fn image(alloc: Global) -> Result<FieldList, Fail> {
    let mut fields = FieldList::new(alloc);
    fields.push(Field {
        name: Text::copy(alloc, "Image")?,
        kind: FieldKind::Text,
        at: Texts::new(alloc),
        search: false,
        cased: false,
        many: false,
    })?;
    Ok(fields)
}

/// The code and the place of what refuses a condition's one test whose tokens have no places.
fn told(alloc: Global, columns: &Columns<'_>, condition: &Option<Ors>) -> Result<String, Fail> {
    let Some(condition) = condition else {
        return Ok(String::from_str(alloc, "no condition")?);
    };
    let Some(leaf) = leaf(condition) else {
        return Ok(String::from_str(alloc, "no test")?);
    };
    match judge(columns, leaf, &[]) {
        Some(refusal) => {
            let code = refusal.code.number();
            let (line, column) = (refusal.place.line, refusal.place.column);
            Ok(format!(in alloc; "{code} {line}:{column}")?)
        }
        None => Ok(String::from_str(alloc, "0")?),
    }
}

/// .. of a comparison with a name that is no column's.
fn told_without_places(alloc: Global) -> Result<String, Fail> {
    let fields = image(alloc)?;
    let columns = Columns::of(alloc, fields.as_slice())?;
    let query = "SELECT * FROM \"t\" WHERE \"Image\" = \"Nope\"";
    told(alloc, &columns, &condition(alloc, query)?)
}

#[test]
fn no_places(rt: HostRuntime) -> Result<(), Fail> {
    assert_told(&rt, told_without_places(rt.alloc()), "122 1:1")
}
