//! Tests as they're asked: columns by their places, numbers as numbers.

ghost use Rattle.std.specs.Prelude.{List, ◌≡◌, map, IfOk, IfErr};
ghost use Rattle.event_schema.specs.declared.schema.Field.{Field};
ghost use Rattle.sql_lang.specs.Expression as expression;
ghost use Rattle.sql_lang.specs.Grammar as grammar;
ghost use Rattle.sql_parse.specs.View.{leaf_view, literal_view, literals_view, right_view};
ghost use Rattle.sql_lang.specs.View.{collate_view, op_view, operand_view, side_view};
ghost use Rattle.sql_check.specs.View.{read_view};

use crate::columns::Columns;
use crate::like::one_character;
use sig_base::{Fault, Text};
use sql_lang::{Collate, Operand, Side, SqlOp, SqlTest};
use sql_parse::{Leaf, Literal, Right};
use std::alloc::Global;

/// A test as it's read. The regular expression of a REGEXP isn't built yet.
#[derive(Drop, Debug)]
pub enum ReadTest {
    Test(SqlTest),
    Regexp {
        field: usize,
        negated: bool,
        pattern: Text,
    },
}

/// The place of a column, or 0 where there is none of this name.
fn number_at(columns: &Columns<'_>, name: &Text) -> usize
    ensures { result ≡ expression.number_at columns.now name.now }
{
    match columns.find(name) {
        Some(number) => number,
        None => 0,
    }
}

fn escape_of(escape: &Option<Text>) -> Option<char>
    ensures { result ≡ expression.escape_of escape.now }
{
    match escape {
        Some(text) => one_character(text),
        None => None,
    }
}

fn copied(alloc: Global, text: &Text) -> Result<Text, Fault>
    ensures ok { IfOk result (λ t. t ≡ text.now) }
    ensures err { IfErr result (λ e. e ≡ Fault.Memory) }
{
    Text::copy(alloc, text.as_str())
}

fn literal_operand(alloc: Global, literal: &Literal) -> Result<Operand, Fault>
    ensures ok { IfOk result (λ o. (fields : List Field) → operand_view o ≡ expression.literal_operand fields (literal_view literal.now)) }
    ensures err { IfErr result (λ e. e ≡ Fault.Memory) }
{
    match literal {
        Literal::Text(text) => Ok(Operand::Text(copied(alloc, text)?)),
        Literal::Number(number) => Ok(Operand::Whole(number.value)),
    }
}

fn right_operand(alloc: Global, columns: &Columns<'_>, right: &Right) -> Result<Operand, Fault>
    ensures ok { IfOk result (λ o. operand_view o ≡ expression.right_operand columns.now (right_view right.now)) }
    ensures err { IfErr result (λ e. e ≡ Fault.Memory) }
{
    match right {
        Right::Name(name) => Ok(Operand::Column(number_at(columns, name))),
        Right::Literal(literal) => literal_operand(alloc, literal),
    }
}

fn operands(alloc: Global, literals: &[Literal]) -> Result<Vec<Operand>, Fault>
    ensures ok { IfOk result (λ values. (fields : List Field) → map operand_view values.items ≡ map (expression.literal_operand fields) (literals_view literals.now)) }
    ensures err { IfErr result (λ e. e ≡ Fault.Memory) }
{
    let mut values = Vec::with_capacity(alloc, literals.len().saturating_add(1))?;
    for literal in literals {
        values.push(literal_operand(alloc, literal)?)?;
    }
    Ok(values)
}

/// The literals of a list, of which the last one stands apart.
fn listed_operands(alloc: Global, before: &[Literal], last: &Literal) -> Result<Vec<Operand>, Fault>
    ensures ok { IfOk result (λ values. (fields : List Field) → map operand_view values.items ≡ expression.literal_operands fields (literals_view before.now) (literal_view last.now)) }
    ensures err { IfErr result (λ e. e ≡ Fault.Memory) }
{
    let mut values = operands(alloc, before)?;
    values.push(literal_operand(alloc, last)?)?;
    Ok(values)
}

fn named_side(columns: &Columns<'_>, name: &Text, collate: Collate) -> Side
    ensures { side_view result ≡ expression.named_side columns.now name.now (collate_view collate) }
{
    Side {
        operand: Operand::Column(number_at(columns, name)),
        collate,
    }
}

fn comparison(
    alloc: Global,
    columns: &Columns<'_>,
    name: &Text,
    left: Collate,
    op: SqlOp,
    right: &Right,
    collate: Collate,
) -> Result<ReadTest, Fault>
    ensures ok { IfOk result (λ t. read_view t ≡ expression.test_of columns.now (grammar.compares name.now (collate_view left) (op_view op) (right_view right.now) (collate_view collate))) }
    ensures err { IfErr result (λ e. e ≡ Fault.Memory) }
{
    let operand = right_operand(alloc, columns, right)?;
    Ok(ReadTest::Test(SqlTest::Compare {
        left: named_side(columns, name, left),
        op,
        right: Side { operand, collate },
    }))
}

fn likeness(
    alloc: Global,
    columns: &Columns<'_>,
    name: &Text,
    negated: bool,
    pattern: &Text,
    escape: &Option<Text>,
) -> Result<ReadTest, Fault>
    ensures ok { IfOk result (λ t. read_view t ≡ expression.test_of columns.now (grammar.like name.now negated pattern.now escape.now)) }
    ensures err { IfErr result (λ e. e ≡ Fault.Memory) }
{
    let pattern = copied(alloc, pattern)?;
    Ok(ReadTest::Test(SqlTest::Like {
        field: number_at(columns, name),
        negated,
        pattern,
        escape: escape_of(escape),
    }))
}

fn glob(
    alloc: Global,
    columns: &Columns<'_>,
    name: &Text,
    negated: bool,
    pattern: &Text,
) -> Result<ReadTest, Fault>
    ensures ok { IfOk result (λ t. read_view t ≡ expression.test_of columns.now (grammar.glob name.now negated pattern.now)) }
    ensures err { IfErr result (λ e. e ≡ Fault.Memory) }
{
    let pattern = copied(alloc, pattern)?;
    Ok(ReadTest::Test(SqlTest::Glob {
        field: number_at(columns, name),
        negated,
        pattern,
    }))
}

fn regexp(
    alloc: Global,
    columns: &Columns<'_>,
    name: &Text,
    negated: bool,
    pattern: &Text,
) -> Result<ReadTest, Fault>
    ensures ok { IfOk result (λ t. read_view t ≡ expression.test_of columns.now (grammar.regexp name.now negated pattern.now)) }
    ensures err { IfErr result (λ e. e ≡ Fault.Memory) }
{
    let pattern = copied(alloc, pattern)?;
    Ok(ReadTest::Regexp {
        field: number_at(columns, name),
        negated,
        pattern,
    })
}

fn one_of(
    alloc: Global,
    columns: &Columns<'_>,
    name: &Text,
    collate: Collate,
    negated: bool,
    before: &[Literal],
    last: &Literal,
) -> Result<ReadTest, Fault>
    ensures ok { IfOk result (λ t. read_view t ≡ expression.test_of columns.now (grammar.one_of name.now (collate_view collate) negated (literals_view before.now) (literal_view last.now))) }
    ensures err { IfErr result (λ e. e ≡ Fault.Memory) }
{
    let values = listed_operands(alloc, before, last)?;
    Ok(ReadTest::Test(SqlTest::OneOf {
        left: named_side(columns, name, collate),
        negated,
        values,
    }))
}

/// The test of a schema's columns that a test is as it's written; only want of memory is answered. A name that is no column's is
/// taken for the first column's.
pub fn test_of(alloc: Global, columns: &Columns<'_>, leaf: &Leaf) -> Result<ReadTest, Fault>
    ensures ok { IfOk result (λ t. read_view t ≡ expression.test_of columns.now (leaf_view leaf.now)) }
    ensures err { IfErr result (λ e. e ≡ Fault.Memory) }
{
    match leaf {
        Leaf::Constant(value) => Ok(ReadTest::Test(SqlTest::Constant(*value))),
        Leaf::IsNull { name, negated } => Ok(ReadTest::Test(SqlTest::IsNull {
            field: number_at(columns, name),
            negated: *negated,
        })),
        Leaf::Compare {
            name,
            left,
            op,
            right,
            collate,
        } => comparison(alloc, columns, name, *left, *op, right, *collate),
        Leaf::Like {
            name,
            negated,
            pattern,
            escape,
        } => likeness(alloc, columns, name, *negated, pattern, escape),
        Leaf::Glob {
            name,
            negated,
            pattern,
        } => glob(alloc, columns, name, *negated, pattern),
        Leaf::Regexp {
            name,
            negated,
            pattern,
        } => regexp(alloc, columns, name, *negated, pattern),
        Leaf::OneOf {
            name,
            collate,
            negated,
            before,
            last,
        } => one_of(alloc, columns, name, *collate, *negated, before, last),
        Leaf::Between {
            name,
            collate,
            negated,
            low,
            high,
        } => Ok(ReadTest::Test(SqlTest::Between {
            left: named_side(columns, name, *collate),
            negated: *negated,
            low: low.value,
            high: high.value,
        })),
    }
}
