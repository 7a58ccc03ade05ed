//! What leaves ask of fields.

ghost use Rattle.std.specs.Prelude.{◌≡◌, if◌then◌else◌, map, Option, Some, option_map, IfOk, IfErr};
ghost use Rattle.std.specs.Fmt.{signed_decimal};
ghost use Rattle.backend_core.specs.declared.tree.LeafTest.TheVariants as leaf_tests;
ghost use Rattle.schema_index.specs.Numbered.{AreNumbered};
ghost use Rattle.rule_lowering.specs.TreeOf as spec;
ghost use Rattle.rule_lowering.specs.WholeNumbers.{written_number};
ghost use Rattle.sig_strings.specs.Edits.{has_wildcard, plain_text};
ghost use Rattle.sig_strings.specs.declared.part.Part.TheVariants.{Char};
ghost use Rattle.modifier_values.specs.Expressions as value_expressions;

use crate::whole::{read_whole, whole_number};
use backend_core::{LeafTest, Op as LeafOp};
use event_schema::{Field, FieldKind, decimal_in};
use itoa::Buffer;
use modifier_values::expression_text;
use modifier_words::{Flags, Op};
use rule_detections::Test;
use schema_index::FieldNumbers;
use sig_base::{Fault, Text, first_char};
use sig_strings::{Part, Pattern, SharedPattern};
use std::alloc::Global;

/// The pattern of a number's decimal.
fn decimal_pattern(alloc: Global, number: i64) -> Result<SharedPattern, Fault>
    ensures ok { IfOk result (λ pattern. pattern ≡ map Char (signed_decimal number)) }
    ensures err { IfErr result (λ e. e ≡ Fault.Memory) }
{
    let mut buffer = Buffer::new();
    let mut left = decimal_in(&mut buffer, number);
    let mut parts = Vec::with_capacity(alloc, left.len())?;
    while let Some((c, rest)) = first_char(left) {
        parts.push(Part::Char(c))?;
        left = rest;
    }
    SharedPattern::share(alloc, Pattern::of_parts(parts))
}

/// That the regular expression of a text is found, which a leaf can ask of any field.
fn found_expression(alloc: Global, flags: Flags, text: &Text) -> Result<Option<LeafTest>, Fault>
    ensures ok { IfOk result (λ t. t ≡ Some (leaf_tests.Finds (value_expressions.expression_text flags text.now))) }
    ensures err { IfErr result (λ e. e ≡ Fault.Memory) }
{
    let expression = expression_text(alloc, flags, text.as_str())?;
    Ok(Some(LeafTest::Finds(expression)))
}

/// What a leaf asks of a field of texts or addresses, if one can ask it.
fn text_test(
    alloc: Global,
    fields: &[Field],
    numbers: &FieldNumbers,
    test: &Test,
) -> Result<Option<LeafTest>, Fault>
    requires { AreNumbered fields.now numbers.now }
    ensures ok { IfOk result (λ t. t ≡ spec.text_test fields.now test.now) }
    ensures err { IfErr result (λ e. e ≡ Fault.Memory) }
{
    match test {
        Test::Absent | Test::Exists(false) => Ok(Some(LeafTest::Absent)),
        Test::Exists(true) => Ok(Some(LeafTest::Has)),
        Test::Fits { pattern, cased } => {
            let pattern = pattern.copy()?;
            Ok(Some(LeafTest::Fits {
                pattern,
                cased: *cased,
            }))
        }
        Test::Equals(number) => {
            let pattern = decimal_pattern(alloc, *number)?;
            Ok(Some(LeafTest::Fits {
                pattern,
                cased: false,
            }))
        }
        Test::Inside(_) | Test::Compare { .. } => Ok(None),
        Test::SameAs(name) => Ok(Some(LeafTest::SameAs(numbers.find(fields, name)))),
        Test::Finds { text, flags } => found_expression(alloc, *flags, text),
    }
}

fn leaf_op(op: Op) -> LeafOp
    ensures { result ≡ spec.leaf_op op }
{
    match op {
        Op::Lt => LeafOp::Lt,
        Op::Lte => LeafOp::Lte,
        Op::Gt => LeafOp::Gt,
        Op::Gte => LeafOp::Gte,
    }
}

fn equals(number: Option<i64>) -> Option<LeafTest>
    ensures { result ≡ option_map leaf_tests.Equals number }
{
    match number {
        Some(number) => Some(LeafTest::Equals(number)),
        None => None,
    }
}

/// What a pattern asks of a field of whole numbers.
fn whole_pattern(
    alloc: Global,
    pattern: &SharedPattern,
    cased: bool,
) -> Result<Option<LeafTest>, Fault>
    ensures ok { IfOk result (λ t. t ≡ (if has_wildcard pattern.now then Some (leaf_tests.Fits pattern.now cased)
        else option_map leaf_tests.Equals (written_number (plain_text pattern.now)))) }
    ensures err { IfErr result (λ e. e ≡ Fault.Memory) }
{
    let Some(text) = pattern.plain_text(alloc)? else {
        let pattern = pattern.copy()?;
        return Ok(Some(LeafTest::Fits { pattern, cased }));
    };
    Ok(equals(read_whole(text.as_str())))
}

/// What a leaf asks of a field of whole numbers, if a value can pass the test.
fn whole_test(
    alloc: Global,
    fields: &[Field],
    numbers: &FieldNumbers,
    test: &Test,
) -> Result<Option<LeafTest>, Fault>
    requires { AreNumbered fields.now numbers.now }
    ensures ok { IfOk result (λ t. t ≡ spec.whole_test fields.now test.now) }
    ensures err { IfErr result (λ e. e ≡ Fault.Memory) }
{
    match test {
        Test::Absent | Test::Exists(false) => Ok(Some(LeafTest::Absent)),
        Test::Exists(true) => Ok(Some(LeafTest::Has)),
        Test::Fits { pattern, cased } => whole_pattern(alloc, pattern, *cased),
        Test::Equals(number) => Ok(equals(whole_number(*number))),
        Test::Inside(_) => Ok(None),
        Test::Compare { op, number } => Ok(Some(LeafTest::Compare {
            op: leaf_op(*op),
            number: *number,
        })),
        Test::SameAs(name) => Ok(Some(LeafTest::SameAs(numbers.find(fields, name)))),
        Test::Finds { text, flags } => found_expression(alloc, *flags, text),
    }
}

/// What a leaf asks of a field of this kind, if a value can pass the test.
pub fn leaf_test(
    alloc: Global,
    fields: &[Field],
    numbers: &FieldNumbers,
    kind: FieldKind,
    test: &Test,
) -> Result<Option<LeafTest>, Fault>
    requires { AreNumbered fields.now numbers.now }
    ensures ok { IfOk result (λ t. t ≡ spec.leaf_test fields.now kind test.now) }
    ensures err { IfErr result (λ e. e ≡ Fault.Memory) }
{
    match kind {
        FieldKind::Text | FieldKind::Address => text_test(alloc, fields, numbers, test),
        FieldKind::Whole => whole_test(alloc, fields, numbers, test),
    }
}
