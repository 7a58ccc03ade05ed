//! The text of one test.

ghost use Rattle.std.specs.Prelude.{◌≡◌, ◌∷◌, ◌++◌, [], IfErr, OnOk, if◌then◌else◌};
ghost use Rattle.std.specs.Str.{chars};
ghost use Rattle.sig_strings.specs.Edits.{has_wildcard};
ghost use Rattle.sql_lang.specs.Grammar.{spell_test};
ghost use Rattle.sql_lang.specs.Tokens.{Eq};
ghost use Rattle.sql_layout.specs.Layout.{op_text, spaced};
ghost use Rattle.sql_layout.specs.Leaves.{compares_number, has_no_value};
ghost use Rattle.sqlite_writer.specs.Guarded as guards;
ghost use Rattle.sqlite_writer.specs.Guarded.{wildcard_test, plain_test, same_test, finds_test, sign_of};
ghost use Rattle.sqlite_writer.specs.Pieces.{has_text, test_text};

use crate::output::{put, put_doubled, put_name};
use crate::patterns::{put_characters, put_glob, put_like};
use backend_core::{LeafTest, Op, kind_of, name_of};
use event_schema::{Field, FieldKind, decimal_in};
use itoa::Buffer;
use sig_base::{Fault, Text};
use sig_strings::{Part, SharedPattern};

/// Adds the test that a field has a value.
fn put_has(out: &mut Text, field: &str) -> Result<(), Fault>
    ensures ok { OnOk result (out.new ≡ out.old ++ has_text (chars field.now)) }
    ensures err { IfErr result (λ e. e ≡ Fault.Memory) }
{
    put_name(out, field)?;
    put(out, " IS NOT NULL")?;
    Ok(())
}

fn put_absent(out: &mut Text, field: &str) -> Result<(), Fault>
    ensures ok { OnOk result (out.new ≡ out.old ++ spaced (spell_test (has_no_value (chars field.now)))) }
    ensures err { IfErr result (λ e. e ≡ Fault.Memory) }
{
    put_name(out, field)?;
    put(out, " IS NULL")?;
    Ok(())
}

#[tactic(auto, using(crate::proofs::Doubled::text_test))]
fn put_wildcard(out: &mut Text, field: &str, cased: bool, parts: &[Part]) -> Result<(), Fault>
    ensures ok { OnOk result (out.new ≡ out.old ++ spaced (spell_test (wildcard_test (chars field.now) cased parts.now))) }
    ensures err { IfErr result (λ e. e ≡ Fault.Memory) }
{
    put_name(out, field)?;
    if cased {
        put(out, " GLOB '")?;
        put_glob(out, parts)?;
        return put(out, "'");
    }
    put(out, " LIKE '")?;
    put_like(out, parts)?;
    put(out, "' ESCAPE '\\'")
}

#[tactic(auto, using(crate::proofs::Doubled::text_test))]
fn put_plain(out: &mut Text, field: &str, cased: bool, parts: &[Part]) -> Result<(), Fault>
    ensures ok { OnOk result (out.new ≡ out.old ++ spaced (spell_test (plain_test (chars field.now) cased parts.now))) }
    ensures err { IfErr result (λ e. e ≡ Fault.Memory) }
{
    put_name(out, field)?;
    put(out, " = '")?;
    put_characters(out, parts)?;
    if cased {
        return put(out, "'");
    }
    put(out, "' COLLATE NOCASE")?;
    Ok(())
}

/// Whether case counts in a field of this kind where a test asks for it.
fn counts_case(kind: FieldKind, cased: bool) -> bool
    ensures { result ≡ guards.counts_case kind cased }
{
    match kind {
        FieldKind::Text | FieldKind::Address => cased,
        FieldKind::Whole => false,
    }
}

fn put_fits(
    out: &mut Text,
    field: &str,
    kind: FieldKind,
    cased: bool,
    pattern: &SharedPattern,
) -> Result<(), Fault>
    ensures ok { OnOk result (out.new ≡ out.old ++ spaced (spell_test (if has_wildcard pattern.now
        then wildcard_test (chars field.now) (guards.counts_case kind cased) pattern.now
        else plain_test (chars field.now) cased pattern.now))) }
    ensures err { IfErr result (λ e. e ≡ Fault.Memory) }
{
    let parts = pattern.parts();
    if pattern.has_wildcard() {
        return put_wildcard(out, field, counts_case(kind, cased), parts);
    }
    put_plain(out, field, cased, parts)
}

#[tactic(auto, using(crate::proofs::Doubled::number_test))]
fn put_equals(out: &mut Text, field: &str, number: &i64) -> Result<(), Fault>
    ensures ok { OnOk result (out.new ≡ out.old ++ spaced (spell_test (compares_number (chars field.now) Eq number.now))) }
    ensures err { IfErr result (λ e. e ≡ Fault.Memory) }
{
    put_name(out, field)?;
    put(out, " = ")?;
    let mut buffer = Buffer::new();
    out.push_str(decimal_in(&mut buffer, *number))?;
    Ok(())
}

/// Adds the sign of a comparison between two spaces.
fn put_sign(out: &mut Text, op: Op) -> Result<(), Fault>
    ensures ok { OnOk result (out.new ≡ out.old ++ (32 ∷ (op_text (sign_of op) ++ (32 ∷ [])))) }
    ensures err { IfErr result (λ e. e ≡ Fault.Memory) }
{
    match op {
        Op::Lt => put(out, " < "),
        Op::Lte => put(out, " <= "),
        Op::Gt => put(out, " > "),
        Op::Gte => put(out, " >= "),
    }
}

#[tactic(auto, using(crate::proofs::Doubled::order_test))]
fn put_compare(out: &mut Text, field: &str, op: Op, number: &i64) -> Result<(), Fault>
    ensures ok { OnOk result (out.new ≡ out.old ++ spaced (spell_test (compares_number (chars field.now) (sign_of op) number.now))) }
    ensures err { IfErr result (λ e. e ≡ Fault.Memory) }
{
    put_name(out, field)?;
    put_sign(out, op)?;
    let mut buffer = Buffer::new();
    out.push_str(decimal_in(&mut buffer, *number))?;
    Ok(())
}

/// Adds the test that two fields of this kind have the same value, of texts in any case.
#[tactic(auto, using(crate::proofs::Doubled::number_test, crate::proofs::Doubled::names_test))]
fn put_same(out: &mut Text, field: &str, other: &str, kind: FieldKind) -> Result<(), Fault>
    ensures ok { OnOk result (out.new ≡ out.old ++ spaced (spell_test (same_test kind (chars field.now) (chars other.now)))) }
    ensures err { IfErr result (λ e. e ≡ Fault.Memory) }
{
    put_name(out, field)?;
    put(out, " = ")?;
    put_name(out, other)?;
    match kind {
        FieldKind::Text | FieldKind::Address => put(out, " COLLATE NOCASE"),
        FieldKind::Whole => Ok(()),
    }
}

/// Adds the test that a regular expression has a match in the value.
#[tactic(auto, using(crate::proofs::Doubled::text_test))]
fn put_finds(out: &mut Text, field: &str, expression: &str) -> Result<(), Fault>
    ensures ok { OnOk result (out.new ≡ out.old ++ spaced (spell_test (finds_test (chars field.now) (chars expression.now)))) }
    ensures err { IfErr result (λ e. e ≡ Fault.Memory) }
{
    put_name(out, field)?;
    put(out, " REGEXP '")?;
    put_doubled(out, '\'', expression)?;
    put(out, "'")
}

/// Adds a test of a field of this kind and name.
pub(crate) fn put_test(
    out: &mut Text,
    fields: &[Field],
    kind: FieldKind,
    field: &str,
    test: &LeafTest,
) -> Result<(), Fault>
    ensures ok { OnOk result (out.new ≡ out.old ++ test_text fields.now kind (chars field.now) test.now) }
    ensures err { IfErr result (λ e. e ≡ Fault.Memory) }
{
    match test {
        LeafTest::Has => put_has(out, field),
        LeafTest::Absent => put_absent(out, field),
        LeafTest::Fits { pattern, cased } => put_fits(out, field, kind, *cased, pattern),
        LeafTest::Equals(number) => put_equals(out, field, number),
        LeafTest::Compare { op, number } => put_compare(out, field, *op, number),
        LeafTest::SameAs(other) => {
            put_same(out, field, name_of(fields, *other), kind_of(fields, *other))
        }
        LeafTest::Finds(expression) => put_finds(out, field, expression.as_str()),
    }
}
