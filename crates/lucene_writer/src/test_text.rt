//! The text of one test.

ghost use Rattle.std.specs.Prelude.{◌≡◌, ◌++◌, IfErr, OnOk};
ghost use Rattle.std.specs.Str.{chars};
ghost use Rattle.lucene_writer.specs.Pieces as pieces;
ghost use Rattle.lucene_writer.specs.Told.{searched};

use crate::output::{put, put_if, put_name, put_pattern, put_plain};
use crate::place::{Standing, is_alone, is_in_and};
use backend_core::{LeafTest, Op};
use event_schema::decimal_in;
use itoa::Buffer;
use sig_base::{Fault, Text};
use sig_strings::Part;
use std::alloc::Global;

fn put_has(alloc: Global, out: &mut Text, name: &str, twin: bool) -> Result<(), Fault>
    ensures ok { OnOk result (out.new ≡ out.old ++ pieces.has_text (searched twin (chars name.now))) }
    ensures err { IfErr result (λ e. e ≡ Fault.Memory) }
{
    put_name(alloc, out, name, twin)?;
    put(out, ":*")
}

fn put_absent(alloc: Global, out: &mut Text, name: &str, at: Standing) -> Result<(), Fault>
    ensures ok { OnOk result (out.new ≡ out.old ++ pieces.not_text at (pieces.has_text (chars name.now))) }
    ensures err { IfErr result (λ e. e ≡ Fault.Memory) }
{
    let enclosed = is_alone(at);
    put_if(out, enclosed, "(")?;
    put_if(out, !is_in_and(at), "*:* AND ")?;
    put(out, "NOT ")?;
    put_has(alloc, out, name, false)?;
    put_if(out, enclosed, ")")
}

fn put_empty(
    alloc: Global,
    out: &mut Text,
    name: &str,
    twin: bool,
    at: Standing,
) -> Result<(), Fault>
    ensures ok { OnOk result (out.new ≡ out.old ++ pieces.empty_text at (searched twin (chars name.now))) }
    ensures err { IfErr result (λ e. e ≡ Fault.Memory) }
{
    let enclosed = is_alone(at);
    put_if(out, enclosed, "(")?;
    put_has(alloc, out, name, twin)?;
    put(out, " AND NOT ")?;
    put_name(alloc, out, name, twin)?;
    put(out, ":?*")?;
    put_if(out, enclosed, ")")
}

fn put_fits(
    alloc: Global,
    out: &mut Text,
    name: &str,
    twin: bool,
    at: Standing,
    parts: &[Part],
) -> Result<(), Fault>
    ensures ok { OnOk result (out.new ≡ out.old ++ pieces.fits_text at (searched twin (chars name.now)) parts.now) }
    ensures err { IfErr result (λ e. e ≡ Fault.Memory) }
{
    if parts.is_empty() {
        return put_empty(alloc, out, name, twin, at);
    }
    put_name(alloc, out, name, twin)?;
    put(out, ":")?;
    put_pattern(alloc, out, parts)
}

fn put_equals(alloc: Global, out: &mut Text, name: &str, number: &i64) -> Result<(), Fault>
    ensures ok { OnOk result (out.new ≡ out.old ++ pieces.test_text (Standing.Whole) (chars name.now) (LeafTest.Equals number.now)) }
    ensures err { IfErr result (λ e. e ≡ Fault.Memory) }
{
    put_plain(alloc, out, name)?;
    put(out, ":")?;
    let mut buffer = Buffer::new();
    put_plain(alloc, out, decimal_in(&mut buffer, *number))
}

fn put_range_start(out: &mut Text, op: Op) -> Result<(), Fault>
    ensures ok { OnOk result (out.new ≡ out.old ++ pieces.range_start op) }
    ensures err { IfErr result (λ e. e ≡ Fault.Memory) }
{
    match op {
        Op::Lt | Op::Lte => put(out, "[* TO "),
        Op::Gt => put(out, "{"),
        Op::Gte => put(out, "["),
    }
}

fn put_range_end(out: &mut Text, op: Op) -> Result<(), Fault>
    ensures ok { OnOk result (out.new ≡ out.old ++ pieces.range_end op) }
    ensures err { IfErr result (λ e. e ≡ Fault.Memory) }
{
    match op {
        Op::Lt => put(out, "}"),
        Op::Lte => put(out, "]"),
        Op::Gt | Op::Gte => put(out, " TO *]"),
    }
}

/// Adds the range of the numbers that stand so to this one.
#[tactic(auto, using(crate::proofs::Signs::range_put))]
fn put_compare(alloc: Global, out: &mut Text, name: &str, op: Op, number: &i64) -> Result<(), Fault>
    ensures ok { OnOk result (out.new ≡ out.old ++ pieces.compare_text (chars name.now) op number.now) }
    ensures err { IfErr result (λ e. e ≡ Fault.Memory) }
{
    put_plain(alloc, out, name)?;
    put(out, ":")?;
    put_range_start(out, op)?;
    let mut buffer = Buffer::new();
    out.push_str(decimal_in(&mut buffer, *number))?;
    put_range_end(out, op)?;
    Ok(())
}

/// Adds what never holds.
pub(crate) fn put_never(out: &mut Text, at: Standing) -> Result<(), Fault>
    ensures ok { OnOk result (out.new ≡ out.old ++ pieces.never_text at) }
    ensures err { IfErr result (λ e. e ≡ Fault.Memory) }
{
    let enclosed = is_alone(at);
    put_if(out, enclosed, "(")?;
    put(out, "*:* AND NOT *:*")?;
    put_if(out, enclosed, ")")?;
    Ok(())
}

/// Adds a test of a field.
pub(crate) fn put_test(
    alloc: Global,
    out: &mut Text,
    name: &str,
    at: Standing,
    test: &LeafTest,
) -> Result<(), Fault>
    ensures ok { OnOk result (out.new ≡ out.old ++ pieces.test_text at (chars name.now) test.now) }
    ensures err { IfErr result (λ e. e ≡ Fault.Memory) }
{
    match test {
        LeafTest::Has => put_has(alloc, out, name, false),
        LeafTest::Absent => put_absent(alloc, out, name, at),
        LeafTest::Fits { pattern, cased } => {
            put_fits(alloc, out, name, *cased, at, pattern.parts())
        }
        LeafTest::Equals(number) => put_equals(alloc, out, name, number),
        LeafTest::Compare { op, number } => put_compare(alloc, out, name, *op, number),
        LeafTest::SameAs(_) | LeafTest::Finds(_) => put_never(out, at),
    }
}
