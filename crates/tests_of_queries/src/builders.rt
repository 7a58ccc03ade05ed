//! Builders and the small language, by hand.

use crate::asking::{answer, text};
use crate::small::Small;
use crate::tables::assert_told;
use event_schema::FieldValues;
use query_lang::{BuildFault, CrateBuilder, Search};
use sig_base::Text;
use std::alloc::Global;
use std::test::Fail;

/// What the small language answers to a pattern at an event with the value `C:\Windows\cmd.exe`.
fn small(alloc: Global, builder: &mut CrateBuilder, bytes: &[u8]) -> Result<String, Fail> {
    let value = FieldValues::one(text(alloc, r"C:\Windows\cmd.exe")?);
    answer::<Small, CrateBuilder>(alloc, builder, value, bytes)
}

/// A builder that fails at these calls.
fn builder_failing(alloc: Global, calls: &[u64]) -> Result<CrateBuilder, Fail> {
    let mut all = Vec::new(alloc);
    all.extend_from_slice(calls)?;
    Ok(CrateBuilder::new(alloc, all))
}

/// The first row, `what is answered~a pattern`, that is answered otherwise, by one builder for all.
fn wrong_small(alloc: Global, failing: &[u64], table: &str) -> Result<String, Fail> {
    let mut builder = builder_failing(alloc, failing)?;
    for row in table.lines() {
        let Some((want, given)) = row.split_once('~') else {
            return Ok(format!(in alloc; "no row: {row}")?);
        };
        if small(alloc, &mut builder, given.as_bytes())?.as_str() != want {
            return Ok(String::from_str(alloc, row)?);
        }
    }
    Ok(String::new(alloc))
}

const SMALL: &str = "yes~cmd
48 at 1:1~cmd
no~CMD
yes~(?i)s.CMD[.]
47 at 1:1~(cmd";

/// What is answered to bytes that are no text.
fn no_text(alloc: Global) -> Result<String, Fail> {
    small(alloc, &mut builder_failing(alloc, &[])?, b"\xff")
}

#[test]
fn the_small_language(rt: HostRuntime) -> Result<(), Fail> {
    assert_told(&rt, wrong_small(rt.alloc(), &[2], SMALL), "")?;
    assert_told(&rt, no_text(rt.alloc()), "1 at 1:1")
}

fn built(alloc: Global, builder: &mut CrateBuilder, text: &str) -> Result<&'static str, Fail> {
    match Search::build(alloc, builder, Text::copy(alloc, text)?) {
        Ok(_) => Ok("built"),
        Err(BuildFault::Syntax) => Ok("syntax"),
        Err(BuildFault::Refused) => Ok("refused"),
        Err(BuildFault::Memory) => Ok("memory"),
    }
}

/// The first row, `what is answered~a regular expression`, that is answered otherwise, by one builder for all.
fn wrong_built(alloc: Global, failing: &[u64], table: &str) -> Result<String, Fail> {
    let mut builder = builder_failing(alloc, failing)?;
    for row in table.lines() {
        let Some((want, given)) = row.split_once('~') else {
            return Ok(format!(in alloc; "no row: {row}")?);
        };
        if built(alloc, &mut builder, given)? != want {
            return Ok(String::from_str(alloc, row)?);
        }
    }
    Ok(String::new(alloc))
}

const BUILT: &str = r"refused~(?i)a+b
built~(?i)a+b
refused~(
syntax~(
built~(?P<n>\d{4})-[[:alpha:]]
refused~(?:a{1000}){1000}
syntax~(a)\1";

#[test]
fn builders(rt: HostRuntime) -> Result<(), Fail> {
    assert_told(&rt, wrong_built(rt.alloc(), &[1, 3], BUILT), "")
}
