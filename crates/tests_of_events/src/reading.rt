//! The empty line, which commands pass over before it's read as an event.

use crate::telling::assert_told;
use event_read::{read_event, read_schema};
use event_schema::Schema;
use sig_base::{Fault, Limits};
use std::alloc::Global;
use std::test::Fail;

fn refused(alloc: Global, fault: &Fault) -> Result<String, Fail> {
    let Fault::Refused(refusal) = fault else {
        return Ok(String::from_str(alloc, "memory")?);
    };
    let code = refusal.code.number();
    let line = refusal.place.line;
    let column = refusal.place.column;
    Ok(format!(in alloc; "{code} at {line}:{column}")?)
}

/// What refuses line 7, if something does.
fn told(alloc: Global, schema: &Schema, line: &[u8]) -> Result<String, Fail> {
    match read_event(alloc, schema, 7, line) {
        Ok(_) => Ok(String::from_str(alloc, "an event")?),
        Err(fault) => refused(alloc, &fault),
    }
}

fn empty_line_told(alloc: Global) -> Result<String, Fail> {
    let schema = "{\"fields\":[{\"name\":\"N\",\"kind\":\"whole\"}]}";
    let schema = read_schema(alloc, &Limits::standard(), schema.as_bytes())?;
    told(alloc, &schema, "".as_bytes())
}

#[test]
fn an_empty_line(rt: HostRuntime) -> Result<(), Fail> {
    assert_told(&rt, empty_line_told(rt.alloc()), "25 at 7:1")
}
