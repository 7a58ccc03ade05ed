//! Queries of Lucene: the words `UNIT COUNT FIELDS` are a text, how often it stands in the query, which may have 4,194,304 bytes, and
//! how many fields the schema has, all of texts: `winlog.event_data.0` and so on, and `a`, which is the last. Written is the code of
//! the query's refusal and its place, or how many clauses were read. As in `time out/bench lucene 'a:x OR ' 500000 512`.

use crate::{number, shown, unknown};
use event_schema::{Field, FieldKind, FieldList, Schema};
use lucene_read::read_query;
use sig_base::{Fault, Limits, Text, Texts};
use std::alloc::Global;
use std::env::Args;
use std::io;

fn field(alloc: Global, name: &str) -> Result<Field, Fault> {
    Ok(Field {
        name: Text::copy(alloc, name)?,
        kind: FieldKind::Text,
        at: Texts::new(alloc),
        search: false,
        cased: true,
        many: false,
    })
}

/// A schema of so many fields and one more.
fn schema(alloc: Global, others: usize) -> Result<Schema, Fault> {
    let mut fields = FieldList::new(alloc);
    for number in 0..others {
        let name = format!(in alloc; "winlog.event_data.{number}")?;
        fields.push(field(alloc, name.as_str())?)?;
    }
    fields.push(field(alloc, "a")?)?;
    Ok(Schema {
        table: Text::copy(alloc, "events")?,
        fields,
        time: None,
    })
}

fn query_of(alloc: Global, unit: &str, count: usize) -> Result<Vec<u8>, Fault> {
    let mut bytes = Vec::new(alloc);
    for _ in 0..count {
        bytes.extend_from_slice(unit.as_bytes())?;
    }
    Ok(bytes)
}

/// How many clauses a query has.
fn clauses(alloc: Global, unit: &str, count: usize, others: usize) -> Result<usize, Fault> {
    let limits = Limits::standard();
    let schema = schema(alloc, others)?;
    let bytes = query_of(alloc, unit, count)?;
    if bytes.len() > limits.query_bytes {
        return Err(Fault::Memory);
    }
    let group = read_query(alloc, &limits, &schema, bytes.as_slice())?;
    Ok(group.clauses.len())
}

pub(crate) fn line(alloc: Global, unit: &str, count: usize, fields: usize) -> io::Result<String> {
    match clauses(alloc, unit, count, fields.saturating_sub(1)) {
        Ok(count) => Ok(format!(in alloc; "{count} clauses")?),
        Err(fault) => shown(alloc, &fault),
    }
}

pub(crate) fn told(alloc: Global, words: &mut Args) -> io::Result<String> {
    let Some(unit) = words.next() else {
        return Err(unknown());
    };
    let (Some(count), Some(fields)) = (number(words.next()), number(words.next())) else {
        return Err(unknown());
    };
    line(alloc, unit.as_str(), count, fields)
}
