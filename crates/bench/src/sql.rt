//! Queries of SQL: the words `BEGIN UNIT COUNT MIDDLE CLOSE` are what the query begins with, a text, how often it stands there, what
//! comes then, and a text that stands as often behind that. It may have 4,194,304 bytes. The schema's table is `t`, with the field `a`
//! of texts. Written is the code of the first refusal and its place, or that it was read. As in
//! `time out/bench sql 'SELECT*FROM"t"WHERE' '(' 1000000 1 ')'`.

use crate::{number, shown, unknown};
use event_schema::{Field, FieldKind, FieldList, Schema};
use query_lang::CrateBuilder;
use sig_base::{Fault, Limits, Text, Texts};
use sql_read::read_select;
use std::alloc::Global;
use std::env::Args;
use std::io;

fn schema(alloc: Global) -> Result<Schema, Fault> {
    let mut fields = FieldList::new(alloc);
    fields.push(Field {
        name: Text::copy(alloc, "a")?,
        kind: FieldKind::Text,
        at: Texts::new(alloc),
        search: false,
        cased: false,
        many: false,
    })?;
    Ok(Schema {
        table: Text::copy(alloc, "t")?,
        fields,
        time: None,
    })
}

fn query_of(
    alloc: Global,
    begin: &str,
    unit: &str,
    count: usize,
    middle: &str,
    close: &str,
) -> Result<String, Fault> {
    let mut text = String::from_str(alloc, begin)?;
    for _ in 0..count {
        text.push_str(unit)?;
    }
    text.push_str(middle)?;
    for _ in 0..count {
        text.push_str(close)?;
    }
    Ok(text)
}

fn read(alloc: Global, text: &str) -> Result<(), Fault> {
    let limits = Limits::standard();
    if text.len() > limits.query_bytes {
        return Err(Fault::Memory);
    }
    let schema = schema(alloc)?;
    let mut builder = CrateBuilder::new(alloc, Vec::new(alloc));
    match read_select(alloc, &limits, &schema, text.as_bytes(), &mut builder) {
        Ok(_) => Ok(()),
        Err(fault) => Err(fault),
    }
}

fn query_read(
    alloc: Global,
    begin: &str,
    unit: &str,
    count: usize,
    middle: &str,
    close: &str,
) -> Result<(), Fault> {
    let text = query_of(alloc, begin, unit, count, middle, close)?;
    read(alloc, text.as_str())
}

pub(crate) fn line(
    alloc: Global,
    begin: &str,
    unit: &str,
    count: usize,
    middle: &str,
    close: &str,
) -> io::Result<String> {
    match query_read(alloc, begin, unit, count, middle, close) {
        Ok(()) => Ok(String::from_str(alloc, "read")?),
        Err(fault) => shown(alloc, &fault),
    }
}

pub(crate) fn told(alloc: Global, words: &mut Args) -> io::Result<String> {
    let (Some(begin), Some(unit)) = (words.next(), words.next()) else {
        return Err(unknown());
    };
    let (Some(count), Some(middle), Some(close)) = (
        number(words.next()),
        words.next(),
        words.next(),
    ) else {
        return Err(unknown());
    };
    line(
        alloc,
        begin.as_str(),
        unit.as_str(),
        count,
        middle.as_str(),
        close.as_str(),
    )
}
