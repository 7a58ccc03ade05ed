//! What no clause says: that the calls succeed, and that the fakes do what a reader of them expects.

use crate::tables::assert_told;
use sig_base::{
    Bytes, Code, Limits, Sequence, Shelf, ShelfFault, Sink, Source, Text, TryCopy, put_all,
};
use std::alloc::Global;
use std::collections::HashSet;
use std::test::Fail;
use system_io::{MemoryShelf, MemorySink, MemorySource};

fn codes_told(alloc: Global) -> Result<String, Fail> {
    let limit = Limits::standard().query_bytes;
    Ok(format!(in alloc; "{} {limit}", Code::FMT_TOO_LONG.name())?)
}

/// Bytes of ASCII as a text.
fn shown(alloc: Global, bytes: &[u8]) -> Result<String, Fail> {
    let mut all = String::new(alloc);
    for byte in bytes {
        all.push(*byte as char)?;
    }
    Ok(all)
}

#[test]
fn codes_and_limits_are_known(rt: HostRuntime) -> Result<(), Fail> {
    assert_told(&rt, codes_told(rt.alloc()), "FmtTooLong 4194304")
}

/// A list of two texts, the second empty, and an empty list.
fn lists(alloc: Global) -> Result<Sequence<Sequence<Text>>, Fail> {
    let mut inner = Sequence::with_capacity(alloc, 2)?;
    inner.push(Text::copy(alloc, "Grüße")?)?;
    inner.push(Text::new(alloc))?;
    let mut outer = Sequence::new(alloc);
    outer.push(inner)?;
    outer.push(Sequence::from_vec(Vec::new(alloc)))?;
    Ok(outer)
}

/// How many lists a copy has, and how many texts each of them.
fn copy_told(alloc: Global) -> Result<String, Fail> {
    let copy = lists(alloc)?.try_copy(alloc)?;
    let mut shown = format!(in alloc; "{}:", copy.as_slice().len())?;
    for list in copy.as_slice() {
        shown.push_str(format!(in alloc; " {}", list.as_slice().len())?.as_str())?;
    }
    Ok(shown)
}

/// The first list of a copy, taken out of it from the end.
fn first_list(alloc: Global) -> Result<Sequence<Text>, Fail> {
    let mut lists = lists(alloc)?.try_copy(alloc)?.into_vec();
    lists.pop();
    match lists.pop() {
        Some(first) => Ok(first),
        None => Err(Fail::new("no list")),
    }
}

/// Of each text of the first list, whether it is `Grüße`, whether it isn't the first one, and whether a set of `Grüße` contains
/// it.
fn texts_told(alloc: Global) -> Result<String, Fail> {
    let first = first_list(alloc)?;
    let text = Text::copy(alloc, "Grüße")?;
    let mut known = HashSet::new(alloc);
    known.insert(Text::copy(alloc, "Grüße")?)?;
    let mut shown = String::new(alloc);
    for one in first.as_slice() {
        let same = *one == text;
        let differs = *one != text;
        let contained = known.contains(one);
        shown.push_str(format!(in alloc; "{same} {differs} {contained};")?.as_str())?;
    }
    Ok(shown)
}

/// Whether the two texts of the first list differ.
fn texts_differ(alloc: Global) -> Result<bool, Fail> {
    let first = first_list(alloc)?;
    match (first.as_slice().first(), first.as_slice().last()) {
        (Some(one), Some(other)) => Ok(*one != *other),
        _ => Err(Fail::new("no texts")),
    }
}

#[test]
fn copies_lists_and_compares_texts(rt: HostRuntime) -> Result<(), Fail> {
    assert_told(&rt, copy_told(rt.alloc()), "2: 2 0")?;
    assert_told(
        &rt,
        texts_told(rt.alloc()),
        "true false true;false true false;",
    )?;
    assert!(rt; texts_differ(rt.alloc())?);
    Ok(())
}

fn one(alloc: Global, call: u64) -> Result<Vec<u64>, Fail> {
    let mut all = Vec::new(alloc);
    all.push(call)?;
    Ok(all)
}

/// A shelf with `abc` in the file `a`, whose second call fails.
fn shelf(alloc: Global) -> Result<MemoryShelf, Fail> {
    let mut files = Vec::new(alloc);
    files.push((Text::copy(alloc, "a")?, Bytes::copy(alloc, b"abc")?))?;
    Ok(MemoryShelf::new(alloc, files, one(alloc, 2)?))
}

/// Adds what the shelf gives of a file, and a `;`.
fn put_read(
    alloc: Global,
    all: &mut String,
    shelf: &mut MemoryShelf,
    name: &str,
    at_most: usize,
) -> Result<(), Fail> {
    match &shelf.read(alloc, name, at_most) {
        Ok(bytes) => all.push_str(shown(alloc, bytes.as_slice())?.as_str())?,
        Err(ShelfFault::Failed) => all.push_str("failed")?,
        Err(ShelfFault::Memory) => all.push_str("memory")?,
    }
    all.push(';')?;
    Ok(())
}

fn shelf_told(alloc: Global) -> Result<String, Fail> {
    let mut shelf = shelf(alloc)?;
    let mut all = String::new(alloc);
    put_read(alloc, &mut all, &mut shelf, "a", 2)?;
    put_read(alloc, &mut all, &mut shelf, "a", 2)?;
    put_read(alloc, &mut all, &mut shelf, "b", 2)?;
    put_read(alloc, &mut all, &mut shelf, "a", 9)?;
    Ok(all)
}

/// How many bytes each of four reads gives of a source of three bytes in pieces of two, whose first call fails.
fn source_told(alloc: Global) -> Result<String, Fail> {
    let mut source = MemorySource::new(Bytes::copy(alloc, b"abc")?, 2, one(alloc, 1)?);
    let mut all = String::new(alloc);
    for _ in 0..4 {
        let mut buf = [0u8; 4];
        match &source.read(&mut buf) {
            Ok(count) => all.push_str(format!(in alloc; "{count};")?.as_str())?,
            Err(_) => all.push_str("failed;")?,
        }
    }
    Ok(all)
}

/// Whether a sink with room for three bytes takes two at its first call, which fails, and then four, what it has taken, and
/// whether it takes none.
fn sink_told(alloc: Global) -> Result<String, Fail> {
    let mut sink = MemorySink::new(alloc, 3, 2, one(alloc, 1)?)?;
    let two = sink.write(b"ab").is_ok();
    let four = put_all(&mut sink, b"abcd").is_ok();
    let taken = shown(alloc, sink.taken())?;
    let none = put_all(&mut sink, b"").is_ok();
    Ok(format!(in alloc; "{two} {four} {} {none}", taken.as_str())?)
}

#[test]
fn fails_where_it_is_told_to(rt: HostRuntime) -> Result<(), Fail> {
    assert_told(&rt, shelf_told(rt.alloc()), "ab;failed;failed;abc;")?;
    assert_told(&rt, source_told(rt.alloc()), "failed;2;1;0;")?;
    assert_told(&rt, sink_told(rt.alloc()), "false false abc true")
}
