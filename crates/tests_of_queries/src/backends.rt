//! One rule through two backends.

ghost use Rattle.std.specs.Prelude.{if◌then◌else◌, Some};
ghost use Rattle.backend_core.specs.declared.lack.Lack.TheVariants.{Many};
ghost use Rattle.sqlite_writer.specs.Guarded.{is_unsure};
ghost use Rattle.sqlite_writer.specs.Lacking.{sqlite_lacks};
ghost use Rattle.sqlite_writer.specs.Queries.{query_bytes};
ghost use Rattle.sqlite_writer.specs.Refused.{deep_refusal};

use crate::tables::assert_told;
use backend_core::{Backend, Lack, Lacking, Leaf, LeafTest, Tree, judge_lacks};
use event_schema::Schema;
use query_lang::CrateBuilder;
use rule_convert::{convert_node, named, queries_mean_rules};
use sig_base::{Bytes, Detail, Fault, Limits, Place, Text};
use sql_lang::Sql;
use sqlite_writer::Sqlite;
use std::alloc::Global;
use std::str;
use std::test::Fail;
use yaml_tree::{Entry, Node};

/// SQLite's writer, but that it lacks tests of whether a field has a value.
struct Valueless;

impl Lacking for Valueless {
    ghost missing = { λ schema leaf. if is_unsure leaf.test then sqlite_lacks schema.fields leaf else Some Many };

    fn lacks(&self, schema: &Schema, leaf: &Leaf) -> Option<Lack> {
        match &leaf.test {
            LeafTest::Has | LeafTest::Absent => Some(Lack::Many),
            LeafTest::Fits { .. }
            | LeafTest::Equals(_)
            | LeafTest::Compare { .. }
            | LeafTest::SameAs(_)
            | LeafTest::Finds(_) => Sqlite.lacks(schema, leaf),
        }
    }
}

impl Backend for Valueless {
    type Lang = Sql;

    ghost text = { query_bytes };

    ghost too_deep = { deep_refusal };

    fn write(
        &self,
        alloc: Global,
        limits: &Limits,
        schema: &Schema,
        tree: &Tree,
        place: Place,
    ) -> Result<Bytes, Fault> {
        match judge_lacks(alloc, self, schema, tree) {
            Ok(()) => Sqlite.write(alloc, limits, schema, tree, place),
            Err(fault) => Err(fault),
        }
    }

    fn law() {
        Sqlite::law();
    }
}

fn at(line: u32, column: u32) -> Place {
    Place { line, column }
}

fn entry(alloc: Global, key: &str, place: Place, value: Node) -> Result<Entry, Fail> {
    let key = Text::copy(alloc, key)?;
    Ok(Entry { key, place, value })
}

fn one(alloc: Global, entry: Entry) -> Result<Vec<Entry>, Fail> {
    let mut entries = Vec::new(alloc);
    entries.push(entry)?;
    Ok(entries)
}

fn text(alloc: Global, place: Place, text: &str) -> Result<Node, Fail> {
    Ok(Node::text(place, Text::copy(alloc, text)?))
}

/// `selection:` with `Image:` on the line below it, which is line 7.
fn selection(alloc: Global, image: Node) -> Result<Node, Fail> {
    let item = entry(alloc, "Image", at(7, 5), image)?;
    Ok(Node::map(at(7, 5), one(alloc, item)?))
}

fn detection(alloc: Global, image: Node) -> Result<Node, Fail> {
    let mut entries = Vec::new(alloc);
    let selection = selection(alloc, image)?;
    entries.push(entry(alloc, "selection", at(6, 3), selection)?)?;
    let condition = text(alloc, at(8, 14), "selection")?;
    entries.push(entry(alloc, "condition", at(8, 3), condition)?)?;
    Ok(Node::map(at(6, 3), entries))
}

/// The lines `title: a`, `id: ..`, `logsource:` with `category: c` below it, and `detection:` with these entries below it.
fn whole(alloc: Global, detection: Node) -> Result<Node, Fail> {
    let mut entries = Vec::new(alloc);
    let title = text(alloc, at(2, 8), "a")?;
    entries.push(entry(alloc, "title", at(2, 1), title)?)?;
    let category = text(alloc, at(4, 13), "c")?;
    let source = one(alloc, entry(alloc, "category", at(4, 3), category)?)?;
    let source = Node::map(at(4, 3), source);
    entries.push(entry(alloc, "logsource", at(3, 1), source)?)?;
    entries.push(entry(alloc, "detection", at(5, 1), detection)?)?;
    Ok(Node::map(at(2, 1), entries))
}

fn rule(alloc: Global, image: Node) -> Result<Node, Fail> {
    whole(alloc, detection(alloc, image)?)
}

/// The query, or the place, the number and the detail of the refusal.
fn shown(alloc: Global, answer: Result<Bytes, Fault>) -> Result<String, Fail> {
    match answer {
        Ok(bytes) => match str::from_utf8(bytes.as_slice()) {
            Ok(text) => Ok(String::from_str(alloc, text)?),
            Err(_) => Ok(String::from_str(alloc, "no text")?),
        },
        Err(Fault::Memory) => Ok(String::from_str(alloc, "memory")?),
        Err(Fault::Refused(refusal)) => {
            let (line, column) = (refusal.place.line, refusal.place.column);
            let code = refusal.code.number();
            match &refusal.detail {
                Detail::Text(text) => Ok(format!(in alloc;
                    "{line}:{column}: {code} {}",
                    text.as_str()
                )?),
                Detail::Numbers(..) => Ok(format!(in alloc; "{line}:{column}: {code}")?),
                Detail::None => Ok(format!(in alloc; "{line}:{column}: {code}")?),
            }
        }
    }
}

/// The answer of the writer that lacks tests of whether a field has a value.
fn without_values(alloc: Global, image: Node) -> Result<String, Fail> {
    let node = rule(alloc, image)?;
    let mut builder = CrateBuilder::new(alloc, Vec::new(alloc));
    let limits = Limits::standard();
    shown(
        alloc,
        convert_node(&Valueless, alloc, &limits, &[], None, &node, &mut builder),
    )
}

fn name_of_a_file(alloc: Global) -> Result<Node, Fail> {
    text(alloc, at(7, 12), "cmd.exe")
}

#[test]
fn each_backend_has_its_own_lacks(rt: HostRuntime) -> Result<(), Fail> {
    let alloc = rt.alloc();
    let query = "SELECT * FROM \"events\" WHERE \"Image\" = 'cmd.exe' COLLATE NOCASE";
    assert_told(&rt, without_values(alloc, name_of_a_file(alloc)?), query)?;
    assert_told(
        &rt,
        without_values(alloc, Node::null(at(7, 12))),
        "7:5: 111 Many",
    )
}

#[test]
fn the_law_holds_of_each_backend(_rt: HostRuntime) -> Result<(), Fail> {
    queries_mean_rules::<Valueless>();
    named::queries_mean_rules();
    Ok(())
}
