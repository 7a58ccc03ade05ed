//! A seed's tree compared with its query, in SQL and in a language that wants memory.

use crate::wanting::Wanting;
use generate_run::{
    Readable, after_three, compare, generated_events, make_events, make_rule, make_schema,
    seeds_are_subjects, tree_for,
};
use query_lang::{CrateBuilder, Language};
use sig_base::{Fault, Limits, Place};
use sqlite_writer::Sqlite;
use std::alloc::Global;
use std::test::Fail;

/// What is answered of so many events of seed 0.
fn answers_by<K: Readable>(alloc: Global, backend: &K, count: u32) -> Result<Vec<bool>, Fault>
where
    <K::Reader as Language>::Query: Drop,
{
    seeds_are_subjects();
    generated_events();
    let limits = Limits::standard();
    let schema = make_schema(alloc)?;
    let rule = make_rule(alloc, 0)?;
    let tree = tree_for(alloc, &limits, 0, &rule, &schema)?;
    let events = make_events(alloc, after_three(0), count)?;
    let mut builder = CrateBuilder::new(alloc, Vec::new(alloc));
    compare(
        alloc,
        backend,
        &limits,
        &schema,
        &tree,
        Place::START,
        events.as_slice(),
        &mut builder,
    )
}

#[test]
fn the_query_is_asked(rt: HostRuntime) -> Result<(), Fail> {
    let alloc = rt.alloc();
    let asked = answers_by(alloc, &Sqlite, 3)?;
    assert_eq!(rt; asked.as_slice(), [false, true, true].as_slice());
    let nothing = answers_by(alloc, &Wanting, 0)?;
    assert_eq!(rt; nothing.len(), 0);
    let wants = matches!(answers_by(alloc, &Wanting, 1), Err(Fault::Memory));
    assert!(rt; wants);
    Ok(())
}
