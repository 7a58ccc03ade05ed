//! Commands that are run on `serve` over files, events and outputs in memory.

use case_read::{Ran, Trouble, World};
use query_lang::CrateBuilder;
use sig_base::{Bytes, Text};
use sigma_serve::serve;
use std::alloc::Global;
use system_io::{MemoryShelf, MemorySink, MemorySource};

/// The files and the events of a case.
#[derive(Drop)]
pub struct Inputs {
    pub files: Vec<(String, Vec<u8>)>,
    pub events: Vec<u8>,
}

/// A command's words, and what they are run over.
#[derive(Clone, Copy)]
pub struct Command<'a> {
    pub words: &'a [Text],
    pub inputs: &'a Inputs,
}

/// The ordinals of the calls that fail: this one, if it isn't 0.
fn ordinals(alloc: Global, call: u64) -> Result<Vec<u64>, Trouble> {
    let mut all = Vec::new(alloc);
    if call > 0 {
        all.push(call)?;
    }
    Ok(all)
}

fn shelf_of(alloc: Global, inputs: &Inputs, call: u64) -> Result<MemoryShelf, Trouble> {
    let mut files = Vec::new(alloc);
    for file in inputs.files.as_slice() {
        let name = Text::copy(alloc, file.0.as_str())?;
        files.push((name, Bytes::copy(alloc, file.1.as_slice())?))?;
    }
    Ok(MemoryShelf::new(alloc, files, ordinals(alloc, call)?))
}

fn source_of(alloc: Global, inputs: &Inputs, world: World) -> Result<MemorySource, Trouble> {
    let events = Bytes::copy(alloc, inputs.events.as_slice())?;
    let failing = ordinals(alloc, world.events)?;
    Ok(MemorySource::new(events, world.given.max(1), failing))
}

fn sink_of(alloc: Global, room: usize, taken: usize, call: u64) -> Result<MemorySink, Trouble> {
    let failing = ordinals(alloc, call)?;
    Ok(MemorySink::new(alloc, room, taken.max(1), failing)?)
}

fn ran_of(alloc: Global, status: u8, out: &[u8], err: &[u8]) -> Result<Ran, Trouble> {
    let out = Vec::from_slice(alloc, out)?;
    let err = Vec::from_slice(alloc, err)?;
    Ok(Ran { status, out, err })
}

/// Runs a command in a world.
pub fn run_in(alloc: Global, world: World, command: Command) -> Result<Ran, Trouble> {
    let mut builder = CrateBuilder::new(alloc, ordinals(alloc, world.builder)?);
    let mut shelf = shelf_of(alloc, command.inputs, world.shelf)?;
    let mut events = source_of(alloc, command.inputs, world)?;
    let mut out = sink_of(alloc, world.out_room, world.out_taken, world.out)?;
    let mut err = sink_of(alloc, world.err_room, world.err_taken, world.err)?;
    let status = serve(
        alloc,
        command.words,
        &world.limits,
        &mut shelf,
        &mut events,
        &mut out,
        &mut err,
        &mut builder,
    );
    ran_of(alloc, status.code(), out.taken(), err.taken())
}
