//! Each call of a device fails in turn, up to a run in which none does: what was written before the
//! fault is a front of what is written without it.

use crate::runs::{Command, run_in};
use case_read::{Device, Failures, Ran, Trouble, World, failing};
use std::alloc::Global;

/// How many calls fail in turn at most.
const MOST: u64 = 100_000;

fn is_front(front: &[u8], whole: &[u8]) -> bool {
    whole.split_at(front.len().min(whole.len())).0 == front
}

/// Whether the text is a front of another one and then the line about this input.
fn is_front_and_line(text: &[u8], whole: &[u8], input: &str) -> bool {
    let Some(text) = text.strip_suffix(b"\n".as_slice()) else {
        return false;
    };
    let Some(text) = text.strip_suffix(input.as_bytes()) else {
        return false;
    };
    match text.strip_suffix(b"sigma: cannot read ".as_slice()) {
        Some(text) => is_front(text, whole),
        None => false,
    }
}

/// Whether a run with a fault is to the whole one as it should be.
fn is_cut_off(ran: &Ran, whole: &Ran, device: Device, input: &str) -> bool {
    if !is_front(ran.out.as_slice(), whole.out.as_slice()) {
        return false;
    }
    let err = ran.err.as_slice();
    match device {
        Device::Shelf | Device::Events => {
            ran.status == 3 && is_front_and_line(err, whole.err.as_slice(), input)
        }
        Device::Out | Device::Err => ran.status == 4 && is_front(err, whole.err.as_slice()),
        Device::Builder => is_front(err, whole.err.as_slice()),
    }
}

/// The input that is read after so many others.
fn input_of(failures: &Failures, others: u64) -> &str {
    if failures.device != Device::Shelf {
        return "events";
    }
    let mut place: u64 = 0;
    for input in failures.inputs.as_str().split(' ') {
        if place == others {
            return input;
        }
        place = place.saturating_add(1);
    }
    ""
}

/// How many calls are to fail, if that is known: as many of the shelf as there are inputs, and as
/// many writes of one byte as there are bytes.
fn calls_wanted(failures: &Failures, world: World, whole: &Ran) -> Option<u64> {
    match failures.device {
        Device::Shelf => Some(failures.inputs.as_str().split(' ').count() as u64),
        Device::Out if world.out_taken == 1 => Some(whole.out.len() as u64),
        Device::Err if world.err_taken == 1 => Some(whole.err.len() as u64),
        _ => None,
    }
}

fn is_same(ran: &Ran, whole: &Ran) -> bool {
    ran.status == whole.status
        && ran.out.as_slice() == whole.out.as_slice()
        && ran.err.as_slice() == whole.err.as_slice()
}

/// What is wrong with a command's runs in which a device's calls fail in turn, or nothing.
pub fn broken(
    alloc: Global,
    world: World,
    command: Command,
    whole: &Ran,
    failures: &Failures,
) -> Result<Option<String>, Trouble> {
    for call in 1..MOST {
        let failed = call.saturating_sub(1);
        let ran = run_in(alloc, failing(world, failures.device, call), command)?;
        if is_same(&ran, whole) {
            let wanted = calls_wanted(failures, world, whole).unwrap_or(failed.max(1));
            if wanted == failed {
                return Ok(None);
            }
            let line = format!(in alloc; "failing calls are to be {wanted} and are {failed}")?;
            return Ok(Some(line));
        }
        if !is_cut_off(&ran, whole, failures.device, input_of(failures, failed)) {
            let line = format!(in alloc;
                "what is written where call {call} fails isn't a front of the whole"
            )?;
            return Ok(Some(line));
        }
    }
    Ok(Some(format!(in alloc; "no run without a fault")?))
}
