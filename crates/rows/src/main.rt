//! `rows FILE..`: runs the cases of each file on `serve` over memory, and prints which don't hold.
#![tactic(auto)]

use case_read::{Report, Trouble};
use std::process::ExitCode;
use std::{env, fs, io};

mod cases;
mod cuts;
mod failures;
mod runs;

/// Runs the cases of a text, prints how many hold and what is wrong, and says whether all hold.
fn text_holds(rt: &HostRuntime, name: &str, text: &str) -> io::Result<bool> {
    let mut report = Report::new(rt.alloc());
    match cases::run_cases(rt.alloc(), name, text, &mut report) {
        Ok(()) => {}
        Err(Trouble::Memory) => return Err(io::Error::from(io::ErrorKind::OutOfMemory)),
        Err(Trouble::Said(what)) => {
            println!(rt; "{name}: {}", what.as_str())?;
            return Ok(false);
        }
    }
    let held = report.held;
    let all = report.cases;
    println!(rt; "{name}: {held} of {all} cases hold")?;
    rt.print(report.text.as_str())?;
    Ok(held == all)
}

/// The same of a file; one that can't be read doesn't hold.
fn file_holds(rt: &HostRuntime, name: &str) -> io::Result<bool> {
    match fs::read_to_string(rt, name) {
        Ok(text) => text_holds(rt, name, text.as_str()),
        Err(_) => {
            println!(rt; "{name}: cannot be read")?;
            Ok(false)
        }
    }
}

/// Whether there are files, and the cases of all hold.
fn all_hold(rt: &HostRuntime) -> io::Result<bool> {
    let mut hold = true;
    let mut files: u64 = 0;
    for name in env::args(rt)?.skip(1) {
        files = files.saturating_add(1);
        hold = file_holds(rt, name.as_str())? && hold;
    }
    Ok(hold && files > 0)
}

fn main(rt: HostRuntime) -> ExitCode {
    match all_hold(&rt) {
        Ok(true) => ExitCode::from(0),
        Ok(false) => ExitCode::from(1),
        Err(_) => ExitCode::from(2),
    }
}
