//! The cases of a file.

use crate::cuts::broken_front;
use crate::failures::broken;
use crate::runs::{Command, Inputs, run_in};
use case_read::{
    Group, Hole, Item, Kind, Ran, Report, Scene, Trouble, add_differences, bytes_of, filled,
    items_of, scene_of,
};
use sig_base::Text;
use std::alloc::Global;

/// The bytes of a text with holes and signs.
fn ready(alloc: Global, text: &str, holes: &mut [Hole]) -> Result<Vec<u8>, Trouble> {
    let whole = filled(alloc, text, holes)?;
    bytes_of(alloc, whole.as_str())
}

/// A word of a command.
fn word_of(alloc: Global, word: &str) -> Result<Text, Trouble> {
    let bytes = bytes_of(alloc, word)?;
    match str::from_utf8(bytes.as_slice()) {
        Ok(text) => Ok(Text::copy(alloc, text)?),
        Err(_) => Err(Trouble::of(alloc, "no text", word)),
    }
}

/// The words after `sigma`, with blanks between.
fn words_of(alloc: Global, line: &str) -> Result<Vec<Text>, Trouble> {
    let mut words = Vec::new(alloc);
    if line == "sigma" {
        return Ok(words);
    }
    let Some(line) = line.strip_prefix("sigma ") else {
        return Err(Trouble::of(alloc, "no command of sigma", line));
    };
    for word in line.split(' ') {
        words.push(word_of(alloc, word)?)?;
    }
    Ok(words)
}

fn inputs_of(alloc: Global, scene: &mut Scene) -> Result<Inputs, Trouble> {
    let mut files = Vec::new(alloc);
    for file in scene.files.as_slice() {
        let name = String::from_str(alloc, file.0.as_str())?;
        let bytes = ready(alloc, file.1.as_str(), scene.holes.as_mut_slice())?;
        files.push((name, bytes))?;
    }
    let events = ready(alloc, scene.events.as_str(), scene.holes.as_mut_slice())?;
    Ok(Inputs { files, events })
}

fn wanted_of(alloc: Global, group: &Group, holes: &mut [Hole]) -> Result<Ran, Trouble> {
    let out = ready(alloc, group.out.as_str(), holes)?;
    let err = ready(alloc, group.err.as_str(), holes)?;
    Ok(Ran {
        status: group.status,
        out,
        err,
    })
}

fn add_line(all: &mut String, line: Option<String>) -> Result<(), Trouble> {
    if let Some(line) = line {
        all.push_str(line.as_str())?;
        all.push('\n')?;
    }
    Ok(())
}

/// What is wrong with a command, with its runs in which calls fail in turn, and with those over the
/// fronts of a file; or nothing.
fn differences_of(
    alloc: Global,
    scene: &Scene,
    command: Command,
    wanted: &Ran,
) -> Result<String, Trouble> {
    let mut wrong = String::new(alloc);
    let came = run_in(alloc, scene.world, command)?;
    add_differences(alloc, &mut wrong, wanted, &came)?;
    for each in scene.failures.as_slice() {
        let line = broken(alloc, scene.world, command, &came, each)?;
        add_line(&mut wrong, line)?;
    }
    for name in scene.cut_files.as_slice() {
        let line = broken_front(alloc, scene.world, command, name.as_str())?;
        add_line(&mut wrong, line)?;
    }
    Ok(wrong)
}

/// What is wrong with a command, after the command itself, or nothing.
fn wrong_of(
    alloc: Global,
    scene: &Scene,
    inputs: &Inputs,
    line: &str,
    wanted: &Ran,
) -> Result<String, Trouble> {
    let words = words_of(alloc, line)?;
    let command = Command {
        words: words.as_slice(),
        inputs,
    };
    let wrong = differences_of(alloc, scene, command, wanted)?;
    if wrong.is_empty() {
        return Ok(wrong);
    }
    Ok(format!(in alloc; "$ {line}\n{}", wrong.as_str())?)
}

/// The commands of a group with their holes filled.
fn commands_of(alloc: Global, group: &Group, holes: &mut [Hole]) -> Result<Vec<String>, Trouble> {
    let mut all = Vec::new(alloc);
    for command in group.commands.as_slice() {
        all.push(filled(alloc, command.as_str(), holes)?)?;
    }
    Ok(all)
}

/// Which commands are run, and what is wanted of each.
#[derive(Drop)]
struct Step {
    commands: Vec<String>,
    wanted: Ran,
}

fn steps_of(alloc: Global, scene: &mut Scene) -> Result<Vec<Step>, Trouble> {
    let mut steps = Vec::new(alloc);
    for group in scene.groups.as_slice() {
        let commands = commands_of(alloc, group, scene.holes.as_mut_slice())?;
        let wanted = wanted_of(alloc, group, scene.holes.as_mut_slice())?;
        steps.push(Step { commands, wanted })?;
    }
    Ok(steps)
}

/// What is wrong with a case, or nothing.
fn wrong_in(alloc: Global, shared: &[Item], own: &[Item]) -> Result<String, Trouble> {
    let mut scene = scene_of(alloc, shared, own)?;
    let inputs = inputs_of(alloc, &mut scene)?;
    let steps = steps_of(alloc, &mut scene)?;
    if steps.is_empty() {
        return Err(Trouble::said(alloc, "no command"));
    }
    for hole in scene.holes.as_slice() {
        if hole.is_owed {
            return Err(Trouble::of(alloc, "a text for no hole", hole.sign.as_str()));
        }
    }
    let mut all = String::new(alloc);
    for step in steps.as_slice() {
        for line in step.commands.as_slice() {
            let wrong = wrong_of(alloc, &scene, &inputs, line.as_str(), &step.wanted)?;
            all.push_str(wrong.as_str())?;
        }
    }
    Ok(all)
}

fn is_heading(item: &Item) -> bool {
    matches!(item.kind, Kind::Shared | Kind::Case)
}

/// The items up to the next heading.
fn front_of(items: &[Item]) -> &[Item] {
    let count = items.iter().take_while(|item| !is_heading(item)).count();
    items.split_at(count.min(items.len())).0
}

/// A case: its heading, what it shares with others, and its own parts.
#[derive(Clone, Copy)]
struct Case<'a> {
    head: &'a Item,
    shared: &'a [Item],
    own: &'a [Item],
}

/// Runs a case and adds what is wrong with it.
fn run_case(alloc: Global, file: &str, case: Case, report: &mut Report) -> Result<(), Trouble> {
    let head = case.head;
    let title = format!(in alloc; "{file}:{}: {}", head.line, head.name.as_str())?;
    match wrong_in(alloc, case.shared, case.own) {
        Ok(wrong) => report.add(alloc, title.as_str(), wrong.as_str()),
        Err(Trouble::Memory) => Err(Trouble::Memory),
        Err(Trouble::Said(what)) => {
            let wrong = format!(in alloc; "{}\n", what.as_str())?;
            report.add(alloc, title.as_str(), wrong.as_str())
        }
    }
}

/// Runs the cases of a file's text; a file without cases is refused.
pub fn run_cases(
    alloc: Global,
    file: &str,
    text: &str,
    report: &mut Report,
) -> Result<(), Trouble> {
    let items = items_of(alloc, text)?;
    let items = items.as_slice();
    let mut shared: &[Item] = &[];
    if !front_of(items).is_empty() {
        return Err(Trouble::said(alloc, "a part before all cases"));
    }
    for place in 0..items.len() {
        let Some((head, rest)) = items.split_at(place).1.split_first() else {
            continue;
        };
        let own = front_of(rest);
        match head.kind {
            Kind::Shared => shared = own,
            Kind::Case => run_case(alloc, file, Case { head, shared, own }, report)?,
            _ => {}
        }
    }
    if report.cases == 0 {
        return Err(Trouble::said(alloc, "no cases"));
    }
    Ok(())
}
