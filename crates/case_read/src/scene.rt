//! What a case asks for: what it shares with others, and its own parts, which stand for those of the
//! same name.

use crate::devices::{Device, When, setting_of};
use crate::holes::Hole;
use crate::items::{Item, Kind};
use crate::limits::with_limit;
use crate::repeats::{is_wanted, refuse_repeats};
use crate::trouble::Trouble;
use crate::world::{World, still, with_setting};
use std::alloc::Global;

/// Commands, one below the other, and what each is to write and to end with. The texts have signs
/// and holes.
#[derive(Drop)]
pub struct Group {
    pub commands: Vec<String>,
    pub out: String,
    pub err: String,
    pub status: u8,
    is_open: bool,
}

/// A device of which each call is to fail in turn, and the inputs that are read in turn.
#[derive(Drop)]
pub struct Failures {
    pub device: Device,
    pub inputs: String,
}

/// What a case runs, and what is wanted of it.
#[derive(Drop)]
pub struct Scene {
    pub world: World,
    pub holes: Vec<Hole>,
    pub files: Vec<(String, String)>,
    pub events: String,
    pub groups: Vec<Group>,
    pub failures: Vec<Failures>,
    /// The files that are cut after each of their bytes.
    pub cut_files: Vec<String>,
}

fn empty(alloc: Global) -> Scene {
    Scene {
        world: still(),
        holes: Vec::new(alloc),
        files: Vec::new(alloc),
        events: String::new(alloc),
        groups: Vec::new(alloc),
        failures: Vec::new(alloc),
        cut_files: Vec::new(alloc),
    }
}

fn copy_of(alloc: Global, text: &str) -> Result<String, Trouble> {
    Ok(String::from_str(alloc, text)?)
}

fn group_of(alloc: Global) -> Group {
    Group {
        commands: Vec::new(alloc),
        out: String::new(alloc),
        err: String::new(alloc),
        status: 0,
        is_open: true,
    }
}

/// Puts a file under its name, in the place of one that has it.
fn put_file(alloc: Global, files: &mut Vec<(String, String)>, item: &Item) -> Result<(), Trouble> {
    let text = copy_of(alloc, item.text.as_str())?;
    for file in files.iter_mut() {
        if file.0.as_str() == item.name.as_str() {
            file.1 = text;
            return Ok(());
        }
    }
    files.push((copy_of(alloc, item.name.as_str())?, text))?;
    Ok(())
}

/// Adds a command: to those right above it, or to a new group.
fn add_command(alloc: Global, groups: &mut Vec<Group>, words: &str) -> Result<(), Trouble> {
    let words = copy_of(alloc, words)?;
    if let Some(group) = groups.last_mut() {
        if group.is_open {
            group.commands.push(words)?;
            return Ok(());
        }
    }
    let mut group = group_of(alloc);
    group.commands.push(words)?;
    groups.push(group)?;
    Ok(())
}

fn status_of(words: &str) -> Option<u8> {
    words.strip_prefix("status ")?.parse::<u8>().ok()
}

/// Adds what the last commands are to write or to end with.
fn add_wanted(alloc: Global, groups: &mut Vec<Group>, item: &Item) -> Result<(), Trouble> {
    let text = copy_of(alloc, item.text.as_str())?;
    let Some(group) = groups.last_mut() else {
        return Err(Trouble::of(alloc, "no command above", item.name.as_str()));
    };
    group.is_open = false;
    match item.kind {
        Kind::Out => group.out = text,
        Kind::Err => group.err = text,
        _ => {
            let Some(status) = status_of(item.name.as_str()) else {
                return Err(Trouble::of(alloc, "no status", item.name.as_str()));
            };
            group.status = status;
        }
    }
    Ok(())
}

/// The world with a limit, of which the words are `NAME NUMBER`.
fn limited(world: World, words: &str) -> Option<World> {
    let (name, number) = words.split_once(' ')?;
    let number = number.parse::<usize>().ok()?;
    let limits = with_limit(world.limits, name, number)?;
    let mut world = world;
    world.limits = limits;
    Some(world)
}

/// Adds what is said of a device.
fn add_device(alloc: Global, scene: &mut Scene, line: &str) -> Result<(), Trouble> {
    let Some(setting) = setting_of(line) else {
        return Err(Trouble::of(alloc, "unknown words", line));
    };
    scene.world = with_setting(scene.world, &setting);
    if setting.when == When::Each {
        let inputs = copy_of(alloc, setting.inputs)?;
        scene.failures.push(Failures {
            device: setting.device,
            inputs,
        })?;
    }
    Ok(())
}

/// Adds a limit, a file that is cut, or what is said of a device.
fn add_setting(alloc: Global, scene: &mut Scene, line: &str) -> Result<(), Trouble> {
    if let Some(words) = line.strip_prefix("limits ") {
        let Some(world) = limited(scene.world, words) else {
            return Err(Trouble::of(alloc, "no limit", words));
        };
        scene.world = world;
        return Ok(());
    }
    if let Some(name) = line.strip_suffix(" is cut after each byte") {
        scene.cut_files.push(copy_of(alloc, name)?)?;
        return Ok(());
    }
    add_device(alloc, scene, line)
}

fn add_item(alloc: Global, scene: &mut Scene, item: &Item) -> Result<(), Trouble> {
    if is_wanted(item) {
        return add_wanted(alloc, &mut scene.groups, item);
    }
    match item.kind {
        Kind::Command => add_command(alloc, &mut scene.groups, item.name.as_str()),
        Kind::File => put_file(alloc, &mut scene.files, item),
        Kind::Events => {
            scene.events = copy_of(alloc, item.text.as_str())?;
            Ok(())
        }
        Kind::Setting => add_setting(alloc, scene, item.name.as_str()),
        Kind::Shared | Kind::Case | Kind::With | Kind::Out | Kind::Err => Ok(()),
    }
}

/// Adds the holes that items fill, but for those that are there.
fn add_holes(
    alloc: Global,
    holes: &mut Vec<Hole>,
    items: &[Item],
    is_owed: bool,
) -> Result<(), Trouble> {
    for item in items {
        if item.kind != Kind::With {
            continue;
        }
        let sign = format!(in alloc; "‹{}›", item.name.as_str())?;
        if holes.iter().any(|hole| hole.sign.as_str() == sign.as_str()) {
            continue;
        }
        let text = item.text.as_str();
        let text = copy_of(alloc, text.strip_suffix('\n').unwrap_or(text))?;
        holes.push(Hole {
            sign,
            text,
            is_owed,
        })?;
    }
    Ok(())
}

/// The scene of a case: what it shares, and its own. Where it has commands of its own, those that it
/// shares aren't run; where it has none, what they are to write may be its own only if there is one
/// group of them.
pub fn scene_of(alloc: Global, shared: &[Item], own: &[Item]) -> Result<Scene, Trouble> {
    refuse_repeats(alloc, shared)?;
    refuse_repeats(alloc, own)?;
    let mut scene = empty(alloc);
    add_holes(alloc, &mut scene.holes, own, true)?;
    add_holes(alloc, &mut scene.holes, shared, false)?;
    let has_commands = own.iter().any(|item| item.kind == Kind::Command);
    for item in shared {
        if !has_commands || !(item.kind == Kind::Command || is_wanted(item)) {
            add_item(alloc, &mut scene, item)?;
        }
    }
    if !has_commands && scene.groups.len() > 1 && own.iter().any(|item| is_wanted(item)) {
        return Err(Trouble::of(alloc, "of which of the commands", "out, err or status"));
    }
    for item in own {
        add_item(alloc, &mut scene, item)?;
    }
    Ok(scene)
}
