//! Parts that are given twice.

use crate::items::{Item, Kind};
use crate::trouble::Trouble;
use std::alloc::Global;

/// Whether a part says what the commands above it are to write or to end with.
pub fn is_wanted(item: &Item) -> bool {
    match item.kind {
        Kind::Out | Kind::Err => true,
        Kind::Setting => item.name.as_str().starts_with("status "),
        _ => false,
    }
}

/// What a setting sets: its first two words but for its number, as `limits documents`, `out takes`
/// or `status`.
fn subject_of(setting: &str) -> (&str, &str) {
    let Some((first, rest)) = setting.split_once(' ') else {
        return (setting, "");
    };
    match rest.split_once(' ') {
        Some((second, _)) => (first, second),
        None => (first, ""),
    }
}

fn is_same_subject(setting: &str, other: &str) -> bool {
    let (first, second) = subject_of(setting);
    let (other_first, other_second) = subject_of(other);
    first == other_first && second == other_second
}

/// Whether two items give the same part of a case.
fn is_same_part(item: &Item, other: &Item) -> bool {
    if item.kind != other.kind {
        return false;
    }
    match item.kind {
        Kind::Events | Kind::Out | Kind::Err => true,
        Kind::File | Kind::With => item.name.as_str() == other.name.as_str(),
        Kind::Setting => is_same_subject(item.name.as_str(), other.name.as_str()),
        Kind::Shared | Kind::Case | Kind::Command => false,
    }
}

/// Whether earlier items give the same part; what is wanted may be given again of later commands.
fn is_repeated(earlier: &[Item], item: &Item) -> bool {
    let is_of_commands = is_wanted(item);
    let mut is_there = false;
    for other in earlier {
        if is_of_commands && other.kind == Kind::Command {
            is_there = false;
        } else if is_same_part(item, other) {
            is_there = true;
        }
    }
    is_there
}

/// Refuses items of which two give the same part.
pub fn refuse_repeats(alloc: Global, items: &[Item]) -> Result<(), Trouble> {
    for place in 0..items.len() {
        let (earlier, rest) = items.split_at(place);
        let Some(item) = rest.first() else {
            continue;
        };
        if is_repeated(earlier, item) {
            return Err(Trouble::of(alloc, "a part that is given twice", item.name.as_str()));
        }
    }
    Ok(())
}
