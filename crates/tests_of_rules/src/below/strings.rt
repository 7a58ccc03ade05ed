//! What no command shows of patterns: how they are written, copies, and placeholders that stand open.

use crate::tables::{answer, assert_told};
use sig_base::{Limits, Place, Text};
use sig_strings::{HoleName, Part, Pattern, SharedPattern};
use std::alloc::Global;
use std::test::Fail;

const PLACE: Place = Place {
    line: 6,
    column: 12,
};

fn read(alloc: Global, text: &str, expand: bool) -> Result<Pattern, Fail> {
    Ok(Pattern::read(alloc, &Limits::standard(), text, expand, PLACE)?)
}

/// Whether the pattern of an open placeholder fits its text.
fn open_fits(alloc: Global) -> Result<bool, Fail> {
    let pattern = read(alloc, "%x%", true)?;
    Ok(pattern.fits("%x%", true))
}

#[test]
fn open_placeholders_fit_nothing(rt: HostRuntime) -> Result<(), Fail> {
    assert!(rt; !open_fits(rt.alloc())?);
    Ok(())
}

/// Whether the pattern `-a` with dashes can be written.
fn dash_is_written(alloc: Global) -> Result<bool, Fail> {
    let pattern = read(alloc, "-a", false)?.dashes();
    Ok(pattern.is_written())
}

#[test]
fn dashes_are_not_written(rt: HostRuntime) -> Result<(), Fail> {
    assert!(rt; !dash_is_written(rt.alloc())?);
    Ok(())
}

/// How a pattern is written, if it can be.
fn written(alloc: Global, pattern: &Pattern) -> Result<String, Fail> {
    if !pattern.is_written() {
        return answer(alloc, "not written");
    }
    let text = pattern.write_sigma(alloc)?;
    answer(alloc, text.as_str())
}

/// How a copy of the pattern of `a\*` with a run behind it is written.
fn copy_written(alloc: Global) -> Result<String, Fail> {
    let pattern = read(alloc, r"a\*", false)?;
    let same = pattern.copy()?.with_run_after()?;
    written(alloc, &same)
}

/// Whether a copy of it where it's shared is written, and how many parts it has.
fn shared_told(alloc: Global) -> Result<String, Fail> {
    let shared = SharedPattern::share(alloc, read(alloc, r"a\*", false)?)?;
    let copy = shared.copy()?;
    Ok(format!(in alloc; "{} {}", copy.is_written(), copy.parts().len())?)
}

/// How it's written with runs on both sides, each asked for twice.
fn around_written(alloc: Global) -> Result<String, Fail> {
    let once = read(alloc, r"a\*", false)?
        .with_run_before()?
        .with_run_after()?;
    let twice = once.with_run_before()?.with_run_after()?;
    written(alloc, &twice)
}

#[test]
fn patterns_are_edited_and_written(rt: HostRuntime) -> Result<(), Fail> {
    assert_told(&rt, copy_written(rt.alloc()), r"a\**")?;
    assert_told(&rt, shared_told(rt.alloc()), "true 2")?;
    assert_told(&rt, around_written(rt.alloc()), r"*a\**")
}

/// How a pattern of three characters and a single one is written.
fn special_written(alloc: Global) -> Result<String, Fail> {
    let mut parts = Vec::new(alloc);
    for c in ['\\', '?', '*'] {
        parts.push(Part::Char(c))?;
    }
    parts.push(Part::One)?;
    written(alloc, &Pattern::of_parts(parts))
}

/// The name of the clone of a placeholder.
fn cloned_hole(alloc: Global) -> Result<String, Fail> {
    let name = HoleName::new(alloc, Text::copy(alloc, "name")?)?;
    let hole = Part::Hole(name).clone()?;
    match &hole {
        Part::Hole(name) => answer(alloc, name.as_str()),
        _ => answer(alloc, "no placeholder"),
    }
}

#[test]
fn parts_make_patterns(rt: HostRuntime) -> Result<(), Fail> {
    assert_told(&rt, special_written(rt.alloc()), r"\\\?\*?")?;
    assert_told(&rt, cloned_hole(rt.alloc()), "name")
}
