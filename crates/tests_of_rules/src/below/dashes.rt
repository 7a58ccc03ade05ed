//! Choices of dashes in places that no text of a rule has, and the order of more choices than a case can show.

use crate::tables::{Asked, answer, assert_told, wrong_row};
use modifier_windash::{choice, dash_count};
use sig_base::{Limits, Place};
use sig_strings::{Part, Pattern, SharedPattern};
use std::alloc::Global;
use std::test::Fail;

/// How the choice of this number is written.
fn written(alloc: Global, pattern: &SharedPattern, number: u64) -> Result<String, Fail> {
    let Some(chosen) = choice(alloc, pattern, number)? else {
        return answer(alloc, "(none)");
    };
    if !chosen.is_written() {
        return answer(alloc, "(not written)");
    }
    let text = chosen.write_sigma(alloc)?;
    answer(alloc, text.as_str())
}

/// Asks how the choice of a number is written, or, with the word `places`, how many places there are.
#[derive(Drop)]
struct Choices {
    pattern: SharedPattern,
}

impl Asked for Choices {
    fn told(&self, alloc: Global, given: &str) -> Result<String, Fail> {
        if given == "places" {
            return Ok(format!(in alloc; "{}", dash_count(&self.pattern))?);
        }
        written(alloc, &self.pattern, given.parse::<u64>()?)
    }
}

/// The first row that is told otherwise of this pattern.
fn wrong_choice(alloc: Global, pattern: Pattern, table: &str) -> Result<String, Fail> {
    let pattern = SharedPattern::share(alloc, pattern)?;
    wrong_row(alloc, &Choices { pattern }, table)
}

const LAST_PLACE: &str = "1~places
a-~0
a/~1
a–~2
a—~3
a―~4
(none)~5
(none)~6";

/// `a` and a dash.
fn last_place(alloc: Global) -> Result<Pattern, Fail> {
    let mut parts = Vec::new(alloc);
    parts.push(Part::Char('a'))?;
    parts.push(Part::Dash)?;
    Ok(Pattern::of_parts(parts))
}

#[test]
fn a_place_at_the_end(rt: HostRuntime) -> Result<(), Fail> {
    assert_told(
        &rt,
        wrong_choice(rt.alloc(), last_place(rt.alloc())?, LAST_PLACE),
        "",
    )
}

const FOUR_PLACES: &str = "4~places
-a -b -c -d~0
-a -b -c /d~1
-a -b /c -d~5
-a /b -c -d~25
/a -b -c -d~125
/a –b —c ―d~194
―a ―b ―c ―d~624
(none)~625
(none)~18446744073709551615";

fn four_places(alloc: Global) -> Result<Pattern, Fail> {
    let pattern = Pattern::read(
        alloc,
        &Limits::standard(),
        "-a /b -c /d",
        false,
        Place::START,
    )?;
    Ok(pattern.dashes())
}

#[test]
fn four_places_make_625_choices(rt: HostRuntime) -> Result<(), Fail> {
    assert_told(
        &rt,
        wrong_choice(rt.alloc(), four_places(rt.alloc())?, FOUR_PLACES),
        "",
    )
}

const MANY_PLACES: &str = "30~places
--––/―––-—-—//――--―–―/–//––―—-~18446744073709551615";

fn many_places(alloc: Global) -> Result<Pattern, Fail> {
    let mut parts = Vec::new(alloc);
    for _ in 0..30 {
        parts.push(Part::Dash)?;
    }
    Ok(Pattern::of_parts(parts))
}

#[test]
fn more_places_than_numbers_have_digits(rt: HostRuntime) -> Result<(), Fail> {
    assert_told(
        &rt,
        wrong_choice(rt.alloc(), many_places(rt.alloc())?, MANY_PLACES),
        "",
    )
}
