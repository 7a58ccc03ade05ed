ghost use Rattle.std.specs.Prelude.{◌≡◌, IfOk, IfErr, slice_get};
ghost use Rattle.modifier_windash.specs.Choices as choices;
ghost use Rattle.modifier_windash.specs.Places as places;

use sig_base::Fault;
use sig_strings::{Part, Pattern, SharedPattern};
use std::alloc::Global;

fn is_dash_place(part: &Part) -> bool
    ensures { result ≡ choices.is_dash_place part.now }
{
    match part {
        Part::Dash => true,
        _ => false,
    }
}

fn sign_at(digit: u64) -> char
    ensures { result ≡ places.sign_at digit }
{
    match digit {
        0 => '-',
        1 => '/',
        2 => '\u{2013}',
        3 => '\u{2014}',
        _ => '\u{2015}',
    }
}

/// Puts a dash at each dash place, from the last one on, and answers what is left of the number.
fn choose(parts: &mut Vec<Part>, number: u64) -> u64
    ensures parts { parts.new.items ≡ places.chosen_parts parts.old.items number }
    ensures left { result ≡ places.number_before parts.old.items number }
{
    let mut left = number;
    for at in (0..parts.len()).rev() {
        if is_dash_place(&parts[at]) {
            parts[at] = Part::Char(sign_at(left % 5));
            left /= 5;
        }
    }
    left
}

fn copy_parts(alloc: Global, parts: &[Part]) -> Result<Vec<Part>, Fault>
    ensures ok { IfOk result (λ copy. copy.items ≡ parts.now) }
    ensures err { IfErr result (λ e. e ≡ Fault.Memory) }
{
    Ok(parts.to_vec(alloc)?)
}

/// The pattern's choice of this number, counted from zero, without making the others; `None` where there are fewer. Only
/// want of memory is answered.
pub fn choice(
    alloc: Global,
    pattern: &SharedPattern,
    number: u64,
) -> Result<Option<SharedPattern>, Fault>
    ensures ok { IfOk result (λ chosen. chosen ≡ slice_get (choices.choices pattern.now) number) }
    ensures err { IfErr result (λ e. e ≡ Fault.Memory) }
{
    let mut parts = copy_parts(alloc, pattern.parts())?;
    if choose(&mut parts, number) > 0 {
        return Ok(None);
    }
    let chosen = SharedPattern::share(alloc, Pattern::of_parts(parts))?;
    Ok(Some(chosen))
}

/// How many dash places the pattern has.
pub fn dash_count(pattern: &SharedPattern) -> usize
    ensures { result ≡ choices.dash_count pattern.now }
{
    pattern
        .parts()
        .iter()
        .filter(|part| is_dash_place(part))
        .count()
}
