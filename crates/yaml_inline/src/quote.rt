//! Scalars in quotes, on one line (YAML 1.2, 7.3.1 and 7.3.2).

ghost use Rattle.std.specs.Prelude.{◌≡◌, ◌≤◌, ◌<◌, ◌+◌, ◌*◌, ◌^◌, ◌==◌, not, length, option_map, IfOk, IfSome};
ghost use Rattle.std.specs.List.{prefix_len};
ghost use Rattle.yaml_inline.specs.Scalar as spec;
ghost use Rattle.yaml_inline.specs.View.{quoted_view};
ghost use Rattle.yaml_inline.specs.Quotes.{IsShorter, step_view};

use crate::scan::{begins, behind};
use sig_base::Text;
use std::alloc::{AllocError, Global};

/// What follows an opening quote: a text and what is left behind the closing quote; no closing
/// quote; or an escape that isn't known, behind so many characters.
#[derive(Drop, Debug)]
pub enum Quoted<'t> {
    Closed(Text, &'t [char]),
    Open,
    BadEscape(usize),
}

/// The text behind a single quote. Two quotes are one.
#[tactic(auto, using(crate::proofs::Quoting::moved_start, crate::proofs::Quoting::single_open, crate::proofs::Quoting::single_letter, crate::proofs::Quoting::single_two, crate::proofs::Quoting::single_close))]
pub fn single(alloc: Global, rest: &[char]) -> Result<Quoted<'_>, AllocError>
    ensures text { IfOk result (λ q. quoted_view q ≡ spec.single rest.now) }
    ensures within { IfOk result (λ q. IsShorter rest.now q) }
{
    let mut content = Text::with_capacity(alloc, count_before('\'', rest))?;
    let mut at = 0;
    while at < rest.len() {
        let c = rest[at];
        if c != '\'' {
            content.push(c)?;
            at += 1;
        } else if begins('\'', behind(rest, at + 1)) {
            content.push(c)?;
            at += 2;
        } else {
            return Ok(Quoted::Closed(content, behind(rest, at + 1)));
        }
    }
    Ok(Quoted::Open)
}

/// The text behind a double quote, with its escapes.
#[tactic(auto, using(crate::proofs::Quoting::moved_start, crate::proofs::Quoting::double_open, crate::proofs::Quoting::double_letter, crate::proofs::Quoting::double_close, crate::proofs::Quoting::double_bad, crate::proofs::Quoting::double_escape))]
pub fn double(alloc: Global, rest: &[char]) -> Result<Quoted<'_>, AllocError>
    ensures text { IfOk result (λ q. quoted_view q ≡ spec.double 0 rest.now) }
    ensures within { IfOk result (λ q. IsShorter rest.now q) }
{
    let mut content = Text::with_capacity(alloc, count_before('"', rest))?;
    let mut at = 0;
    while at < rest.len() {
        let c = rest[at];
        if c == '"' {
            return Ok(Quoted::Closed(content, behind(rest, at + 1)));
        }
        if c == '\\' {
            let Some((meant, count)) = escape(behind(rest, at + 1)) else {
                return Ok(Quoted::BadEscape(at));
            };
            content.push(meant)?;
            at += 1 + count;
        } else {
            content.push(c)?;
            at += 1;
        }
    }
    Ok(Quoted::Open)
}

/// How many characters stand before the next quote, or before the end.
fn count_before(quote: char, rest: &[char]) -> usize
    ensures { result ≡ prefix_len (λ c. not (c == quote)) rest.now }
{
    rest.iter().take_while(|c| **c != quote).count()
}

/// The character that an escape means, and how many characters it takes behind its backslash.
#[tactic(auto, unfolding(crate::specs::Scalar::escape))]
fn escape(rest: &[char]) -> Option<(char, usize)>
    ensures value { result ≡ spec.escape rest.now }
    ensures within { IfSome result (λ e. e.1 ≤ length rest.now) }
{
    let (first, others) = rest.split_first()?;
    match *first {
        '\\' => Some(('\\', 1)),
        '"' => Some(('"', 1)),
        '/' => Some(('/', 1)),
        'n' => Some(('\n', 1)),
        't' => Some(('\t', 1)),
        'r' => Some(('\r', 1)),
        '0' => Some(('\0', 1)),
        'x' => Some((scalar(two_digits(others)?)?, 3)),
        'u' => Some((scalar(four_digits(others)?)?, 5)),
        _ => None,
    }
}

fn scalar(value: u32) -> Option<char>
    requires { value < 65536 }
    ensures { result ≡ spec.scalar_of value }
{
    char::from_u32(value)
}

fn two_digits(rest: &[char]) -> Option<u32>
    ensures value { result ≡ spec.hex_front 2 0 rest.now }
    ensures below { IfSome result (λ v. v < 256) }
    ensures within { IfSome result (λ v. 2 ≤ length rest.now) }
{
    let (value, rest) = hex_step(0, rest)?;
    let (value, _) = hex_step(value, rest)?;
    Some(value)
}

fn four_digits(rest: &[char]) -> Option<u32>
    ensures value { result ≡ spec.hex_front 4 0 rest.now }
    ensures below { IfSome result (λ v. v < 65536) }
    ensures within { IfSome result (λ v. 4 ≤ length rest.now) }
{
    let (value, rest) = hex_step(0, rest)?;
    let (value, rest) = hex_step(value, rest)?;
    let (value, rest) = hex_step(value, rest)?;
    let (value, _) = hex_step(value, rest)?;
    Some(value)
}

/// The number with one more hexadecimal digit, and what follows it.
fn hex_step(value: u32, rest: &[char]) -> Option<(u32, &[char])>
    requires { value < 65536 }
    ensures value { option_map step_view result ≡ spec.hex_step value rest.now }
    ensures below { IfSome result (λ p. p.0 < 16 * (value + 1)) }
    ensures within { IfSome result (λ p. length p.1.now + 1 ≡ length rest.now) }
{
    let (first, others) = rest.split_first()?;
    let digit = hex_value(*first)?;
    Some((16 * value + digit, others))
}

fn hex_value(c: char) -> Option<u32>
    ensures value { result ≡ spec.hex_value c }
    ensures below { IfSome result (λ d. d < 16) }
{
    match c {
        '0'..='9' => Some(c as u32 - 48),
        'a'..='f' => Some(c as u32 - 87),
        'A'..='F' => Some(c as u32 - 55),
        _ => None,
    }
}
