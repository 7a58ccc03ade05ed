//! Keys of block maps (YAML 1.2, 8.2.2).

ghost use Rattle.std.specs.Prelude.{◌≡◌, ◌≤◌, ◌<◌, length, ℕ, List, false, IfOk, IfSome};
ghost use Rattle.yaml_inline.specs.Key as spec;
ghost use Rattle.yaml_inline.specs.View.{line_view};
ghost use Rattle.yaml_inline.specs.Keys.{key_view, keyed_by, KeyIs, PartsAre};
ghost use Rattle.yaml_inline.specs.Flow as flow;

use crate::flow::{is_merge, is_quote, quoted, refused};
use crate::halt::Halt;
use crate::line::Line;
use crate::plain::plain_parts;
use crate::scan::{begins, behind, blank_or_end, is_left_out, skip_blanks, starts_plain};
use sig_base::{Code, Text};
use std::alloc::Global;

/// The key that begins here, and what is left behind its colon; nothing where no key does.
#[tactic(auto, unfolding(crate::specs::Key::key_at), using(crate::proofs::Opens::quote_not_left_out))]
pub fn key_at<'t>(
    alloc: Global,
    line: &Line<'_>,
    rest: &'t [char],
) -> Result<Option<(Text, &'t [char])>, Halt>
    requires { length rest.now ≤ length line.now.text.now }
    ensures key { KeyIs result (spec.key_at (line_view line.now) rest.now) }
    ensures shorter { IfOk result (λ o. IfSome o (λ p. length p.1.now < length rest.now)) }
{
    if is_quote(rest) {
        let (key, after) = quoted(alloc, line, rest)?;
        return Ok(colon_then(key, skip_blanks(after)));
    }
    match plain_key_at(line, rest)? {
        None => Ok(None),
        Some(found) => Ok(Some((Text::from_chars(alloc, found.0)?, found.1))),
    }
}

/// The characters of the key that begins here, and what is left behind its colon, where no quote
/// comes next; nothing where no key begins.
#[tactic(auto, unfolding(crate::specs::Key::key_at))]
pub fn plain_key_at<'t>(
    line: &Line<'_>,
    rest: &'t [char],
) -> Result<Option<(&'t [char], &'t [char])>, Halt>
    requires within { length rest.now ≤ length line.now.text.now }
    requires plain { flow.is_quote rest.now ≡ false }
    ensures key { PartsAre result (spec.key_at (line_view line.now) rest.now) }
    ensures shorter { IfOk result (λ o. IfSome o (λ p. length p.1.now < length rest.now)) }
{
    if is_left_out(rest) {
        return Err(refused(Code::UNSUPPORTED, line, rest));
    }
    if !starts_plain(rest) {
        return Ok(None);
    }
    let (front, after) = plain_parts(false, rest);
    if !begins(':', after) {
        return Ok(None);
    }
    if is_merge(front) {
        return Err(refused(Code::UNSUPPORTED, line, rest));
    }
    match past_colon(after) {
        None => Ok(None),
        Some(others) => Ok(Some((front, others))),
    }
}

/// The key, where a colon with a blank or the end behind it comes next.
fn colon_then(key: Text, rest: &[char]) -> Option<(Text, &[char])>
    ensures key { key_view result ≡ spec.colon_then key rest.now }
    ensures shorter { IfSome result (λ p. length p.1.now < length rest.now) }
{
    match past_colon(rest) {
        None => None,
        Some(others) => Some((key, others)),
    }
}

/// What is left behind a colon that comes next with a blank or the end behind it.
pub fn past_colon(rest: &[char]) -> Option<&[char]>
    ensures key { (k : List ℕ) → keyed_by k result ≡ spec.colon_then k rest.now }
    ensures shorter { IfSome result (λ r. length r.now < length rest.now) }
{
    match rest.split_first() {
        Some((first, others)) if *first == ':' && blank_or_end(others) => Some(others),
        _ => None,
    }
}
