//! Block scalars (YAML 1.2, 8.1).

ghost use Rattle.std.specs.Prelude.{◌≡◌, ℕ, List, ◌∷◌, ◌+◌, ◌<◌, ◌^◌, ◌≤◌, ◌++◌, ◌-◌, [], length, drop, take, IfOk, OnOk, true};
ghost use Rattle.yaml_inline.specs.Scalar as scalar;
ghost use Rattle.yaml_inline.specs.View.{line_view, Gives};
ghost use Rattle.yaml_blocks.specs.Blocks as spec;
ghost use Rattle.yaml_blocks.specs.Views.{lines_view, done};
ghost use Rattle.yaml_blocks.specs.Chompings.{chomping_view, texts_view, add_text, kept_text};

use crate::texts::push_feeds;
use sig_base::{Code, Text};
use std::alloc::{AllocError, Global};
use yaml_inline::flow::{no_reading, refused};
use yaml_inline::scan::{begins, behind, ends_line, is_blank};
use yaml_inline::{Halt, Line};

/// What stays at the end of a block scalar.
#[derive(Clone, Copy, Debug)]
pub enum Chomping {
    Clip,
    Strip,
    Keep,
}

/// What the head of a block scalar asks for, behind its sign.
pub fn header_of(line: &Line<'_>, rest: &[char]) -> Result<Chomping, Halt>
    requires { length rest.now ≤ length line.now.text.now }
    ensures { Gives chomping_view result (spec.header_of (line_view line.now) rest.now) }
{
    if begins('-', rest) {
        header_end(line, Chomping::Strip, behind(rest, 1))
    } else if begins('+', rest) {
        header_end(line, Chomping::Keep, behind(rest, 1))
    } else {
        header_end(line, Chomping::Clip, rest)
    }
}

fn header_end(line: &Line<'_>, chomping: Chomping, rest: &[char]) -> Result<Chomping, Halt>
    requires { length rest.now ≤ length line.now.text.now }
    ensures { Gives chomping_view result (spec.header_end (line_view line.now) (chomping_view chomping) rest.now) }
{
    if digit_first(rest) {
        Err(refused(Code::UNSUPPORTED, line, rest))
    } else if ends_line(rest) {
        Ok(chomping)
    } else {
        Err(no_reading(line))
    }
}

fn digit_first(rest: &[char]) -> bool
    ensures { result ≡ spec.digit_first rest.now }
{
    match rest.split_first() {
        None => false,
        Some((first, _)) => '0' <= *first && *first <= '9',
    }
}

/// How many lines are left without the empty ones at the end.
#[tactic(auto, using(crate::proofs::Folds::kept_turn))]
fn kept_len(texts: &[&[char]]) -> usize
    ensures kept { texts_view (take result texts.now) ≡ scalar.drop_empty (texts_view texts.now) }
    ensures within { result ≤ length texts.now }
{
    let mut end = texts.len();
    while end > 0 && texts[end - 1].is_empty() {
        end -= 1;
    }
    end
}

/// The lines joined by line feeds.
#[tactic(auto, using(crate::proofs::Folds::literal_step))]
fn push_literal(content: &mut Text, texts: &[&[char]]) -> Result<(), AllocError>
    requires { content.old ≡ [] }
    ensures { OnOk result (content.new ≡ scalar.literal (texts_view texts.now)) }
{
    for at in 0..texts.len() {
        push_text(content, at == 0, texts[at])?;
    }
    Ok(())
}

fn push_text(content: &mut Text, is_first: bool, text: &[char]) -> Result<(), AllocError>
    ensures { OnOk result (content.new ≡ add_text is_first content.old text.now) }
{
    if !is_first {
        content.push('\n')?;
    }
    content.push_all(text)
}

/// What joins two lines with so many empty ones between them.
fn push_joint(content: &mut Text, blank: bool, empty: usize) -> Result<(), AllocError>
    requires { empty < 2 ^ 63 }
    ensures { OnOk result (content.new ≡ content.old ++ scalar.joint blank empty) }
{
    if blank {
        push_feeds(content, empty + 1)
    } else if empty == 0 {
        content.push(' ')
    } else {
        push_feeds(content, empty)
    }
}

fn begins_blank(text: &[char]) -> bool
    ensures { result ≡ scalar.begins_blank text.now }
{
    match text.split_first() {
        None => false,
        Some((first, _)) => is_blank(*first),
    }
}

/// Adds a line behind others, of which the last with text begins with a blank or not, and so many
/// empty lines. Gives the same of the line.
#[tactic(auto, using(crate::proofs::Folds::folds_empty, crate::proofs::Folds::folds_text))]
fn fold_line(
    content: &mut Text,
    before: bool,
    empty: usize,
    text: &[char],
) -> Result<(bool, usize), AllocError>
    requires { empty < 2 ^ 63 }
    ensures fold { IfOk result (λ p. (rest : List (List ℕ)) → content.new ++ scalar.fold_from p.0 p.1 rest ≡ content.old ++ scalar.fold_from before empty (text.now ∷ rest)) }
    ensures counted { IfOk result (λ p. p.1 ≤ empty + 1) }
{
    if text.is_empty() {
        return Ok((before, empty + 1));
    }
    let blank = begins_blank(text);
    push_joint(content, before || blank, empty)?;
    content.push_all(text)?;
    Ok((blank, 0))
}

/// Folds the other lines behind one that begins with a blank or not.
#[tactic(auto, using(crate::proofs::Folds::folds_turn, crate::proofs::Folds::folds_end))]
fn push_folded_from(content: &mut Text, begins: bool, texts: &[&[char]]) -> Result<(), AllocError>
    ensures { OnOk result (content.new ≡ content.old ++ scalar.fold_from begins 0 (texts_view texts.now)) }
{
    let mut before = begins;
    let mut empty = 0;
    for at in 0..texts.len() {
        let (blank, count) = fold_line(content, before, empty, texts[at])?;
        before = blank;
        empty = count;
    }
    Ok(())
}

/// The lines folded.
#[tactic(auto, using(crate::proofs::Folds::lead_turn, crate::proofs::Folds::lead_end, crate::proofs::Folds::lead_none))]
fn push_folded(content: &mut Text, texts: &[&[char]]) -> Result<(), AllocError>
    requires { content.old ≡ [] }
    ensures { OnOk result (content.new ≡ scalar.folded (texts_view texts.now)) }
{
    let mut at = 0;
    while at < texts.len() && texts[at].is_empty() {
        content.push('\n')?;
        at += 1;
    }
    if at == texts.len() {
        return Ok(());
    }
    let text = texts[at];
    content.push_all(text)?;
    push_folded_from(content, begins_blank(text), texts.split_at(at + 1).1)
}

/// The text of a block scalar by its lines without indentation.
#[tactic(auto, using(crate::proofs::Folds::block_text_by))]
pub fn block_text(
    alloc: Global,
    is_folded: bool,
    chomping: Chomping,
    texts: &[&[char]],
) -> Result<Text, AllocError>
    ensures { IfOk result (λ t. t ≡ scalar.block_text is_folded (chomping_view chomping) (texts_view texts.now)) }
{
    let count = kept_len(texts);
    let mut content = Text::new(alloc);
    push_kept(&mut content, is_folded, texts.split_at(count).0)?;
    push_chomped(&mut content, chomping, count > 0, texts.len() - count)?;
    Ok(content)
}

fn push_kept(content: &mut Text, is_folded: bool, kept: &[&[char]]) -> Result<(), AllocError>
    requires { content.old ≡ [] }
    ensures { OnOk result (content.new ≡ kept_text is_folded (texts_view kept.now)) }
{
    if is_folded {
        push_folded(content, kept)
    } else {
        push_literal(content, kept)
    }
}

fn push_chomped(
    content: &mut Text,
    chomping: Chomping,
    has_text: bool,
    empty: usize,
) -> Result<(), AllocError>
    requires { empty < 2 ^ 63 }
    ensures { OnOk result (content.new ≡ content.old ++ scalar.chomped (chomping_view chomping) has_text empty) }
{
    match chomping {
        Chomping::Strip => Ok(()),
        Chomping::Clip => push_feeds(content, usize::from(has_text)),
        Chomping::Keep => push_feeds(content, usize::from(has_text) + empty),
    }
}
