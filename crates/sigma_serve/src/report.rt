//! The diagnostics about rule files, and the lines of `check`.

ghost use Rattle.std.specs.Prelude.{◌≡◌, ◌++◌, ◌∷◌, [], IfOk, map, string_bytes, encode_utf8_all};
ghost use Rattle.answer_writer.specs.Lines.{ended};
ghost use Rattle.sigma_serve.specs.Reports.{refusal_diagnostic, ok_line};
ghost use Rattle.sigma_serve.specs.Reports as reports;

use sig_base::{Detail, Place, Refusal, Text};
use std::alloc::{AllocError, Global};

/// The diagnostic about a refusal, with its line feed.
pub(super) fn refusal_text(
    alloc: Global,
    name: &Text,
    refusal: &Refusal,
) -> Result<String, AllocError>
    ensures { IfOk result (λ line. string_bytes line ≡ ended (refusal_diagnostic name.now refusal.now)) }
{
    let detail = detail_text(alloc, &refusal.detail)?;
    line_text(
        alloc,
        name.as_str(),
        refusal.place,
        refusal.code.number(),
        refusal.code.name(),
        detail.as_str(),
    )
}

fn line_text(
    alloc: Global,
    file: &str,
    place: Place,
    number: u16,
    cause: &str,
    detail: &str,
) -> Result<String, AllocError>
    ensures { IfOk result (λ line. string_bytes line ≡ reports.line_of file.now place number cause.now (detail.now ++ 10 ∷ [])) }
{
    let line = place.line;
    let column = place.column;
    format!(in alloc; "{file}:{line}:{column}: {number} {cause}{detail}\n")
}

fn detail_text(alloc: Global, detail: &Detail) -> Result<String, AllocError>
    ensures { IfOk result (λ text. string_bytes text ≡ reports.detail_text detail.now) }
{
    match detail {
        Detail::None => Ok(String::new(alloc)),
        Detail::Text(text) => spaced_text(alloc, text),
        Detail::Numbers(first, second) => {
            let first = *first;
            let second = *second;
            format!(in alloc; " {first} {second}")
        }
    }
}

fn spaced_text(alloc: Global, text: &Text) -> Result<String, AllocError>
    ensures { IfOk result (λ t. string_bytes t ≡ 32 ∷ encode_utf8_all (map reports.shown text.now)) }
{
    let text = shown_text(alloc, text)?;
    let text = text.as_str();
    format!(in alloc; " {text}")
}

/// The text with a question mark for each character below U+0020.
fn shown_text(alloc: Global, text: &Text) -> Result<Text, AllocError>
    ensures { IfOk result (λ t. t ≡ map reports.shown text.now) }
{
    let text = text.as_str();
    let mut all = Text::with_capacity(alloc, text.len())?;
    for c in text.chars() {
        all.push(shown(c))?;
    }
    Ok(all)
}

fn shown(c: char) -> char
    ensures { result ≡ reports.shown c }
{
    if c < ' ' { '?' } else { c }
}

/// The line of a document that is a rule or a correlation, with its line feed.
pub(super) fn ok_text(alloc: Global, name: &Text, place: Place) -> Result<String, AllocError>
    ensures { IfOk result (λ line. string_bytes line ≡ ended (ok_line name.now place)) }
{
    let file = name.as_str();
    let line = place.line;
    let column = place.column;
    format!(in alloc; "{file}:{line}:{column}: ok\n")
}
