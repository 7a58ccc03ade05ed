//! The lines of a file (YAML 1.2, 5.4).

ghost use Rattle.std.specs.Prelude.{◌≡◌, ◌<◌, ◌≤◌, ◌+◌, ◌∷◌, not, ◌==◌, length, drop, IfOk};
ghost use Rattle.std.specs.List.{list_any, prefix_len};
ghost use Rattle.yaml_inline.specs.File as file;
ghost use Rattle.yaml_blocks.specs.Views.{lines_view};
ghost use Rattle.yaml_documents.specs.Ends as ends;

use std::alloc::{AllocError, Global};
use yaml_inline::Line;
use yaml_inline::scan::{begins, behind};

/// The lines of a file, numbered from 1, without their ends.
#[tactic(auto, using(crate::proofs::Numbers::one_more, crate::proofs::Numbers::none_left), unfolding(yaml_inline::specs::File::lines_of))]
pub fn lines_of<'t>(alloc: Global, text: &'t [char]) -> Result<Vec<Line<'t>>, AllocError>
    requires { length text.now < 4294967295 }
    ensures { IfOk result (λ ls. lines_view ls.items ≡ file.lines_of text.now) }
{
    let mut rest = skip_mark(text);
    // an average line of a rule is longer, so that most files need no more memory for their lines
    let mut lines = Vec::with_capacity(alloc, text.len() / 24)?;
    while !rest.is_empty() {
        let (line, after) = next_line(rest);
        let number = lines.len() as u32 + 1;
        lines.push(Line { number, text: line })?;
        rest = after;
    }
    Ok(lines)
}

/// The text without a first byte order mark.
pub fn skip_mark(text: &[char]) -> &[char]
    ensures mark { result.now ≡ file.skip_mark text.now }
    ensures within { length result.now ≤ length text.now }
{
    if begins('\u{FEFF}', text) {
        behind(text, 1)
    } else {
        text
    }
}

/// The first line without its end, and what stands behind its end.
#[tactic(auto, using(crate::proofs::Feeds::last_line, crate::proofs::Feeds::first_line))]
fn next_line(text: &[char]) -> (&[char], &[char])
    requires { 0 < length text.now }
    ensures lines { file.line_texts text.now ≡ result.0.now ∷ file.line_texts result.1.now }
    ensures within { length result.0.now ≤ length text.now }
    ensures shorter { length result.1.now < length text.now }
{
    let len = line_len(text);
    if len == text.len() {
        return (text, behind(text, len));
    }
    let (line, _) = text.split_at(len);
    (without_return(line), behind(text, len + 1))
}

/// How many characters stand before the first line feed.
#[tactic(auto, using(crate::proofs::Feeds::behind_blocks))]
fn line_len(text: &[char]) -> usize
    ensures len { result ≡ prefix_len (λ c. not (c == 10)) text.now }
    ensures within { result ≤ length text.now }
{
    let before = blocks_len(text);
    before + feedless_len(behind(text, before))
}

/// How many characters the first blocks have, of 8 characters each and without a line feed.
#[tactic(auto, using(crate::proofs::Feeds::block_fits, crate::proofs::Feeds::block_more))]
fn blocks_len(text: &[char]) -> usize
    ensures feedless { prefix_len (λ c. not (c == 10)) text.now ≡ result + prefix_len (λ c. not (c == 10)) (drop result text.now) }
    ensures within { result ≤ length text.now }
{
    let mut len = 0;
    while text.len() - len >= 8 {
        if has_feed(behind(text, len).split_at(8).0) {
            return len;
        }
        len += 8;
    }
    len
}

/// Goes through all characters, since a loop without an exit tests several of them at once.
fn has_feed(block: &[char]) -> bool
    ensures { result ≡ list_any (λ c. c == 10) block.now }
{
    let mut found = false;
    for c in block {
        found = found | (*c == '\n');
    }
    found
}

fn feedless_len(text: &[char]) -> usize
    ensures len { result ≡ prefix_len (λ c. not (c == 10)) text.now }
    ensures within { result ≤ length text.now }
{
    text.iter().take_while(|c| **c != '\n').count()
}

/// The line without a carriage return at its end.
#[tactic(auto, using(crate::proofs::Feeds::return_dropped, crate::proofs::Feeds::other_kept))]
fn without_return(line: &[char]) -> &[char]
    ensures end { result.now ≡ ends.without_return line.now }
    ensures within { length result.now ≤ length line.now }
{
    match line.split_last() {
        None => line,
        Some((last, front)) => { if *last == '\r' { front } else { line } }
    }
}
