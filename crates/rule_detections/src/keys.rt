//! The keys of items, divided at each `|`.

ghost use Rattle.std.specs.Prelude.{◌≡◌, ◌<◌, ◌&&◌, not, true, length, IfOk, IfErr, IfSome};
ghost use Rattle.std.specs.Str.{chars, all_scalars};
ghost use Rattle.rule_detections.specs.Keys as spec;
ghost use Rattle.yaml_tree.specs.Nodes as nodes;
ghost use Rattle.sig_base.specs.Judged.{Judged, must};
ghost use Rattle.rule_detections.specs.Pieces.{IsKey, pieces_behind};

use event_schema::is_legal;
use sig_base::{Code, Fault, Place, Text, Texts, first_char, must};
use std::alloc::Global;

/// A field's name, the words of its modifiers, and whether there is no name, so that the values are keywords.
#[derive(Drop)]
pub struct Key {
    pub name: Text,
    pub words: Texts,
    pub keyword: bool,
}

/// How many bytes stand before the first `|`.
fn piece_len(text: &str) -> usize {
    text.as_bytes()
        .iter()
        .position(|byte| *byte == b'|')
        .unwrap_or(text.len())
}

/// The text up to the first `|`, and what stands behind it.
fn read_piece(alloc: Global, text: &str) -> Result<(Text, Option<&str>), Fault>
    ensures piece { IfOk result (λ p. p.0 ≡ spec.name_in (chars text.now)) }
    ensures behind { IfOk result (λ p. pieces_behind p.1 ≡ spec.words_in (chars text.now)) }
    ensures shorter { IfOk result (λ p. IfSome p.1 (λ rest. length rest.now < length text.now)) }
    ensures err { IfErr result (λ e. e ≡ Fault.Memory) }
{
    let mut piece = Text::with_capacity(alloc, piece_len(text))?;
    let mut left = text;
    loop {
        let Some((c, rest)) = first_char(left) else {
            return Ok((piece, None));
        };
        if c == '|' {
            return Ok((piece, Some(rest)));
        }
        piece.push(c)?;
        left = rest;
    }
}

/// The texts behind each `|`, of what stands behind the first.
fn read_words(alloc: Global, behind: Option<&str>) -> Result<Texts, Fault>
    ensures ok { IfOk result (λ words. words ≡ pieces_behind behind.entry) }
    ensures err { IfErr result (λ e. e ≡ Fault.Memory) }
{
    let mut left = behind;
    let mut words = Texts::new(alloc);
    while let Some(text) = left {
        let (word, rest) = read_piece(alloc, text)?;
        words.push(word)?;
        left = rest;
    }
    Ok(words)
}

fn has_no_text(name: &Text) -> bool
    ensures { result ≡ nodes.is_empty name.now }
{
    name.is("")
}

fn is_keyword(name: &Text, words: &Texts) -> bool
    ensures { result ≡ (nodes.is_empty name.now && not (nodes.is_empty words.now)) }
{
    has_no_text(name) && !words.as_slice().is_empty()
}

impl Key {
    /// Divides the key of an item at each `|`. A key without a legal name that has no modifier either is refused at
    /// `place`.
    pub fn read(alloc: Global, key: &Text, place: Place) -> Result<Key, Fault>
        ensures judged { Judged (λ k. IsKey key.now k) (must 71 place (spec.is_item_key key.now)) result }
        ensures scalars { IfOk result (λ k. all_scalars k.name ≡ true) }
    {
        let (name, behind) = read_piece(alloc, key.as_str())?;
        let words = read_words(alloc, behind)?;
        let keyword = is_keyword(&name, &words);
        let legal = is_legal(&name);
        must(Code::WRONG_SHAPE, place, keyword || legal)?;
        Ok(Key {
            name,
            words,
            keyword,
        })
    }
}
