//! Numbers for the texts of regular expressions.

ghost use Rattle.std.specs.Prelude.{◌≡◌, IfOk, IfErr};
ghost use Rattle.detection_eval.specs.Ready.{searches_view};

use query_lang::Search;
use sig_base::{Fault, Text, Texts};
use std::alloc::Global;
use text_index::TextIndex;

fn copy_texts(alloc: Global, searches: &[Search]) -> Result<Texts, Fault>
    ensures ok { IfOk result (λ texts. texts ≡ searches_view searches.now) }
    ensures err { IfErr result (λ e. e ≡ Fault.Memory) }
{
    let mut texts = Texts::with_capacity(alloc, searches.len())?;
    for search in searches {
        texts.push(Text::copy(alloc, search.text.as_str())?)?;
    }
    Ok(texts)
}

/// The texts of regular expressions, each found by its number.
pub fn index_texts(alloc: Global, searches: &[Search]) -> Result<TextIndex, Fault>
    ensures ok { IfOk result (λ index. index ≡ searches_view searches.now) }
    ensures err { IfErr result (λ e. e ≡ Fault.Memory) }
{
    TextIndex::number(alloc, copy_texts(alloc, searches)?)
}
