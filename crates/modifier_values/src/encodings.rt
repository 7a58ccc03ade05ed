//! Texts as they're encoded.

ghost use Rattle.std.specs.Prelude.{◌≡◌, ◌≤◌, length, IfOk, IfErr};
ghost use Rattle.modifier_values.specs.Encoded as encoded;

use modifier_words::{Encoding, Modifier};
use sig_base::{Bytes, Fault, Text};
use sig_encode::{Form, base64_text, offset_pieces, utf16_bytes};
use std::alloc::Global;

/// What a chain encodes texts as, if it does.
pub fn encoding_of(modifiers: &[Modifier]) -> Option<Encoding>
    ensures { result ≡ encoded.encoding_of modifiers.now }
{
    for modifier in modifiers {
        if let Modifier::Encoding(encoding) = modifier {
            return Some(*encoding);
        }
    }
    None
}

/// The units that a chain encodes texts in, if it says them.
pub fn units_of(modifiers: &[Modifier]) -> Option<Form>
    ensures { result ≡ encoded.units_of modifiers.now }
{
    for modifier in modifiers {
        if let Modifier::Units(form) = modifier {
            return Some(*form);
        }
    }
    None
}

/// A text's bytes in units of 16 bits, or in UTF-8.
pub fn bytes_in(alloc: Global, units: Option<Form>, text: &Text) -> Result<Bytes, Fault>
    ensures ok { IfOk result (λ bytes. bytes ≡ encoded.bytes_in units text.now) }
    ensures err { IfErr result (λ e. e ≡ Fault.Memory) }
{
    match units {
        Some(form) => utf16_bytes(alloc, text.as_str(), form),
        None => Bytes::copy(alloc, text.as_str().as_bytes()),
    }
}

/// How many bytes an encoding takes at least.
pub fn least_bytes(encoding: Encoding) -> usize
    ensures { result ≡ encoded.least_bytes encoding }
{
    match encoding {
        Encoding::Base64 => 0,
        Encoding::Base64Offset => 2,
    }
}

fn one_text(alloc: Global, bytes: &[u8]) -> Result<Vec<Text>, Fault>
    ensures ok { IfOk result (λ texts. encoded.AreTexts Encoding.Base64 bytes.now texts.items) }
    ensures err { IfErr result (λ e. e ≡ Fault.Memory) }
{
    let text = base64_text(alloc, bytes)?;
    let mut texts = Vec::new(alloc);
    texts.push(text)?;
    Ok(texts)
}

fn three_texts(alloc: Global, bytes: &[u8]) -> Result<Vec<Text>, Fault>
    requires { 2 ≤ length bytes.now }
    ensures ok { IfOk result (λ texts. encoded.AreTexts Encoding.Base64Offset bytes.now texts.items) }
    ensures err { IfErr result (λ e. e ≡ Fault.Memory) }
{
    let pieces = offset_pieces(alloc, bytes)?;
    Ok(Vec::from_array(alloc, pieces)?)
}

/// The texts that bytes are encoded as.
pub fn texts_of(alloc: Global, encoding: Encoding, bytes: &[u8]) -> Result<Vec<Text>, Fault>
    requires { encoded.least_bytes encoding ≤ length bytes.now }
    ensures ok { IfOk result (λ texts. encoded.AreTexts encoding bytes.now texts.items) }
    ensures err { IfErr result (λ e. e ≡ Fault.Memory) }
{
    match encoding {
        Encoding::Base64 => one_text(alloc, bytes),
        Encoding::Base64Offset => three_texts(alloc, bytes),
    }
}
