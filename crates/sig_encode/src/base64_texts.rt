//! Base64, and the pieces of it that stay wherever a value stands.

ghost use Rattle.std.specs.Prelude.{◌≡◌, ◌<◌, ◌≤◌, ◌+◌, ◌-◌, ◌*◌, ◌/◌, ◌++◌, length, take, drop, replicate, slice_index, IfOk, IfErr};
ghost use Rattle.sig_encode.specs.Base64.{IsBase64};
ghost use Rattle.sig_encode.specs.Pieces.{IsPiece, ArePieces};

use base64::engine::general_purpose::STANDARD;
use sig_base::{Fault, Text};
use std::alloc::Global;

/// The base64 text of these bytes, with padding.
pub fn base64_text(alloc: Global, bytes: &[u8]) -> Result<Text, Fault>
    ensures ok { IfOk result (λ text. IsBase64 bytes.now text) }
    ensures err { IfErr result (λ e. e ≡ Fault.Memory) }
{
    Ok(Text::from_string(STANDARD.encode(alloc, bytes)?))
}

/// So many zero bytes, and then these.
fn shifted(alloc: Global, offset: usize, bytes: &[u8]) -> Result<Vec<u8>, Fault>
    ensures ok { IfOk result (λ all. all.items ≡ replicate offset 0 ++ bytes.now) }
    ensures err { IfErr result (λ e. e ≡ Fault.Memory) }
{
    let mut all = Vec::new(alloc);
    all.resize(offset, 0u8)?;
    all.extend_from_slice(bytes)?;
    Ok(all)
}

/// The characters of this number and the following ones, before the second.
fn cut(alloc: Global, text: &[u8], start: usize, end: usize) -> Result<Text, Fault>
    requires within { end ≤ length text.now }
    requires start { start ≤ end }
    ensures ok { IfOk result (λ piece. piece ≡ take (end - start) (drop start text.now)) }
    ensures err { IfErr result (λ e. e ≡ Fault.Memory) }
{
    let part = &text[start..end];
    let mut piece = Text::with_capacity(alloc, part.len())?;
    for byte in part {
        piece.push(*byte as char)?;
    }
    Ok(piece)
}

/// The piece for a number of bytes before the value.
fn offset_piece(alloc: Global, offset: usize, bytes: &[u8]) -> Result<Text, Fault>
    requires few { offset < 3 }
    requires some { 2 ≤ length bytes.now }
    ensures ok { IfOk result (λ piece. IsPiece offset bytes.now piece) }
    ensures err { IfErr result (λ e. e ≡ Fault.Memory) }
{
    let all = shifted(alloc, offset, bytes)?;
    let text = STANDARD.encode(alloc, &all)?;
    let size = all.len();
    let start = (4 * offset + 2) / 3;
    let end = size / 3 * 4 + size % 3 * 4 / 3;
    cut(alloc, text.as_bytes(), start, end)
}

/// What stays of the base64 text of these bytes behind any 3k, 3k + 1 and 3k + 2 bytes.
pub fn offset_pieces(alloc: Global, bytes: &[u8]) -> Result<[Text; 3], Fault>
    requires { 2 ≤ length bytes.now }
    ensures ok { IfOk result (λ pieces. ArePieces bytes.now pieces) }
    ensures err { IfErr result (λ e. e ≡ Fault.Memory) }
{
    let first = offset_piece(alloc, 0, bytes)?;
    let second = offset_piece(alloc, 1, bytes)?;
    let third = offset_piece(alloc, 2, bytes)?;
    Ok([first, second, third])
}
