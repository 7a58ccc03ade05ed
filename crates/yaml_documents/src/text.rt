//! The characters of a file (YAML 1.2, 5.2), within its limit.

ghost use Rattle.std.specs.Prelude.{◌≡◌, ◌≤◌, ◌<◌, not, ◌==◌, length, vec_len, count_by, IsUtf8, IfOk, IfErr};
ghost use Rattle.std.specs.List.{suffix_len};
ghost use Rattle.yaml_tree.specs.View.{place_view};
ghost use Rattle.yaml_documents.specs.Call as call;
ghost use Rattle.yaml_documents.specs.Views.{IfRefused};

use crate::lines::skip_mark;
use crate::refusal::refused;
use sig_base::{Code, Fault, Place};
use std::alloc::{AllocError, Global};

/// The characters of a file of at most `file_bytes` bytes, in UTF-8.
pub fn characters(alloc: Global, file_bytes: usize, bytes: &[u8]) -> Result<Vec<char>, Fault>
    requires { file_bytes < 4294967295 }
    ensures within { IfOk result (λ cs. length bytes.now ≤ file_bytes) }
    ensures few { IfOk result (λ cs. vec_len cs ≤ file_bytes) }
    ensures text { IfOk result (λ cs. call.IsText bytes.now cs.items) }
    ensures refused { IfErr result (λ e. IfRefused e (call.IsUnreadable file_bytes bytes.now)) }
{
    if bytes.len() > file_bytes {
        return Err(refused(Code::TOO_LARGE, Place::START));
    }
    if bytes.is_ascii() {
        return Ok(widened(alloc, bytes)?);
    }
    match std::str::from_utf8(bytes) {
        Ok(text) => Ok(decoded(alloc, text)?),
        Err(bad) => {
            let (good, _) = bytes.split_at(bad.valid_up_to());
            let front = decoded(alloc, as_text(good))?;
            Err(refused(Code::NOT_UTF8, place_behind(front.as_slice())))
        }
    }
}

/// Bytes that are a text, as one.
fn as_text(bytes: &[u8]) -> &str
    requires { IsUtf8 bytes.now }
    ensures { result.now ≡ bytes.now }
{
    std::str::from_utf8(bytes).unwrap()
}

fn decoded(alloc: Global, text: &str) -> Result<Vec<char>, AllocError>
    ensures few { IfOk result (λ cs. vec_len cs ≤ length text.now) }
    ensures text { IfOk result (λ cs. call.IsText text.now cs.items) }
{
    text.chars().collect(alloc)
}

/// The characters with the numbers that the bytes have.
fn widened(alloc: Global, bytes: &[u8]) -> Result<Vec<char>, AllocError>
    ensures items { IfOk result (λ cs. cs.items ≡ bytes.now) }
    ensures len { IfOk result (λ cs. vec_len cs ≡ length bytes.now) }
{
    let mut all = Vec::new(alloc);
    all.resize(bytes.len(), '\0')?;
    for i in 0..bytes.len() {
        all[i] = bytes[i] as char;
    }
    Ok(all)
}

/// The place directly behind the first characters of a file.
fn place_behind(front: &[char]) -> Place
    requires { length front.now < 4294967295 }
    ensures { place_view result ≡ call.place_behind front.now }
{
    let feeds = feeds_in(front);
    let column = after_feed(skip_mark(front));
    Place {
        line: feeds as u32 + 1,
        column: column as u32 + 1,
    }
}

/// How many line feeds there are.
fn feeds_in(text: &[char]) -> usize
    ensures count { result ≡ count_by (λ c. c == 10) text.now }
    ensures within { result ≤ length text.now }
{
    text.iter().filter(|c| **c == '\n').count()
}

/// How many characters stand behind the last line feed.
fn after_feed(text: &[char]) -> usize
    ensures count { result ≡ suffix_len (λ c. not (c == 10)) text.now }
    ensures within { result ≤ length text.now }
{
    text.iter().rev().take_while(|c| **c != '\n').count()
}
