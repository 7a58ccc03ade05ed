//! The bytes of a text with signs: `‹›` is nothing, `‹0D FF›` are bytes, `‹40*[›` is a text so many
//! times, and `‹no feed›` takes away the line feed after it.

use crate::trouble::Trouble;
use std::alloc::Global;

/// How often a text is repeated at most.
const MOST: u64 = 2_000_000;

/// The byte of two hexadecimal digits, with upper-case letters.
fn byte_of(digits: &str) -> Option<u8> {
    if digits.len() != 2 || !digits.chars().all(|c| matches!(c, '0'..='9' | 'A'..='F')) {
        return None;
    }
    u8::from_str_radix(digits, 16).ok()
}

/// The number before `*` and the text after it.
fn repeat_of(sign: &str) -> Option<(u64, &str)> {
    let (count, text) = sign.split_once('*')?;
    let Ok(count) = count.parse::<u64>() else {
        return None;
    };
    if count > MOST {
        return None;
    }
    Some((count, text))
}

/// Adds the bytes that a sign stands for.
fn add_sign(alloc: Global, all: &mut Vec<u8>, sign: &str) -> Result<(), Trouble> {
    if sign.is_empty() {
        return Ok(());
    }
    if let Some((count, text)) = repeat_of(sign) {
        for _ in 0..count {
            all.extend_from_slice(text.as_bytes())?;
        }
        return Ok(());
    }
    for digits in sign.split(' ') {
        let Some(byte) = byte_of(digits) else {
            return Err(Trouble::of(
                alloc,
                "a sign that is unknown, or a hole without a text",
                sign,
            ));
        };
        all.push(byte)?;
    }
    Ok(())
}

/// The bytes of a text with signs.
pub fn bytes_of(alloc: Global, text: &str) -> Result<Vec<u8>, Trouble> {
    let mut all: Vec<u8> = Vec::new(alloc);
    let mut parts = text.split('‹');
    if let Some(part) = parts.next() {
        all.extend_from_slice(part.as_bytes())?;
    }
    for part in parts {
        let Some((sign, rest)) = part.split_once('›') else {
            return Err(Trouble::of(alloc, "a sign without its end", part));
        };
        if sign == "no feed" {
            let Some(after) = rest.strip_prefix('\n') else {
                return Err(Trouble::of(alloc, "no line feed after", sign));
            };
            all.extend_from_slice(after.as_bytes())?;
        } else {
            add_sign(alloc, &mut all, sign)?;
            all.extend_from_slice(rest.as_bytes())?;
        }
    }
    Ok(all)
}
