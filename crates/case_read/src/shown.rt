//! Bytes as a file of cases has them.

use crate::trouble::Trouble;
use std::alloc::Global;

fn add_byte(alloc: Global, all: &mut String, byte: u8) -> Result<(), Trouble> {
    let sign = format!(in alloc; "‹{byte:02X}›")?;
    all.push_str(sign.as_str())?;
    Ok(())
}

/// Adds the lines of a text, each after two blanks; one that ends in nothing seen gets a sign.
fn add_text(alloc: Global, all: &mut String, text: &str) -> Result<(), Trouble> {
    let mut last = '\n';
    for c in text.chars() {
        if last == '\n' {
            all.push_str("  ")?;
        }
        if c == '\n' && (last == ' ' || last == '\n') {
            all.push_str("‹›")?;
        }
        if c == '‹' {
            all.push_str("‹E2 80 B9›")?;
        } else if c == '\u{7f}' || (c < ' ' && c != '\n') {
            add_byte(alloc, all, (c as u32).min(127) as u8)?;
        } else {
            all.push(c)?;
        }
        last = c;
    }
    if last != '\n' {
        all.push_str("‹no feed›\n")?;
    }
    Ok(())
}

/// Adds the lines of bytes that are no text: those that are no ASCII characters by their numbers.
fn add_bytes(alloc: Global, all: &mut String, bytes: &[u8]) -> Result<(), Trouble> {
    let mut last = b'\n';
    for byte in bytes {
        if last == b'\n' {
            all.push_str("  ")?;
        }
        if *byte == b'\n' && (last == b' ' || last == b'\n') {
            all.push_str("‹›")?;
        }
        if (32..127).contains(byte) || *byte == b'\n' {
            all.push(char::from(*byte))?;
        } else {
            add_byte(alloc, all, *byte)?;
        }
        last = *byte;
    }
    if last != b'\n' {
        all.push_str("‹no feed›\n")?;
    }
    Ok(())
}

/// Adds bytes as a file of cases has them, each line after two blanks.
pub fn add_shown(alloc: Global, all: &mut String, bytes: &[u8]) -> Result<(), Trouble> {
    match str::from_utf8(bytes) {
        Ok(text) => add_text(alloc, all, text),
        Err(_) => add_bytes(alloc, all, bytes),
    }
}
