//! Texts in UTF-16.

ghost use Rattle.std.specs.Prelude.{◌≡◌, ◌++◌, length, IfOk, IfErr, OnOk, OnErr};
ghost use Rattle.std.specs.Str.{chars};
ghost use Rattle.sig_encode.specs.Utf16.{char_bytes, mark_of, unit_bytes, utf16_of};

use sig_base::{Bytes, Fault};
use std::alloc::Global;

/// How units of 16 bits are written.
#[derive(Clone, Copy, PartialEq, Eq, Debug)]
pub enum Form {
    /// the lower byte first
    Le,
    /// the higher byte first
    Be,
    /// a byte order mark, and then the lower byte first
    Marked,
}

fn put_mark(bytes: &mut Vec<u8>, form: Form) -> Result<(), Fault>
    ensures ok { OnOk result (bytes.new.items ≡ bytes.old.items ++ mark_of form) }
    ensures err { IfErr result (λ e. e ≡ Fault.Memory) }
{
    match form {
        Form::Le | Form::Be => (),
        Form::Marked => {
            bytes.push(0xFF)?;
            bytes.push(0xFE)?;
        }
    }
    Ok(())
}

fn put_unit(bytes: &mut Vec<u8>, form: Form, unit: u16) -> Result<(), Fault>
    ensures ok { OnOk result (bytes.new.items ≡ bytes.old.items ++ unit_bytes form unit) }
    ensures err { IfErr result (λ e. e ≡ Fault.Memory) }
{
    let low = (unit % 256) as u8;
    let high = (unit / 256) as u8;
    match form {
        Form::Le | Form::Marked => {
            bytes.push(low)?;
            bytes.push(high)?;
        }
        Form::Be => {
            bytes.push(high)?;
            bytes.push(low)?;
        }
    }
    Ok(())
}

fn put_char(bytes: &mut Vec<u8>, form: Form, c: char) -> Result<(), Fault>
    ensures ok { OnOk result (bytes.new.items ≡ bytes.old.items ++ char_bytes form c) }
    ensures err { IfErr result (λ e. e ≡ Fault.Memory) }
{
    let mut room = [0u16; 2];
    let units = c.encode_utf16(&mut room);
    for unit in &*units {
        put_unit(bytes, form, *unit)?;
    }
    Ok(())
}

/// The text in UTF-16.
pub fn utf16_bytes(alloc: Global, text: &str, form: Form) -> Result<Bytes, Fault>
    ensures ok { IfOk result (λ bytes. bytes ≡ utf16_of form (chars text.now)) }
    ensures err { IfErr result (λ e. e ≡ Fault.Memory) }
{
    let mut bytes = Vec::new(alloc);
    put_mark(&mut bytes, form)?;
    for c in text.chars() {
        put_char(&mut bytes, form, c)?;
    }
    Ok(Bytes::from_vec(bytes))
}
