//! The values of fields.

ghost use Rattle.std.specs.Prelude.{◌≡◌, ◌↔◌, IsTrue, IfOk, IfErr};
ghost use Rattle.std.specs.Fmt.{signed_decimal};
ghost use Rattle.std.specs.Str.{chars};
ghost use Rattle.event_schema.specs.Rows.{value_text};

use itoa::Buffer;
use sig_base::{Fault, Text};
use std::alloc::Global;

/// A value of a field: a text, which an address is too, or a whole number.
#[derive(Drop, Debug)]
pub enum Value {
    Text(Text),
    Whole(i64),
}

/// A number's decimal, which the buffer holds; takes no memory.
pub fn decimal_in(buffer: &mut Buffer, number: i64) -> &str
    ensures { chars result.now ≡ signed_decimal number }
{
    buffer.format(number)
}

/// Whether a text is a number's decimal; takes no memory.
pub fn is_decimal(text: &str, number: i64) -> bool
    ensures { IsTrue result ↔ (chars text.now ≡ signed_decimal number) }
{
    let mut buffer = Buffer::new();
    text == decimal_in(&mut buffer, number)
}

/// A number's decimal; only want of memory is answered.
pub fn decimal(alloc: Global, number: i64) -> Result<Text, Fault>
    ensures ok { IfOk result (λ text. text ≡ signed_decimal number) }
    ensures err { IfErr result (λ e. e ≡ Fault.Memory) }
{
    let mut buffer = Buffer::new();
    Text::copy(alloc, decimal_in(&mut buffer, number))
}

impl Value {
    /// The text, or the number's decimal; only want of memory is answered.
    pub fn text(&self, alloc: Global) -> Result<Text, Fault>
        ensures ok { IfOk result (λ text. text ≡ value_text self.now) }
        ensures err { IfErr result (λ e. e ≡ Fault.Memory) }
    {
        match self {
            Value::Text(text) => Text::copy(alloc, text.as_str()),
            Value::Whole(number) => decimal(alloc, *number),
        }
    }

    /// The same value; only want of memory is answered.
    pub fn copy(&self, alloc: Global) -> Result<Value, Fault>
        ensures ok { IfOk result (λ value. value ≡ self.now) }
        ensures err { IfErr result (λ e. e ≡ Fault.Memory) }
    {
        match self {
            Value::Text(text) => Ok(Value::Text(Text::copy(alloc, text.as_str())?)),
            Value::Whole(number) => Ok(Value::Whole(*number)),
        }
    }
}
