//! The numbers that fields of whole numbers have.

ghost use Rattle.std.specs.Prelude.{◌≡◌};
ghost use Rattle.std.specs.Str.{chars};
ghost use Rattle.rule_lowering.specs.WholeNumbers.{if_whole, written_number};

use event_schema::is_decimal;

/// The number, unless it's -2^63, which no field has.
pub fn whole_number(number: i64) -> Option<i64>
    ensures { result ≡ if_whole number }
{
    if number == i64::MIN {
        return None;
    }
    Some(number)
}

/// The whole number whose decimal the text is.
pub fn read_whole(text: &str) -> Option<i64>
    ensures { result ≡ written_number (chars text.now) }
{
    let Ok(number) = text.parse::<i64>() else {
        return None;
    };
    if is_decimal(text, number) {
        return whole_number(number);
    }
    None
}
