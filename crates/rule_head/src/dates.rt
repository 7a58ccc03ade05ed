//! Dates of rules: days of the Gregorian calendar, as ISO 8601 writes them.

ghost use Rattle.std.specs.Prelude.{◌≡◌, ◌≤◌, ◌<◌, true};
ghost use Rattle.sig_base.specs.Digits.{is_digit};
ghost use Rattle.rule_head.specs.Heads as spec;

use jiff::civil::Date;
use sig_base::{Text, are_digits};

/// The number that two digits are.
fn two_digits(tens: u8, ones: u8) -> u8
    requires tens { is_digit tens ≡ true }
    requires ones { is_digit ones ≡ true }
    ensures value { result ≡ spec.two_digits tens ones }
    ensures small { result ≤ 99 }
{
    10 * (tens - b'0') + (ones - b'0')
}

/// Whether the calendar has this day.
fn is_calendar_day(year: u16, month: u8, day: u8) -> bool
    requires year { year ≤ 9999 }
    requires month { month ≤ 99 }
    requires day { day ≤ 99 }
    ensures { result ≡ spec.is_calendar_day year month day }
{
    Date::new(year as i16, month as i8, day as i8).is_ok()
}

/// Whether the bytes are `YYYY-MM-DD` with a day of the calendar.
fn are_day(bytes: &[u8]) -> bool
    ensures { result ≡ spec.is_day_text bytes.now }
{
    let [a, b, c, d, first, e, f, second, g, h] = bytes else {
        return false;
    };
    if !are_digits(&[*a, *b, *c, *d, *e, *f, *g, *h]) || *first != b'-' || *second != b'-' {
        return false;
    }
    let year = 100 * two_digits(*a, *b) as u16 + two_digits(*c, *d) as u16;
    is_calendar_day(year, two_digits(*e, *f), two_digits(*g, *h))
}

/// Whether the text is `YYYY-MM-DD` with a day of the calendar.
pub fn is_day(text: &Text) -> bool
    ensures { result ≡ spec.is_day_text text.now }
{
    are_day(text.as_str().as_bytes())
}
