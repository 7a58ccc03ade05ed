//! Moments, from texts and from numbers.

ghost use Rattle.std.specs.Prelude.{◌≡◌, ◌≤◌, ◌*ℤ◌, pos, length, take, drop, Some, is_some, IfSome};
ghost use Rattle.event_time.specs.Moments as spec;
ghost use Rattle.event_schema.specs.Occurrence.{IsMoment, IsMomentIfAny};
ghost use Rattle.event_time.specs.Nearness.{IsNear};
ghost use Rattle.jiff.specs.Words.{epoch_day, IsYmd};
ghost use Rattle.serde_json.specs.View.{number_view, view};

use crate::numerals::{digits, is_whole};
use event_schema::TimeForm;
use jiff::civil::{Date, date};
use serde_json::{Number, Value};
use sig_base::{are_digits, is_digit};

/// The day, where the calendar has it.
fn date_of(year: u32, month: u32, day: u32) -> Option<Date>
    requires year { year ≤ 9999 }
    requires month { month ≤ 99 }
    requires day { day ≤ 99 }
    ensures there { is_some result ≡ spec.is_calendar_day year month day }
    ensures day { IfSome result (IsYmd (pos year) (pos month) (pos day)) }
{
    match Date::new(year as i16, month as i8, day as i8) {
        Ok(found) => Some(found),
        Err(_) => None,
    }
}

/// The nanoseconds from 1970 to the day.
fn nanos_of(day: Date) -> i128
    ensures value { result ≡ epoch_day day *ℤ pos 86400000000000 }
    ensures near { IsNear result }
{
    day.duration_since(date(1970, 1, 1)).as_nanos()
}

fn two_digits(tens: u8, ones: u8) -> u32
    ensures value { result ≡ spec.two_digits tens ones }
    ensures small { result ≤ 2277 }
{
    10 * tens.saturating_sub(b'0') as u32 + ones.saturating_sub(b'0') as u32
}

/// Whether two digits are a number up to the greatest.
fn is_two(most: u32, tens: u8, ones: u8) -> bool
    ensures { result ≡ spec.is_two most tens ones }
{
    is_digit(tens) && is_digit(ones) && two_digits(tens, ones) <= most
}

/// The nanoseconds from 1970 to the day, of the years from 1 on.
fn day_nanos(year: u32, month: u32, day: u32) -> Option<i128>
    requires year { year ≤ 9999 }
    requires month { month ≤ 99 }
    requires day { day ≤ 99 }
    ensures value { result ≡ spec.day_nanos year month day }
    ensures near { IfSome result IsNear }
{
    if year < 1 {
        return None;
    }
    match date_of(year, month, day) {
        Some(date) => Some(nanos_of(date)),
        None => None,
    }
}

/// The nanoseconds from 1970 to the day that `YYYY-MM-DD` is.
fn day_of(bytes: &[u8]) -> Option<i128>
    ensures value { result ≡ spec.day_of bytes.now }
    ensures near { IfSome result IsNear }
{
    let [a, b, c, d, first, e, f, second, g, h] = bytes else {
        return None;
    };
    if *first != b'-' || *second != b'-' {
        return None;
    }
    if !is_two(99, *a, *b) || !is_two(99, *c, *d) {
        return None;
    }
    if !is_two(12, *e, *f) || !is_two(31, *g, *h) {
        return None;
    }
    let year = 100 * two_digits(*a, *b) + two_digits(*c, *d);
    day_nanos(year, two_digits(*e, *f), two_digits(*g, *h))
}

fn is_mark(byte: u8) -> bool
    ensures { result ≡ spec.is_mark byte }
{
    byte == b'T' || byte == b' '
}

/// The seconds from midnight to the time that `T` or a space and `HH:MM:SS` are.
fn clock_of(bytes: &[u8]) -> Option<u32>
    ensures { result ≡ spec.clock_of bytes.now }
{
    let [mark, a, b, first, c, d, second, e, f] = bytes else {
        return None;
    };
    if !is_mark(*mark) || *first != b':' || *second != b':' {
        return None;
    }
    if !is_two(23, *a, *b) || !is_two(59, *c, *d) || !is_two(59, *e, *f) {
        return None;
    }
    Some(3600 * two_digits(*a, *b) + 60 * two_digits(*c, *d) + two_digits(*e, *f))
}

/// The nanoseconds that digits behind a dot are.
fn weighed(digits: &[u8]) -> u64
    requires { length digits.now ≤ 9 }
    ensures { result ≡ spec.weighed 100000000 digits.now }
{
    let mut unit: u64 = 100_000_000;
    let mut nanos: u64 = 0;
    for digit in digits {
        nanos += unit * digit.saturating_sub(b'0') as u64;
        unit /= 10;
    }
    nanos
}

/// The nanoseconds that nothing, or a dot and one to nine digits, are.
fn fraction_of(bytes: &[u8]) -> Option<u64>
    ensures { result ≡ spec.fraction_of bytes.now }
{
    match bytes {
        [] => Some(0),
        [dot, digits @ ..] => {
            if *dot == b'.' && 1 <= digits.len() && digits.len() <= 9 && are_digits(digits) {
                Some(weighed(digits))
            } else {
                None
            }
        }
    }
}

fn signed_seconds(sign: u8, seconds: u32) -> i64
    ensures { result ≡ spec.signed_seconds sign seconds }
{
    if sign == b'-' {
        -(seconds as i64)
    } else {
        seconds as i64
    }
}

/// The seconds that nothing, `Z`, `+HH:MM` or `-HH:MM` are ahead of UTC.
fn offset_of(bytes: &[u8]) -> Option<i64>
    ensures { result ≡ spec.offset_of bytes.now }
{
    match bytes {
        [] => Some(0),
        [zone] => { if *zone == b'Z' { Some(0) } else { None } }
        [sign, a, b, mark, c, d] => {
            if (*sign == b'+' || *sign == b'-')
                && is_two(23, *a, *b)
                && *mark == b':'
                && is_two(59, *c, *d)
            {
                Some(signed_seconds(*sign, 3600 * two_digits(*a, *b) + 60 * two_digits(*c, *d)))
            } else {
                None
            }
        }
        _ => None,
    }
}

/// How many bytes a fraction at the front has.
fn fraction_length(bytes: &[u8]) -> usize
    ensures value { result ≡ spec.fraction_length bytes.now }
    ensures within { result ≤ length bytes.now }
{
    match bytes {
        [] => 0,
        [dot, rest @ ..] => { if *dot == b'.' { 1 + digits(rest) } else { 0 } }
    }
}

fn moment_at(day: i128, clock: u32, fraction: u64, offset: i64) -> i128
    requires { IsNear day }
    ensures value { result ≡ spec.moment_at day clock fraction offset }
    ensures bounds { IsMoment result }
{
    day + (clock as i128 * 1_000_000_000 + fraction as i128) - offset as i128 * 1_000_000_000
}

/// What stands behind the day and the clock.
fn zoned(day: i128, clock: u32, rest: &[u8]) -> Option<i128>
    requires { IsNear day }
    ensures value { result ≡ spec.zoned (Some day) (Some clock) rest.now }
    ensures bounds { IsMomentIfAny result }
{
    let (front, behind) = rest.split_at(fraction_length(rest));
    let Some(fraction) = fraction_of(front) else {
        return None;
    };
    let Some(offset) = offset_of(behind) else {
        return None;
    };
    Some(moment_at(day, clock, fraction, offset))
}

/// The moment that a text is.
fn text_moment(bytes: &[u8]) -> Option<i128>
    ensures value { result ≡ spec.text_moment bytes.now }
    ensures bounds { IsMomentIfAny result }
{
    let Some(day) = day_of(front(bytes, 10)) else {
        return None;
    };
    let Some(clock) = clock_of(front(behind(bytes, 10), 9)) else {
        return None;
    };
    zoned(day, clock, behind(bytes, 19))
}

/// The first bytes, so many or as many as there are.
fn front(bytes: &[u8], count: usize) -> &[u8]
    ensures { result.now ≡ take count bytes.now }
{
    if bytes.len() < count {
        return bytes;
    }
    bytes.split_at(count).0
}

/// What stands behind so many bytes.
fn behind(bytes: &[u8], count: usize) -> &[u8]
    ensures { result.now ≡ drop count bytes.now }
{
    if bytes.len() < count {
        return &[];
    }
    bytes.split_at(count).1
}

/// The whole number from -(2^63 - 1) to 2^63 - 1 that a number is.
fn whole_in(number: &Number) -> Option<i64>
    ensures { result ≡ spec.whole_in (number_view number.now) }
{
    match number.as_i64() {
        Some(whole) => { if is_whole(whole) { Some(whole) } else { None } }
        None => None,
    }
}

/// The moment that so many nanoseconds for each that a number counts are.
fn counted(unit: u32, value: &Value) -> Option<i128>
    ensures value { result ≡ spec.counted unit (view value.now) }
    ensures bounds { IsMomentIfAny result }
{
    let Some(number) = value.as_number() else {
        return None;
    };
    let Some(whole) = whole_in(number) else {
        return None;
    };
    Some(times(whole, unit))
}

fn times(whole: i64, unit: u32) -> i128
    ensures value { result ≡ whole *ℤ pos unit }
    ensures bounds { IsMoment result }
{
    whole as i128 * unit as i128
}

/// The moment that a value is, in nanoseconds since 1970 in UTC; none where it is of no moment.
pub fn moment_in(form: TimeForm, value: &Value) -> Option<i128>
    ensures value { result ≡ spec.moment_in form (view value.now) }
    ensures bounds { IsMomentIfAny result }
{
    match form {
        TimeForm::Text => match value.as_str() {
            Some(text) => text_moment(text.as_bytes()),
            None => None,
        },
        TimeForm::Seconds => counted(1_000_000_000, value),
        TimeForm::Millis => counted(1_000_000, value),
    }
}
