// The texts of times.

ghost use Rattle.std.specs.Prelude.{◌≡◌, ◌*◌, ◌-◌, ◌^◌, ◌<◌, ◌≤◌, length, ℤ, IsTrue, IfSome, Some};
ghost use Rattle.std.specs.{Char.is_ascii_digit, List.list_all};
ghost use Rattle.jiff_core.specs.Calendar.{IsEpochDay};
ghost use Rattle.digits.specs.Number.{decimal_value};
ghost use Rattle.event_line.specs.Time.{in_microseconds, four_digits, digits_below, day_of, day_number, second_of, microsecond_of, is_fraction, time_before_zone, time_of, IsTimeText};

use digits::{are_digits, decimal_value, two_digits};
use jiff_core::civil::Date;

/// The microseconds since 1970-01-01T00:00:00Z of the time `YYYY-MM-DDThh:mm:ssZ`, which may have a point and
/// 1 to 6 digits in front of the `Z`. Years are from 1 and have four digits, and dates are those of the
/// Gregorian calendar (ISO 8601).
pub(crate) fn microseconds(text: &[u8]) -> Option<i64>
    ensures value { result ≡ time_of text.now }
    ensures sound { IfSome result (IsTimeText text.now) }
    ensures complete { (time : ℤ) → IsTimeText text.now time → result ≡ Some time }
{
    with_zone(text)
}

/// The same, by its parts.
fn with_zone(text: &[u8]) -> Option<i64>
    ensures { result ≡ time_of text.now }
{
    match text {
        [time @ .., b'Z'] => before_zone(time),
        _ => None,
    }
}

fn before_zone(time: &[u8]) -> Option<i64>
    ensures { result ≡ time_before_zone time.now }
{
    if time.len() < 19 {
        return None;
    }
    let (date, rest) = time.split_at(10);
    let (clock, fraction) = rest.split_at(9);
    let day = day(date)?;
    let second = second_of_day(clock)?;
    let microsecond = microsecond(fraction)?;
    Some(in_microseconds(day, second, microsecond))
}

/// The microseconds since day 0 began.
fn in_microseconds(day: i64, second: u32, microsecond: u32) -> i64
    requires day { IsEpochDay day }
    requires second { second < 86_400 }
    requires microsecond { microsecond < 1_000_000 }
    ensures { result ≡ in_microseconds day second microsecond }
{
    86_400_000_000 * day + 1_000_000 * i64::from(second) + i64::from(microsecond)
}

/// The day number of `YYYY-MM-DD`, where 1970-01-01 is 0.
fn day(date: &[u8]) -> Option<i64>
    ensures value { result ≡ day_of date.now }
    ensures bound { IfSome result IsEpochDay }
{
    match date {
        [y1, y2, y3, y4, b'-', m1, m2, b'-', d1, d2] => {
            let year = four_digits(*y1, *y2, *y3, *y4)?;
            let month = two_digits(*m1, *m2)?;
            let day = two_digits(*d1, *d2)?;
            day_number(year, month, day)
        }
        _ => None,
    }
}

fn day_number(year: u16, month: u8, day: u8) -> Option<i64>
    requires year { year < 10_000 }
    requires month { month < 100 }
    requires day { day < 100 }
    ensures value { result ≡ day_number year month day }
    ensures bound { IfSome result IsEpochDay }
{
    if year == 0 {
        return None;
    }
    match Date::new(year as i16, month as i8, day as i8) {
        Ok(date) => Some(i64::from(date.to_unix_epoch_day())),
        Err(_) => None,
    }
}

/// The second of the day that `Thh:mm:ss` says.
fn second_of_day(clock: &[u8]) -> Option<u32>
    ensures value { result ≡ second_of clock.now }
    ensures bound { IfSome result (λ second. second < 86_400) }
{
    match clock {
        [b'T', h1, h2, b':', m1, m2, b':', s1, s2] => {
            let hour = digits_below(24, *h1, *h2)?;
            let minute = digits_below(60, *m1, *m2)?;
            let second = digits_below(60, *s1, *s2)?;
            Some(3_600 * u32::from(hour) + 60 * u32::from(minute) + u32::from(second))
        }
        _ => None,
    }
}

/// The microseconds of a fraction of a second: a point and 1 to 6 digits, or nothing.
fn microsecond(fraction: &[u8]) -> Option<u32>
    ensures value { result ≡ microsecond_of fraction.now }
    ensures bound { IfSome result (λ microsecond. microsecond < 1_000_000) }
{
    match fraction {
        [] => Some(0),
        [b'.', digits @ ..] if is_fraction(digits) => Some(millionths(digits)),
        _ => None,
    }
}

fn is_fraction(digits: &[u8]) -> bool
    ensures { result ≡ is_fraction digits.now }
{
    !digits.is_empty() && digits.len() <= 6 && are_digits(digits)
}

/// The digits behind a point, in millionths.
fn millionths(digits: &[u8]) -> u32
    requires short { length digits.now ≤ 6 }
    requires digits { IsTrue (list_all is_ascii_digit digits.now) }
    ensures value { result ≡ decimal_value digits.now * 10 ^ (6 - length digits.now) }
    ensures bound { result < 1_000_000 }
{
    let number = decimal_value(digits) as u32;
    number * 10u32.pow(6 - digits.len() as u32)
}

fn digits_below(limit: u8, tens: u8, ones: u8) -> Option<u8>
    ensures value { result ≡ digits_below limit tens ones }
    ensures bound { IfSome result (λ number. number < limit) }
{
    match two_digits(tens, ones) {
        Some(number) if number < limit => Some(number),
        _ => None,
    }
}

/// The number that four digits write.
fn four_digits(a: u8, b: u8, c: u8, d: u8) -> Option<u16>
    ensures value { result ≡ four_digits a b c d }
    ensures bound { IfSome result (λ number. number < 10_000) }
{
    let high = two_digits(a, b)?;
    let low = two_digits(c, d)?;
    Some(100 * u16::from(high) + u16::from(low))
}
