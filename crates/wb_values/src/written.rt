// The date and the clock that the text of a time writes.

ghost use Rattle.std.specs.Prelude.{◌≡◌, option_map};
ghost use Rattle.wb_values.specs.Written.{are_below, is_clock, date_in_year, is_year, signed_year, written_date, written_time};

use crate::calendar::CalendarDate;
use digits::{are_digits, decimal_value, two_digits};

/// The date as the text has it, with no year 0 between the years -1 and 1, and the clock `hh:mm:ssZ`.
pub(crate) fn written_time(text: &str) -> Option<(CalendarDate, &str)>
    ensures { option_map (λ p. (p.0, p.1.now)) result ≡ written_time text.now }
{
    let (date, clock) = text.split_once('T')?;
    if !is_clock(clock.as_bytes()) {
        return None;
    }
    Some((written_date(date.as_bytes())?, clock))
}

fn written_date(text: &[u8]) -> Option<CalendarDate>
    ensures { result ≡ written_date text.now }
{
    let (year, month_and_day) = text.split_at(text.len().checked_sub(6)?);
    date_in_year(signed_year(year)?, month_and_day)
}

fn date_in_year(year: i64, month_and_day: &[u8]) -> Option<CalendarDate>
    ensures { result ≡ date_in_year year month_and_day.now }
{
    match month_and_day {
        [b'-', m1, m2, b'-', d1, d2] => {
            let month = two_digits(*m1, *m2)?;
            let day = two_digits(*d1, *d2)?;
            Some(CalendarDate { year, month, day })
        }
        _ => None,
    }
}

fn signed_year(text: &[u8]) -> Option<i64>
    ensures { result ≡ signed_year text.now }
{
    let (sign, digits) = text.split_first()?;
    if !is_year(digits) {
        return None;
    }
    let year = decimal_value(digits) as i64;
    match sign {
        b'+' => Some(year),
        b'-' => Some(-year),
        _ => None,
    }
}

fn is_year(digits: &[u8]) -> bool
    ensures { result ≡ is_year digits.now }
{
    !digits.is_empty() && digits.len() <= 16 && are_digits(digits)
}

fn is_clock(text: &[u8]) -> bool
    ensures { result ≡ is_clock text.now }
{
    match text {
        [h1, h2, b':', m1, m2, b':', s1, s2, b'Z'] => {
            are_below(24, *h1, *h2) && are_below(60, *m1, *m2) && are_below(60, *s1, *s2)
        }
        _ => false,
    }
}

fn are_below(limit: u8, tens: u8, ones: u8) -> bool
    ensures { result ≡ are_below limit tens ones }
{
    match two_digits(tens, ones) {
        Some(value) => value < limit,
        None => false,
    }
}
