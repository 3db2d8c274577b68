// Which day of the proleptic Gregorian calendar a written date means.

ghost use Rattle.std.specs.Prelude.{◌≡◌, ◌≢◌, ◌≤◌, pos, unsigned_abs};
ghost use Rattle.wb_values.specs.GregorianDay.{astronomical_year, first_date_in, gregorian_day, is_converted, is_undated};

use crate::calendar::{Calendar, CalendarDate, gregorian_date};

/// The precision of a time that is known to the day.
const DAY_PRECISION: u8 = 11;

/// The day that a written date means, or `None`: for a year of 0, a month above 12 or a day above 31, and, in a year from -9999 to 9999, if
/// the calendar that the date is judged by has no such day. That is the Julian one if the date is converted, and the Gregorian otherwise.
///
/// A written year of -1 is the year 0, and there is no written year 0. A month or a day of 0 means
/// that it isn't known. Years above 9999 or below -9999 have no month and day: 1 January stands for
/// them.
pub(crate) fn gregorian_day(
    written: CalendarDate,
    precision: u8,
    julian: bool,
) -> Option<CalendarDate>
    ensures { result ≡ gregorian_day written precision julian }
{
    if is_undated(written) {
        return None;
    }
    if written.year.unsigned_abs() > 9999 {
        let year = astronomical_year(written.year);
        return Some(CalendarDate {
            year,
            month: 1,
            day: 1,
        });
    }
    let date = first_date_in(written);
    if is_converted(written, precision, julian) {
        return if Calendar::Julian.has_day(date) {
            Some(gregorian_date(date))
        } else {
            None
        };
    }
    Calendar::Gregorian.has_day(date).then_some(date)
}

fn is_undated(written: CalendarDate) -> bool
    ensures { result ≡ is_undated written }
{
    written.year.unsigned_abs() == 0 || written.month > 12 || written.day > 31
}

fn is_converted(written: CalendarDate, precision: u8, julian: bool) -> bool
    ensures { result ≡ is_converted written precision julian }
{
    julian && precision >= DAY_PRECISION && written.year.unsigned_abs() <= 9998
}

fn astronomical_year(written: i64) -> i64
    ensures { result ≡ astronomical_year written }
{
    if written > 0 { written } else { written + 1 }
}

fn first_date_in(written: CalendarDate) -> CalendarDate
    ensures { result ≡ first_date_in written }
{
    let year = astronomical_year(written.year);
    let CalendarDate { month, day, .. } = written;
    match (month, day) {
        (0, _) => CalendarDate {
            year,
            month: 1,
            day: 1,
        },
        (_, 0) => CalendarDate {
            year,
            month,
            day: 1,
        },
        _ => CalendarDate { year, month, day },
    }
}
