// The Julian and the proleptic Gregorian calendar.

ghost use Rattle.std.specs.Prelude.{◌≡◌, ◌-◌, ◌≤◌, pos, neg_ℤ, ◌≤ℤ◌};
ghost use Rattle.std.specs.Int.{IsInRange};
ghost use Rattle.wb_values.specs.Calendar.{is_leap_year, days_in_month, days_of_months, has_day, day_count, gregorian_date_of, IsDate, IsSameDay};

use jiff_core::civil::Date;

/// A calendar with twelve months whose years differ in their leap days alone.
#[derive(Clone, Copy, PartialEq, Eq)]
pub(crate) enum Calendar {
    Julian,
    Gregorian,
}

/// A day of a calendar. The year before the year 1 is the year 0.
#[derive(Clone, Copy, PartialEq, Eq)]
pub(crate) struct CalendarDate {
    pub(crate) year: i64,
    pub(crate) month: u8,
    pub(crate) day: u8,
}

impl Calendar {
    /// Whether February has 29 days in the year.
    pub(crate) fn is_leap_year(self, year: i64) -> bool
        ensures { result ≡ is_leap_year self year }
    {
        let year = year.unsigned_abs();
        match self {
            Calendar::Julian => year % 4 == 0,
            Calendar::Gregorian => year % 4 == 0 && (year % 100 != 0 || year % 400 == 0),
        }
    }

    /// The days of a month from 1 to 12.
    pub(crate) fn days_in_month(self, year: i64, month: u8) -> u8
        ensures { result ≡ days_in_month self year month }
    {
        match month {
            2 if self.is_leap_year(year) => 29,
            2 => 28,
            4 | 6 | 9 | 11 => 30,
            _ => 31,
        }
    }

    /// Whether the month of the date has that many days.
    pub(crate) fn has_day(self, date: CalendarDate) -> bool
        ensures { result ≡ has_day self date }
    {
        date.day <= self.days_in_month(date.year, date.month)
    }

    /// The days of a year that come before the month, which is from 1 to 12.
    fn days_before_month(self, year: i64, month: u8) -> u32
        requires { IsInRange 1 12 month }
        ensures value { result ≡ days_of_months self year (month - 1) }
        ensures bound { result ≤ 341 }
    {
        let mut days = 0;
        for earlier in 1..month {
            days += u32::from(self.days_in_month(year, earlier));
        }
        days
    }
}

/// How many days later the first day of [`Date`], Gregorian -9999-01-01, is than Julian -10000-01-01.
const FIRST_DATE: u32 = 443;

/// The Gregorian date of the same day. Julian 1582-10-05 is Gregorian 1582-10-15.
pub(crate) fn gregorian_date(julian: CalendarDate) -> CalendarDate
    requires date { IsDate Calendar.Julian julian }
    requires low { neg_ℤ (pos 9997) ≤ℤ julian.year }
    requires high { julian.year ≤ℤ pos 9998 }
    ensures date { result ≡ gregorian_date_of julian }
    ensures same_day { IsSameDay julian result }
{
    let days = julian_day_count(julian) - FIRST_DATE;
    let date = Date::from_days_since_min(days);
    CalendarDate {
        year: i64::from(date.year),
        month: date.month,
        day: date.day,
    }
}

/// The days from Julian 1 January of the year -10000 to the date.
fn julian_day_count(date: CalendarDate) -> u32
    requires date { IsDate Calendar.Julian date }
    requires low { neg_ℤ (pos 9997) ≤ℤ date.year }
    requires high { date.year ≤ℤ pos 9998 }
    ensures value { result ≡ day_count Calendar.Julian date }
    ensures low { 443 ≤ result }
    ensures high { result ≤ 7_304_926 }
{
    let years = (date.year + 10_000) as u32;
    let leap_days = (years + 3) / 4;
    let months = Calendar::Julian.days_before_month(date.year, date.month);
    365 * years + leap_days + months + u32::from(date.day) - 1
}
