// The literal of a time.

ghost use Rattle.std.specs.Prelude.{◌≡◌, ◌<◌, ◌+◌, true, [], ◌∷◌, ◌++◌, unsigned_abs, IfOk, OnOk, option_map, string_bytes};
ghost use Rattle.std.specs.Str.{bytes_eq};
ghost use Rattle.wb_values.specs.Literal.{date_time_text, meant_time, sign_text, time_literal, zero_padded, IsOnlyLiteral};

use crate::calendar::CalendarDate;
use crate::gregorian_day::gregorian_day;
use crate::written::written_time;
use digits::two_digits;
use rdf_term::{CowText, OutOfMemory, Text};
use std::alloc::Global;

// How many bytes most dates and times have at most, as `-0044-03-15T00:00:00Z`.
const USUAL_LENGTH: usize = 24;

/// The text of a literal that stands for a time.
#[derive(Drop)]
pub enum TimeText<'a> {
    /// An `xsd:dateTime` of XML Schema 1.1 in the proleptic Gregorian calendar, with a year 0.
    DateTime(CowText<'a>),
    /// The time's own text, which no date stands for.
    Plain(CowText<'a>),
}

/// The literal of a time as Wikibase writes it: `+2001-12-31T00:00:00Z` and the like.
///
/// `precision` is Wikibase's: 9 for a year, 10 for a month, 11 for a day and more for parts of one.
/// `julian` says that the text is a date of the Julian calendar; with a precision of 11 or more and a
/// year from -9998 to 9998, such a date becomes the Gregorian date of the same day. Where the literal is
/// the time's text but for its sign, as for most times, it is a part of that text and takes no memory.
pub fn time_literal<'a>(
    alloc: Global,
    text: &'a str,
    precision: u8,
    julian: bool,
) -> Result<TimeText<'a>, OutOfMemory>
    ensures value { IfOk result (λ literal. literal ≡ time_literal text.now precision julian) }
    ensures rules { IfOk result (IsOnlyLiteral text.now precision julian) }
{
    match meant_time(text, precision, julian) {
        Some((day, clock)) => Ok(TimeText::DateTime(date_time(alloc, text, day, clock)?)),
        None => Ok(TimeText::Plain(CowText::borrowed(text))),
    }
}

fn meant_time(text: &str, precision: u8, julian: bool) -> Option<(CalendarDate, &str)>
    ensures { option_map (λ p. (p.0, p.1.now)) result ≡ meant_time text.now precision julian }
{
    let (written, clock) = written_time(text)?;
    let day = gregorian_day(written, precision, julian)?;
    Some((day, clock))
}

// The text of a day and a clock: the time's own behind a `+`, where it is that.
fn date_time<'a>(
    alloc: Global,
    time: &'a str,
    day: CalendarDate,
    clock: &str,
) -> Result<CowText<'a>, OutOfMemory>
    ensures { IfOk result (λ text. text ≡ date_time_text day clock.now) }
{
    if let Some(own) = time.strip_prefix("+") {
        if is_text_of(day, clock.as_bytes(), own.as_bytes()) {
            return Ok(CowText::borrowed(own));
        }
    }
    Ok(CowText::owned(date_time_text(alloc, day, clock)?))
}

// Whether the text is that of a day in a year of four digits, and of a clock.
#[tactic(auto, using(crate::proofs::Padded::year_first))]
fn is_text_of(date: CalendarDate, clock: &[u8], text: &[u8]) -> bool
    ensures { result ≡ true → text.now ≡ date_time_text date clock.now }
{
    match text {
        [y1, y2, y3, y4, rest @ ..] => {
            is_year_of(date.year, *y1, *y2, *y3, *y4) && is_month_on(date, clock, rest)
        }
        _ => false,
    }
}

// Whether the text is that of a day from its month on, and of a clock.
#[tactic(auto, using(crate::proofs::Padded::pair_first))]
fn is_month_on(date: CalendarDate, clock: &[u8], text: &[u8]) -> bool
    ensures { result ≡ true → text.now ≡ 45 ∷ zero_padded 2 date.month ++ (45 ∷ zero_padded 2 date.day ++ 84 ∷ clock.now) }
{
    match text {
        [b'-', m1, m2, rest @ ..] => is_pair_of(date.month, *m1, *m2)
            && is_day_on(date.day, clock, rest),
        _ => false,
    }
}

// Whether the text is that of the day of a month, and of a clock.
#[tactic(auto, using(crate::proofs::Padded::pair_first))]
fn is_day_on(day: u8, clock: &[u8], text: &[u8]) -> bool
    ensures { result ≡ true → text.now ≡ 45 ∷ zero_padded 2 day ++ 84 ∷ clock.now }
{
    match text {
        [b'-', d1, d2, rest @ ..] => is_pair_of(day, *d1, *d2) && is_clock_on(clock, rest),
        _ => false,
    }
}

// Whether the text is that of a clock behind its `T`.
fn is_clock_on(clock: &[u8], text: &[u8]) -> bool
    ensures { result ≡ true → text.now ≡ 84 ∷ clock.now }
{
    is_behind_t(clock, text)
}

// The same, by its bytes.
fn is_behind_t(clock: &[u8], text: &[u8]) -> bool
    ensures { result ≡ bytes_eq text.now (84 ∷ clock.now) }
{
    match text {
        [first, rest @ ..] => *first == b'T' && rest == clock,
        [] => false,
    }
}

// Whether the four digits write the year.
#[tactic(auto, using(crate::proofs::Padded::pairs_padded))]
fn is_year_of(year: i64, y1: u8, y2: u8, y3: u8, y4: u8) -> bool
    ensures { result ≡ true → sign_text year ++ zero_padded 4 (unsigned_abs year) ≡ y1 ∷ y2 ∷ y3 ∷ y4 ∷ [] }
{
    match (two_digits(y1, y2), two_digits(y3, y4)) {
        (Some(century), Some(rest)) => {
            year >= 0 && year.unsigned_abs() == 100 * u64::from(century) + u64::from(rest)
        }
        _ => false,
    }
}

// Whether the two digits write the number.
#[tactic(auto, using(crate::proofs::Padded::pair_padded))]
fn is_pair_of(number: u8, tens: u8, ones: u8) -> bool
    ensures { result ≡ true → zero_padded 2 number ≡ tens ∷ ones ∷ [] }
{
    match two_digits(tens, ones) {
        Some(value) => value == number,
        None => false,
    }
}

// The text of a day and a clock, written anew.
#[tactic(auto, using(crate::proofs::LiteralLemmas::clock_behind))]
fn date_time_text(alloc: Global, date: CalendarDate, clock: &str) -> Result<Text, OutOfMemory>
    ensures { IfOk result (λ text. text ≡ date_time_text date clock.now) }
{
    let mut text = String::with_capacity(alloc, USUAL_LENGTH)?;
    push_date(date, &mut text)?;
    text.push_str("T")?;
    text.push_str(clock)?;
    Ok(Text::from_string(text))
}

// Appends a date: its year, its month and its day.
fn push_date(date: CalendarDate, text: &mut String) -> Result<(), OutOfMemory>
    ensures { OnOk result (string_bytes text.new ≡ string_bytes text.old
        ++ (sign_text date.year ++ zero_padded 4 (unsigned_abs date.year) ++ 45 ∷ zero_padded 2 date.month ++ 45 ∷ zero_padded 2 date.day)) }
{
    push_year(date.year, text)?;
    text.push_str("-")?;
    push_pair(date.month, text)?;
    text.push_str("-")?;
    push_pair(date.day, text)
}

// Appends a year.
fn push_year(year: i64, text: &mut String) -> Result<(), OutOfMemory>
    ensures { OnOk result (string_bytes text.new ≡ string_bytes text.old ++ (sign_text year ++ zero_padded 4 (unsigned_abs year))) }
{
    if year < 0 {
        text.push_str("-")?;
    }
    push_four(year.unsigned_abs(), text)
}

// Appends a number in four digits or more.
#[tactic(auto, using(crate::proofs::LiteralLemmas::padded_to_four))]
fn push_four(number: u64, text: &mut String) -> Result<(), OutOfMemory>
    ensures { OnOk result (string_bytes text.new ≡ string_bytes text.old ++ zero_padded 4 number) }
{
    if number < 10_000 {
        push_pair((number / 100) as u8, text)?;
        push_pair((number % 100) as u8, text)?;
        return Ok(());
    }
    write!(text, "{number:04}")?;
    Ok(())
}

// Appends a number in two digits or more.
#[tactic(auto, using(crate::proofs::LiteralLemmas::padded_to_two))]
fn push_pair(number: u8, text: &mut String) -> Result<(), OutOfMemory>
    ensures { OnOk result (string_bytes text.new ≡ string_bytes text.old ++ zero_padded 2 number) }
{
    if number < 100 {
        push_digit(number / 10, text)?;
        push_digit(number % 10, text)?;
        return Ok(());
    }
    write!(text, "{number:02}")?;
    Ok(())
}

// Appends a digit.
fn push_digit(digit: u8, text: &mut String) -> Result<(), OutOfMemory>
    requires { digit < 10 }
    ensures { OnOk result (string_bytes text.new ≡ string_bytes text.old ++ (48 + digit) ∷ []) }
{
    text.push((b'0' + digit) as char)?;
    Ok(())
}
