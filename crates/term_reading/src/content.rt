// The contents of an IRI's brackets and of a literal's quotes, read with their escapes.

ghost use Rattle.std.specs.Prelude.{◌≡◌, ◌<◌, ◌≤◌, IfOk, encode_utf8};
ghost use Rattle.std.specs.Option.{option_map};
ghost use Rattle.term_reading.specs.Reader.{after_digit, content_of, put_or_refuse, step, step_backslash, step_between, step_digits};
ghost use Rattle.term_reading.specs.Written.{closing, escaped_char, letter_char, stands};

use base::{OutOfMemory, Text};
use rdf_term::is_iri_char;
use std::alloc::Global;

/// What encloses a content.
#[derive(Clone, Copy)]
pub enum Enclosure {
    /// The angle brackets of an IRI.
    Brackets,
    /// The quotes of a literal's text.
    Quotes,
}

/// Where a reader of a content stands.
#[derive(Clone, Copy)]
pub enum State {
    /// Between two pieces.
    Between,
    /// Behind a backslash.
    Backslash,
    /// Before so many hexadecimal digits, behind digits with this value.
    Digits(u8, u32),
}

/// What a character does.
#[derive(Clone, Copy)]
pub enum Effect {
    /// It closes the content.
    Close,
    /// It may not stand here.
    Refuse,
    /// It leads on within an escape.
    Go(State),
    /// It stands for itself.
    Keep,
    /// It ends an escape, which stands for this character.
    Put(char),
}

/// Reads a content up to what closes it, and gives its text and what follows; `None` where it is none.
pub fn content<'a>(
    alloc: Global,
    enclosure: Enclosure,
    text: &'a str,
) -> Result<Option<(Text, &'a str)>, OutOfMemory>
    ensures { IfOk result (λ read. option_map (λ p. (p.0, p.1.now)) read ≡ content_of enclosure State.Between text.now) }
{
    let mut out = String::with_capacity(alloc, text.len())?;
    let mut state = State::Between;
    let mut left = text.chars();
    while let Some(c) = left.next() {
        match step(enclosure, state, c) {
            Effect::Close => return Ok(Some((Text::from_string(out), left.as_str()))),
            Effect::Refuse => return Ok(None),
            Effect::Go(next) => state = next,
            Effect::Keep => {
                out.push(c)?;
                state = State::Between;
            }
            Effect::Put(meant) => {
                out.push(meant)?;
                state = State::Between;
            }
        }
    }
    Ok(None)
}

// What a character does.
#[tactic(auto, unfolding(crate::specs::Reader::step))]
fn step(enclosure: Enclosure, state: State, c: char) -> Effect
    ensures { result ≡ step enclosure state c }
{
    match state {
        State::Between => step_between(enclosure, c),
        State::Backslash => step_backslash(enclosure, c),
        State::Digits(left, value) => step_digits(enclosure, left, value, c),
    }
}

// What a character does between two pieces.
fn step_between(enclosure: Enclosure, c: char) -> Effect
    ensures { result ≡ step_between enclosure c }
{
    if c == closing(enclosure) {
        Effect::Close
    } else if c == '\\' {
        Effect::Go(State::Backslash)
    } else if stands(enclosure, c) {
        Effect::Keep
    } else {
        Effect::Refuse
    }
}

// What a character does behind a backslash.
fn step_backslash(enclosure: Enclosure, c: char) -> Effect
    ensures { result ≡ step_backslash enclosure c }
{
    match c {
        'u' => Effect::Go(State::Digits(4, 0)),
        'U' => Effect::Go(State::Digits(8, 0)),
        _ => put_or_refuse(letter_char(enclosure, c)),
    }
}

// What a character does where a hexadecimal digit has to stand.
fn step_digits(enclosure: Enclosure, left: u8, value: u32, c: char) -> Effect
    ensures { result ≡ step_digits enclosure left value c }
{
    if value > 0x10_FFFF {
        return Effect::Refuse;
    }
    match c.to_digit(16) {
        Some(digit) => after_digit(enclosure, left, value * 16 + digit),
        None => Effect::Refuse,
    }
}

// What comes behind a digit.
fn after_digit(enclosure: Enclosure, left: u8, value: u32) -> Effect
    ensures { result ≡ after_digit enclosure left value }
{
    if left > 1 {
        Effect::Go(State::Digits(left - 1, value))
    } else {
        put_or_refuse(escaped_char(enclosure, value))
    }
}

// The end of an escape.
fn put_or_refuse(meant: Option<char>) -> Effect
    ensures { result ≡ put_or_refuse meant }
{
    match meant {
        Some(c) => Effect::Put(c),
        None => Effect::Refuse,
    }
}

// What closes the content.
fn closing(enclosure: Enclosure) -> char
    ensures { result ≡ closing enclosure }
{
    match enclosure {
        Enclosure::Brackets => '>',
        Enclosure::Quotes => '"',
    }
}

// Whether the character may stand in the content as it is.
fn stands(enclosure: Enclosure, c: char) -> bool
    ensures { result ≡ stands enclosure c }
{
    match enclosure {
        Enclosure::Brackets => is_iri_char(c),
        Enclosure::Quotes => !matches!(c, '"' | '\\' | '\n' | '\r'),
    }
}

// The character for which the letter behind a backslash stands.
fn letter_char(enclosure: Enclosure, letter: char) -> Option<char>
    ensures { result ≡ letter_char enclosure letter }
{
    match enclosure {
        Enclosure::Brackets => None,
        Enclosure::Quotes => match letter {
            't' => Some('\t'),
            'b' => Some('\u{8}'),
            'n' => Some('\n'),
            'r' => Some('\r'),
            'f' => Some('\u{c}'),
            '"' | '\'' | '\\' => Some(letter),
            _ => None,
        },
    }
}

// The character of the number, where it may stand in the content.
fn escaped_char(enclosure: Enclosure, number: u32) -> Option<char>
    ensures { result ≡ escaped_char enclosure number }
{
    let c = char::from_u32(number)?;
    match enclosure {
        Enclosure::Brackets => is_iri_char(c).then_some(c),
        Enclosure::Quotes => Some(c),
    }
}
