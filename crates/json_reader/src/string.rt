// Reads a string: RFC 8259, section 7.

ghost use Rattle.std.specs.Prelude.{◌≡◌, ◌≤◌, ◌<◌, ◌+◌, ◌*◌, ◌^◌, ◌&&◌, cond, IsTrue, length, option_map, IfSome, IfOk, None, Some, ◌++◌, string_bytes};
ghost use Rattle.std.specs.Char.{digit_value, is_digit};
ghost use Rattle.json_spell.specs.Text.{short_escape, code_unit, is_high_surrogate, is_low_surrogate};
ghost use Rattle.json_spell.specs.Reading.{before, run_at, low_half, unicode_at, escape_at, content_at};
ghost use Rattle.json_reader.specs.Content.{content_bytes};
ghost use Rattle.json_spell.specs.{Tree.string, View.json_view, Parses.Parses};

use crate::bytes::{after_byte, before, next, skip_unescaped, text_of, utf8};
use crate::runs::skip_plain;
use bumpalo::Bump;
use bumpalo::collections::into_bump_str;
use json_spell::{Json, JsonFault};

// The content of a string, its escapes replaced by their characters: a part of the text, or in the arena.
#[derive(Clone, Copy)]
pub(crate) enum Content<'b, 'a> {
    Source(&'a str),
    Arena(&'b str),
}

impl<'b, 'a: 'b> Content<'b, 'a> {
    // The value that is a string of this content.
    #[inline(always)]
    pub(crate) fn value(self) -> Json<'b, 'a>
        ensures { json_view result ≡ string (content_bytes self.entry) }
    {
        match self {
            Content::Source(text) => Json::Str(text),
            Content::Arena(text) => Json::Made(text),
        }
    }

    // The name that has this content.
    #[inline(always)]
    pub(crate) fn name(self) -> &'b str
        ensures { result.now ≡ content_bytes self.entry }
    {
        match self {
            Content::Source(text) => text,
            Content::Arena(text) => text,
        }
    }
}

// What a letter after a backslash stands for.
#[tactic(auto, unfolding(json_spell::specs::Text::short_escape))]
fn short_escape(letter: u8) -> Option<char>
    ensures { result ≡ short_escape letter }
{
    match letter {
        b'"' => Some('"'),
        b'\\' => Some('\\'),
        b'/' => Some('/'),
        b'b' => Some('\u{8}'),
        b'f' => Some('\u{c}'),
        b'n' => Some('\n'),
        b'r' => Some('\r'),
        b't' => Some('\t'),
        _ => None,
    }
}

// The number that two hexadecimal digits spell.
fn two_digits(a: u8, b: u8) -> Option<u32>
    ensures number { result ≡ cond (is_digit a 16 && is_digit b 16) (Some (digit_value a * 16 + digit_value b)) None }
    ensures small { IfSome result (λ number. number < 256) }
{
    let a = char::from(a).to_digit(16)?;
    let b = char::from(b).to_digit(16)?;
    Some(a * 16 + b)
}

// The number that four hexadecimal digits spell.
#[tactic(auto, unfolding(json_spell::specs::Text::code_unit))]
fn code_unit(a: u8, b: u8, c: u8, d: u8) -> Option<u32>
    ensures unit { result ≡ code_unit a b c d }
    ensures small { IfSome result (λ unit. unit < 2 ^ 16) }
{
    let high = two_digits(a, b)?;
    let low = two_digits(c, d)?;
    Some(high * 256 + low)
}

// The character of a surrogate pair, after its high surrogate.
#[tactic(auto, unfolding(json_spell::specs::Reading::low_half))]
fn low_half(high: u32, bytes: &[u8]) -> Option<(char, &[u8])>
    requires { IsTrue (is_high_surrogate high) }
    ensures read { option_map (λ p. (p.0, p.1.now)) result ≡ low_half high bytes.now }
    ensures shorter { IfSome result (λ p. length p.1.now ≤ length bytes.now) }
{
    let [b'\\', b'u', e, f, g, h, rest @ ..] = bytes else {
        return None;
    };
    let low = code_unit(*e, *f, *g, *h)?;
    if !(0xDC00..=0xDFFF).contains(&low) {
        return None;
    }
    let character = char::from_u32(0x10000 + (high - 0xD800) * 0x400 + (low - 0xDC00))?;
    Some((character, rest))
}

// The character of an escape, after `\u`.
#[tactic(auto, unfolding(json_spell::specs::Reading::unicode_at))]
fn read_unicode(bytes: &[u8]) -> Option<(char, &[u8])>
    ensures read { option_map (λ p. (p.0, p.1.now)) result ≡ unicode_at bytes.now }
    ensures shorter { IfSome result (λ p. length p.1.now ≤ length bytes.now) }
{
    let [a, b, c, d, rest @ ..] = bytes else {
        return None;
    };
    let unit = code_unit(*a, *b, *c, *d)?;
    if (0xD800..=0xDBFF).contains(&unit) {
        return low_half(unit, rest);
    }
    let character = char::from_u32(unit)?;
    Some((character, rest))
}

// The character of an escape, after its backslash.
#[tactic(auto, unfolding(json_spell::specs::Reading::escape_at))]
fn read_escape(bytes: &[u8]) -> Option<(char, &[u8])>
    ensures read { option_map (λ p. (p.0, p.1.now)) result ≡ escape_at bytes.now }
    ensures shorter { IfSome result (λ p. length p.1.now ≤ length bytes.now) }
{
    match bytes {
        [b'u', rest @ ..] => read_unicode(rest),
        [letter, rest @ ..] => {
            let character = short_escape(*letter)?;
            Some((character, rest))
        }
        [] => None,
    }
}

// Puts the bytes up to the next quotation mark, backslash or control character to the content, and gives what follows.
fn push_run<'b, 'a>(content: &mut String<&'b Bump>, bytes: &'a [u8]) -> Result<&'a [u8], JsonFault>
    ensures read { Parses (λ rest. rest.now) result (run_at bytes.now) }
    ensures pushed { IfOk result (λ rest. string_bytes content.new ≡ string_bytes content.old ++ before rest.now bytes.now) }
    ensures no_longer { IfOk result (λ rest. length rest.now ≤ length bytes.now) }
{
    let rest = skip_unescaped(bytes);
    let Some(run) = utf8(before(bytes, rest)) else {
        return Err(JsonFault::NotJson);
    };
    content.push_str(run)?;
    Ok(rest)
}

// The content of a string after its opening quotation mark, copied, and what follows the closing one.
#[tactic(auto, using(json_spell::proofs::ContentSteps::content_steps))]
fn read_content<'b, 'a>(arena: &'b Bump, bytes: &'a [u8]) -> Result<(&'b str, &'a [u8]), JsonFault>
    ensures read { Parses (λ p. (p.0.now, p.1.now)) result (content_at bytes.now) }
    ensures no_longer { IfOk result (λ p. length p.1.now ≤ length bytes.now) }
{
    let mut content = String::new(arena);
    let mut left = bytes;
    loop {
        let rest = push_run(&mut content, left)?;
        let Some((byte, rest)) = next(rest) else {
            return Err(JsonFault::NotJson);
        };
        if byte == b'"' {
            return Ok((into_bump_str(content), rest));
        }
        if byte != b'\\' {
            return Err(JsonFault::NotJson);
        }
        let Some((character, rest)) = read_escape(rest) else {
            return Err(JsonFault::NotJson);
        };
        content.push(character)?;
        left = rest;
    }
}

// The content of a string after its opening quotation mark, where it is ASCII and has no escape, and what follows the
// closing one. Most strings are so: this is tried first, and any other string is read as below.
#[inline(always)]
pub(crate) fn read_plain<'a>(bytes: &'a [u8]) -> Option<(&'a str, &'a [u8])>
    ensures read { IfSome result (λ p. content_at bytes.now ≡ Some (p.0.now, p.1.now)) }
    ensures no_longer { IfSome result (λ p. length p.1.now ≤ length bytes.now) }
{
    let end = skip_plain(bytes);
    let rest = after_byte(end, b'"')?;
    Some((text_of(before(bytes, end)), rest))
}

// The content of any string after its opening quotation mark, and what follows the closing one. It is copied only where
// the string has an escape.
#[inline(never)]
pub(crate) fn read_any_string<'b, 'a>(
    arena: &'b Bump,
    bytes: &'a [u8],
) -> Result<(Content<'b, 'a>, &'a [u8]), JsonFault>
    ensures read { Parses (λ p. (content_bytes p.0, p.1.now)) result (content_at bytes.now) }
    ensures no_longer { IfOk result (λ p. length p.1.now ≤ length bytes.now) }
{
    let end = skip_unescaped(bytes);
    if let Some(rest) = after_byte(end, b'"') {
        let Some(run) = utf8(before(bytes, end)) else {
            return Err(JsonFault::NotJson);
        };
        return Ok((Content::Source(run), rest));
    }
    let (content, rest) = read_content(arena, bytes)?;
    Ok((Content::Arena(content), rest))
}
