// Reads a number: RFC 8259, section 6.

ghost use Rattle.std.specs.Prelude.{◌≡◌, ◌≤◌, length, option_map, IfSome, IfOk};
ghost use Rattle.json_spell.specs.Number.{is_minus, is_sign};
ghost use Rattle.json_spell.specs.Reading.{skip_one, after_digits, after_int, after_frac, after_exp, after_number, number_at};
ghost use Rattle.json_spell.specs.Parses.{Parses};

use crate::bytes::{before, skip_digits, text_of};
use json_spell::JsonFault;

fn after_minus(bytes: &[u8]) -> &[u8]
    ensures rest { result.now ≡ skip_one is_minus bytes.now }
    ensures no_longer { length result.now ≤ length bytes.now }
{
    match bytes {
        [b'-', rest @ ..] => rest,
        _ => bytes,
    }
}

fn after_sign(bytes: &[u8]) -> &[u8]
    ensures rest { result.now ≡ skip_one is_sign bytes.now }
    ensures no_longer { length result.now ≤ length bytes.now }
{
    match bytes {
        [b'-' | b'+', rest @ ..] => rest,
        _ => bytes,
    }
}

fn after_digits(bytes: &[u8]) -> Option<&[u8]>
    ensures rest { option_map (λ rest. rest.now) result ≡ after_digits bytes.now }
    ensures no_longer { IfSome result (λ rest. length rest.now ≤ length bytes.now) }
{
    match bytes {
        [digit, rest @ ..] if digit.is_ascii_digit() => Some(skip_digits(rest)),
        _ => None,
    }
}

fn after_int(bytes: &[u8]) -> Option<&[u8]>
    ensures rest { option_map (λ rest. rest.now) result ≡ after_int bytes.now }
    ensures no_longer { IfSome result (λ rest. length rest.now ≤ length bytes.now) }
{
    match bytes {
        [b'0', rest @ ..] => Some(rest),
        [b'1'..=b'9', rest @ ..] => Some(skip_digits(rest)),
        _ => None,
    }
}

fn after_frac(bytes: &[u8]) -> Option<&[u8]>
    ensures rest { option_map (λ rest. rest.now) result ≡ after_frac bytes.now }
    ensures no_longer { IfSome result (λ rest. length rest.now ≤ length bytes.now) }
{
    match bytes {
        [b'.', rest @ ..] => after_digits(rest),
        _ => Some(bytes),
    }
}

fn after_exp(bytes: &[u8]) -> Option<&[u8]>
    ensures rest { option_map (λ rest. rest.now) result ≡ after_exp bytes.now }
    ensures no_longer { IfSome result (λ rest. length rest.now ≤ length bytes.now) }
{
    match bytes {
        [b'e' | b'E', rest @ ..] => after_digits(after_sign(rest)),
        _ => Some(bytes),
    }
}

#[tactic(auto, unfolding(json_spell::specs::Reading::after_number))]
fn after_number(bytes: &[u8]) -> Option<&[u8]>
    ensures rest { option_map (λ rest. rest.now) result ≡ after_number bytes.now }
    ensures no_longer { IfSome result (λ rest. length rest.now ≤ length bytes.now) }
{
    let int = after_int(after_minus(bytes))?;
    let frac = after_frac(int)?;
    after_exp(frac)
}

// The number at the front, as it is spelled, and what follows it. Its bytes are ASCII.
#[tactic(auto, unfolding(json_spell::specs::Reading::number_at))]
pub(crate) fn read_number<'a>(bytes: &'a [u8]) -> Result<(&'a str, &'a [u8]), JsonFault>
    ensures read { Parses (λ p. (p.0.now, p.1.now)) result (number_at bytes.now) }
    ensures no_longer { IfOk result (λ p. length p.1.now ≤ length bytes.now) }
{
    let Some(rest) = after_number(bytes) else {
        return Err(JsonFault::NotJson);
    };
    let spelling = text_of(before(bytes, rest));
    Ok((spelling, rest))
}
