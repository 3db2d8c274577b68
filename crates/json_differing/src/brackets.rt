// Steps over a value in brackets without reading it: from bracket to bracket, and over each string at once.

ghost use Rattle.std.specs.Prelude.{◌≡◌, ◌≤◌, ℕ, List, length, map, take, true, Some, IfSome};
ghost use Rattle.std.specs.{List.prefix_len, Simd.Lanes.mask_l};
ghost use Rattle.json_spell.specs.declared.deep.Position.TheVariants.{Outside, Inside};
ghost use Rattle.json_spell.specs.Closed.{ends_itself};
ghost use Rattle.json_differing.specs.{Brackets.is_inner, Brackets.is_mark, Brackets.parts_strings, Brackets.past_from};
ghost use Rattle.json_spell.specs.{Nesting.Nests, Reading.skip, Reading.value_at, Tree.Tree};

use json_reader::{LEVELS, after_byte, next, past};
use json_spell::is_opening;
use std::simd::prelude::*;

// How many bytes are looked at together.
const LANES: usize = 16;

fn is_mark(byte: u8) -> bool
    ensures { result ≡ is_mark byte }
{
    byte == b'"' || byte == b'\\'
}

// The lanes that are quotation marks or backslashes, each as a bit.
#[inline(always)]
fn marks(lanes: u8x16) -> u64
    ensures { result ≡ mask_l (map is_mark lanes) }
{
    let found = lanes.simd_eq(u8x16::splat(b'"')) | lanes.simd_eq(u8x16::splat(b'\\'));
    found.to_bitmask()
}

// How many of the first sixteen bytes come before one of these.
#[inline(always)]
fn inner_lanes(bytes: &[u8]) -> usize
    requires { 16 ≤ length bytes.now }
    ensures { result ≡ prefix_len is_inner (take 16 bytes.now) }
{
    let found = marks(u8x16::from_slice(bytes));
    if found == 0 {
        LANES
    } else {
        found.trailing_zeros() as usize
    }
}

// The same as below, a byte at a time.
#[inline(never)]
fn to_mark_slowly(bytes: &[u8]) -> &[u8]
    ensures rest { result.now ≡ skip is_inner bytes.now }
    ensures no_longer { length result.now ≤ length bytes.now }
{
    let mut left = bytes;
    while let [byte, rest @ ..] = left {
        if is_mark(*byte) {
            return left;
        }
        left = rest;
    }
    left
}

// The bytes from the first quotation mark or backslash on.
#[inline(always)]
pub(crate) fn to_mark(bytes: &[u8]) -> &[u8]
    ensures rest { result.now ≡ skip is_inner bytes.now }
    ensures no_longer { length result.now ≤ length bytes.now }
{
    let mut left = bytes;
    while left.len() >= LANES {
        let passed = inner_lanes(left);
        left = past(left, passed);
        if passed < LANES {
            return left;
        }
    }
    to_mark_slowly(left)
}

// Whether the byte may stand between two strings.
#[inline(always)]
fn parts_strings(byte: u8) -> bool
    ensures { result ≡ parts_strings byte }
{
    byte == b':' || byte == b','
}

// What follows the opening quotation mark of a string right behind another one, after a colon or a comma.
#[inline(always)]
fn into_next_string(bytes: &[u8]) -> Option<&[u8]>
    ensures rest { IfSome result (λ rest. (opened : ℕ) → past_from Outside opened bytes.now ≡ past_from Inside opened rest.now) }
    ensures no_longer { IfSome result (λ rest. length rest.now ≤ length bytes.now) }
{
    let (byte, rest) = next(bytes)?;
    if !parts_strings(byte) {
        return None;
    }
    let inside = after_byte(rest, b'"')?;
    Some(inside)
}

// What follows a string, after its opening quotation mark, and after strings right behind it.
#[inline(always)]
fn past_string(bytes: &[u8]) -> Option<&[u8]>
    ensures rest { IfSome result (λ rest. (opened : ℕ) → past_from Inside opened bytes.now ≡ past_from Outside opened rest.now) }
    ensures no_longer { IfSome result (λ rest. length rest.now ≤ length bytes.now) }
{
    let mut left = to_mark(bytes);
    loop {
        let (mark, rest) = next(left)?;
        if mark == b'"' {
            let Some(inside) = into_next_string(rest) else {
                return Some(rest);
            };
            left = to_mark(inside);
        } else {
            if mark != b'\\' {
                return None;
            }
            let (_escaped, inside) = next(rest)?;
            left = to_mark(inside);
        }
    }
}

// What follows the bracket that closes one that is open. None where more are open than a value may nest.
#[tactic(auto, unfolding(crate::specs::Brackets::past_from))]
fn past_brackets(bytes: &[u8]) -> Option<&[u8]>
    ensures rest { IfSome result (λ rest. past_from Outside 1 bytes.now ≡ Some rest.now) }
    ensures no_longer { IfSome result (λ rest. length rest.now ≤ length bytes.now) }
{
    let mut left = bytes;
    let mut opened = 1usize;
    while let [byte, rest @ ..] = left {
        left = rest;
        match *byte {
            b'"' => left = past_string(rest)?,
            b'[' | b'{' => {
                if opened >= LEVELS {
                    return None;
                }
                opened += 1;
            }
            b']' | b'}' => {
                if opened == 1 {
                    return Some(rest);
                }
                opened -= 1;
            }
            _ => {}
        }
    }
    None
}

// What follows a value in brackets, where one stands at the front. Whether it is a value isn't told.
pub(crate) fn past_value(bytes: &[u8]) -> Option<&[u8]>
    ensures rest { IfSome result (λ rest. (n : ℕ) (t : Tree) (r : List ℕ) → Nests n t → value_at bytes.now ≡ Some (t, r) → (rest.now ≡ r) × (ends_itself t ≡ true)) }
    ensures no_longer { IfSome result (λ rest. length rest.now ≤ length bytes.now) }
{
    let (byte, rest) = next(bytes)?;
    if !is_opening(byte) {
        return None;
    }
    let end = past_brackets(rest)?;
    Some(end)
}
