// Steps over the bytes of a string that are ASCII and stand for themselves, sixteen at a time.

ghost use Rattle.std.specs.Prelude.{◌≡◌, ◌≤◌, length, map, take};
ghost use Rattle.std.specs.{List.prefix_len, Simd.Lanes.mask_l};
ghost use Rattle.json_spell.specs.{Reading.skip, Runs.is_stop, Runs.is_plain};

use crate::bytes::past;
use std::simd::prelude::*;

// How many bytes are looked at together.
const LANES: usize = 16;

fn is_stop(byte: u8) -> bool
    ensures { result ≡ is_stop byte }
{
    byte == b'"' || byte == b'\\' || byte < b' ' || 0x7F < byte
}

// The lanes at which a run stops, each as a bit.
#[inline(always)]
fn stops(lanes: u8x16) -> u64
    ensures { result ≡ mask_l (map is_stop lanes) }
{
    let marks = lanes.simd_eq(u8x16::splat(b'"')) | lanes.simd_eq(u8x16::splat(b'\\'));
    let others = lanes.simd_lt(u8x16::splat(b' ')) | u8x16::splat(0x7F).simd_lt(lanes);
    (marks | others).to_bitmask()
}

// How many of the first sixteen bytes come before a stop.
#[inline(always)]
fn plain_lanes(bytes: &[u8]) -> usize
    requires { 16 ≤ length bytes.now }
    ensures { result ≡ prefix_len is_plain (take 16 bytes.now) }
{
    let found = stops(u8x16::from_slice(bytes));
    if found == 0 {
        LANES
    } else {
        found.trailing_zeros() as usize
    }
}

// The same as below, a byte at a time.
#[inline(never)]
fn skip_plain_slowly(bytes: &[u8]) -> &[u8]
    ensures rest { result.now ≡ skip is_plain bytes.now }
    ensures no_longer { length result.now ≤ length bytes.now }
{
    let mut left = bytes;
    while let [byte, rest @ ..] = left {
        if is_stop(*byte) {
            return left;
        }
        left = rest;
    }
    left
}

// What follows the bytes of a string that are ASCII and stand for themselves.
#[inline(always)]
pub(crate) fn skip_plain(bytes: &[u8]) -> &[u8]
    ensures rest { result.now ≡ skip is_plain bytes.now }
    ensures no_longer { length result.now ≤ length bytes.now }
{
    let mut left = bytes;
    while left.len() >= LANES {
        let passed = plain_lanes(left);
        left = past(left, passed);
        if passed < LANES {
            return left;
        }
    }
    skip_plain_slowly(left)
}
