// How much of two texts is the same, in a few long stretches: by their bytes, whatever they stand for. It is a hint, and no part of what is read.

ghost use Rattle.std.specs.Prelude.{◌≤◌, length, IfSome};

use json_reader::past;
use std::simd::prelude::*;

// How many bytes are compared together.
const BLOCK: usize = 64;

// How many bytes are looked for together.
const LANES: usize = 16;

// Up to how many places where the texts differ are looked for.
const PLACES: usize = 8;

// How far behind such a place both texts may go on alike: what is looked for stands so many bytes further.
const NEAR: usize = 128;

const FAR: usize = 1024;

// How many bytes around such a place count as other ones.
const AROUND: usize = 512;

// What is left of two texts.
#[derive(Clone, Copy)]
struct Left<'a> {
    old: &'a [u8],
    new: &'a [u8],
}

// Whether the first bytes of both are the same.
#[inline(always)]
fn begin_alike(old: &[u8], new: &[u8]) -> bool
    requires old { 64 ≤ length old.now }
    requires new { 64 ≤ length new.now }
{
    let others = u8x64::from_slice(old).simd_ne(u8x64::from_slice(new));
    others.to_bitmask() == 0
}

// What follows the blocks that both texts have in front.
fn past_front<'a>(texts: Left<'a>) -> Left<'a>
    ensures { length result.new.now ≤ length texts.entry.new.now }
{
    let mut old = texts.old;
    let mut new = texts.new;
    while old.len() >= BLOCK && new.len() >= BLOCK {
        if !begin_alike(old, new) {
            break;
        }
        old = old.split_at(BLOCK).1;
        new = new.split_at(BLOCK).1;
    }
    Left { old, new }
}

// What stands before the blocks that both texts end with.
fn before_back<'a>(texts: Left<'a>) -> Left<'a>
    ensures { length result.new.now ≤ length texts.entry.new.now }
{
    let mut old = texts.old;
    let mut new = texts.new;
    while old.len() >= BLOCK && new.len() >= BLOCK {
        let (old_front, old_back) = old.split_at(old.len() - BLOCK);
        let (new_front, new_back) = new.split_at(new.len() - BLOCK);
        if !begin_alike(old_back, new_back) {
            break;
        }
        old = old_front;
        new = new_front;
    }
    Left { old, new }
}

// The bytes from where those of the part, sixteen or more, stand first.
fn from_part<'a>(bytes: &'a [u8], part: &[u8]) -> Option<&'a [u8]>
    requires { 16 ≤ length part.now }
    ensures { IfSome result (λ found. length found.now ≤ length bytes.now) }
{
    let wanted = u8x16::from_slice(part);
    let mut left = bytes;
    while left.len() >= LANES {
        let others = wanted.simd_ne(u8x16::from_slice(left)).to_bitmask();
        if others == 0 && left.starts_with(part) {
            return Some(left);
        }
        left = past(left, 1);
    }
    None
}

// Where both texts go on alike, at so many bytes or somewhat more of the second one.
fn again_at<'a>(texts: Left<'a>, ahead: usize) -> Option<Left<'a>> {
    let new = texts.new.get(ahead..)?;
    let part = new.get(..BLOCK)?;
    let reach = texts.old.len().min(ahead.saturating_add(FAR));
    let old = from_part(texts.old.get(..reach)?, part)?;
    let passed = reach - old.len();
    let old = texts.old.get(passed..)?;
    Some(Left { old, new })
}

// Where both texts go on alike.
fn again<'a>(texts: Left<'a>) -> Option<Left<'a>> {
    if let Some(left) = again_at(texts, NEAR) {
        return Some(left);
    }
    again_at(texts, FAR)
}

// How many bytes of both texts are in long stretches that both have, less some for each place where they differ.
pub(crate) fn shared_bytes(old: &[u8], new: &[u8]) -> usize {
    let mut left = before_back(Left { old, new });
    let mut shared = new.len() - left.new.len();
    for _ in 0..PLACES {
        let behind = past_front(left);
        let passed = left.new.len() - behind.new.len();
        shared = shared.saturating_add(passed);
        let Some(next) = again(behind) else {
            return shared;
        };
        shared = shared.saturating_sub(AROUND);
        left = next;
    }
    shared
}
