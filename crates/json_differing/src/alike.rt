// Whether two texts have most of their members in common, told by their bytes alone. It is a hint, and no part of what is read: where it says
// no, the texts aren't read in step. So it costs little where it says so.

ghost use Rattle.std.specs.Prelude.{◌≤◌, length};

use crate::brackets::to_mark;
use crate::shared::shared_bytes;
use json_reader::{before, skip_ws};

// Where a text goes on, the part before, and how many brackets are open there. A part is a member with the comma before it, or a closing bracket.
#[derive(Clone, Copy)]
struct Place<'a> {
    left: &'a [u8],
    last: &'a [u8],
    level: usize,
}

// Two texts gone over in step: how many bytes both have, and how many one of them has alone.
#[derive(Clone, Copy)]
struct Walk<'a> {
    old: Place<'a>,
    new: Place<'a>,
    shared: usize,
    own: usize,
}

// What follows a string, after its opening quotation mark, and strings right behind it that a colon parts, or a comma where it ends no part.
#[inline(always)]
fn after_strings(bytes: &[u8], inner: bool) -> &[u8]
    ensures { length result.now ≤ length bytes.now }
{
    let mut left = to_mark(bytes);
    loop {
        match left {
            [b'"', b':', b'"', rest @ ..] => left = to_mark(rest),
            [b'"', b',', b'"', rest @ ..] if inner => left = to_mark(rest),
            [b'"', rest @ ..] => return rest,
            [_, _, rest @ ..] => left = to_mark(rest),
            _ => return &[],
        }
    }
}

// Whether a byte ends a part before it.
fn ends_part(byte: u8) -> bool {
    byte == b',' || byte == b']' || byte == b'}'
}

// Behind the next part: what ends it stands outside of strings, where no more brackets are open than so many.
fn after_part<'a>(place: Place<'a>, depth: usize) -> Place<'a> {
    let text = place.left;
    let mut left = text;
    let mut level = place.level;
    while let [byte, rest @ ..] = left {
        if level <= depth && ends_part(*byte) && left.len() < text.len() {
            break;
        }
        left = rest;
        match *byte {
            b'"' => left = after_strings(rest, level > depth),
            b'[' | b'{' => level = level.saturating_add(1),
            b']' | b'}' => level = level.saturating_sub(1),
            _ => {}
        }
    }
    let last = before(text, left);
    Place { left, last, level }
}

// Whether the part is a closing bracket.
fn closes_brackets(part: &[u8]) -> bool {
    part.starts_with(b"}") || part.starts_with(b"]")
}

// What stands before the value of a member.
fn name_of(part: &[u8]) -> Option<&[u8]> {
    let end = part.iter().position(|byte| *byte == b':')?;
    part.get(..end)
}

// Whether a member has the name of the member before it. Mostly the first bytes of both names tell.
fn repeats(last: &[u8], part: &[u8]) -> bool {
    let [_, first, second, third, ..] = last else {
        return false;
    };
    let [b',', quote, letter, next, ..] = part else {
        return false;
    };
    first == quote && second == letter && third == next && name_of(last) == name_of(part)
}

// Both texts behind a part that one of them has alone, or that is another one in each.
fn past_own<'a>(walk: Walk<'a>, gone: Place<'a>, came: Place<'a>) -> Walk<'a> {
    let ends_old = closes_brackets(gone.last) && !closes_brackets(came.last);
    let ends_new = closes_brackets(came.last) && !closes_brackets(gone.last);
    if ends_old || came.left.starts_with(gone.last) {
        let own = walk.own.saturating_add(came.last.len());
        return Walk {
            new: came,
            own,
            ..walk
        };
    }
    if ends_new || gone.left.starts_with(came.last) {
        let own = walk.own.saturating_add(gone.last.len());
        return Walk {
            old: gone,
            own,
            ..walk
        };
    }
    let own = walk
        .own
        .saturating_add(came.last.len().max(gone.last.len()));
    Walk {
        old: gone,
        new: came,
        own,
        ..walk
    }
}

// One part further, if not in both texts. None where a name comes twice in a row, with which texts aren't read in step, and where a part of the
// first text alone is too long.
fn step<'a>(walk: Walk<'a>, depth: usize, most: usize) -> Option<Walk<'a>> {
    let gone = after_part(walk.old, depth);
    if repeats(walk.old.last, gone.last) {
        return None;
    }
    if walk.new.level == walk.old.level {
        if let Some(left) = walk.new.left.strip_prefix(gone.last) {
            let shared = walk.shared.saturating_add(gone.last.len());
            let new = Place { left, ..gone };
            return Some(Walk {
                old: gone,
                new,
                shared,
                ..walk
            });
        }
    }
    if gone.last.len() > most {
        return None;
    }
    let came = after_part(walk.new, depth);
    if repeats(walk.new.last, came.last) {
        return None;
    }
    Some(past_own(walk, gone, came))
}

// Whether half of the bytes of each text are in a few long stretches that both have.
fn stretch_alike(old: &[u8], new: &[u8]) -> bool {
    let enough = old.len().max(new.len()) / 2;
    shared_bytes(old, new) > enough
}

// Whether half of the second text's bytes are in a few long stretches that the first one has, or else in parts that the first one has at the
// same place, but for a few, before a fifth of them are in others. Parts are the members of the objects that stand so many levels below the
// outermost one, and of those above them.
pub(crate) fn are_alike(depth: usize, old: &[u8], new: &[u8]) -> bool {
    if stretch_alike(old, new) {
        return true;
    }
    walk_alike(depth, old, new)
}

// The same by the parts alone.
fn walk_alike(depth: usize, old: &[u8], new: &[u8]) -> bool {
    let depth = depth.saturating_add(1);
    let most = new.len() / 5;
    let enough = new.len() / 2;
    let mut walk = Walk {
        old: start_of(old),
        new: start_of(new),
        shared: 0,
        own: 0,
    };
    for _ in 0..old.len().saturating_add(new.len()) {
        if walk.old.left.is_empty() || walk.new.left.is_empty() {
            return false;
        }
        let Some(next) = step(walk, depth, most) else {
            return false;
        };
        walk = next;
        if walk.own > most {
            return false;
        }
        if walk.shared >= enough {
            return true;
        }
    }
    false
}

// The start of a text.
fn start_of(text: &[u8]) -> Place<'_> {
    Place {
        left: skip_ws(text),
        last: &[],
        level: 0,
    }
}
