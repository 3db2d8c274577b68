// Reads the names of an object's members, and steps over their values where these are in brackets. That these are values isn't told: what is
// promised holds where the object is one.

ghost use Rattle.std.specs.Prelude.{All, ◌≡◌, ◌≤◌, ℕ, IsTrue, length, map, Some, IfSome, IfOk};
ghost use Rattle.json_spell.specs.Tree.{no_pairs};
ghost use Rattle.json_differing.specs.{Readable.HasMember, Readable.HasMembers, Readable.HasValue};
ghost use Rattle.json_differing.specs.Spelled.{IsEnclosed, IsKnown, spelled_view, tree_of};
ghost use Rattle.json_spell.specs.{Reading.list_by, Reading.member_by, Reading.members_at, Reading.spaced, Reading.value_at, View.pairs_of};

use crate::brackets::past_value;
use crate::spelled::{ROOM, Spelled, repeats, text_of_value};
use bumpalo::Bump;
use bumpalo::collections::into_bump_slice;
use json_reader::{after_byte, after_part, before, read_key, skip_ws};
use json_spell::JsonFault;

// The text of a value, whether it is in brackets, and what follows it.
#[derive(Clone, Copy)]
struct Scanned<'a> {
    text: &'a [u8],
    closed: bool,
    rest: &'a [u8],
}

// The text of a value in brackets with white space around it.
fn scan_closed(bytes: &[u8]) -> Option<Scanned<'_>>
    ensures read { (levels : ℕ) → HasValue levels bytes.now → IfSome result (λ found. spaced value_at bytes.now ≡ Some (tree_of found.text.now, found.rest.now)) }
    ensures known { (levels : ℕ) → HasValue levels bytes.now → IfSome result (λ found. IsEnclosed found.text.now) }
    ensures no_longer { IfSome result (λ found. length found.rest.now ≤ length bytes.now) }
{
    let start = skip_ws(bytes);
    let end = past_value(start)?;
    let text = before(start, end);
    let rest = skip_ws(end);
    Some(Scanned {
        text,
        closed: true,
        rest,
    })
}

// The text of a value with white space around it.
fn scan_value<'b, 'a: 'b>(
    arena: &'b Bump,
    levels: usize,
    bytes: &'a [u8],
) -> Result<Scanned<'a>, JsonFault>
    ensures read { HasValue levels bytes.now → IfOk result (λ found. spaced value_at bytes.now ≡ Some (tree_of found.text.now, found.rest.now)) }
    ensures known { HasValue levels bytes.now → IfOk result (λ found. IsTrue found.closed → IsEnclosed found.text.now) }
    ensures no_longer { IfOk result (λ found. length found.rest.now ≤ length bytes.now) }
{
    if let Some(found) = scan_closed(bytes) {
        return Ok(found);
    }
    let (text, rest) = text_of_value(arena, levels, bytes)?;
    Ok(Scanned {
        text,
        closed: false,
        rest,
    })
}

// A member of an object.
#[tactic(auto, using(crate::proofs::Readables::member_has))]
fn scan_member<'b, 'a: 'b>(
    arena: &'b Bump,
    levels: usize,
    bytes: &'a [u8],
) -> Result<(Spelled<'b, 'a>, &'a [u8]), JsonFault>
    ensures read { HasMember levels bytes.now → IfOk result (λ p. member_by value_at bytes.now ≡ Some (spelled_view p.0, p.1.now)) }
    ensures known { HasMember levels bytes.now → IfOk result (λ p. IsKnown p.0) }
    ensures no_longer { IfOk result (λ p. length p.1.now ≤ length bytes.now) }
{
    let (key, value) = read_key(arena, bytes)?;
    let found = scan_value(arena, levels, value)?;
    let Scanned { text, closed, rest } = found;
    let spelled = Spelled {
        key,
        text,
        closed,
        twin: None,
    };
    Ok((spelled, rest))
}

// The members of an object, after its opening brace, and what follows it. Where a name comes twice in a row they aren't gone over further:
// two such objects aren't read in step.
pub(crate) fn scan_members<'b, 'a: 'b>(
    arena: &'b Bump,
    levels: usize,
    bytes: &'a [u8],
) -> Result<(&'b [Spelled<'b, 'a>], &'a [u8]), JsonFault>
    ensures read { HasMembers levels bytes.now → IfOk result (λ p. list_by no_pairs 0x7D members_at bytes.now ≡ Some (pairs_of (map spelled_view p.0.now), p.1.now)) }
    ensures known { HasMembers levels bytes.now → IfOk result (λ p. All IsKnown p.0.now) }
    ensures no_longer { IfOk result (λ p. length p.1.now ≤ length bytes.now) }
{
    if let Some(rest) = after_byte(skip_ws(bytes), b'}') {
        return Ok((into_bump_slice(Vec::new(arena)), rest));
    }
    let mut members = Vec::with_capacity(arena, ROOM)?;
    let mut left = bytes;
    loop {
        let (member, rest) = scan_member(arena, levels, left)?;
        if repeats(&members, &member) {
            return Err(JsonFault::NotJson);
        }
        members.push(member)?;
        let (more, rest) = after_part(rest, b'}')?;
        if !more {
            return Ok((into_bump_slice(members), rest));
        }
        left = rest;
    }
}
