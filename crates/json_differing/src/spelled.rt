// Reads the members of an object with the texts of their values, beside the members of another object that may be spelled the same.

ghost use Rattle.std.specs.Prelude.{All, ◌≡◌, ◌<◌, ◌≤◌, ℕ, length, map, get_or, Some, IfSome, IfOk};
ghost use Rattle.json_spell.specs.Tree.{no_pairs};
ghost use Rattle.json_differing.specs.Spelled.{HasTwin, IsAt, IsKnown, SpelledNests, spelled_view, tree_of};
ghost use Rattle.json_spell.specs.Reading.{list_by, member_by, members_at, spaced, value_at};
ghost use Rattle.json_spell.specs.{Nesting.MembersNest, Nesting.Nests, View.pairs_of};

use crate::known::after_known;
use bumpalo::Bump;
use bumpalo::collections::into_bump_slice;
use json_reader::{after_byte, after_part, before, read_key, read_value, skip_ws};
use json_spell::JsonFault;

// How many members of the other object are looked at for one of the same name.
const WINDOW: usize = 8;

// A changed member of so many bytes is never too large.
const SMALL: usize = 4096;

// How many members there is room for at first.
pub(crate) const ROOM: usize = 16;

// A member of an object with the text of its value, whether this is known to be in brackets, and the index of the member of another object
// that is the same, if it was found.
#[derive(Clone, Copy)]
pub(crate) struct Spelled<'b, 'a> {
    pub(crate) key: &'b str,
    pub(crate) text: &'a [u8],
    pub(crate) closed: bool,
    pub(crate) twin: Option<usize>,
}

// The text of a value that is that of the member at the index of another object, and what follows it.
#[derive(Clone, Copy)]
struct Twin<'a> {
    index: usize,
    text: &'a [u8],
    rest: &'a [u8],
}

// Where the search for the twin of the next member begins, and how many bytes members without one may have yet.
#[derive(Clone, Copy)]
struct Search {
    first: usize,
    most: usize,
}

// The index of a member with the name, of the first few from an index on.
fn index_of(known: &[Spelled<'_, '_>], first: usize, key: &str) -> Option<usize>
    ensures { IfSome result (λ index. (index < length known.now) × ((other : Spelled) → (get_or known.now index other).key.now ≡ key.now)) }
{
    let end = known.len().min(first.saturating_add(WINDOW));
    for index in first..end {
        if known[index].key == key {
            return Some(index);
        }
    }
    None
}

// What follows a value with white space around it that is spelled as that of the member.
fn after_spelled<'a>(bytes: &'a [u8], spelled: &Spelled<'_, '_>) -> Option<&'a [u8]>
    ensures read { IsKnown spelled.now → IfSome result (λ rest. spaced value_at bytes.now ≡ Some ((spelled_view spelled.now).1, rest.now)) }
    ensures no_longer { IfSome result (λ rest. length rest.now ≤ length bytes.now) }
{
    if !spelled.closed {
        return None;
    }
    after_known(bytes, spelled.text)
}

// The value in front of the bytes with white space around it, where a member of the name near the index is spelled so.
fn twin_of<'a>(
    known: &[Spelled<'_, 'a>],
    first: usize,
    key: &str,
    bytes: &'a [u8],
) -> Option<Twin<'a>>
    ensures read { All IsKnown known.now → IfSome result (λ twin. spaced value_at bytes.now ≡ Some (tree_of twin.text.now, twin.rest.now)) }
    ensures there { IfSome result (λ twin. IsAt known.now (key.now, tree_of twin.text.now) twin.index) }
    ensures no_longer { IfSome result (λ twin. length twin.rest.now ≤ length bytes.now) }
    ensures nests { (n : ℕ) → All (SpelledNests n) known.now → IfSome result (λ twin. Nests n (tree_of twin.text.now)) }
{
    let index = index_of(known, first, key)?;
    let spelled = known[index];
    let rest = after_spelled(bytes, &spelled)?;
    Some(Twin {
        index,
        text: spelled.text,
        rest,
    })
}

// The text of a value with white space around it, and what follows it.
pub(crate) fn text_of_value<'b, 'a: 'b>(
    arena: &'b Bump,
    levels: usize,
    bytes: &'a [u8],
) -> Result<(&'a [u8], &'a [u8]), JsonFault>
    ensures read { IfOk result (λ p. spaced value_at bytes.now ≡ Some (tree_of p.0.now, p.1.now)) }
    ensures no_longer { IfOk result (λ p. length p.1.now ≤ length bytes.now) }
    ensures nests { IfOk result (λ p. Nests levels (tree_of p.0.now)) }
{
    let start = skip_ws(bytes);
    let (_value, end) = read_value(arena, levels, start)?;
    let text = before(start, end);
    Ok((text, skip_ws(end)))
}

// Whether the member of the name near the index has more bytes than may change.
fn is_large(known: &[Spelled<'_, '_>], search: Search, key: &str) -> bool {
    match index_of(known, search.first, key) {
        Some(index) => known[index].text.len() > search.most,
        None => false,
    }
}

// A member of an object. One that is the same is looked for among those of the other object. Where too much would change it isn't read:
// to map both objects whole costs less.
fn read_spelled_member<'b, 'a: 'b>(
    arena: &'b Bump,
    levels: usize,
    bytes: &'a [u8],
    known: &[Spelled<'b, 'a>],
    search: Search,
) -> Result<(Spelled<'b, 'a>, &'a [u8]), JsonFault>
    ensures read { All IsKnown known.now → IfOk result (λ p. member_by value_at bytes.now ≡ Some (spelled_view p.0, p.1.now)) }
    ensures twin { IfOk result (λ p. HasTwin known.now p.0) }
    ensures no_longer { IfOk result (λ p. length p.1.now ≤ length bytes.now) }
    ensures nests { All (SpelledNests levels) known.now → IfOk result (λ p. SpelledNests levels p.0) }
{
    let (key, rest) = read_key(arena, bytes)?;
    if let Some(found) = twin_of(known, search.first, key, rest) {
        let Twin { index, text, rest } = found;
        let spelled = Spelled {
            key,
            text,
            closed: false,
            twin: Some(index),
        };
        return Ok((spelled, rest));
    }
    if is_large(known, search, key) {
        return Err(JsonFault::NotJson);
    }
    let (text, rest) = text_of_value(arena, levels, rest)?;
    let spelled = Spelled {
        key,
        text,
        closed: false,
        twin: None,
    };
    Ok((spelled, rest))
}

// The search for the twin of the next member: it begins behind the twin of this one.
fn behind(search: Search, spelled: &Spelled<'_, '_>) -> Search {
    match spelled.twin {
        Some(index) => Search {
            first: index.saturating_add(1),
            ..search
        },
        None => Search {
            most: search.most.saturating_sub(spelled.text.len()),
            ..search
        },
    }
}

// Whether the member has the name of the last one before it.
pub(crate) fn repeats(members: &[Spelled<'_, '_>], spelled: &Spelled<'_, '_>) -> bool {
    match members {
        [.., last] => last.key == spelled.key,
        [] => false,
    }
}

// The members of an object, after its opening brace, and what follows it. Where a name comes twice in a row, or more than half of what is left
// changes, they aren't read on: two such objects aren't read in step. A value that is spelled as that of a member of the other object
// with the same name isn't read again where that member stands near the twin of the member before.
pub(crate) fn read_spelled_members<'b, 'a: 'b>(
    arena: &'b Bump,
    levels: usize,
    bytes: &'a [u8],
    known: &[Spelled<'b, 'a>],
) -> Result<(&'b [Spelled<'b, 'a>], &'a [u8]), JsonFault>
    ensures read { All IsKnown known.now → IfOk result (λ p. list_by no_pairs 0x7D members_at bytes.now ≡ Some (pairs_of (map spelled_view p.0.now), p.1.now)) }
    ensures twins { IfOk result (λ p. All (HasTwin known.now) p.0.now) }
    ensures nests { All (SpelledNests levels) known.now → IfOk result (λ p. All (SpelledNests levels) p.0.now) }
    ensures no_longer { IfOk result (λ p. length p.1.now ≤ length bytes.now) }
{
    if let Some(rest) = after_byte(skip_ws(bytes), b'}') {
        return Ok((into_bump_slice(Vec::new(arena)), rest));
    }
    let mut members = Vec::with_capacity(arena, ROOM)?;
    let mut left = bytes;
    let mut search = Search {
        first: 0,
        most: (bytes.len() / 2).max(SMALL),
    };
    loop {
        let (member, rest) = read_spelled_member(arena, levels, left, known, search)?;
        if repeats(&members, &member) {
            return Err(JsonFault::NotJson);
        }
        search = behind(search, &member);
        members.push(member)?;
        let (more, rest) = after_part(rest, b'}')?;
        if !more {
            return Ok((into_bump_slice(members), rest));
        }
        left = rest;
    }
}
