// Reads a value: RFC 8259, sections 3 to 5.

ghost use Rattle.std.specs.Prelude.{◌≡◌, ◌≤◌, ◌<◌, ℕ, suc, List, [], Option, length, map, option_map, Some, IfSome, IfOk};
ghost use Rattle.json_spell.specs.{Tree.Trees, Tree.Pairs, Tree.no_trees, Tree.no_pairs, Tree.array, Tree.object, View.json_view, View.member_view, View.trees_of, View.pairs_of};
ghost use Rattle.json_spell.specs.Reading.{ended, ending_at, read_map, spaced, content_at, key_at, list_by, name_at, member_by, literal_at, scalar_at, value_at, values_at, members_at};
ghost use Rattle.json_spell.specs.{Parses.Parses, Nesting.Nests, Nesting.AllNest, Nesting.MembersNest};

use crate::bytes::{after_byte, after_word, next, skip_ws};
use crate::number::read_number;
use crate::string::{read_any_string, read_plain};
use bumpalo::Bump;
use bumpalo::collections::into_bump_slice;
use json_spell::{Json, JsonFault, Member};

// How many members an object that has some gets room for at first: as many as most objects of a page have.
const ROOM: usize = 6;

// A literal name.
#[tactic(auto, unfolding(json_spell::specs::Reading::literal_at))]
fn read_literal<'b, 'a>(bytes: &'a [u8]) -> Option<(Json<'b, 'a>, &'a [u8])>
    ensures read { option_map (λ p. (json_view p.0, p.1.now)) result ≡ literal_at bytes.now }
    ensures no_longer { IfSome result (λ p. length p.1.now ≤ length bytes.now) }
{
    if let Some(rest) = after_word(bytes, b"null") {
        return Some((Json::Null, rest));
    }
    if let Some(rest) = after_word(bytes, b"true") {
        return Some((Json::Bool(true), rest));
    }
    let rest = after_word(bytes, b"false")?;
    Some((Json::Bool(false), rest))
}

// A literal name or a number.
#[tactic(auto, unfolding(json_spell::specs::Reading::scalar_at))]
fn read_scalar<'b, 'a>(bytes: &'a [u8]) -> Result<(Json<'b, 'a>, &'a [u8]), JsonFault>
    ensures read { Parses (λ p. (json_view p.0, p.1.now)) result (scalar_at bytes.now) }
    ensures no_longer { IfOk result (λ p. length p.1.now ≤ length bytes.now) }
{
    if let Some(literal) = read_literal(bytes) {
        return Ok(literal);
    }
    let (spelling, rest) = read_number(bytes)?;
    Ok((Json::Number(spelling), rest))
}

// A name that isn't plain, after its opening quotation mark, and the white space after it.
#[inline(always)]
fn read_other_name<'b, 'a: 'b>(
    arena: &'b Bump,
    bytes: &'a [u8],
) -> Result<(&'b str, &'a [u8]), JsonFault>
    ensures read { Parses (λ p. (p.0.now, p.1.now)) result (ended content_at bytes.now) }
    ensures no_longer { IfOk result (λ p. length p.1.now ≤ length bytes.now) }
{
    let (content, rest) = read_any_string(arena, bytes)?;
    Ok((content.name(), skip_ws(rest)))
}

/// The name at the front, with white space around it, its escapes replaced by their characters, and what follows it. `NotJson` where no
/// name stands there. A name with escapes is put into the arena; any other one is a part of the bytes.
// Rare cases have functions of their own, here and below, which are inlined.
#[inline(always)]
pub fn read_name<'b, 'a: 'b>(
    arena: &'b Bump,
    bytes: &'a [u8],
) -> Result<(&'b str, &'a [u8]), JsonFault>
    ensures read { Parses (λ p. (p.0.now, p.1.now)) result (spaced name_at bytes.now) }
    ensures no_longer { IfOk result (λ p. length p.1.now ≤ length bytes.now) }
{
    let Some(rest) = after_byte(skip_ws(bytes), b'"') else {
        return Err(JsonFault::NotJson);
    };
    match read_plain(rest) {
        Some((name, rest)) => Ok((name, skip_ws(rest))),
        None => read_other_name(arena, rest),
    }
}

/// The name of a member, with white space around it, and what follows its colon. `NotJson` where no name with a colon stands there.
#[inline(always)]
pub fn read_key<'b, 'a: 'b>(
    arena: &'b Bump,
    bytes: &'a [u8],
) -> Result<(&'b str, &'a [u8]), JsonFault>
    ensures read { Parses (λ p. (p.0.now, p.1.now)) result (key_at bytes.now) }
    ensures no_longer { IfOk result (λ p. length p.1.now ≤ length bytes.now) }
{
    let (key, rest) = read_name(arena, bytes)?;
    match after_byte(rest, b':') {
        Some(rest) => Ok((key, rest)),
        None => Err(JsonFault::NotJson),
    }
}

/// What follows a value of an array or a member of an object: whether a comma stands there, and another one follows, or else the closing
/// bracket; and what is behind it. `NotJson` where neither stands there.
#[inline(always)]
pub fn after_part(bytes: &[u8], closing: u8) -> Result<(bool, &[u8]), JsonFault>
    ensures read { Parses (λ p. (p.0, p.1.now)) result (ending_at closing bytes.now) }
    ensures no_longer { IfOk result (λ p. length p.1.now ≤ length bytes.now) }
{
    match bytes {
        [b',', rest @ ..] => Ok((true, rest)),
        [byte, rest @ ..] if *byte == closing => Ok((false, rest)),
        _ => Err(JsonFault::NotJson),
    }
}

// An array of values, where they were read, and what follows it.
#[inline(always)]
fn array_of<'b, 'a>(
    filled: Result<&'a [u8], JsonFault>,
    items: Vec<Json<'b, 'a>, &'b Bump>,
) -> Result<(Json<'b, 'a>, &'a [u8]), JsonFault>
    ensures read { (there : Option (Trees × List ℕ)) → Parses (λ rest. (trees_of (map json_view items.entry.items), rest.now)) filled.entry there → Parses (λ p. (json_view p.0, p.1.now)) result (read_map array there) }
    ensures no_longer { (few most : ℕ) → few ≤ most → IfOk filled.entry (λ rest. length rest.now ≤ few) → IfOk result (λ p. length p.1.now ≤ most) }
    ensures nests { (n : ℕ) → IfOk filled.entry (λ rest. AllNest n (trees_of (map json_view items.entry.items))) → IfOk result (λ p. Nests (suc n) (json_view p.0)) }
{
    let rest = filled?;
    Ok((Json::Items(into_bump_slice(items)), rest))
}

// An object of members, where they were read, and what follows it.
#[inline(always)]
fn object_of<'b, 'a>(
    filled: Result<&'a [u8], JsonFault>,
    members: Vec<Member<'b, 'a>, &'b Bump>,
) -> Result<(Json<'b, 'a>, &'a [u8]), JsonFault>
    ensures read { (there : Option (Pairs × List ℕ)) → Parses (λ rest. (pairs_of (map member_view members.entry.items), rest.now)) filled.entry there → Parses (λ p. (json_view p.0, p.1.now)) result (read_map object there) }
    ensures no_longer { (few most : ℕ) → few ≤ most → IfOk filled.entry (λ rest. length rest.now ≤ few) → IfOk result (λ p. length p.1.now ≤ most) }
    ensures nests { (n : ℕ) → IfOk filled.entry (λ rest. MembersNest n (pairs_of (map member_view members.entry.items))) → IfOk result (λ p. Nests (suc n) (json_view p.0)) }
{
    let rest = filled?;
    Ok((Json::Members(into_bump_slice(members)), rest))
}

// A string that is ASCII and has no escape, where one stands at the front.
#[inline(always)]
fn read_text<'b, 'a>(bytes: &'a [u8]) -> Option<(Json<'b, 'a>, &'a [u8])>
    ensures read { IfSome result (λ p. value_at bytes.now ≡ Some (json_view p.0, p.1.now)) }
    ensures no_longer { IfSome result (λ p. length p.1.now ≤ length bytes.now) }
    ensures flat { IfSome result (λ p. (n : ℕ) → Nests n (json_view p.0)) }
{
    let content = after_byte(bytes, b'"')?;
    let (text, rest) = read_plain(content)?;
    Some((Json::Str(text), rest))
}

/// The value at the front, with white space around it, and what follows it. What of it isn't a part of the bytes is put into the arena.
/// Its arrays and objects nest up to so many levels: one that opens where none is left is `Deep`. `NotJson` where no value stands there.
// Most values are strings as above, so these are tried first.
#[cycle(read)]
#[inline(always)]
pub fn read_spaced<'b, 'a: 'b>(
    arena: &'b Bump,
    levels: usize,
    bytes: &'a [u8],
) -> Result<(Json<'b, 'a>, &'a [u8]), JsonFault>
    ensures read { Parses (λ p. (json_view p.0, p.1.now)) result (spaced value_at bytes.now) }
    ensures no_longer { IfOk result (λ p. length p.1.now ≤ length bytes.now) }
    ensures nests { IfOk result (λ p. Nests levels (json_view p.0)) }
{
    let start = skip_ws(bytes);
    match read_text(start) {
        Some((text, rest)) => Ok((text, skip_ws(rest))),
        None => read_ended(arena, levels, start),
    }
}

// A value and the white space after it.
#[cycle(read)]
#[inline(always)]
fn read_ended<'b, 'a: 'b>(
    arena: &'b Bump,
    levels: usize,
    bytes: &'a [u8],
) -> Result<(Json<'b, 'a>, &'a [u8]), JsonFault>
    ensures read { Parses (λ p. (json_view p.0, p.1.now)) result (ended value_at bytes.now) }
    ensures no_longer { IfOk result (λ p. length p.1.now ≤ length bytes.now) }
    ensures nests { IfOk result (λ p. Nests levels (json_view p.0)) }
{
    let (json, rest) = read_value(arena, levels, bytes)?;
    Ok((json, skip_ws(rest)))
}

/// The same, where no white space stands before the value, and that behind it is left.
#[cycle(read)]
#[inline(never)]
pub fn read_value<'b, 'a: 'b>(
    arena: &'b Bump,
    levels: usize,
    bytes: &'a [u8],
) -> Result<(Json<'b, 'a>, &'a [u8]), JsonFault>
    ensures read { Parses (λ p. (json_view p.0, p.1.now)) result (value_at bytes.now) }
    ensures no_longer { IfOk result (λ p. length p.1.now ≤ length bytes.now) }
    ensures nests { IfOk result (λ p. Nests levels (json_view p.0)) }
{
    let Some((byte, rest)) = next(bytes) else {
        return Err(JsonFault::NotJson);
    };
    match byte {
        b'"' => {
            let (content, rest) = read_any_string(arena, rest)?;
            Ok((content.value(), rest))
        }
        b'[' => {
            if levels == 0 {
                return Err(JsonFault::Deep);
            }
            let mut items = Vec::new(arena);
            let filled = read_items(arena, levels - 1, rest, &mut items);
            array_of(filled, items)
        }
        b'{' => {
            if levels == 0 {
                return Err(JsonFault::Deep);
            }
            let mut members = Vec::new(arena);
            let filled = read_members(arena, levels - 1, rest, &mut members);
            object_of(filled, members)
        }
        _ => read_scalar(bytes),
    }
}

// Reads the values of an array, after its opening bracket, into `items`, which is empty. What follows the array.
#[cycle(read)]
fn read_items<'b, 'a: 'b>(
    arena: &'b Bump,
    levels: usize,
    bytes: &'a [u8],
    items: &mut Vec<Json<'b, 'a>, &'b Bump>,
) -> Result<&'a [u8], JsonFault>
    requires { items.old.items ≡ [] }
    ensures read { Parses (λ rest. (trees_of (map json_view items.new.items), rest.now)) result (list_by no_trees 0x5D values_at bytes.now) }
    ensures no_longer { IfOk result (λ rest. length rest.now ≤ length bytes.now) }
    ensures nests { IfOk result (λ rest. AllNest levels (trees_of (map json_view items.new.items))) }
{
    if let Some(rest) = after_byte(skip_ws(bytes), b']') {
        return Ok(rest);
    }
    let mut left = bytes;
    loop {
        let (item, rest) = read_spaced(arena, levels, left)?;
        items.push(item)?;
        let (more, rest) = after_part(rest, b']')?;
        if !more {
            return Ok(rest);
        }
        left = rest;
    }
}

// A member of an object.
#[cycle(read)]
#[inline(always)]
fn read_member<'b, 'a: 'b>(
    arena: &'b Bump,
    levels: usize,
    bytes: &'a [u8],
) -> Result<(Member<'b, 'a>, &'a [u8]), JsonFault>
    ensures read { Parses (λ p. (member_view p.0, p.1.now)) result (member_by value_at bytes.now) }
    ensures no_longer { IfOk result (λ p. length p.1.now ≤ length bytes.now) }
    ensures nests { IfOk result (λ p. Nests levels (member_view p.0).1) }
{
    let (key, rest) = read_key(arena, bytes)?;
    let (value, rest) = read_spaced(arena, levels, rest)?;
    Ok((Member { key, value }, rest))
}

// Reads the members of an object, after its opening brace, into `members`, which is empty. What follows the object.
#[cycle(read)]
fn read_members<'b, 'a: 'b>(
    arena: &'b Bump,
    levels: usize,
    bytes: &'a [u8],
    members: &mut Vec<Member<'b, 'a>, &'b Bump>,
) -> Result<&'a [u8], JsonFault>
    requires { members.old.items ≡ [] }
    ensures read { Parses (λ rest. (pairs_of (map member_view members.new.items), rest.now)) result (list_by no_pairs 0x7D members_at bytes.now) }
    ensures no_longer { IfOk result (λ rest. length rest.now ≤ length bytes.now) }
    ensures nests { IfOk result (λ rest. MembersNest levels (pairs_of (map member_view members.new.items))) }
{
    if let Some(rest) = after_byte(skip_ws(bytes), b'}') {
        return Ok(rest);
    }
    members.reserve(ROOM)?;
    let mut left = bytes;
    loop {
        let (member, rest) = read_member(arena, levels, left)?;
        members.push(member)?;
        let (more, rest) = after_part(rest, b'}')?;
        if !more {
            return Ok(rest);
        }
        left = rest;
    }
}
