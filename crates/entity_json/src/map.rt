// The maps of a page: the members of an object, each key once, with its last value and at that place.

ghost use Rattle.std.specs.Prelude.{◌≡◌, map, IfOk, reverse};
ghost use Rattle.json_spell.specs.View.{json_view, member_view, pairs_of};
ghost use Rattle.entity_json.specs.{Found.found_entries, Finds.FindsBy};
ghost use Rattle.entity_json.specs.Maps.{has_key, has_other_key, lasts, map_of, map_at, only_of};

use crate::part::PartFault;
use base::OutOfMemory;
use json_spell::{Json, Member};
use std::alloc::Global;
use std::collections::BTreeSet;

// Whether some member has the key.
pub fn has_key(members: &[Member<'_, '_>], key: &str) -> bool
    ensures { result ≡ has_key key.now (pairs_of (map member_view members.now)) }
{
    let mut left = members;
    while let [member, rest @ ..] = left {
        if member.key == key {
            return true;
        }
        left = rest;
    }
    false
}

// Whether some member has another key.
fn has_other_key(members: &[Member<'_, '_>], key: &str) -> bool
    ensures { result ≡ has_other_key key.now (pairs_of (map member_view members.now)) }
{
    let mut left = members;
    while let [member, rest @ ..] = left {
        if member.key != key {
            return true;
        }
        left = rest;
    }
    false
}

// The key of a member.
fn key_of<'b>(member: &Member<'b, '_>) -> &'b str
    ensures { result.now ≡ member.now.key.now }
{
    member.key
}

// For each member, whether it is the last one of its key. The flags are in reverse order, so that they can be popped.
pub fn last_flags(alloc: Global, members: &[Member<'_, '_>]) -> Result<Vec<bool>, OutOfMemory>
    ensures { IfOk result (λ flags. reverse flags.items ≡ lasts (pairs_of (map member_view members.now))) }
{
    let mut seen = BTreeSet::new(alloc);
    let mut flags = Vec::new(alloc);
    let mut rest = members;
    while let [before @ .., member] = rest {
        flags.push(seen.insert(key_of(member))?)?;
        rest = before;
    }
    Ok(flags)
}

// The members of a map; an empty array is the empty map.
fn map_of<'m, 'b, 'a>(json: &'m Json<'b, 'a>) -> Result<Option<&'m [Member<'b, 'a>]>, PartFault>
    ensures { FindsBy found_entries result (map_of (Some (json_view json.now))) }
{
    match json {
        Json::Members(members) => Ok(Some(members)),
        Json::Items(items) => match items {
            [] => Ok(None),
            [_, ..] => Err(PartFault::Shape),
        },
        _ => Err(PartFault::Shape),
    }
}

// The members of the map with the name, which may be missing.
pub fn map_at<'m, 'b, 'a>(
    json: &'m Json<'b, 'a>,
    name: &str,
) -> Result<Option<&'m [Member<'b, 'a>]>, PartFault>
    ensures { FindsBy found_entries result (map_at name.now (json_view json.now)) }
{
    match json.get(name) {
        None => Ok(None),
        Some(value) => map_of(value),
    }
}

// The value of an object's only key.
pub fn only_of<'m, 'b, 'a>(json: &'m Json<'b, 'a>) -> Result<&'m Json<'b, 'a>, PartFault>
    ensures { FindsBy (λ value. json_view value.now) result (only_of (json_view json.now)) }
{
    let Json::Members(members) = json else {
        return Err(PartFault::Shape);
    };
    let Some((last, before)) = members.split_last() else {
        return Err(PartFault::Shape);
    };
    if has_other_key(before, last.key) {
        return Err(PartFault::Shape);
    }
    Ok(&last.value)
}
