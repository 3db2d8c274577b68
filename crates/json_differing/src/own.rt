// The members that each of two objects has of its own.

ghost use Rattle.std.specs.Prelude.{All, ◌≡◌, ◌<◌, ◌≤◌, true, length, map, take, Some, IfSome, IfOk, OnOk};
ghost use Rattle.sorted_sets.specs.Merging.{Changes, Merges};
ghost use Rattle.json_differing.specs.{Differing.AreApart, Differing.Members, Differing.has_name, Spelled.HasTwin, Spelled.spelled_view};
ghost use Rattle.json_spell.specs.View.{json_view, member_view};

use crate::spelled::Spelled;
use base::OutOfMemory;
use bumpalo::Bump;
use bumpalo::collections::into_bump_slice;
use json_reader::read_spaced;
use json_spell::{Json, Member};
use std::alloc::Global;
use std::collections::BTreeSet;

// Up to how many members each name is looked for among the others. A set of more names costs less.
const FEW: usize = 32;

// The members of each object that the other doesn't have.
#[derive(Clone, Copy)]
pub(crate) struct Own<'b, 'a> {
    pub(crate) gone: &'b [Spelled<'b, 'a>],
    pub(crate) come: &'b [Spelled<'b, 'a>],
}

// The name of a member.
fn name_of<'b>(spelled: &Spelled<'b, '_>) -> &'b str
    ensures { result.now ≡ (spelled_view spelled.now).0 }
{
    spelled.key
}

// Whether some member has the name.
fn has_name(members: &[Spelled<'_, '_>], name: &str) -> bool
    ensures { result ≡ has_name name.now (map spelled_view members.now) }
{
    let mut left = members;
    while let [spelled, rest @ ..] = left {
        if spelled.key == name {
            return true;
        }
        left = rest;
    }
    false
}

// Whether no name comes twice, where there are few members: each name is looked for in what follows.
fn few_are_apart(members: &[Spelled<'_, '_>]) -> bool
    ensures { result ≡ true → AreApart (map spelled_view members.now) }
{
    let mut left = members;
    while let [spelled, rest @ ..] = left {
        if has_name(rest, name_of(spelled)) {
            return false;
        }
        left = rest;
    }
    true
}

// Whether no name comes twice.
pub(crate) fn are_apart(alloc: Global, members: &[Spelled<'_, '_>]) -> Result<bool, OutOfMemory>
    ensures { IfOk result (λ apart. apart ≡ true → AreApart (map spelled_view members.now)) }
{
    if members.len() <= FEW {
        return Ok(few_are_apart(members));
    }
    many_are_apart(alloc, members)
}

// The same where there are many.
fn many_are_apart(alloc: Global, members: &[Spelled<'_, '_>]) -> Result<bool, OutOfMemory>
    ensures { IfOk result (λ apart. apart ≡ true → AreApart (map spelled_view members.now)) }
{
    let mut seen = BTreeSet::new(alloc);
    let mut rest = members;
    while let [before @ .., member] = rest {
        let is_new = seen.insert(name_of(member))?;
        if !is_new {
            return Ok(false);
        }
        rest = before;
    }
    Ok(true)
}

// Puts the members from an index up to another at the end: they are gone.
fn push_gone<'b, 'a>(
    gone: &mut Vec<Spelled<'b, 'a>, &'b Bump>,
    olds: &[Spelled<'b, 'a>],
    first: usize,
    end: usize,
) -> Result<(), OutOfMemory>
    requires rises { first ≤ end }
    requires within { end ≤ length olds.now }
    ensures { OnOk result ((common : Members) → Merges common (map spelled_view gone.old.items) (map spelled_view (take first olds.now)) → Merges common (map spelled_view gone.new.items) (map spelled_view (take end olds.now))) }
{
    for index in first..end {
        gone.push(olds[index])?;
    }
    Ok(())
}

// The members of the first object that are no twins, and those of the second without a twin. Twins stand in both in one order: one that
// doesn't counts as none.
pub(crate) fn own_members<'b, 'a>(
    arena: &'b Bump,
    olds: &[Spelled<'b, 'a>],
    news: &[Spelled<'b, 'a>],
) -> Result<Own<'b, 'a>, OutOfMemory>
    requires { All (HasTwin olds.now) news.now }
    ensures { IfOk result (λ own. Changes (map spelled_view olds.now) (map spelled_view news.now) (map spelled_view own.gone.now) (map spelled_view own.come.now)) }
{
    let mut gone = Vec::new(arena);
    let mut come = Vec::new(arena);
    let mut first = 0;
    for at in 0..news.len() {
        let spelled = news[at];
        match twin_from(first, olds.len(), spelled.twin) {
            Some(index) => {
                push_gone(&mut gone, olds, first, index)?;
                first = index + 1;
            }
            None => come.push(spelled)?,
        }
    }
    push_gone(&mut gone, olds, first, olds.len())?;
    Ok(Own {
        gone: into_bump_slice(gone),
        come: into_bump_slice(come),
    })
}

// The index of the twin, where it isn't below another.
fn twin_from(first: usize, end: usize, twin: Option<usize>) -> Option<usize>
    ensures { IfSome result (λ index. (twin ≡ Some index) × (first ≤ index) × (index < end)) }
{
    let index = twin?;
    (first <= index && index < end).then_some(index)
}

// A member of the name and the value.
fn member_as<'b, 'a>(key: &'b str, value: Json<'b, 'a>) -> Member<'b, 'a>
    ensures { member_view result ≡ (key.now, json_view value.entry) }
{
    Member { key, value }
}

// The member with its value.
fn read_one<'b, 'a: 'b>(
    arena: &'b Bump,
    levels: usize,
    spelled: &Spelled<'b, 'a>,
) -> Option<Member<'b, 'a>>
    ensures { IfSome result (λ member. member_view member ≡ spelled_view spelled.now) }
{
    let Ok((value, _rest)) = read_spaced(arena, levels, spelled.text) else {
        return None;
    };
    Some(member_as(spelled.key, value))
}

// The members with their values. None where one isn't read.
pub(crate) fn read_own<'b, 'a: 'b>(
    arena: &'b Bump,
    levels: usize,
    spelled: &[Spelled<'b, 'a>],
) -> Option<&'b [Member<'b, 'a>]>
    ensures { IfSome result (λ members. map member_view members.now ≡ map spelled_view spelled.now) }
{
    let mut members = Vec::new(arena);
    for at in 0..spelled.len() {
        let member = read_one(arena, levels, &spelled[at])?;
        let Ok(()) = members.push(member) else {
            return None;
        };
    }
    Some(into_bump_slice(members))
}
