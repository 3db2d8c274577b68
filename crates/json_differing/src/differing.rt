// What two texts have of their own, where maps in them have members that are spelled the same.

ghost use Rattle.std.specs.Prelude.{◌≡◌, ◌≤◌, ◌<◌, ◌∷◌, length, false, None, Some, IfSome};
ghost use Rattle.json_differing.specs.Differing.{AreLess, Differs, Inside, InTurn};
ghost use Rattle.json_differing.specs.Found.{AreDiffering, AreFound, AreNamed, MemberFound, MembersFound};
ghost use Rattle.json_spell.specs.{Reading.after_byte, Reading.skip, Reading.spaced, Reading.value_at, Grammar.is_ws, Nesting.Nests};
ghost use Rattle.json_spell.specs.{Tree.Tree, Deep.IsDeep, Grammar.Reads};
ghost use Rattle.json_differing.specs.{Readable.HasMember, Readable.HasMembers, Readable.HasValue};
ghost use Rattle.json_spell.specs.View.{json_view, member_view};

use crate::alike::are_alike;
use crate::both::{closes, next_of_both};
use crate::own::{are_apart, own_members, read_own};
use crate::scanned::scan_members;
use crate::spelled::read_spelled_members;
use bumpalo::Bump;
use bumpalo::collections::into_bump_slice;
use json_reader::{LEVELS, after_byte, read_key, read_spaced, skip_ws};
use json_spell::{Json, Member};
use std::alloc::Global;

// Where each of two texts is read on.
#[derive(Clone, Copy)]
pub(crate) struct Texts<'a> {
    pub(crate) old: &'a [u8],
    pub(crate) new: &'a [u8],
}

// What each of two values has of its own, and what follows them.
#[derive(Clone, Copy)]
pub(crate) struct Found<'b, 'a> {
    pub(crate) old: Json<'b, 'a>,
    pub(crate) new: Json<'b, 'a>,
    pub(crate) rests: Texts<'a>,
}

// A name that both texts have in front, and what follows it and its colon.
#[derive(Clone, Copy)]
pub(crate) struct Named<'b, 'a> {
    pub(crate) name: &'b str,
    pub(crate) rests: Texts<'a>,
}

// Members of one name, and what follows them.
#[derive(Clone, Copy)]
pub(crate) struct Paired<'b, 'a> {
    pub(crate) old: Member<'b, 'a>,
    pub(crate) new: Member<'b, 'a>,
    pub(crate) rests: Texts<'a>,
}

/// What each of two texts has of its own.
#[derive(Clone, Copy)]
pub struct Differing<'b, 'a> {
    /// The value of the first text, without the members that both have in their maps.
    pub old: Json<'b, 'a>,
    /// The same of the second text.
    pub new: Json<'b, 'a>,
}

// What follows the opening braces of two objects with white space before them.
fn opened<'a>(texts: Texts<'a>) -> Option<Texts<'a>>
    ensures braces { IfSome result (λ inside. (skip is_ws texts.entry.old.now ≡ 0x7B ∷ inside.old.now) × (skip is_ws texts.entry.new.now ≡ 0x7B ∷ inside.new.now)) }
    ensures shorter { IfSome result (λ inside. length inside.new.now < length texts.entry.new.now) }
{
    let old = after_byte(skip_ws(texts.old), b'{')?;
    let new = after_byte(skip_ws(texts.new), b'{')?;
    Some(Texts { old, new })
}

// The same values, without the white space behind them.
fn ended<'b, 'a>(found: Found<'b, 'a>) -> Found<'b, 'a>
    ensures old { json_view result.old ≡ json_view found.entry.old }
    ensures new { json_view result.new ≡ json_view found.entry.new }
    ensures old_rest { result.rests.old.now ≡ skip is_ws found.entry.rests.old.now }
    ensures new_rest { result.rests.new.now ≡ skip is_ws found.entry.rests.new.now }
    ensures no_longer { length result.rests.new.now ≤ length found.entry.rests.new.now }
{
    let Found { old, new, rests } = found;
    let rests = Texts {
        old: skip_ws(rests.old),
        new: skip_ws(rests.new),
    };
    Found { old, new, rests }
}

// Both values whole.
fn read_both<'b, 'a: 'b>(arena: &'b Bump, levels: usize, texts: Texts<'a>) -> Option<Found<'b, 'a>>
    ensures old { IfSome result (λ found. spaced value_at texts.entry.old.now ≡ Some (json_view found.old, found.rests.old.now)) }
    ensures new { IfSome result (λ found. spaced value_at texts.entry.new.now ≡ Some (json_view found.new, found.rests.new.now)) }
    ensures nests { IfSome result (λ found. Nests levels (json_view found.new)) }
    ensures no_longer { IfSome result (λ found. length found.rests.new.now ≤ length texts.entry.new.now) }
{
    let (old, old_rest) = read_spaced(arena, levels, texts.old).ok()?;
    let (new, new_rest) = read_spaced(arena, levels, texts.new).ok()?;
    let rests = Texts {
        old: old_rest,
        new: new_rest,
    };
    Some(Found { old, new, rests })
}

// Two maps, after their opening braces, each less the members that both have.
fn less_members<'b, 'a: 'b>(
    arena: &'b Bump,
    alloc: Global,
    levels: usize,
    inside: Texts<'a>,
) -> Option<Found<'b, 'a>>
    ensures found { HasMembers levels inside.entry.old.now → IfSome result (MembersFound AreLess levels inside.entry) }
    ensures no_longer { IfSome result (λ found. length found.rests.new.now ≤ length inside.entry.new.now) }
{
    let (olds, old_rest) = scan_members(arena, levels, inside.old).ok()?;
    if !are_apart(alloc, olds).ok()? {
        return None;
    }
    let (news, new_rest) = read_spelled_members(arena, levels, inside.new, olds).ok()?;
    if !are_apart(alloc, news).ok()? {
        return None;
    }
    let own = own_members(arena, olds, news).ok()?;
    let gone = read_own(arena, levels, own.gone)?;
    let come = read_own(arena, levels, own.come)?;
    let rests = Texts {
        old: old_rest,
        new: new_rest,
    };
    Some(Found {
        old: Json::Members(gone),
        new: Json::Members(come),
        rests,
    })
}

// A name that both texts have in front, and the colon after it.
fn name_of_both<'b, 'a: 'b>(arena: &'b Bump, texts: Texts<'a>) -> Option<Named<'b, 'a>>
    ensures named { IfSome result (AreNamed texts.entry) }
    ensures no_longer { IfSome result (λ named. length named.rests.new.now ≤ length texts.entry.new.now) }
{
    let (name, old) = read_key(arena, texts.old).ok()?;
    let (new_name, new) = read_key(arena, texts.new).ok()?;
    if name != new_name {
        return None;
    }
    Some(Named {
        name,
        rests: Texts { old, new },
    })
}

// The values as members of a name.
fn paired_as<'b, 'a>(name: &'b str, found: Found<'b, 'a>) -> Paired<'b, 'a>
    ensures old { member_view result.old ≡ (name.now, json_view found.entry.old) }
    ensures new { member_view result.new ≡ (name.now, json_view found.entry.new) }
    ensures old_rest { result.rests.old.now ≡ found.entry.rests.old.now }
    ensures new_rest { result.rests.new.now ≡ found.entry.rests.new.now }
{
    let Found { old, new, rests } = found;
    Paired {
        old: Member {
            key: name,
            value: old,
        },
        new: Member {
            key: name,
            value: new,
        },
        rests,
    }
}

// Members of one name.
#[tactic(auto, using(crate::proofs::Founds::member_found))]
#[cycle(pair)]
fn pair_member<'b, 'a: 'b>(
    arena: &'b Bump,
    alloc: Global,
    depth: usize,
    levels: usize,
    texts: Texts<'a>,
) -> Option<Paired<'b, 'a>>
    ensures found { HasMember levels texts.entry.old.now → IfSome result (MemberFound depth levels texts.entry) }
    ensures no_longer { IfSome result (λ paired. length paired.rests.new.now ≤ length texts.entry.new.now) }
{
    let named = name_of_both(arena, texts)?;
    let found = pair_value(arena, alloc, depth, levels, named.rests)?;
    Some(paired_as(named.name, found))
}

// The members of two objects, after their opening braces. Both have the same names in the same order.
#[tactic(auto, using(crate::proofs::Turning::turns_begin))]
#[cycle(pair)]
fn pair_members<'b, 'a: 'b>(
    arena: &'b Bump,
    alloc: Global,
    depth: usize,
    levels: usize,
    inside: Texts<'a>,
) -> Option<Found<'b, 'a>>
    ensures found { HasMembers levels inside.entry.old.now → IfSome result (MembersFound (InTurn (Differs (Inside depth))) levels inside.entry) }
    ensures no_longer { IfSome result (λ found. length found.rests.new.now ≤ length inside.entry.new.now) }
{
    if closes(inside.old) || closes(inside.new) {
        return None;
    }
    let mut olds = Vec::new(arena);
    let mut news = Vec::new(arena);
    let mut left = inside;
    loop {
        let paired = pair_member(arena, alloc, depth, levels, left)?;
        olds.push(paired.old).ok()?;
        news.push(paired.new).ok()?;
        let (byte, rests) = next_of_both(paired.rests)?;
        if byte == b'}' {
            return Some(Found {
                old: Json::Members(into_bump_slice(olds)),
                new: Json::Members(into_bump_slice(news)),
                rests,
            });
        }
        if byte != b',' {
            return None;
        }
        left = rests;
    }
}

// The members of two objects, after their opening braces: two maps, or objects that have maps so many levels below them.
#[cycle(pair)]
fn pair_inside<'b, 'a: 'b>(
    arena: &'b Bump,
    alloc: Global,
    depth: usize,
    levels: usize,
    inside: Texts<'a>,
) -> Option<Found<'b, 'a>>
    ensures found { HasMembers levels inside.entry.old.now → IfSome result (MembersFound (Inside depth) levels inside.entry) }
    ensures no_longer { IfSome result (λ found. length found.rests.new.now ≤ length inside.entry.new.now) }
{
    if depth == 0 {
        return less_members(arena, alloc, levels, inside);
    }
    pair_members(arena, alloc, depth - 1, levels, inside)
}

// Two values with white space around them.
#[tactic(auto, using(crate::proofs::Founds::whole_found, crate::proofs::Founds::object_found))]
#[cycle(pair)]
fn pair_value<'b, 'a: 'b>(
    arena: &'b Bump,
    alloc: Global,
    depth: usize,
    levels: usize,
    texts: Texts<'a>,
) -> Option<Found<'b, 'a>>
    ensures found { HasValue levels texts.entry.old.now → IfSome result (AreFound depth levels texts.entry) }
    ensures no_longer { IfSome result (λ found. length found.rests.new.now ≤ length texts.entry.new.now) }
{
    let Some(inside) = opened(texts) else {
        return read_both(arena, levels, texts);
    };
    if levels == 0 {
        return None;
    }
    let found = pair_inside(arena, alloc, depth, levels - 1, inside)?;
    Some(ended(found))
}

/// The values of two texts, each without the members that both have in their maps: in the objects that stand so many levels below the
/// outermost one. A member is left out where both maps have it in one order, with a value of the same spelling; all else stays. What stands in
/// brackets in the maps of the first text is gone over and not read, so nothing is promised where that text has no value, or one that is deep.
/// None where the texts share less than about half of their bytes, where what is read is no value, where an object above the maps has other
/// names or another order of them in the second text, where a map has a name twice, where most of a map changes, or where memory is refused.
/// What of the values isn't a part of a text is put into the arena.
pub fn read_differing<'b, 'a: 'b>(
    arena: &'b Bump,
    alloc: Global,
    depth: usize,
    old: &'a [u8],
    new: &'a [u8],
) -> Option<Differing<'b, 'a>>
    ensures { (t : Tree) → Reads old.now t → ¬ (IsDeep old.now) → IfSome result (AreDiffering depth old.now new.now) }
{
    if !are_alike(depth, old, new) {
        return None;
    }
    let found = pair_value(arena, alloc, depth, LEVELS, Texts { old, new })?;
    if !found.rests.old.is_empty() || !found.rests.new.is_empty() {
        return None;
    }
    Some(Differing {
        old: found.old,
        new: found.new,
    })
}
