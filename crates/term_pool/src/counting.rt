// How often the terms in the slots are used.

ghost use Rattle.std.specs.Prelude.{◌≡◌, ◌+◌, ◌-◌, ◌<◌, ◌==◌, IsOk, OnOk, OnErr, ◌↔◌};
ghost use Rattle.term_pool.specs.{Pool.count_of, Pool.most_uses, Counting.Recounts};
ghost use Rattle.slab.specs.Slab.{get};

use crate::slots::Entry;
use rdf_term::OutOfMemory;
use slab::Slab;

// Counts one more use, unless the count is the greatest.
pub(crate) fn raise(slots: &mut Slab<Entry>, number: u32) -> Result<(), OutOfMemory>
    requires { 0 < count_of (get slots.old number) }
    ensures ok { OnOk result (Recounts slots.old slots.new number (count_of (get slots.old number) + 1)) }
    ensures err { OnErr result (slots.new ≡ slots.old) }
    ensures counts { IsOk result ↔ (count_of (get slots.old number) < most_uses) }
{
    match slots.get_mut(number as usize) {
        Some(entry) => entry.raise(),
        None => unreachable!(),
    }
}

// Counts a use less.
pub(crate) fn lower(slots: &mut Slab<Entry>, number: u32)
    requires { 1 < count_of (get slots.old number) }
    ensures { Recounts slots.old slots.new number (count_of (get slots.old number) - 1) }
{
    if let Some(entry) = slots.get_mut(number as usize) {
        entry.lower();
    }
}

// Whether a term is used just once.
pub(crate) fn is_last(slots: &Slab<Entry>, number: u32) -> bool
    ensures { result ≡ (count_of (get slots.now number) == 1) }
{
    match slots.get(number as usize) {
        Some(entry) => entry.is_one(),
        None => false,
    }
}
