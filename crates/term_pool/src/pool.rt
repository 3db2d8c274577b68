// The terms that are there.

ghost use Rattle.std.specs.Prelude.{◌≡◌, ◌≢◌, ℕ, ◌+◌, ◌<◌, ◌≤◌, ◌==◌, Some, None, Ok, Err, IfSome, IfNone, IfOk, IsOk, OnOk, OnErr, IsSome, IsTrue, ◌↔◌};
ghost use Rattle.std.specs.List.{All};
ghost use Rattle.rdf_term.specs.{Fit.IsFitAndShort, Text.term_text};
ghost use Rattle.text_region.specs.Region.{Texts};

use crate::counting::{is_last, lower, raise};
use crate::fault::PoolFault;
use crate::hash::text_hash;
use crate::index::{forget, point, unlist};
use crate::slot::Slot;
use crate::slots::Entry;
use rdf_term::{OutOfMemory, Term, write_term};
use slab::Slab;
use std::alloc::Global;
use std::collections::HashMap;
use std::hash::RandomState;
use text_region::Region;

/// Terms, each once, with the number of their uses, and at most as many as a limit. Their canonical texts lie in a
/// region that each call is given. A term keeps its slot as long as it is used.
///
/// Terms are found by a hash of their texts under keys of this process, since the texts come from strangers.
#[derive(Drop)]
pub struct Pool {
    alloc: Global,
    pub(crate) slots: Slab<Entry>,
    // The slot of the first term with each hash, and the slots of all other terms: 64-bit hashes hardly ever collide.
    pub(crate) by_hash: HashMap<u64, u32>,
    pub(crate) more: Vec<u32>,
    pub(crate) keys: RandomState,
    limit: u32,
}

impl Pool {
    ghost use Rattle.term_pool.specs.Pool.{LiesIn, IsCanonical, IsNowhere, Interned, KeepsBeside, Released, SameSlots, count_at, most_uses, terms, text_in_slot};
    ghost use Rattle.term_pool.specs.{Index.hash_of, Making.HasSpareSlot, Making.HasSame};

    /// A pool without terms, which takes no memory. Its hashes are keyed by `keys`.
    pub fn new(alloc: Global, keys: RandomState, limit: u32) -> Pool
        ensures lies { (region : Texts) → LiesIn result region }
        ensures empty { terms result ≡ 0 }
        ensures none { (slot : ℕ) → count_at result slot ≡ 0 }
        ensures limit { result.limit ≡ limit }
    {
        Pool {
            alloc,
            slots: Slab::new(alloc),
            by_hash: HashMap::new(alloc),
            more: Vec::new(alloc),
            keys,
            limit,
        }
    }

    /// How many terms are there.
    pub fn len(&self) -> u32
        ensures { (region : Texts) → LiesIn self.now region → result ≡ terms self.now }
    {
        self.slots.len().min(self.limit as usize) as u32
    }

    /// Sets another limit on the number of terms. The pool lies in its region as before where no more terms are there.
    pub fn set_limit(&mut self, limit: u32)
        ensures { self.new ≡ record self.old { limit = limit } }
    {
        self.limit = limit;
    }

    /// The canonical text of a term that is there.
    pub fn text<'a>(&self, region: &'a Region, slot: Slot) -> &'a [u8]
        requires lies { LiesIn self.now region.now }
        requires used { 0 < count_at self.now slot.number }
        ensures { text_in_slot self.now region.now slot.number ≡ Some result.now }
    {
        let Some(entry) = self.slots.get(slot.number as usize) else {
            unreachable!()
        };
        let place = entry.piece();
        region.read(&place)
    }

    /// The slot of the term with this canonical text, if it is there. It takes no memory.
    pub fn find_text(&self, region: &Region, text: &[u8]) -> Option<Slot>
        requires { LiesIn self.now region.now }
        ensures found { IfSome result (λ slot. text_in_slot self.now region.now slot.number ≡ Some text.now) }
        ensures nowhere { IfNone result (IsNowhere self.now region.now text.now) }
    {
        self.find_hashed(region, text_hash(&self.keys, text), text)
    }

    // The slot of the term with this canonical text, whose hash is known.
    fn find_hashed(&self, region: &Region, hash: u64, text: &[u8]) -> Option<Slot>
        requires lies { LiesIn self.now region.now }
        requires hash { hash ≡ hash_of self.now.keys text.now }
        ensures found { IfSome result (λ slot. text_in_slot self.now region.now slot.number ≡ Some text.now) }
        ensures nowhere { IfNone result (IsNowhere self.now region.now text.now) }
    {
        if let Some(number) = self.by_hash.get(&hash) {
            if self.has_text(region, *number, text) {
                return Some(Slot { number: *number });
            }
        }
        self.find_more(region, text)
    }

    /// Counts one more use of a term, and takes it in if it isn't there. After a fault the pool and the region have what they had. It
    /// writes the term's text first; who has the text calls `intern_text`. A count has 48 bits: if the term's is the greatest that these
    /// hold, 2^48 - 1, the answer is OutOfMemory.
    pub fn intern(&mut self, region: &mut Region, term: &Term) -> Result<Slot, PoolFault>
        requires lies { LiesIn self.old region.old }
        requires fit { IsFitAndShort term.now }
        ensures lies { LiesIn self.new region.new }
        ensures ok { IfOk result (λ slot. Interned self.old region.old self.new region.new slot.number (term_text term.now)) }
        ensures first { IfOk result (λ slot. IsNowhere self.old region.old (term_text term.now) → count_at self.new slot.number ≡ 1) }
        ensures err { OnErr result (SameSlots self.old region.old self.new region.new) }

        // The fault is Full exactly if the term is new and the pool has as many terms as its limit, unless memory was refused.
        ensures full { result ≡ Err PoolFault.Full → IsNowhere self.old region.old (term_text term.now) × (self.old.limit ≤ terms self.old) }
        ensures within { OnOk result (IsNowhere self.old region.old (term_text term.now) → terms self.old < self.old.limit) }
        ensures again { OnOk result ((slot : ℕ) → text_in_slot self.old region.old slot ≡ Some (term_text term.now) → count_at self.old slot < most_uses) }
        ensures beside { KeepsBeside self.old region.old self.new region.new }
        ensures limit { self.new.limit ≡ self.old.limit }
    {
        let mut text = Vec::new(self.alloc);
        if write_term(term, &mut text).is_err() {
            return Err(PoolFault::OutOfMemory);
        }
        self.intern_text(region, text.as_slice())
    }

    /// Counts one more use of the term with this canonical text, and takes it in if it isn't there. After a fault the pool and the region
    /// have what they had. A term that is there takes no memory. A count has 48 bits: if the term's is the greatest that these hold,
    /// 2^48 - 1, the answer is OutOfMemory.
    pub fn intern_text(&mut self, region: &mut Region, text: &[u8]) -> Result<Slot, PoolFault>
        requires lies { LiesIn self.old region.old }
        requires canonical { IsCanonical text.now }
        ensures lies { LiesIn self.new region.new }
        ensures ok { IfOk result (λ slot. Interned self.old region.old self.new region.new slot.number text.now) }
        ensures first { IfOk result (λ slot. IsNowhere self.old region.old text.now → count_at self.new slot.number ≡ 1) }
        ensures err { OnErr result (SameSlots self.old region.old self.new region.new) }
        ensures full { (result ≡ Err PoolFault.Full) ↔ (IsNowhere self.old region.old text.now × (self.old.limit ≤ terms self.old)) }
        ensures again { (slot : ℕ) → text_in_slot self.old region.old slot ≡ Some text.now → (IsOk result ↔ (count_at self.old slot < most_uses)) }
        ensures beside { KeepsBeside self.old region.old self.new region.new }
        ensures limit { self.new.limit ≡ self.old.limit }
    {
        let hash = text_hash(&self.keys, text);
        match self.find_hashed(region, hash, text) {
            Some(slot) => match raise(&mut self.slots, slot.number) {
                Ok(()) => Ok(slot),
                Err(OutOfMemory) => Err(PoolFault::OutOfMemory),
            },
            None => self.add(region, hash, text),
        }
    }

    /// Does what `intern_text` does. Where the slot with this text is known it is used, without a look at the text.
    pub fn intern_known(
        &mut self,
        region: &mut Region,
        text: &[u8],
        known: Option<u32>,
    ) -> Result<Slot, PoolFault>
        requires lies { LiesIn self.old region.old }
        requires canonical { IsCanonical text.now }
        requires known { IfSome known (λ number. text_in_slot self.old region.old number ≡ Some text.now) }
        ensures lies { LiesIn self.new region.new }
        ensures ok { IfOk result (λ slot. Interned self.old region.old self.new region.new slot.number text.now) }
        ensures first { IfOk result (λ slot. IsNowhere self.old region.old text.now → count_at self.new slot.number ≡ 1) }
        ensures err { OnErr result (SameSlots self.old region.old self.new region.new) }
        ensures full { (result ≡ Err PoolFault.Full) ↔ (IsNowhere self.old region.old text.now × (self.old.limit ≤ terms self.old)) }
        ensures again { (slot : ℕ) → text_in_slot self.old region.old slot ≡ Some text.now → (IsOk result ↔ (count_at self.old slot < most_uses)) }
        ensures beside { KeepsBeside self.old region.old self.new region.new }
        ensures limit { self.new.limit ≡ self.old.limit }
    {
        match known {
            Some(number) => match raise(&mut self.slots, number) {
                Ok(()) => Ok(Slot { number }),
                Err(OutOfMemory) => Err(PoolFault::OutOfMemory),
            },
            None => self.intern_text(region, text),
        }
    }

    /// Counts a use less of a term that is there. Where it was the last, the term is no longer there, and its text and its
    /// slot are free. It takes no memory.
    pub fn release(&mut self, region: &mut Region, slot: Slot)
        requires lies { LiesIn self.old region.old }
        requires used { 0 < count_at self.old slot.number }
        ensures lies { LiesIn self.new region.new }
        ensures released { Released self.old region.old self.new region.new slot.number }
        ensures beside { KeepsBeside self.old region.old self.new region.new }
        ensures limit { self.new.limit ≡ self.old.limit }
    {
        if is_last(&self.slots, slot.number) {
            self.remove(region, slot);
        } else {
            lower(&mut self.slots, slot.number);
        }
    }

    /// Whether there is a term in the slot of this number that has this text. It takes no memory and no look-up.
    pub fn has_text(&self, region: &Region, number: u32, text: &[u8]) -> bool
        requires { LiesIn self.now region.now }
        ensures { IsTrue result ↔ (text_in_slot self.now region.now number ≡ Some text.now) }
    {
        match self.slots.get(number as usize) {
            Some(entry) => {
                let place = entry.piece();
                region.read(&place) == text
            }
            None => false,
        }
    }

    // The slot with this text among those whose hash points at another one.
    fn find_more(&self, region: &Region, text: &[u8]) -> Option<Slot>
        requires { LiesIn self.now region.now }
        ensures found { IfSome result (λ slot. text_in_slot self.now region.now slot.number ≡ Some text.now) }
        ensures nowhere { IfNone result (All (λ number. text_in_slot self.now region.now number ≢ Some text.now) self.now.more.items) }
    {
        for number in &self.more {
            if self.has_text(region, *number, text) {
                return Some(Slot { number: *number });
            }
        }
        None
    }

    // Makes room for one more term, and gives the number of its slot.
    fn make_room(&mut self) -> Result<u32, OutOfMemory>
        ensures same { HasSame self.old self.new }
        ensures room { IfOk result (HasSpareSlot self.new) }
    {
        self.slots.reserve(1)?;
        self.by_hash.reserve(1)?;
        self.more.reserve(1)?;
        u32::try_from(self.slots.vacant_key()).map_err(|_| OutOfMemory)
    }

    // Takes in a term that isn't there, by the hash of its text.
    fn add(&mut self, region: &mut Region, hash: u64, text: &[u8]) -> Result<Slot, PoolFault>
        requires lies { LiesIn self.old region.old }
        requires hash { hash ≡ hash_of self.old.keys text.now }
        requires canonical { IsCanonical text.now }
        requires nowhere { IsNowhere self.old region.old text.now }
        ensures lies { LiesIn self.new region.new }
        ensures ok { IfOk result (λ slot. Interned self.old region.old self.new region.new slot.number text.now) }
        ensures first { IfOk result (λ slot. count_at self.new slot.number ≡ 1) }
        ensures err { OnErr result (SameSlots self.old region.old self.new region.new) }
        ensures full { (result ≡ Err PoolFault.Full) ↔ (self.old.limit ≤ terms self.old) }
        ensures beside { KeepsBeside self.old region.old self.new region.new }
        ensures limit { self.new.limit ≡ self.old.limit }
    {
        if self.slots.len() >= self.limit as usize {
            return Err(PoolFault::Full);
        }
        let Ok(number) = self.make_room() else {
            return Err(PoolFault::OutOfMemory);
        };
        let Ok(piece) = region.place(text) else {
            return Err(PoolFault::OutOfMemory);
        };
        self.slots.insert_reserved(Entry::one(piece));
        point(&mut self.by_hash, &mut self.more, hash, number);
        Ok(Slot { number })
    }

    // Gives back a term with its last use.
    fn remove(&mut self, region: &mut Region, slot: Slot)
        requires lies { LiesIn self.old region.old }
        requires last { count_at self.old slot.number ≡ 1 }
        ensures lies { LiesIn self.new region.new }
        ensures released { Released self.old region.old self.new region.new slot.number }
        ensures beside { KeepsBeside self.old region.old self.new region.new }
        ensures limit { self.new.limit ≡ self.old.limit }
    {
        let hash = text_hash(&self.keys, self.text(region, slot));
        let Some(entry) = self.slots.try_remove(slot.number as usize) else {
            unreachable!()
        };
        forget(&mut self.by_hash, hash, slot.number);
        unlist(&mut self.more, slot.number);
        region.free(entry.piece());
    }
}
