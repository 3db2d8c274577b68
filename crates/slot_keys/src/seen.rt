// Slots of terms that came a short time ago, by a cheap hash of their texts.
//
// Triples of one page name the same properties and classes again and again, and a new node comes as an object before it comes as a subject.
// A slot found here is only a hint: the caller checks its text.

use std::alloc::Global;

// How many slots are remembered at least and at most.
const LEAST: usize = 256;

const MOST: usize = 16384;

// How many slots are remembered for each triple that may come.
const EACH: usize = 4;

// Stands for no slot.
const NONE: u32 = u32::MAX;

/// The slot of the last term whose text has each hash. There are none, or as many as a power of two.
#[derive(Drop)]
pub struct Seen {
    slots: Vec<u32>,
}

impl Seen {
    /// No slots, with room for those of about so many triples. Where memory for them is refused, none are remembered.
    pub fn new(alloc: Global, triples: usize) -> Seen {
        let mut slots = Vec::new(alloc);
        let wanted = triples.saturating_mul(EACH).clamp(LEAST, MOST);
        match slots.resize(wanted.next_power_of_two(), NONE) {
            Ok(()) => Seen { slots },
            Err(_) => Seen { slots },
        }
    }

    /// The slot that the term with this text may have.
    pub fn slot(&self, text: &[u8]) -> Option<u32> {
        match *self.slots.get(self.index(text))? {
            NONE => None,
            slot => Some(slot),
        }
    }

    /// Remembers the slot of the term with this text.
    pub fn remember(&mut self, text: &[u8], slot: u32) {
        let index = self.index(text);
        if let Some(seen) = self.slots.get_mut(index) {
            *seen = slot;
        }
    }

    // Where the slot of the term with this text is remembered.
    fn index(&self, text: &[u8]) -> usize {
        cheap_hash(text) as usize & self.slots.len().wrapping_sub(1)
    }
}

// A hash of the length and the first and last bytes of a text, which mostly differ where texts do.
fn cheap_hash(text: &[u8]) -> u64 {
    let front = match text {
        [a, b, c, d, e, f, g, h, ..] => u64::from_le_bytes([*a, *b, *c, *d, *e, *f, *g, *h]),
        _ => 0,
    };
    let tail = match text {
        [.., a, b, c, d, e, f, g, h] => u64::from_le_bytes([*a, *b, *c, *d, *e, *f, *g, *h]),
        _ => 0,
    };
    let mixed = front.wrapping_mul(0xC2B2_AE3D_27D4_EB4F) ^ tail ^ text.len() as u64;
    mixed.wrapping_mul(0x9E37_79B9_7F4A_7C15) >> 32
}
