// Keys that come to a set in blocks and go from it, and the greatest slots.

ghost use Rattle.std.specs.Prelude.{◌≡◌, ◌<◌};

use crate::tester::{Subject, Tester, write_number, write_text};
use block_index::BlockIndex;
use comparison_steps::{Steps, Uncounted};
use slot_index::{SlotIndex, SlotPattern};
use slot_keys::Key;
use std::alloc::Global;
use std::marker::Brand;
use std::sync::ledger::{Blank, Ledger};

// A number comes (`+`) or goes (`-`), whether the set is another one then, how many numbers and blocks it has, and which of its numbers
// are from 1 to 2.
const CALLS: &str = "+3 => other 1 1 |
+1 => other 2 1 | 1
+2 => other 3 1 | 1 2
+2 => same 3 1 | 1 2
+0 => other 4 1 | 1 2
-2 => other 3 1 | 1
-2 => same 3 1 | 1
-1 => other 2 1 |
-3 => other 1 1 |
-0 => other 0 0 |";

// The greatest slot. How often a triple of it alone is counted in an empty index, and then, when it was counted once, how many triples
// have no matter which slots, and this slot at two places.
const GREATEST: &str = "4294967295 => 0 1 1";

// A set of keys, and the steps that its calls take.
#[derive(Drop)]
struct Keys<L: Ledger> {
    index: BlockIndex<Key>,
    steps: Steps<L>,
}

impl<L: Ledger> Subject for Keys<L> {
    fn answer(&mut self, alloc: Global, given: &str, found: &mut Vec<u8>) -> Option<()> {
        let [sign, digit] = given.as_bytes() else {
            return None;
        };
        let key = key(u32::from(digit.wrapping_sub(b'0')));
        let changed = if *sign == b'+' {
            self.index.insert(key, &mut self.steps).ok()?
        } else {
            self.index.remove(key, &mut self.steps)
        };
        let answer = if changed { "other " } else { "same " };
        write_number(alloc, answer, self.index.len() as u64, found)?;
        self.write_keys(alloc, found)
    }
}

impl<L: Ledger> Keys<L> {
    // Writes how many blocks there are, and the numbers from 1 to 2.
    fn write_keys(&mut self, alloc: Global, found: &mut Vec<u8>) -> Option<()> {
        write_number(alloc, " ", self.index.blocks() as u64, found)?;
        write_text(" |", found)?;
        let keys = self.index.range(key(1), key(2), &mut self.steps).ok()?;
        let written = write_numbers(alloc, keys.as_slice(), found);
        drop(keys);
        written
    }
}

// The key of a number.
fn key(number: u32) -> Key {
    Key {
        first: 0,
        second: number,
        third: 0,
    }
}

// Writes the numbers of keys.
fn write_numbers(alloc: Global, keys: &[Key], found: &mut Vec<u8>) -> Option<()> {
    for key in keys {
        write_number(alloc, " ", u64::from(key.second), found)?;
    }
    Some(())
}

// Makes all calls in turn at a new set.
fn check_calls<L: Ledger>(tester: &mut Tester<'_>, blank: Blank)
    requires name { blank.name ≡ L.name }
    requires parts { blank.parts ≡ L.parts }
    requires some { 0 < blank.parts }
{
    let mut keys = Keys {
        index: BlockIndex::new(tester.alloc()),
        steps: Steps::<L>::new(blank),
    };
    tester.try_rows("keys come and go", CALLS, &mut keys);
    drop(keys);
}

#[derive(Drop)]
struct Greatest {
    index: SlotIndex,
}

impl Subject for Greatest {
    fn answer(&mut self, alloc: Global, given: &str, found: &mut Vec<u8>) -> Option<()> {
        let slot = given.parse().ok()?;
        let key = Key {
            first: slot,
            second: slot,
            third: slot,
        };
        let count = self.index.count(key, &mut Uncounted);
        write_number(alloc, "", count, found)?;
        if count > 0 {
            return None;
        }
        self.index.raise(key, &mut Uncounted).ok()?;
        self.write_len(alloc, None, found)?;
        self.write_len(alloc, Some(slot), found)
    }
}

impl Greatest {
    // Writes how many triples have this slot at their first two places, or no matter which slots.
    fn write_len(&self, alloc: Global, slot: Option<u32>, found: &mut Vec<u8>) -> Option<()> {
        let pattern = SlotPattern {
            first: slot,
            second: slot,
            third: None,
        };
        let len = self.index.range_len(pattern, &mut Uncounted);
        write_number(alloc, " ", len as u64, found)
    }
}

fn keys_come_and_go(tester: &mut Tester<'_>) {
    check_calls::<Brand>(tester, Blank::new(1));
}

pub(crate) fn try_indexes(tester: &mut Tester<'_>) {
    keys_come_and_go(tester);
    let mut greatest = Greatest {
        index: SlotIndex::new(tester.alloc()),
    };
    tester.try_rows("the greatest slots are found", GREATEST, &mut greatest);
    drop(greatest);
}
