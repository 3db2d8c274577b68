// The frame that is chosen for keys. What it says is only a hint: whoever packs a key sees whether it fits.

ghost use Rattle.std.specs.Prelude.{◌≤◌};

use crate::frame::Frame;
use crate::parts::bits_of;
use slot_keys::Key;

// The least and the greatest slots of keys.
#[derive(Clone, Copy)]
struct Spread {
    low: Key,
    high: Key,
}

/// A frame for keys, and how many bits their numbers have in it.
#[derive(Clone, Copy)]
pub struct Choice {
    pub frame: Frame,
    pub bits: u8,
}

/// The frame in which the keys' numbers have few bits. What is left of a cell is spread over the three slots, so that further keys fit.
pub fn choice_for(keys: &[Key]) -> Choice {
    let Spread { low, high } = spread_of(keys);
    let first = bits_of(high.first.saturating_sub(low.first));
    let second = bits_of(high.second.saturating_sub(low.second));
    let third = bits_of(high.third.saturating_sub(low.third));
    let bits = first + second + third;
    let spare = cell_bits(bits).saturating_sub(bits) / 3;
    let least = if spare > 0 { lowered(low, high) } else { low };
    Choice {
        frame: Frame {
            least,
            second: second + spare,
            third: third + spare,
        },
        bits,
    }
}

// The bits of the smallest cell with so many.
fn cell_bits(bits: u8) -> u8
    ensures { result ≤ 64 }
{
    if bits <= 32 {
        32
    } else if bits <= 48 {
        48
    } else {
        64
    }
}

// The least slots, and below them as much room as the slots' half spread.
fn lowered(low: Key, high: Key) -> Key {
    Key {
        first: low
            .first
            .saturating_sub(high.first.saturating_sub(low.first) / 2),
        second: low
            .second
            .saturating_sub(high.second.saturating_sub(low.second) / 2),
        third: low
            .third
            .saturating_sub(high.third.saturating_sub(low.third) / 2),
    }
}

// The least and the greatest slots.
fn spread_of(keys: &[Key]) -> Spread {
    let mut low = Key {
        first: u32::MAX,
        second: u32::MAX,
        third: u32::MAX,
    };
    let mut high = Key {
        first: 0,
        second: 0,
        third: 0,
    };
    for key in keys {
        low = Key {
            first: low.first.min(key.first),
            second: low.second.min(key.second),
            third: low.third.min(key.third),
        };
        high = Key {
            first: high.first.max(key.first),
            second: high.second.max(key.second),
            third: high.third.max(key.third),
        };
    }
    Spread { low, high }
}
