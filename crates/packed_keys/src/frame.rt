// How far keys are above the least slots, in one number each.

ghost use Rattle.std.specs.Prelude.{◌≡◌, ◌^◌, ◌<◌, ◌≤◌, IfSome};

use crate::parts::{above, joined, power};
use slot_keys::Key;

/// The least slots of some keys, and how many bits of a key's number its second and third slot have.
#[derive(Clone, Copy)]
pub struct Frame {
    pub least: Key,
    pub second: u8,
    pub third: u8,
    ghost within: { (second < 64) × (third < 64) },
}

impl Frame {
    ghost use Rattle.packed_keys.specs.Frames.{IsIn, key_at};

    /// The key with a number.
    pub fn key(&self, number: u64) -> Key
        ensures { result ≡ key_at self.now number }
    {
        let high = number >> self.third;
        Key {
            first: above(self.least.first, high >> self.second),
            second: above(self.least.second, high % power(self.second)),
            third: above(self.least.third, number % power(self.third)),
        }
    }

    /// The number of a key, if it has one.
    pub fn number(&self, key: Key) -> Option<u64>
        ensures stands { IfSome result (λ number. key_at self.now number ≡ key) }
        ensures inside { IfSome result (IsIn self.now) }
    {
        let first = u64::from(key.first.checked_sub(self.least.first)?);
        let second = u64::from(key.second.checked_sub(self.least.second)?);
        let third = u64::from(key.third.checked_sub(self.least.third)?);
        if second >= power(self.second) || third >= power(self.third) {
            return None;
        }
        let high = joined(first, power(self.second), second)?;
        let number = joined(high, power(self.third), third)?;
        Some(number)
    }
}
