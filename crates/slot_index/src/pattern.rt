// What triples of slots are asked for by.

ghost use Rattle.std.specs.Prelude.{◌≡◌};
ghost use Rattle.slot_index.specs.Patterns.{high, leads, low, turned_pattern};

use slot_keys::Key;

/// What triples of slots are asked for by: a place that is `None` agrees with every slot.
#[derive(Clone, Copy)]
pub struct SlotPattern {
    /// The subject's slot that is wanted, where the pattern isn't turned.
    pub first: Option<u32>,
    /// The predicate's.
    pub second: Option<u32>,
    /// The object's.
    pub third: Option<u32>,
}

impl SlotPattern {
    // The pattern of the turned triples.
    pub(crate) fn turned(&self) -> SlotPattern
        ensures { result ≡ turned_pattern self.now }
    {
        SlotPattern {
            first: self.second,
            second: self.third,
            third: self.first,
        }
    }

    // Whether no free place stands before a wanted one, so that the triples are one range.
    pub(crate) fn leads(&self) -> bool
        ensures { result ≡ leads self.now }
    {
        match (self.first, self.second, self.third) {
            (None, None, None) => true,
            (None, _, _) => false,
            (_, None, Some(_)) => false,
            _ => true,
        }
    }

    // The least triple that agrees.
    pub(crate) fn low(&self) -> Key
        ensures { result ≡ low self.now }
    {
        Key {
            first: self.first.unwrap_or(0),
            second: self.second.unwrap_or(0),
            third: self.third.unwrap_or(0),
        }
    }

    // The greatest triple that agrees.
    pub(crate) fn high(&self) -> Key
        ensures { result ≡ high self.now }
    {
        Key {
            first: self.first.unwrap_or(u32::MAX),
            second: self.second.unwrap_or(u32::MAX),
            third: self.third.unwrap_or(u32::MAX),
        }
    }
}
