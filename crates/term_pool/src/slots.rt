// What stands in a slot.

ghost use Rattle.std.specs.Prelude.{◌≡◌, ◌+◌, ◌-◌, ◌<◌, ◌==◌, IsOk, OnOk, OnErr, ◌↔◌};
ghost use Rattle.term_pool.specs.Pool.{most_uses};

use rdf_term::OutOfMemory;
use std::marker::Model;
use text_region::Piece;

// The block with the text of a term, by its class and its number there, and how often the term is used: a number of 48 bits
// in two words. It has 12 bytes, so that a slot has 16.
#[derive(Drop)]
pub(crate) struct Entry {
    number: u32,
    low: u32,
    high: u16,
    class: u8,
}

impl Model for Entry {
    ghost use Rattle.std.specs.Prelude.{◌+◌, ◌*◌};
    ghost use Rattle.term_pool.specs.Occupant.{Occupant, occupant_code};

    ghost Value = { Occupant };

    ghost coded = { occupant_code };

    ghost view = { λ e. record { piece = record { class = e.class; number = e.number }; count = e.low + e.high * 4294967296 } };
}

impl Entry {
    // That of a term with one use.
    pub(crate) fn one(piece: Piece) -> Entry
        ensures { result ≡ record { piece = piece; count = 1 } }
    {
        let Piece { class, number } = piece;
        Entry {
            number,
            low: 1,
            high: 0,
            class,
        }
    }

    // The piece with the text of the term.
    pub(crate) fn piece(&self) -> Piece
        ensures { result ≡ self.now.piece }
    {
        Piece {
            class: self.class,
            number: self.number,
        }
    }

    pub(crate) fn is_one(&self) -> bool
        ensures { result ≡ (self.now.count == 1) }
    {
        self.low == 1 && self.high == 0
    }

    // Counts one more use, unless the count is the greatest that its bits hold.
    pub(crate) fn raise(&mut self) -> Result<(), OutOfMemory>
        ensures ok { OnOk result (self.new ≡ record self.old { count = self.old.count + 1 }) }
        ensures err { OnErr result (self.new ≡ self.old) }
        ensures counts { IsOk result ↔ (self.old.count < most_uses) }
    {
        let (low, carried) = self.low.overflowing_add(1);
        self.high = self
            .high
            .checked_add(u16::from(carried))
            .ok_or(OutOfMemory)?;
        self.low = low;
        Ok(())
    }

    pub(crate) fn lower(&mut self)
        requires { 0 < self.old.count }
        ensures { self.new ≡ record self.old { count = self.old.count - 1 } }
    {
        match self.low.checked_sub(1) {
            Some(low) => self.low = low,
            None => {
                self.low = u32::MAX;
                self.high -= 1;
            }
        }
    }
}
