// The length of the text in a block.

ghost use Rattle.std.specs.Prelude.{◌≡◌, ◌≤◌, None, Some};

use std::marker::Model;

// The length of the text in a block, or none where the block is in no use. It takes 4 bytes: 0 stands for none, and any
// other number for the length below it.
#[derive(Clone, Copy, Drop)]
pub(crate) struct Length {
    number: u32,
}

impl Model for Length {
    ghost use Rattle.std.specs.Prelude.{ℕ, Option};
    ghost use Rattle.text_region.specs.Length.{kept_as, kept_as-len_of, len_of};

    ghost Value = { Option ℕ };

    ghost view = { λ l. len_of l.number };

    ghost inverse = { λ len. record { number = kept_as len } };

    ghost inverse_ok = { λ l h i. record { number = kept_as-len_of l.number i } };
}

impl Length {
    // That of a block in no use.
    pub(crate) fn none() -> Length
        ensures { result ≡ None }
    {
        Length { number: 0 }
    }

    // That of a text, in bytes.
    pub(crate) fn of(len: u32) -> Length
        requires { len ≤ 33554432 }
        ensures { result ≡ Some len }
    {
        Length { number: len + 1 }
    }

    // How long the text is, in bytes, where there is one.
    pub(crate) fn get(self) -> Option<u32>
        ensures { result ≡ self }
    {
        match self.number {
            0 => None,
            number => Some(number - 1),
        }
    }
}
