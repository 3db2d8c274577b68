// A UTF-8 text that is borrowed where it can be.

ghost use Rattle.std.specs.Prelude.{◌≡◌, IfOk};

use crate::memory::OutOfMemory;
use crate::text::Text;
use std::alloc::Global;
use std::marker::Model;

// Where the characters are.
#[derive(Drop)]
pub(crate) enum Part<'a> {
    Source(&'a str),
    Own(Text),
}

/// A text in UTF-8: a part of a longer text that it borrows, or one of its own. Contracts see the list of its bytes.
#[derive(Drop)]
pub struct CowText<'a> {
    part: Part<'a>,
}

impl<'a> Model for CowText<'a> {
    ghost use Rattle.std.specs.Prelude.{List, ℕ};
    ghost use Rattle.base.specs.CowText.{part_bytes};

    ghost Value = { List ℕ };

    ghost view = { λ a. part_bytes a.part };
}

impl<'a> CowText<'a> {
    /// The borrowed text itself.
    pub fn borrowed(text: &'a str) -> CowText<'a>
        ensures { result ≡ text.now }
    {
        CowText {
            part: Part::Source(text),
        }
    }

    /// Takes the text over without a copy.
    pub fn owned(text: Text) -> CowText<'a>
        ensures { result ≡ text }
    {
        CowText {
            part: Part::Own(text),
        }
    }

    /// The characters.
    pub fn as_str(&self) -> &str
        ensures { result.now ≡ self.now }
    {
        match &self.part {
            Part::Source(text) => text,
            Part::Own(text) => text.as_str(),
        }
    }

    /// The bytes of the characters.
    pub fn as_bytes(&self) -> &[u8]
        ensures { result.now ≡ self.now }
    {
        self.as_str().as_bytes()
    }

    /// An equal text: it borrows where this one does, and wants memory of its own otherwise.
    pub fn copy(&self, alloc: Global) -> Result<CowText<'a>, OutOfMemory>
        ensures { IfOk result (λ text. text ≡ self.now) }
    {
        match &self.part {
            Part::Source(text) => Ok(CowText::borrowed(text)),
            Part::Own(text) => Ok(CowText::owned(text.copy(alloc)?)),
        }
    }
}
