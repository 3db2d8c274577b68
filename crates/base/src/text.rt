// An owned UTF-8 text.

ghost use Rattle.std.specs.Prelude.{◌≡◌, IfOk, string_bytes};
ghost use Rattle.std.specs.{Cmp.Rules.comparing, Str.bytes_eq};
ghost use Rattle.std.proofs.Common.{rules};

use crate::memory::OutOfMemory;
use std::alloc::Global;
use std::marker::Model;

/// An owned text in UTF-8. Contracts see the list of its bytes.
#[derive(Drop)]
pub struct Text {
    string: String,
}

impl Model for Text {
    ghost use Rattle.std.specs.Prelude.{List, ℕ, string_bytes};

    ghost Value = { List ℕ };

    ghost view = { λ a. string_bytes a.string };
}

impl Text {
    /// A text with the same characters as `s`.
    pub fn new(alloc: Global, s: &str) -> Result<Text, OutOfMemory>
        ensures { IfOk result (λ text. text ≡ s.now) }
    {
        let mut string = String::new(alloc);
        string.push_str(s)?;
        Ok(Text { string })
    }

    /// Takes the string over without a copy.
    pub fn from_string(string: String) -> Text
        ensures { result ≡ string_bytes string }
    {
        Text { string }
    }

    /// Gives the string away without a copy.
    pub fn into_string(self) -> String
        ensures { string_bytes result ≡ self }
    {
        let Text { string } = self;
        string
    }

    /// The characters.
    pub fn as_str(&self) -> &str
        ensures { result.now ≡ self.now }
    {
        self.string.as_str()
    }

    /// The bytes of the characters.
    pub fn as_bytes(&self) -> &[u8]
        ensures { result.now ≡ self.now }
    {
        self.string.as_str().as_bytes()
    }

    /// An equal text in memory of its own.
    pub fn copy(&self, alloc: Global) -> Result<Text, OutOfMemory>
        ensures { IfOk result (λ text. text ≡ self.now) }
    {
        Text::new(alloc, self.as_str())
    }
}

impl PartialEq for Text {
    ghost eq = { bytes_eq };

    ghost laws = { Prim.search (comparing, rules) };

    fn eq(&self, other: &Text) -> bool {
        self.as_str() == other.as_str()
    }
}

impl Eq for Text {
    ghost laws = { Prim.search (comparing, rules) };
}
