// Texts with one character in place of another.

ghost use Rattle.std.specs.Prelude.{◌≡◌, ◌<◌, ◌++◌, ◌∷◌, ℕ, IfOk, OnOk, MatchOption, string_bytes, encode_utf8};
ghost use Rattle.sitelinks.specs.Replaced.{replaced};

use rdf_term::{CowText, OutOfMemory, Text};
use std::alloc::Global;

/// The text before the first occurrence of an ASCII character, and the text after it.
pub(crate) fn around(text: &str, from: char) -> Option<(&str, &str)>
    requires { from < 128 }
    ensures { (to : ℕ) → MatchOption result (replaced from to text.now ≡ text.now)
        (λ parts. replaced from to text.now ≡ parts.0.now ++ to ∷ replaced from to parts.1.now) }
{
    text.split_once(from)
}

/// The text with one ASCII character in place of another; a text that lacks the character is borrowed.
pub(crate) fn replaced<'a>(
    alloc: Global,
    text: &'a str,
    from: char,
    to: char,
) -> Result<CowText<'a>, OutOfMemory>
    requires from { from < 128 }
    requires to { to < 128 }
    ensures { IfOk result (λ out. out ≡ replaced from to text.now) }
{
    match around(text, from) {
        Some(_) => {
            let out = replaced_copy(alloc, text, from, to)?;
            Ok(CowText::owned(Text::from_string(out)))
        }
        None => Ok(CowText::borrowed(text)),
    }
}

// The text with one ASCII character in place of another, in memory of its own.
fn replaced_copy(alloc: Global, text: &str, from: char, to: char) -> Result<String, OutOfMemory>
    requires from { from < 128 }
    requires to { to < 128 }
    ensures { IfOk result (λ out. string_bytes out ≡ replaced from to text.now) }
{
    let mut out = String::with_capacity(alloc, text.len())?;
    let mut left = text.chars();
    while let Some(c) = left.next() {
        push_replaced(c, from, to, &mut out)?;
    }
    Ok(out)
}

// Appends the character, or what stands in its place.
#[tactic(auto, using(crate::proofs::Characters::replaced_same, crate::proofs::Characters::replaced_other))]
fn push_replaced(c: char, from: char, to: char, out: &mut String) -> Result<(), OutOfMemory>
    requires from { from < 128 }
    requires to { to < 128 }
    ensures { OnOk result (string_bytes out.new ≡ string_bytes out.old ++ replaced from to (encode_utf8 c)) }
{
    if c == from {
        out.push(to)?;
    } else {
        out.push(c)?;
    }
    Ok(())
}
