// What stands in front of both texts, and whether an object ends there.

ghost use Rattle.std.specs.Prelude.{◌≡◌, ◌∷◌, false, None, IfSome};
ghost use Rattle.json_spell.specs.{Reading.after_byte, Reading.skip, Grammar.is_ws};

use crate::differing::Texts;
use json_reader::{after_byte, next, skip_ws};

// The byte that both texts have in front, and what follows it.
pub(crate) fn next_of_both<'a>(texts: Texts<'a>) -> Option<(u8, Texts<'a>)>
    ensures next { IfSome result (λ p. (texts.entry.old.now ≡ p.0 ∷ p.1.old.now) × (texts.entry.new.now ≡ p.0 ∷ p.1.new.now)) }
{
    let (byte, old) = next(texts.old)?;
    let (other, new) = next(texts.new)?;
    (byte == other).then_some((byte, Texts { old, new }))
}

// Whether an object closes at once, after its opening brace.
pub(crate) fn closes(bytes: &[u8]) -> bool
    ensures { result ≡ false → after_byte 0x7D (skip is_ws bytes.now) ≡ None }
{
    after_byte(skip_ws(bytes), b'}').is_some()
}
