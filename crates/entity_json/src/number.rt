// Whole numbers, as JSON spells them.

ghost use Rattle.std.specs.Prelude.{◌≡◌, ◌<◌, ℕ, IfSome, Some};
ghost use Rattle.std.specs.Fmt.{decimal};
ghost use Rattle.entity_json.specs.Leaves.{is_unsigned, is_whole, small_of};

use digits::{are_digits, starts_above_zero};

// Whether the text is 0, or digits that don't begin with 0.
fn is_unsigned(text: &[u8]) -> bool
    ensures { result ≡ is_unsigned text.now }
{
    let [first, rest @ ..] = text else {
        return false;
    };
    if *first == b'0' {
        return rest.is_empty();
    }
    b'1' <= *first && *first <= b'9' && are_digits(rest)
}

// Whether the text spells a whole number.
pub fn is_whole(text: &[u8]) -> bool
    ensures { result ≡ is_whole text.now }
{
    match text {
        [b'-', rest @ ..] => is_unsigned(rest),
        _ => is_unsigned(text),
    }
}

// The number from 0 to 255 that is written so in decimal.
fn read_small(text: &str) -> Option<u8>
    ensures sound { IfSome result (λ n. (n < 256) × (decimal n ≡ text.now)) }
    ensures complete { (n : ℕ) → n < 256 → decimal n ≡ text.now → result ≡ Some n }
{
    if text == "0" {
        return Some(0);
    }
    if starts_above_zero(text) {
        text.parse().ok()
    } else {
        None
    }
}

// The whole number from 0 to 255 that the text spells.
pub fn small_of(text: &str) -> Option<u8>
    ensures { result ≡ small_of text.now }
{
    read_small(text)
}
