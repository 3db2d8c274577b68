// The numbers that arguments have.

ghost use Rattle.std.specs.Prelude.{◌≡◌, ℕ, ◌<◌, ◌≤◌, ◌^◌, Some, IfSome};
ghost use Rattle.std.specs.Fmt.{decimal};
ghost use Rattle.arguments.specs.Numbers.{between, number_between};

use digits::starts_above_zero;

/// The number from the least to the greatest that the text is: decimal digits, without sign and without a leading zero.
pub fn read_number(digits: &str, least: u64, greatest: u64) -> Option<u64>
    ensures value { result ≡ number_between least greatest digits.now }
    ensures within { IfSome result (λ n. (least ≤ n) × (n ≤ greatest)) }
{
    between(least, greatest, written_number(digits))
}

// The number, if it lies from the least to the greatest.
fn between(least: u64, greatest: u64, number: Option<u64>) -> Option<u64>
    ensures value { result ≡ between least greatest number }
    ensures within { IfSome result (λ n. (least ≤ n) × (n ≤ greatest)) }
{
    match number {
        Some(number) if least <= number && number <= greatest => Some(number),
        _ => None,
    }
}

// The number that is written so.
fn written_number(digits: &str) -> Option<u64>
    ensures sound { IfSome result (λ n. decimal n ≡ digits.now) }
    ensures complete { (n : ℕ) → n < 2 ^ 64 → decimal n ≡ digits.now → result ≡ Some n }
{
    if digits == "0" {
        Some(0)
    } else {
        positive_number(digits)
    }
}

// The same, from 1.
fn positive_number(digits: &str) -> Option<u64>
    ensures sound { IfSome result (λ n. decimal n ≡ digits.now) }
    ensures complete { (n : ℕ) → 0 < n → n < 2 ^ 64 → decimal n ≡ digits.now → result ≡ Some n }
{
    if starts_above_zero(digits) {
        digits.parse().ok()
    } else {
        None
    }
}
