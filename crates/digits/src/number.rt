// The numbers that digits write.

ghost use Rattle.std.specs.Prelude.{◌≡◌, ◌↔◌, ◌<◌, ◌≤◌, ◌^◌, length, slice_index, IsTrue, IfSome};
ghost use Rattle.std.specs.{Char.is_ascii_digit, List.list_all};
ghost use Rattle.digits.specs.Number.{decimal_value, two_digits};

/// Whether each byte is a decimal digit.
pub fn are_digits(text: &[u8]) -> bool
    ensures { result ≡ list_all is_ascii_digit text.now }
{
    text.iter().all(|byte| byte.is_ascii_digit())
}

/// Whether the text starts with a digit from 1 to 9.
pub fn starts_above_zero(text: &str) -> bool
    ensures { IsTrue result ↔ ((49 ≤ slice_index text.now 0) × (slice_index text.now 0 ≤ 57)) }
{
    matches!(text.as_bytes(), [b'1'..=b'9', ..])
}

/// The number that up to 18 digits write; none write 0.
pub fn decimal_value(digits: &[u8]) -> u64
    requires short { length digits.now ≤ 18 }
    requires digits { IsTrue (list_all is_ascii_digit digits.now) }
    ensures value { result ≡ decimal_value digits.now }
    ensures places { result < 10 ^ length digits.now }
    ensures bound { result < 10 ^ 18 }
{
    let mut value = 0u64;
    for digit in digits {
        value = 10 * value + u64::from(*digit - b'0');
    }
    value
}

/// The number that two digits write, where both are digits.
pub fn two_digits(tens: u8, ones: u8) -> Option<u8>
    ensures value { result ≡ two_digits tens ones }
    ensures bound { IfSome result (λ number. number < 100) }
{
    if tens.is_ascii_digit() && ones.is_ascii_digit() {
        Some(10 * (tens - b'0') + (ones - b'0'))
    } else {
        None
    }
}
