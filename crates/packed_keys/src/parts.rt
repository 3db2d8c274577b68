// The parts of a key's number.

ghost use Rattle.std.specs.Prelude.{◌≡◌, ◌+◌, ◌*◌, ◌^◌, ◌<◌, ◌≤◌, IfSome};
ghost use Rattle.packed_keys.specs.Frames.{slot_above};

/// The slot that is so far above the least one.
pub fn above(least: u32, offset: u64) -> u32
    ensures { result ≡ slot_above least offset }
{
    least.wrapping_add((offset % 4_294_967_296) as u32)
}

/// 2 to the number of bits.
pub fn power(bits: u8) -> u64
    requires { bits < 64 }
    ensures { result ≡ 2 ^ bits }
{
    1 << bits
}

/// Two numbers in one, the low one of so many; none where that doesn't fit.
pub fn joined(high: u64, many: u64, low: u64) -> Option<u64>
    ensures { IfSome result (λ number. number ≡ high * many + low) }
{
    high.checked_mul(many)?.checked_add(low)
}

/// How many bits a number has.
pub fn bits_of(number: u32) -> u8
    ensures { result ≤ 32 }
{
    (32 - number.leading_zeros()) as u8
}
