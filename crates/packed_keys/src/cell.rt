// The sizes of cells, each of which has a number.

ghost use Rattle.std.specs.Prelude.{◌≡◌, ℕ, ◌+◌, ◌*◌, IfSome};

/// A cell of memory with a number.
pub trait Cell: Copy {
    ghost number: { Self → ℕ };

    /// The number.
    fn number(&self) -> u64
        ensures { result ≡ number self.now };

    /// The cell with a number, if it is large enough.
    fn with(value: u64) -> Option<Self>
        ensures { IfSome result (λ cell. number cell ≡ value) };
}

impl Cell for u32 {
    ghost number = { λ cell. cell };

    fn number(&self) -> u64 {
        u64::from(*self)
    }

    fn with(value: u64) -> Option<u32> {
        if value < 4_294_967_296 {
            Some(value as u32)
        } else {
            None
        }
    }
}

/// A cell of 6 bytes.
#[derive(Clone, Copy)]
pub struct SixBytes {
    high: u16,
    middle: u16,
    low: u16,
}

impl Cell for SixBytes {
    ghost number = { λ cell. cell.high * 4294967296 + cell.middle * 65536 + cell.low };

    fn number(&self) -> u64 {
        u64::from(self.high) * 4_294_967_296 + u64::from(self.middle) * 65_536 + u64::from(self.low)
    }

    fn with(value: u64) -> Option<SixBytes> {
        if value < 281_474_976_710_656 {
            Some(SixBytes {
                high: (value / 4_294_967_296) as u16,
                middle: (value / 65_536 % 65_536) as u16,
                low: (value % 65_536) as u16,
            })
        } else {
            None
        }
    }
}

impl Cell for u64 {
    ghost number = { λ cell. cell };

    fn number(&self) -> u64 {
        *self
    }

    fn with(value: u64) -> Option<u64> {
        Some(value)
    }
}
