// The mark, which is the greatest watermark so far, and the floor, which is the horizon below it.

ghost use Rattle.std.specs.Prelude.{◌≡◌};
ghost use Rattle.reorder_buffer.specs.Watermarks.{floor, greater, is_below, reached};

/// The mark after one more watermark.
pub fn greater(mark: Option<i64>, watermark: i64) -> Option<i64>
    ensures { result ≡ greater mark watermark }
{
    match mark {
        Some(before) if watermark <= before => Some(before),
        _ => Some(watermark),
    }
}

/// Whether the mark is at or above a time.
pub fn reached(mark: Option<i64>, time: i64) -> bool
    ensures { result ≡ reached mark time }
{
    match mark {
        Some(mark) => time <= mark,
        None => false,
    }
}

/// Whether a time is below the floor, which is the mark less the horizon; no time is where there is no mark or no horizon.
pub fn is_below(horizon: Option<u64>, mark: Option<i64>, time: i64) -> bool
    ensures { result ≡ is_below (floor horizon mark) time }
{
    let (Some(horizon), Some(mark)) = (horizon, mark) else {
        return false;
    };
    match mark.checked_sub_unsigned(horizon) {
        Some(floor) => time < floor,
        None => false, // the floor is below the least time that there is
    }
}
