// How many terms there may be.

/// How many distinct terms a store has room for, unless another limit is set.
pub const DEFAULT_MAX_TERMS: u32 = 20_000_000;
