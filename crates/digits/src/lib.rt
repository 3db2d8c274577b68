//! Decimal digits in ASCII: the tests for them, and the numbers that they write.
//!
//! The readers of times, amounts and whole numbers all stand on digits, in crates that don't stand on one another.
//! `number` has the code; `proofs/` has what these crates share of lemmas: on two digits (`Pairs`), on the bounds of
//! what digits write (`Places`), on numbers in decimal as they are written and parsed (`Decimals`), and on what a
//! choice that gives a value says (`Choices`).
#![tactic(auto)]

mod number;

pub use number::{are_digits, decimal_value, starts_above_zero, two_digits};
