//! What two JSON texts have of their own, where maps in them have members that are spelled the same.
//!
//! `differing` reads two texts, and tells what each has of its own. `scanned` goes over the members of the first one's maps
//! by `brackets`, `spelled` reads those of the second one's, `known` finds those that are spelled the same, and `own` parts and
//! reads the others. `both` looks at the front of both texts, and `alike` and `shared`
//! tell by the bytes whether this is worth it.
#![tactic(auto)]

mod alike;
mod both;
mod brackets;
mod differing;
mod known;
mod own;
mod scanned;
mod shared;
mod spelled;

pub use differing::{Differing, read_differing};
