//! Comparisons that are counted, one step each, so that contracts can bound what a call costs.
//!
//! `steps` has what counts them, in no bytes and no time, or does not count, and `ranked` what a key must be able to do that is compared in such steps.
//! `specs/Steps.antt` has the bounds that contracts state.
#![tactic(auto)]

mod ranked;
mod steps;

pub use ranked::Ranked;
pub use steps::{StepCounter, Steps, Uncounted};
