//! The world: events are taken and wait, due events are applied one by one, and what is held means triples.
//!
//! - `world`: the state of a replay, which contracts see as the definitions of replay_model do; `views`: what it tells of it.
//! - `applications`: the least due event is applied; `applying`: the side output and holdings that this sets; `applied`: what it led to.
//! - `held`: the holdings of either kind: with all triples, or with those that two pages may share.
//! - `versions`: the pages of each version, and how those of the other one are remapped.
//! - `rows`: the triples, with or without a copy of their texts.
//! - `restoring`: how a saved world is put back.
//! - `laws`: what holds of the versions of pages, and of the changes that are told.
#![tactic(auto)]

mod applications;
mod applied;
mod applying;
mod beside;
mod held;
mod laws;
mod restoring;
mod rows;
mod versions;
mod views;
mod world;

pub use applied::{
    AppliedEvent, AppliedStep, Outcome, RemappedStep, RoutedPage, StepChange, WorldFault,
};
pub use held::{LeanPages, WorldHoldings};
pub use laws::{changes_have_lines, versions_follow_the_play};
pub use restoring::RestoreFault;
pub use world::{World, discard};
