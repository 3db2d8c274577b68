//! One run of the top call over memory that its caller lends.
//!
//! `run_over` is the whole of it: `running` has it, `words` reads the words of a run, `pages` are the pages that are lent, and `keys` the keys
//! of its hashes. `laws` says what follows from its contract.
#![tactic(auto)]

mod keys;
mod laws;
mod pages;
mod running;
mod words;

pub use keys::GivenKeys;
pub use laws::{first_runs_print_what_is_there, memory_has_no_faults, runs_again_print_the_same};
pub use pages::{LentPages, Place};
pub use running::{Ended, Given, run_over};
