//! How the cases of the files are read and tried, over whatever makes a run.
//!
//! `files` has the texts of the files; `sections` finds the sections of a case and sees that none goes unseen; `spelling` makes bytes of the
//! short forms. `given` is what a run is given, and `change` what one of several runs is given in place of it; `shown` is what a run shows
//! or has to show, and the first difference. A `Runner` makes a run. `trier` tries a case once, with each of its calls failing in turn or with
//! each front of a text, `failing` says what must stand then, and `cutting` cuts a case in two. `tally` tries all cases of the files.
//! README.md of crates/cases says how a case is written. No function here has a contract: all only serve the gate.
#![tactic(auto)]

mod change;
mod cutting;
mod failing;
mod files;
mod given;
mod sections;
mod shown;
mod spelling;
mod tally;
mod trier;

pub use given::{Calls, Given};
pub use shown::{Shown, show};
pub use tally::{Tally, try_cases};
pub use trier::Runner;
