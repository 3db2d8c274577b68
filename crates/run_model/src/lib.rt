//! What a run of a command is: what it reads and writes, how it ends, and what stands at each moment of it.
//!
//! `ports` are what a run reads and writes, `report` is what it reports of the deliveries that it takes, answers or changes, `lines_taken` is
//! what it took of its input, `stop` is why it stopped, and `status` how it ended. The definitions say what the lines that were read, their
//! deliveries and the end of the input make of what is held, counted, printed and saved. The proofs need no code: they put steps together to
//! the whole. The crate `session` does what is defined here.
#![tactic(auto)]

mod lines_taken;
mod ports;
mod report;
mod status;
mod stop;

pub use lines_taken::{LinesTaken, is_mark};
pub use ports::Ports;
pub use report::{Report, Reported};
pub use status::{Status, status_number, status_text};
pub use stop::{Halt, Stop};
