//! The texts and lists that every crate above is built of.
//!
//! `text` and `list` have owned texts and lists that contracts see as lists, `cow_text` texts that are borrowed where they can be,
//! and `ascii` a test of bytes. `memory` has the one fault that every call which allocates shares. `specs/Append.antt` says what a
//! step that appends bytes leaves.
#![tactic(auto)]

mod ascii;
mod cow_text;
mod list;
mod memory;
mod text;

pub use ascii::are_alphanumeric;
pub use cow_text::CowText;
pub use list::List;
pub use memory::OutOfMemory;
pub use text::Text;
