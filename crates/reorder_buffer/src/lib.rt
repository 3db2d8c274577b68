//! The reorder buffer: it takes events in whatever order they come, tells repeats and late ones, and
//! gives the events that are due by the watermarks back in their order.
#![tactic(auto)]

mod buffer;
mod taken;
mod watermarks;

pub use buffer::Buffer;
pub use taken::Taken;
