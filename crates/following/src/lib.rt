//! Follows a producer's triples by the records of their changes, which are read from an input.
//!
//! `follow` is the whole command but for its arguments: `following` has it. `taking` takes the lines of the input, and the records that
//! they are; `printing` prints what a follower has then; `stop` is why it stopped. `laws` says when it doesn't stop, and at which inputs it
//! stops for which cause.
#![tactic(auto)]

mod following;
mod laws;
mod printing;
mod stop;
mod taking;

pub use following::follow;
pub use laws::{
    good_records_are_followed, records_without_room_are_named, refused_lines_are_named,
};
pub use stop::{FollowStop, RecordCause};
