//! JSON texts as RFC 8259 defines them, with the spelling of each number kept.
//!
//! `json` has the values and the look-up of a member, `fault` what a text is refused for, `deep` counts brackets, and `laws` has what holds
//! of the grammar itself. The crate `json_reader` reads texts; what only looks at values needn't wait for its proof.
#![tactic(auto)]

mod deep;
mod fault;
mod json;
mod laws;

pub use deep::{Position, is_deep, is_opening};
pub use fault::JsonFault;
pub use json::{Json, Member};
pub use laws::{
    has_one_tree, members_weigh_no_more_than_value, nesting_to_64_is_not_deep, text_is_utf8,
    weighs_no_more_than_text,
};
