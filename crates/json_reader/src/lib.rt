//! The reader of JSON texts, whose values and grammar `json_spell` has.
//!
//! `reader` reads a whole text. It stands on `value`, which reads one value; `number` and `string` read those two, `bytes` steps over white
//! space, digits and the like, and `runs` over the plain bytes of strings, sixteen at a time. What reads a text only in part, as
//! `json_differing` does, has the steps of `bytes` and `value` too.
#![tactic(auto)]

mod bytes;
mod number;
mod reader;
mod runs;
mod string;
mod value;

pub use bytes::{after_byte, before, next, past, skip_ws};
pub use reader::{LEVELS, read};
pub use value::{after_part, read_key, read_name, read_spaced, read_value};
