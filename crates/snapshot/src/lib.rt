//! A snapshot: the state of a replay between two lines of its input, as JSON lines.
//!
//! The lines come in this order: the head, each event that is remembered, each entry of the side output, the record of each entity with the
//! page that it holds, and the number of the lines before the last.
//!
//! `{"asks":0,"horizon":null,"lines":1,"mapping":1,"mark":null,"matches":0,"patches":0,"snapshot":3}`
//! `{"entity":"Q1","kind":"edit","micros":0,"rev":5}`
//! `{"entry":"late","event":{..}}`
//! `{"entity":"Q1","held":{"rev":5},"reconciled":null,"rev":5,"state":"kept",<TAB>"page":{..}}`
//! `{"end":4}`
//!
//! A page stands in its line as it is, behind a TAB, where it has no line feed; `parts` finds it there. Else it is a string in `held`.
//!
//! `line` has what one line says, and `counts` the counts in the head. `text` writes a line and reads it back, by `writing`, `reading`,
//! `head_reading` and `words`, through `serde_json`. `laws` says what holds of the format: what is written is read back, and a file that
//! was cut off is refused.
#![tactic(auto)]

mod counts;
mod head_reading;
mod laws;
mod line;
mod parts;
mod reading;
mod text;
mod words;
mod writing;

pub use counts::Counts;
pub use laws::{
    documents_are_text, lines_read_back, records_go_in_behind_entries, replays_can_be_saved,
    snapshots_read_back,
};
pub use line::{Head, Line};
pub use text::{read, write};
