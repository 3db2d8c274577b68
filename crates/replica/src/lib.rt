//! Records of patches: their texts, a reader of them, and a replica that follows a producer's store by them.
//!
//! `record` has a record and the writing of it, `head` its first line, and `triple_line` the texts of a triple in the line that it has in
//! a record: `term_end` finds where a term ends there, and `plain_term` borrows one that has no escape. `reader` takes lines and gives
//! records. `replica` keeps records until it is their turn; `applying` changes by one which triples are stored, and `reading_back` reads
//! the triples of one into memory of their own.
//! `laws` has what holds of the definitions themselves.
#![tactic(auto)]

mod applying;
mod head;
mod laws;
mod plain_term;
mod reader;
mod reading_back;
mod record;
mod replica;
mod term_end;
mod triple_line;

pub use head::Head;
pub use laws::{
    a_replica_follows_its_producer, lines_are_read_as_their_records, lines_are_read_in_one_way,
    records_are_read_from_their_lines, records_lead_to_their_producer,
    texts_of_records_are_their_lines,
};
pub use reader::{PatchFault, PatchReader};
pub use record::{PatchRecord, write_patch};
pub use replica::{Received, Replica};
/// Why a record isn't applied.
pub use triple_store::StoreFault as ReplicaFault;
