//! Where the triples of a walk over a page go.
//!
//! `term_ref` has terms that borrow their texts, with the canonical texts that they are written as, and
//! `sink` what takes triples of them: a list of triples is one, and `emit_all` hands a list on. `about` hands on
//! what words of the vocabulary say. `subject` has subjects of several triples. `setting` has what a walk is told besides the page.
#![tactic(auto)]

mod about;
mod setting;
mod sink;
mod subject;
mod term_ref;

pub use about::{emit_about, emit_class};
pub use setting::Setting;
pub use sink::{TripleSink, emit_all};
pub use subject::Subject;
pub use term_ref::TermRef;
