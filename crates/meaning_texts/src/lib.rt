//! What holds of the triples that any bytes mean as a page: their terms are UTF-8, and there are at most 2^31 of them. A law is the contract
//! of a function that does nothing.
//!
//! `specs/Trees.antt` says of a JSON value what it is to be UTF-8 in all its texts, `specs/Documents.antt` says it of a document, and
//! `specs/Terms.antt` of terms and triples.
#![tactic(auto)]

mod laws;

pub use laws::{
    meanings_are_few, terms_of_meanings_are_utf8, texts_of_documents_are_utf8,
    texts_of_values_are_utf8,
};
