//! The vocabulary of Wikidata's RDF: the namespaces, predicates, classes and datatypes that the dump
//! is written in, each as an enum with the text of its IRI and the terms made of it; and how names in
//! it are made, by escapes or by hashes.
#![tactic(auto)]

mod datatype;
mod fields;
mod predicate;
mod prefix;
mod resource;
mod unreserved;

pub use datatype::Datatype;
pub use fields::{hashed_name, push_field, push_optional_field};
pub use predicate::Predicate;
pub use prefix::Prefix;
pub use resource::Resource;
pub use unreserved::push_escaped_name;
