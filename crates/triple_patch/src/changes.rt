// The triples that come and those that go.

use rdf_term::TripleSet;

/// What changes from one set of triples to another.
#[derive(Drop)]
pub struct Patch {
    /// The triples that come.
    pub adds: TripleSet,
    /// The triples that go.
    pub removes: TripleSet,
}
