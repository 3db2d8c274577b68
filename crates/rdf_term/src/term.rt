// A term of RDF.

ghost use Rattle.std.specs.Prelude.{◌≡◌, IfOk};

use base::{OutOfMemory, Text};
use std::alloc::Global;

/// A term of RDF 1.1: an IRI, a blank node or a literal.
#[derive(Drop, PartialEq, Eq)]
pub enum Term {
    /// An IRI, without its angle brackets.
    Iri(Text),
    /// A blank node, by its label.
    Blank(Text),
    /// A literal of the datatype `xsd:string`, by its text.
    Plain(Text),
    /// A literal with a language: its text and its tag.
    Lang(Text, Text),
    /// A literal of another datatype: its text and the datatype's IRI.
    Typed(Text, Text),
}

impl Term {
    /// An equal term in memory of its own.
    pub fn copy(&self, alloc: Global) -> Result<Term, OutOfMemory>
        ensures { IfOk result (λ term. term ≡ self.now) }
    {
        let term = match self {
            Term::Iri(iri) => Term::Iri(iri.copy(alloc)?),
            Term::Blank(label) => Term::Blank(label.copy(alloc)?),
            Term::Plain(text) => Term::Plain(text.copy(alloc)?),
            Term::Lang(text, tag) => Term::Lang(text.copy(alloc)?, tag.copy(alloc)?),
            Term::Typed(text, datatype) => Term::Typed(text.copy(alloc)?, datatype.copy(alloc)?),
        };
        Ok(term)
    }
}
