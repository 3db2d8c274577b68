// The datatypes of the dump's literals.

ghost use Rattle.std.specs.Prelude.{◌≡◌, ◌++◌, IfOk, string_bytes};
ghost use Rattle.rdf_vocabulary.specs.Datatype.{datatype_text, typed};

use rdf_term::{OutOfMemory, Term, Text};
use std::alloc::Global;

/// A datatype of literals (XML Schema 1.1 part 2; OGC GeoSPARQL).
#[derive(Clone, Copy, PartialEq, Eq)]
pub enum Datatype {
    /// `http://www.w3.org/2001/XMLSchema#integer`.
    Integer,
    /// `http://www.w3.org/2001/XMLSchema#decimal`.
    Decimal,
    /// `http://www.w3.org/2001/XMLSchema#double`.
    Double,
    /// `http://www.w3.org/2001/XMLSchema#dateTime`.
    DateTime,
    /// `http://www.opengis.net/ont/geosparql#wktLiteral`.
    WktLiteral,
}

impl Datatype {
    /// The text of the IRI.
    #[tactic(auto, unfolding(crate::specs::Datatype::datatype_text))]
    pub fn text(self) -> &'static str
        ensures { result.now ≡ datatype_text self }
    {
        match self {
            Datatype::Integer => "http://www.w3.org/2001/XMLSchema#integer",
            Datatype::Decimal => "http://www.w3.org/2001/XMLSchema#decimal",
            Datatype::Double => "http://www.w3.org/2001/XMLSchema#double",
            Datatype::DateTime => "http://www.w3.org/2001/XMLSchema#dateTime",
            Datatype::WktLiteral => "http://www.opengis.net/ont/geosparql#wktLiteral",
        }
    }

    /// The literal of a text in the datatype. The text is taken as it is.
    pub fn literal(self, alloc: Global, text: &str) -> Result<Term, OutOfMemory>
        ensures { IfOk result (λ term. term ≡ typed text.now self) }
    {
        let text = Text::new(alloc, text)?;
        Ok(Term::Typed(text, Text::new(alloc, self.text())?))
    }
}
