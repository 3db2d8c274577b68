// Namespaces of IRIs.

ghost use Rattle.std.specs.Prelude.{◌≡◌, ◌++◌, IfOk, string_bytes};
ghost use Rattle.rdf_vocabulary.specs.Prefix.{prefix_text, prefixed};

use rdf_term::{OutOfMemory, Term, Text};
use std::alloc::Global;

/// A namespace of IRIs that a name is put behind ("Wikibase RDF Dump Format", prefixes).
#[derive(Clone, Copy, PartialEq, Eq)]
pub enum Prefix {
    /// `http://www.wikidata.org/entity/`: an entity.
    Wd,
    /// `http://www.wikidata.org/entity/statement/`: a statement.
    Wds,
    /// `http://www.wikidata.org/value/`: the node of a value.
    Wdv,
    /// `http://www.wikidata.org/reference/`: a reference.
    Wdref,
    /// `http://www.wikidata.org/prop/direct/`: from an entity to the best values of a property.
    Wdt,
    /// `http://www.wikidata.org/prop/`: from an entity to the statements of a property.
    P,
    /// `http://www.wikidata.org/prop/statement/`: from a statement to its value.
    Ps,
    /// `http://www.wikidata.org/prop/statement/value/`: from a statement to its value's node.
    Psv,
    /// `http://www.wikidata.org/prop/qualifier/`: from a statement to a qualifier's value.
    Pq,
    /// `http://www.wikidata.org/prop/qualifier/value/`: from a statement to a qualifier's value's node.
    Pqv,
    /// `http://www.wikidata.org/prop/reference/`: from a reference to a value.
    Pr,
    /// `http://www.wikidata.org/prop/reference/value/`: from a reference to a value's node.
    Prv,
    /// `http://www.wikidata.org/prop/novalue/`: the class of what has no value of a property.
    Wdno,
    /// `https://www.wikidata.org/wiki/Special:EntityData/`: the document that describes an entity.
    Data,
    /// `http://www.wikidata.org/.well-known/genid/`: a blank node's IRI (RDF 1.1, section 3.5).
    Genid,
    /// `http://wikiba.se/ontology#`: the ontology of Wikibase.
    Wikibase,
    /// `http://commons.wikimedia.org/wiki/Special:FilePath/`: a file of Wikimedia Commons.
    FilePath,
}

impl Prefix {
    /// The text that the IRIs of the namespace begin with.
    #[tactic(auto, unfolding(crate::specs::Prefix::prefix_text))]
    pub fn text(self) -> &'static str
        ensures { result.now ≡ prefix_text self }
    {
        match self {
            Prefix::Wd => "http://www.wikidata.org/entity/",
            Prefix::Wds => "http://www.wikidata.org/entity/statement/",
            Prefix::Wdv => "http://www.wikidata.org/value/",
            Prefix::Wdref => "http://www.wikidata.org/reference/",
            Prefix::Wdt => "http://www.wikidata.org/prop/direct/",
            Prefix::P => "http://www.wikidata.org/prop/",
            Prefix::Ps => "http://www.wikidata.org/prop/statement/",
            Prefix::Psv => "http://www.wikidata.org/prop/statement/value/",
            Prefix::Pq => "http://www.wikidata.org/prop/qualifier/",
            Prefix::Pqv => "http://www.wikidata.org/prop/qualifier/value/",
            Prefix::Pr => "http://www.wikidata.org/prop/reference/",
            Prefix::Prv => "http://www.wikidata.org/prop/reference/value/",
            Prefix::Wdno => "http://www.wikidata.org/prop/novalue/",
            Prefix::Data => "https://www.wikidata.org/wiki/Special:EntityData/",
            Prefix::Genid => "http://www.wikidata.org/.well-known/genid/",
            Prefix::Wikibase => "http://wikiba.se/ontology#",
            Prefix::FilePath => "http://commons.wikimedia.org/wiki/Special:FilePath/",
        }
    }

    /// The IRI of a name in the namespace. The name is taken as it is.
    pub fn term(self, alloc: Global, name: &str) -> Result<Term, OutOfMemory>
        ensures { IfOk result (λ term. term ≡ prefixed self name.now) }
    {
        let mut iri = String::new(alloc);
        iri.push_str(self.text())?;
        iri.push_str(name)?;
        Ok(Term::Iri(Text::from_string(iri)))
    }
}
