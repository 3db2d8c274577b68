// The classes, ranks and the licence of the dump.

ghost use Rattle.std.specs.Prelude.{◌≡◌, ◌++◌, IfOk, string_bytes};
ghost use Rattle.rdf_vocabulary.specs.Resource.{resource_text, resource_term};

use rdf_term::{OutOfMemory, Term, Text};
use std::alloc::Global;

/// A class, a rank or the licence ("Wikibase RDF Dump Format").
#[derive(Clone, Copy, PartialEq, Eq)]
pub enum Resource {
    /// `http://wikiba.se/ontology#Item`.
    Item,
    /// `http://wikiba.se/ontology#Property`.
    Property,
    /// `http://wikiba.se/ontology#Statement`.
    Statement,
    /// `http://wikiba.se/ontology#Reference`.
    Reference,
    /// `http://wikiba.se/ontology#BestRank`.
    BestRank,
    /// `http://wikiba.se/ontology#PreferredRank`.
    PreferredRank,
    /// `http://wikiba.se/ontology#NormalRank`.
    NormalRank,
    /// `http://wikiba.se/ontology#DeprecatedRank`.
    DeprecatedRank,
    /// `http://wikiba.se/ontology#TimeValue`.
    TimeValue,
    /// `http://wikiba.se/ontology#QuantityValue`.
    QuantityValue,
    /// `http://wikiba.se/ontology#GlobecoordinateValue`.
    GlobecoordinateValue,
    /// `http://schema.org/Dataset`.
    Dataset,
    /// `http://schema.org/Article`.
    Article,
    /// `http://creativecommons.org/publicdomain/zero/1.0/`.
    PublicDomain,
    /// `http://www.w3.org/ns/lemon/ontolex#LexicalEntry`.
    LexicalEntry,
    /// `http://wikiba.se/ontology#Lexeme`.
    Lexeme,
    /// `http://www.w3.org/ns/lemon/ontolex#Form`.
    Form,
    /// `http://wikiba.se/ontology#Form`.
    WikibaseForm,
    /// `http://www.w3.org/ns/lemon/ontolex#LexicalSense`.
    LexicalSense,
    /// `http://wikiba.se/ontology#Sense`.
    WikibaseSense,
}

impl Resource {
    /// The text of the IRI.
    #[tactic(auto, unfolding(crate::specs::Resource::resource_text))]
    pub fn text(self) -> &'static str
        ensures { result.now ≡ resource_text self }
    {
        match self {
            Resource::Item => "http://wikiba.se/ontology#Item",
            Resource::Property => "http://wikiba.se/ontology#Property",
            Resource::Statement => "http://wikiba.se/ontology#Statement",
            Resource::Reference => "http://wikiba.se/ontology#Reference",
            Resource::BestRank => "http://wikiba.se/ontology#BestRank",
            Resource::PreferredRank => "http://wikiba.se/ontology#PreferredRank",
            Resource::NormalRank => "http://wikiba.se/ontology#NormalRank",
            Resource::DeprecatedRank => "http://wikiba.se/ontology#DeprecatedRank",
            Resource::TimeValue => "http://wikiba.se/ontology#TimeValue",
            Resource::QuantityValue => "http://wikiba.se/ontology#QuantityValue",
            Resource::GlobecoordinateValue => "http://wikiba.se/ontology#GlobecoordinateValue",
            Resource::Dataset => "http://schema.org/Dataset",
            Resource::Article => "http://schema.org/Article",
            Resource::PublicDomain => "http://creativecommons.org/publicdomain/zero/1.0/",
            Resource::LexicalEntry => "http://www.w3.org/ns/lemon/ontolex#LexicalEntry",
            Resource::Lexeme => "http://wikiba.se/ontology#Lexeme",
            Resource::Form => "http://www.w3.org/ns/lemon/ontolex#Form",
            Resource::WikibaseForm => "http://wikiba.se/ontology#Form",
            Resource::LexicalSense => "http://www.w3.org/ns/lemon/ontolex#LexicalSense",
            Resource::WikibaseSense => "http://wikiba.se/ontology#Sense",
        }
    }

    /// The IRI.
    pub fn term(self, alloc: Global) -> Result<Term, OutOfMemory>
        ensures { IfOk result (λ term. term ≡ resource_term self) }
    {
        Ok(Term::Iri(Text::new(alloc, self.text())?))
    }
}
