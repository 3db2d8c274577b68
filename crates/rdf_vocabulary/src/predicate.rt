// The predicates of the dump that are no property of Wikidata.

ghost use Rattle.std.specs.Prelude.{◌≡◌, ◌++◌, IfOk, string_bytes};
ghost use Rattle.rdf_vocabulary.specs.Predicate.{predicate_text, predicate_term};

use rdf_term::{OutOfMemory, Term, Text};
use std::alloc::Global;

/// A predicate of the dump ("Wikibase RDF Dump Format").
#[derive(Clone, Copy, PartialEq, Eq)]
pub enum Predicate {
    /// `http://www.w3.org/1999/02/22-rdf-syntax-ns#type`.
    RdfType,
    /// `http://www.w3.org/2000/01/rdf-schema#label`.
    Label,
    /// `http://www.w3.org/2004/02/skos/core#prefLabel`.
    PrefLabel,
    /// `http://www.w3.org/2004/02/skos/core#altLabel`.
    AltLabel,
    /// `http://schema.org/name`.
    Name,
    /// `http://schema.org/description`.
    Description,
    /// `http://schema.org/about`.
    About,
    /// `http://schema.org/softwareVersion`.
    SoftwareVersion,
    /// `http://schema.org/version`.
    Version,
    /// `http://schema.org/dateModified`.
    DateModified,
    /// `http://schema.org/inLanguage`.
    InLanguage,
    /// `http://schema.org/isPartOf`.
    IsPartOf,
    /// `http://creativecommons.org/ns#license`.
    License,
    /// `http://www.w3.org/2002/07/owl#sameAs`.
    SameAs,
    /// `http://www.w3.org/ns/prov#wasDerivedFrom`.
    WasDerivedFrom,
    /// `http://wikiba.se/ontology#rank`.
    Rank,
    /// `http://wikiba.se/ontology#statements`.
    Statements,
    /// `http://wikiba.se/ontology#identifiers`.
    Identifiers,
    /// `http://wikiba.se/ontology#sitelinks`.
    Sitelinks,
    /// `http://wikiba.se/ontology#badge`.
    Badge,
    /// `http://wikiba.se/ontology#wikiGroup`.
    WikiGroup,
    /// `http://wikiba.se/ontology#propertyType`.
    PropertyType,
    /// `http://wikiba.se/ontology#directClaim`.
    DirectClaim,
    /// `http://wikiba.se/ontology#claim`.
    Claim,
    /// `http://wikiba.se/ontology#statementProperty`.
    StatementProperty,
    /// `http://wikiba.se/ontology#statementValue`.
    StatementValue,
    /// `http://wikiba.se/ontology#qualifier`.
    Qualifier,
    /// `http://wikiba.se/ontology#qualifierValue`.
    QualifierValue,
    /// `http://wikiba.se/ontology#reference`.
    Reference,
    /// `http://wikiba.se/ontology#referenceValue`.
    ReferenceValue,
    /// `http://wikiba.se/ontology#novalue`.
    Novalue,
    /// `http://wikiba.se/ontology#timeValue`.
    TimeValue,
    /// `http://wikiba.se/ontology#timePrecision`.
    TimePrecision,
    /// `http://wikiba.se/ontology#timeTimezone`.
    TimeTimezone,
    /// `http://wikiba.se/ontology#timeCalendarModel`.
    TimeCalendarModel,
    /// `http://wikiba.se/ontology#quantityAmount`.
    QuantityAmount,
    /// `http://wikiba.se/ontology#quantityUnit`.
    QuantityUnit,
    /// `http://wikiba.se/ontology#quantityUpperBound`.
    QuantityUpperBound,
    /// `http://wikiba.se/ontology#quantityLowerBound`.
    QuantityLowerBound,
    /// `http://wikiba.se/ontology#geoLatitude`.
    GeoLatitude,
    /// `http://wikiba.se/ontology#geoLongitude`.
    GeoLongitude,
    /// `http://wikiba.se/ontology#geoPrecision`.
    GeoPrecision,
    /// `http://wikiba.se/ontology#geoGlobe`.
    GeoGlobe,
    /// `http://purl.org/dc/terms/language`.
    Language,
    /// `http://wikiba.se/ontology#lexicalCategory`.
    LexicalCategory,
    /// `http://wikiba.se/ontology#lemma`.
    Lemma,
    /// `http://www.w3.org/ns/lemon/ontolex#lexicalForm`.
    LexicalForm,
    /// `http://www.w3.org/ns/lemon/ontolex#representation`.
    Representation,
    /// `http://wikiba.se/ontology#grammaticalFeature`.
    GrammaticalFeature,
    /// `http://www.w3.org/ns/lemon/ontolex#sense`.
    Sense,
    /// `http://www.w3.org/2004/02/skos/core#definition`.
    Definition,
}

impl Predicate {
    /// The text of the IRI.
    #[tactic(auto, unfolding(crate::specs::Predicate::predicate_text))]
    pub fn text(self) -> &'static str
        ensures { result.now ≡ predicate_text self }
    {
        match self {
            Predicate::RdfType => "http://www.w3.org/1999/02/22-rdf-syntax-ns#type",
            Predicate::Label => "http://www.w3.org/2000/01/rdf-schema#label",
            Predicate::PrefLabel => "http://www.w3.org/2004/02/skos/core#prefLabel",
            Predicate::AltLabel => "http://www.w3.org/2004/02/skos/core#altLabel",
            Predicate::Name => "http://schema.org/name",
            Predicate::Description => "http://schema.org/description",
            Predicate::About => "http://schema.org/about",
            Predicate::SoftwareVersion => "http://schema.org/softwareVersion",
            Predicate::Version => "http://schema.org/version",
            Predicate::DateModified => "http://schema.org/dateModified",
            Predicate::InLanguage => "http://schema.org/inLanguage",
            Predicate::IsPartOf => "http://schema.org/isPartOf",
            Predicate::License => "http://creativecommons.org/ns#license",
            Predicate::SameAs => "http://www.w3.org/2002/07/owl#sameAs",
            Predicate::WasDerivedFrom => "http://www.w3.org/ns/prov#wasDerivedFrom",
            Predicate::Rank => "http://wikiba.se/ontology#rank",
            Predicate::Statements => "http://wikiba.se/ontology#statements",
            Predicate::Identifiers => "http://wikiba.se/ontology#identifiers",
            Predicate::Sitelinks => "http://wikiba.se/ontology#sitelinks",
            Predicate::Badge => "http://wikiba.se/ontology#badge",
            Predicate::WikiGroup => "http://wikiba.se/ontology#wikiGroup",
            Predicate::PropertyType => "http://wikiba.se/ontology#propertyType",
            Predicate::DirectClaim => "http://wikiba.se/ontology#directClaim",
            Predicate::Claim => "http://wikiba.se/ontology#claim",
            Predicate::StatementProperty => "http://wikiba.se/ontology#statementProperty",
            Predicate::StatementValue => "http://wikiba.se/ontology#statementValue",
            Predicate::Qualifier => "http://wikiba.se/ontology#qualifier",
            Predicate::QualifierValue => "http://wikiba.se/ontology#qualifierValue",
            Predicate::Reference => "http://wikiba.se/ontology#reference",
            Predicate::ReferenceValue => "http://wikiba.se/ontology#referenceValue",
            Predicate::Novalue => "http://wikiba.se/ontology#novalue",
            Predicate::TimeValue => "http://wikiba.se/ontology#timeValue",
            Predicate::TimePrecision => "http://wikiba.se/ontology#timePrecision",
            Predicate::TimeTimezone => "http://wikiba.se/ontology#timeTimezone",
            Predicate::TimeCalendarModel => "http://wikiba.se/ontology#timeCalendarModel",
            Predicate::QuantityAmount => "http://wikiba.se/ontology#quantityAmount",
            Predicate::QuantityUnit => "http://wikiba.se/ontology#quantityUnit",
            Predicate::QuantityUpperBound => "http://wikiba.se/ontology#quantityUpperBound",
            Predicate::QuantityLowerBound => "http://wikiba.se/ontology#quantityLowerBound",
            Predicate::GeoLatitude => "http://wikiba.se/ontology#geoLatitude",
            Predicate::GeoLongitude => "http://wikiba.se/ontology#geoLongitude",
            Predicate::GeoPrecision => "http://wikiba.se/ontology#geoPrecision",
            Predicate::GeoGlobe => "http://wikiba.se/ontology#geoGlobe",
            Predicate::Language => "http://purl.org/dc/terms/language",
            Predicate::LexicalCategory => "http://wikiba.se/ontology#lexicalCategory",
            Predicate::Lemma => "http://wikiba.se/ontology#lemma",
            Predicate::LexicalForm => "http://www.w3.org/ns/lemon/ontolex#lexicalForm",
            Predicate::Representation => "http://www.w3.org/ns/lemon/ontolex#representation",
            Predicate::GrammaticalFeature => "http://wikiba.se/ontology#grammaticalFeature",
            Predicate::Sense => "http://www.w3.org/ns/lemon/ontolex#sense",
            Predicate::Definition => "http://www.w3.org/2004/02/skos/core#definition",
        }
    }

    /// The IRI.
    pub fn term(self, alloc: Global) -> Result<Term, OutOfMemory>
        ensures { IfOk result (λ term. term ≡ predicate_term self) }
    {
        Ok(Term::Iri(Text::new(alloc, self.text())?))
    }
}
