// What becomes of a triple.

ghost use Rattle.std.specs.Prelude.{◌≡◌, ◌++◌, IfOk};
ghost use Rattle.rdf_vocabulary.specs.{Predicate.predicate_term, Prefix.prefix_text, Resource.resource_term};
ghost use Rattle.triple_sink.specs.TermRef.{meant, meant_triple};
ghost use Rattle.munger.specs.Iris.{dataset_iri, entity_iri, is_data, is_iri_of, is_predicate};
ghost use Rattle.munger.specs.Verdict.{has_dropped_type, is_moved, is_other_name, is_dropped_class};

use crate::iris::{is_iri_of, is_predicate, is_resource};
use entity_model::EntityId;
use rdf_term::{OutOfMemory, Text};
use rdf_vocabulary::{Predicate, Prefix, Resource};
use std::alloc::Global;
use triple_sink::TermRef;

/// What becomes of a triple of the dump.
#[derive(Clone, Copy, PartialEq, Eq)]
pub(crate) enum Verdict {
    /// It is kept, and said of the entity in place of the dataset that describes it.
    Moved,
    /// It is left out.
    Dropped,
    /// It is kept with its subject.
    Kept,
}

/// The page whose triples are judged: its entity, and the dataset that describes it.
#[derive(Drop)]
pub struct Page {
    /// The entity.
    pub id: EntityId,
    entity: Text,
    dataset: Text,
    ghost entity_is: { entity ≡ entity_iri id },
    ghost dataset_is: { dataset ≡ dataset_iri id },
}

impl Page {
    ghost use Rattle.munger.specs.Verdict.{repeats_label, verdict};

    /// The page of the entity.
    pub fn new(alloc: Global, id: EntityId) -> Result<Page, OutOfMemory>
        ensures { IfOk result (λ page. page.id ≡ id) }
    {
        let text = id.text(alloc)?;
        let entity = iri(alloc, Prefix::Wd, text.as_str())?;
        let dataset = iri(alloc, Prefix::Data, text.as_str())?;
        Ok(Page {
            id,
            entity,
            dataset,
        })
    }

    // What becomes of the triple, by the first rule that names it.
    #[tactic(auto, using(crate::proofs::Namespaces::no_type, crate::proofs::Namespaces::no_preferred_label, crate::proofs::Namespaces::no_name))]
    #[inline(always)]
    pub(crate) fn verdict(
        &self,
        subject: &TermRef<'_>,
        predicate: &TermRef<'_>,
        object: &TermRef<'_>,
    ) -> Verdict
        ensures { result ≡ verdict self.now.id (meant_triple subject.now predicate.now object.now) }
    {
        if self.is_dataset(subject) {
            return if is_moved(predicate) {
                Verdict::Moved
            } else {
                Verdict::Dropped
            };
        }
        // A property's predicate is named by its namespace, and no rule names one.
        if let TermRef::Id(_, _) | TermRef::Named(_, _) = predicate {
            return Verdict::Kept;
        }
        if has_dropped_type(subject, predicate, object)
            || self.repeats_label(subject, predicate, object)
        {
            return Verdict::Dropped;
        }
        Verdict::Kept
    }

    // Whether the term is the dataset.
    #[tactic(auto, using(crate::proofs::Namespaces::other_namespace))]
    fn is_dataset(&self, term: &TermRef<'_>) -> bool
        ensures { result ≡ is_iri_of (dataset_iri self.now.id) (meant term.now) }
    {
        match term {
            TermRef::Named(prefix, _) if !is_data(*prefix) => false,
            TermRef::Id(prefix, _) if !is_data(*prefix) => false,
            _ => is_iri_of(term, self.dataset.as_str()),
        }
    }

    // Whether the triple has the entity's label again, under another name.
    fn repeats_label(
        &self,
        subject: &TermRef<'_>,
        predicate: &TermRef<'_>,
        object: &TermRef<'_>,
    ) -> bool
        ensures { result ≡ repeats_label self.now.id (meant_triple subject.now predicate.now object.now) }
    {
        let _object = object;
        is_other_name(predicate) && self.is_entity(subject)
    }

    // Whether the term is the entity.
    #[tactic(auto, using(crate::proofs::Joined::same_text))]
    fn is_entity(&self, term: &TermRef<'_>) -> bool
        ensures { result ≡ is_iri_of (entity_iri self.now.id) (meant term.now) }
    {
        match term {
            TermRef::Id(Prefix::Wd, id) if *id == self.id => true,
            _ => is_iri_of(term, self.entity.as_str()),
        }
    }
}

// Whether the dataset's triples with the predicate are moved to the entity.
fn is_moved(predicate: &TermRef<'_>) -> bool
    ensures { result ≡ is_moved (meant predicate.now) }
{
    match predicate {
        TermRef::Predicate(word) => moves(*word),
        _ => {
            is_predicate(predicate, Predicate::Version)
                || is_predicate(predicate, Predicate::DateModified)
                || is_predicate(predicate, Predicate::Statements)
                || is_predicate(predicate, Predicate::Sitelinks)
                || is_predicate(predicate, Predicate::Identifiers)
        }
    }
}

// Whether the dataset's triples with a word are moved.
#[tactic(auto, unfolding(rdf_vocabulary::specs::Predicate::predicate_text))]
fn moves(word: Predicate) -> bool
    ensures { result ≡ is_moved (predicate_term word) }
{
    matches!(
        word,
        Predicate::Version
            | Predicate::DateModified
            | Predicate::Statements
            | Predicate::Sitelinks
            | Predicate::Identifiers
    )
}

// Whether the triple has a type that is dropped.
fn has_dropped_type(subject: &TermRef<'_>, predicate: &TermRef<'_>, object: &TermRef<'_>) -> bool
    ensures { result ≡ has_dropped_type (meant_triple subject.now predicate.now object.now) }
{
    let _subject = subject;
    is_type(predicate) && is_dropped_class(object)
}

// Whether the predicate says the type of a node.
fn is_type(predicate: &TermRef<'_>) -> bool
    ensures { result ≡ is_predicate Predicate.RdfType (meant predicate.now) }
{
    match predicate {
        TermRef::Predicate(word) => tells_type(*word),
        _ => is_predicate(predicate, Predicate::RdfType),
    }
}

// Whether the word says the type of a node.
#[tactic(auto, unfolding(rdf_vocabulary::specs::Predicate::predicate_text))]
fn tells_type(word: Predicate) -> bool
    ensures { result ≡ is_predicate Predicate.RdfType (predicate_term word) }
{
    matches!(word, Predicate::RdfType)
}

// Whether the term is a type that is dropped.
fn is_dropped_class(class: &TermRef<'_>) -> bool
    ensures { result ≡ is_dropped_class (meant class.now) }
{
    match class {
        TermRef::Resource(word) => is_dropped_word(*word),
        _ => {
            is_resource(class, Resource::Item)
                || is_resource(class, Resource::Statement)
                || is_resource(class, Resource::Reference)
        }
    }
}

// Whether the word is a type that is dropped.
#[tactic(auto, unfolding(rdf_vocabulary::specs::Resource::resource_text))]
fn is_dropped_word(word: Resource) -> bool
    ensures { result ≡ is_dropped_class (resource_term word) }
{
    matches!(
        word,
        Resource::Item | Resource::Statement | Resource::Reference
    )
}

// Whether the predicate is another name of `rdfs:label`.
fn is_other_name(predicate: &TermRef<'_>) -> bool
    ensures { result ≡ is_other_name (meant predicate.now) }
{
    match predicate {
        TermRef::Predicate(word) => names_again(*word),
        _ => {
            is_predicate(predicate, Predicate::PrefLabel)
                || is_predicate(predicate, Predicate::Name)
        }
    }
}

// Whether the word is another name of `rdfs:label`.
#[tactic(auto, unfolding(rdf_vocabulary::specs::Predicate::predicate_text))]
fn names_again(word: Predicate) -> bool
    ensures { result ≡ is_other_name (predicate_term word) }
{
    matches!(word, Predicate::PrefLabel | Predicate::Name)
}

// Whether the namespace is that of the datasets.
fn is_data(prefix: Prefix) -> bool
    ensures { result ≡ is_data prefix }
{
    matches!(prefix, Prefix::Data)
}

// The IRI of a name in a namespace.
fn iri(alloc: Global, prefix: Prefix, name: &str) -> Result<Text, OutOfMemory>
    ensures { IfOk result (λ iri. iri ≡ prefix_text prefix ++ name.now) }
{
    let mut iri = String::new(alloc);
    iri.push_str(prefix.text())?;
    iri.push_str(name)?;
    Ok(Text::from_string(iri))
}
