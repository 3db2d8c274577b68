// Terms that need no text to be known: words of the vocabulary, and ids behind a namespace.

ghost use Rattle.std.specs.Prelude.{◌≡◌, IfSome, IsTrue};
ghost use Rattle.triple_sink.specs.TermRef.{meant};
ghost use Rattle.triple_texts.specs.Words.{word_term};

use entity_model::EntityId;
use rdf_vocabulary::{Predicate, Prefix, Resource};
use triple_sink::TermRef;

// How many indices the predicates, the classes and the ids have.
const PREDICATES: usize = 64;

const RESOURCES: usize = 32;

const IDS: usize = 128;

// How many indices words have.
pub(crate) const INDICES: usize = PREDICATES + RESOURCES + IDS;

// A term by its word in the vocabulary, or by its namespace and its id.
#[derive(Clone, Copy)]
pub(crate) enum Word {
    Predicate(Predicate),
    Resource(Resource),
    Id(Prefix, EntityId),
}

impl Word {
    // The word of the term, where it is given by one.
    #[inline(always)]
    pub(crate) fn of(term: &TermRef<'_>) -> Option<Word>
        ensures { IfSome result (λ word. word_term word ≡ meant term.now) }
    {
        match term {
            TermRef::Predicate(word) => Some(Word::Predicate(*word)),
            TermRef::Resource(word) => Some(Word::Resource(*word)),
            TermRef::Id(prefix, id) => Some(Word::Id(*prefix, *id)),
            TermRef::Named(_, _)
            | TermRef::Iri(_)
            | TermRef::Blank(_)
            | TermRef::Plain(_)
            | TermRef::Lang(_, _)
            | TermRef::Typed(_, _) => None,
        }
    }

    // Whether it is the other word.
    #[inline(always)]
    pub(crate) fn is(self, other: Word) -> bool
        ensures { IsTrue result → word_term self ≡ word_term other }
    {
        match (self, other) {
            (Word::Predicate(one), Word::Predicate(two)) => one == two,
            (Word::Resource(one), Word::Resource(two)) => one == two,
            (Word::Id(one_prefix, one), Word::Id(two_prefix, two)) => {
                one_prefix == two_prefix && one.kind == two.kind && one.number == two.number
            }
            _ => false,
        }
    }

    // The index at which it is looked for. Words that share an index are compared.
    #[inline(always)]
    pub(crate) fn index(self) -> usize {
        match self {
            Word::Predicate(word) => word as usize % PREDICATES,
            Word::Resource(word) => PREDICATES + word as usize % RESOURCES,
            Word::Id(prefix, id) => {
                let mixed = id.number as usize + 13 * (prefix as usize);
                PREDICATES + RESOURCES + mixed % IDS
            }
        }
    }
}
