// Borrowed terms, compared with IRIs without a text made.

ghost use Rattle.std.specs.Prelude.{◌≡◌, ◌≢◌, ℕ, List, ◌++◌, decimal, MatchOption};
ghost use Rattle.std.specs.Str.{bytes_eq};
ghost use Rattle.entity_model.specs.{EntityId.id_text, IdKind.letter_of};
ghost use Rattle.triple_sink.specs.TermRef.{meant};
ghost use Rattle.munger.specs.Iris.{is_iri_of, is_predicate, is_resource};

use entity_model::{EntityId, IdKind};
use itoa::Buffer;
use rdf_vocabulary::{Predicate, Resource};
use triple_sink::TermRef;

/// Whether the term is the IRI with this text.
pub(crate) fn is_iri_of(term: &TermRef<'_>, iri: &str) -> bool
    ensures { result ≡ is_iri_of iri.now (meant term.now) }
{
    match term {
        TermRef::Predicate(word) => word.text() == iri,
        TermRef::Resource(word) => word.text() == iri,
        TermRef::Named(prefix, name) => is_joined(prefix.text(), name, iri),
        TermRef::Id(prefix, id) => is_id_behind(prefix.text(), *id, iri),
        TermRef::Iri(text) => *text == iri,
        TermRef::Blank(_) | TermRef::Plain(_) | TermRef::Lang(_, _) | TermRef::Typed(_, _) => false,
    }
}

/// Whether the term is the predicate.
pub(crate) fn is_predicate(term: &TermRef<'_>, word: Predicate) -> bool
    ensures { result ≡ is_predicate word (meant term.now) }
{
    is_iri_of(term, word.text())
}

/// Whether the term is the class.
pub(crate) fn is_resource(term: &TermRef<'_>, word: Resource) -> bool
    ensures { result ≡ is_resource word (meant term.now) }
{
    is_iri_of(term, word.text())
}

// Whether the text is the one behind the other.
#[tactic(auto, using(crate::proofs::Joined::joined, crate::proofs::Joined::not_joined))]
fn is_joined(front: &str, back: &str, text: &str) -> bool
    ensures { result ≡ bytes_eq (front.now ++ back.now) text.now }
{
    match strip_prefix(front.as_bytes(), text.as_bytes()) {
        Some(rest) => back.as_bytes() == rest,
        None => false,
    }
}

// Whether the text is that of the id behind the other.
#[tactic(auto, using(crate::proofs::Joined::joined, crate::proofs::Joined::not_joined))]
fn is_id_behind(front: &str, id: EntityId, text: &str) -> bool
    ensures { result ≡ bytes_eq (front.now ++ id_text id) text.now }
{
    match strip_prefix(front.as_bytes(), text.as_bytes()) {
        Some(rest) => is_id_text(id, rest),
        None => false,
    }
}

// What follows the front in the text.
fn strip_prefix<'a>(front: &[u8], text: &'a [u8]) -> Option<&'a [u8]>
    ensures { MatchOption result ((rest : List ℕ) → text.now ≢ front.now ++ rest) (λ rest. text.now ≡ front.now ++ rest.now) }
{
    text.strip_prefix(front)
}

// Whether the text is that of the id.
fn is_id_text(id: EntityId, text: &[u8]) -> bool
    ensures { result ≡ bytes_eq (id_text id) text.now }
{
    match text {
        [letter, digits @ ..] => letter_of(id.kind) == *letter && is_decimal(id.number, digits),
        [] => false,
    }
}

// The letter of the ids of a kind.
fn letter_of(kind: IdKind) -> u8
    ensures { result ≡ letter_of kind }
{
    match kind {
        IdKind::P => b'P',
        IdKind::Q => b'Q',
        IdKind::L => b'L',
    }
}

// Whether the text is the number in decimal.
fn is_decimal(number: u32, text: &[u8]) -> bool
    ensures { result ≡ bytes_eq (decimal number) text.now }
{
    let mut buffer = Buffer::new();
    buffer.format(number).as_bytes() == text
}
