// Long texts, which aren't written again where they stand already.
//
// The texts of a page are its author's. A statement's id or an article's title may have millions of bytes and be the subject of tens of
// thousands of triples; written for each, a page of 8 MB would take hundreds of gigabytes. So of the long subjects the last of each size
// (by powers of two) is remembered, and a subject of this size is compared with it before it is written. Two long subjects of one size that
// alternate are written again and again; but writing one again costs at most twice the bytes that the page spends on the other. A
// statement's qualifiers and references and an article's badges have a subject whose index is known, and it isn't even compared.

ghost use Rattle.std.specs.Prelude.{◌≡◌, ◌≢◌, ℕ, List, ◌++◌, IsTrue, MatchOption};
ghost use Rattle.rdf_term.specs.Text.{in_brackets, term_text};
ghost use Rattle.triple_sink.specs.TermRef.{meant};

use crate::span::Span;
use triple_sink::TermRef;

// How many bytes a text has at most that isn't long.
const SHORT: usize = 127;

// How many sizes there are.
const SIZES: usize = 64;

// How many bytes the text of an IRI has.
pub(crate) fn iri_len(term: &TermRef<'_>) -> Option<usize> {
    let (front, name) = match term {
        TermRef::Named(prefix, name) => (prefix.text(), *name),
        TermRef::Iri(text) => ("", *text),
        _ => return None,
    };
    Some(front.len().saturating_add(name.len()).saturating_add(2))
}

// The size of a long text of this length by powers of two; the longer, the smaller the number.
pub(crate) fn long_size(len: Option<usize>) -> Option<usize> {
    match len {
        Some(len) if len > SHORT => Some(len.leading_zeros() as usize),
        _ => None,
    }
}

// Remembers where the last long text of its size lies. Where memory for it is refused, nothing is remembered.
pub(crate) fn remember(long: &mut Vec<Span>, size: Option<usize>, span: Span) {
    let Some(size) = size else {
        return;
    };
    if long.is_empty() && long.resize(SIZES, span).is_err() {
        return;
    }
    if size < long.len() {
        long[size] = span;
    }
}

// Whether the text is the canonical one of the term, judged only for terms whose texts may be long; false for others.
pub(crate) fn is_text(term: &TermRef<'_>, text: &[u8]) -> bool
    ensures { IsTrue result → text.now ≡ term_text (meant term.now) }
{
    match text {
        [b'<', iri @ .., b'>'] => is_iri(term, iri),
        _ => false,
    }
}

// Whether the term is the IRI.
fn is_iri(term: &TermRef<'_>, iri: &[u8]) -> bool
    ensures { IsTrue result → in_brackets iri.now ≡ term_text (meant term.now) }
{
    match term {
        TermRef::Named(prefix, name) => is_joined(prefix.text(), name, iri),
        TermRef::Iri(text) => text.as_bytes() == iri,
        _ => false,
    }
}

// Whether the text is the one behind the other.
fn is_joined(front: &str, back: &str, text: &[u8]) -> bool
    ensures { IsTrue result → text.now ≡ front.now ++ back.now }
{
    match strip_prefix(front.as_bytes(), text) {
        Some(rest) => rest == back.as_bytes(),
        None => false,
    }
}

// What follows the front in the text.
fn strip_prefix<'a>(front: &[u8], text: &'a [u8]) -> Option<&'a [u8]>
    ensures { MatchOption result ((rest : List ℕ) → text.now ≢ front.now ++ rest) (λ rest. text.now ≡ front.now ++ rest.now) }
{
    text.strip_prefix(front)
}
