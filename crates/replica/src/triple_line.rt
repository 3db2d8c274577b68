// The texts of a triple's terms in the line that it has in a record, and the terms that they are.

ghost use Rattle.std.specs.Prelude.{◌≡◌, ◌↔◌, ◌≤◌, ◌++◌, ◌∷◌, [], IfNone, IfOk, IfSome, IsTrue, MatchOption, Some, length};
ghost use Rattle.rdf_term.specs.{declared.term.Term.Term as TheTerm, declared.triple.Triple.Triple as TheTriple, Text.term_text};
ghost use Rattle.triple_sink.specs.TermRef.{meant};
ghost use Rattle.replica.specs.TripleLine.{AreTermTexts, IsTermText, IsTripleLine, borrowed};

use crate::plain_term::plain_term;
use crate::term_end::split_term;
use rdf_term::{OutOfMemory, Term, Triple, write_term};
use std::alloc::Global;
use term_reading::read_term;
use triple_sink::TermRef;
use triple_texts::TripleText;

// The most bytes that the canonical text of a term may have.
const LONGEST_TERM: usize = 33_554_432;

/// A triple that borrows the texts of its terms.
#[derive(Clone, Copy)]
pub struct TripleRef<'a> {
    pub subject: TermRef<'a>,
    pub predicate: TermRef<'a>,
    pub object: TermRef<'a>,
}

/// The texts of a line's terms, without its line feed. `None` if it isn't the line of a triple. If it is one, these are the texts of its
/// terms.
pub fn line_texts(line: &[u8]) -> Option<TripleText<'_>>
    ensures some { IfSome result (λ texts. (triple : TheTriple) → IsTripleLine line.now triple ↔ AreTermTexts texts triple) }
    ensures none { IfNone result ((triple : TheTriple) → IsTripleLine line.now triple → ⊥) }
{
    split_line(line)
}

// The same, by the places of the line's spaces.
fn split_line(line: &[u8]) -> Option<TripleText<'_>>
    ensures parts { IfSome result (λ texts. line.now ≡ texts.subject.now ++ 32 ∷ (texts.predicate.now ++ 32 ∷ (texts.object.now ++ 32 ∷ 46 ∷ []))) }
    ensures whole { (triple : TheTriple) → IsTripleLine line.now triple → MatchOption result ⊥ (λ texts.
        (texts.subject.now ≡ term_text triple.subject) × (texts.predicate.now ≡ term_text triple.predicate) × (texts.object.now ≡ term_text triple.object)) }
{
    let (subject, rest) = split_term(line)?;
    let (predicate, rest) = split_term(rest)?;
    let (object, rest) = split_term(rest)?;
    if rest != b".".as_slice() {
        return None;
    }
    Some(TripleText {
        subject,
        predicate,
        object,
    })
}

/// The triple with these texts, if nothing in them is written by an escape. It takes no memory. `None` says nothing of the texts.
pub fn plain_triple(texts: TripleText<'_>) -> Option<TripleRef<'_>>
    ensures { IfSome result (λ found. AreTermTexts texts.entry (borrowed found)) }
{
    let subject = short_term(texts.subject)?;
    let predicate = short_term(texts.predicate)?;
    let object = short_term(texts.object)?;
    Some(TripleRef {
        subject,
        predicate,
        object,
    })
}

// The term with this text, if nothing in it is written by an escape and it isn't too long.
fn short_term(bytes: &[u8]) -> Option<TermRef<'_>>
    ensures { IfSome result (λ found. IsTermText bytes.now (meant found)) }
{
    if bytes.len() > LONGEST_TERM {
        None
    } else {
        plain_term(bytes)
    }
}

/// The triple with these texts, in memory of its own. `None` if they aren't the canonical texts of fit terms that have at most 32 MiB each.
pub fn read_texts(alloc: Global, texts: TripleText<'_>) -> Result<Option<Triple>, OutOfMemory>
    ensures { IfOk result (λ found. (triple : TheTriple) → (found ≡ Some triple) ↔ AreTermTexts texts.entry triple) }
{
    let subject = canonical_term(alloc, texts.subject)?;
    let Ok(predicate) = canonical_term(alloc, texts.predicate) else {
        drop(subject);
        return Err(OutOfMemory);
    };
    let Ok(object) = canonical_term(alloc, texts.object) else {
        drop(subject);
        drop(predicate);
        return Err(OutOfMemory);
    };
    Ok(triple_of(subject, predicate, object))
}

// The triple, where all its terms are there.
fn triple_of(subject: Option<Term>, predicate: Option<Term>, object: Option<Term>) -> Option<Triple>
    ensures { (triple : TheTriple) → (result ≡ Some triple) ↔ ((subject ≡ Some triple.subject) × (predicate ≡ Some triple.predicate) × (object ≡ Some triple.object)) }
{
    let Some(subject) = subject else {
        drop(predicate);
        drop(object);
        return None;
    };
    let Some(predicate) = predicate else {
        drop(subject);
        drop(object);
        return None;
    };
    let Some(object) = object else {
        drop(subject);
        drop(predicate);
        return None;
    };
    Some(Triple {
        subject,
        predicate,
        object,
    })
}

// The term whose canonical text this is, where it is fit and the text isn't too long: by reading it and writing its text.
fn canonical_term(alloc: Global, bytes: &[u8]) -> Result<Option<Term>, OutOfMemory>
    ensures { IfOk result (λ found. (term : TheTerm) → (found ≡ Some term) ↔ IsTermText bytes.now term) }
{
    if bytes.len() > LONGEST_TERM {
        return Ok(None);
    }
    any_term(alloc, bytes)
}

// The same for a text that isn't too long.
fn any_term(alloc: Global, bytes: &[u8]) -> Result<Option<Term>, OutOfMemory>
    requires { length bytes.now ≤ 33_554_432 }
    ensures { IfOk result (λ found. (term : TheTerm) → (found ≡ Some term) ↔ IsTermText bytes.now term) }
{
    let Ok(text) = str::from_utf8(bytes) else {
        return Ok(None);
    };
    let Some(term) = read_term(alloc, text)? else {
        return Ok(None);
    };
    match is_text_of(alloc, bytes, &term) {
        Ok(true) => Ok(Some(term)),
        Ok(false) => {
            drop(term);
            Ok(None)
        }
        Err(refused) => {
            drop(term);
            Err(refused)
        }
    }
}

// Whether the bytes are the canonical text of the term.
fn is_text_of(alloc: Global, bytes: &[u8], term: &Term) -> Result<bool, OutOfMemory>
    ensures { IfOk result (λ same. IsTrue same ↔ (bytes.now ≡ term_text term.now)) }
{
    let mut written = Vec::with_capacity(alloc, bytes.len())?;
    write_term(term, &mut written)?;
    Ok(written.as_slice() == bytes)
}
