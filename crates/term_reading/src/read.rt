// Terms read from their texts.

ghost use Rattle.std.specs.Prelude.{◌≡◌, ◌↔◌, IfOk, IfSome, Some, true};
ghost use Rattle.std.specs.Option.{option_map};
ghost use Rattle.rdf_term.specs.{declared.term.Term.Term, Fit.is_fit, Text.term_text};
ghost use Rattle.term_reading.specs.Reader.{behind, blank_in, iri_in, literal_in, literal_with, read, split_ascii, typed_in};
ghost use Rattle.term_reading.specs.Written.{IsWritten, literal_of_type};

use crate::content::{Enclosure, content};
use crate::label::is_label;
use base::{OutOfMemory, Text};
use rdf_term::{Term, is_tag};
use std::alloc::Global;

// The datatype of plain literals.
const XSD_STRING: &str = "http://www.w3.org/2001/XMLSchema#string";

/// The term that the whole text writes, by the grammar of N-Triples; `None` where it writes none. A
/// literal of the datatype `xsd:string` is read as plain text, and a tag keeps its case.
pub fn read_term(alloc: Global, text: &str) -> Result<Option<Term>, OutOfMemory>
    ensures written { IfOk result (λ found. (term : Term) → (found ≡ Some term) ↔ IsWritten text.now term) }
    ensures fit { IfOk result (λ found. IfSome found (λ term. is_fit term ≡ true)) }

    // Reading the canonical text of a fit term gives the term.
    ensures back { IfOk result
        (λ found. (term : Term) → is_fit term ≡ true → text.now ≡ term_text term → found ≡ Some term) }
{
    read(alloc, text)
}

// The term that the whole text writes.
#[tactic(auto, unfolding(crate::specs::Reader::read))]
fn read(alloc: Global, text: &str) -> Result<Option<Term>, OutOfMemory>
    ensures { IfOk result (λ found. found ≡ read text.now) }
{
    match split_ascii(text) {
        Some((b'<', rest)) => Ok(read_iri(alloc, rest)?.map(Term::Iri)),
        Some((b'_', rest)) => read_blank(alloc, rest),
        Some((b'"', rest)) => read_literal(alloc, rest),
        _ => Ok(None),
    }
}

// The IRI whose bracket stands before the text.
fn read_iri(alloc: Global, text: &str) -> Result<Option<Text>, OutOfMemory>
    ensures { IfOk result (λ found. found ≡ iri_in text.now) }
{
    match content(alloc, Enclosure::Brackets, text)? {
        Some((iri, rest)) if rest.is_empty() => Ok(Some(iri)),
        _ => Ok(None),
    }
}

// The blank node whose underscore stands before the text.
fn read_blank(alloc: Global, text: &str) -> Result<Option<Term>, OutOfMemory>
    ensures { IfOk result (λ found. found ≡ blank_in text.now) }
{
    match behind(b':', text) {
        Some(label) if is_label(label.as_bytes()) => Ok(Some(Term::Blank(Text::new(
            alloc, label,
        )?))),
        _ => Ok(None),
    }
}

// The literal whose quote stands before the text.
fn read_literal(alloc: Global, text: &str) -> Result<Option<Term>, OutOfMemory>
    ensures { IfOk result (λ found. found ≡ literal_in text.now) }
{
    match content(alloc, Enclosure::Quotes, text)? {
        Some((text, rest)) => read_suffix(alloc, text, rest),
        None => Ok(None),
    }
}

// The literal of the text, by what stands behind its closing quote.
fn read_suffix(alloc: Global, text: Text, rest: &str) -> Result<Option<Term>, OutOfMemory>
    ensures { IfOk result (λ found. found ≡ literal_with text rest.now) }
{
    if rest.is_empty() {
        return Ok(Some(Term::Plain(text)));
    }
    match split_ascii(rest) {
        Some((b'@', tag)) if is_tag(tag.as_bytes()) => Ok(Some(Term::Lang(
            text,
            Text::new(alloc, tag)?,
        ))),
        Some((b'^', rest)) => read_typed(alloc, text, rest),
        _ => Ok(None),
    }
}

// The literal of the text, whose datatype's first `^` stands before the rest.
fn read_typed(alloc: Global, text: Text, rest: &str) -> Result<Option<Term>, OutOfMemory>
    ensures { IfOk result (λ found. found ≡ typed_in text rest.now) }
{
    let Some(rest) = behind(b'^', rest) else {
        return Ok(None);
    };
    let Some(rest) = behind(b'<', rest) else {
        return Ok(None);
    };
    match read_iri(alloc, rest)? {
        Some(datatype) => Ok(Some(literal_of_type(text, datatype))),
        None => Ok(None),
    }
}

// The literal of the text and the datatype.
#[tactic(auto, unfolding(rdf_term::specs::Fit::xsd_string))]
fn literal_of_type(text: Text, datatype: Text) -> Term
    ensures { result ≡ literal_of_type text datatype }
{
    if datatype.as_str() == XSD_STRING {
        Term::Plain(text)
    } else {
        Term::Typed(text, datatype)
    }
}

// What stands behind the byte, where it comes first.
fn behind(byte: u8, text: &str) -> Option<&str>
    ensures { option_map (λ rest. rest.now) result ≡ behind byte text.now }
{
    match split_ascii(text) {
        Some((first, rest)) if first == byte => Some(rest),
        _ => None,
    }
}

// The first byte and what follows, where it is ASCII.
#[tactic(auto, using(crate::proofs::FirstBytes::split_ascii_high))]
fn split_ascii(text: &str) -> Option<(u8, &str)>
    ensures { option_map (λ p. (p.0, p.1.now)) result ≡ split_ascii text.now }
{
    let mut left = text.chars();
    let first = left.next()?;
    if first.is_ascii() {
        Some((first as u8, left.as_str()))
    } else {
        None
    }
}
