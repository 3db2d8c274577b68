// The terms that texts write.

ghost use Rattle.std.specs.Prelude.{◌≡◌, IfOk, IfSome, true};
ghost use Rattle.rdf_term.specs.{Grammar.is_iri, Text.in_brackets};
ghost use Rattle.term_reading.specs.Reader.{read as term_of};

use rdf_term::{OutOfMemory, Term, Text, is_iri};
use std::alloc::Global;
use term_reading::read_term;

// The term that a text writes.
#[tactic(auto, using(crate::proofs::TermReading::iri_read))]
pub(crate) fn term(alloc: Global, text: &str) -> Result<Option<Term>, OutOfMemory>
    ensures { IfOk result (λ found. found ≡ term_of text.now) }
{
    match iri_in(text) {
        Some(iri) => Ok(Some(Term::Iri(Text::new(alloc, iri)?))),
        None => any_term(alloc, text),
    }
}

// The same, by its pieces.
#[tactic(auto, using(crate::proofs::TermReading::answer_read))]
fn any_term(alloc: Global, text: &str) -> Result<Option<Term>, OutOfMemory>
    ensures { IfOk result (λ found. found ≡ term_of text.now) }
{
    read_term(alloc, text)
}

// The IRI that a text writes without an escape.
fn iri_in(text: &str) -> Option<&str>
    ensures { IfSome result (λ iri. (text.now ≡ in_brackets iri.now) × (is_iri iri.now ≡ true)) }
{
    let inner = text.strip_prefix('<')?;
    let iri = inner.strip_suffix('>')?;
    if is_iri(iri) { Some(iri) } else { None }
}
