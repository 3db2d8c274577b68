// A triple read back from its texts.

ghost use Rattle.std.specs.Prelude.{◌≡◌, IfOk};
ghost use Rattle.rdf_term.specs.Undo.{undo};
ghost use Rattle.term_pool.specs.Pool.{IsCanonical};
ghost use Rattle.triple_catalog.specs.Slots.{HasCanonicalTexts, triple_of};

use rdf_term::{OutOfMemory, Term, Triple};
use std::alloc::Global;
use term_reading::read_term;
use triple_texts::TripleText;

// The triple of its texts.
pub(crate) fn read_row(alloc: Global, row: &TripleText<'_>) -> Result<Triple, OutOfMemory>
    requires { HasCanonicalTexts row.now }
    ensures { IfOk result (λ triple. triple ≡ triple_of row.now) }
{
    let subject = read_back(alloc, row.subject)?;
    let Ok(predicate) = read_back(alloc, row.predicate) else {
        drop(subject);
        return Err(OutOfMemory);
    };
    let Ok(object) = read_back(alloc, row.object) else {
        drop(predicate);
        drop(subject);
        return Err(OutOfMemory);
    };
    Ok(Triple {
        subject,
        predicate,
        object,
    })
}

// The term of a canonical text. A text that isn't UTF-8 has no term in memory; none comes from a term.
fn read_back(alloc: Global, bytes: &[u8]) -> Result<Term, OutOfMemory>
    requires { IsCanonical bytes.now }
    ensures { IfOk result (λ term. term ≡ undo bytes.now) }
{
    let Ok(text) = str::from_utf8(bytes) else {
        return Err(OutOfMemory);
    };
    match read_term(alloc, text)? {
        Some(term) => Ok(term),
        None => unreachable!(),
    }
}
