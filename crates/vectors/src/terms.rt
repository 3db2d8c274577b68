// Terms that are made of texts which may not stand as they are, and copies of terms.

use crate::tester::{Subject, Tester};
use rdf_term::{OutOfMemory, Term, iri, tagged, write_term};
use std::alloc::Global;
use term_reading::read_term;

// A text, and the IRI that is made of it: what may not stand in an IRI is percent-encoded, and all else stays.
const IRIS: &str = "a b => <a%20b>
http://a/ü%2B => <http://a/ü%2B>
<{|}^`> => <%3C%7B%7C%7D%5E%60%3E>";

// The language of a text, and the literal that is made of both: one without the language, where that is no tag.
const LANGUAGES: &str = "en => \"x\"@en
en-GB => \"x\"@en-GB
en_us => \"x\"
 => \"x\"";

// A term of each kind.
const TERMS: &str = "<http://a/b>
_:0a
\"a\"
\"a\"@en
\"1\"^^<http://a/c>";

// What is made of a text: an IRI, a literal in this language, or a copy of the term that it writes.
#[derive(Drop)]
enum Made {
    Iri,
    Literal,
    Copy,
}

impl Subject for Made {
    fn answer(&mut self, alloc: Global, given: &str, found: &mut Vec<u8>) -> Option<()> {
        match self {
            Made::Iri => write_made(iri(alloc, given), found),
            Made::Literal => write_made(tagged(alloc, "x", given), found),
            Made::Copy => write_copy(alloc, given, found),
        }
    }
}

// Writes a copy of the term that a text writes.
fn write_copy(alloc: Global, given: &str, found: &mut Vec<u8>) -> Option<()> {
    let Ok(Some(term)) = read_term(alloc, given) else {
        return None;
    };
    let copy = term.copy(alloc);
    drop(term);
    write_made(copy, found)
}

// Writes a term that was made.
fn write_made(made: Result<Term, OutOfMemory>, found: &mut Vec<u8>) -> Option<()> {
    let term = made.ok()?;
    let written = write_term(&term, found);
    drop(term);
    written.ok()
}

pub(crate) fn try_terms(tester: &mut Tester<'_>) {
    tester.try_rows("texts are IRIs", IRIS, &mut Made::Iri);
    tester.try_rows("texts have languages", LANGUAGES, &mut Made::Literal);
    tester.try_rows("terms are copied", TERMS, &mut Made::Copy);
}
