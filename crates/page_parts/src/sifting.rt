// The sink that keeps the triples that only one of two lists has.

ghost use Rattle.std.specs.Prelude.{◌≡◌, []};
ghost use Rattle.page_parts.specs.Marked.{found_of, kept_by};

use crate::marking::SoughtTexts;
use crate::marks::Marks;
use rdf_term::OutOfMemory;
use std::alloc::Global;
use triple_sink::{Subject, TermRef, TripleSink};
use triple_texts::TripleTexts;

// How many bytes the text of a subject that is looked for has at most behind its namespace. A longer one is the subject of few triples,
// or its page's author wants to have it written for each of many: then the sink refuses it, and the page is read in another way.
const LONGEST: usize = 4096;

/// A sink that keeps the marked triples, those that only one of two lists has. Where a subject is very long, it answers `OutOfMemory`.
#[derive(Drop)]
pub struct Sifted<'m, 'a> {
    marks: &'m Marks<'a>,
    sought: SoughtTexts,
    found: TripleTexts,
}

impl<'m, 'a> Sifted<'m, 'a> {
    /// No triples yet. It takes no memory.
    pub fn new(alloc: Global, marks: &'m Marks<'a>) -> Sifted<'m, 'a>
        ensures none { found_of result ≡ [] }
        ensures marks { result.marks.now ≡ marks.now }
    {
        Sifted {
            marks,
            sought: SoughtTexts {
                subject: Vec::new(alloc),
                predicate: Vec::new(alloc),
                object: Vec::new(alloc),
            },
            found: TripleTexts::new(alloc),
        }
    }

    /// The triples that it found.
    pub fn found(&self) -> &TripleTexts
        ensures { result.now ≡ found_of self.now }
    {
        &self.found
    }
}

impl<'m, 'a> TripleSink for Sifted<'m, 'a> {
    ghost items = { λ sifted. found_of sifted };

    ghost keeps = { λ sifted triple. kept_by sifted triple };

    fn emit(
        &mut self,
        alloc: Global,
        subject: &TermRef<'_>,
        predicate: &TermRef<'_>,
        object: &TermRef<'_>,
    ) -> Result<(), OutOfMemory> {
        if is_long(subject) {
            return Err(OutOfMemory);
        }
        if self
            .marks
            .has_marked(subject, predicate, object, &mut self.sought)?
        {
            return self.found.emit(alloc, subject, predicate, object);
        }
        Ok(())
    }

    // Where a triple that was found has the subject, its text isn't written again.
    fn emit_known(
        &mut self,
        alloc: Global,
        subject: &Subject<'_>,
        predicate: &TermRef<'_>,
        object: &TermRef<'_>,
    ) -> Result<(), OutOfMemory> {
        if is_long(&subject.term) {
            return Err(OutOfMemory);
        }
        if self
            .marks
            .has_marked(&subject.term, predicate, object, &mut self.sought)?
        {
            return self.found.emit_known(alloc, subject, predicate, object);
        }
        Ok(())
    }

    fn known_index(&self, subject: &TermRef<'_>) -> Option<usize> {
        self.found.known_index(subject)
    }
}

// Whether the text of a term is very long.
pub(crate) fn is_long(term: &TermRef<'_>) -> bool {
    match term {
        TermRef::Named(_, name) => name.len() > LONGEST,
        TermRef::Iri(iri) => iri.len() > LONGEST,
        TermRef::Blank(label) => label.len() > LONGEST,
        TermRef::Plain(_) | TermRef::Lang(_, _) | TermRef::Typed(_, _) => true,
        TermRef::Predicate(_) | TermRef::Resource(_) | TermRef::Id(_, _) => false,
    }
}
