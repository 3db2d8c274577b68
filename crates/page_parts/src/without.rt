// The sink that leaves marked triples out.

ghost use Rattle.std.specs.Prelude.{◌≡◌};
ghost use Rattle.page_parts.specs.Marked.{left_of};

use crate::marking::SoughtTexts;
use crate::marks::Marks;
use crate::sifting::is_long;
use rdf_term::OutOfMemory;
use std::alloc::Global;
use triple_sink::{Subject, TermRef, TripleSink};

/// A sink that hands on to another what isn't marked. Where a subject is very long, it answers `OutOfMemory`.
#[derive(Drop)]
pub struct Without<'m, 'a, S> {
    marks: &'m Marks<'a>,
    sought: SoughtTexts,
    /// The sink that the triples are handed on to.
    pub inner: S,
}

impl<'m, 'a, S> Without<'m, 'a, S> {
    /// The other sink, which is handed nothing that is marked. It takes no memory.
    pub fn new(alloc: Global, marks: &'m Marks<'a>, inner: S) -> Without<'m, 'a, S>
        ensures inner { result.inner ≡ inner }
        ensures marks { result.marks.now ≡ marks.now }
    {
        Without {
            marks,
            sought: SoughtTexts {
                subject: Vec::new(alloc),
                predicate: Vec::new(alloc),
                object: Vec::new(alloc),
            },
            inner,
        }
    }
}

impl<'m, 'a, S: TripleSink> TripleSink for Without<'m, 'a, S> {
    ghost items = { λ sink. S.items sink.inner };

    ghost keeps = { λ sink triple. left_of sink.marks.now (S.keeps sink.inner) triple };

    fn emit(
        &mut self,
        alloc: Global,
        subject: &TermRef<'_>,
        predicate: &TermRef<'_>,
        object: &TermRef<'_>,
    ) -> Result<(), OutOfMemory> {
        if is_long(subject) {
            return Err(OutOfMemory);
        }
        if self
            .marks
            .has_marked(subject, predicate, object, &mut self.sought)?
        {
            return Ok(());
        }
        self.inner.emit(alloc, subject, predicate, object)
    }

    fn emit_known(
        &mut self,
        alloc: Global,
        subject: &Subject<'_>,
        predicate: &TermRef<'_>,
        object: &TermRef<'_>,
    ) -> Result<(), OutOfMemory> {
        if is_long(&subject.term) {
            return Err(OutOfMemory);
        }
        if self
            .marks
            .has_marked(&subject.term, predicate, object, &mut self.sought)?
        {
            return Ok(());
        }
        self.inner.emit_known(alloc, subject, predicate, object)
    }

    // What the other sink holds is what this one does.
    fn known_index(&self, subject: &TermRef<'_>) -> Option<usize> {
        self.inner.known_index(subject)
    }
}
