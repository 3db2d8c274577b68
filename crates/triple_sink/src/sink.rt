// What takes triples.

ghost use Rattle.std.specs.Prelude.{[], ◌∷◌, ◌++◌, OnOk};
ghost use Rattle.triple_sink.specs.{Gains.Gains, Gains.KeepsFront, TermRef.meant_triple};

use crate::subject::Subject;
use crate::term_ref::TermRef;
use rdf_term::{List, OutOfMemory, Triple};
use std::alloc::Global;

/// What takes triples. It says which triples it holds, and what it keeps of a triple that it is handed. Whatever a call answers, what it
/// held still stands in front.
pub trait TripleSink {
    ghost use Rattle.std.specs.Prelude.{List as Items, IfSome};
    ghost use Rattle.rdf_term.specs.declared.triple.Triple.{Triple};
    ghost use Rattle.triple_sink.specs.{Gains.Gains, Gains.KeepsFront, Subject.HasSubject, Subject.IsKnown};
    ghost use Rattle.triple_sink.specs.TermRef.{meant, meant_triple};

    // The triples that it holds, in the order in which they came.
    ghost items: { Self → Items Triple };

    // What it keeps of a triple: nothing, the triple or others in its place. No call changes this.
    ghost keeps: { Self → Triple → Items Triple };

    /// Takes the triple of the three terms. After `OutOfMemory` it holds what it held, and perhaps more behind that.
    fn emit(
        &mut self,
        alloc: Global,
        subject: &TermRef<'_>,
        predicate: &TermRef<'_>,
        object: &TermRef<'_>,
    ) -> Result<(), OutOfMemory>
        ensures gains { OnOk result (Gains items keeps self.old self.new (meant_triple subject.now predicate.now object.now ∷ [])) }
        ensures front { KeepsFront items self.old self.new };

    /// The same for a subject that a triple may have already.
    fn emit_known(
        &mut self,
        alloc: Global,
        subject: &Subject<'_>,
        predicate: &TermRef<'_>,
        object: &TermRef<'_>,
    ) -> Result<(), OutOfMemory>
        requires known { IsKnown items self.old subject.now }
        ensures gains { OnOk result (Gains items keeps self.old self.new (meant_triple subject.now.term predicate.now object.now ∷ [])) }
        ensures front { KeepsFront items self.old self.new };

    /// The index of a triple that has the subject, where the sink knows one.
    fn known_index(&self, subject: &TermRef<'_>) -> Option<usize>
        ensures { IfSome result (HasSubject (items self.now) (meant subject.now)) };
}

// A list keeps each triple, at its end.
impl TripleSink for List<Triple> {
    ghost use Rattle.std.specs.Prelude.{[], ◌∷◌};

    ghost items = { λ list. list };

    ghost keeps = { λ list triple. triple ∷ [] };

    fn emit(
        &mut self,
        alloc: Global,
        subject: &TermRef<'_>,
        predicate: &TermRef<'_>,
        object: &TermRef<'_>,
    ) -> Result<(), OutOfMemory> {
        let subject = subject.copy(alloc)?;
        let Ok(predicate) = predicate.copy(alloc) else {
            drop(subject);
            return Err(OutOfMemory);
        };
        let Ok(object) = object.copy(alloc) else {
            drop(subject);
            drop(predicate);
            return Err(OutOfMemory);
        };
        self.push(Triple {
            subject,
            predicate,
            object,
        })
    }

    fn emit_known(
        &mut self,
        alloc: Global,
        subject: &Subject<'_>,
        predicate: &TermRef<'_>,
        object: &TermRef<'_>,
    ) -> Result<(), OutOfMemory> {
        self.emit(alloc, &subject.term, predicate, object)
    }

    fn known_index(&self, _subject: &TermRef<'_>) -> Option<usize> {
        None
    }
}

/// Hands the triples on, in their order.
pub fn emit_all<S: TripleSink>(
    alloc: Global,
    triples: &[Triple],
    out: &mut S,
) -> Result<(), OutOfMemory>
    ensures gains { OnOk result (Gains S.items S.keeps out.old out.new triples.now) }
    ensures front { KeepsFront S.items out.old out.new }
{
    for triple in triples {
        out.emit(
            alloc,
            &TermRef::of(&triple.subject),
            &TermRef::of(&triple.predicate),
            &TermRef::of(&triple.object),
        )?;
    }
    Ok(())
}
