// The sink that munges what it hands on.

ghost use Rattle.std.specs.Prelude.{◌≡◌, [], ◌∷◌, OnOk};
ghost use Rattle.std.specs.List.{flat_map};
ghost use Rattle.triple_sink.specs.{Gains.Gains, Gains.KeepsFront, Subject.IsKnown, TermRef.meant, TermRef.meant_triple};
ghost use Rattle.munger.specs.{Munging.munged, Naming.named, Naming.named_triple};

use crate::naming::{is_blank, named};
use crate::verdict::{Page, Verdict};
use rdf_term::OutOfMemory;
use rdf_vocabulary::Prefix;
use std::alloc::Global;
use triple_sink::{Subject, TermRef, TripleSink};

/// A sink that hands on to another what munging leaves of the triples of a page: it drops some, moves some from the
/// page's dataset to the entity, and names blank nodes.
#[derive(Drop)]
pub struct Munged<S> {
    /// The page whose triples come.
    pub page: Page,
    /// The sink that the triples are handed on to.
    pub inner: S,
}

impl<S: TripleSink> TripleSink for Munged<S> {
    ghost items = { λ sink. S.items sink.inner };

    ghost keeps = { λ sink triple. flat_map (S.keeps sink.inner) (munged sink.page.id triple) };

    fn emit(
        &mut self,
        alloc: Global,
        subject: &TermRef<'_>,
        predicate: &TermRef<'_>,
        object: &TermRef<'_>,
    ) -> Result<(), OutOfMemory> {
        match self.page.verdict(subject, predicate, object) {
            Verdict::Moved => {
                let entity = TermRef::Id(Prefix::Wd, self.page.id);
                emit_named(alloc, &entity, predicate, object, &mut self.inner)
            }
            Verdict::Dropped => Ok(()),
            Verdict::Kept => emit_named(alloc, subject, predicate, object, &mut self.inner),
        }
    }

    fn emit_known(
        &mut self,
        alloc: Global,
        subject: &Subject<'_>,
        predicate: &TermRef<'_>,
        object: &TermRef<'_>,
    ) -> Result<(), OutOfMemory> {
        match self.page.verdict(&subject.term, predicate, object) {
            Verdict::Moved => {
                let entity = TermRef::Id(Prefix::Wd, self.page.id);
                emit_named(alloc, &entity, predicate, object, &mut self.inner)
            }
            Verdict::Dropped => Ok(()),
            Verdict::Kept => emit_known_named(alloc, subject, predicate, object, &mut self.inner),
        }
    }

    // What the other sink holds is what this one does.
    fn known_index(&self, subject: &TermRef<'_>) -> Option<usize> {
        self.inner.known_index(subject)
    }
}

// Hands on the triple with its blank nodes named. Most triples have none, and their terms are handed on as they are.
#[inline(always)]
fn emit_named<S: TripleSink>(
    alloc: Global,
    subject: &TermRef<'_>,
    predicate: &TermRef<'_>,
    object: &TermRef<'_>,
    out: &mut S,
) -> Result<(), OutOfMemory>
    ensures gains { OnOk result (Gains S.items S.keeps out.old out.new (named_triple (meant_triple subject.now predicate.now object.now) ∷ [])) }
    ensures front { KeepsFront S.items out.old out.new }
{
    if is_blank(subject) || is_blank(predicate) || is_blank(object) {
        return emit_renamed(alloc, subject, predicate, object, out);
    }
    out.emit(alloc, subject, predicate, object)
}

// Hands on the triple with its blank nodes named. This is a function of its own, so that a triple without one copies no term.
#[inline(never)]
fn emit_renamed<S: TripleSink>(
    alloc: Global,
    subject: &TermRef<'_>,
    predicate: &TermRef<'_>,
    object: &TermRef<'_>,
    out: &mut S,
) -> Result<(), OutOfMemory>
    ensures gains { OnOk result (Gains S.items S.keeps out.old out.new (named_triple (meant_triple subject.now predicate.now object.now) ∷ [])) }
    ensures front { KeepsFront S.items out.old out.new }
{
    out.emit(alloc, &named(subject), &named(predicate), &named(object))
}

// The same for a subject that a triple of the sink may have already.
#[inline(always)]
fn emit_known_named<S: TripleSink>(
    alloc: Global,
    subject: &Subject<'_>,
    predicate: &TermRef<'_>,
    object: &TermRef<'_>,
    out: &mut S,
) -> Result<(), OutOfMemory>
    requires known { IsKnown S.items out.old subject.now }
    ensures gains { OnOk result (Gains S.items S.keeps out.old out.new (named_triple (meant_triple subject.now.term predicate.now object.now) ∷ [])) }
    ensures front { KeepsFront S.items out.old out.new }
{
    if is_blank(&subject.term) {
        return emit_renamed(alloc, &subject.term, predicate, object, out);
    }
    if is_blank(predicate) || is_blank(object) {
        return emit_known_renamed(alloc, subject, predicate, object, out);
    }
    out.emit_known(alloc, subject, predicate, object)
}

// Hands on the triple of a subject that is no blank node, with the other blank nodes named.
#[inline(never)]
fn emit_known_renamed<S: TripleSink>(
    alloc: Global,
    subject: &Subject<'_>,
    predicate: &TermRef<'_>,
    object: &TermRef<'_>,
    out: &mut S,
) -> Result<(), OutOfMemory>
    requires known { IsKnown S.items out.old subject.now }
    requires named { named (meant subject.now.term) ≡ meant subject.now.term }
    ensures gains { OnOk result (Gains S.items S.keeps out.old out.new (named_triple (meant_triple subject.now.term predicate.now object.now) ∷ [])) }
    ensures front { KeepsFront S.items out.old out.new }
{
    out.emit_known(alloc, subject, &named(predicate), &named(object))
}
