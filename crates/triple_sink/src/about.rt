// Triples by the words of the vocabulary.

ghost use Rattle.std.specs.Prelude.{[], ◌∷◌, OnOk};
ghost use Rattle.rdf_vocabulary.specs.{Predicate.about, Resource.class_triple};
ghost use Rattle.triple_sink.specs.{Gains.Gains, Gains.KeepsFront, TermRef.meant};

use crate::sink::TripleSink;
use crate::term_ref::TermRef;
use rdf_term::OutOfMemory;
use rdf_vocabulary::{Predicate, Resource};
use std::alloc::Global;

/// Hands on the triple that says the object of the subject. After `OutOfMemory` the sink holds what it held, and perhaps more behind that.
pub fn emit_about<S: TripleSink>(
    alloc: Global,
    subject: &TermRef<'_>,
    predicate: Predicate,
    object: &TermRef<'_>,
    out: &mut S,
) -> Result<(), OutOfMemory>
    ensures gains { OnOk result (Gains S.items S.keeps out.old out.new (about (meant subject.now) predicate (meant object.now) ∷ [])) }
    ensures front { KeepsFront S.items out.old out.new }
{
    out.emit(alloc, subject, &TermRef::Predicate(predicate), object)
}

/// Hands on the class of a node. After `OutOfMemory` the sink holds what it held, and perhaps more behind that.
pub fn emit_class<S: TripleSink>(
    alloc: Global,
    node: &TermRef<'_>,
    class: Resource,
    out: &mut S,
) -> Result<(), OutOfMemory>
    ensures gains { OnOk result (Gains S.items S.keeps out.old out.new (class_triple (meant node.now) class ∷ [])) }
    ensures front { KeepsFront S.items out.old out.new }
{
    emit_about(
        alloc,
        node,
        Predicate::RdfType,
        &TermRef::Resource(class),
        out,
    )
}
