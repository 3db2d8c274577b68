// The texts of both parts.

ghost use Rattle.std.specs.Prelude.{◌≡◌, ◌++◌, ◌∷◌, [], cond, length, IfOk, OnErr, OnOk};
ghost use Rattle.triple_sink.specs.{Subject.IsKnown, TermRef.meant_triple};
ghost use Rattle.page_parts.specs.Parts.{Begins, HasPut};

use rdf_term::OutOfMemory;
use std::alloc::Global;
use triple_sink::{Subject, TermRef, TripleSink};
use triple_texts::TripleTexts;

// The triples that stand in a page alone, and the others.
#[derive(Drop)]
pub(crate) struct PartTexts {
    pub(crate) alloc: Global,
    pub(crate) own: TripleTexts,
    pub(crate) shared: TripleTexts,
}

impl PartTexts {
    // Puts a triple at the end of a part, and gives its index there. After `OutOfMemory` each part holds what it held, and perhaps more
    // behind that.
    pub(crate) fn put(
        &mut self,
        is_own: bool,
        subject: &Subject<'_>,
        predicate: &TermRef<'_>,
        object: &TermRef<'_>,
    ) -> Result<usize, OutOfMemory>
        requires { IsKnown (λ texts. texts) (cond is_own self.old.own self.old.shared) subject.now }
        ensures ok { IfOk result (HasPut is_own self.old.own self.old.shared self.new.own self.new.shared
            (meant_triple subject.now.term predicate.now object.now)) }
        ensures own { OnErr result (Begins self.old.own self.new.own) }
        ensures shared { OnErr result (Begins self.old.shared self.new.shared) }
    {
        if is_own {
            put_behind(self.alloc, subject, predicate, object, &mut self.own)
        } else {
            put_behind(self.alloc, subject, predicate, object, &mut self.shared)
        }
    }
}

// Puts a triple behind others, and gives its index.
fn put_behind(
    alloc: Global,
    subject: &Subject<'_>,
    predicate: &TermRef<'_>,
    object: &TermRef<'_>,
    texts: &mut TripleTexts,
) -> Result<usize, OutOfMemory>
    requires { IsKnown (λ texts. texts) texts.old subject.now }
    ensures index { IfOk result (λ index. index ≡ length texts.old) }
    ensures ok { OnOk result (texts.new ≡ texts.old ++ meant_triple subject.now.term predicate.now object.now ∷ []) }
    ensures err { OnErr result (Begins texts.old texts.new) }
{
    let index = texts.len();
    texts.emit_known(alloc, subject, predicate, object)?;
    Ok(index)
}
