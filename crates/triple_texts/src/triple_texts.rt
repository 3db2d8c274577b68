// Triples by their texts.

ghost use Rattle.std.specs.Prelude.{◌≡◌, ◌<◌, ◌≤◌, [], length, take, slice_get, IfSome, IfOk, IsTrue};
ghost use Rattle.triple_sink.specs.TermRef.{meant, meant_triple};
ghost use Rattle.triple_texts.specs.{Spans.AreSpansOf, Spans.IsSpanOf, Texts.IsTextOf, Texts.RepeatsSubject};

use crate::buffer::{Buffer, lies_there};
use crate::long_text::{iri_len, long_size, remember};
use crate::span::Span;
use crate::triple_spans::TripleSpans;
use crate::triple_text::TripleText;
use rdf_term::OutOfMemory;
use std::alloc::Global;
use std::marker::Model;
use triple_sink::{Subject, TermRef, TripleSink};

// How many bytes the texts of a triple have at least, mostly.
const TRIPLE_BYTES: usize = 128;

/// Triples by the canonical texts of their terms, in the order in which they came. Contracts see the triples.
#[derive(Drop)]
pub struct TripleTexts {
    buffer: Buffer,
    all_spans: Vec<TripleSpans>,
    // Where the last long subject of each size lies, once there was one.
    long: Vec<Span>,
}

impl Model for TripleTexts {
    ghost use Rattle.std.specs.Prelude.{List, map};
    ghost use Rattle.std.specs.List.{AllByRecursion};
    ghost use Rattle.rdf_term.specs.declared.triple.Triple.{Triple};
    ghost use Rattle.triple_texts.specs.Spans.{LieIn, triple_in};

    ghost Value = { List Triple };

    ghost view = { λ texts. map (triple_in texts.buffer) texts.all_spans.items };

    ghost invariant = { λ texts. AllByRecursion (LieIn texts.buffer) texts.all_spans.items };
}

impl TripleTexts {
    /// No triples, which takes no memory.
    pub fn new(alloc: Global) -> TripleTexts
        ensures { result ≡ [] }
    {
        TripleTexts {
            buffer: Buffer::new(alloc),
            all_spans: Vec::new(alloc),
            long: Vec::new(alloc),
        }
    }

    /// No triples, with room for texts of this many bytes in all.
    pub fn with_room(alloc: Global, bytes: usize) -> Result<TripleTexts, OutOfMemory>
        ensures { IfOk result (λ texts. texts ≡ []) }
    {
        Ok(TripleTexts {
            all_spans: Vec::with_capacity(alloc, bytes / TRIPLE_BYTES)?,
            buffer: Buffer::with_room(alloc, bytes)?,
            long: Vec::new(alloc),
        })
    }

    /// The number of triples.
    pub fn len(&self) -> usize
        ensures { result ≡ length self.now }
    {
        self.all_spans.len()
    }

    /// The texts of the triple at a place from 0.
    pub fn get(&self, index: usize) -> TripleText<'_>
        requires { index < length self.now }
        ensures { IfSome (slice_get self.now index) (IsTextOf result) }
    {
        self.all_spans[index].texts(self.buffer.as_slice())
    }

    /// Whether the triple at a place from 0 is known to have the subject of the one before it: where the text of its subject wasn't
    /// written again. It looks at no text.
    pub fn repeats_subject(&self, index: usize) -> bool
        requires { index < length self.now }
        ensures { IsTrue result → RepeatsSubject self.now index }
    {
        match index.checked_sub(1) {
            Some(before) => {
                let subject = self.all_spans[index].subject;
                subject.is(self.all_spans[before].subject)
            }
            None => false,
        }
    }
}

// Each triple is kept, at the end. After `OutOfMemory` those before it are there.
impl TripleSink for TripleTexts {
    ghost use Rattle.std.specs.Prelude.{[], ◌∷◌};

    ghost items = { λ texts. texts };

    ghost keeps = { λ texts triple. triple ∷ [] };

    fn emit(
        &mut self,
        _alloc: Global,
        subject: &TermRef<'_>,
        predicate: &TermRef<'_>,
        object: &TermRef<'_>,
    ) -> Result<(), OutOfMemory> {
        self.all_spans.reserve(1)?;
        let len = iri_len(subject);
        let near = near(&self.all_spans, &self.long, len);
        let spans = put_triple(subject, predicate, object, near, &mut self.buffer)?;
        remember(&mut self.long, long_size(len), spans.subject);
        self.all_spans.push_reserved(spans);
        Ok(())
    }

    fn emit_known(
        &mut self,
        alloc: Global,
        subject: &Subject<'_>,
        predicate: &TermRef<'_>,
        object: &TermRef<'_>,
    ) -> Result<(), OutOfMemory> {
        let Some(index) = subject.index else {
            return self.emit(alloc, &subject.term, predicate, object);
        };
        self.all_spans.reserve(1)?;
        let place = self.all_spans[index].subject;
        let spans = put_behind(place, predicate, object, &mut self.buffer)?;
        self.all_spans.push_reserved(spans);
        Ok(())
    }

    // The last triple is the only one that is looked at.
    fn known_index(&self, subject: &TermRef<'_>) -> Option<usize> {
        let index = self.all_spans.len().checked_sub(1)?;
        let place = self.all_spans[index].subject;
        if lies_there(subject, place, self.buffer.as_slice()) {
            Some(index)
        } else {
            None
        }
    }
}

// Where the text of a subject of this length is likely to lie: where the last long one of its size does, or that of the triple before or of
// its object.
fn near(all_spans: &[TripleSpans], long: &[Span], len: Option<usize>) -> Option<Span> {
    if let Some(size) = long_size(len) {
        return long.get(size).copied();
    }
    let (len, last) = (len?, all_spans.last()?);
    if last.subject.len as usize == len {
        Some(last.subject)
    } else if last.object.len as usize == len {
        Some(last.object)
    } else {
        None
    }
}

// Puts the texts of a triple into the buffer, as far as they aren't there, and gives their places. What stood there stays, whatever the answer.
#[inline(always)]
fn put_triple(
    subject: &TermRef<'_>,
    predicate: &TermRef<'_>,
    object: &TermRef<'_>,
    near: Option<Span>,
    buffer: &mut Buffer,
) -> Result<TripleSpans, OutOfMemory>
    ensures kept { take (length buffer.old) buffer.new ≡ buffer.old }
    ensures spans { IfOk result (AreSpansOf buffer.new (meant_triple subject.now predicate.now object.now)) }
{
    let place = buffer.put_near(subject, near)?;
    let spans = put_behind(place, predicate, object, buffer)?;
    Ok(spans)
}

// The same for a triple whose subject has a place.
#[inline(always)]
fn put_behind(
    subject: Span,
    predicate: &TermRef<'_>,
    object: &TermRef<'_>,
    buffer: &mut Buffer,
) -> Result<TripleSpans, OutOfMemory>
    ensures kept { take (length buffer.old) buffer.new ≡ buffer.old }
    ensures subject { IfOk result (λ spans. spans.subject ≡ subject) }
    ensures predicate { IfOk result (λ spans. IsSpanOf buffer.new (meant predicate.now) spans.predicate) }
    ensures object { IfOk result (λ spans. IsSpanOf buffer.new (meant object.now) spans.object) }
{
    let predicate = buffer.put(predicate)?;
    let object = buffer.put(object)?;
    Ok(TripleSpans {
        subject,
        predicate,
        object,
    })
}
