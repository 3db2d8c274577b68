// Records, read line by line.

ghost use Rattle.std.specs.Prelude.{◌≡◌, ◌↔◌, ◌≤◌, ◌++◌, ◌∷◌, [], ℕ, IfErr, IfOk, IfSome, IsErr, IsTrue, MatchOption, None, OnOk, Some, false, length, true, ◌⊎◌};
ghost use Rattle.std.specs.Ordering.{ordering_then};
ghost use Rattle.sorted_sets.specs.Rising.{IsRising, has};
ghost use Rattle.rdf_term.specs.{declared.triple.Triple.Triple as TheTriple, Order.bytes_cmp, Order.triple_cmp};
ghost use Rattle.triple_texts.specs.Texts.{IsTextOf};
ghost use Rattle.replica.specs.declared.reader.PatchFault.TheVariants.{Order as OutOfOrder, OutOfMemory as PatchOutOfMemory};
ghost use Rattle.replica.specs.Reader.{Grows, HasCause, IsPart, IsUnfinished, TakesLine, GrowsBy, IsCauseBy, given, may_come_next, text_cmp, is_adding, is_next, all_read, left, lines_read, opened, patch_read, with_triple};
ghost use Rattle.replica.specs.{Record.IsSound, Record.record_lines, TripleLine.AreTermTexts, TripleLine.borrowed};

use crate::head::Head;
use crate::record::PatchRecord;
use crate::triple_line::{TripleRef, line_texts, plain_triple, read_texts};
use rdf_term::OutOfMemory;
use std::alloc::Global;
use std::cmp::Ordering;
use std::marker::Model;
use thiserror::Error;
use triple_sink::{TermRef, TripleSink};
use triple_texts::{TripleText, TripleTexts};

/// Why a line is refused: the first of these that applies.
#[derive(Clone, Copy, Debug, PartialEq, Eq, Error)]
pub enum PatchFault {
    /// A record should begin here, and the line isn't the head line of one.
    #[error("no head of a record")]
    Head,
    /// A triple should come here, and the line isn't the canonical text of one with fit and short terms.
    #[error("no triple in canonical form")]
    Triple,
    /// The triple isn't greater than the one before it in its part, or is in both parts.
    #[error("triple out of order")]
    Order,
    /// A request for memory was refused.
    #[error("out of memory")]
    OutOfMemory,
}

// A record whose first lines were read.
#[derive(Drop)]
struct Begun {
    head: Head,
    adds: TripleTexts,
    removes: TripleTexts,
}

/// Reads records line by line. Contracts see what was read of a record that lacks lines.
#[derive(Drop)]
pub struct PatchReader {
    alloc: Global,
    begun: Option<Begun>,
}

impl Model for PatchReader {
    ghost use Rattle.std.specs.Prelude.{IfSome, Option};
    ghost use Rattle.replica.specs.{declared.reader.Begun.Begun, Reader.IsUnfinished};

    ghost Value = { Option Begun };

    ghost view = { λ reader. reader.begun };

    ghost invariant = { λ reader. IfSome reader.begun IsUnfinished };
}

impl PatchReader {
    /// A reader before the first record, which takes no memory.
    pub fn new(alloc: Global) -> PatchReader
        ensures { result ≡ None }
    {
        PatchReader { alloc, begun: None }
    }

    /// Takes the next line, without its line feed, and gives the record at its last line. After a fault the reader stands
    /// before a record again.
    ///
    /// # Errors
    /// See `PatchFault`.
    pub fn line(&mut self, line: &[u8]) -> Result<Option<PatchRecord>, PatchFault>
        ensures takes { IfOk result (λ found. TakesLine self.old line.now self.new found) }
        ensures lines { IfOk result (λ found. MatchOption found
            (lines_read self.new ≡ lines_read self.old ++ line.now ∷ []) (λ item. record_lines item ≡ lines_read self.old ++ line.now ∷ [])) }
        ensures sound { IfOk result (λ found. IfSome found IsSound) }
        ensures cause { IfErr result (λ fault. HasCause fault self.old line.now) }
        ensures refused { IsErr result → self.new ≡ None }
        ensures unfinished { IfSome self.new IsUnfinished }
    {
        match grow(self.alloc, self.begun.take(), line) {
            Ok(begun) => Ok(self.settle(begun)),
            Err(fault) => Err(fault),
        }
    }

    // Gives the record if all its lines were read; otherwise keeps it.
    #[tactic(auto, unfolding(crate::specs::Reader::given, crate::specs::Reader::left))]
    fn settle(&mut self, begun: Begun) -> Option<PatchRecord>
        requires { IsPart begun }
        ensures found { result ≡ given begun }
        ensures left { self.new ≡ left begun }
        ensures sound { IfSome result IsSound }
        ensures unfinished { IfSome self.new IsUnfinished }
    {
        if begun.all_read() {
            self.begun = None;
            Some(begun.into_record())
        } else {
            self.begun = Some(begun);
            None
        }
    }

    /// Whether a record has begun and lacks lines.
    pub fn inside(&self) -> bool
        ensures answer { IsTrue result ↔ (lines_read self.now ≡ [] → ⊥) }
        ensures unfinished { IfSome self.now IsUnfinished }
    {
        self.begun.is_some()
    }
}

// What was read of a record, with the line.
fn grow(alloc: Global, begun: Option<Begun>, line: &[u8]) -> Result<Begun, PatchFault>
    requires { IfSome begun IsUnfinished }
    ensures ok { IfOk result (λ next. Grows begun line.now next × IsPart next) }
    ensures err { IfErr result (λ fault. HasCause fault begun line.now) }
{
    match begun {
        None => open(alloc, line),
        Some(begun) => extend(alloc, begun, line),
    }
}

// The record whose first line this is.
fn open(alloc: Global, line: &[u8]) -> Result<Begun, PatchFault>
    ensures ok { IfOk result (λ begun. Grows None line.now begun × IsPart begun) }
    ensures err { IfErr result (λ fault. HasCause fault None line.now) }
{
    match Head::read(alloc, line) {
        Ok(Some(head)) => Ok(Begun {
            head,
            adds: TripleTexts::new(alloc),
            removes: TripleTexts::new(alloc),
        }),
        Ok(None) => Err(PatchFault::Head),
        Err(OutOfMemory) => Err(PatchFault::OutOfMemory),
    }
}

// The record with the triple of the line. Where nothing in its terms is written by an escape, it takes memory for the record alone.
fn extend(alloc: Global, begun: Begun, line: &[u8]) -> Result<Begun, PatchFault>
    requires { IsUnfinished begun }
    ensures ok { IfOk result (λ next. Grows (Some begun) line.now next × IsPart next) }
    ensures err { IfErr result (λ fault. HasCause fault (Some begun) line.now) }
{
    let Some(texts) = line_texts(line) else {
        drop(begun);
        return Err(PatchFault::Triple);
    };
    match plain_triple(texts) {
        Some(triple) => begun.follow(alloc, texts, triple),
        None => extend_by_terms(alloc, begun, texts),
    }
}

// The same by the texts of the line's terms, which are read into memory of their own.
fn extend_by_terms(alloc: Global, begun: Begun, texts: TripleText<'_>) -> Result<Begun, PatchFault>
    requires { IsUnfinished begun }
    ensures ok { IfOk result (λ next. GrowsBy begun texts.entry next × IsPart next) }
    ensures err { IfErr result (λ fault. IsCauseBy fault begun texts.entry) }
{
    match read_texts(alloc, texts) {
        Ok(Some(triple)) => {
            let borrowed = TripleRef {
                subject: TermRef::of(&triple.subject),
                predicate: TermRef::of(&triple.predicate),
                object: TermRef::of(&triple.object),
            };
            let grown = begun.follow(alloc, texts, borrowed);
            drop(triple);
            grown
        }
        Ok(None) => {
            drop(begun);
            Err(PatchFault::Triple)
        }
        Err(OutOfMemory) => {
            drop(begun);
            Err(PatchFault::OutOfMemory)
        }
    }
}

impl Begun {
    // Whether triples that come are due.
    fn is_adding(&self) -> bool
        ensures { result ≡ is_adding self.now }
    {
        (self.adds.len() as u64) < self.head.adds
    }

    // Whether all triples that the head counts were read.
    fn all_read(&self) -> bool
        ensures { result ≡ all_read self.now }
    {
        self.adds.len() as u64 == self.head.adds && self.removes.len() as u64 == self.head.removes
    }

    // Whether the triple with these texts may follow.
    #[tactic(auto, unfolding(crate::specs::Reader::may_come_next))]
    fn may_come_next(&self, texts: &TripleText<'_>) -> bool
        requires { IsRising triple_cmp self.now.adds }
        ensures { (triple : TheTriple) → IsTextOf texts.now triple → result ≡ may_come_next self.now triple }
    {
        if self.is_adding() {
            is_next(&self.adds, texts)
        } else {
            is_next(&self.removes, texts) && !has_triple(&self.adds, texts)
        }
    }

    // The record with one more triple, whose texts these are, if it may follow.
    fn follow(
        self,
        alloc: Global,
        texts: TripleText<'_>,
        triple: TripleRef<'_>,
    ) -> Result<Begun, PatchFault>
        requires unfinished { IsUnfinished self }
        requires texts { AreTermTexts texts (borrowed triple) }
        ensures ok { IfOk result (λ next. (may_come_next self (borrowed triple.entry) ≡ true) × (next ≡ with_triple self (borrowed triple.entry)) × IsPart next) }
        ensures err { IfErr result (λ fault. (fault ≡ PatchOutOfMemory) ⊎ ((fault ≡ OutOfOrder) × (may_come_next self (borrowed triple.entry) ≡ false))) }
    {
        if self.may_come_next(&texts) {
            self.with_triple(alloc, triple)
        } else {
            drop(self);
            Err(PatchFault::Order)
        }
    }

    // The record with one more triple.
    #[tactic(auto, unfolding(crate::specs::Reader::with_triple))]
    fn with_triple(self, alloc: Global, triple: TripleRef<'_>) -> Result<Begun, PatchFault>
        ensures ok { IfOk result (λ next. next ≡ with_triple self (borrowed triple.entry)) }
        ensures err { IfErr result (λ fault. fault ≡ PatchOutOfMemory) }
    {
        let Begun {
            head,
            mut adds,
            mut removes,
        } = self;
        let put = if (adds.len() as u64) < head.adds {
            put_last(alloc, triple, &mut adds)
        } else {
            put_last(alloc, triple, &mut removes)
        };
        match put {
            Ok(()) => Ok(Begun {
                head,
                adds,
                removes,
            }),
            Err(OutOfMemory) => {
                drop(adds);
                drop(removes);
                Err(PatchFault::OutOfMemory)
            }
        }
    }

    // The record of what was read.
    fn into_record(self) -> PatchRecord
        ensures { result ≡ patch_read self }
    {
        let Begun {
            head,
            adds,
            removes,
        } = self;
        PatchRecord {
            number: head.number,
            adds,
            removes,
        }
    }
}

// Puts the triple at the end.
fn put_last(
    alloc: Global,
    triple: TripleRef<'_>,
    triples: &mut TripleTexts,
) -> Result<(), OutOfMemory>
    ensures { OnOk result (triples.new ≡ triples.old ++ borrowed triple.entry ∷ []) }
{
    triples.emit(alloc, &triple.subject, &triple.predicate, &triple.object)
}

// Whether the triple with these texts is greater than the last one.
fn is_next(triples: &TripleTexts, texts: &TripleText<'_>) -> bool
    ensures { (triple : TheTriple) → IsTextOf texts.now triple → result ≡ is_next triples.now triple }
{
    let count = triples.len();
    if count == 0 {
        return true;
    }
    compare(&triples.get(count - 1), texts).is_lt()
}

// Whether the triple with these texts is one of them, by binary search.
fn has_triple(triples: &TripleTexts, texts: &TripleText<'_>) -> bool
    requires { IsRising triple_cmp triples.now }
    ensures { (triple : TheTriple) → IsTextOf texts.now triple → result ≡ has triple_cmp triple triples.now }
{
    let mut low = 0;
    let mut high = triples.len();
    while low < high {
        let middle = low + (high - low) / 2;
        match compare(&triples.get(middle), texts) {
            Ordering::Less => low = middle + 1,
            Ordering::Equal => return true,
            Ordering::Greater => high = middle,
        }
    }
    false
}

// The order of two triples by their texts.
fn compare(a: &TripleText<'_>, b: &TripleText<'_>) -> Ordering
    ensures { result ≡ text_cmp a.now b.now }
{
    match a.subject.cmp(b.subject) {
        Ordering::Equal => compare_rest(a, b),
        decided => decided,
    }
}

// The order of the predicates, then of the objects.
fn compare_rest(a: &TripleText<'_>, b: &TripleText<'_>) -> Ordering
    ensures { result ≡ ordering_then (bytes_cmp a.now.predicate.now b.now.predicate.now) (bytes_cmp a.now.object.now b.now.object.now) }
{
    match a.predicate.cmp(b.predicate) {
        Ordering::Equal => a.object.cmp(b.object),
        decided => decided,
    }
}
