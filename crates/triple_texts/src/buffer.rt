// A buffer of texts, in which the text of a word mostly stands once.

ghost use Rattle.std.specs.Prelude.{◌≡◌, ℕ, List, [], length, take, IfOk, IfSome, IsTrue};
ghost use Rattle.std.specs.List.{All};
ghost use Rattle.triple_sink.specs.TermRef.{meant};
ghost use Rattle.triple_texts.specs.{Spans.IsSpanOf, Words.IsPlaced, Words.word_term};

use crate::long_text::is_text;
use crate::span::Span;
use crate::word::{INDICES, Word};
use rdf_term::OutOfMemory;
use std::alloc::Global;
use std::marker::Model;
use triple_sink::TermRef;

// A word, and where its text lies.
#[derive(Clone, Copy)]
pub(crate) struct PlacedWord {
    pub(crate) word: Word,
    pub(crate) span: Span,
}

// Texts one behind the other, and where those of words lie: at each index the last word that came there. Contracts see the bytes.
#[derive(Drop)]
pub(crate) struct Buffer {
    bytes: Vec<u8>,
    words: Vec<PlacedWord>,
}

impl Model for Buffer {
    ghost use Rattle.std.specs.Prelude.{List, ℕ};
    ghost use Rattle.std.specs.List.{All};
    ghost use Rattle.triple_texts.specs.Words.{IsPlaced};

    ghost Value = { List ℕ };

    ghost view = { λ buffer. buffer.bytes.items };

    ghost invariant = { λ buffer. All (IsPlaced buffer.bytes.items) buffer.words.items };
}

impl Buffer {
    // No texts, which takes no memory.
    pub(crate) fn new(alloc: Global) -> Buffer
        ensures { result ≡ [] }
    {
        Buffer {
            bytes: Vec::new(alloc),
            words: Vec::new(alloc),
        }
    }

    // No texts, with room for this many bytes.
    pub(crate) fn with_room(alloc: Global, bytes: usize) -> Result<Buffer, OutOfMemory>
        ensures { IfOk result (λ buffer. buffer ≡ []) }
    {
        Ok(Buffer {
            bytes: Vec::with_capacity(alloc, bytes)?,
            words: Vec::new(alloc),
        })
    }

    // The bytes of the texts.
    pub(crate) fn as_slice(&self) -> &[u8]
        ensures { result.now ≡ self.now }
    {
        self.bytes.as_slice()
    }

    // Where a term's text lies: where it is likely to, or else where it was put before or is appended now.
    #[inline(always)]
    pub(crate) fn put_near(
        &mut self,
        term: &TermRef<'_>,
        near: Option<Span>,
    ) -> Result<Span, OutOfMemory>
        ensures kept { take (length self.old) self.new ≡ self.old }
        ensures span { IfOk result (IsSpanOf self.new (meant term.now)) }
    {
        if let Some(span) = near {
            if lies_there(term, span, self.as_slice()) {
                return Ok(span);
            }
        }
        self.put(term)
    }

    // Where a term's text lies: where it was put before, or else at the end, where it is appended.
    #[inline(always)]
    pub(crate) fn put(&mut self, term: &TermRef<'_>) -> Result<Span, OutOfMemory>
        ensures kept { take (length self.old) self.new ≡ self.old }
        ensures span { IfOk result (IsSpanOf self.new (meant term.now)) }
    {
        match Word::of(term) {
            Some(word) => self.put_word(word, term),
            None => self.append(term),
        }
    }

    // Where the text of a word lies, which the term is given by.
    #[inline(always)]
    fn put_word(&mut self, word: Word, term: &TermRef<'_>) -> Result<Span, OutOfMemory>
        requires { word_term word ≡ meant term.now }
        ensures kept { take (length self.old) self.new ≡ self.old }
        ensures span { IfOk result (IsSpanOf self.new (meant term.now)) }
    {
        if let Some(span) = self.find_word(word) {
            return Ok(span);
        }
        let span = self.append(term)?;
        remember_word(&mut self.words, PlacedWord { word, span });
        Ok(span)
    }

    // Where the text of a word lies, if it is the last that came to its index.
    #[inline(always)]
    fn find_word(&self, word: Word) -> Option<Span>
        ensures { IfSome result (IsSpanOf self.now (word_term word)) }
    {
        let placed = *self.words.get(word.index())?;
        if placed.word.is(word) {
            Some(placed.span)
        } else {
            None
        }
    }

    // Appends a term's text and tells where it lies. This is a function of its own, so that a text that is there already doesn't pay for
    // it.
    #[inline(never)]
    fn append(&mut self, term: &TermRef<'_>) -> Result<Span, OutOfMemory>
        ensures kept { take (length self.old) self.new ≡ self.old }
        ensures span { IfOk result (IsSpanOf self.new (meant term.now)) }
    {
        append(term, &mut self.bytes)
    }
}

// Remembers where the text of a word lies. Where memory for it is refused, nothing is remembered.
fn remember_word(words: &mut Vec<PlacedWord>, placed: PlacedWord)
    ensures { (bytes : List ℕ) → All (IsPlaced bytes) words.old.items → IsPlaced bytes placed → All (IsPlaced bytes) words.new.items }
{
    if words.is_empty() && words.resize(INDICES, placed).is_err() {
        return;
    }
    let index = placed.word.index();
    if index < words.len() {
        words[index] = placed;
    }
}

// Whether the term's text lies there.
pub(crate) fn lies_there(term: &TermRef<'_>, span: Span, bytes: &[u8]) -> bool
    ensures { IsTrue result → IsSpanOf bytes.now (meant term.now) span }
{
    let end = span.start as usize + span.len as usize;
    end <= bytes.len() && is_text(term, span.text(bytes))
}

// Appends a term's text and tells where it lies.
fn append(term: &TermRef<'_>, bytes: &mut Vec<u8>) -> Result<Span, OutOfMemory>
    ensures kept { take (length bytes.old.items) bytes.new.items ≡ bytes.old.items }
    ensures span { IfOk result (IsSpanOf bytes.new.items (meant term.now)) }
{
    let start = bytes.len();
    term.write(bytes)?;
    span_from(start, bytes.len() - start)
}

// The span of this length from a place on. A place beyond 32 bits gives OutOfMemory.
fn span_from(start: usize, len: usize) -> Result<Span, OutOfMemory>
    ensures start { IfOk result (λ span. span.start ≡ start) }
    ensures len { IfOk result (λ span. span.len ≡ len) }
{
    Ok(Span {
        start: u32::try_from(start).map_err(|_| OutOfMemory)?,
        len: u32::try_from(len).map_err(|_| OutOfMemory)?,
    })
}
