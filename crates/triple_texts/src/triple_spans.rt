// Where the texts of a triple lie in a buffer.

ghost use Rattle.std.specs.Prelude.{◌≡◌, ◌≤◌, length};
ghost use Rattle.triple_texts.specs.Spans.{span_end, text_in};

use crate::span::Span;
use crate::triple_text::TripleText;

// Where the three texts of a triple lie. That of the subject may be a triple's before it.
#[derive(Clone, Copy)]
pub(crate) struct TripleSpans {
    pub(crate) subject: Span,
    pub(crate) predicate: Span,
    pub(crate) object: Span,
}

impl TripleSpans {
    // The texts that lie there.
    pub(crate) fn texts(self, bytes: &[u8]) -> TripleText<'_>
        requires subject_within { span_end self.subject ≤ length bytes.now }
        requires predicate_within { span_end self.predicate ≤ length bytes.now }
        requires object_within { span_end self.object ≤ length bytes.now }
        ensures subject { result.subject.now ≡ text_in bytes.now self.subject }
        ensures predicate { result.predicate.now ≡ text_in bytes.now self.predicate }
        ensures object { result.object.now ≡ text_in bytes.now self.object }
    {
        TripleText {
            subject: self.subject.text(bytes),
            predicate: self.predicate.text(bytes),
            object: self.object.text(bytes),
        }
    }
}
