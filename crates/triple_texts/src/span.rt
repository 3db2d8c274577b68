// Where a text lies in a buffer.

ghost use Rattle.std.specs.Prelude.{◌≡◌, ◌≤◌, length, IsTrue};
ghost use Rattle.triple_texts.specs.Spans.{span_end, text_in};

// Where a text begins in a buffer, and its length, in bytes.
#[derive(Clone, Copy)]
pub(crate) struct Span {
    pub(crate) start: u32,
    pub(crate) len: u32,
}

impl Span {
    // The text that lies there.
    pub(crate) fn text(self, bytes: &[u8]) -> &[u8]
        requires { span_end self ≤ length bytes.now }
        ensures { result.now ≡ text_in bytes.now self }
    {
        let start = self.start as usize;
        &bytes[start..start + self.len as usize]
    }
    // Whether it is the same place.
    pub(crate) fn is(self, other: Span) -> bool
        ensures { IsTrue result → self ≡ other }
    {
        self.start == other.start && self.len == other.len
    }
}
