// The canonical text of a term, handed on piece by piece.

ghost use Rattle.std.specs.Prelude.{◌≡◌, ◌++◌, []};
ghost use Rattle.std.specs.List.{list_any};
ghost use Rattle.rdf_term.specs.Text.{escaped, escaped_byte, in_brackets, is_escaped, quoted, term_text};

use rdf_term::{Term, Text};

// What is handed a text piece by piece.
pub(crate) trait TextSink {
    ghost use Rattle.std.specs.Prelude.{◌≡◌, ◌++◌, [], List, ℕ};

    // What the sink is after these bytes.
    ghost after: { Self → List ℕ → Self };

    fn put(&mut self, bytes: &[u8])
        ensures { self.new ≡ after self.old bytes.now };

    ghost none: { (sink : Self) → after sink [] ≡ sink };

    // It makes no difference how the bytes are cut into pieces.
    ghost joined: { (sink : Self) (first second : List ℕ) → after (after sink first) second ≡ after sink (first ++ second) };
}

// Hands on the canonical text of a term. It takes no memory.
pub(crate) fn put_term<S: TextSink>(term: &Term, sink: &mut S)
    ensures { sink.new ≡ S.after sink.old (term_text term.now) }
{
    match term {
        Term::Iri(iri) => put_iri(iri, sink),
        Term::Blank(label) => put_two(b"_:", label.as_bytes(), sink),
        Term::Plain(text) => put_quoted(text, sink),
        Term::Lang(text, tag) => {
            put_quoted(text, sink);
            put_two(b"@", tag.as_bytes(), sink);
        }
        Term::Typed(text, datatype) => {
            put_quoted(text, sink);
            sink.put(b"^^");
            put_iri(datatype, sink);
        }
    }
}

// Hands on two pieces.
fn put_two<S: TextSink>(first: &[u8], second: &[u8], sink: &mut S)
    ensures { sink.new ≡ S.after sink.old (first.now ++ second.now) }
{
    sink.put(first);
    sink.put(second);
}

// Hands on an IRI in its brackets.
fn put_iri<S: TextSink>(iri: &Text, sink: &mut S)
    ensures { sink.new ≡ S.after sink.old (in_brackets iri.now) }
{
    put_two(b"<", iri.as_bytes(), sink);
    sink.put(b">");
}

// Hands on a text in its quotes, with its escapes.
fn put_quoted<S: TextSink>(text: &Text, sink: &mut S)
    ensures { sink.new ≡ S.after sink.old (quoted text.now []) }
{
    sink.put(b"\"");
    put_escaped(text.as_bytes(), sink);
    sink.put(b"\"");
}

// Hands on a text as it stands between the quotes: at once where no byte is escaped.
#[tactic(auto, using(rdf_term::proofs::Unescaped::escaped_same))]
fn put_escaped<S: TextSink>(text: &[u8], sink: &mut S)
    ensures { sink.new ≡ S.after sink.old (escaped text.now) }
{
    if has_escape(text) {
        put_each(text, sink);
    } else {
        sink.put(text);
    }
}

// Whether a byte of the text is escaped.
fn has_escape(text: &[u8]) -> bool
    ensures { result ≡ list_any is_escaped text.now }
{
    text.iter()
        .any(|byte| matches!(*byte, b'"' | b'\\' | b'\n' | b'\r'))
}

// Hands on each byte of a text as it stands between the quotes.
fn put_each<S: TextSink>(text: &[u8], sink: &mut S)
    ensures { sink.new ≡ S.after sink.old (escaped text.now) }
{
    for byte in text {
        put_byte(*byte, sink);
    }
}

// Hands on what a byte of a literal's text is written as.
fn put_byte<S: TextSink>(byte: u8, sink: &mut S)
    ensures { sink.new ≡ S.after sink.old (escaped_byte byte) }
{
    match byte {
        b'"' => sink.put(b"\\\""),
        b'\\' => sink.put(b"\\\\"),
        b'\n' => sink.put(b"\\n"),
        b'\r' => sink.put(b"\\r"),
        _ => sink.put(&[byte]),
    }
}
