// Terms whose canonical texts have no escape, which borrow these.

ghost use Rattle.std.specs.Prelude.{◌≡◌, ◌≤◌, ◌++◌, ◌∷◌, [], IfSome, false, length, position, take, true};
ghost use Rattle.std.specs.{List.list_any, Str.IsUtf8, Str.bytes_eq};
ghost use Rattle.rdf_term.specs.{Fit.xsd_string, Grammar.is_iri, Grammar.is_tag, Text.is_escaped};
ghost use Rattle.triple_sink.specs.TermRef.{meant};
ghost use Rattle.replica.specs.PlainTerm.{IsFitText};

use rdf_term::{is_iri, is_tag};
use triple_sink::TermRef;

// The datatype of plain literals, which their canonical texts don't name.
const XSD_STRING: &str = "http://www.w3.org/2001/XMLSchema#string";

// The text of a literal, and what stands behind its closing quote.
#[derive(Clone, Copy, Drop)]
struct LiteralParts<'a> {
    content: &'a str,
    suffix: &'a [u8],
}

/// The fit term whose canonical text these bytes are, if nothing in it is written by an escape. `None` says nothing of the bytes.
pub fn plain_term(bytes: &[u8]) -> Option<TermRef<'_>>
    ensures { IfSome result (λ found. IsFitText bytes.now (meant found)) }
{
    match bytes {
        [b'<', rest @ ..] => iri_term(rest),
        [b'"', rest @ ..] => literal_term(rest),
        _ => None,
    }
}

// The IRI behind whose opening bracket these bytes stand.
fn iri_term(rest: &[u8]) -> Option<TermRef<'_>>
    ensures { IfSome result (λ found. IsFitText (60 ∷ rest.now) (meant found)) }
{
    let iri = iri_in(rest)?;
    Some(TermRef::Iri(iri))
}

// The IRI behind which its closing bracket stands.
fn iri_in(rest: &[u8]) -> Option<&str>
    ensures { IfSome result (λ iri. (rest.now ≡ iri.now ++ 62 ∷ []) × (is_iri iri.now ≡ true) × IsUtf8 iri.now) }
{
    let [iri @ .., b'>'] = rest else {
        return None;
    };
    let iri = utf8(iri)?;
    if is_iri(iri) { Some(iri) } else { None }
}

// The literal behind whose opening quote these bytes stand.
fn literal_term(rest: &[u8]) -> Option<TermRef<'_>>
    ensures { IfSome result (λ found. IsFitText (34 ∷ rest.now) (meant found)) }
{
    let parts = literal_parts(rest)?;
    match parts.suffix {
        [] => Some(TermRef::Plain(parts.content)),
        [b'@', tag @ ..] => tagged_term(parts.content, tag),
        [b'^', b'^', b'<', datatype @ ..] => typed_term(parts.content, datatype),
        _ => None,
    }
}

// The parts of a literal whose text has no escape.
fn literal_parts(rest: &[u8]) -> Option<LiteralParts<'_>>
    ensures { IfSome result (λ parts. (rest.now ≡ parts.content.now ++ 34 ∷ parts.suffix.now)
        × (list_any is_escaped parts.content.now ≡ false) × IsUtf8 parts.content.now) }
{
    let end = unescaped_end(rest)?;
    let (content, rest) = rest.split_at(end);
    match rest {
        [b'"', suffix @ ..] => Some(LiteralParts {
            content: utf8(content)?,
            suffix,
        }),
        _ => None,
    }
}

// The literal with this tag, where it is one.
fn tagged_term<'a>(content: &'a str, tag: &'a [u8]) -> Option<TermRef<'a>>
    requires { list_any is_escaped content.now ≡ false }
    ensures { IfSome result (λ found. IsFitText (34 ∷ (content.now ++ 34 ∷ 64 ∷ tag.now)) (meant found)) }
{
    let tag = tag_in(tag)?;
    Some(TermRef::Lang(content, tag))
}

// The tag that these bytes are.
fn tag_in(bytes: &[u8]) -> Option<&str>
    ensures { IfSome result (λ tag. (bytes.now ≡ tag.now) × (is_tag tag.now ≡ true) × IsUtf8 tag.now) }
{
    if is_tag(bytes) { utf8(bytes) } else { None }
}

// The literal with this datatype, behind whose opening bracket the bytes stand.
fn typed_term<'a>(content: &'a str, rest: &'a [u8]) -> Option<TermRef<'a>>
    requires { list_any is_escaped content.now ≡ false }
    ensures { IfSome result (λ found. IsFitText (34 ∷ (content.now ++ 34 ∷ 94 ∷ 94 ∷ 60 ∷ rest.now)) (meant found)) }
{
    let datatype = datatype_in(rest)?;
    Some(TermRef::Typed(content, datatype))
}

// The datatype behind which its closing bracket stands, if it isn't that of plain literals.
#[tactic(auto, unfolding(rdf_term::specs::Fit::xsd_string))]
fn datatype_in(rest: &[u8]) -> Option<&str>
    ensures { IfSome result (λ iri. (rest.now ≡ iri.now ++ 62 ∷ []) × (is_iri iri.now ≡ true) × IsUtf8 iri.now
        × (bytes_eq iri.now xsd_string ≡ false)) }
{
    let datatype = iri_in(rest)?;
    if datatype == XSD_STRING {
        None
    } else {
        Some(datatype)
    }
}

// Where the bytes that stand for themselves in a literal's text end: at one that doesn't.
fn unescaped_end(bytes: &[u8]) -> Option<usize>
    ensures { IfSome result (λ end. (end ≤ length bytes.now) × (list_any is_escaped (take end bytes.now) ≡ false)) }
{
    first_escaped(bytes)
}

// The place of the first byte that is written by an escape.
fn first_escaped(bytes: &[u8]) -> Option<usize>
    ensures { result ≡ position is_escaped bytes.now }
{
    bytes
        .iter()
        .position(|byte| matches!(*byte, b'"' | b'\\' | b'\n' | b'\r'))
}

// The bytes as text.
fn utf8(bytes: &[u8]) -> Option<&str>
    ensures { IfSome result (λ text. (bytes.now ≡ text.now) × IsUtf8 text.now) }
{
    match str::from_utf8(bytes) {
        Ok(text) => Some(text),
        Err(_) => None,
    }
}
