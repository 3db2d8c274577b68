// Terms that borrow their texts.

ghost use Rattle.std.specs.Prelude.{◌≡◌, [], ◌∷◌, ◌++◌, length, take, IfOk, OnOk, OnErr};
ghost use Rattle.std.specs.Str.{IsUtf8};
ghost use Rattle.rdf_term.specs.{Append.Appends, Grammar.tagged_of, Text.in_brackets, Text.quoted, Text.term_text};
ghost use Rattle.entity_model.specs.IdKind.{letter_of};
ghost use Rattle.rdf_vocabulary.specs.Prefix.{id_term};
ghost use Rattle.triple_sink.specs.TermRef.{meant};

use entity_model::{EntityId, IdKind};
use itoa::Buffer;
use rdf_term::{OutOfMemory, Term, Text, is_tag, write_quoted};
use rdf_vocabulary::{Predicate, Prefix, Resource};
use std::alloc::Global;

/// A term of RDF that borrows its texts, or an IRI by its word in the vocabulary, or by its namespace and what stands
/// behind that.
#[derive(Clone, Copy)]
pub enum TermRef<'a> {
    /// The IRI of a predicate of the dump.
    Predicate(Predicate),
    /// The IRI of a class of the dump, a rank or the licence.
    Resource(Resource),
    /// The IRI of a name in a namespace.
    Named(Prefix, &'a str),
    /// The IRI of an entity's id in a namespace.
    Id(Prefix, EntityId),
    /// An IRI, without its angle brackets.
    Iri(&'a str),
    /// A blank node, by its label.
    Blank(&'a str),
    /// A literal of the datatype `xsd:string`, by its text.
    Plain(&'a str),
    /// A literal with a language: its text and its tag.
    Lang(&'a str, &'a str),
    /// A literal of another datatype: its text and the datatype's IRI.
    Typed(&'a str, &'a str),
}

impl<'a> TermRef<'a> {
    /// The same term, borrowed.
    pub fn of(term: &'a Term) -> TermRef<'a>
        ensures { meant result ≡ term.now }
    {
        match term {
            Term::Iri(iri) => TermRef::Iri(iri.as_str()),
            Term::Blank(label) => TermRef::Blank(label.as_str()),
            Term::Plain(text) => TermRef::Plain(text.as_str()),
            Term::Lang(text, tag) => TermRef::Lang(text.as_str(), tag.as_str()),
            Term::Typed(text, datatype) => TermRef::Typed(text.as_str(), datatype.as_str()),
        }
    }

    /// The literal of a text in a language, or the plain one where the tag is none by the grammar of
    /// N-Triples, `[a-zA-Z]+(-[a-zA-Z0-9]+)*`.
    pub fn tagged(text: &'a str, tag: &'a str) -> TermRef<'a>
        ensures { meant result ≡ tagged_of text.now tag.now }
    {
        if is_tag(tag.as_bytes()) {
            TermRef::Lang(text, tag)
        } else {
            TermRef::Plain(text)
        }
    }

    /// The same term in memory of its own.
    pub fn copy(&self, alloc: Global) -> Result<Term, OutOfMemory>
        ensures { IfOk result (λ term. term ≡ meant self.now) }
    {
        match self {
            TermRef::Predicate(word) => word.term(alloc),
            TermRef::Resource(word) => word.term(alloc),
            TermRef::Named(prefix, name) => prefix.term(alloc, name),
            TermRef::Id(prefix, id) => id_term(alloc, *prefix, *id),
            TermRef::Iri(iri) => Ok(Term::Iri(Text::new(alloc, iri)?)),
            TermRef::Blank(label) => Ok(Term::Blank(Text::new(alloc, label)?)),
            TermRef::Plain(text) => Ok(Term::Plain(Text::new(alloc, text)?)),
            TermRef::Lang(text, tag) => {
                let text = Text::new(alloc, text)?;
                Ok(Term::Lang(text, Text::new(alloc, tag)?))
            }
            TermRef::Typed(text, datatype) => {
                let text = Text::new(alloc, text)?;
                Ok(Term::Typed(text, Text::new(alloc, datatype)?))
            }
        }
    }

    /// Appends the canonical text of the term, as N-Triples writes it. After `OutOfMemory` a part of it may
    /// stand behind what was there.
    pub fn write(&self, out: &mut Vec<u8>) -> Result<(), OutOfMemory>
        ensures text { OnOk result (out.new.items ≡ out.old.items ++ term_text (meant self.now)) }
        ensures err { OnErr result (take (length out.old.items) out.new.items ≡ out.old.items) }
        ensures utf8 { IsUtf8 (term_text (meant self.now)) }
    {
        match self {
            TermRef::Predicate(word) => write_iri(word.text(), out),
            TermRef::Resource(word) => write_iri(word.text(), out),
            TermRef::Named(prefix, name) => write_named(prefix.text(), name, out),
            TermRef::Id(prefix, id) => write_id(*prefix, *id, out),
            TermRef::Iri(iri) => write_iri(iri, out),
            TermRef::Blank(label) => write_blank(label, out),
            TermRef::Plain(text) => write_plain(text, out),
            TermRef::Lang(text, tag) => write_lang(text, tag, out),
            TermRef::Typed(text, datatype) => write_typed(text, datatype, out),
        }
    }
}

// The IRI of an entity's id in a namespace.
fn id_term(alloc: Global, prefix: Prefix, id: EntityId) -> Result<Term, OutOfMemory>
    ensures { IfOk result (λ term. term ≡ id_term prefix id) }
{
    let name = id.text(alloc)?;
    prefix.term(alloc, name.as_str())
}

// Appends the IRI of an entity's id in a namespace.
fn write_id(prefix: Prefix, id: EntityId, out: &mut Vec<u8>) -> Result<(), OutOfMemory>
    ensures text { Appends out.old.items out.new.items (term_text (id_term prefix id)) result }
    ensures utf8 { IsUtf8 (term_text (id_term prefix id)) }
{
    let mut buffer = Buffer::new();
    write_numbered(
        prefix.text(),
        letter(id.kind),
        buffer.format(id.number),
        out,
    )
}

// The letter of a kind.
fn letter(kind: IdKind) -> &'static str
    ensures { result.now ≡ letter_of kind ∷ [] }
{
    match kind {
        IdKind::P => "P",
        IdKind::Q => "Q",
        IdKind::L => "L",
    }
}

// Appends an IRI in its brackets: a namespace, a letter and a number.
fn write_numbered(
    front: &str,
    letter: &str,
    number: &str,
    out: &mut Vec<u8>,
) -> Result<(), OutOfMemory>
    ensures text { Appends out.old.items out.new.items (in_brackets (front.now ++ letter.now ++ number.now)) result }
    ensures utf8 { IsUtf8 (in_brackets (front.now ++ letter.now ++ number.now)) }
{
    append_byte(b'<', out)?;
    append(front.as_bytes(), out)?;
    append(letter.as_bytes(), out)?;
    append(number.as_bytes(), out)?;
    append_byte(b'>', out)
}

// Appends an IRI in its brackets: a namespace and a name.
fn write_named(front: &str, name: &str, out: &mut Vec<u8>) -> Result<(), OutOfMemory>
    ensures text { Appends out.old.items out.new.items (in_brackets (front.now ++ name.now)) result }
    ensures utf8 { IsUtf8 (in_brackets (front.now ++ name.now)) }
{
    append_byte(b'<', out)?;
    append(front.as_bytes(), out)?;
    append(name.as_bytes(), out)?;
    append_byte(b'>', out)
}

// Appends an IRI in its brackets.
#[inline(always)]
fn write_iri(iri: &str, out: &mut Vec<u8>) -> Result<(), OutOfMemory>
    ensures text { Appends out.old.items out.new.items (in_brackets iri.now) result }
    ensures utf8 { IsUtf8 (in_brackets iri.now) }
{
    append_byte(b'<', out)?;
    append(iri.as_bytes(), out)?;
    append_byte(b'>', out)
}

// Appends a blank node by its label.
fn write_blank(label: &str, out: &mut Vec<u8>) -> Result<(), OutOfMemory>
    ensures text { Appends out.old.items out.new.items (95 ∷ 58 ∷ label.now) result }
    ensures utf8 { IsUtf8 (95 ∷ 58 ∷ label.now) }
{
    append(b"_:", out)?;
    append(label.as_bytes(), out)
}

// Appends a plain literal.
fn write_plain(text: &str, out: &mut Vec<u8>) -> Result<(), OutOfMemory>
    ensures text { Appends out.old.items out.new.items (quoted text.now []) result }
    ensures utf8 { IsUtf8 (quoted text.now []) }
{
    write_quoted(text, out)
}

// Appends a literal with a language.
fn write_lang(text: &str, tag: &str, out: &mut Vec<u8>) -> Result<(), OutOfMemory>
    ensures text { Appends out.old.items out.new.items (quoted text.now (64 ∷ tag.now)) result }
    ensures utf8 { IsUtf8 (quoted text.now (64 ∷ tag.now)) }
{
    write_quoted(text, out)?;
    append_byte(b'@', out)?;
    append(tag.as_bytes(), out)
}

// Appends a literal of another datatype than that of plain ones.
fn write_typed(text: &str, datatype: &str, out: &mut Vec<u8>) -> Result<(), OutOfMemory>
    ensures text { Appends out.old.items out.new.items (quoted text.now (94 ∷ 94 ∷ in_brackets datatype.now)) result }
    ensures utf8 { IsUtf8 (quoted text.now (94 ∷ 94 ∷ in_brackets datatype.now)) }
{
    write_quoted(text, out)?;
    append(b"^^<", out)?;
    append(datatype.as_bytes(), out)?;
    append_byte(b'>', out)
}

// Appends the bytes.
fn append(bytes: &[u8], out: &mut Vec<u8>) -> Result<(), OutOfMemory>
    ensures { Appends out.old.items out.new.items bytes.now result }
{
    out.extend_from_slice(bytes)?;
    Ok(())
}

// Appends the byte.
fn append_byte(byte: u8, out: &mut Vec<u8>) -> Result<(), OutOfMemory>
    ensures { Appends out.old.items out.new.items (byte ∷ []) result }
{
    out.push(byte)?;
    Ok(())
}
