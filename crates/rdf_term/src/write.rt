// The canonical text of N-Triples, written.

ghost use Rattle.std.specs.Prelude.{◌≡◌, ◌++◌, ◌∷◌, [], OnOk, OnErr};
ghost use Rattle.std.specs.Str.{IsUtf8};
ghost use Rattle.rdf_term.specs.declared.term.Term.{Term};
ghost use Rattle.rdf_term.specs.Text.{escaped, escaped_byte, in_brackets, quoted, spaced, term_text, triple_text};
ghost use Rattle.base.specs.Append.{Appends};

use crate::escape::{escape_of, has_escape};
use crate::term::Term;
use crate::triple::Triple;
use base::OutOfMemory;

/// Appends the canonical text of the term, as N-Triples writes it: the escapes `\"`, `\\`, `\n` and `\r`
/// and no other.
pub fn write_term(term: &Term, out: &mut Vec<u8>) -> Result<(), OutOfMemory>
    ensures ok { OnOk result (out.new.items ≡ out.old.items ++ term_text term.now) }
    ensures err { OnErr result (out.new.items ≡ out.old.items) }
    ensures utf8 { IsUtf8 (term_text term.now) }

    // No other term has this text.
    ensures only { (other : Term) → term_text other ≡ term_text term.now → other ≡ term.now }
{
    let start = out.len();
    match append_term(term, out) {
        Ok(()) => Ok(()),
        Err(refused) => {
            out.truncate(start);
            Err(refused)
        }
    }
}

/// Appends the line of the triple, its LF included.
pub fn write_triple(triple: &Triple, out: &mut Vec<u8>) -> Result<(), OutOfMemory>
    ensures ok { OnOk result (out.new.items ≡ out.old.items ++ triple_text triple.now) }
    ensures err { OnErr result (out.new.items ≡ out.old.items) }
    ensures utf8 { OnOk result (IsUtf8 (triple_text triple.now)) }
{
    let start = out.len();
    match append_triple(triple, out) {
        Ok(()) => Ok(()),
        Err(refused) => {
            out.truncate(start);
            Err(refused)
        }
    }
}

// Appends the triple's line; after `OutOfMemory` a part of it may stand there.
#[tactic(auto, using(crate::proofs::Utf8Texts::line_utf8))]
fn append_triple(triple: &Triple, out: &mut Vec<u8>) -> Result<(), OutOfMemory>
    ensures text { Appends out.old.items out.new.items (triple_text triple.now) result }
    ensures utf8 { OnOk result (IsUtf8 (triple_text triple.now)) }
{
    append_spaced(&triple.subject, out)?;
    append_spaced(&triple.predicate, out)?;
    append_spaced(&triple.object, out)?;
    append_bytes(b".\n", out)
}

// Appends the term's text and a space.
#[tactic(auto, using(base::proofs::Appending::still_front, std::proofs::lemmas::List::append_assoc))]
fn append_spaced(term: &Term, out: &mut Vec<u8>) -> Result<(), OutOfMemory>
    ensures text { Appends out.old.items out.new.items (spaced term.now) result }
    ensures utf8 { IsUtf8 (term_text term.now) }
{
    append_term(term, out)?;
    append_bytes(b" ", out)
}

// Appends the term's text; after `OutOfMemory` a part of it may stand there.
fn append_term(term: &Term, out: &mut Vec<u8>) -> Result<(), OutOfMemory>
    ensures text { Appends out.old.items out.new.items (term_text term.now) result }
    ensures utf8 { IsUtf8 (term_text term.now) }
{
    match term {
        Term::Iri(iri) => append_iri(iri.as_str(), out),
        Term::Blank(label) => append_blank(label.as_str(), out),
        Term::Plain(text) => write_quoted(text.as_str(), out),
        Term::Lang(text, tag) => append_lang(text.as_str(), tag.as_str(), out),
        Term::Typed(text, datatype) => append_typed(text.as_str(), datatype.as_str(), out),
    }
}

// Appends an IRI in its brackets.
fn append_iri(iri: &str, out: &mut Vec<u8>) -> Result<(), OutOfMemory>
    ensures text { Appends out.old.items out.new.items (in_brackets iri.now) result }
    ensures utf8 { IsUtf8 (in_brackets iri.now) }
{
    append_bytes(b"<", out)?;
    append_bytes(iri.as_bytes(), out)?;
    append_bytes(b">", out)
}

// Appends a blank node by its label.
fn append_blank(label: &str, out: &mut Vec<u8>) -> Result<(), OutOfMemory>
    ensures text { Appends out.old.items out.new.items (95 ∷ 58 ∷ label.now) result }
    ensures utf8 { IsUtf8 (95 ∷ 58 ∷ label.now) }
{
    append_bytes(b"_:", out)?;
    append_bytes(label.as_bytes(), out)
}

// Appends a literal with a language.
fn append_lang(text: &str, tag: &str, out: &mut Vec<u8>) -> Result<(), OutOfMemory>
    ensures text { Appends out.old.items out.new.items (quoted text.now (64 ∷ tag.now)) result }
    ensures utf8 { IsUtf8 (quoted text.now (64 ∷ tag.now)) }
{
    write_quoted(text, out)?;
    append_bytes(b"@", out)?;
    append_bytes(tag.as_bytes(), out)
}

// Appends a literal of another datatype than that of plain ones.
fn append_typed(text: &str, datatype: &str, out: &mut Vec<u8>) -> Result<(), OutOfMemory>
    ensures text { Appends out.old.items out.new.items (quoted text.now (94 ∷ 94 ∷ in_brackets datatype.now)) result }
    ensures utf8 { IsUtf8 (quoted text.now (94 ∷ 94 ∷ in_brackets datatype.now)) }
{
    write_quoted(text, out)?;
    append_bytes(b"^^", out)?;
    append_iri(datatype, out)
}

/// Appends the text in its quotes, with its escapes; after `OutOfMemory` a part of it may stand there.
pub fn write_quoted(text: &str, out: &mut Vec<u8>) -> Result<(), OutOfMemory>
    ensures text { Appends out.old.items out.new.items (quoted text.now []) result }
    ensures utf8 { IsUtf8 (quoted text.now []) }
{
    append_bytes(b"\"", out)?;
    append_escaped(text.as_bytes(), out)?;
    append_bytes(b"\"", out)
}

// Appends a text as it stands between the quotes: at once where no byte is escaped.
#[tactic(auto, using(crate::proofs::Unescaped::escaped_same))]
fn append_escaped(text: &[u8], out: &mut Vec<u8>) -> Result<(), OutOfMemory>
    ensures { Appends out.old.items out.new.items (escaped text.now) result }
{
    if has_escape(text) {
        append_each(text, out)
    } else {
        append_bytes(text, out)
    }
}

// Appends each byte of a text as it stands between the quotes.
fn append_each(text: &[u8], out: &mut Vec<u8>) -> Result<(), OutOfMemory>
    ensures { Appends out.old.items out.new.items (escaped text.now) result }
{
    for byte in text {
        append_written(*byte, out)?;
    }
    Ok(())
}

// Appends what a byte of a literal's text is written as.
fn append_written(byte: u8, out: &mut Vec<u8>) -> Result<(), OutOfMemory>
    ensures { Appends out.old.items out.new.items (escaped_byte byte) result }
{
    match escape_of(byte) {
        Some(letter) => append_bytes(&[b'\\', letter], out),
        None => append_bytes(&[byte], out),
    }
}

// Appends the bytes.
fn append_bytes(bytes: &[u8], out: &mut Vec<u8>) -> Result<(), OutOfMemory>
    ensures { Appends out.old.items out.new.items bytes.now result }
{
    out.extend_from_slice(bytes)?;
    Ok(())
}
