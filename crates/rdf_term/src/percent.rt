// IRIs of texts.

ghost use Rattle.std.specs.Prelude.{◌≡◌, ◌<◌, ◌++◌, IfOk, OnOk, true, string_bytes, encode_utf8};
ghost use Rattle.rdf_term.specs.Fit.{is_fit};
ghost use Rattle.rdf_term.specs.Grammar.{hex_digit, iri_of, is_iri, is_iri_char, percent_encoded};

use crate::term::Term;
use base::{OutOfMemory, Text};
use std::alloc::Global;

/// The IRI of a text: each character that may not stand in an IRI is percent-encoded, with upper-case
/// digits (RFC 3986, section 2.1). A `%` stays as it is.
pub fn iri(alloc: Global, text: &str) -> Result<Term, OutOfMemory>
    ensures value { IfOk result (λ term. term ≡ iri_of text.now) }
    ensures fit { IfOk result (λ term. is_fit term ≡ true) }
{
    let mut encoded = String::new(alloc);
    let mut left = text.chars();
    while let Some(c) = left.next() {
        push_encoded(c, &mut encoded)?;
    }
    Ok(Term::Iri(Text::from_string(encoded)))
}

// Appends the character as it stands in an IRI.
#[tactic(auto, using(crate::proofs::IriChars::percent_encoded_char))]
fn push_encoded(c: char, encoded: &mut String) -> Result<(), OutOfMemory>
    ensures { OnOk result (string_bytes encoded.new ≡ string_bytes encoded.old ++ percent_encoded (encode_utf8 c)) }
{
    if is_iri_char(c) {
        encoded.push(c)?;
        return Ok(());
    }
    let byte = c as u8;
    encoded.push('%')?;
    encoded.push(hex_digit(byte / 16))?;
    encoded.push(hex_digit(byte % 16))?;
    Ok(())
}

/// Whether each character of the text may stand in an IRI as it is. Then the IRI of the text is the text.
pub fn is_iri(text: &str) -> bool
    ensures { result ≡ is_iri text.now }
{
    text.as_bytes()
        .iter()
        .all(|byte| is_iri_char(*byte as char))
}

/// Whether the character may stand in an IRI as it is.
pub fn is_iri_char(c: char) -> bool
    ensures { result ≡ is_iri_char c }
{
    !matches!(
        c,
        '\0'..=' ' | '<' | '>' | '"' | '{' | '}' | '|' | '^' | '`' | '\\'
    )
}

// The upper-case hexadecimal digit.
fn hex_digit(value: u8) -> char
    requires { value < 16 }
    ensures { result ≡ hex_digit value }
{
    if value < 10 {
        (b'0' + value) as char
    } else {
        (b'A' + (value - 10)) as char
    }
}
