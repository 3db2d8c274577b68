// The order of triples by the bytes of their canonical texts, without building a text.

ghost use Rattle.std.specs.Prelude.{◌≡◌, ◌++◌, ◌∷◌, [], length, min, slice_index};
ghost use Rattle.std.specs.Ordering.{ordering_then};
ghost use Rattle.rdf_term.specs.{Order.bytes_cmp, Order.term_cmp, Order.triple_cmp, Text.escaped, Text.escaped_byte};

use crate::escape::escape_of;
use crate::term::Term;
use crate::triple::Triple;
use base::Text;
use std::cmp::Ordering;

/// The order of triples: by the bytes of the canonical texts of the subjects, then of the predicates, then
/// of the objects. It takes no memory and stops at the first byte that differs.
pub fn compare(a: &Triple, b: &Triple) -> Ordering
    ensures order { result ≡ triple_cmp a.now b.now }

    // Only equal triples tie.
    ensures equal { result ≡ Ordering.Equal → a.now ≡ b.now }
{
    match compare_terms(&a.subject, &b.subject) {
        Ordering::Equal => compare_rest(a, b),
        decided => decided,
    }
}

// The order of the predicates, then of the objects.
fn compare_rest(a: &Triple, b: &Triple) -> Ordering
    ensures { result ≡ ordering_then (term_cmp a.now.predicate b.now.predicate) (term_cmp a.now.object b.now.object) }
{
    match compare_terms(&a.predicate, &b.predicate) {
        Ordering::Equal => compare_terms(&a.object, &b.object),
        decided => decided,
    }
}

/// The order of terms by the bytes of their canonical texts. It takes no memory.
#[tactic(auto, using(crate::proofs::Escapes::quoted_then))]
pub fn compare_terms(a: &Term, b: &Term) -> Ordering
    ensures { result ≡ term_cmp a.now b.now }
{
    match (a, b) {
        (Term::Iri(a), Term::Iri(b)) => compare_iris(a, b),
        (Term::Blank(a), Term::Blank(b)) => compare_texts(a, b),
        (Term::Iri(_), Term::Blank(_)) => Ordering::Less,
        (Term::Blank(_), Term::Iri(_)) => Ordering::Greater,
        (Term::Iri(_) | Term::Blank(_), _) => Ordering::Greater,
        (_, Term::Iri(_) | Term::Blank(_)) => Ordering::Less,
        (Term::Plain(a), Term::Plain(b)) => compare_quoted(a, b),
        (Term::Plain(a), Term::Lang(b, _) | Term::Typed(b, _)) => {
            compare_quoted(a, b).then(Ordering::Less)
        }
        (Term::Lang(a, _) | Term::Typed(a, _), Term::Plain(b)) => {
            compare_quoted(a, b).then(Ordering::Greater)
        }
        (Term::Lang(a, _), Term::Typed(b, _)) => compare_quoted(a, b).then(Ordering::Less),
        (Term::Typed(a, _), Term::Lang(b, _)) => compare_quoted(a, b).then(Ordering::Greater),
        (Term::Lang(a, x), Term::Lang(b, y)) => {
            compare_quoted(a, b).then_with(|| compare_texts(x, y))
        }
        (Term::Typed(a, x), Term::Typed(b, y)) => {
            compare_quoted(a, b).then_with(|| compare_iris(x, y))
        }
    }
}

// The order of two texts.
fn compare_texts(a: &Text, b: &Text) -> Ordering
    ensures { result ≡ bytes_cmp a.now b.now }
{
    a.as_bytes().cmp(b.as_bytes())
}

// The order of two IRIs with the bracket that closes them.
fn compare_iris(a: &Text, b: &Text) -> Ordering
    ensures { result ≡ bytes_cmp (a.now ++ 62 ∷ []) (b.now ++ 62 ∷ []) }
{
    let (a, b) = (a.as_bytes(), b.as_bytes());
    let shared = a.len().min(b.len());
    let (a_front, a_rest) = a.split_at(shared);
    let (b_front, b_rest) = b.split_at(shared);
    match a_front.cmp(b_front) {
        Ordering::Equal => compare_ends(a_rest, b_rest),
        decided => decided,
    }
}

// The order of what is left of two IRIs of which one has ended, with the bracket.
#[tactic(auto, using(crate::proofs::Escapes::shorter))]
fn compare_ends(a: &[u8], b: &[u8]) -> Ordering
    requires { min (length a.now) (length b.now) ≡ 0 }
    ensures { result ≡ bytes_cmp (a.now ++ 62 ∷ []) (b.now ++ 62 ∷ []) }
{
    match (a.first(), b.first()) {
        (Some(x), _) => x.cmp(&b'>').then(Ordering::Greater),
        (None, Some(y)) => b'>'.cmp(y).then(Ordering::Less),
        (None, None) => Ordering::Equal,
    }
}

// The order of two texts as they stand between the quotes, with the quote that closes them.
#[tactic(auto, using(crate::proofs::Escapes::same_byte, crate::proofs::Escapes::quote_first, crate::proofs::Escapes::quote_second, crate::proofs::Escapes::differ))]
fn compare_quoted(a: &Text, b: &Text) -> Ordering
    ensures { result ≡ bytes_cmp (escaped a.now ++ 34 ∷ []) (escaped b.now ++ 34 ∷ []) }
{
    let mut left = a.as_bytes();
    let mut right = b.as_bytes();
    loop {
        match (left.split_first(), right.split_first()) {
            (Some((x, left_rest)), Some((y, right_rest))) => {
                if x != y {
                    return compare_written(*x, *y);
                }
                left = left_rest;
                right = right_rest;
            }
            (Some((x, _)), None) => return first_written(*x).cmp(&b'"'),
            (None, Some((y, _))) => return b'"'.cmp(&first_written(*y)),
            (None, None) => return Ordering::Equal,
        }
    }
}

// The order of what is written for two bytes of a literal's text.
#[tactic(auto, using(crate::proofs::Escapes::then_equal))]
fn compare_written(x: u8, y: u8) -> Ordering
    ensures { result ≡ bytes_cmp (escaped_byte x) (escaped_byte y) }
{
    match (escape_of(x), escape_of(y)) {
        (Some(x_letter), Some(y_letter)) => x_letter.cmp(&y_letter),
        (Some(_), None) => b'\\'.cmp(&y).then(Ordering::Greater),
        (None, Some(_)) => x.cmp(&b'\\').then(Ordering::Less),
        (None, None) => x.cmp(&y),
    }
}

// The first byte that is written for a byte of a literal's text.
fn first_written(byte: u8) -> u8
    ensures { result ≡ slice_index (escaped_byte byte) 0 }
{
    match escape_of(byte) {
        Some(_) => b'\\',
        None => byte,
    }
}
