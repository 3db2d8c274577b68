// A text compared with another piece by piece.

ghost use Rattle.std.specs.Prelude.{◌≡◌, [], Some, IsTrue, ◌↔◌};
ghost use Rattle.std.specs.Option.{option_map};
ghost use Rattle.rdf_term.specs.Text.{term_text};
ghost use Rattle.term_pool.specs.Front.{behind, behind_front};

use crate::walk::{TextSink, put_term};
use rdf_term::Term;
use std::marker::Model;

// What is left of a text behind the bytes that were compared with its front: none once they differ.
#[derive(Drop)]
struct Matcher<'a> {
    rest: Option<&'a [u8]>,
}

impl<'a> Model for Matcher<'a> {
    ghost use Rattle.std.specs.Prelude.{List, ℕ, Option};
    ghost use Rattle.std.specs.Option.{option_map};

    ghost Value = { Option (List ℕ) };

    ghost view = { λ m. option_map (λ rest. rest.now) m.rest };
}

impl<'a> TextSink for Matcher<'a> {
    ghost use Rattle.term_pool.specs.Front.{behind, behind-none, behind-joined};

    ghost after = { behind };

    ghost none = { behind-none };

    ghost joined = { behind-joined };

    fn put(&mut self, bytes: &[u8]) {
        self.rest = behind(self.rest, bytes);
    }
}

// What is left behind these bytes, where something is left and begins with them.
fn behind<'a>(rest: Option<&'a [u8]>, bytes: &[u8]) -> Option<&'a [u8]>
    ensures { option_map (λ left. left.now) result ≡ behind (option_map (λ left. left.now) rest.entry) bytes.now }
{
    match rest {
        Some(rest) => behind_front(rest, bytes),
        None => None,
    }
}

// What is left behind these bytes, where a text begins with them.
fn behind_front<'a>(text: &'a [u8], bytes: &[u8]) -> Option<&'a [u8]>
    ensures { option_map (λ left. left.now) result ≡ behind_front bytes.now text.now }
{
    text.strip_prefix(bytes)
}

// Whether something is left, and has no bytes.
fn is_end(rest: Option<&[u8]>) -> bool
    ensures { IsTrue result ↔ (option_map (λ left. left.now) rest.entry ≡ Some []) }
{
    match rest {
        Some(rest) => rest.is_empty(),
        None => false,
    }
}

// Whether a text is the canonical text of a term. It takes no memory.
pub(crate) fn is_text_of(text: &[u8], term: &Term) -> bool
    ensures { IsTrue result ↔ (text.now ≡ term_text term.now) }
{
    let mut matcher = Matcher { rest: Some(text) };
    put_term(term, &mut matcher);
    is_end(matcher.rest)
}
