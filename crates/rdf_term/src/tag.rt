// Language tags, and the literals that have one.

ghost use Rattle.std.specs.Prelude.{◌≡◌, IfOk, true};
ghost use Rattle.rdf_term.specs.{Fit.is_fit, Grammar.is_tag, Grammar.tagged_of, TagReader.is_end, TagReader.tag_state_after};

use crate::term::Term;
use base::{OutOfMemory, Text};
use std::alloc::Global;

/// The literal of a text in a language: `Lang` if the tag is in the grammar of N-Triples, `[a-zA-Z]+(-[a-zA-Z0-9]+)*`, and `Plain`
/// otherwise. The tag keeps its case.
pub fn tagged(alloc: Global, text: &str, tag: &str) -> Result<Term, OutOfMemory>
    ensures value { IfOk result (λ term. term ≡ tagged_of text.now tag.now) }
    ensures fit { IfOk result (λ term. is_fit term ≡ true) }
{
    let text = Text::new(alloc, text)?;
    if is_tag(tag.as_bytes()) {
        let tag = Text::new(alloc, tag)?;
        return Ok(Term::Lang(text, tag));
    }
    Ok(Term::Plain(text))
}

/// Whether the bytes are a language tag, by the grammar of N-Triples: `[a-zA-Z]+(-[a-zA-Z0-9]+)*`.
pub fn is_tag(tag: &[u8]) -> bool
    ensures { result ≡ is_tag tag.now }
{
    let mut state = TagState::Start;
    for byte in tag {
        match state.after(*byte) {
            Some(next) => state = next,
            None => return false,
        }
    }
    state.is_end()
}

/// Where a reader of a tag stands.
#[derive(Clone, Copy)]
pub enum TagState {
    /// Before the first part.
    Start,
    /// In the first part.
    First,
    /// Behind a dash.
    Dash,
    /// In a later part.
    Later,
}

impl TagState {
    // The state behind the byte, where it may stand here.
    fn after(self, byte: u8) -> Option<TagState>
        ensures { result ≡ tag_state_after self byte }
    {
        match self {
            TagState::Start | TagState::First if byte.is_ascii_alphabetic() => Some(
                TagState::First,
            ),
            TagState::Dash | TagState::Later if byte.is_ascii_alphanumeric() => Some(
                TagState::Later,
            ),
            TagState::First | TagState::Later if byte == b'-' => Some(TagState::Dash),
            _ => None,
        }
    }

    // Whether a tag may end here.
    fn is_end(self) -> bool
        ensures { result ≡ is_end self }
    {
        match self {
            TagState::First | TagState::Later => true,
            TagState::Start | TagState::Dash => false,
        }
    }
}
