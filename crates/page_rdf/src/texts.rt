// Texts in their languages.

ghost use Rattle.std.specs.Prelude.{◌≡◌};
ghost use Rattle.triple_sink.specs.TermRef.{meant};
ghost use Rattle.page_rdf.specs.Texts.{tagged_term};

use entity_model::Tagged;
use triple_sink::TermRef;

/// The literal of the text in its language, or the plain one where the language is no tag by the grammar of N-Triples.
pub fn text_ref<'m>(text: &'m Tagged<'_>) -> TermRef<'m>
    ensures { meant result ≡ tagged_term text.now }
{
    TermRef::tagged(text.text.as_str(), text.language.as_str())
}
