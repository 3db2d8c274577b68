// IRIs for blank nodes.

ghost use Rattle.std.specs.Prelude.{◌≡◌, false};
ghost use Rattle.triple_sink.specs.TermRef.{meant};
ghost use Rattle.munger.specs.Naming.{named};

use rdf_vocabulary::Prefix;
use triple_sink::TermRef;

/// The term; in place of a blank node the IRI that its label names (RDF 1.1, section 3.5).
pub(crate) fn named<'a>(term: &TermRef<'a>) -> TermRef<'a>
    ensures { meant result ≡ named (meant term.now) }
{
    match term {
        TermRef::Blank(label) => TermRef::Named(Prefix::Genid, label),
        TermRef::Predicate(_)
        | TermRef::Resource(_)
        | TermRef::Named(_, _)
        | TermRef::Id(_, _)
        | TermRef::Iri(_)
        | TermRef::Plain(_)
        | TermRef::Lang(_, _)
        | TermRef::Typed(_, _) => *term,
    }
}

/// Whether the term is a blank node.
pub(crate) fn is_blank(term: &TermRef<'_>) -> bool
    ensures { result ≡ false → named (meant term.now) ≡ meant term.now }
{
    matches!(term, TermRef::Blank(_))
}
