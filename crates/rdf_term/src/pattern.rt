// The pattern that triples are asked for by.

ghost use Rattle.std.specs.Prelude.{◌≡◌};
ghost use Rattle.rdf_term.specs.Pattern.{agrees, agrees_at};

use crate::order::compare_terms;
use crate::term::Term;
use crate::triple::Triple;
use std::cmp::Ordering;

/// What triples are asked for: a place that is `None` agrees with every term.
#[derive(Drop)]
pub struct Pattern {
    /// The subject that is wanted.
    pub subject: Option<Term>,
    /// The predicate that is wanted.
    pub predicate: Option<Term>,
    /// The object that is wanted.
    pub object: Option<Term>,
}

impl Pattern {
    /// Whether the triple agrees with the pattern at each place.
    pub fn agrees(&self, triple: &Triple) -> bool
        ensures { result ≡ agrees self.now triple.now }
    {
        agrees_at(&self.subject, &triple.subject)
            && agrees_at(&self.predicate, &triple.predicate)
            && agrees_at(&self.object, &triple.object)
    }
}

// Whether the term is the one that is wanted, where one is.
fn agrees_at(wanted: &Option<Term>, term: &Term) -> bool
    ensures { result ≡ agrees_at wanted.now term.now }
{
    match wanted {
        None => true,
        Some(wanted) => compare_terms(wanted, term) == Ordering::Equal,
    }
}
