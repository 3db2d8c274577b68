// A triple of RDF.

ghost use Rattle.std.specs.Prelude.{◌≡◌, IfOk, refl};
ghost use Rattle.std.specs.Cmp.{partial_equiv_from_equiv, eq_by_cmp_equiv, partial_order_from_total};
ghost use Rattle.std.specs.Ordering.{as_partial_cmp, eq_by_cmp};
ghost use Rattle.rdf_term.specs.Order.{triple_cmp, triple_cmp-total};

use crate::order::compare;
use crate::term::Term;
use base::OutOfMemory;
use std::alloc::Global;
use std::cmp::Ordering;

/// A triple of RDF. Triples are ordered by the bytes of the canonical texts of subject, predicate and object.
#[derive(Drop)]
pub struct Triple {
    /// What the triple speaks of.
    pub subject: Term,
    /// The property.
    pub predicate: Term,
    /// The property's value.
    pub object: Term,
}

impl Triple {
    /// An equal triple in memory of its own.
    pub fn copy(&self, alloc: Global) -> Result<Triple, OutOfMemory>
        ensures { IfOk result (λ triple. triple ≡ self.now) }
    {
        let subject = self.subject.copy(alloc)?;
        let Ok(predicate) = self.predicate.copy(alloc) else {
            drop(subject);
            return Err(OutOfMemory);
        };
        let Ok(object) = self.object.copy(alloc) else {
            drop(subject);
            drop(predicate);
            return Err(OutOfMemory);
        };
        Ok(Triple {
            subject,
            predicate,
            object,
        })
    }
}

impl PartialEq for Triple {
    ghost eq = { eq_by_cmp triple_cmp };

    ghost laws = { partial_equiv_from_equiv (eq_by_cmp_equiv triple_cmp-total) };

    fn eq(&self, other: &Triple) -> bool {
        compare(self, other) == Ordering::Equal
    }
}

impl Eq for Triple {
    ghost laws = { eq_by_cmp_equiv triple_cmp-total };
}

impl Ord for Triple {
    ghost cmp = { triple_cmp };

    ghost total = { triple_cmp-total };

    ghost matches_partial_cmp = { λ x y. refl };

    ghost matches_eq = { λ x y. refl };

    fn cmp(&self, other: &Triple) -> Ordering {
        compare(self, other)
    }
}

impl PartialOrd for Triple {
    ghost partial_cmp = { as_partial_cmp triple_cmp };

    ghost laws = { partial_order_from_total triple_cmp-total };

    fn partial_cmp(&self, other: &Triple) -> Option<Ordering> {
        Some(compare(self, other))
    }
}
