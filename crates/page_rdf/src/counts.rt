// The counts of a document, and a part of one with the counts of the whole.

ghost use Rattle.std.specs.Prelude.{◌≡◌, ◌+◌, IfSome};
ghost use Rattle.page_rdf.specs.Counted.{AreAfter, counts_of};

use crate::dataset::identifiers;
use entity_model::Entity;

/// How many statements a page has, how many of them are identifiers in other databases, and how many site links it has.
#[derive(Clone, Copy, PartialEq, Eq)]
pub struct Counts {
    /// All statements.
    pub statements: usize,
    /// The statements whose datatype is that of identifiers.
    pub identifiers: usize,
    /// The links.
    pub links: usize,
}

impl Counts {
    /// The counts of a document.
    pub fn of(entity: &Entity) -> Counts
        ensures { result ≡ counts_of entity.now }
    {
        Counts {
            statements: entity.statements.len(),
            identifiers: identifiers(entity.statements.as_slice()),
            links: entity.links.len(),
        }
    }

    /// The counts after those of some parts are gone and those of others came. None where more are gone than there were, or a count
    /// would be too large.
    pub fn after(self, gone: Counts, come: Counts) -> Option<Counts>
        ensures { IfSome result (AreAfter self gone come) }
    {
        Some(Counts {
            statements: changed(self.statements, gone.statements, come.statements)?,
            identifiers: changed(self.identifiers, gone.identifiers, come.identifiers)?,
            links: changed(self.links, gone.links, come.links)?,
        })
    }
}

// A count after some are gone and others came.
fn changed(count: usize, gone: usize, come: usize) -> Option<usize>
    ensures { IfSome result (λ now. now + gone ≡ count + come) }
{
    count.checked_sub(gone)?.checked_add(come)
}

/// A part of the document of a revision, and the counts of the whole document.
#[derive(Clone, Copy)]
pub struct Counted<'e, 'a> {
    /// The revision.
    pub rev: u64,
    /// The counts of the whole document.
    pub counts: Counts,
    /// The part.
    pub entity: &'e Entity<'a>,
}
