// The parts of a page, with the other entities that it names.

ghost use Rattle.std.specs.Prelude.{◌≡◌, [], false, IfOk};
ghost use Rattle.sorted_sets.specs.Rising.{sorted};
ghost use Rattle.entity_model.specs.EntityId.{entity_cmp};

use crate::parts::PageParts;
use entity_model::EntityId;
use rdf_term::OutOfMemory;
use std::alloc::Global;

/// The parts of a page, and the other entities that it names, in rising order.
#[derive(Drop)]
pub struct NamedParts {
    pub parts: PageParts,
    pub names: Vec<EntityId>,
}

impl NamedParts {
    /// The parts with the entities that they name.
    pub fn of(alloc: Global, parts: PageParts) -> Result<NamedParts, OutOfMemory>
        ensures parts { IfOk result (λ named. named.parts ≡ parts) }
        ensures names { IfOk result (λ named. named.names.items ≡ sorted entity_cmp parts.strangers) }
    {
        match in_order(alloc, parts.strangers()) {
            Ok(names) => Ok(NamedParts { parts, names }),
            Err(OutOfMemory) => {
                drop(parts);
                Err(OutOfMemory)
            }
        }
    }

    /// The parts of nothing. They take no memory.
    pub fn none(alloc: Global, id: EntityId) -> NamedParts
        ensures parts { result.parts ≡ record {
          entity = id;
          is_counted = false;
          has_failed = false;
          all = [];
          own = [];
          shared = [];
          strangers = [];
        } }
        ensures names { result.names.items ≡ [] }
    {
        NamedParts {
            parts: PageParts::new(alloc, id, false),
            names: Vec::new(alloc),
        }
    }
}

// The entities in rising order, each once.
fn in_order(alloc: Global, ids: &[EntityId]) -> Result<Vec<EntityId>, OutOfMemory>
    ensures { IfOk result (λ ordered. ordered.items ≡ sorted entity_cmp ids.now) }
{
    let mut ordered = Vec::new(alloc);
    ordered.extend_from_slice(ids)?;
    ordered.sort_unstable();
    ordered.dedup();
    Ok(ordered)
}
