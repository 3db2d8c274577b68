// What a fetched page is judged beside: the page that its entity holds.

ghost use Rattle.std.specs.Prelude.{◌≡◌, Some, IfSome};
ghost use Rattle.replay_model.specs.{Records.record_of, Versions.version_at};
ghost use Rattle.fetched_pages.specs.Compared.{HasEntity, IsKnownPage};
ghost use Rattle.world.specs.Held.{held_in};

use crate::held::WorldHoldings;
use entity_model::{EntityId, MappingVersion};
use fetched_pages::{HeldPage, KnownPage, PartsBeside};
use lean_holdings::LeanHoldings;
use page_packing::Unpacker;

impl WorldHoldings {
    /// The page that an entity holds, where what it means is known of it. It takes no memory.
    pub fn known_page(&self, id: EntityId, version: MappingVersion) -> Option<KnownPage<'_>>
        ensures known { IfSome result (IsKnownPage (held_in self.now).records (held_in self.now).by_two version id) }
        ensures entity { IfSome result (HasEntity id) }
    {
        match self {
            WorldHoldings::All(holdings) => holdings.known_page(id, version),
            WorldHoldings::Lean(_) => None,
        }
    }

    /// What is known for the parts of a page that is fetched for an entity, in a lean world: the page that it holds, if it is mapped by this
    /// version, unpacked into a buffer as far as there is memory for it.
    pub fn parts_beside<'a>(
        &self,
        id: EntityId,
        version: MappingVersion,
        buffer: &'a mut Unpacker,
    ) -> Option<PartsBeside<'a>>
        ensures { IfSome result (λ parts. IfSome parts.held (λ page.
            ((record_of (held_in self.entry.now).records id).held ≡ Some (record { revision = page.rev; content = page.bytes.now }))
            × (version_at (held_in self.entry.now).by_two id ≡ version))) }
    {
        match self {
            WorldHoldings::All(_) => None,
            WorldHoldings::Lean(lean) => Some(PartsBeside {
                is_counted: lean.holdings.is_counted(id),
                held: held_page(&lean.holdings, id, version, buffer),
            }),
        }
    }
}

// The page that an entity holds, if it is mapped by a version, unpacked into a buffer as far as there is memory for it.
fn held_page<'a>(
    holdings: &LeanHoldings,
    id: EntityId,
    version: MappingVersion,
    buffer: &'a mut Unpacker,
) -> Option<HeldPage<'a>>
    ensures { IfSome result (λ page.
        ((record_of holdings.entry.now.records id).held ≡ Some (record { revision = page.rev; content = page.bytes.now }))
        × (version_at holdings.entry.now.by_two id ≡ version)) }
{
    if holdings.version_of(id) != version {
        return None;
    }
    let Ok(Some(rev)) = holdings.held(id, buffer) else {
        return None;
    };
    Some(HeldPage {
        rev,
        bytes: buffer.text(),
    })
}
