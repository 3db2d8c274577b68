// The ids of items.

ghost use Rattle.std.specs.Prelude.{◌≡◌, []};
ghost use Rattle.json_spell.specs.View.{json_view};
ghost use Rattle.entity_json.specs.Finds.{Finds, Makes};
ghost use Rattle.entity_json.specs.Reading.Items.{item_id_of, item_id_step, item_ids_at};

use crate::each::{ItemReader, each_found_item};
use crate::leaf::{id_of_kind, optional_list_at, text_of};
use crate::part::{PartFault, put};
use base::List;
use entity_model::{EntityId, IdKind};
use json_spell::Json;
use std::alloc::Global;

// The id of an item.
fn item_id_of(json: &Json<'_, '_>) -> Result<EntityId, PartFault>
    ensures { Finds result (item_id_of (json_view json.now)) }
{
    id_of_kind(IdKind::Q, text_of(json)?)
}

struct ItemIdReader;

impl<'a> ItemReader<'a, EntityId> for ItemIdReader {
    ghost reads = { λ reader item out. item_id_step item out };

    fn read(
        &self,
        _alloc: Global,
        _index: usize,
        json: &Json<'_, 'a>,
        out: &mut List<EntityId>,
    ) -> Result<(), PartFault> {
        put(item_id_of(json), out)
    }
}

// Reads the ids of the list under the name, which may be missing, into the list `ids`, which is empty.
#[tactic(auto, unfolding(crate::specs::Reading::Items::item_ids_at))]
pub fn read_item_ids(
    alloc: Global,
    json: &Json<'_, '_>,
    name: &str,
    ids: &mut List<EntityId>,
) -> Result<(), PartFault>
    requires { ids.old ≡ [] }
    ensures { Makes result ids.new (item_ids_at name.now (json_view json.now)) }
{
    each_found_item(alloc, &ItemIdReader, optional_list_at(json, name)?, ids)
}
