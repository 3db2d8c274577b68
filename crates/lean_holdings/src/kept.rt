// What is kept of a page that an entity holds.

ghost use Rattle.std.specs.Prelude.{◌≡◌, option_copied};
ghost use Rattle.lean_holdings.specs.Kept.{kept_of, keys_held};

use entity_model::EntityId;
use entity_state::{Held, Table};
use text_region::Piece;
use triple_store::{KeySlices, Keys};

/// Where a page lies packed, and the keys of those of its triples that are stored.
#[derive(Drop)]
pub struct LeanPage {
    pub piece: Piece,
    pub keys: Keys,
}

/// What an entity holds.
pub fn held_of(table: &Table<LeanPage>, id: EntityId) -> Option<&Held<LeanPage>>
    ensures { option_copied result ≡ (kept_of table.now.records id).held }
{
    match table.get(id) {
        Some(record) => record.held.as_ref(),
        None => None,
    }
}

/// The keys of the stored triples of what an entity holds.
pub fn keys_of(table: &Table<LeanPage>, id: EntityId) -> KeySlices<'_>
    ensures { result.rising.now ≡ keys_held (kept_of table.now.records id).held }
{
    match held_of(table, id) {
        Some(held) => held.content.keys.slices(),
        None => KeySlices::none(),
    }
}
