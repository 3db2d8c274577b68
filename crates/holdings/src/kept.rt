// What is kept of a page that an entity holds.

ghost use Rattle.std.specs.Prelude.{◌≡◌, option_copied};
ghost use Rattle.holdings.specs.{Keeping.kept_of, Keeping.keys_held, Timed.times_held};

use entity_model::EntityId;
use entity_state::{Held, Table};
use page_rdf::Counts;
use text_region::Piece;
use triple_store::{KeySlices, Keys};

/// Where the bytes of a document lie in the region, the keys of its triples in the store, and what is known of how often these come.
#[derive(Drop)]
pub struct KeptPage {
    pub piece: Piece,
    pub keys: Keys,
    pub times: Option<PageTimes>,
}

/// What is known of the page of an item or a property: its counts, and how many times the triple of each key comes, in the order of the
/// keys. The times are empty where they aren't known.
#[derive(Drop)]
pub struct PageTimes {
    pub counts: Counts,
    pub times: Vec<u16>,
}

/// What an entity holds.
pub fn held_of(table: &Table<KeptPage>, id: EntityId) -> Option<&Held<KeptPage>>
    ensures { option_copied result ≡ (kept_of table.now.records id).held }
{
    match table.get(id) {
        Some(record) => record.held.as_ref(),
        None => None,
    }
}

/// The keys of the triples of what an entity holds.
pub fn keys_of(table: &Table<KeptPage>, id: EntityId) -> KeySlices<'_>
    ensures { result.rising.now ≡ keys_held (kept_of table.now.records id).held }
{
    match held_of(table, id) {
        Some(held) => held.content.keys.slices(),
        None => KeySlices::none(),
    }
}

/// How many times the triple of each of these keys comes, or nothing where that isn't known.
pub fn times_of(table: &Table<KeptPage>, id: EntityId) -> &[u16]
    ensures { result.now ≡ times_held (kept_of table.now.records id).held }
{
    let Some(held) = held_of(table, id) else {
        return &[];
    };
    match &held.content.times {
        Some(known) => known.times.as_slice(),
        None => &[],
    }
}
