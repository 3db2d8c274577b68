// Records of entities: how they are read and put.

ghost use Rattle.std.specs.Prelude.{◌≡◌, false, None, Some, IfOk, IfSome, IsSome, IsTrue, MatchOption, OnErr, OnOk};
ghost use Rattle.std.specs.FinMap as map;
ghost use Rattle.entity_state.specs.{Standing.standing_of, Table.has_room};
ghost use Rattle.text_region.specs.Region.{bytes_of};
ghost use Rattle.replay_model.specs.Versions.{version_at};
ghost use Rattle.lean_holdings.specs.{Freeing.FreesPiece, Kept.held_with, Kept.kept_of, Kept.piece_at};

use crate::kept::{LeanPage, held_of};
use entity_model::{EntityId, MappingVersion};
use entity_state::{Held, Record, Standing, Table};
use holders::Holders;
use page_packing::{PackedPages, Unpacker};
use rdf_term::OutOfMemory;

/// The revision that an entity holds, whose page is unpacked into a buffer.
pub fn read_held(
    pages: &PackedPages,
    table: &Table<LeanPage>,
    id: EntityId,
    page: &mut Unpacker,
) -> Result<Option<u64>, OutOfMemory>
    requires { IfSome (piece_at table.now.records id) (λ piece. IsSome (bytes_of pages.now piece)) }
    ensures { IfOk result (λ held. MatchOption held (held_with (bytes_of pages.now) (kept_of table.now.records id).held ≡ None)
        (λ revision. held_with (bytes_of pages.now) (kept_of table.now.records id).held
        ≡ Some (record { revision = revision; content = page.new }))) }
{
    match held_of(table, id) {
        Some(held) => {
            pages.read(&held.content.piece, page)?;
            Ok(Some(held.revision))
        }
        None => Ok(None),
    }
}

/// What stands of an entity's record.
pub fn standing_in(table: &Table<LeanPage>, id: EntityId) -> Standing
    ensures { result ≡ standing_of (kept_of table.now.records id) }
{
    match table.get(id) {
        Some(record) => Standing {
            state: record.state,
            held: held_revision(record),
            reconciled: record.reconciled,
        },
        None => {
            let blank: Record<LeanPage> = Record::blank();
            Standing {
                state: blank.state,
                held: None,
                reconciled: None,
            }
        }
    }
}

// The number of the revision that a record holds.
fn held_revision(entity: &Record<LeanPage>) -> Option<u64>
    ensures { result ≡ (standing_of entity.now).held }
{
    entity.held.as_ref().map(|held| held.revision)
}

/// By which version of the mapping an entity's page is mapped.
pub fn version_in(holders: &Holders, id: EntityId) -> MappingVersion
    ensures { result ≡ version_at holders.now.by_two id }
{
    if holders.has(id, MappingVersion::Two) {
        MappingVersion::Two
    } else {
        MappingVersion::One
    }
}

/// Makes room for a record, so that the next one of the entity that is put takes no memory; none is taken where it has a record.
pub fn make_room(table: &mut Table<LeanPage>, id: EntityId) -> Result<(), OutOfMemory>
    ensures records { table.new.records ≡ table.old.records }
    ensures room { OnOk result (IsTrue (has_room table.new id)) }
    ensures refused { OnErr result (map.contains_key table.old.records id ≡ false) }
{
    if table.get(id).is_some() {
        return Ok(());
    }
    table.make_room(id)?;
    Ok(())
}

/// Sets the record, whose page stays.
pub fn keep_record(table: &mut Table<LeanPage>, id: EntityId, after: Standing)
    requires { IsTrue (has_room table.old id) }
    ensures { table.new.records ≡ map.insert table.old.records id (record {
      state = after.state;
      held = (kept_of table.old.records id).held;
      reconciled = after.reconciled;
    }) }
{
    if table.get(id).is_some() {
        table.set_state(id, after.state, after.reconciled);
    } else {
        let record = Record {
            state: after.state,
            held: None,
            reconciled: after.reconciled,
        };
        let _ = table.put(id, record);
    }
}

/// Puts a record and frees the piece of the page that the one before held. It takes no memory.
pub fn replace(
    pages: &mut PackedPages,
    table: &mut Table<LeanPage>,
    id: EntityId,
    after: Standing,
    held: Option<Held<LeanPage>>,
)
    requires room { IsTrue (has_room table.old id) }
    requires live { IfSome (piece_at table.old.records id) (λ piece. IsSome (bytes_of pages.old piece)) }
    ensures records { table.new.records ≡ map.insert table.old.records id (record {
      state = after.state;
      held = held;
      reconciled = after.reconciled;
    }) }
    ensures freed { FreesPiece (piece_at table.old.records id) pages.old pages.new }
{
    let record = Record {
        state: after.state,
        held,
        reconciled: after.reconciled,
    };
    let Some(before) = table.put(id, record) else {
        return;
    };
    if let Some(held) = before.held {
        pages.free(held.content.piece);
    }
}
