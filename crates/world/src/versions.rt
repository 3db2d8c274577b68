// By which version of the mapping the held pages are mapped, and how one is mapped by another.

ghost use Rattle.std.specs.Prelude.{◌≡◌, ◌<◌, ◌≤◌, ◌+◌, false, None, IfOk, IfSome, IsErrOf, IsOk, OnErr, OnOk, length};
ghost use Rattle.replay_model.specs.{Records.record_of, Versions.all_by, Versions.meaning_by};
ghost use Rattle.fetched_pages.specs.Meaning.{meaning};
ghost use Rattle.holders.specs.Holding.{AreHolders};
ghost use Rattle.world.specs.{Held.TellsChange, Limit.HasRoomBy, Roomed.needs_anew};
ghost use Rattle.holdings.specs.Mapped.{AreTriplesOf};
ghost use Rattle.world.specs.Routed.{entity_of};
ghost use Rattle.world.specs.WorldState.{held_version, next_stale, remapped, stale, stored_of};
ghost use Rattle.world.specs.declared.applied.WorldFault.TheVariants.{Full, Nothing as NothingDue};

use crate::applied::{RemappedStep, WorldFault};
use crate::world::World;
use entity_model::{EntityId, MappingVersion};
use triple_store::Telling;

impl World {
    /// The version of the mapping in force, by which the pages of later applications are mapped.
    pub fn mapping(&self) -> MappingVersion
        ensures { result ≡ self.now.mapping }
    {
        self.mapping
    }

    /// Sets the version in force. Held pages stay mapped as they were; each entity that is named as mapped by version Two holds a page.
    pub fn set_mapping(&mut self, version: MappingVersion)
        ensures set { self.new ≡ record self.old { mapping = version } }
        ensures holders { AreHolders self.new.by_two self.new.replay.played.records }
    {
        self.mapping = version;
    }

    /// The version by which the held page of an entity is mapped, if it holds one. It takes no memory.
    pub fn held_version(&self, id: EntityId) -> Option<MappingVersion>
        ensures { result ≡ held_version self.now id }
    {
        self.holdings.held_version(id)
    }

    /// The least entity whose held page is mapped by another version than the one in force. It takes no memory.
    pub fn next_stale(&self) -> Option<EntityId>
        ensures { result ≡ next_stale self.now }
    {
        self.holdings.next_stale(self.mapping)
    }

    /// How many entities there are whose held pages are mapped by another version than the one in force. It takes no memory.
    pub fn stale(&self) -> usize
        ensures count { result ≡ length (stale self.now) }
        ensures none { result ≡ 0 → self.now.by_two ≡ all_by self.now.mapping self.now.replay.played.records }
    {
        self.holdings.stale(self.mapping)
    }

    /// Maps the held page of the least stale entity by the version in force, and says which entity that is. If no entity is stale, it says
    /// so, changes nothing and takes no memory. Nothing is fetched. After a fault nothing has changed. The fault is `Full` exactly if the
    /// new triples and those of all held pages have together more distinct terms than the limit.
    pub fn remap_next(&mut self) -> Result<Option<EntityId>, WorldFault>
        ensures ok { OnOk result (self.new ≡ remapped self.old) }
        ensures entity { IfOk result (λ entity. entity ≡ next_stale self.old) }
        ensures fewer { IfOk result (λ entity. IfSome entity (λ _. length (stale self.new) + 1 ≡ length (stale self.old))) }
        ensures full { IsErrOf result Full → self.old.limit.terms < needs_anew self.old }
        ensures within { OnOk result (needs_anew self.old ≤ self.old.limit.terms) }
        ensures held { HasRoomBy self.new.limit (meaning_by meaning self.new.by_two) self.new.replay.played.records }
        ensures holders { AreHolders self.new.by_two self.new.replay.played.records }
        ensures err { OnErr result (self.new ≡ self.old) }
        ensures something { ¬ (IsErrOf result NothingDue) }
        ensures free { next_stale self.old ≡ None → IsOk result }
    {
        match self.remap_next_with(Telling::Nothing) {
            Ok(Some(remapping)) => Ok(Some(remapping.entity)),
            Ok(None) => Ok(None),
            Err(fault) => Err(fault),
        }
    }

    /// Does what `remap_next` does, and gives back the triples of the page by their texts. If asked, it also tells whether it changed which
    /// triples are stored, or gives the triples that it added to these and those that it removed.
    pub fn remap_next_with(&mut self, telling: Telling) -> Result<Option<RemappedStep>, WorldFault>
        ensures ok { OnOk result (self.new ≡ remapped self.old) }
        ensures entity { IfOk result (λ done. entity_of done ≡ next_stale self.old) }
        ensures fewer { IfOk result (λ done. IfSome done (λ _. length (stale self.new) + 1 ≡ length (stale self.old))) }
        ensures change { IfOk result (λ done. IfSome done (λ remapping. TellsChange telling (stored_of self.old) (stored_of self.new) remapping.change)) }
        ensures triples { self.old.limit.lean ≡ false → IfOk result (λ done. IfSome done (λ remapping. AreTriplesOf self.old.mapping remapping.entity (record_of self.old.replay.played.records remapping.entity).held remapping.triples)) }
        ensures full { IsErrOf result Full → self.old.limit.terms < needs_anew self.old }
        ensures within { OnOk result (needs_anew self.old ≤ self.old.limit.terms) }
        ensures held { HasRoomBy self.new.limit (meaning_by meaning self.new.by_two) self.new.replay.played.records }
        ensures holders { AreHolders self.new.by_two self.new.replay.played.records }
        ensures err { OnErr result (self.new ≡ self.old) }
        ensures something { ¬ (IsErrOf result NothingDue) }
        ensures free { next_stale self.old ≡ None → IsOk result }
    {
        let Some(entity) = self.holdings.next_stale(self.mapping) else {
            return Ok(None);
        };
        let remapped = match self
            .holdings
            .remap(self.alloc, entity, self.mapping, telling)
        {
            Ok(remapped) => remapped,
            Err(fault) => return Err(WorldFault::from(fault)),
        };
        self.holdings.facts();
        Ok(Some(RemappedStep {
            entity,
            change: remapped.change,
            triples: remapped.triples,
        }))
    }
}
