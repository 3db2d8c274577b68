// The least due event is applied.

ghost use Rattle.std.specs.Prelude.{◌≡◌, ◌≢◌, ◌↔◌, ◌⊎◌, ◌<◌, ◌≤◌, true, None, Some, is_some, IfSome, option_copied, if◌then◌else◌, IfOk, IfErr, OnErr, IsErrOf};
ghost use Rattle.revisions.specs.Revisions.{counted};
ghost use Rattle.reorder_buffer.specs.Buffered.{first_due};
ghost use Rattle.replay_model.specs.{Records.record_of, Versions.meaning_by};
ghost use Rattle.fetched_pages.specs.{Reply.IsReply, Reply.ShowsReply, Fetched.AreMeant, Fetched.reply_of, Fetched.reply_or_any, Meaning.meaning};
ghost use Rattle.fetched_pages.specs.Routing.{AreRouted};
ghost use Rattle.holders.specs.Holding.{AreHolders};
ghost use Rattle.world.specs.{Held.TellsChange, Limit.HasRoomBy, Roomed.needs_now};
ghost use Rattle.world.specs.{Applying.Applies, Applying.IsShown, Applying.calls_after, Refused.MayBeRefused};
ghost use Rattle.world.specs.{Roomed.IsOverfull, Routed.GivesPage, WorldState.by_two_after, WorldState.stored_of};
ghost use Rattle.world.specs.declared.applied.Outcome.TheVariants.{Stored};
ghost use Rattle.world.specs.declared.applied.WorldFault.TheVariants.{Full, Nothing as NothingDue, OutOfMemory as WorldOutOfMemory};
ghost use Rattle.triple_store.specs.declared.telling.Telling.TheVariants.{Nothing as NoTelling};
ghost use Rattle.entity_state.specs.{Standing.standing_after, Standing.standing_of, Standing.standing_wants, State.state_after};

use crate::applied::{AppliedEvent, AppliedStep, Handling, WorldFault};
use crate::applying::apply;
use crate::world::World;
use entity_model::Event;
use fetched_pages::{Beside, Reply, Wanted, fetch};
use graph_routes::Routes;
use page_packing::Unpacker;
use rdf_term::OutOfMemory;
use revisions::Revisions;
use triple_store::Telling;

impl World {
    /// Applies the least due event: its entity's state is set, and if the new state wants a revision, it is fetched once, and mapped by the
    /// version in force. After a fault nothing has changed, except that a fetch may have been made. If contracts see the contents of the
    /// source, the fault is `Full` exactly if the triples of the fetched page and of all held pages (in a lean world: those that two pages
    /// may share) have together more distinct terms than the limit, unless memory is refused. Otherwise `Full` says only that some document
    /// of the entity has no room. What is stored is within the limit, before and after. If nothing is fetched for an entity that has a record, memory isn't refused.
    pub fn apply_next<R: Revisions>(
        &mut self,
        revisions: &mut R,
        folder: &str,
    ) -> Result<AppliedEvent, WorldFault>
        ensures applied { IfOk result (λ applied. Applies (R.contents revisions.old) folder.now self.old.replay self.new.replay applied) }
        ensures limit { self.new.limit ≡ self.old.limit }
        ensures mapping { self.new.mapping ≡ self.old.mapping }
        ensures by_two { IfOk result (λ applied.
            self.new.by_two ≡ by_two_after applied.outcome self.old.mapping applied.event.entity self.old.by_two) }
        ensures within { IfOk result (λ applied. applied.outcome ≡ Stored → needs_now self.old applied.event.entity
            (record_of self.new.replay.played.records applied.event.entity).held ≤ self.old.limit.terms) }
        ensures held { HasRoomBy self.new.limit (meaning_by meaning self.new.by_two) self.new.replay.played.records }
        ensures holders { AreHolders self.new.by_two self.new.replay.played.records }
        ensures full { IsErrOf result Full → IsOverfull (R.contents revisions.old) folder.now self.old }
        ensures refused { IsErrOf result WorldOutOfMemory → MayBeRefused NoTelling self.old }
        ensures err { OnErr result (self.new ≡ self.old) }
        ensures nothing { IsErrOf result NothingDue ↔ (first_due self.old.replay.buffer ≡ None) }

        ensures told { R.contents revisions.new ≡ R.contents revisions.old }
        ensures shown { IfOk result (λ applied. IsShown applied.outcome
            (R.misses revisions.old) (R.misses revisions.new) (R.faults revisions.old) (R.faults revisions.new)) }
        ensures calls { IfOk result (λ applied. R.calls revisions.new ≡ calls_after applied.outcome (R.calls revisions.old)) }
        ensures calls_at_fault { IfErr result (λ fault. (R.calls revisions.new ≡ R.calls revisions.old)
            ⊎ ((fault ≢ NothingDue) × (R.calls revisions.new ≡ counted (R.calls revisions.old)))) }
        ensures calls_at_full { IsErrOf result Full → R.calls revisions.new ≡ counted (R.calls revisions.old) }
        ensures more_faults { R.faults revisions.old ≤ R.faults revisions.new }
        ensures more_misses { R.misses revisions.old ≤ R.misses revisions.new }
        ensures most { R.most_faults revisions.new ≡ R.most_faults revisions.old }
    {
        match self.apply_next_with(revisions, folder, Telling::Nothing, None) {
            Ok(done) => Ok(done.applied),
            Err(fault) => Err(fault),
        }
    }

    /// Does what `apply_next` does. If asked, it also tells whether it changed which triples are stored; or it gives the lines of the triples
    /// that it added to these and of those that it removed, which takes memory. If there are routes, it gives back the page that it stored: its triples by their texts, and its graph.
    pub fn apply_next_with<R: Revisions>(
        &mut self,
        revisions: &mut R,
        folder: &str,
        telling: Telling,
        routes: Option<&Routes>,
    ) -> Result<AppliedStep, WorldFault>
        ensures applied { IfOk result (λ done. Applies (R.contents revisions.old) folder.now self.old.replay self.new.replay done.applied) }
        ensures limit { self.new.limit ≡ self.old.limit }
        ensures mapping { self.new.mapping ≡ self.old.mapping }
        ensures by_two { IfOk result (λ done.
            self.new.by_two ≡ by_two_after done.applied.outcome self.old.mapping done.applied.event.entity self.old.by_two) }
        ensures change { IfOk result (λ done. TellsChange telling (stored_of self.old) (stored_of self.new) done.change) }
        ensures routed { IfOk result (λ done. IfSome (option_copied routes.entry) (λ known. GivesPage known self.old.mapping done.applied.event.entity done.applied.outcome
            (record_of self.new.replay.played.records done.applied.event.entity).held done.routed)) }
        ensures within { IfOk result (λ done. done.applied.outcome ≡ Stored → needs_now self.old done.applied.event.entity
            (record_of self.new.replay.played.records done.applied.event.entity).held ≤ self.old.limit.terms) }
        ensures held { HasRoomBy self.new.limit (meaning_by meaning self.new.by_two) self.new.replay.played.records }
        ensures holders { AreHolders self.new.by_two self.new.replay.played.records }
        ensures full { IsErrOf result Full → IsOverfull (R.contents revisions.old) folder.now self.old }
        ensures refused { IsErrOf result WorldOutOfMemory → MayBeRefused telling self.old }
        ensures err { OnErr result (self.new ≡ self.old) }
        ensures nothing { IsErrOf result NothingDue ↔ (first_due self.old.replay.buffer ≡ None) }

        ensures told { R.contents revisions.new ≡ R.contents revisions.old }
        ensures shown { IfOk result (λ done. IsShown done.applied.outcome
            (R.misses revisions.old) (R.misses revisions.new) (R.faults revisions.old) (R.faults revisions.new)) }
        ensures calls { IfOk result (λ done. R.calls revisions.new ≡ calls_after done.applied.outcome (R.calls revisions.old)) }
        ensures calls_at_fault { IfErr result (λ fault. (R.calls revisions.new ≡ R.calls revisions.old)
            ⊎ ((fault ≢ NothingDue) × (R.calls revisions.new ≡ counted (R.calls revisions.old)))) }
        ensures calls_at_full { IsErrOf result Full → R.calls revisions.new ≡ counted (R.calls revisions.old) }
        ensures more_faults { R.faults revisions.old ≤ R.faults revisions.new }
        ensures more_misses { R.misses revisions.old ≤ R.misses revisions.new }
        ensures most { R.most_faults revisions.new ≡ R.most_faults revisions.old }
    {
        let Some(event) = self.buffer.least_due() else {
            return Err(WorldFault::Nothing);
        };
        let Ok(reply) = self.reply(revisions, folder, &event, routes) else {
            return Err(WorldFault::OutOfMemory);
        };
        let how = Handling {
            version: self.mapping,
            telling,
        };
        match apply(&mut self.holdings, &mut self.side, event, reply, how) {
            Ok(effect) => {
                self.holdings.facts();
                self.buffer.drop_least();
                Ok(AppliedStep {
                    applied: AppliedEvent {
                        event,
                        outcome: effect.outcome,
                    },
                    change: effect.change,
                    routed: effect.routed,
                })
            }
            Err(fault) => Err(WorldFault::from(fault)),
        }
    }

    // The reply to the fetch that an event wants, if it wants one.
    fn reply<R: Revisions>(
        &self,
        revisions: &mut R,
        folder: &str,
        event: &Event,
        routes: Option<&Routes>,
    ) -> Result<Option<Reply>, OutOfMemory>
        ensures wanted { IfOk result (λ reply. is_some reply
            ≡ standing_wants (standing_after (standing_of (record_of self.now.replay.played.records event.now.entity)) event.now)) }
        ensures reply { IfOk result (λ reply. IsReply (R.contents revisions.old) folder.now event.now.entity
            (state_after (record_of self.now.replay.played.records event.now.entity).state event.now).rev (reply_or_any reply)) }
        ensures meant { IfOk result (AreMeant self.now.replay.played.records self.now.by_two self.now.mapping event.now.entity
            (standing_after (standing_of (record_of self.now.replay.played.records event.now.entity)) event.now).state.rev) }
        ensures routed { IfOk result (AreRouted (option_copied routes.entry) event.now.entity) }
        ensures told { R.contents revisions.new ≡ R.contents revisions.old }
        ensures shown { IfOk result (λ reply. IfSome reply (λ r. ShowsReply (reply_of r)
            (R.misses revisions.old) (R.misses revisions.new) (R.faults revisions.old) (R.faults revisions.new))) }
        ensures calls { IfOk result (λ reply. R.calls revisions.new
            ≡ (if is_some reply then counted (R.calls revisions.old) else R.calls revisions.old)) }
        ensures called { OnErr result (R.calls revisions.new ≡ counted (R.calls revisions.old)) }
        ensures refused { OnErr result (standing_wants (standing_after (standing_of (record_of self.now.replay.played.records event.now.entity)) event.now) ≡ true) }
        ensures more_faults { R.faults revisions.old ≤ R.faults revisions.new }
        ensures more_misses { R.misses revisions.old ≤ R.misses revisions.new }
        ensures most { R.most_faults revisions.new ≡ R.most_faults revisions.old }
    {
        let after = self.holdings.standing(event.entity).after(event);
        if !after.wants() {
            return Ok(None);
        }
        let wanted = Wanted {
            id: event.entity,
            rev: after.state.rev,
            version: self.mapping,
        };
        let known = self.holdings.known_page(event.entity, self.mapping);
        let mut buffer = Unpacker::new(self.alloc);
        let parts = self
            .holdings
            .parts_beside(event.entity, self.mapping, &mut buffer);
        match fetch(
            self.alloc,
            revisions,
            folder,
            wanted,
            Beside {
                routes,
                known,
                parts,
            },
        ) {
            Ok(reply) => Ok(Some(reply)),
            Err(refused) => Err(refused),
        }
    }
}
