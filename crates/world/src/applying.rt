// An event is applied to what its entity holds, and to the side output.

ghost use Rattle.std.specs.Prelude.{◌≡◌, ◌≤◌, ◌⊎◌, false, None, Some, Err, IfOk, OnErr, OnOk, is_some};
ghost use Rattle.std.specs.FinMap as map;
ghost use Rattle.entity_model.specs.declared.mapping.MappingVersion.{MappingVersion};
ghost use Rattle.term_pool.specs.declared.fault.PoolFault.TheVariants.{Full, OutOfMemory as StoreOutOfMemory};
ghost use Rattle.entity_state.specs.Standing.{standing_after, standing_of, standing_wants};
ghost use Rattle.replay_model.specs.{Play.apply as played, Records.record_of};
ghost use Rattle.entity_json.specs.Document.{unfit_of};
ghost use Rattle.fetched_pages.specs.Fetched.{AreMeant, reply_or_any};
ghost use Rattle.holders.specs.Holding.{AreHolders};
ghost use Rattle.world.specs.Held.{TellsChange, held_in, held_triples, needs_in};
ghost use Rattle.world.specs.Applying.{outcome_after, unfetched_outcome, unless_deleted};
ghost use Rattle.world.specs.{Refused.TakesMemory, Refused.TellsDropped, Roomed.Overfills};
ghost use Rattle.world.specs.{Routed.routed_by, Routed.routed_page, WorldState.by_two_after, WorldState.played_of};

use crate::applied::{Handling, HeldChange, Outcome, RoutedPage, StepChange};
use crate::held::WorldHoldings;
use entity_model::{EntityId, Event};
use entity_state::{Entry, Mode, Side, Standing};
use fetched_pages::{FetchedPage, Page, Reply, Wanted};
use rdf_term::OutOfMemory;
use triple_store::{StoreFault, Telling, Told};

/// Applies an event. If it wants a fetch, the reply is given, and its page is mapped by the version. Tells what it is asked
/// of the change of the stored triples. After a fault nothing has changed. It takes memory only for a page, for an entity's first record, for an entry of the
/// side output, and to tell what is dropped.
pub fn apply(
    holdings: &mut WorldHoldings,
    side: &mut Side,
    event: Event,
    reply: Option<Reply>,
    how: Handling,
) -> Result<HeldChange, StoreFault>
    requires wanted { is_some reply ≡ standing_wants (standing_after (standing_of (record_of (held_in holdings.old).records event.entity)) event) }
    requires meant { AreMeant (held_in holdings.old).records (held_in holdings.old).by_two how.version event.entity (standing_after (standing_of (record_of (held_in holdings.old).records event.entity)) event).state.rev reply }
    requires document { IfOk (reply_or_any reply) (λ bytes. unfit_of event.entity bytes ≡ None) }
    requires holding { AreHolders (held_in holdings.old).by_two (held_in holdings.old).records }
    ensures applied { OnOk result (played_of (held_in holdings.new) side.new.entries ≡ played (λ _ _. reply_or_any reply) (played_of (held_in holdings.old) side.old.entries) event) }
    ensures limit { (held_in holdings.new).limit ≡ (held_in holdings.old).limit }
    ensures by_two { IfOk result (λ effect. (held_in holdings.new).by_two ≡ by_two_after effect.outcome how.version event.entity (held_in holdings.old).by_two) }
    ensures change { IfOk result (λ effect. TellsChange how.telling (held_triples (held_in holdings.old)) (held_triples (held_in holdings.new)) effect.change) }
    ensures routed { IfOk result (λ effect. effect.routed ≡ routed_by reply) }
    ensures outcome { IfOk result (λ effect.
        effect.outcome ≡ outcome_after (record_of (held_in holdings.old).records event.entity) event (reply_or_any reply)) }
    ensures full { result ≡ Err Full → Overfills (held_in holdings.old) how.version event.entity
        (standing_after (standing_of (record_of (held_in holdings.old).records event.entity)) event).state.rev (reply_or_any reply) }
    ensures within { OnOk result (IfOk (reply_or_any reply) (λ bytes. needs_in (held_in holdings.old) how.version event.entity
        (Some (record { revision = (standing_after (standing_of (record_of (held_in holdings.old).records event.entity)) event).state.rev; content = bytes }))
        ≤ (held_in holdings.old).limit.terms)) }
    ensures err { OnErr result (held_in holdings.new ≡ held_in holdings.old) }
    ensures err_entries { OnErr result (side.new.entries ≡ side.old.entries) }
    ensures refused { result ≡ Err StoreOutOfMemory → TakesMemory how.telling (held_in holdings.old).limit.lean (held_in holdings.old).records event }
{
    let after = holdings.standing(event.entity).after(&event);
    match reply {
        Some(Ok(page)) => {
            let wanted = Wanted {
                id: event.entity,
                rev: after.state.rev,
                version: how.version,
            };
            match holdings.hold(wanted, after, &page, how.telling) {
                Ok(change) => Ok(HeldChange {
                    outcome: Outcome::Stored,
                    change,
                    routed: routed(page),
                }),
                Err(refused) => {
                    drop(page);
                    Err(refused)
                }
            }
        }
        Some(Err(cause)) => {
            if side.make_room().is_err() {
                return Err(StoreFault::OutOfMemory);
            }
            match holdings.keep(event.entity, after) {
                Ok(()) => {
                    let _ = side.push(Entry::Revision(event, after.state.rev, cause));
                    Ok(HeldChange {
                        outcome: Outcome::Sided(cause),
                        change: StepChange::Told(Told::Nothing),
                        routed: None,
                    })
                }
                Err(_) => Err(StoreFault::OutOfMemory),
            }
        }
        None => match settle(holdings, event.entity, after, how.telling) {
            Ok(effect) => Ok(effect),
            Err(_) => Err(StoreFault::OutOfMemory),
        },
    }
}

// Sets the record of an entity if nothing was fetched, and tells what it is asked of the change of the stored triples. After `OutOfMemory`
// nothing has changed.
fn settle(
    holdings: &mut WorldHoldings,
    id: EntityId,
    after: Standing,
    telling: Telling,
) -> Result<HeldChange, OutOfMemory>
    ensures records { OnOk result ((held_in holdings.new).records ≡ map.insert (held_in holdings.old).records id (record {
      state = after.state;
      held = unless_deleted after.state.mode (record_of (held_in holdings.old).records id).held;
      reconciled = after.reconciled;
    })) }
    ensures by_two { OnOk result ((version : MappingVersion) → (held_in holdings.new).by_two ≡ by_two_after (unfetched_outcome after.state.mode) version id (held_in holdings.old).by_two) }
    ensures outcome { IfOk result (λ effect. effect.outcome ≡ unfetched_outcome after.state.mode) }
    ensures change { IfOk result (λ effect. TellsChange telling (held_triples (held_in holdings.old)) (held_triples (held_in holdings.new)) effect.change) }
    ensures routed { IfOk result (λ effect. effect.routed ≡ None) }
    ensures limit { (held_in holdings.new).limit ≡ (held_in holdings.old).limit }
    ensures err { OnErr result (held_in holdings.new ≡ held_in holdings.old) }
    ensures refused { OnErr result ((map.contains_key (held_in holdings.old).records id ≡ false) ⊎ TellsDropped telling (held_in holdings.old).limit.lean after.state.mode) }
{
    match after.state.mode {
        Mode::Deleted => {
            match holdings.release(id, after, telling) {
                Ok(change) => Ok(HeldChange {
                    outcome: Outcome::Dropped,
                    change,
                    routed: None,
                }),
                Err(refused) => Err(refused),
            }
        }
        Mode::Unknown | Mode::Kept => {
            match holdings.keep(id, after) {
                Ok(()) => Ok(HeldChange {
                    outcome: Outcome::Same,
                    change: StepChange::Told(Told::Nothing),
                    routed: None,
                }),
                Err(refused) => Err(refused),
            }
        }
    }
}

// What is given back of a page that was stored, where it is routed.
fn routed(page: FetchedPage) -> Option<RoutedPage>
    ensures { result ≡ routed_page page }
{
    match page {
        FetchedPage::Whole(
            Page {
                bytes,
                triples,
                graph,
                counts: _,
            },
        ) => {
            drop(bytes);
            let Some(graph) = graph else {
                drop(triples);
                return None;
            };
            Some(RoutedPage { graph, triples })
        }
        FetchedPage::Changed(page) => {
            drop(page);
            None
        }
        FetchedPage::Parted(page) => {
            drop(page);
            None
        }
        FetchedPage::Differing(page) => {
            drop(page);
            None
        }
    }
}
