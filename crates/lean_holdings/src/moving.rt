// The parts of a page come in the place of others.

ghost use Rattle.std.specs.Prelude.{◌≡◌, ◌<◌, Err, IfOk, OnErr};
ghost use Rattle.std.specs.List.{AllByRecursion};
ghost use Rattle.rdf_term.specs.{declared.triple.Triple.Triple, Fit.HasFitAndShortTerms};
ghost use Rattle.term_pool.specs.declared.fault.PoolFault.TheVariants.{Full};
ghost use Rattle.triple_catalog.specs.{Counts.count_of, Room.room_for};
ghost use Rattle.triple_store.specs.{StoreState.IsSound, StoreState.counts_in, StoreState.limit_of, Updates.AreStored, Updates.KeepsRest};
ghost use Rattle.lean_holdings.specs.Coming.{HasBrought, HasNoRoom, MayBring};
ghost use Rattle.lean_holdings.specs.Moving.{HasMoved, MayMove};

use crate::names::move_names;
use entity_counts::EntityCounts;
use page_parts::{NamedParts, PageDifference};
use parts_exchange::{HadParts, PartsExchange, exchange_difference, exchange_parts};
use std::alloc::Global;
use triple_store::{KeySlices, Store, StoreFault};

/// The parts of a page that come, and those of the one that was held.
#[derive(Clone, Copy)]
pub struct Moving<'a> {
    pub gone: &'a NamedParts,
    pub come: &'a NamedParts,
}

/// What comes of a page: its parts, in the place of those of the one that was held, or what the two have of their own.
#[derive(Clone, Copy)]
pub enum Coming<'a> {
    Whole(Moving<'a>),
    Differing(&'a PageDifference),
}

/// Puts a page in the place of the one that was held, whose stored triples have these keys, as `move_parts` does. By what the two have of
/// their own it names the entities that are named already.
pub fn bring<'x>(
    alloc: Global,
    store: &mut Store,
    names: &mut EntityCounts,
    keys: KeySlices<'x>,
    coming: Coming<'x>,
) -> Result<PartsExchange, StoreFault>
    requires sound { IsSound store.old }
    requires stored { AreStored store.old keys.rising.now }
    requires countable { (t : Triple) → count_of (counts_in store.old) t < 18446744073709551615 }
    requires may_bring { MayBring names.old coming }
    ensures brought { IfOk result (HasBrought store.old store.new names.old names.new keys.entry.rising.now coming.entry) }
    ensures err { OnErr result (counts_in store.new ≡ counts_in store.old) }
    ensures err_names { OnErr result (names.new ≡ names.old) }
    ensures full { result ≡ Err Full → HasNoRoom store.old keys.entry.rising.now coming.entry }
    ensures rest { KeepsRest store.old store.new }
{
    match coming {
        Coming::Whole(moving) => move_parts(alloc, store, names, keys, moving),
        Coming::Differing(difference) => exchange_difference(alloc, store, keys, difference),
    }
}

/// Puts the parts of a page in the place of those of the one that was held, whose stored triples have these keys, and tells the change.
/// One page names other entities then. After a fault every triple has the count that it had, and as many pages name each entity. The
/// fault is `Full` if the triples that are to be stored have, with the stored ones, more distinct terms than the limit.
pub fn move_parts<'x>(
    alloc: Global,
    store: &mut Store,
    names: &mut EntityCounts,
    keys: KeySlices<'x>,
    moving: Moving<'x>,
) -> Result<PartsExchange, StoreFault>
    requires sound { IsSound store.old }
    requires stored { AreStored store.old keys.rising.now }
    requires countable { (t : Triple) → count_of (counts_in store.old) t < 18446744073709551615 }
    requires fit { AllByRecursion HasFitAndShortTerms moving.come.now.parts.shared }
    requires may_move { MayMove names.old moving.gone.now.names.items moving.come.now.names.items }
    ensures moved { IfOk result (HasMoved store.old store.new names.old names.new keys.entry.rising.now moving.entry.gone.now
        moving.entry.come.now) }
    ensures err { OnErr result (counts_in store.new ≡ counts_in store.old) }
    ensures err_names { OnErr result (names.new ≡ names.old) }
    ensures full { result ≡ Err Full → limit_of store.old < room_for (counts_in store.old) moving.entry.come.now.parts.shared }
    ensures rest { KeepsRest store.old store.new }
{
    let had = HadParts {
        keys,
        own: moving.gone.parts.own(),
    };
    match exchange_parts(alloc, store, had, &moving.come.parts) {
        Ok(done) => {
            move_names(
                names,
                moving.gone.names.as_slice(),
                moving.come.names.as_slice(),
            );
            Ok(done)
        }
        Err(fault) => Err(fault),
    }
}
