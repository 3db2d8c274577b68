// How a replay starts: at its beginning, or from a snapshot on.

ghost use Rattle.std.specs.Prelude.{◌≡◌, ◌⊎◌, ◌↔◌, false, true, None, Some, IfErr, IfOk, IfSome, IsSome, IsTrue, MatchResult, OnErr, OnOk};
ghost use Rattle.std.specs.FinMap as map;
ghost use Rattle.drill_replay.specs.Playing.{IsByFirst};
ghost use Rattle.replay_model.specs.{Play.nothing_played, ReplayState.nothing_delivered, ReplayState.nothing_delivered_within};
ghost use Rattle.splitting.specs.{Filling.IsReadyFor, Graphs.GraphsState, Graphs.MayFollow, Graphs.routes_of};
ghost use Rattle.arguments.specs.Options.{max_terms_of};
ghost use Rattle.wq_io.specs.Streams.{IsAtEnd};
ghost use Rattle.world.specs.Limit.{whole};
ghost use Rattle.run_model.specs.{Moment.HasReadOn, Moment.limit_of, Moment.world_at_start, Moment.no_numbers, Moved.moved};
ghost use Rattle.run_model.specs.{Remapping.HoldsWithin, Remapping.mapped_in, Resuming.AllowsHorizon, Resuming.IsRefusedFor};
ghost use Rattle.run_model.specs.{Delivering.IsLoaded, Delivering.IsUnloaded, Taking.IsStanding};

use crate::remapping::begin_by_first;
use crate::replay::{NOTHING_REPORTED, Replay};
use crate::task::Task;
use arguments::ReplayOptions;
use checkpoint::LoadFault;
use graph_routes::Routes;
use rdf_term::OutOfMemory;
use run_model::Stop;
use splitting::Graphs;
use std::hash::RandomState;
use world::{World, discard};
use world_snapshots::{Loaded, load};
use wq_io::Source;

// Prepares the world as `prepare` does, as far as there is memory for it.
pub fn prepared(options: &ReplayOptions<'_>, world: World) -> World
    requires world { world.replay ≡ nothing_delivered }
    requires lean { world.limit.lean ≡ false }
    ensures begun { options.now.resume ≡ None → result ≡ record (world_at_start options.now) { limit = result.limit } }
    ensures resumed { IsSome options.now.resume → result ≡ record world { limit = result.limit } }
    ensures unplayed { result.replay ≡ nothing_delivered_within result.replay.buffer.horizon }
    ensures terms { result.limit.terms ≡ max_terms_of options.now }
    ensures whole { options.now.lean ≡ false → result.limit ≡ limit_of options.now }
    ensures held { HoldsWithin result.limit result }
{
    let mut world = world;
    let _ = prepare(options, &mut world);
    world
}

// Prepares the world. A first run begins with the first version of the mapping, the horizon that is asked for, if one is, and the limit. The
// world that a run with `--resume` was given gets the limit alone, since another takes its place. After `OutOfMemory` the world has as many
// terms as it is to have, and isn't lean.
pub fn prepare(options: &ReplayOptions<'_>, world: &mut World) -> Result<(), OutOfMemory>
    requires world { world.old.replay ≡ nothing_delivered }
    requires lean { world.old.limit.lean ≡ false }
    ensures begun { options.now.resume ≡ None → world.new ≡ record (world_at_start options.now) { limit = world.new.limit } }
    ensures resumed { IsSome options.now.resume → world.new ≡ record world.old { limit = world.new.limit } }
    ensures unplayed { world.new.replay ≡ nothing_delivered_within world.new.replay.buffer.horizon }
    ensures limit { OnOk result (world.new.limit ≡ limit_of options.now) }
    ensures terms { world.new.limit.terms ≡ max_terms_of options.now }
    ensures whole { options.now.lean ≡ false → world.new.limit ≡ limit_of options.now }
    ensures held { HoldsWithin world.new.limit world.new }
{
    match options.resume() {
        None => begin(options, world),
        Some(_) => set_limit(options, world),
    }
}

// Begins a first run.
fn begin(options: &ReplayOptions<'_>, world: &mut World) -> Result<(), OutOfMemory>
    requires world { world.old.replay ≡ nothing_delivered }
    requires lean { world.old.limit.lean ≡ false }
    ensures world { world.new ≡ record (world_at_start options.now) { limit = world.new.limit } }
    ensures limit { OnOk result (world.new.limit ≡ limit_of options.now) }
    ensures terms { world.new.limit.terms ≡ max_terms_of options.now }
    ensures whole { options.now.lean ≡ false → world.new.limit ≡ limit_of options.now }
{
    begin_by_first(world);
    set_horizon(options, world);
    set_limit(options, world)
}

// Sets the limit that is asked for, and makes the world lean, if that is asked for.
fn set_limit(options: &ReplayOptions<'_>, world: &mut World) -> Result<(), OutOfMemory>
    requires nothing { world.old.replay.played ≡ nothing_played }
    requires lean { world.old.limit.lean ≡ false }
    ensures rest { world.new ≡ record world.old { limit = world.new.limit } }
    ensures limit { OnOk result (world.new.limit ≡ limit_of options.now) }
    ensures terms { world.new.limit.terms ≡ max_terms_of options.now }
    ensures whole { options.now.lean ≡ false → world.new.limit ≡ limit_of options.now }
{
    let terms = options.max_terms();
    world.set_limit(terms);
    if options.lean() {
        return make_lean(terms, world);
    }
    Ok(())
}

// Makes a world lean that holds nothing.
fn make_lean(terms: u32, world: &mut World) -> Result<(), OutOfMemory>
    requires { world.old.replay.played ≡ nothing_played }
    ensures ok { OnOk result (world.new ≡ record world.old { limit = record { terms = terms; lean = true } }) }
    ensures err { OnErr result (world.new ≡ world.old) }
{
    let version = world.mapping();
    world.set_mapping(version); // it says that no page is mapped by version Two, since none is held
    world.make_lean(terms)
}

// Sets the horizon that is asked for, if one is.
fn set_horizon(options: &ReplayOptions<'_>, world: &mut World)
    requires world { world.old.replay ≡ nothing_delivered }
    requires first { IsByFirst world.old }
    ensures replay { world.new.replay ≡ (world_at_start options.now).replay }
    ensures first { IsByFirst world.new }
    ensures limit { world.new.limit ≡ world.old.limit }
{
    if let Some(micros) = options.horizon() {
        world.set_horizon(micros);
    }
}

// Starts a replay over a world that was prepared: from the snapshot on that the options name, if they name one, and from the beginning
// otherwise. If it isn't started, the world is given back with the cause.
pub fn start<S: Source>(
    keys: RandomState,
    task: &Task<'_>,
    routes: Option<Routes>,
    resumed: &mut S,
    world: World,
) -> Result<Replay, (Stop, World)>
    requires begun { task.now.options.now.resume ≡ None → world ≡ world_at_start task.now.options.now }
    requires lean { IsSome routes → task.now.options.now.lean ≡ false }
    ensures begun { task.now.options.now.resume ≡ None → (resumed.new ≡ resumed.old)
        × MatchResult result (λ replay. replay ≡ moved (world_at_start task.now.options.now) routes no_numbers) (λ refused. refused.0 ≡ Stop.OutOfMemory) }
    ensures loaded { IsSome task.now.options.now.resume → MatchResult result
        (λ replay. IsLoaded task.now.options.now (S.left resumed.old) (S.left resumed.new) routes replay)
        (λ refused. IsUnloaded refused.0 task.now.options.now (S.left resumed.old) (S.faults resumed.old) (S.faults resumed.new)) }
    ensures stands { IfOk result (λ replay. IsStanding replay.world.replay (mapped_in replay.world)) }
    ensures limit { IfOk result (λ replay. replay.world.limit ≡ limit_of task.now.options.now) }
    ensures back { IfErr result (λ refused. refused.1 ≡ world) }
    ensures further { HasReadOn S.Source resumed.old resumed.new }
{
    match task.options.resume() {
        None => begin_anew(keys, task, routes, world),
        Some(_) => match load_start(keys, task, routes, resumed) {
            Ok(replay) => {
                discard(world);
                Ok(replay)
            }
            Err(fault) => Err((Stop::from(fault), world)),
        },
    }
}

// Starts at the beginning.
fn begin_anew(
    keys: RandomState,
    task: &Task<'_>,
    routes: Option<Routes>,
    world: World,
) -> Result<Replay, (Stop, World)>
    requires world { world ≡ world_at_start task.now.options.now }
    requires lean { IsSome routes → task.now.options.now.lean ≡ false }
    ensures begun { MatchResult result (λ replay. replay ≡ moved world routes no_numbers) (λ refused. refused.0 ≡ Stop.OutOfMemory) }
    ensures back { IfErr result (λ refused. refused.1 ≡ world) }
{
    match new_graphs(keys, task, routes) {
        Ok(graphs) => Ok(Replay {
            world,
            graphs,
            earlier: NOTHING_REPORTED,
        }),
        Err(OutOfMemory) => Err((Stop::OutOfMemory, world)),
    }
}

// Graphs without entities, where there are routes.
fn new_graphs(
    keys: RandomState,
    task: &Task<'_>,
    routes: Option<Routes>,
) -> Result<Option<Graphs>, OutOfMemory>
    requires { IsSome routes → task.now.options.now.lean ≡ false }
    ensures routes { IfOk result (λ graphs. routes_of graphs ≡ routes) }
    ensures fresh { IfOk result (λ graphs. IfSome graphs (λ (g : GraphsState). (g.entries ≡ Some map.empty) × (limit_of task.now.options.now ≡ whole g.limit))) }
{
    let Some(routes) = routes else {
        return Ok(None);
    };
    let graphs = Graphs::new(task.alloc, keys, routes, task.options.max_terms())?;
    Ok(Some(graphs))
}

// Loads the snapshot, and where there are routes, makes graphs of what it holds. If the options name a horizon, it has to be the snapshot's:
// otherwise its head, the first line, is refused.
fn load_start<S: Source>(
    keys: RandomState,
    task: &Task<'_>,
    routes: Option<Routes>,
    resumed: &mut S,
) -> Result<Replay, LoadFault>
    requires { IsSome routes → task.now.options.now.lean ≡ false }
    ensures ok { IfOk result (IsLoaded task.now.options.now (S.left resumed.old) (S.left resumed.new) routes) }
    ensures err { IfErr result (λ fault. IsRefusedFor fault task.now.options.now (S.left resumed.old) (S.faults resumed.old) (S.faults resumed.new)) }
    ensures further { HasReadOn S.Source resumed.old resumed.new }
{
    match load(
        task.alloc,
        keys,
        task.options.max_terms(),
        task.options.lean(),
        resumed,
    ) {
        Ok(loaded) => match graphs_of(keys, task, routes, &loaded.world) {
            Ok(graphs) => {
                let Loaded { world, counts } = loaded;
                Ok(Replay {
                    world,
                    graphs,
                    earlier: counts,
                })
            }
            Err(fault) => {
                discard(loaded.world);
                Err(fault)
            }
        },
        Err(fault) => {
            drop(routes);
            Err(fault)
        }
    }
}

// The graphs of what a world holds, where there are routes, unless the options name another horizon than the world's.
fn graphs_of(
    keys: RandomState,
    task: &Task<'_>,
    routes: Option<Routes>,
    world: &World,
) -> Result<Option<Graphs>, LoadFault>
    requires ready { IsReadyFor world.now }
    requires limit { world.now.limit ≡ limit_of task.now.options.now }
    requires lean { IsSome routes → task.now.options.now.lean ≡ false }
    ensures allowed { OnOk result (AllowsHorizon task.now.options.now world.now.replay.buffer.horizon) }
    ensures routes { IfOk result (λ graphs. routes_of graphs ≡ routes) }
    ensures follow { IfOk result (λ graphs. MayFollow graphs world.now) }
    ensures err { IfErr result (λ fault. (fault ≡ LoadFault.OutOfMemory) ⊎ ((fault ≡ LoadFault.BadLine 1) × (AllowsHorizon task.now.options.now world.now.replay.buffer.horizon → ⊥))) }
{
    if !allows(task.options.horizon(), world.horizon()) {
        drop(routes);
        return Err(LoadFault::BadLine(1));
    }
    let Some(routes) = routes else {
        return Ok(None);
    };
    let graphs = Graphs::of_world(task.alloc, keys, routes, task.options.max_terms(), world)?;
    Ok(Some(graphs))
}

// Whether a horizon that is asked for, if one is, is this one.
fn allows(asked: Option<u64>, there: Option<u64>) -> bool
    ensures { IsTrue result ↔ IfSome asked (λ micros. there ≡ Some micros) }
{
    match asked {
        None => true,
        Some(_) => there == asked,
    }
}
