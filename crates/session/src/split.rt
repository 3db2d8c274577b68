// A split: a replay into several graphs.

ghost use Rattle.std.specs.Prelude.{◌≡◌, ◌⊎◌, List, false, Some};
ghost use Rattle.replay_model.specs.ReplayState.{nothing_delivered, nothing_delivered_within};
ghost use Rattle.graph_routes.specs.{declared.routes.Route.Route, Routes.AreRoutesIn};
ghost use Rattle.run_model.specs.{declared.report.Report.TheVariants.Answers, Moment.HaveGoneOn, Resuming.RunEnding};
ghost use Rattle.run_model.specs.{Moment.limit_of, Moment.moment, Moment.run_of, Stop.stop_of};
ghost use Rattle.run_model.specs.Stop.{MayKeep};
ghost use Rattle.session.specs.Plans.{KeepsLimit};

use crate::replaying::run_replay;
use crate::resuming::prepared;
use crate::task::Task;
use arguments::SplitOptions;
use checkpoint::Snapshots;
use graph_routes::Routes;
use rdf_term::OutOfMemory;
use revisions::Revisions;
use run_model::{Ports, Report, Status};
use std::alloc::Global;
use std::hash::RandomState;
use world::World;
use wq_io::{Sink, Source};

// Reads the routes that are asked for, and replays into their graphs. Where their text isn't understood, nothing is read or written.
pub fn split<S: Source, R: Revisions, K: Sink, F: Snapshots>(
    alloc: Global,
    keys: RandomState,
    options: &SplitOptions<'_>,
    ports: &mut Ports<S, R, K, F>,
    world: World,
) -> (Status, World)
    requires world { world.replay ≡ nothing_delivered }
    requires lean { world.limit.lean ≡ false }
    requires asked { options.now.replay.lean ≡ false }
    ensures bad_words { result.0 ≡ Status.BadWords → ((routes : List Route) → AreRoutesIn options.now.route routes → ⊥) × (ports.new ≡ ports.old) × (result.1 ≡ world) }
    ensures ending { (routes : List Route) → AreRoutesIn options.now.route routes → RunEnding (stop_of result.0) (run_of (Some routes) Answers (R.contents ports.old.revisions) options.now.replay)
        (moment S.Source R.Revisions K.Sink F.Snapshots ports.old world)
        (moment S.Source R.Revisions K.Sink F.Snapshots ports.new result.1) }
    ensures none { ((routes : List Route) → AreRoutesIn options.now.route routes → ⊥) → (result.0 ≡ Status.BadWords) ⊎ (result.0 ≡ Status.OutOfMemory) }
    ensures unread { ((routes : List Route) → AreRoutesIn options.now.route routes → ⊥) → ports.new ≡ ports.old }
    ensures unplayed { ((routes : List Route) → AreRoutesIn options.now.route routes → ⊥) → result.1.replay ≡ nothing_delivered_within result.1.replay.buffer.horizon }
    ensures limit { (result.0 ≡ Status.BadWords) ⊎ KeepsLimit result.0 (limit_of options.now.replay) result.1 }
    ensures unsaved { MayKeep options.now.replay (stop_of result.0) ⊎ (ports.new.snapshot ≡ ports.old.snapshot) }
    ensures further { HaveGoneOn S.Source R.Revisions K.Sink F.Snapshots ports.old ports.new }
{
    let asked = options.replay();
    let task = Task {
        alloc,
        options: asked,
        report: Report::Answers,
    };
    match Routes::read(alloc, options.route()) {
        Ok(None) => (Status::BadWords, world),
        Ok(Some(routes)) => run_replay(keys, &task, Some(routes), ports, world),
        Err(OutOfMemory) => (Status::OutOfMemory, prepared(asked, world)),
    }
}
