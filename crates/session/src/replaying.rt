// A replay: the lines of the input, the end, what is printed then, and the snapshot of the world.

ghost use Rattle.std.specs.Prelude.{◌≡◌, ◌≢◌, ◌⊎◌, false, None, IfSome, IsSome};
ghost use Rattle.replay_model.specs.{ReplayState.nothing_delivered, Versions.meaning_by};
ghost use Rattle.text_output.specs.Printing.{Prints, output};
ghost use Rattle.run_model.specs.{declared.report.Report.TheVariants.Answers, Course.closing_held, Moment.HasWrittenOn, Moment.HaveGoneOn, Headline.ReplayEnding, Resuming.RunEnding};
ghost use Rattle.run_model.specs.{Moment.limit_of, Moment.moment, Moment.run_of, Moment.world_at_start, Moved.GoesOn, Moved.run_in, Remapping.HoldsWithin, Remapping.mapped_in};
ghost use Rattle.run_model.specs.{Delivering.PrintsClosing, Moment.sections_of, Stop.stop_in, Stop.stop_of, Taking.IsStanding};
ghost use Rattle.run_model.specs.Stop.{MayKeep};
ghost use Rattle.transcript.specs.Sections.{chosen};
ghost use Rattle.arguments.specs.Options.{closes};
ghost use Rattle.session.specs.Plans.{KeepsLimit};
ghost use Rattle.fetched_pages.specs.Meaning.{meaning};

use crate::context::Context;
use crate::delivering::take_end;
use crate::replay::Replay;
use crate::resuming::{prepare, start};
use crate::taking::{save_taken, take_lines};
use crate::task::Task;
use arguments::ReplayOptions;
use checkpoint::Snapshots;
use graph_routes::Routes;
use rdf_term::OutOfMemory;
use revisions::Revisions;
use run_model::{Ports, Report, Status, Stop};
use std::hash::RandomState;
use text_output::Unwritten;
use transcript::{Sections, print_closing};
use world::World;
use wq_io::{Sink, Source};

// Replays, with a graph for each of the routes and one for the rest, if there are routes: from the snapshot on that the options name, if
// they name one, and from the beginning otherwise. Gives the world back. A run that is lean reports changes, and has no routes.
pub fn run_replay<S: Source, R: Revisions, K: Sink, F: Snapshots>(
    keys: RandomState,
    task: &Task<'_>,
    routes: Option<Routes>,
    ports: &mut Ports<S, R, K, F>,
    world: World,
) -> (Status, World)
    requires world { world.replay ≡ nothing_delivered }
    requires lean { world.limit.lean ≡ false }
    requires answers { task.now.report ≡ Answers → task.now.options.now.lean ≡ false }
    requires routes { IsSome routes → task.now.options.now.lean ≡ false }
    ensures ending { RunEnding (stop_of result.0) (run_of routes task.now.report (R.contents ports.old.revisions) task.now.options.now)
        (moment S.Source R.Revisions K.Sink F.Snapshots ports.old world)
        (moment S.Source R.Revisions K.Sink F.Snapshots ports.new result.1) }
    ensures understood { result.0 ≢ Status.BadWords }
    ensures limit { KeepsLimit result.0 (limit_of task.now.options.now) result.1 }
    ensures unsaved { MayKeep task.now.options.now (stop_of result.0) ⊎ (ports.new.snapshot ≡ ports.old.snapshot) }
    ensures further { HaveGoneOn S.Source R.Revisions K.Sink F.Snapshots ports.old ports.new }
{
    let mut world = world;
    match prepare(task.options, &mut world) {
        Ok(()) => run_prepared(keys, task, routes, ports, world),
        Err(OutOfMemory) => {
            drop(routes);
            (Status::OutOfMemory, world)
        }
    }
}

// Replays so over a world that was prepared.
fn run_prepared<S: Source, R: Revisions, K: Sink, F: Snapshots>(
    keys: RandomState,
    task: &Task<'_>,
    routes: Option<Routes>,
    ports: &mut Ports<S, R, K, F>,
    world: World,
) -> (Status, World)
    requires begun { task.now.options.now.resume ≡ None → world ≡ world_at_start task.now.options.now }
    requires limit { world.limit ≡ limit_of task.now.options.now }
    requires held { HoldsWithin world.limit world }
    requires answers { task.now.report ≡ Answers → task.now.options.now.lean ≡ false }
    requires routes { IsSome routes → task.now.options.now.lean ≡ false }
    ensures ending { RunEnding (stop_of result.0) (run_of routes task.now.report (R.contents ports.old.revisions) task.now.options.now)
        (moment S.Source R.Revisions K.Sink F.Snapshots ports.old world)
        (moment S.Source R.Revisions K.Sink F.Snapshots ports.new result.1) }
    ensures understood { result.0 ≢ Status.BadWords }
    ensures limit { (result.1.limit ≡ limit_of task.now.options.now) × HoldsWithin result.1.limit result.1 }
    ensures unsaved { MayKeep task.now.options.now (stop_of result.0) ⊎ (ports.new.snapshot ≡ ports.old.snapshot) }
    ensures further { HaveGoneOn S.Source R.Revisions K.Sink F.Snapshots ports.old ports.new }
{
    match start(keys, task, routes, &mut ports.resumed, world) {
        Ok(mut replay) => {
            let played = play(task, ports, &mut replay);
            let status = status_of(played);
            (status, replay.into_world())
        }
        Err((stop, world)) => (stop.status(), world),
    }
}

// How a run ended whose replay ended so.
fn status_of(played: Result<(), Stop>) -> Status
    ensures stops { stop_of result ≡ stop_in played }
    ensures understood { result ≢ Status.BadWords }
{
    match played {
        Ok(()) => Status::Ok,
        Err(stop) => stop.status(),
    }
}

// Takes the lines, and the end where it is that of the deliveries; prints; and saves the world where it is to be saved: then the end of the
// input isn't that of the deliveries.
fn play<S: Source, R: Revisions, K: Sink, F: Snapshots>(
    task: &Task<'_>,
    ports: &mut Ports<S, R, K, F>,
    replay: &mut Replay,
) -> Result<(), Stop>
    requires stands { IsStanding replay.old.world.replay (mapped_in replay.old.world) }
    requires limit { replay.old.world.limit ≡ limit_of task.now.options.now }
    requires lean { task.now.report ≡ Answers → task.now.options.now.lean ≡ false }
    ensures ending { ReplayEnding (stop_in result) (run_in replay.old task.now.report (R.contents ports.old.revisions) task.now.options.now)
        (moment S.Source R.Revisions K.Sink F.Snapshots ports.old replay.old.world)
        (moment S.Source R.Revisions K.Sink F.Snapshots ports.new replay.new.world) }
    ensures limit { replay.new.world.limit ≡ replay.old.world.limit }
    ensures unsaved { MayKeep task.now.options.now (stop_in result) ⊎ (ports.new.snapshot ≡ ports.old.snapshot) }
    ensures further { HaveGoneOn S.Source R.Revisions K.Sink F.Snapshots ports.old ports.new }
{
    let taken = take_lines(task, ports, replay)?;
    if task.options.closes() {
        let context = Context {
            alloc: task.alloc,
            folder: task.options.folder(),
            report: task.report,
            reported: taken.reported,
            matched: taken.matched,
        };
        take_end(&context, &mut ports.revisions, &mut ports.out, replay)?;
        return Ok(close(task, replay, &mut ports.out)?);
    }
    close(task, replay, &mut ports.out)?;
    Ok(save_taken(task, &taken, replay, &mut ports.snapshot)?)
}

// Prints the sections that are asked for, or the triples of each graph, where there are graphs; nothing where changes are reported.
fn close<K: Sink>(task: &Task<'_>, replay: &Replay, out: &mut K) -> Result<(), Unwritten>
    requires { task.now.report ≡ Answers → replay.now.world.limit.lean ≡ false }
    ensures prints { PrintsClosing task.now.report
        (closing_held replay.now.routes (meaning_by meaning replay.now.world.by_two) (sections_of task.now.options.now) replay.now.world.replay.played)
        (output K.Sink out.old) (output K.Sink out.new) result }
    ensures written { HasWrittenOn K.Sink out.old out.new }
{
    match task.report {
        Report::Answers => print_end(task, replay, out),
        Report::Changes => Ok(()),
    }
}

// Prints the sections, or the triples of each graph.
fn print_end<K: Sink>(task: &Task<'_>, replay: &Replay, out: &mut K) -> Result<(), Unwritten>
    requires { replay.now.world.limit.lean ≡ false }
    ensures { Prints (closing_held replay.now.routes (meaning_by meaning replay.now.world.by_two) (sections_of task.now.options.now) replay.now.world.replay.played)
        (output K.Sink out.old) (output K.Sink out.new) result }
{
    match &replay.graphs {
        Some(graphs) => graphs.print(task.alloc, out),
        None => print_closing(task.alloc, sections(task.options), &replay.world, out),
    }
}

// Which sections are asked for.
fn sections(options: &ReplayOptions<'_>) -> Sections
    ensures { chosen result ≡ sections_of options.now }
{
    Sections {
        export: options.export(),
        state: options.state(),
        side: options.side(),
    }
}
