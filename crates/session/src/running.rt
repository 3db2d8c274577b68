// The top call.

ghost use Rattle.std.specs.Prelude.{◌≡◌, ◌⊎◌, ℕ, false, None, Some, IsSome, map, string_bytes};
ghost use Rattle.replay_model.specs.ReplayState.{nothing_delivered, nothing_delivered_within};
ghost use Rattle.drill_replay.specs.Playing.{IsByFirst};
ghost use Rattle.run_model.specs.{Moment.HaveGoneOn, Resuming.RunEnding, Moment.Run, Moment.moment, Moment.stage};
ghost use Rattle.run_model.specs.Stop.{stop_of};
ghost use Rattle.run_model.specs.Plans.{IsRunOf};
ghost use Rattle.session.specs.Plans.{DrillEnding, FollowEnding, IsNotUnderstood, KeepsLimit, MaySave, PlanEnding, limit_of_plan};
ghost use Rattle.following.specs.Following.{follow_moment};
ghost use Rattle.arguments.specs.{Options.FollowChoices, Plan.plan_of, declared.plan.Plan.Plan as ThePlan};
ghost use Rattle.arguments.specs.declared.plan.Plan.TheVariants.{Drill, Follow};
ghost use Rattle.rdf_term.specs.Limits.{default_max_terms};
ghost use Rattle.world.specs.Limit.{whole};

use crate::commands::{run_plan, unbegun};
use arguments::{ItemWords, read_plan};
use checkpoint::Snapshots;
use rdf_term::OutOfMemory;
use revisions::Revisions;
use run_model::{Ports, Status};
use std::alloc::Global;
use std::hash::RandomState;
use world::World;
use wq_io::{Sink, Source};

/// Runs the command that the arguments name. A replay reads event lines, applies due events, answers each question at once, remaps all held
/// pages when a line changes the mapping, and at the end prints the sections that the options ask for. A drill makes deliveries and pages
/// from its size, replays them, and prints its summary.
///
/// `patches` replays the same lines and, in place of answers and sections, writes a record for each applied event and each remapped page
/// that changes the stored triples. It skips questions.
///
/// With `--resume` the replay continues from the world of the snapshot, and numbers answers and records on from its counts.
///
/// With `--save` the end of the input isn't the end of the deliveries: waiting events stay queued, the sections show the world as it is
/// then, and its snapshot is kept last. With `--every` the replay also keeps a snapshot after every N-th watermark, once all events that it
/// makes due are applied and reported, and before it reads the next line. From the first change of the stored triples on, `replay` and
/// `split` pass over one number of records in their snapshots, since no record tells of their changes.
///
/// `split` replays the same lines into several graphs: it answers each ask for each graph, and at the end prints the triples of each. It
/// skips matches.
///
/// `follow` reads records of changes, and prints how many it applied and, if asked, the triples then.
///
/// What was printed is handed on to the outside before the next line is read, and when the run ends with Ok or stops because of its input
/// (`handed` of `IsPlayed`, and of `Ending` of following).
///
/// `words` are the arguments, and `keys` key the hashes of terms. `world` has taken no delivery yet, has no horizon and isn't lean; the call
/// gives it back as the run leaves it. A replay or a drill begins with the first version of the mapping, whichever is in force in `world`, or with
/// the world of a snapshot. A follower leaves the version as it is.
pub fn run<S: Source, R: Revisions, K: Sink, F: Snapshots>(
    alloc: Global,
    keys: RandomState,
    words: &[String],
    ports: &mut Ports<S, R, K, F>,
    world: World,
) -> (Status, World)
    requires world { world.replay ≡ nothing_delivered }
    requires lean { world.limit.lean ≡ false }

    // If the arguments aren't understood, or the text of the routes isn't, the run reads, writes and delivers nothing. The routes are read
    // after memory is asked for, so the status may be OutOfMemory instead.
    ensures refused { result.0 ≡ Status.BadWords →
        IsNotUnderstood (map (λ w. string_bytes w) words.now) × (ports.new ≡ ports.old) × (result.1 ≡ world) }
    ensures words { plan_of (map (λ w. string_bytes w) words.now) ≡ None → result.0 ≡ Status.BadWords }
    ensures bad_words { IsNotUnderstood (map (λ w. string_bytes w) words.now) →
        ((result.0 ≡ Status.BadWords) ⊎ (result.0 ≡ Status.OutOfMemory)) × (ports.new ≡ ports.old) × (result.1.replay ≡ nothing_delivered_within result.1.replay.buffer.horizon) }

    // A replay, a patch stream and a split are runs that differ in their report and in their routes. Each ends with Ok or stops for a cause.
    // Without `--resume` it begins with the horizon and the limit of its options, and with version One of the mapping. With `--resume` the
    // snapshot is refused for a cause, before anything else is read or anything is written; or the bytes are the snapshot of a world, and the
    // run goes on from this world and its counts. A split goes on from any snapshot: the pages that its world holds are in the graphs that
    // they are routed to now.
    ensures replay { (plan : ThePlan) → plan_of (map (λ w. string_bytes w) words.now) ≡ Some plan → (run : Run) → IsRunOf plan (R.contents ports.old.revisions) run →
        RunEnding (stop_of result.0) run
        (moment S.Source R.Revisions K.Sink F.Snapshots ports.old world)
        (moment S.Source R.Revisions K.Sink F.Snapshots ports.new result.1) }

    // A drill ends with Ok, or stops while it prints, or with OutOfMemory. All that it leaves is mapped by the first version, and it reads
    // nothing.
    ensures drill { (size : ℕ) → plan_of (map (λ w. string_bytes w) words.now) ≡ Some (Drill size) →
        DrillEnding result.0 size
        (stage R.Revisions K.Sink ports.old.revisions ports.old.out world)
        (stage R.Revisions K.Sink ports.new.revisions ports.new.out result.1)
        × IsByFirst result.1 × (ports.new ≡ record ports.old { out = ports.new.out }) }

    // A follower ends with Ok or stops for a cause, and what it took of its input is bounded. It fetches nothing, and the world stays
    // empty.
    ensures follow { (choices : FollowChoices) → plan_of (map (λ w. string_bytes w) words.now) ≡ Some (Follow choices) →
        FollowEnding result.0 choices
        (follow_moment S.Source K.Sink ports.old.events ports.old.out)
        (follow_moment S.Source K.Sink ports.new.events ports.new.out)
        × (ports.new ≡ record ports.old { events = ports.new.events; out = ports.new.out }) × (result.1 ≡ record world { limit = whole default_max_terms }) }

    // Once the arguments are understood, the world ends with the plan's limit, however the run ends, and what it holds stays within it. A
    // run may be refused memory before its world is lean.
    ensures limit { (plan : ThePlan) → plan_of (map (λ w. string_bytes w) words.now) ≡ Some plan →
        (result.0 ≡ Status.BadWords) ⊎ KeepsLimit result.0 (limit_of_plan plan) result.1 }

    // No snapshot is kept or begun without `--save`, nor, without `--every`, by a run that stops for another cause than a failed write or
    // refused memory. What a replay keeps without `--every` comes last (`snapshot` of `ReplayEnding`).
    ensures unsaved { (plan : ThePlan) → plan_of (map (λ w. string_bytes w) words.now) ≡ Some plan →
        MaySave plan result.0 ⊎ (ports.new.snapshot ≡ ports.old.snapshot) }

    // The contents of the revisions stay the same, and failure counters never decrease.
    ensures further { HaveGoneOn S.Source R.Revisions K.Sink F.Snapshots ports.old ports.new }
{
    if read_plan(words).is_none() {
        return (Status::BadWords, world);
    }
    run_judged(alloc, keys, words, ports, world)
}

// Runs the command that arguments name which are a plan. Clap reads them, one word for each item; it can refuse them for want of memory
// alone.
fn run_judged<S: Source, R: Revisions, K: Sink, F: Snapshots>(
    alloc: Global,
    keys: RandomState,
    words: &[String],
    ports: &mut Ports<S, R, K, F>,
    world: World,
) -> (Status, World)
    requires world { world.replay ≡ nothing_delivered }
    requires lean { world.limit.lean ≡ false }
    requires plan { IsSome (plan_of (map (λ w. string_bytes w) words.now)) }
    ensures { (plan : ThePlan) → plan_of (map (λ w. string_bytes w) words.now) ≡ Some plan → PlanEnding S.Source R.Revisions K.Sink F.Snapshots plan result.0 ports.old ports.new world result.1 }
{
    let Ok(items) = ItemWords::of(alloc, words) else {
        return (Status::OutOfMemory, unbegun(words, world));
    };
    match items.plan(alloc) {
        Ok(plan) => run_plan(alloc, keys, &plan, ports, world),
        Err(OutOfMemory) => (Status::OutOfMemory, unbegun(words, world)),
    }
}
