// What a plan does, and what is left of it where it isn't read for want of memory.

ghost use Rattle.std.specs.Prelude.{◌≡◌, false, Some, IsSome, map, string_bytes};
ghost use Rattle.replay_model.specs.ReplayState.{nothing_delivered};
ghost use Rattle.arguments.specs.{Plan.IsSized, Plan.plan_of, declared.plan.Plan.Plan as ThePlan};
ghost use Rattle.session.specs.Plans.{IsUnbegun, PlanEnding};

use crate::drilling::drill;
use crate::records::follow_records;
use crate::remapping::begin_by_first;
use crate::replaying::run_replay;
use crate::resuming::prepared;
use crate::split::split;
use crate::task::Task;
use arguments::{Plan, read_plan};
use checkpoint::Snapshots;
use rdf_term::DEFAULT_MAX_TERMS;
use revisions::Revisions;
use run_model::{Ports, Report, Status};
use std::alloc::Global;
use std::hash::RandomState;
use world::World;
use wq_io::{Sink, Source};

// Runs the command of a plan.
pub fn run_plan<S: Source, R: Revisions, K: Sink, F: Snapshots>(
    alloc: Global,
    keys: RandomState,
    plan: &Plan<'_>,
    ports: &mut Ports<S, R, K, F>,
    world: World,
) -> (Status, World)
    requires world { world.replay ≡ nothing_delivered }
    requires lean { world.limit.lean ≡ false }
    requires sized { IsSized plan.now }
    ensures { PlanEnding S.Source R.Revisions K.Sink F.Snapshots plan.now result.0 ports.old ports.new world result.1 }
{
    match plan {
        Plan::Replay(options) => {
            let task = Task {
                alloc,
                options,
                report: Report::Answers,
            };
            run_replay(keys, &task, None, ports, world)
        }
        Plan::Patches(options) => {
            let task = Task {
                alloc,
                options,
                report: Report::Changes,
            };
            run_replay(keys, &task, None, ports, world)
        }
        Plan::Drill(size) => drill(alloc, *size, &mut ports.out, world),
        Plan::Follow(options) => follow_records(alloc, keys, options, ports, world),
        Plan::Split(options) => split(alloc, keys, options, ports, world),
    }
}

// The world of a plan that doesn't begin.
pub fn unbegun(words: &[String], world: World) -> World
    requires world { world.replay ≡ nothing_delivered }
    requires lean { world.limit.lean ≡ false }
    requires plan { IsSome (plan_of (map (λ w. string_bytes w) words.now)) }
    ensures { (plan : ThePlan) → plan_of (map (λ w. string_bytes w) words.now) ≡ Some plan → IsUnbegun plan world result }
{
    match read_plan(words) {
        Some(Plan::Replay(options)) => prepared(&options, world),
        Some(Plan::Patches(options)) => prepared(&options, world),
        Some(Plan::Split(options)) => prepared(options.replay(), world),
        Some(Plan::Drill(_)) => {
            let mut world = world;
            begin_by_first(&mut world);
            world.set_limit(DEFAULT_MAX_TERMS);
            world
        }
        Some(Plan::Follow(_)) => {
            let mut world = world;
            world.set_limit(DEFAULT_MAX_TERMS);
            world
        }
        None => unreachable!(),
    }
}
