// A follower: the records of the input, and what is printed at their end.

ghost use Rattle.std.specs.Prelude.{◌≡◌, ◌≢◌, false};
ghost use Rattle.replay_model.specs.ReplayState.{nothing_delivered};
ghost use Rattle.following.specs.Following.{follow_moment};
ghost use Rattle.run_model.specs.{Moment.HaveGoneOn, Remapping.HoldsWithin};
ghost use Rattle.session.specs.Plans.{FollowEnding};
ghost use Rattle.rdf_term.specs.Limits.{default_max_terms};
ghost use Rattle.world.specs.Limit.{whole};

use arguments::FollowOptions;
use checkpoint::Snapshots;
use following::follow;
use rdf_term::DEFAULT_MAX_TERMS;
use revisions::Revisions;
use run_model::{Ports, Status, Stop};
use std::alloc::Global;
use std::hash::RandomState;
use world::World;
use wq_io::{Sink, Source};

// Follows the records of the input. Nothing is fetched, and the world stays empty.
pub fn follow_records<S: Source, R: Revisions, K: Sink, F: Snapshots>(
    alloc: Global,
    keys: RandomState,
    options: &FollowOptions,
    ports: &mut Ports<S, R, K, F>,
    world: World,
) -> (Status, World)
    requires world { world.replay ≡ nothing_delivered }
    requires lean { world.limit.lean ≡ false }
    ensures ending { FollowEnding result.0 options.now
        (follow_moment S.Source K.Sink ports.old.events ports.old.out) (follow_moment S.Source K.Sink ports.new.events ports.new.out) }
    ensures understood { result.0 ≢ Status.BadWords }
    ensures others { ports.new ≡ record ports.old { events = ports.new.events; out = ports.new.out } }
    ensures empty { result.1 ≡ record world { limit = whole default_max_terms } }
    ensures held { HoldsWithin result.1.limit result.1 }
    ensures further { HaveGoneOn S.Source R.Revisions K.Sink F.Snapshots ports.old ports.new }
{
    let mut world = world;
    world.set_limit(DEFAULT_MAX_TERMS);
    match follow(alloc, keys, options, &mut ports.events, &mut ports.out) {
        Ok(()) => (Status::Ok, world),
        Err(why) => (Stop::from(why).status(), world),
    }
}
