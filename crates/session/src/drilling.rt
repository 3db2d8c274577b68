// A drill: its deliveries, and its summary.

ghost use Rattle.std.specs.Prelude.{◌≡◌, ◌≤◌, false, None, IfErr, OnOk};
ghost use Rattle.replay_model.specs.ReplayState.{nothing_delivered};
ghost use Rattle.text_output.specs.Printing.{output};
ghost use Rattle.drill_replay.specs.Playing.{IsByFirst};
ghost use Rattle.run_model.specs.{Moment.HasWrittenOn, Remapping.HoldsWithin};
ghost use Rattle.session.specs.Plans.{DrillStopped, HasDrilled, IsDrillEnd};
ghost use Rattle.arguments.specs.Plan.{greatest_size};
ghost use Rattle.rdf_term.specs.Limits.{default_max_terms};
ghost use Rattle.world.specs.Limit.{whole};

use crate::drill_playing::play;
use crate::remapping::begin_by_first;
use crate::replay::Replay;
use drill_replay::{summarize, summary_lines};
use rdf_term::DEFAULT_MAX_TERMS;
use run_model::{Status, Stop};
use std::alloc::Global;
use text_output::{Unwritten, print_lines};
use world::World;
use wq_io::Sink;

// Runs the drill of this size, by version One of the mapping, and prints its summary. Gives the world back.
pub fn drill<K: Sink>(alloc: Global, size: u32, out: &mut K, world: World) -> (Status, World)
    requires size { (1 ≤ size) × (size ≤ greatest_size) }
    requires world { world.replay ≡ nothing_delivered }
    requires lean { world.limit.lean ≡ false }
    ensures ending { IsDrillEnd result.0 size (output K.Sink out.old) (output K.Sink out.new) result.1.replay }
    ensures first { IsByFirst result.1 }
    ensures limit { (result.1.limit ≡ whole default_max_terms) × HoldsWithin result.1.limit result.1 }
    ensures written { HasWrittenOn K.Sink out.old out.new }
{
    let mut world = world;
    begin_by_first(&mut world);
    world.set_limit(DEFAULT_MAX_TERMS);
    let mut replay = Replay::of_world(world);
    let drilled = drill_and_print(alloc, size, out, &mut replay);
    let world = replay.into_world();
    match drilled {
        Ok(()) => (Status::Ok, world),
        Err(why) => (Stop::from(why).status(), world),
    }
}

// Plays the drill, and prints its summary.
fn drill_and_print<K: Sink>(
    alloc: Global,
    size: u32,
    out: &mut K,
    replay: &mut Replay,
) -> Result<(), Unwritten>
    requires size { (1 ≤ size) × (size ≤ greatest_size) }
    requires world { replay.old.world.replay ≡ nothing_delivered }
    requires first { IsByFirst replay.old.world }
    requires limit { replay.old.world.limit ≡ whole default_max_terms }
    requires routes { replay.old.routes ≡ None }
    ensures ok { OnOk result (HasDrilled size (output K.Sink out.old) (output K.Sink out.new) replay.new.world.replay) }
    ensures err { IfErr result (λ why. DrillStopped why size (output K.Sink out.old) (output K.Sink out.new) replay.new.world.replay) }
    ensures first { IsByFirst replay.new.world }
    ensures limit { replay.new.world.limit ≡ whole default_max_terms }
    ensures written { HasWrittenOn K.Sink out.old out.new }
{
    let counts = play(alloc, size, out, replay)?;
    let summary = summarize(alloc, size, counts, replay.world())?;
    let lines = summary_lines(alloc, &summary)?;
    print_lines(lines.as_slice(), out)
}
