// The first version of the mapping is in force at the beginning; if another comes into force, what is held is remapped.

ghost use Rattle.std.specs.Prelude.{◌≡◌, IfErr, IfOk, OnOk};
ghost use Rattle.replay_model.specs.ReplayState.{nothing_delivered};
ghost use Rattle.drill_replay.specs.Playing.{IsByFirst};
ghost use Rattle.text_output.specs.Printing.{output};
ghost use Rattle.patch_stream.specs.Stream.{steps_anew};
ghost use Rattle.run_model.specs.{declared.report.Report.TheVariants.Answers, Moment.HasWrittenOn, Remapping.HaveRoom, Remapping.needed_anew};
ghost use Rattle.run_model.specs.{Moved.GoesOn, Remapping.mapped_by, Remapping.mapped_in, Delivering.TellsBy, Delivering.RemapsPages};

use crate::context::Context;
use crate::replay::Replay;
use entity_model::MappingVersion;
use run_model::{Halt, Reported};
use splitting::follow_remapping;
use triple_store::StoreFault;
use world::{RemappedStep, World, WorldFault};
use wq_io::Sink;

// Puts the first version of the mapping in force in a world to which nothing was delivered, so that it holds no page that is mapped by
// another.
pub fn begin_by_first(world: &mut World)
    requires world { world.old.replay ≡ nothing_delivered }
    ensures replay { world.new.replay ≡ nothing_delivered }
    ensures first { IsByFirst world.new }
    ensures limit { world.new.limit ≡ world.old.limit }
{
    world.set_mapping(MappingVersion::One);
}

// Puts a version of the mapping in force, and maps all that is held by it, the page of the least entity first; tells each, where changes are
// reported, before the next is mapped; stops at once where the graphs of a split are lost. Says what is reported then.
pub fn take_mapping<K: Sink>(
    context: &Context<'_>,
    version: MappingVersion,
    out: &mut K,
    replay: &mut Replay,
) -> Result<Reported, Halt>
    ensures state { replay.new.world.replay ≡ replay.old.world.replay }
    ensures same { GoesOn replay.old replay.new }
    ensures ok { OnOk result (mapped_in replay.new.world ≡ mapped_by version replay.old.world.replay.played.records) }
    ensures roomed { OnOk result (HaveRoom replay.old.world.limit (needed_anew replay.old.world.replay.played.records (record { version = version; by_two = replay.old.world.by_two }))) }
    ensures tells { IfOk result (λ reported. TellsBy context.now.report context.now.reported (steps_anew version replay.old.world.replay.played.records replay.old.world.by_two) reported
        (output K.Sink out.old) (output K.Sink out.new)) }
    ensures err { IfErr result (λ halt. RemapsPages halt context.now.report replay.old.world.limit context.now.reported version replay.old.world.replay.played.records
        (mapped_in replay.old.world) (mapped_in replay.new.world) (output K.Sink out.old) (output K.Sink out.new)) }
    ensures written { HasWrittenOn K.Sink out.old out.new }
    ensures silent { context.now.report ≡ Answers → output K.Sink out.new ≡ output K.Sink out.old }
{
    replay.world.set_mapping(version);
    let mut reported = context.reported;
    while replay.world.stale() > 0 {
        match replay
            .world
            .remap_next_with(context.report.telling(reported))
        {
            Ok(
                Some(
                    RemappedStep {
                        entity,
                        change,
                        triples,
                    },
                ),
            ) => {
                let followed = follow_remapping(&mut replay.graphs, entity, &triples);
                drop(triples);
                match context.tell(reported, change, out) {
                    Ok(now) => reported = now,
                    Err(why) => return Err(Halt::Unprinted(why)),
                }
                followed?;
            }
            Ok(None) => unreachable!(),
            Err(WorldFault::Full) => return Err(Halt::Unapplied(StoreFault::Full)),
            Err(WorldFault::Nothing) => unreachable!(),
            Err(WorldFault::OutOfMemory) => return Err(Halt::Unapplied(StoreFault::OutOfMemory)),
        }
    }
    Ok(reported)
}
