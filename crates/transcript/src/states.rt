// The lines of the entities' states.

ghost use Rattle.std.specs.Prelude.{◌≡◌, flat_map};
ghost use Rattle.replay_model.specs.{Records.record_of, Transcript.state_line, Transcript.state_section};
ghost use Rattle.text_output.specs.Printing.{Prints, output};

use crate::lines::state_line;
use entity_model::EntityId;
use std::alloc::Global;
use text_output::{Unwritten, flush, write_all};
use world::World;
use wq_io::Sink;

// Prints the line of the state of each entity with a record.
pub(crate) fn print_states<K: Sink>(
    alloc: Global,
    world: &World,
    out: &mut K,
) -> Result<(), Unwritten>
    ensures { Prints (state_section world.now.replay.played.records) (output K.Sink out.old) (output K.Sink out.new) result }
{
    let ids = world.entities()?;
    print_states_of(alloc, world, ids.as_slice(), out)
}

// Prints the line of the state of each of these entities, and hands them on to the outside.
fn print_states_of<K: Sink>(
    alloc: Global,
    world: &World,
    ids: &[EntityId],
    out: &mut K,
) -> Result<(), Unwritten>
    ensures { Prints (flat_map (λ x. state_line x (record_of world.now.replay.played.records x).state) ids.now)
        (output K.Sink out.old) (output K.Sink out.new) result }
{
    let mut is_printed = false;
    for id in ids {
        let line = state_line(alloc, *id, world.state(*id))?;
        let line = line.as_bytes();
        write_all(line, out)?;
        is_printed |= !line.is_empty();
    }
    flush(is_printed, out)
}
