// The lines of the side output.

ghost use Rattle.std.specs.Prelude.{◌≡◌, ◌<◌, [], length, slice_get, unwrap_or};
ghost use Rattle.std.specs.Option.{option_map};
ghost use Rattle.replay_model.specs.Transcript.{side_section};
ghost use Rattle.text_output.specs.Printing.{Prints, Puts, output};
ghost use Rattle.transcript.specs.Sections.{entry_text};

use crate::lines::entry_line;
use std::alloc::Global;
use text_output::{Unwritten, flush, write_all};
use world::World;
use wq_io::Sink;

// Prints the line of each entry, and hands them on to the outside.
pub(crate) fn print_entries<K: Sink>(
    alloc: Global,
    world: &World,
    out: &mut K,
) -> Result<(), Unwritten>
    ensures { Prints (side_section world.now.replay.played.records world.now.replay.played.side) (output K.Sink out.old) (output K.Sink out.new) result }
{
    for index in 0..world.side_len() {
        print_entry(alloc, world, index, out)?;
    }
    flush(world.side_len() > 0, out)
}

// Prints the line of the entry with this index.
fn print_entry<K: Sink>(
    alloc: Global,
    world: &World,
    index: usize,
    out: &mut K,
) -> Result<(), Unwritten>
    requires { index < length world.now.replay.played.side }
    ensures { Puts (unwrap_or (option_map (entry_text world.now.replay.played.records) (slice_get world.now.replay.played.side index)) [])
        (output K.Sink out.old) (output K.Sink out.new) result }
{
    let Some(entry) = world.side(index) else {
        return Ok(());
    };
    let line = entry_line(alloc, entry, world.side_open(index))?;
    write_all(line.as_bytes(), out)
}
