// What a buffer with a horizon remembers, which no run prints.

ghost use Rattle.std.specs.Prelude.{◌≡◌, false};

use crate::tester::{Tester, write_number};
use entity_model::{EntityId, Event, IdKind, Kind};
use reorder_buffer::{Buffer, Taken};
use std::alloc::Global;

// How each event is answered, and how many are remembered then, where the floor rises behind the second.
const ANSWERS: &str = " new 1 new 2 floor 1 repeat 1 late 1";

// Takes the edit of a revision at the time of the same number, and writes how it is answered, and how many are remembered then.
fn take(alloc: Global, buffer: &mut Buffer, number: u32, found: &mut Vec<u8>) -> Option<()>
    requires { buffer.old.closed ≡ false }
    ensures { buffer.new.closed ≡ false }
{
    let event = Event {
        entity: EntityId {
            kind: IdKind::Q,
            number: 42,
        },
        time: i64::from(number),
        rev: u64::from(number),
        kind: Kind::Edit,
    };
    let answer = match buffer.take(event) {
        Ok(Taken::New) => " new ",
        Ok(Taken::Repeat) => " repeat ",
        Ok(Taken::Late) => " late ",
        Err(_) => return None,
    };
    write_number(alloc, answer, buffer.remembered() as u64, found)
}

// Raises the floor of a buffer with a horizon of 0 over the first of two events that it remembers, and takes both again.
fn raise_floor(alloc: Global, buffer: &mut Buffer, found: &mut Vec<u8>) -> Option<()>
    requires { buffer.old.closed ≡ false }
{
    take(alloc, buffer, 1, found)?;
    take(alloc, buffer, 2, found)?;
    buffer.raise(2);
    write_number(alloc, " floor ", buffer.remembered() as u64, found)?;
    take(alloc, buffer, 2, found)?;
    take(alloc, buffer, 1, found)
}

// The same for a new buffer.
fn raise_new_floor(alloc: Global, found: &mut Vec<u8>) -> Option<()> {
    let mut buffer = Buffer::new(alloc).ok()?;
    buffer.set_horizon(0);
    let raised = raise_floor(alloc, &mut buffer, found);
    drop(buffer);
    raised
}

pub(crate) fn try_horizons(tester: &mut Tester<'_>) {
    let ended = raise_new_floor(tester.alloc(), &mut tester.found);
    tester.try_text("what is below the floor is forgotten", ANSWERS, ended);
}
