// The deliveries of an item.

ghost use Rattle.std.specs.Prelude.{◌≡◌, ◌++◌, IfOk, OnOk};
ghost use Rattle.drill_replay.specs.Drill.{IsSize, deletion, item_deliveries, edits, event, late_edit, time_at};

use base::{List, OutOfMemory};
use delivery::Delivery;
use entity_model::{EntityId, Event, IdKind, Kind};
use std::alloc::Global;

/// The deliveries of the item with this number, in order: its later edit, its earlier edit, and the later one again. Each fifth item is
/// also deleted, and after each tenth come a watermark and an edit that is late. The time of revision r is r seconds after
/// 1970-01-01T00:00:00Z; that of a late edit is two seconds earlier.
pub fn deliveries(alloc: Global, number: u32) -> Result<List<Delivery>, OutOfMemory>
    requires { IsSize number }
    ensures { IfOk result (λ list. list ≡ item_deliveries number) }
{
    let mut list = edits(alloc, number)?;
    push_deletion(&mut list, number)?;
    push_late_edit(&mut list, number)?;
    Ok(list)
}

// The edits of an item: the later one, the earlier one, and the later one again.
fn edits(alloc: Global, number: u32) -> Result<List<Delivery>, OutOfMemory>
    requires { IsSize number }
    ensures { IfOk result (λ list. list ≡ edits number) }
{
    let later = 2 * number;
    let earlier = later - 1;
    let mut list = List::new(alloc);
    list.push(event(Kind::Edit, number, later, later))?;
    list.push(event(Kind::Edit, number, earlier, earlier))?;
    list.push(event(Kind::Edit, number, later, later))?;
    Ok(list)
}

// Each fifth item is deleted.
fn push_deletion(list: &mut List<Delivery>, number: u32) -> Result<(), OutOfMemory>
    requires { IsSize number }
    ensures { OnOk result (list.new ≡ list.old ++ deletion number) }
{
    if number % 5 == 0 {
        let later = 2 * number;
        list.push(event(Kind::Delete, number, later, later))?;
    }
    Ok(())
}

// After each tenth item stand a watermark and an edit from before it.
fn push_late_edit(list: &mut List<Delivery>, number: u32) -> Result<(), OutOfMemory>
    requires { IsSize number }
    ensures { OnOk result (list.new ≡ list.old ++ late_edit number) }
{
    if number % 10 == 0 {
        let later = 2 * number;
        list.push(Delivery::Watermark(time_at(later)))?;
        list.push(event(Kind::Edit, number, later - 1, later - 3))?;
    }
    Ok(())
}

// What happened to an item's page at a revision and a second.
fn event(kind: Kind, number: u32, rev: u32, second: u32) -> Delivery
    ensures { result ≡ event kind number rev second }
{
    Delivery::Event(Event {
        entity: EntityId {
            kind: IdKind::Q,
            number,
        },
        time: time_at(second),
        rev: u64::from(rev),
        kind,
    })
}

// A second since 1970-01-01T00:00:00Z, in microseconds.
fn time_at(second: u32) -> i64
    ensures { result ≡ time_at second }
{
    i64::from(second) * 1_000_000
}
