// What one of several runs is given in place of what its case says.

use crate::cutting::{go_on, keep_first};
use crate::given::{Calls, Given};
use anyhow::Result;
use base::List;
use std::alloc::{AllocError, Global};
use std::mem;

// A kind of calls that may fail.
#[derive(Clone, Copy)]
pub(crate) enum Port {
    Reads,
    Writes,
    // A load is a read of the snapshot.
    Loads,
}

// What is changed.
#[derive(Clone, Copy)]
pub(crate) enum Change<'a> {
    Nothing,
    // The call with this number fails.
    Fails(Port, u64),
    // So many bytes of the pages of a revision are left.
    PageFront(u64, usize),
    // So many bytes of the snapshot are left.
    SnapshotFront(usize),
    // So many lines of the input are left, and the world is saved.
    First(usize),
    // The run goes on from a first part.
    Second(First<'a>),
}

// What the first part of a run left: it had so many lines.
#[derive(Clone, Copy)]
pub(crate) struct First<'a> {
    pub lines: usize,
    pub saved: &'a [u8],
    pub fetches: u64,
}

// Changes what is given.
pub(crate) fn apply(
    alloc: Global,
    change: Change<'_>,
    given: &mut Given,
) -> Result<(), AllocError> {
    match change {
        Change::Nothing => Ok(()),
        Change::Fails(port, call) => Ok(calls(given, port).failing.push(call)?),
        Change::PageFront(rev, length) => Ok(keep_page_front(alloc, rev, length, given)),
        Change::SnapshotFront(length) => Ok(given.resumed.truncate(length)),
        Change::First(lines) => keep_first(alloc, lines, given),
        Change::Second(first) => go_on(alloc, first, given),
    }
}

// The calls of a port.
fn calls(given: &mut Given, port: Port) -> &mut Calls {
    match port {
        Port::Reads => &mut given.reads,
        Port::Writes => &mut given.writes,
        Port::Loads => &mut given.loads,
    }
}

// Leaves so many bytes of the pages of a revision.
fn keep_page_front(alloc: Global, rev: u64, length: usize, given: &mut Given) {
    for page in given.pages.iter_mut() {
        if page.rev == rev {
            let mut bytes = mem::replace(&mut page.bytes, List::new(alloc)).into_vec();
            bytes.truncate(length);
            drop(mem::replace(&mut page.bytes, List::from_vec(bytes)));
        }
    }
}

// Where a run with this change differs, and the number there.
pub(crate) fn place(change: Change<'_>) -> (&'static str, u64) {
    match change {
        Change::Nothing => ("the whole", 1),
        Change::Fails(Port::Reads, call) => ("the failing read", call),
        Change::Fails(Port::Writes, call) => ("the failing write", call),
        Change::Fails(Port::Loads, call) => ("the failing load", call),
        Change::PageFront(_, length) | Change::SnapshotFront(length) => ("the byte", length as u64),
        Change::First(lines) => ("the first part of the cut", lines as u64),
        Change::Second(first) => ("the cut", first.lines as u64),
    }
}
