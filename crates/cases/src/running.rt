// One run over memory.

use anyhow::Result;
use case_trial::{Given, Runner, Shown, show};
use case_world::{owners, records, side};
use checkpoint::MemorySnapshots;
use rdf_term::{List, OutOfMemory};
use revisions::MemoryRevisions;
use session::{Ports, Status, run, status_number, status_text};
use std::alloc::{AllocError, Global};
use std::hash::RandomState;
use world::World;
use wq_io::{MemorySink, MemorySource};

// Makes runs over memory.
#[derive(Clone, Copy)]
pub struct MemoryRunner {
    pub keys: RandomState,
}

// The ports of a run over memory.
type MemoryPorts = Ports<MemorySource, MemoryRevisions, MemorySink, MemorySnapshots>;

impl Runner for MemoryRunner {
    fn run(&self, alloc: Global, given: Given, asked: &[u8]) -> Result<Vec<Shown>> {
        let (words, mut ports) = ports(alloc, given);
        let shown = shown_by_run(alloc, self.keys, words.as_slice(), &mut ports, asked);
        drop(ports);
        shown
    }
}

// The words of a run, and the ports over what else it is given.
fn ports(alloc: Global, given: Given) -> (Vec<String>, MemoryPorts) {
    let Given {
        words,
        input,
        resumed,
        pages,
        reads,
        loads,
        writes,
        saves,
        fetches,
    } = given;
    let ports = Ports {
        events: MemorySource::new(input, reads.bytes.max(1), List::from_vec(reads.failing)),
        resumed: MemorySource::new(resumed, loads.bytes.max(1), List::from_vec(loads.failing)),
        revisions: MemoryRevisions::new(List::from_vec(pages), List::from_vec(fetches.failing)),
        out: MemorySink::new(alloc, writes.bytes.max(1), List::from_vec(writes.failing)),
        snapshot: MemorySnapshots::new(alloc, List::from_vec(saves.failing)),
    };
    (words, ports)
}

// Makes a run over the ports, and says what it shows.
fn shown_by_run(
    alloc: Global,
    keys: RandomState,
    words: &[String],
    ports: &mut MemoryPorts,
    asked: &[u8],
) -> Result<Vec<Shown>> {
    let (status, world) = run_in_new_world(alloc, keys, words, ports)?;
    let mut list = Vec::new(alloc);
    let shown = show_run(alloc, &status, ports, &mut list);
    let shown = shown.and_then(|()| show_world(alloc, &world, asked, &mut list));
    drop(world);
    match shown {
        Ok(()) => Ok(list),
        Err(error) => {
            drop(list);
            Err(error)
        }
    }
}

// Makes the top call over a new world: how it ended, and the world that it left. Nothing else stands in this function, since the proof of
// each call and way out behind the top call would go over all that the top call promises.
fn run_in_new_world(
    alloc: Global,
    keys: RandomState,
    words: &[String],
    ports: &mut MemoryPorts,
) -> Result<(Status, World), OutOfMemory> {
    let world = World::new(alloc, keys)?;
    Ok(run(alloc, keys, words, ports, world))
}

// Shows how the run ended, and what was printed, saved and fetched.
fn show_run(
    alloc: Global,
    status: &Status,
    ports: &MemoryPorts,
    list: &mut Vec<Shown>,
) -> Result<()> {
    let number = status_number(status);
    let text = status_text(alloc, status)?;
    let text = text.as_str();
    let space = if text.is_empty() { "" } else { " " };
    let line = format!(in alloc; "{number}{space}{text}")?;
    show(alloc, "status", line.as_bytes(), list)?;
    show(alloc, "out", ports.out.bytes(), list)?;
    show_kept(alloc, ports.snapshot.kept(), list)?;
    Ok(show_number(alloc, "fetches", ports.revisions.fetches(), list)?)
}

// Shows the snapshots that were kept, one behind the other.
fn show_kept(alloc: Global, kept: &[List<u8>], list: &mut Vec<Shown>) -> Result<(), AllocError> {
    let mut saved = Vec::new(alloc);
    for snapshot in kept {
        saved.extend_from_slice(snapshot.as_slice())?;
    }
    show(alloc, "saved", saved.as_slice(), list)
}

// Shows a number.
fn show_number(
    alloc: Global,
    name: &'static str,
    number: u64,
    list: &mut Vec<Shown>,
) -> Result<(), AllocError> {
    let number = format!(in alloc; "{number}")?;
    show(alloc, name, number.as_bytes(), list)
}

// Shows what the world has.
fn show_world(alloc: Global, world: &World, asked: &[u8], list: &mut Vec<Shown>) -> Result<()> {
    show(alloc, "records", records(alloc, world)?.as_bytes(), list)?;
    show(alloc, "side", side(alloc, world)?.as_bytes(), list)?;
    show(
        alloc,
        "owners",
        owners(alloc, world, asked)?.as_bytes(),
        list,
    )?;
    Ok(show_number(alloc, "waiting", world.pending() as u64, list)?)
}
