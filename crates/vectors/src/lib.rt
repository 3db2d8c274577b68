//! Tests of other crates: values from outside, and calls that no case reaches.
//!
//! The program `cases` makes them. What a whole run shows is a case there. A crate with tests of its own would be proved a second time with
//! them, and linked once more. `tester` compares what a test writes with a table or a text; each other module has some tests.
#![tactic(auto)]

mod drills;
mod dumps;
mod folders;
mod horizons;
mod indexes;
mod lean;
mod matches;
mod munged;
mod names;
mod packing;
mod parts;
mod patches;
mod pools;
mod ranks;
mod regions;
mod sets;
mod snapshots;
mod stores;
mod streams;
mod terms;
mod tester;

use anyhow::{Result, bail};
use std::hash::RandomState;
use tester::Tester;

/// How many tests were made, and how many failed.
#[derive(Clone, Copy)]
pub struct Report {
    pub tests: u64,
    pub failed: u64,
}

/// Makes all tests, and prints a line for each.
///
/// # Errors
/// A line can't be printed.
pub fn try_vectors(rt: &HostRuntime, keys: RandomState) -> Result<Report> {
    let mut tester = Tester::new(rt);
    try_values(&mut tester, keys);
    try_pages(&mut tester);
    let report = tester.report;
    let printed = tester.printed;
    drop(tester);
    if !printed {
        bail!("a line can't be printed");
    }
    Ok(report)
}

// Makes the tests of texts and of what is stored.
fn try_values(tester: &mut Tester<'_>, keys: RandomState) {
    terms::try_terms(tester);
    names::try_names(tester);
    snapshots::try_snapshots(tester);
    horizons::try_horizons(tester);
    indexes::try_indexes(tester);
    pools::try_pools(tester, keys);
    stores::try_stores(tester, keys);
    matches::try_matches(tester, keys);
    patches::try_patches(tester);
    regions::try_regions(tester);
    lean::try_lean(tester, keys);
}

// Makes the tests of pages, of what is kept of them, and of where lines and pages come from.
fn try_pages(tester: &mut Tester<'_>) {
    dumps::try_dumps(tester);
    munged::try_munged(tester);
    packing::try_packing(tester);
    ranks::try_ranks(tester);
    parts::try_parts(tester);
    streams::try_streams(tester);
    drills::try_drills(tester);
    folders::try_folders(tester);
}
