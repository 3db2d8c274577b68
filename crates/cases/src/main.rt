//! Runs the cases of a folder: whole runs of the top call over memory, and what they must show.
//!
//! The crate case_trial tries the cases. `running` makes one run, and case_world says what stands in its world.
//! `statuses` prints the texts of the statuses. README.md of crates/cases says how a case is written.
#![tactic(auto)]

mod running;
mod statuses;

use anyhow::Result;
use case_trial::{Tally, try_cases};
use running::MemoryRunner;
use statuses::print_statuses;
use std::env;
use std::hash::RandomState;
use std::process::ExitCode;
use vectors::try_vectors;

fn main(rt: HostRuntime) -> Result<ExitCode> {
    let wanted = wanted(&rt)?;
    let keys = RandomState::new(&rt)?;
    let mut failed = 0;
    if wanted.is_empty() {
        print_statuses(&rt)?;
        failed = tests_that_fail(&rt, keys)?;
    }
    let tally = try_cases(&rt, &MemoryRunner { keys }, wanted.as_slice())?;
    sum_up(&rt, tally, failed)
}

// The words of the command line: where there are some, only the cases whose names contain one of them are tried.
fn wanted(rt: &HostRuntime) -> Result<Vec<String>> {
    Ok(env::args(rt)?.skip(1).collect(rt.alloc())?)
}

// Makes the tests of the crate vectors, prints their numbers, and says how many fail.
fn tests_that_fail(rt: &HostRuntime, keys: RandomState) -> Result<u64> {
    let report = try_vectors(rt, keys)?;
    let tests = report.tests;
    let failed = report.failed;
    println!(rt; "{tests} tests, {failed} failed")?;
    Ok(failed)
}

// Prints the numbers, and says how the program ends where so many tests failed.
fn sum_up(rt: &HostRuntime, tally: Tally, failed_tests: u64) -> Result<ExitCode> {
    let cases = tally.cases;
    let runs = tally.runs;
    let failed = tally.failed;
    println!(rt; "{cases} cases, {runs} runs, {failed} failed")?;
    Ok(ExitCode::from(u8::from(failed > 0 || failed_tests > 0)))
}
