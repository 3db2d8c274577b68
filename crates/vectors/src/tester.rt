// How tests are made: what a test writes is compared with what is wanted.

use crate::Report;
use std::alloc::Global;
use std::{io, str};

// What is tried with each row of a table.
pub(crate) trait Subject {
    // Writes what comes of the text that a row gives; None where memory is refused, or the text isn't written right.
    fn answer(&mut self, alloc: Global, given: &str, found: &mut Vec<u8>) -> Option<()>;
}

// Makes tests, counts them, and prints a line for each.
#[derive(Drop)]
pub(crate) struct Tester<'a> {
    pub rt: &'a HostRuntime,
    // What the test at hand wrote.
    pub found: Vec<u8>,
    pub report: Report,
    // Whether all lines were printed.
    pub printed: bool,
}

impl<'a> Tester<'a> {
    // A tester that made no tests.
    pub(crate) fn new(rt: &'a HostRuntime) -> Tester<'a> {
        Tester {
            rt,
            found: Vec::new(rt.alloc()),
            report: Report {
                tests: 0,
                failed: 0,
            },
            printed: true,
        }
    }

    // The allocator.
    pub(crate) fn alloc(&self) -> Global {
        self.rt.alloc()
    }

    // Makes a test of each row of a table: of a text and of what comes of it behind ` => `, or of a text that comes out as it is.
    pub(crate) fn try_rows<S: Subject>(&mut self, name: &str, rows: &str, subject: &mut S) {
        let failed = failed_row(self.rt.alloc(), rows, subject, &mut self.found);
        self.note(name, failed);
    }

    // Notes a test that wrote a whole text, where it came to its end.
    pub(crate) fn try_text(&mut self, name: &str, wanted: &str, ended: Option<()>) {
        let failed = ended.is_none() || self.found.as_slice() != wanted.as_bytes();
        self.note(name, failed.then_some(wanted));
    }

    // Counts a test, and prints its line, and what was wanted where that isn't what was found. The next test writes into nothing.
    fn note(&mut self, name: &str, failed: Option<&str>) {
        self.report.tests = self.report.tests.saturating_add(1);
        let printed = match failed {
            None => println!(self.rt; "ok   vectors: {name}"),
            Some(wanted) => {
                self.report.failed = self.report.failed.saturating_add(1);
                print_failed(self.rt, name, wanted, self.found.as_slice())
            }
        };
        self.printed = self.printed && printed.is_ok();
        self.found.clear();
    }
}

// The first row that isn't answered as it says.
fn failed_row<'a, S: Subject>(
    alloc: Global,
    rows: &'a str,
    subject: &mut S,
    found: &mut Vec<u8>,
) -> Option<&'a str> {
    for row in rows.lines() {
        let (given, wanted) = row.split_once(" => ").unwrap_or((row, row));
        found.clear();
        let answered = subject.answer(alloc, given, found);
        if answered.is_none() || found.as_slice() != wanted.as_bytes() {
            return Some(row);
        }
    }
    None
}

// Prints the first line that was wanted and isn't what was found.
fn print_failed(rt: &HostRuntime, name: &str, wanted: &str, found: &[u8]) -> io::Result<()> {
    let found = str::from_utf8(found).unwrap_or("no text");
    let (wanted, found) = differing(wanted, found);
    println!(rt; "FAIL vectors: {name}\n     wanted {wanted}\n     found  {found}")?;
    eprintln!(rt; "FAIL vectors: {name}")
}

// The first lines in which two texts differ.
fn differing<'a>(wanted: &'a str, found: &'a str) -> (&'a str, &'a str) {
    let mut others = found.lines();
    for line in wanted.lines() {
        let other = others.next().unwrap_or("nothing more");
        if line != other {
            return (line, other);
        }
    }
    ("nothing more", others.next().unwrap_or("nothing more"))
}

// Writes a text.
pub(crate) fn write_text(text: &str, found: &mut Vec<u8>) -> Option<()> {
    found.extend_from_slice(text.as_bytes()).ok()
}

// Writes a number behind a text.
pub(crate) fn write_number(
    alloc: Global,
    before: &str,
    number: u64,
    found: &mut Vec<u8>,
) -> Option<()> {
    let text = format!(in alloc; "{before}{number}").ok()?;
    write_text(text.as_str(), found)
}
