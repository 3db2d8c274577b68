// Revisions of a folder that the test makes.

use crate::tester::{Subject, Tester, write_number, write_text};
use revisions::{Folder, NoRevision, Revisions};
use std::alloc::Global;
use std::rt::Files;
use std::{fs, io};

// The folder of an item with a page, a file where another item's folder would be, and what fetches give.
const FETCHES: &str = "Q1 7 => bytes
Q1 8 => missing
Q2 7 => missing
Q3 7 => failed
Q1/7.json 7 => failed";

// How many bytes a page has that is too large, and how many of them a fetch gives: one more than a page may have.
const LARGE: &str = "8388610 => 8388609";

// Writes what a fetch of a place and a revision gives.
pub(crate) fn write_fetch<R: Revisions>(
    alloc: Global,
    revisions: &mut R,
    given: &str,
    found: &mut Vec<u8>,
) -> Option<()> {
    let (place, rev) = given.split_once(' ')?;
    let rev = rev.parse().ok()?;
    match revisions.fetch(alloc, place, rev) {
        Ok(page) => {
            let written = found.extend_from_slice(page.as_slice());
            drop(page);
            written.ok()
        }
        Err(NoRevision::Missing) => write_text("missing", found),
        Err(NoRevision::Failed) => write_text("failed", found),
        Err(NoRevision::OutOfMemory) => None,
    }
}

// Makes the folder of an item with a page, and a file where another item's folder would be.
fn make_pages(rt: &impl Files) -> io::Result<()> {
    fs::create_dir(rt, "Q1")?;
    fs::write(rt, "Q1/7.json", "bytes")?;
    fs::write(rt, "Q3", "no folder")
}

// Removes them.
fn remove_pages(rt: &impl Files) -> io::Result<()> {
    fs::remove_file(rt, "Q3")?;
    fs::remove_file(rt, "Q1/7.json")?;
    fs::remove_dir(rt, "Q1")
}

#[derive(Drop)]
struct Pages<'a> {
    rt: &'a HostRuntime,
}

impl<'a> Subject for Pages<'a> {
    fn answer(&mut self, alloc: Global, given: &str, found: &mut Vec<u8>) -> Option<()> {
        make_pages(self.rt).ok()?;
        let written = write_fetch(alloc, &mut Folder::new(self.rt), given, found);
        remove_pages(self.rt).ok()?;
        written
    }
}

// Makes the folder of an item with a page of so many bytes.
fn make_page(rt: &HostRuntime, length: usize) -> Option<()> {
    fs::create_dir(rt, "Q4").ok()?;
    let page = vec![in rt.alloc(); b'0'; length].ok()?;
    let written = fs::write(rt, "Q4/1.json", page.as_slice());
    drop(page);
    written.ok()
}

// Removes it.
fn remove_page(rt: &impl Files) -> io::Result<()> {
    fs::remove_file(rt, "Q4/1.json")?;
    fs::remove_dir(rt, "Q4")
}

#[derive(Drop)]
struct Large<'a> {
    rt: &'a HostRuntime,
}

impl<'a> Subject for Large<'a> {
    fn answer(&mut self, alloc: Global, given: &str, found: &mut Vec<u8>) -> Option<()> {
        make_page(self.rt, given.parse().ok()?)?;
        let page = Folder::new(self.rt).fetch(alloc, "Q4", 1);
        let removed = remove_page(self.rt).ok();
        let page = page.ok()?;
        let length = page.len();
        drop(page);
        removed?;
        write_number(alloc, "", length as u64, found)
    }
}

pub(crate) fn try_folders(tester: &mut Tester<'_>) {
    let rt = tester.rt;
    tester.try_rows("revisions of a folder", FETCHES, &mut Pages { rt });
    tester.try_rows("a large page of a folder", LARGE, &mut Large { rt });
}
