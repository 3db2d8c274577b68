// A reader and a writer of std as a source and a sink.

use crate::tester::{Tester, write_number, write_text};
use std::alloc::Global;
use std::io::{self, ErrorKind, Read, Write};
use wq_io::{NoWrite, Sink, Source, StdSink, StdSource};

// What a source reads of three bytes by two, and of a reader whose calls fail; how many bytes a sink takes into three bytes, and what
// stands there when it has flushed; and how many it takes into a writer that can't flush.
const CALLS: &str = " read ab read c read  failed took 3 failed flushed abc took 3 failed";

// A reader whose calls fail.
#[derive(Drop)]
struct Broken;

impl Read for Broken {
    fn read(&mut self, _buf: &mut [u8]) -> io::Result<usize> {
        Err(io::Error::from(ErrorKind::Other))
    }
}

// A writer that takes all bytes and can't flush.
#[derive(Drop)]
struct Unflushed;

impl Write for Unflushed {
    fn write(&mut self, buf: &[u8]) -> io::Result<usize> {
        Ok(buf.len())
    }

    fn flush(&mut self) -> io::Result<()> {
        Err(io::Error::from(ErrorKind::Other))
    }
}

// Reads two bytes, and writes what was read.
fn write_read<S: Source>(source: &mut S, found: &mut Vec<u8>) -> Option<()> {
    let mut buffer = [0; 2];
    match source.read(&mut buffer) {
        Ok(count) => {
            write_text(" read ", found)?;
            found.extend_from_slice(buffer.get(..count)?).ok()
        }
        Err(_) => write_text(" failed", found),
    }
}

// Hands bytes to a sink, and writes how many it took.
fn write_taken<K: Sink>(
    alloc: Global,
    bytes: &[u8],
    sink: &mut K,
    found: &mut Vec<u8>,
) -> Option<()> {
    if bytes.is_empty() {
        return None;
    }
    match sink.write(bytes) {
        Ok(count) => write_number(alloc, " took ", count as u64, found),
        Err(NoWrite::Failed) => write_text(" failed", found),
        Err(NoWrite::OutOfMemory) => None,
    }
}

// Flushes a sink, and writes whether it did.
fn write_flushed<K: Sink>(sink: &mut K, found: &mut Vec<u8>) -> Option<()> {
    match sink.flush() {
        Ok(()) => write_text(" flushed ", found),
        Err(NoWrite::Failed) => write_text(" failed", found),
        Err(NoWrite::OutOfMemory) => None,
    }
}

// Reads of sources.
fn write_sources(found: &mut Vec<u8>) -> Option<()> {
    let mut source = StdSource::new(&b"abc"[..]);
    for _ in 0..3 {
        write_read(&mut source, found)?;
    }
    write_read(&mut StdSource::new(Broken), found)
}

// Writes into sinks.
fn write_sinks(alloc: Global, found: &mut Vec<u8>) -> Option<()> {
    let mut three = [0; 3];
    let mut sink = StdSink::new(&mut three[..]);
    write_taken(alloc, b"abcd", &mut sink, found)?;
    write_taken(alloc, b"d", &mut sink, found)?;
    write_flushed(&mut sink, found)?;
    found.extend_from_slice(three.as_slice()).ok()?;
    let mut unflushed = StdSink::new(Unflushed);
    write_taken(alloc, b"abc", &mut unflushed, found)?;
    write_flushed(&mut unflushed, found)
}

pub(crate) fn try_streams(tester: &mut Tester<'_>) {
    let read = write_sources(&mut tester.found);
    let written = write_sinks(tester.alloc(), &mut tester.found);
    tester.try_text("streams", CALLS, read.and(written));
}
