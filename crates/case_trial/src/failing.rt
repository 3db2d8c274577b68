// What must stand where a call fails: what the calls before it took.

use crate::change::Port;
use crate::shown::{Shown, is_feed, show};
use std::alloc::{AllocError, Global};

// The calls of a port: what they read or write, and the most bytes of one.
#[derive(Clone, Copy)]
pub(crate) struct Flow<'a> {
    pub port: Port,
    pub text: &'a [u8],
    pub bytes: usize,
}

// What so many calls take; None where there is no further call. The last read gives nothing, and no write has bytes of two lines.
pub(crate) fn taken<'a>(flow: Flow<'a>, calls: usize) -> Option<&'a [u8]> {
    let length = match flow.port {
        Port::Reads | Port::Loads => taken_by_reads(flow, calls)?,
        Port::Writes => taken_by_writes(flow, calls)?,
    };
    flow.text.get(..length)
}

// How many bytes so many reads take.
fn taken_by_reads(flow: Flow<'_>, calls: usize) -> Option<usize> {
    let length = flow.text.len();
    let taken = calls.saturating_mul(flow.bytes);
    (taken < length.saturating_add(flow.bytes)).then_some(taken.min(length))
}

// How many bytes so many writes take.
fn taken_by_writes(flow: Flow<'_>, calls: usize) -> Option<usize> {
    let mut taken = 0usize;
    let mut left = calls;
    for line in flow.text.split_inclusive(is_feed) {
        for piece in line.chunks(flow.bytes.max(1)) {
            if left == 0 {
                return Some(taken);
            }
            left -= 1;
            taken = taken.saturating_add(piece.len());
        }
    }
    None
}

// Appends what a run must show in which a call fails, once those before it took so much.
pub(crate) fn push_stopped(
    alloc: Global,
    port: Port,
    taken: &[u8],
    out: &[u8],
    list: &mut Vec<Shown>,
) -> Result<(), AllocError> {
    let (status, out): (&[u8], &[u8]) = match port {
        Port::Reads => (b"3 wdq: read fault", answers(out, questions(taken))),
        Port::Loads => (b"3 wdq: read fault", b""),
        Port::Writes => (b"4 wdq: write fault", taken),
    };
    show(alloc, "status", status, list)?;
    show(alloc, "out", out, list)
}

// How many whole lines ask.
fn questions(input: &[u8]) -> usize {
    input
        .split_inclusive(is_feed)
        .filter(|line| is_question(line))
        .count()
}

// Whether a line is whole, and asks.
fn is_question(line: &[u8]) -> bool {
    let asks = line.starts_with(b"{\"ask\"") || line.starts_with(b"{\"match\"");
    asks && line.ends_with(b"\n")
}

// The first answers of an output.
fn answers(out: &[u8], count: usize) -> &[u8] {
    let mut left = count;
    let mut length = 0usize;
    for line in out.split_inclusive(is_feed) {
        if line.starts_with(b"# ") && !line.starts_with(b"# row") {
            if left == 0 || !is_first_of_answer(line) {
                break;
            }
            left -= 1;
        }
        length = length.saturating_add(line.len());
    }
    out.get(..length).unwrap_or(out)
}

// Whether a line is the first of an answer.
fn is_first_of_answer(line: &[u8]) -> bool {
    line.starts_with(b"# ask ") || line.starts_with(b"# match ")
}
