// What a case gives to a run.

use crate::sections::{push_lines, words};
use crate::spelling::numbered;
use crate::trier::fails_in_turn;
use anyhow::{Context, Result, bail};
use base::{List, Text};
use revisions::RevisionBytes;
use std::alloc::{AllocError, Global};

/// What a run is given.
#[derive(Drop)]
pub struct Given {
    pub words: Vec<String>,
    pub input: Vec<u8>,
    pub resumed: Vec<u8>,
    pub pages: Vec<RevisionBytes>,
    pub reads: Calls,
    pub loads: Calls,
    pub writes: Calls,
    pub saves: Calls,
    pub fetches: Calls,
}

/// The most bytes of a call, and the numbers of the calls that fail.
#[derive(Drop)]
pub struct Calls {
    pub bytes: usize,
    pub failing: Vec<u64>,
}

// The most bytes of a call where the case doesn't say.
const BYTES_A_CALL: usize = 4096;

// What a run of the case is given.
pub(crate) fn given_by(alloc: Global, case: &str) -> Result<Given> {
    let mut given = nothing(alloc);
    if let Err(error) = give(alloc, case, &mut given) {
        drop(given);
        return Err(error);
    }
    Ok(given)
}

// Nothing, of which no call fails.
fn nothing(alloc: Global) -> Given {
    Given {
        words: Vec::new(alloc),
        input: Vec::new(alloc),
        resumed: Vec::new(alloc),
        pages: Vec::new(alloc),
        reads: no_calls(alloc),
        loads: no_calls(alloc),
        writes: no_calls(alloc),
        saves: no_calls(alloc),
        fetches: no_calls(alloc),
    }
}

// Calls of which none fails.
fn no_calls(alloc: Global) -> Calls {
    Calls {
        bytes: BYTES_A_CALL,
        failing: Vec::new(alloc),
    }
}

// Gives what the sections say.
fn give(alloc: Global, case: &str, given: &mut Given) -> Result<()> {
    push_words(alloc, case, &mut given.words)?;
    push_lines(alloc, case, "in", &mut given.input)?;
    push_lines(alloc, case, "resume", &mut given.resumed)?;
    push_pages(alloc, case, &mut given.pages)?;
    set_calls(case, "bytes a read", "failing reads", &mut given.reads)?;
    set_calls(case, "bytes a load", "failing loads", &mut given.loads)?;
    set_calls(case, "bytes a write", "failing writes", &mut given.writes)?;
    set_calls(case, "bytes a save", "failing saves", &mut given.saves)?;
    set_calls(case, "bytes a fetch", "failing fetches", &mut given.fetches)
}

// Appends the words of the run; `''` is the empty word.
fn push_words(alloc: Global, case: &str, list: &mut Vec<String>) -> Result<()> {
    let line = words(case, "words").context("no words")?;
    if line.is_empty() {
        return Ok(());
    }
    for word in line.split(' ') {
        push_word(alloc, if word == "''" { "" } else { word }, list)?;
    }
    Ok(())
}

// Appends a word.
pub(crate) fn push_word(
    alloc: Global,
    word: &str,
    list: &mut Vec<String>,
) -> Result<(), AllocError> {
    let word = String::from_str(alloc, word)?;
    list.push(word)?;
    Ok(())
}

// Appends the pages of a case.
fn push_pages(alloc: Global, case: &str, pages: &mut Vec<RevisionBytes>) -> Result<()> {
    for head in case.lines() {
        if let Some(words) = head.strip_prefix("page ") {
            let (rev, _) = words.split_once(" at ").unwrap_or((words, ""));
            push_page(alloc, case, head, rev.parse()?, pages)?;
        }
        if let Some(last) = head.strip_prefix("pages to ") {
            push_pages_to(alloc, case, head, last.parse()?, pages)?;
        }
    }
    Ok(())
}

// Appends a page for each revision from 1 to the last, with the number for `%d`.
fn push_pages_to(
    alloc: Global,
    case: &str,
    head: &str,
    last: u64,
    pages: &mut Vec<RevisionBytes>,
) -> Result<()> {
    for rev in 1..=last {
        let case = numbered(alloc, case, rev)?;
        push_page(alloc, case.as_str(), head, rev, pages)?;
    }
    Ok(())
}

// Appends the page of a revision, in the folder that the head names. The line feed at its end is none of its bytes.
fn push_page(
    alloc: Global,
    case: &str,
    head: &str,
    rev: u64,
    pages: &mut Vec<RevisionBytes>,
) -> Result<()> {
    let mut bytes = Vec::new(alloc);
    push_lines(alloc, case, head, &mut bytes)?;
    if bytes.as_slice().ends_with(b"\n") {
        bytes.pop();
    }
    let (_, folder) = head.split_once(" at ").unwrap_or(("", "."));
    let place = Text::new(alloc, folder)?;
    let bytes = List::from_vec(bytes);
    pages.push(RevisionBytes { place, rev, bytes })?;
    Ok(())
}

// Sets the bytes of a call, and the calls that fail.
fn set_calls(case: &str, bytes: &str, failing: &str, calls: &mut Calls) -> Result<()> {
    if let Some(number) = words(case, bytes) {
        calls.bytes = number.parse().context(format_args!("{bytes}"))?;
    }
    if calls.bytes == 0 {
        bail!("no bytes a call");
    }
    if fails_in_turn(case, failing) {
        return Ok(());
    }
    for number in words(case, failing).unwrap_or("").split_whitespace() {
        calls
            .failing
            .push(number.parse().context(format_args!("{failing}"))?)?;
    }
    Ok(())
}
