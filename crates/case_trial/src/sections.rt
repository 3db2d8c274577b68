// The sections of a case.
//
// A section begins with its head, a line that doesn't begin with two spaces, and goes on with the lines below that do. An empty line and one
// that begins with `#` say nothing.

use crate::spelling::push_line;
use anyhow::{Error, Result, anyhow, bail};
use std::alloc::Global;

// The sections with lines below their names, beside the pages.
const WITH_LINES: [&str; 7] = ["in", "resume", "out", "saved", "records", "side", "owners"];

// The sections with words behind their names.
const WITH_WORDS: [&str; 14] = [
    "words",
    "bytes a read",
    "bytes a write",
    "bytes a load",
    "failing reads",
    "failing writes",
    "failing saves",
    "failing loads",
    "failing fetches",
    "cut page",
    "cut resume",
    "status",
    "fetches",
    "waiting",
];

// The words behind a name, where the line begins with this name.
pub(crate) fn words_behind<'a>(line: &'a str, name: &str) -> Option<&'a str> {
    let rest = line.strip_prefix(name)?;
    if rest.is_empty() {
        return Some(rest);
    }
    rest.strip_prefix(' ')
}

// The words behind the name of a section, where the case has it.
pub(crate) fn words<'a>(case: &'a str, name: &str) -> Option<&'a str> {
    case.lines().find_map(|line| words_behind(line, name))
}

// Appends the bytes of the lines below a head.
pub(crate) fn push_lines(alloc: Global, case: &str, head: &str, bytes: &mut Vec<u8>) -> Result<()> {
    let mut below = false;
    for line in case.lines() {
        match line.strip_prefix("  ") {
            None => below = line == head,
            Some(line) if below => push_line(alloc, line, bytes)?,
            Some(_) => {}
        }
    }
    Ok(())
}

// What a section says: the words behind its name, or the bytes of its lines; None where the case doesn't have it.
pub(crate) fn section(alloc: Global, case: &str, name: &str) -> Result<Option<Vec<u8>>> {
    let Some(words) = words(case, name) else {
        return Ok(None);
    };
    let mut bytes = Vec::from_slice(alloc, words.as_bytes())?;
    push_lines(alloc, case, name, &mut bytes)?;
    Ok(Some(bytes))
}

// Whether a line says nothing.
pub(crate) fn is_empty(line: &str) -> bool {
    line.is_empty() || line.starts_with('#')
}

// Why a line or a row is refused.
pub(crate) fn refused(what: &str, text: &str) -> Error {
    anyhow!("{what} {text:?}")
}

// Sees that each line belongs to a section, whose name is known and stands once.
pub(crate) fn check(case: &str) -> Result<()> {
    let mut has_lines = false;
    for line in case.lines() {
        if !line.starts_with("  ") {
            has_lines = check_head(case, line)?;
        } else if !has_lines {
            return Err(refused("no section has the line", line));
        }
    }
    Ok(())
}

// Sees that a head has a name that is known and stands once, and says whether lines may stand below it.
fn check_head(case: &str, head: &str) -> Result<bool> {
    if is_empty(head) {
        return Ok(false);
    }
    if let Some(name) = WITH_WORDS
        .iter()
        .find(|name| words_behind(head, name).is_some())
    {
        let count = case
            .lines()
            .filter(|line| words_behind(line, name).is_some())
            .count();
        return check_count(count, head, false);
    }
    if !WITH_LINES.contains(&head) && !head.starts_with("page ") && !head.starts_with("pages to ") {
        return Err(refused("no section is called", head));
    }
    check_count(
        case.lines().filter(|line| *line == head).count(),
        head,
        true,
    )
}

// Sees that a section stands once, and says of it what is given.
fn check_count(count: usize, head: &str, has_lines: bool) -> Result<bool> {
    if count > 1 {
        bail!("{count} sections are called {head:?}");
    }
    Ok(has_lines)
}
