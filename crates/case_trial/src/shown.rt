// What a run shows, or has to show, and the first difference between both.

use crate::sections::section;
use anyhow::{Context, Result};
use std::alloc::{AllocError, Global};
use std::str;

/// What a run shows, or has to show, under the name of a section.
#[derive(Drop)]
pub struct Shown {
    pub name: &'static str,
    pub bytes: Vec<u8>,
}

// The names under which a run shows something.
const NAMES: [&str; 8] = [
    "status", "out", "saved", "records", "side", "owners", "fetches", "waiting",
];

/// Appends what is shown under a name.
///
/// # Errors
/// Memory was refused.
pub fn show(
    alloc: Global,
    name: &'static str,
    bytes: &[u8],
    list: &mut Vec<Shown>,
) -> Result<(), AllocError> {
    let bytes = Vec::from_slice(alloc, bytes)?;
    list.push(Shown { name, bytes })?;
    Ok(())
}

// The bytes under a name, where they are in the list.
pub(crate) fn bytes_under<'a>(list: &'a [Shown], name: &str) -> Option<&'a [u8]> {
    let shown = list.iter().find(|shown| shown.name == name)?;
    Some(shown.bytes.as_slice())
}

// The number under a name.
pub(crate) fn number_under(list: &[Shown], name: &str) -> Result<u64> {
    let bytes = bytes_under(list, name).context("no number")?;
    Ok(str::from_utf8(bytes)?.parse()?)
}

// Appends what a run of the case must show: without sections of their own it ends with Ok and prints nothing.
pub(crate) fn push_expected(alloc: Global, case: &str, list: &mut Vec<Shown>) -> Result<()> {
    for name in NAMES {
        if let Some(bytes) = section(alloc, case, name)? {
            list.push(Shown { name, bytes })?;
        } else if name == "status" {
            show(alloc, name, b"0", list)?;
        } else if name == "out" {
            show(alloc, name, b"", list)?;
        }
    }
    Ok(())
}

// The first difference between what a run must show and what it shows.
pub(crate) fn difference(
    alloc: Global,
    expected: &[Shown],
    found: &[Shown],
) -> Result<Option<String>, AllocError> {
    for shown in expected {
        let bytes = bytes_under(found, shown.name).unwrap_or(b"");
        if shown.bytes.as_slice() != bytes {
            return Ok(Some(differing(alloc, shown.name, shown.bytes.as_slice(), bytes)?));
        }
    }
    Ok(None)
}

// The first lines in which two texts differ.
pub(crate) fn differing(
    alloc: Global,
    what: &str,
    expected: &[u8],
    found: &[u8],
) -> Result<String, AllocError> {
    let index = equal_lines(expected, found);
    let number = index.saturating_add(1);
    let expected = printed(alloc, expected.split_inclusive(is_feed).nth(index))?;
    let found = printed(alloc, found.split_inclusive(is_feed).nth(index))?;
    format!(in alloc; "     {what}, line {number}\n     expected {expected}\n     found    {found}")
}

// Whether a byte ends a line.
pub(crate) fn is_feed(byte: &u8) -> bool {
    *byte == b'\n'
}

// How many lines at the front are equal.
fn equal_lines(a: &[u8], b: &[u8]) -> usize {
    let pairs = a.split_inclusive(is_feed).zip(b.split_inclusive(is_feed));
    pairs.take_while(|pair| pair.0 == pair.1).count()
}

// A line as a text, as far as it can be shown, or that there is none.
fn printed(alloc: Global, line: Option<&[u8]>) -> Result<String, AllocError> {
    let mut text = String::new(alloc);
    match line {
        Some(line) => push_printed(line, &mut text)?,
        None => text.push_str("nothing more")?,
    }
    Ok(text)
}

// Appends a line, as far as it can be shown.
fn push_printed(line: &[u8], text: &mut String) -> Result<(), AllocError> {
    for byte in line.iter().take(400) {
        match byte {
            b' '..=b'~' => text.push(char::from(*byte))?,
            b'\n' => {}
            _ => write!(text, "\\x{byte:02x}")?,
        }
    }
    Ok(())
}
