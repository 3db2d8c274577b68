// The bytes that the lines of a section stand for.
//
// Each line has its short form written out, and its line feed behind it. `times 3 LINE` is the line three times, with `%d` for 1, 2
// and 3. A `\` at the end of a line takes the line feed away, and `\x` with two hexadecimal digits is one byte.

use anyhow::{Context, Result};
use std::alloc::{AllocError, Global};

// Appends what a line stands for, and its line feed where no `\` takes it away.
pub(crate) fn push_line(alloc: Global, line: &str, bytes: &mut Vec<u8>) -> Result<()> {
    let (line, end) = match line.strip_suffix('\\') {
        Some(line) => (line, ""),
        None => (line, "\n"),
    };
    match line.strip_prefix("times ") {
        None => push_form(alloc, line, bytes),
        Some(counted) => push_counted(alloc, counted, bytes),
    }
    .context(format_args!("{line}"))?;
    Ok(bytes.extend_from_slice(end.as_bytes())?)
}

// Appends a line so many times, with the number for each `%d` in it.
fn push_counted(alloc: Global, counted: &str, bytes: &mut Vec<u8>) -> Result<()> {
    let (times, line) = counted.split_once(' ').context("no line")?;
    let times: u64 = times.parse()?;
    for number in 1..=times {
        if number > 1 {
            bytes.push(b'\n')?;
        }
        let line = numbered(alloc, line, number)?;
        push_form(alloc, line.as_str(), bytes)?;
    }
    Ok(())
}

// A text with a number for each `%d`.
pub(crate) fn numbered(alloc: Global, text: &str, number: u64) -> Result<String, AllocError> {
    let number = format!(in alloc; "{number}")?;
    text.replace(alloc, "%d", number.as_str())
}

// Appends what a line stands for, by its first word.
fn push_form(alloc: Global, line: &str, bytes: &mut Vec<u8>) -> Result<()> {
    let (word, rest) = line.split_once(' ').unwrap_or((line, ""));
    let form = match word {
        "edit" | "delete" | "undelete" | "reconcile" => event(alloc, word, rest)?,
        "watermark" => watermark(alloc, rest)?,
        "ask" => format!(in alloc; "{{\"ask\":[{rest}]}}")?,
        "item" => format!(in alloc; "{{\"type\":\"item\",\"id\":\"{rest}\"}}")?,
        "redirect" => redirect(alloc, rest)?,
        "repeat" => return push_repeated(alloc, rest, bytes),
        _ => return push_text(line, bytes),
    };
    push_text(form.as_str(), bytes)
}

// `edit Q1 r5 t5`, and so `delete` and `undelete`; `reconcile Q1 r5 t5 kept`, or `deleted`.
fn event(alloc: Global, kind: &str, rest: &str) -> Result<String> {
    let (id, rest) = rest.split_once(" r").context("no revision")?;
    let (rev, rest) = rest.split_once(" t").context("no time")?;
    let (time, mode) = rest.split_once(' ').unwrap_or((rest, ""));
    let zero = zero_before(time);
    let (name, end) = if mode.is_empty() {
        ("", "")
    } else {
        ("\",\"mode\":\"", mode)
    };
    let line = format!(in alloc;
        "{{\"kind\":\"{kind}\",\"entity\":\"{id}\",\"rev\":{rev},\"time\":\"2024-05-01T10:00:{zero}{time}Z{name}{end}\"}}"
    );
    Ok(line?)
}

// `watermark t5`.
fn watermark(alloc: Global, rest: &str) -> Result<String> {
    let time = rest.strip_prefix('t').context("no time")?;
    let zero = zero_before(time);
    Ok(format!(in alloc; "{{\"watermark\":\"2024-05-01T10:00:{zero}{time}Z\"}}")?)
}

// The zero before a number of seconds of one digit.
fn zero_before(time: &str) -> &'static str {
    let (seconds, _) = time.split_once('.').unwrap_or((time, ""));
    if seconds.len() < 2 { "0" } else { "" }
}

// `redirect Q1 Q2`, the page of Q1.
fn redirect(alloc: Global, rest: &str) -> Result<String> {
    let (from, to) = rest.split_once(' ').context("no target")?;
    Ok(format!(in alloc; "{{\"entity\":\"{from}\",\"redirect\":\"{to}\"}}")?)
}

// `repeat 65 [`.
fn push_repeated(alloc: Global, rest: &str, bytes: &mut Vec<u8>) -> Result<()> {
    let (times, text) = rest.split_once(' ').context("no text")?;
    let times: u64 = times.parse()?;
    let mut once = Vec::new(alloc);
    push_text(text, &mut once)?;
    for _ in 0..times {
        bytes.extend_from_slice(once.as_slice())?;
    }
    Ok(())
}

// Appends a text, with the bytes of its escapes.
fn push_text(text: &str, bytes: &mut Vec<u8>) -> Result<()> {
    let (front, escaped) = text.split_once("\\x").unwrap_or((text, ""));
    bytes.extend_from_slice(front.as_bytes())?;
    if escaped.is_empty() {
        return Ok(());
    }
    for part in escaped.split("\\x") {
        let (digits, rest) = part.split_at_checked(2).context("two digits are missing")?;
        bytes.push(u8::from_str_radix(digits, 16)?)?;
        bytes.extend_from_slice(rest.as_bytes())?;
    }
    Ok(())
}
