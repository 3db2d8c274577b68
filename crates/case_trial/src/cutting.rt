// A run cut in two after each of its lines: the first part is saved, and the second goes on from the snapshot.

use crate::change::{Change, First};
use crate::given::{Given, push_word};
use crate::sections::{section, words};
use crate::shown::{Shown, bytes_under, differing, is_feed, number_under, show};
use crate::trier::{Runner, Trial, Trier};
use anyhow::Result;
use std::alloc::{AllocError, Global};

// The most lines of a case that is cut: each of its runs costs as much as the whole.
const MOST_LINES: usize = 64;

// Whether a case is cut: a run of these commands that ends with Ok and isn't saved, none of whose reads and writes fails.
pub(crate) fn is_cut(file: &str, case: &str) -> bool {
    is_file_cut(file)
        && is_command_cut(case)
        && ["saved", "resume", "failing reads", "failing writes"]
            .iter()
            .all(|name| words(case, name).is_none())
        && words(case, "status").unwrap_or("0") == "0"
}

// Whether the cases of a file are cut.
fn is_file_cut(file: &str) -> bool {
    matches!(
        file,
        "states" | "late" | "horizon" | "mapping" | "questions" | "matches" | "patches" | "split"
    )
}

// Whether the runs of the case's command are cut.
fn is_command_cut(case: &str) -> bool {
    let words = words(case, "words").unwrap_or("");
    let (command, _) = words.split_once(' ').unwrap_or((words, ""));
    matches!(command, "replay" | "patches" | "split")
}

// Whether a word asks for a section, which only the second part has.
fn is_section(word: &str) -> bool {
    matches!(word, "--export" | "--state" | "--side")
}

// How many bytes so many lines have.
fn length_of(text: &[u8], lines: usize) -> usize {
    let lines = text.split_inclusive(is_feed).take(lines);
    lines.fold(0usize, |length, line| length.saturating_add(line.len()))
}

// Leaves the first lines, and the words that save.
pub(crate) fn keep_first(alloc: Global, lines: usize, given: &mut Given) -> Result<(), AllocError> {
    given.words.retain(|word| !is_section(word.as_str()));
    push_word(alloc, "--save=day", &mut given.words)?;
    let length = length_of(given.input.as_slice(), lines);
    given.input.truncate(length);
    Ok(())
}

// Lets a run go on from what the first part saved, with the lines behind it. The calls that fail are counted on.
pub(crate) fn go_on(alloc: Global, first: First<'_>, given: &mut Given) -> Result<(), AllocError> {
    push_word(alloc, "--resume=day", &mut given.words)?;
    given.resumed.extend_from_slice(first.saved)?;
    for call in given.fetches.failing.iter_mut() {
        *call = call.saturating_sub(first.fetches);
    }
    given.input = lines_behind(alloc, given.input.as_slice(), first.lines)?;
    Ok(())
}

// The lines of a text behind so many.
fn lines_behind(alloc: Global, text: &[u8], lines: usize) -> Result<Vec<u8>, AllocError> {
    let length = length_of(text, lines);
    Vec::from_slice(alloc, text.get(length..).unwrap_or(b""))
}

// What a part printed before the triples of its graphs, if it has graphs.
fn before_graphs(out: &[u8]) -> &[u8] {
    let lines = out.split_inclusive(is_feed);
    let lines = lines.take_while(|line| !line.starts_with(b"# graph "));
    let length = lines.fold(0usize, |length, line| length.saturating_add(line.len()));
    out.get(..length).unwrap_or(out)
}

// Appends what the second part must show: this output, the fetches that are left, and everything else as the whole.
fn push_rest(
    alloc: Global,
    expected: &[Shown],
    out: &[u8],
    fetches: u64,
    list: &mut Vec<Shown>,
) -> Result<()> {
    for shown in expected {
        match shown.name {
            "out" => show(alloc, "out", out, list)?,
            "fetches" => {
                let left = number_under(expected, "fetches")?.saturating_sub(fetches);
                let left = format!(in alloc; "{left}")?;
                show(alloc, "fetches", left.as_bytes(), list)?;
            }
            name => show(alloc, name, shown.bytes.as_slice(), list)?,
        }
    }
    Ok(())
}

impl<'a, R: Runner> Trier<'a, R> {
    // Cuts the run after each of its lines, where they aren't many, and before the first. One run of the whole was made before.
    pub(crate) fn try_cuts(&self, expected: &[Shown], trial: &mut Trial) -> Result<()> {
        let lines = match section(self.alloc, self.case, "in")? {
            Some(input) => input.as_slice().split_inclusive(is_feed).count(),
            None => 0,
        };
        if lines > MOST_LINES {
            return Ok(());
        }
        for cut in 0..=lines {
            self.try_cut(cut, expected, trial)?;
            if trial.difference.is_some() {
                return Ok(());
            }
        }
        Ok(())
    }

    // Cuts the run after so many lines.
    fn try_cut(&self, lines: usize, expected: &[Shown], trial: &mut Trial) -> Result<()> {
        let first = self.shown(Change::First(lines), b"")?;
        let tried = self.try_second(lines, first.as_slice(), expected, trial);
        drop(first);
        tried
    }

    // Tries the second part behind a first one.
    fn try_second(
        &self,
        lines: usize,
        shown: &[Shown],
        expected: &[Shown],
        trial: &mut Trial,
    ) -> Result<()> {
        let status = bytes_under(shown, "status").unwrap_or(b"");
        let out = bytes_under(expected, "out").unwrap_or(b"");
        let answers = before_graphs(bytes_under(shown, "out").unwrap_or(b""));
        let rest = out.strip_prefix(answers);
        let difference = match rest {
            _ if status != b"0".as_slice() => Some(differing(self.alloc, "status", b"0", status)?),
            None => Some(differing(self.alloc, "out", out, answers)?),
            Some(_) => None,
        };
        trial.note(self.alloc, Change::First(lines), difference)?;
        match rest {
            Some(rest) if trial.difference.is_none() => {
                let first = First {
                    lines,
                    saved: bytes_under(shown, "saved").unwrap_or(b""),
                    fetches: number_under(shown, "fetches")?,
                };
                self.try_rest(first, rest, expected, trial)
            }
            _ => Ok(()),
        }
    }

    // Tries the second part, of which the output is known.
    fn try_rest(
        &self,
        first: First<'_>,
        out: &[u8],
        expected: &[Shown],
        trial: &mut Trial,
    ) -> Result<()> {
        let mut rest = Vec::new(self.alloc);
        push_rest(self.alloc, expected, out, first.fetches, &mut rest)?;
        self.try_once(Change::Second(first), rest.as_slice(), trial)
    }
}
