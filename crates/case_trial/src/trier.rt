// A case tried: once, with each of its calls failing in turn, or with each front of a page or of the snapshot.

use crate::change::{Change, Port, apply, place};
use crate::cutting::is_cut;
use crate::failing::{Flow, push_stopped, taken};
use crate::given::{Given, given_by};
use crate::sections::{section, words};
use crate::shown::{Shown, bytes_under, difference, is_feed, push_expected, show};
use anyhow::{Context, Result, bail};
use std::alloc::{AllocError, Global};

/// Makes runs.
pub trait Runner {
    /// Makes a run over what is given, and says what it shows. The owners are those of the triples in `asked`, a line each.
    ///
    /// # Errors
    /// Memory was refused, or `asked` can't be read.
    fn run(&self, alloc: Global, given: Given, asked: &[u8]) -> Result<Vec<Shown>>;
}

// What came of a case: how many runs were made, up to the first that differed, and how that differed.
#[derive(Drop)]
pub(crate) struct Trial {
    pub runs: u64,
    pub difference: Option<String>,
}

impl Trial {
    // Notes one more run, and how it differed.
    pub(crate) fn note(
        &mut self,
        alloc: Global,
        change: Change<'_>,
        difference: Option<String>,
    ) -> Result<(), AllocError> {
        self.runs = self.runs.saturating_add(1);
        if let Some(difference) = difference {
            let (at, number) = place(change);
            self.difference = Some(format!(in alloc; "     at {at} {number}\n{difference}")?);
        }
        Ok(())
    }
}

// What a case is tried with.
#[derive(Clone, Copy)]
enum Turns {
    Once,
    Failing(Port),
    PageFronts(u64),
    SnapshotFronts,
}

// The sections by which a case is tried with each call of a port failing in turn.
const FAILING: [(&str, Port); 3] = [
    ("failing reads", Port::Reads),
    ("failing writes", Port::Writes),
    ("failing loads", Port::Loads),
];

// Whether the case has each call of this section fail in turn. Only the calls of some ports may.
pub(crate) fn fails_in_turn(case: &str, section: &str) -> bool {
    words(case, section) == Some("each") && FAILING.iter().any(|(name, _)| *name == section)
}

// What a case is tried with: at most one thing that is done in turn.
fn turns_of(case: &str) -> Result<Turns> {
    let mut turns = Turns::Once;
    let mut count = 0u64;
    for (name, port) in &FAILING {
        if words(case, name) == Some("each") {
            turns = Turns::Failing(*port);
            count = count.saturating_add(1);
        }
    }
    if let Some(rev) = words(case, "cut page") {
        turns = Turns::PageFronts(rev.parse().context("a page's revision")?);
        count = count.saturating_add(1);
    }
    if words(case, "cut resume").is_some() {
        turns = Turns::SnapshotFronts;
        count = count.saturating_add(1);
    }
    if count > 1 {
        bail!("calls that fail, and fronts, are tried one at a time");
    }
    Ok(turns)
}

// Tries a case of a file.
#[derive(Drop)]
pub(crate) struct Trier<'a, R> {
    pub alloc: Global,
    pub runner: &'a R,
    pub file: &'a str,
    pub case: &'a str,
}

impl<'a, R: Runner> Trier<'a, R> {
    // Tries the case.
    pub(crate) fn try_case(&self, trial: &mut Trial) -> Result<()> {
        let mut expected = Vec::new(self.alloc);
        let tried = self.try_over(&mut expected, trial);
        drop(expected);
        tried
    }

    // Tries the case over what it must show, which comes into the list.
    fn try_over(&self, expected: &mut Vec<Shown>, trial: &mut Trial) -> Result<()> {
        push_expected(self.alloc, self.case, expected)?;
        let expected = expected.as_slice();
        match turns_of(self.case)? {
            Turns::Once => self.try_whole(expected, trial),
            Turns::Failing(port) => self.try_failing(port, expected, trial),
            Turns::PageFronts(rev) => self.try_page_fronts(rev, expected, trial),
            Turns::SnapshotFronts => self.try_snapshot_fronts(trial),
        }
    }

    // Tries the case once, and where it may be cut, cut in two as well.
    fn try_whole(&self, expected: &[Shown], trial: &mut Trial) -> Result<()> {
        self.try_once(Change::Nothing, expected, trial)?;
        if trial.difference.is_none() && is_cut(self.file, self.case) {
            return self.try_cuts(expected, trial);
        }
        Ok(())
    }

    // Makes a run, and notes how it differs.
    pub(crate) fn try_once(
        &self,
        change: Change<'_>,
        expected: &[Shown],
        trial: &mut Trial,
    ) -> Result<()> {
        let asked = bytes_under(expected, "owners").unwrap_or(b"");
        let shown = self.shown(change, asked)?;
        let found = difference(self.alloc, expected, shown.as_slice());
        drop(shown);
        Ok(trial.note(self.alloc, change, found?)?)
    }

    // What a run with a change shows.
    pub(crate) fn shown(&self, change: Change<'_>, asked: &[u8]) -> Result<Vec<Shown>> {
        let mut given = given_by(self.alloc, self.case)?;
        let Ok(()) = apply(self.alloc, change, &mut given) else {
            drop(given);
            return Err(AllocError.into());
        };
        self.runner.run(self.alloc, given, asked)
    }

    // Tries each call of a port failing in turn, and then none.
    fn try_failing(&self, port: Port, expected: &[Shown], trial: &mut Trial) -> Result<()> {
        let given = given_by(self.alloc, self.case)?;
        let tried = match port {
            Port::Reads => {
                let text = given.input.as_slice();
                let bytes = given.reads.bytes;
                self.try_flow(Flow { port, text, bytes }, expected, trial)
            }
            Port::Loads => {
                let text = given.resumed.as_slice();
                let bytes = given.loads.bytes;
                self.try_flow(Flow { port, text, bytes }, expected, trial)
            }
            Port::Writes => {
                let text = bytes_under(expected, "out").unwrap_or(b"");
                let bytes = given.writes.bytes;
                self.try_flow(Flow { port, text, bytes }, expected, trial)
            }
        };
        drop(given);
        tried
    }

    // The same for calls of which it is known what they take.
    fn try_flow(&self, flow: Flow<'_>, expected: &[Shown], trial: &mut Trial) -> Result<()> {
        for calls in 0..=flow.text.len().saturating_add(1) {
            let change = Change::Fails(flow.port, (calls as u64).saturating_add(1));
            let Some(taken) = taken(flow, calls) else {
                let change = if matches!(flow.port, Port::Loads) {
                    Change::Nothing
                } else {
                    change
                };
                return self.try_once(change, expected, trial);
            };
            let out = bytes_under(expected, "out").unwrap_or(b"");
            let mut stopped = Vec::new(self.alloc);
            push_stopped(self.alloc, flow.port, taken, out, &mut stopped)?;
            self.try_once(change, stopped.as_slice(), trial)?;
            if trial.difference.is_some() {
                return Ok(());
            }
        }
        Ok(())
    }

    // Tries each front of a page, from no byte to all but the last: each must show the same.
    fn try_page_fronts(&self, rev: u64, expected: &[Shown], trial: &mut Trial) -> Result<()> {
        for length in 0..self.page_length(rev)? {
            self.try_once(Change::PageFront(rev, length), expected, trial)?;
            if trial.difference.is_some() {
                return Ok(());
            }
        }
        Ok(())
    }

    // How many bytes a page has that has some.
    fn page_length(&self, rev: u64) -> Result<usize> {
        let given = given_by(self.alloc, self.case)?;
        let pages = given.pages.iter();
        let length = pages
            .filter(|page| page.rev == rev && !page.bytes.is_empty())
            .map(|page| page.bytes.len())
            .max();
        drop(given);
        length.context("no page of the revision, or an empty one")
    }

    // Tries each front of the snapshot, from no byte to all but the last: each is refused at its last line, and nothing is printed.
    fn try_snapshot_fronts(&self, trial: &mut Trial) -> Result<()> {
        let whole = section(self.alloc, self.case, "resume")?.context("no snapshot")?;
        for length in 0..whole.len() {
            let front = whole.as_slice().get(..length).unwrap_or(b"");
            self.try_snapshot_front(front, trial)?;
            if trial.difference.is_some() {
                return Ok(());
            }
        }
        Ok(())
    }

    // Tries a front of the snapshot.
    fn try_snapshot_front(&self, front: &[u8], trial: &mut Trial) -> Result<()> {
        let line = front
            .iter()
            .filter(|byte| is_feed(byte))
            .count()
            .saturating_add(1);
        let status = format!(in self.alloc; "8 wdq: snapshot: line {line}")?;
        let mut expected = Vec::new(self.alloc);
        show(self.alloc, "status", status.as_bytes(), &mut expected)?;
        show(self.alloc, "out", b"", &mut expected)?;
        self.try_once(
            Change::SnapshotFront(front.len()),
            expected.as_slice(),
            trial,
        )
    }
}
