// All cases of the case files, tried one after the other.

use crate::files::{CaseFile, names, read_file};
use crate::sections::{check, is_empty, refused};
use crate::trier::{Runner, Trial, Trier};
use anyhow::{Context, Result, bail};
use std::alloc::{AllocError, Global};
use std::{fs, io};

// The marks for the parts of a row.
const MARKS: [&str; 9] = ["$1", "$2", "$3", "$4", "$5", "$6", "$7", "$8", "$9"];

/// How many cases were tried, and how many runs that took; and how many differ.
#[derive(Clone, Copy)]
pub struct Tally {
    pub cases: u64,
    pub runs: u64,
    pub failed: u64,
}

/// Tries the cases of the case files, and prints a line for each. Where words are given, only the cases whose names contain one of them are
/// tried.
///
/// # Errors
/// A file or a case can't be read, a line can't be printed, or memory was refused.
pub fn try_cases<R: Runner>(rt: &HostRuntime, runner: &R, wanted: &[String]) -> Result<Tally> {
    let mut tally = Tally {
        cases: 0,
        runs: 0,
        failed: 0,
    };
    let folder = if fs::exists(rt, "data")? { "data" } else { "." };
    for name in names(rt, folder)? {
        let file = read_file(rt, folder, name)?;
        try_file(rt, runner, &file, wanted, &mut tally)?;
    }
    Ok(tally)
}

// Tries the cases of a file, those alone that are wanted.
fn try_file<R: Runner>(
    rt: &HostRuntime,
    runner: &R,
    file: &CaseFile,
    wanted: &[String],
    tally: &mut Tally,
) -> Result<()> {
    let mut parts = file.text.as_str().split("\ncase ");
    let front = parts.next().unwrap_or("");
    if let Some(line) = front.lines().find(|line| !is_empty(line)) {
        return Err(refused("no case begins before the line", line));
    }
    for part in parts {
        let (name, case) = part.split_once('\n').unwrap_or((part, ""));
        let name = format!(in rt.alloc(); "{}: {name}", file.name)?;
        if is_wanted(name.as_str(), wanted) {
            let trier = Trier {
                alloc: rt.alloc(),
                runner,
                file: file.name.as_str(),
                case,
            };
            try_case(rt, &trier, name.as_str(), tally)?;
        }
    }
    Ok(())
}

// Whether the case with this name is to be tried.
fn is_wanted(name: &str, wanted: &[String]) -> bool {
    wanted.is_empty() || wanted.iter().any(|word| name.contains(word.as_str()))
}

// Tries a case, and prints its line.
fn try_case<R: Runner>(
    rt: &HostRuntime,
    trier: &Trier<'_, R>,
    name: &str,
    tally: &mut Tally,
) -> Result<()> {
    let mut trial = Trial {
        runs: 0,
        difference: None,
    };
    try_rows(trier, &mut trial).context(format_args!("{name}"))?;
    print_trial(rt, name, &trial)?;
    tally.cases = tally.cases.saturating_add(1);
    tally.runs = tally.runs.saturating_add(trial.runs);
    tally.failed = tally
        .failed
        .saturating_add(u64::from(trial.difference.is_some()));
    Ok(())
}

// Tries a case: alone, or with each row of its table, which stands at its end.
fn try_rows<R: Runner>(trier: &Trier<'_, R>, trial: &mut Trial) -> Result<()> {
    let Some((template, rows)) = trier.case.split_once("\nrows\n") else {
        check(trier.case)?;
        return trier.try_case(trial);
    };
    if !rows.starts_with("  ") {
        bail!("a table without a row");
    }
    for row in rows.lines() {
        match row.strip_prefix("  ") {
            Some(row) => try_row(trier, template, row, trial).context(format_args!("{row}"))?,
            None if is_empty(row) => {}
            None => return Err(refused("a line behind the table", row)),
        }
        if trial.difference.is_some() {
            return Ok(());
        }
    }
    Ok(())
}

// Tries a case with a row of its table.
fn try_row<R: Runner>(
    trier: &Trier<'_, R>,
    template: &str,
    row: &str,
    trial: &mut Trial,
) -> Result<()> {
    let filled = filled(trier.alloc, template, row)?;
    check(filled.as_str())?;
    let trier = Trier {
        alloc: trier.alloc,
        runner: trier.runner,
        file: trier.file,
        case: filled.as_str(),
    };
    trier.try_case(trial)?;
    Ok(note_row(trier.alloc, row, trial)?)
}

// Says of a difference at which row it was found.
fn note_row(alloc: Global, row: &str, trial: &mut Trial) -> Result<(), AllocError> {
    if let Some(difference) = &trial.difference {
        let difference = format!(in alloc; "     at the row {row}\n{difference}")?;
        trial.difference = Some(difference);
    }
    Ok(())
}

// The case with the parts of a row in place of the marks. Each part has its mark, and each mark its part.
fn filled(alloc: Global, template: &str, row: &str) -> Result<String> {
    let mut text = String::from_str(alloc, template)?;
    let mut parts = row.split(" | ");
    for mark in &MARKS {
        let part = parts.next();
        if part.is_some() != template.contains(*mark) {
            bail!("a mark or a part without the other, at {mark}");
        }
        if let Some(part) = part {
            text = text.replace(alloc, *mark, part)?;
        }
    }
    if parts.next().is_some() {
        bail!("a row with too many parts");
    }
    Ok(text)
}

// Prints the line of a case.
fn print_trial(rt: &HostRuntime, name: &str, trial: &Trial) -> io::Result<()> {
    let runs = trial.runs;
    match &trial.difference {
        None if runs == 1 => println!(rt; "ok   {name}"),
        None => println!(rt; "ok   {name} ({runs} runs)"),
        Some(difference) => {
            let difference = difference.as_str();
            println!(rt; "FAIL {name}\n{difference}")?;
            eprintln!(rt; "FAIL {name}")
        }
    }
}
