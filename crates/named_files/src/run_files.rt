// The files that the arguments name.

ghost use Rattle.std.specs.Prelude.{◌≡◌, [], map, option_map, string_bytes, unwrap_or, IfOk, IsSome};
ghost use Rattle.arguments.specs.Plan.{plan_of};
ghost use Rattle.named_files.specs.Naming.{named, resumed_by, saved_by};

use crate::snapshot_file::FileNames;
use arguments::{ItemWords, Plan, ReplayOptions, read_plan};
use base::OutOfMemory;
use std::alloc::Global;

/// The names of the file to which the world is saved, and of the one that the run goes on from.
#[derive(Drop)]
pub struct RunFiles {
    /// That to which the world is saved.
    pub saved: FileNames,
    /// That from which the run goes on.
    pub resumed: String,
}

impl RunFiles {
    /// The files that the arguments name. A name is empty where there is none.
    pub fn of(alloc: Global, words: &[String]) -> Result<RunFiles, OutOfMemory>
        ensures saved { IfOk result (λ files. string_bytes files.saved.name ≡ named saved_by (plan_of (map (λ w. string_bytes w) words.now))) }
        ensures resumed { IfOk result (λ files. string_bytes files.resumed ≡ named resumed_by (plan_of (map (λ w. string_bytes w) words.now))) }
    {
        if read_plan(words).is_none() {
            return files(alloc, "", "");
        }
        let items = ItemWords::of(alloc, words)?;
        let files = files_of_items(alloc, &items);
        drop(items);
        files
    }
}

// The files that a plan names, of which clap reads the items.
fn files_of_items(alloc: Global, items: &ItemWords) -> Result<RunFiles, OutOfMemory>
    requires { IsSome items.now }
    ensures saved { IfOk result (λ files. string_bytes files.saved.name ≡ named saved_by items.now) }
    ensures resumed { IfOk result (λ files. string_bytes files.resumed ≡ named resumed_by items.now) }
{
    let plan = items.plan(alloc)?;
    match &plan {
        Plan::Replay(options) | Plan::Patches(options) => files_of_options(alloc, options),
        Plan::Split(options) => files_of_options(alloc, options.replay()),
        Plan::Drill(_) | Plan::Follow(_) => files(alloc, "", ""),
    }
}

// The files that the options of a run name.
fn files_of_options(alloc: Global, options: &ReplayOptions<'_>) -> Result<RunFiles, OutOfMemory>
    ensures saved { IfOk result (λ files. string_bytes files.saved.name ≡ unwrap_or options.now.save []) }
    ensures resumed { IfOk result (λ files. string_bytes files.resumed ≡ unwrap_or options.now.resume []) }
{
    files(alloc, or_empty(options.save()), or_empty(options.resume()))
}

// A name that may be there, or the empty one.
fn or_empty(name: Option<&str>) -> &str
    ensures { result.now ≡ unwrap_or (option_map (λ n. n.now) name.entry) [] }
{
    match name {
        Some(name) => name,
        None => "",
    }
}

// The files with these names.
fn files(alloc: Global, saved: &str, resumed: &str) -> Result<RunFiles, OutOfMemory>
    ensures saved { IfOk result (λ files. string_bytes files.saved.name ≡ saved.now) }
    ensures resumed { IfOk result (λ files. string_bytes files.resumed ≡ resumed.now) }
{
    let resumed = String::from_str(alloc, resumed)?;
    match FileNames::of(alloc, saved) {
        Ok(saved) => Ok(RunFiles { saved, resumed }),
        Err(refused) => {
            drop(resumed);
            Err(refused)
        }
    }
}
