// What the arguments ask for.

ghost use Rattle.std.specs.Prelude.{◌≡◌, None, map, option_and_then, string_bytes, IfSome, MatchOption};
ghost use Rattle.arguments.specs.Plan.{IsSized, asked, asked_by, has_file, plan_of, understood};
ghost use Rattle.arguments.specs.Table.{table_of};

use crate::items::Request;
use crate::options::{FollowOptions, ReplayOptions, SplitOptions};
use crate::table::Command;

/// What the arguments ask for.
#[derive(Drop)]
pub enum Plan<'a> {
    /// To replay the event lines of the input.
    Replay(ReplayOptions<'a>),
    /// To replay deliveries and pages that are made from this number, and to print a summary.
    Drill(u32),
    /// To replay the event lines of the input, and to print each change of the stored triples as a record.
    Patches(ReplayOptions<'a>),
    /// To build a producer's triples from records of their changes.
    Follow(FollowOptions),
    /// To replay the event lines of the input into several graphs.
    Split(SplitOptions<'a>),
}

/// The plan that the arguments are: a command, and then items of its table in any order, each at most once; a drill has its size, a split
/// the text of its routes, and a run that saves on the way its file.
pub fn read_plan<'a>(words: &'a [String]) -> Option<Plan<'a>>
    ensures value { result ≡ plan_of (map (λ w. string_bytes w) words.now) }
    ensures sized { IfSome result IsSized }
{
    let (command, after) = split_command(words)?;
    let request = Request::read(command, after)?;
    let plan = asked(&request);
    drop(request);
    plan
}

/// The command that the first argument names, and the arguments after it.
pub fn split_command(words: &[String]) -> Option<(Command, &[String])>
    ensures { MatchOption result (plan_of (map (λ w. string_bytes w) words.now) ≡ None)
        (λ parts. plan_of (map (λ w. string_bytes w) words.now)
        ≡ option_and_then (asked parts.0) (understood (table_of parts.0) (map (λ w. string_bytes w) parts.1.now))) }
{
    let (word, after) = words.split_first()?;
    let command = Command::named(word.as_str())?;
    Some((command, after))
}

/// What a command and its items ask for, where a world that is saved on the way has a file to be saved to.
pub fn asked<'a>(request: &Request<'a>) -> Option<Plan<'a>>
    ensures value { result ≡ asked request.now.command request.now.items }
    ensures sized { IfSome result IsSized }
{
    if has_file(request) {
        asked_by(request)
    } else {
        None
    }
}

// Whether a world that is saved on the way has a file to be saved to.
fn has_file(request: &Request<'_>) -> bool
    ensures { result ≡ has_file request.now.items }
{
    request.has("--save") || !request.has("--every")
}

// What a command and its items ask for.
fn asked_by<'a>(request: &Request<'a>) -> Option<Plan<'a>>
    ensures value { result ≡ asked_by request.now.command request.now.items }
    ensures sized { IfSome result IsSized }
{
    match request.command() {
        Command::Replay => Some(Plan::Replay(ReplayOptions::of_items(request, false))),
        Command::Drill => {
            let size = request.number("--size")?;
            Some(Plan::Drill(size as u32))
        }
        Command::Patches => {
            let lean = request.has("--lean");
            Some(Plan::Patches(ReplayOptions::of_items(request, lean)))
        }
        Command::Follow => Some(Plan::Follow(FollowOptions::of_items(request))),
        Command::Split => {
            let route = request.text("--route")?;
            Some(Plan::Split(SplitOptions::of_items(request, route)))
        }
    }
}
