// What clap makes of the arguments of a plan: it gets one word for each item, and its matches have the values.

ghost use Rattle.std.specs.Prelude.{◌≡◌, ◌∷◌, ◌++◌, false, fold, map, string_bytes, IfOk, IsSome};
ghost use Rattle.clap.specs.Words.{app_of, found_of, kind_of, rows_of, rule_of, with_rule};
ghost use Rattle.arguments.specs.{Items.items_of, Plan.plan_of, Plan.IsSized, Table.name_of, Table.table_of};
ghost use Rattle.arguments.specs.Matching.{AreItemWords, HasValues, app_for, items_matched, joined_words, rule_of_row};

use crate::items::{Request, push_items};
use crate::plan::{Plan, asked, split_command};
use crate::table::{Command, Row, ValueKind, has_value};
use clap::error::ErrorKind;
use clap::{Arg, ArgAction, ArgMatches, Error};
use rdf_term::OutOfMemory;
use std::alloc::{AllocError, Global};
use std::marker::Model;

/// The arguments of a plan as clap gets them: the name of the command, and one word for each item.
#[derive(Drop)]
pub struct ItemWords {
    command: Command,
    words: Vec<String>,
}

impl Model for ItemWords {
    ghost use Rattle.std.specs.Prelude.{map, string_bytes, Option};
    ghost use Rattle.arguments.specs.{Matching.AreItemWords, Plan.plan_of, declared.plan.Plan.Plan};

    ghost Value = { Option Plan };

    ghost view = { λ w. plan_of (map (λ s. string_bytes s) w.words.items) };

    ghost invariant = { λ w. AreItemWords w.command (map (λ s. string_bytes s) w.words.items) };
}

impl ItemWords {
    /// One word for each item of the arguments.
    pub fn of(alloc: Global, words: &[String]) -> Result<ItemWords, OutOfMemory>
        requires { IsSome (plan_of (map (λ w. string_bytes w) words.now)) }
        ensures { IfOk result (λ items. items ≡ plan_of (map (λ w. string_bytes w) words.now)) }
    {
        let Some((command, after)) = split_command(words) else {
            unreachable!();
        };
        let mut words = Vec::new(alloc);
        match fill(alloc, command, after, &mut words) {
            Ok(()) => Ok(ItemWords { command, words }),
            Err(refused) => {
                drop(words);
                Err(refused)
            }
        }
    }

    /// The plan that the arguments are, as clap reads it. Clap refuses them for want of memory alone.
    pub fn plan(&self, alloc: Global) -> Result<Plan<'_>, OutOfMemory>
        requires { IsSome self.now }
        ensures value { IfOk result (λ plan. self.now ≡ Some plan) }
        ensures sized { IfOk result IsSized }
    {
        let request = Request::matched(alloc, self.command, self.words.as_slice())?;
        let plan = asked(&request);
        drop(request);
        match plan {
            Some(plan) => Ok(plan),
            None => unreachable!(),
        }
    }
}

// Writes the name of the command and one word for each item.
fn fill(
    alloc: Global,
    command: Command,
    after: &[String],
    words: &mut Vec<String>,
) -> Result<(), OutOfMemory>
    ensures { IfOk result (λ _. map (λ w. string_bytes w) words.new.items
        ≡ map (λ w. string_bytes w) words.old.items ++ name_of command ∷ joined_words (items_of (table_of command) (map (λ w. string_bytes w) after.now))) }
{
    words.push(String::from_str(alloc, command.name())?)?;
    push_items(alloc, command, after, words)
}

/// What clap matches in the name of a command and one word for each item.
pub fn matches<'a>(
    alloc: Global,
    command: Command,
    words: &'a [String],
) -> Result<ArgMatches<'a>, OutOfMemory>
    requires { AreItemWords command (map (λ w. string_bytes w) words.now) }
    ensures items { (are : AreItemWords command (map (λ w. string_bytes w) words.now)) → IfOk result (λ m. items_matched (table_of command) (rows_of (found_of m)) ≡ are.items) }
    ensures values { IfOk result (λ m. HasValues (table_of command) (rows_of (found_of m)) (items_matched (table_of command) (rows_of (found_of m)))) }
{
    match clap_command(alloc, command)?.try_get_matches_from(words) {
        Ok(matches) => Ok(matches),
        Err(refused) => Err(memory_refused(&refused)),
    }
}

// The refusal that clap's is, if memory was refused.
fn memory_refused(refused: &Error) -> OutOfMemory
    requires { kind_of refused.now ≡ ErrorKind.OutOfMemory }
{
    OutOfMemory
}

// The command for clap, with an argument for each item.
fn clap_command<'a>(alloc: Global, command: Command) -> Result<clap::Command<'a>, AllocError>
    ensures { IfOk result (λ c. app_of c ≡ app_for command) }
{
    let name: &'a str = command.name();
    with_items(alloc, clap::Command::new(alloc, name), command.table())
}

// The command with an argument for each row of a table.
fn with_items<'a>(
    alloc: Global,
    command: clap::Command<'a>,
    mut table: &'a [Row<'a>],
) -> Result<clap::Command<'a>, AllocError>
    ensures { IfOk result (λ c. app_of c ≡ fold with_rule (app_of command.entry) (map (λ row. rule_of_row row.0.now row.1.now row.2) table.entry.now)) }
{
    let mut command = command;
    while let [row, rest @ ..] = table {
        command = command.arg(argument(alloc, row.0, row.1, row.2))?;
        table = rest;
    }
    Ok(command)
}

// The argument for an item with this name, this name without its hyphens, and a value of this kind.
fn argument<'a>(alloc: Global, name: &'a str, long: &'a str, kind: ValueKind) -> Arg<'a>
    ensures rule { rule_of result ≡ rule_of_row name.entry.now long.entry.now kind }
    ensures local { result.global ≡ false }
{
    let argument = Arg::new(alloc, name).long(long);
    if has_value(Some(kind)) {
        argument
    } else {
        argument.action(ArgAction::SetTrue)
    }
}
