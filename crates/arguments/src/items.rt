// The items that the arguments after a command are.

ghost use Rattle.std.specs.Prelude.{◌≡◌, ◌≤◌, [], ◌∷◌, ◌++◌, true, length, map, option_map, string_bytes, IfOk, IfSome};
ghost use Rattle.arguments.specs.Table.{IsInRange, fits, is_of_kind, is_value, kind_in, table_of};
ghost use Rattle.arguments.specs.Items.{are_items, is_there, item_named, item_of_word, items_of, number_in, value_in};
ghost use Rattle.arguments.specs.Plan.{understood};
ghost use Rattle.arguments.specs.{Grammar.words_of_item, Matching.AreItemWords, Matching.joined_words};

use crate::matching::matches;
use crate::numbers::read_number;
use crate::table::{Command, ValueKind, has_value};
use clap::ArgMatches;
use rdf_term::OutOfMemory;
use std::alloc::{AllocError, Global};
use std::marker::Model;

/// An item as the arguments have it.
#[derive(Drop)]
pub struct Item<'a> {
    name: &'a str,
    value: Option<&'a str>,
}

impl<'a> Model for Item<'a> {
    ghost use Rattle.std.specs.Prelude.{option_map};
    ghost use Rattle.arguments.specs.Items.{Item};

    ghost Value = { Item };

    ghost view = { λ i. record { name = i.name.now; value = option_map (λ v. v.now) i.value } };
}

/// Where the items are: in the arguments, or in what clap matched.
#[derive(Drop)]
pub enum Values<'a> {
    /// In the arguments.
    Written(&'a [String]),
    /// In what clap matched.
    Matched(ArgMatches<'a>),
}

/// The arguments after a command, which are items of its table, each at most once and each with a value that fits.
#[derive(Drop)]
pub struct Request<'a> {
    command: Command,
    values: Values<'a>,
}

impl<'a> Model for Request<'a> {
    ghost use Rattle.arguments.specs.{Items.Request, Matching.AreReadable, Matching.items_in};

    ghost Value = { Request };

    ghost view = { λ r. record { command = r.command; items = items_in r.command r.values } };

    ghost invariant = { λ r. AreReadable r.command r.values };
}

impl<'a> Request<'a> {
    /// The request that a command and the arguments after it are, if these are items of its table.
    pub fn read(command: Command, words: &'a [String]) -> Option<Request<'a>>
        ensures items { option_map (λ r. r.items) result ≡ understood (table_of command) (map (λ w. string_bytes w) words.now) }
        ensures command { IfSome result (λ r. r.command ≡ command) }
    {
        if are_items(command, words) {
            let values = Values::Written(words);
            Some(Request { command, values })
        } else {
            None
        }
    }

    /// The request that clap matches in these words: the name of a command, and one word for each item.
    pub fn matched(
        alloc: Global,
        command: Command,
        words: &'a [String],
    ) -> Result<Request<'a>, OutOfMemory>
        requires { AreItemWords command (map (λ w. string_bytes w) words.now) }
        ensures { (are : AreItemWords command (map (λ w. string_bytes w) words.now)) → IfOk result (λ r. (r.command ≡ command) × (r.items ≡ are.items)) }
    {
        let values = Values::Matched(matches(alloc, command, words)?);
        Ok(Request { command, values })
    }

    /// The command.
    pub fn command(&self) -> Command
        ensures { result ≡ self.now.command }
    {
        self.command
    }

    /// The value of the item with this name, if it is there.
    pub fn text(&self, name: &str) -> Option<&'a str>
        ensures { option_map (λ v. v.now) result ≡ value_in name.now self.now.items }
    {
        match &self.values {
            Values::Written(words) => find_item(self.command, words, name)?.value,
            Values::Matched(matches) => {
                if has_value(self.command.kind_of(name)) {
                    matches.get_str(name)
                } else {
                    None
                }
            }
        }
    }

    /// The number that the item with this name has, if it is there.
    pub fn number(&self, name: &str) -> Option<u64>
        ensures value { result ≡ number_in (table_of self.now.command) name.now self.now.items }
        ensures within { IfSome result (λ n. IsInRange (kind_in (table_of self.now.command) name.now) n) }
    {
        let text = self.text(name)?;
        match self.command.kind_of(name) {
            Some(ValueKind::Number(least, greatest)) => read_number(text, least, greatest),
            _ => None,
        }
    }

    /// Whether the item with this name is there.
    pub fn has(&self, name: &str) -> bool
        ensures { result ≡ is_there name.now self.now.items }
    {
        match &self.values {
            Values::Written(words) => find_item(self.command, words, name).is_some(),
            Values::Matched(matches) => match self.command.kind_of(name) {
                None => false,
                Some(ValueKind::Flag) => matches.get_flag(name),
                Some(ValueKind::Text) => matches.get_str(name).is_some(),
                Some(ValueKind::Number(_, _)) => matches.get_str(name).is_some(),
            },
        }
    }
}

/// Adds one word for each item.
pub fn push_items(
    alloc: Global,
    command: Command,
    words: &[String],
    joined: &mut Vec<String>,
) -> Result<(), OutOfMemory>
    ensures { IfOk result (λ _. map (λ w. string_bytes w) joined.new.items
        ≡ map (λ w. string_bytes w) joined.old.items ++ joined_words (items_of (table_of command) (map (λ w. string_bytes w) words.now))) }
{
    let mut rest = words;
    while let Some((word, after)) = rest.split_first() {
        let (item, left) = next_item(command, word.as_str(), after);
        joined.push(joined_word(alloc, &item)?)?;
        rest = left;
    }
    Ok(())
}

// The one word of an item.
fn joined_word(alloc: Global, item: &Item<'_>) -> Result<String, AllocError>
    ensures { IfOk result (λ word. words_of_item item.now.name item.now.value true ≡ string_bytes word ∷ []) }
{
    let name = item.name;
    match item.value {
        Some(value) => format!(in alloc; "{name}={value}"),
        None => String::from_str(alloc, name),
    }
}

// Whether the arguments are items of the command's table, each with a value that fits, and no name comes twice.
fn are_items(command: Command, words: &[String]) -> bool
    ensures { result ≡ are_items (table_of command) (items_of (table_of command) (map (λ w. string_bytes w) words.now)) }
{
    let mut rest = words;
    while let Some((word, after)) = rest.split_first() {
        let (item, left) = next_item(command, word.as_str(), after);
        if !fits(command.kind_of(item.name), item.value) {
            return false;
        }
        if find_item(command, left, item.name).is_some() {
            return false;
        }
        rest = left;
    }
    true
}

// The first item with this name.
fn find_item<'a>(command: Command, words: &'a [String], name: &str) -> Option<Item<'a>>
    ensures { result ≡ item_named name.now (items_of (table_of command) (map (λ w. string_bytes w) words.now)) }
{
    let mut rest = words;
    while let Some((word, after)) = rest.split_first() {
        let (item, left) = next_item(command, word.as_str(), after);
        if item.name == name {
            return Some(item);
        }
        rest = left;
    }
    None
}

// The item that begins with the argument, and the arguments after it.
fn next_item<'a>(command: Command, word: &'a str, after: &'a [String]) -> (Item<'a>, &'a [String])
    ensures item { items_of (table_of command) (word.now ∷ map (λ w. string_bytes w) after.now)
        ≡ result.0 ∷ items_of (table_of command) (map (λ w. string_bytes w) result.1.now) }
    ensures shorter { length result.1.now ≤ length after.now }
{
    if has_value(command.kind_of(word)) {
        if let Some((value, left)) = after.split_first() {
            let value = Some(value.as_str());
            return (Item { name: word, value }, left);
        }
    }
    (item_of_word(word), after)
}

// The item that one argument is.
fn item_of_word(word: &str) -> Item<'_>
    ensures { result ≡ item_of_word word.now }
{
    match word.split_once('=') {
        Some((name, value)) => Item {
            name,
            value: Some(value),
        },
        None => Item {
            name: word,
            value: None,
        },
    }
}

// Whether an item of this kind may have this value, or none.
fn fits(kind: Option<ValueKind>, value: Option<&str>) -> bool
    ensures { result ≡ fits kind (option_map (λ v. v.now) value.entry) }
{
    match (kind, value) {
        (Some(ValueKind::Flag), None) => true,
        (Some(kind), Some(text)) => is_of_kind(kind, text),
        _ => false,
    }
}

// Whether a text is a value of this kind.
fn is_of_kind(kind: ValueKind, text: &str) -> bool
    ensures { result ≡ is_of_kind kind text.now }
{
    match kind {
        ValueKind::Flag => false,
        ValueKind::Text => is_value(text),
        ValueKind::Number(least, greatest) => read_number(text, least, greatest).is_some(),
    }
}

// Whether a text may be a value.
fn is_value(text: &str) -> bool
    ensures { result ≡ is_value text.now }
{
    match text.as_bytes() {
        [] => false,
        [first, ..] => *first != b'-',
    }
}
