// The commands, and the table of each: the names of its items, with the kinds of their values.

ghost use Rattle.std.specs.Prelude.{◌≡◌, map};
ghost use Rattle.arguments.specs.Table.{command_named, entry, has_value, kind_in, name_of, table_of};
ghost use Rattle.arguments.specs.Matching.{rule_for, rule_of_row};

/// What an item has as its value.
#[derive(Clone, Copy)]
pub enum ValueKind {
    /// No value.
    Flag,
    /// A text that isn't empty and doesn't begin with `-`.
    Text,
    /// A whole number in decimal, from the first to the second.
    Number(u64, u64),
}

/// A row of a table: the name of an item, the same without its hyphens, and the kind of its value.
pub type Row<'a> = (&'a str, &'a str, ValueKind);

// How many bytes the input may have.
const BYTES: ValueKind = ValueKind::Number(0, 1_099_511_627_776);

// The same of a patch stream: it numbers its records in 64 bits, so it reads fewer bytes.
const FEWER_BYTES: ValueKind = ValueKind::Number(0, 4_294_967_295);

// A number of terms, or of watermark lines.
const COUNT: ValueKind = ValueKind::Number(1, 4_294_967_295);

// A number of microseconds.
const MICROS: ValueKind = ValueKind::Number(0, 9_223_372_036_854_775_807);

// The items of a replay.
const REPLAY: [Row<'static>; 10] = [
    ("--from", "from", ValueKind::Text),
    ("--max-bytes", "max-bytes", BYTES),
    ("--max-terms", "max-terms", COUNT),
    ("--horizon", "horizon", MICROS),
    ("--save", "save", ValueKind::Text),
    ("--every", "every", COUNT),
    ("--resume", "resume", ValueKind::Text),
    ("--export", "export", ValueKind::Flag),
    ("--state", "state", ValueKind::Flag),
    ("--side", "side", ValueKind::Flag),
];

// The items of a drill.
const DRILL: [Row<'static>; 1] = [("--size", "size", ValueKind::Number(1, 200_000))];

// The items of a patch stream.
const PATCHES: [Row<'static>; 8] = [
    ("--from", "from", ValueKind::Text),
    ("--max-bytes", "max-bytes", FEWER_BYTES),
    ("--max-terms", "max-terms", COUNT),
    ("--horizon", "horizon", MICROS),
    ("--save", "save", ValueKind::Text),
    ("--every", "every", COUNT),
    ("--resume", "resume", ValueKind::Text),
    ("--lean", "lean", ValueKind::Flag),
];

// The items of a follower.
const FOLLOW: [Row<'static>; 2] = [
    ("--max-bytes", "max-bytes", BYTES),
    ("--export", "export", ValueKind::Flag),
];

// The items of a split.
const SPLIT: [Row<'static>; 8] = [
    ("--from", "from", ValueKind::Text),
    ("--max-bytes", "max-bytes", BYTES),
    ("--max-terms", "max-terms", COUNT),
    ("--horizon", "horizon", MICROS),
    ("--save", "save", ValueKind::Text),
    ("--every", "every", COUNT),
    ("--resume", "resume", ValueKind::Text),
    ("--route", "route", ValueKind::Text),
];

/// A command of the program.
#[derive(Clone, Copy)]
pub enum Command {
    /// To replay the event lines of the input.
    Replay,
    /// To replay deliveries and pages that are made from a number.
    Drill,
    /// To replay the event lines of the input, and to print each change of the stored triples as a record.
    Patches,
    /// To build a producer's triples from records of their changes.
    Follow,
    /// To replay the event lines of the input into several graphs.
    Split,
}

impl Command {
    /// The command with this name.
    pub fn named(word: &str) -> Option<Command>
        ensures { result ≡ command_named word.now }
    {
        match word {
            "replay" => Some(Command::Replay),
            "drill" => Some(Command::Drill),
            "patches" => Some(Command::Patches),
            "follow" => Some(Command::Follow),
            "split" => Some(Command::Split),
            _ => None,
        }
    }

    /// The name of the command.
    pub fn name(self) -> &'static str
        ensures { result.now ≡ name_of self }
    {
        match self {
            Command::Replay => "replay",
            Command::Drill => "drill",
            Command::Patches => "patches",
            Command::Follow => "follow",
            Command::Split => "split",
        }
    }

    /// The kind of the value of the command's item with this name, if the command has such an item.
    pub fn kind_of(self, name: &str) -> Option<ValueKind>
        ensures { result ≡ kind_in (table_of self) name.now }
    {
        kind_in(self.table(), name)
    }

    /// The items of the command: the name of each, the same without its hyphens, and the kind of its value.
    pub fn table(self) -> &'static [Row<'static>]
        ensures kinds { map (λ row. entry row.0.now row.2) result.now ≡ table_of self }
        ensures rules { map (λ row. rule_of_row row.0.now row.1.now row.2) result.now ≡ map rule_for (table_of self) }
    {
        match self {
            Command::Replay => &REPLAY,
            Command::Drill => &DRILL,
            Command::Patches => &PATCHES,
            Command::Follow => &FOLLOW,
            Command::Split => &SPLIT,
        }
    }
}

// The kind of the value of the item with this name, if the table has it.
fn kind_in(mut table: &[Row<'_>], name: &str) -> Option<ValueKind>
    ensures { result ≡ kind_in (map (λ row. entry row.0.now row.2) table.entry.now) name.now }
{
    while let [row, rest @ ..] = table {
        if name == row.0 {
            return Some(row.2);
        }
        table = rest;
    }
    None
}

/// Whether an item of this kind has a value.
pub fn has_value(kind: Option<ValueKind>) -> bool
    ensures { result ≡ has_value kind }
{
    match kind {
        Some(ValueKind::Text) | Some(ValueKind::Number(_, _)) => true,
        Some(ValueKind::Flag) | None => false,
    }
}
