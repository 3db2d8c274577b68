// What a replay, a patch stream, a follower and a split are asked for.

ghost use Rattle.std.specs.Prelude.{◌≡◌, ◌⊎◌, ℕ, ◌≤◌, ◌^◌, false, codes, option_map, IfSome};
ghost use Rattle.arguments.specs.{Items.number_in, Table.IsInRange, Table.kind_in, Table.table_of};
ghost use Rattle.arguments.specs.Options.{IsAllowed, IsBounded, IsItemInRange, choices_of, follow_choices_of, follow_max_bytes_of, max_bytes_of, closes, folder_of, max_terms_of, split_choices_of};
ghost use Rattle.arguments.specs.declared.table.Command.TheVariants.{Replay, Patches, Follow, Split};

use crate::items::Request;
use rdf_term::DEFAULT_MAX_TERMS;
use std::marker::Model;

/// The default of `--from`.
const FOLDER: &str = ".";

/// The default of `--max-bytes`.
const MAX_BYTES: u64 = 1_073_741_824;

/// What a replay or a patch stream is asked for, as the arguments say it. A patch stream has no sections, and it alone may be lean.
#[derive(Drop)]
pub struct ReplayOptions<'a> {
    folder: Option<&'a str>,
    max_bytes: Option<u64>,
    max_terms: Option<u32>,
    horizon: Option<u64>,
    export: bool,
    state: bool,
    side: bool,
    save: Option<&'a str>,
    every: Option<u32>,
    resume: Option<&'a str>,
    lean: bool,
}

impl<'a> Model for ReplayOptions<'a> {
    ghost use Rattle.std.specs.Prelude.{codes};
    ghost use Rattle.std.specs.Option.{option_map};
    ghost use Rattle.arguments.specs.Options.{Choices, IsItemInRange};

    ghost Value = { Choices };

    ghost view = { λ a. record {
      folder = option_map (λ p. p.now) a.folder;
      max_bytes = a.max_bytes;
      max_terms = a.max_terms;
      horizon = a.horizon;
      export = a.export;
      state = a.state;
      side = a.side;
      save = option_map (λ p. p.now) a.save;
      every = a.every;
      resume = option_map (λ p. p.now) a.resume;
      lean = a.lean;
    } };

    ghost invariant = { λ a. IsItemInRange (codes "--max-bytes") a.max_bytes × IsItemInRange (codes "--max-terms") a.max_terms
        × IsItemInRange (codes "--horizon") a.horizon × IsItemInRange (codes "--every") a.every };
}

impl<'a> ReplayOptions<'a> {
    /// What the items after `replay` or `patches` ask for, where this says whether the run is lean.
    pub fn of_items(items: &Request<'a>, lean: bool) -> ReplayOptions<'a>
        requires { (items.now.command ≡ Replay) ⊎ (items.now.command ≡ Patches) }
        ensures choices { result ≡ choices_of (table_of items.now.command) lean items.now.items }
        ensures lean { result.lean ≡ lean }
        ensures bounded { items.now.command ≡ Patches → IsBounded result }
    {
        ReplayOptions {
            folder: items.text("--from"),
            max_bytes: items.number("--max-bytes"),
            max_terms: small_number(items, "--max-terms"),
            horizon: items.number("--horizon"),
            export: items.has("--export"),
            state: items.has("--state"),
            side: items.has("--side"),
            save: items.text("--save"),
            every: small_number(items, "--every"),
            resume: items.text("--resume"),
            lean,
        }
    }

    /// The folder of the revisions.
    pub fn folder(&self) -> &str
        ensures { result.now ≡ folder_of self.now }
    {
        match self.folder {
            Some(folder) => folder,
            None => FOLDER,
        }
    }

    /// The maximum size of the input in bytes.
    pub fn max_bytes(&self) -> u64
        ensures value { result ≡ max_bytes_of self.now }
        ensures bounded { result ≤ 2 ^ 40 }
        ensures within { IsAllowed self.now }
    {
        self.max_bytes.unwrap_or(MAX_BYTES)
    }

    /// The limit: the maximum number of distinct terms in the store.
    pub fn max_terms(&self) -> u32
        ensures { result ≡ max_terms_of self.now }
    {
        self.max_terms.unwrap_or(DEFAULT_MAX_TERMS)
    }

    /// The horizon in microseconds, if there is one.
    pub fn horizon(&self) -> Option<u64>
        ensures { result ≡ self.now.horizon }
    {
        self.horizon
    }

    /// Whether all triples are printed at the end.
    pub fn export(&self) -> bool
        ensures { result ≡ self.now.export }
    {
        self.export
    }

    /// Whether the states of the entities are printed at the end.
    pub fn state(&self) -> bool
        ensures { result ≡ self.now.state }
    {
        self.state
    }

    /// Whether the side output is printed at the end.
    pub fn side(&self) -> bool
        ensures { result ≡ self.now.side }
    {
        self.side
    }

    /// The file in which the world is saved at the end of the input, if it is saved.
    pub fn save(&self) -> Option<&'a str>
        ensures { option_map (λ p. p.now) result ≡ self.now.save }
    {
        self.save
    }

    /// N, if a snapshot is also written after every N-th watermark line.
    pub fn every(&self) -> Option<u32>
        ensures value { result ≡ self.now.every }
        ensures within { IsItemInRange (codes "--every") result }
    {
        self.every
    }

    /// The file of the snapshot that the run continues from, if it does.
    pub fn resume(&self) -> Option<&'a str>
        ensures { option_map (λ p. p.now) result ≡ self.now.resume }
    {
        self.resume
    }

    /// Whether only triples that two pages may share are stored. The changes of the triples of all pages are reported all the same.
    pub fn lean(&self) -> bool
        ensures { result ≡ self.now.lean }
    {
        self.lean
    }

    /// Whether the end of the input is the end of the deliveries: if the world is saved, more may come in a later run.
    pub fn closes(&self) -> bool
        ensures { result ≡ closes self.now }
    {
        self.save.is_none()
    }
}

// The number that the item with this name has, if it is there; its range is within 32 bits.
fn small_number(items: &Request<'_>, name: &str) -> Option<u32>
    requires { (n : ℕ) → IsInRange (kind_in (table_of items.now.command) name.now) n → n ≤ 4294967295 }
    ensures value { result ≡ number_in (table_of items.now.command) name.now items.now.items }
    ensures within { IfSome result (IsInRange (kind_in (table_of items.now.command) name.now)) }
{
    let number = items.number(name)?;
    Some(number as u32)
}

/// What a follower is asked for, as the arguments say it.
#[derive(Drop)]
pub struct FollowOptions {
    max_bytes: Option<u64>,
    export: bool,
}

impl Model for FollowOptions {
    ghost use Rattle.std.specs.Prelude.{◌≤◌, IfSome};
    ghost use Rattle.arguments.specs.Options.{FollowChoices};

    ghost Value = { FollowChoices };

    ghost view = { λ a. record { max_bytes = a.max_bytes; export = a.export } };

    ghost invariant = { λ a. IfSome a.max_bytes (λ n. n ≤ 1099511627776) };
}

impl FollowOptions {
    /// What the items after `follow` ask for.
    pub fn of_items(items: &Request<'_>) -> FollowOptions
        requires { items.now.command ≡ Follow }
        ensures { result ≡ follow_choices_of items.now.items }
    {
        FollowOptions {
            max_bytes: items.number("--max-bytes"),
            export: items.has("--export"),
        }
    }

    /// The maximum size of the input in bytes.
    pub fn max_bytes(&self) -> u64
        ensures value { result ≡ follow_max_bytes_of self.now }
        ensures bounded { result ≤ 2 ^ 40 }
    {
        self.max_bytes.unwrap_or(MAX_BYTES)
    }

    /// Whether the triples are printed at the end.
    pub fn export(&self) -> bool
        ensures { result ≡ self.now.export }
    {
        self.export
    }
}

/// What a split is asked for, as the arguments say it.
#[derive(Drop)]
pub struct SplitOptions<'a> {
    route: &'a str,
    replay: ReplayOptions<'a>,
}

impl<'a> Model for SplitOptions<'a> {
    ghost use Rattle.arguments.specs.Options.{SplitChoices};

    ghost Value = { SplitChoices };

    ghost view = { λ a. record { route = a.route.now; replay = a.replay } };
}

impl<'a> SplitOptions<'a> {
    /// What the items after `split` ask for, with this text of the routes.
    pub fn of_items(items: &Request<'a>, route: &'a str) -> SplitOptions<'a>
        requires { items.now.command ≡ Split }
        ensures choices { result ≡ split_choices_of items.now.items route.now }
        ensures lean { result.replay.lean ≡ false }
    {
        let replay = ReplayOptions {
            folder: items.text("--from"),
            max_bytes: items.number("--max-bytes"),
            max_terms: small_number(items, "--max-terms"),
            horizon: items.number("--horizon"),
            export: false,
            state: false,
            side: false,
            save: items.text("--save"),
            every: small_number(items, "--every"),
            resume: items.text("--resume"),
            lean: false,
        };
        SplitOptions { route, replay }
    }

    /// The text of the routes.
    pub fn route(&self) -> &str
        ensures { result.now ≡ self.now.route }
    {
        self.route
    }

    /// What a replay of the same lines would be asked for.
    pub fn replay(&self) -> &ReplayOptions<'a>
        ensures { result.now ≡ self.now.replay }
    {
        &self.replay
    }
}
