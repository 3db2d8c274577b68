// What the triples of one owner change of those that are stored.

ghost use Rattle.std.specs.Prelude.{◌≡◌, ◌+◌, ◌||◌, true, length, nat_lt, IfOk, IsOk};
ghost use Rattle.std.specs.FinMap as map;
ghost use Rattle.sorted_sets.specs.Rising.{IsRising, has, sorted};
ghost use Rattle.rdf_term.specs.Order.{triple_cmp};
ghost use Rattle.slot_keys.specs.{declared.key.Key.Key as TheKey, Keys.key_cmp};
ghost use Rattle.triple_catalog.specs.{Costs.Costs, Lines.AreLinesOf, Lines.sole, Moves.triples_at, Stored.IsStored, Stored.is_key};
ghost use Rattle.triple_store.specs.Telling.{LinesIf, if_told, tells_change};

use comparison_steps::StepCounter;
use rdf_term::OutOfMemory;
use slot_keys::Key;
use text_region::Region;
use triple_catalog::{Catalog, TripleLines};

/// How much a call tells of what it changed of the stored triples.
#[derive(Clone, Copy, PartialEq, Eq)]
pub enum Telling {
    /// It tells nothing, and pays nothing for it.
    Nothing,
    /// It tells whether it changed which triples are stored. This takes look-ups, but no memory.
    Whether,
    /// It tells the change.
    Change,
}

/// What a call told of its change of the stored triples.
#[derive(Drop)]
pub enum Told {
    /// Nothing.
    Nothing,
    /// Whether there was one.
    Whether(bool),
    /// The change.
    Change(Change),
}

impl Told {
    /// Whether it tells that there was a change.
    pub fn is_change(&self) -> bool
        ensures { result ≡ tells_change self.now }
    {
        match self {
            Told::Nothing => false,
            Told::Whether(changed) => *changed,
            Told::Change(change) => change.came.count > 0 || change.gone.count > 0,
        }
    }
}

/// The triples that a call made stored, and those that it made stored no longer.
#[derive(Drop)]
pub struct Change {
    pub came: TripleLines,
    pub gone: TripleLines,
}

// The keys that an owner had, and those that it has from now on.
#[derive(Clone, Copy)]
pub(crate) struct Sides<'a> {
    pub(crate) old: &'a [Key],
    pub(crate) new: &'a [Key],
}

// What is asked for: whether the new keys made triples stored, or triples will go with the old keys, or which. The triples of both are
// stored. Only the lines of triples take memory.
pub(crate) fn change_if<C: StepCounter>(
    catalog: &Catalog,
    telling: Telling,
    region: &Region,
    sides: Sides<'_>,
    steps: &mut C,
) -> Result<Told, OutOfMemory>
    requires stored { IsStored catalog.now region.now }
    requires rising { IsRising key_cmp sides.old.now }
    requires rising_new { IsRising key_cmp sides.new.now }
    requires there { (key : TheKey) → has key_cmp key sides.old.now ≡ true → is_key catalog.now key ≡ true }
    requires there_new { (key : TheKey) → has key_cmp key sides.new.now ≡ true → is_key catalog.now key ≡ true }
    ensures lines { IfOk result (λ told. LinesIf telling (sorted triple_cmp (triples_at catalog.now region.now (sole catalog.now sides.entry.new.now sides.entry.old.now))) (sorted triple_cmp (triples_at catalog.now region.now (sole catalog.now sides.entry.old.now sides.entry.new.now))) told) }
    ensures free { (telling ≡ Telling.Change → ⊥) → IsOk result }
    ensures cost { Costs (map.len catalog.now.index) (map.len catalog.now.index) 0 (if_told telling (length sides.entry.new.now + length sides.entry.old.now)) (C.total steps.old) (C.total steps.new) }
{
    match telling {
        Telling::Nothing => Ok(Told::Nothing),
        Telling::Whether => Ok(Told::Whether(is_change(catalog, sides, steps))),
        Telling::Change => {
            let change = change_of(catalog, region, sides, steps)?;
            Ok(Told::Change(change))
        }
    }
}

// Whether a triple came or goes.
fn is_change<C: StepCounter>(catalog: &Catalog, sides: Sides<'_>, steps: &mut C) -> bool
    requires rising { IsRising key_cmp sides.old.now }
    requires rising_new { IsRising key_cmp sides.new.now }
    ensures some { result ≡ (nat_lt 0 (length (sole catalog.now sides.entry.new.now sides.entry.old.now)) || nat_lt 0 (length (sole catalog.now sides.entry.old.now sides.entry.new.now))) }
    ensures cost { Costs (map.len catalog.now.index) (map.len catalog.now.index) 0 (length sides.entry.new.now + length sides.entry.old.now) (C.total steps.old) (C.total steps.new) }
{
    if catalog.has_sole(sides.new, sides.old, steps) {
        return true;
    }
    catalog.has_sole(sides.old, sides.new, steps)
}

// Which triples came and go. A triple came where its key is a new one alone and has one owner, and it goes where its key is an old
// one alone and has one owner.
fn change_of<C: StepCounter>(
    catalog: &Catalog,
    region: &Region,
    sides: Sides<'_>,
    steps: &mut C,
) -> Result<Change, OutOfMemory>
    requires stored { IsStored catalog.now region.now }
    requires rising { IsRising key_cmp sides.old.now }
    requires rising_new { IsRising key_cmp sides.new.now }
    requires there { (key : TheKey) → has key_cmp key sides.old.now ≡ true → is_key catalog.now key ≡ true }
    requires there_new { (key : TheKey) → has key_cmp key sides.new.now ≡ true → is_key catalog.now key ≡ true }
    ensures came { IfOk result (λ change. AreLinesOf change.came (sorted triple_cmp (triples_at catalog.now region.now (sole catalog.now sides.entry.new.now sides.entry.old.now)))) }
    ensures gone { IfOk result (λ change. AreLinesOf change.gone (sorted triple_cmp (triples_at catalog.now region.now (sole catalog.now sides.entry.old.now sides.entry.new.now)))) }
    ensures cost { Costs (map.len catalog.now.index) (map.len catalog.now.index) 0 (length sides.entry.new.now + length sides.entry.old.now) (C.total steps.old) (C.total steps.new) }
{
    let came = catalog.sole_lines(region, sides.new, sides.old, steps)?;
    let gone = catalog.sole_lines(region, sides.old, sides.new, steps)?;
    Ok(Change { came, gone })
}
