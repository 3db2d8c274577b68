// What holds of the definitions themselves. Each law is the contract of a function that does nothing.

ghost use Rattle.std.specs.Prelude.{◌≡◌, ◌↔◌, ℕ, false, List};
ghost use Rattle.sorted_sets.specs.Rising.{IsRising};
ghost use Rattle.rdf_term.specs.{declared.triple.Triple.Triple, Order.triple_cmp};
ghost use Rattle.triple_store.specs.declared.telling.Change.{Change};
ghost use Rattle.holders.specs.Changing.{IsChangeOf};
ghost use Rattle.replica.specs.Record.{record_text};
ghost use Rattle.patch_stream.specs.Stream.{change_text, is_change, record_of_step, step};

/// The text that tells a change is that of the record of its step.
pub fn changes_are_told_by_records()
    ensures { (number : ℕ) (before after : List Triple) (change : Change) → IsChangeOf before after change → change_text number change ≡ record_text (record_of_step number (step before after)) }
{}

/// A step changes nothing exactly where what is stored after it is what was stored before.
pub fn changes_differ()
    ensures { (before after : List Triple) → IsRising triple_cmp before → IsRising triple_cmp after → (is_change (step before after) ≡ false) ↔ (after ≡ before) }
{}
